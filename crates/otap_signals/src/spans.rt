//! Traces.
ghost use Rattle.std.specs.Prelude.{◌≡◌};
ghost use Rattle.otap_signals.specs.Instances.{spans};

use crate::signal_tables::SignalTables;
use otap_attrs::CheckRefusal;
use otap_cells::{LogicalTable, Rows, TableSet};
use otap_checks::{Grouped, RegroupRefusal};
use otap_spans::laws::{
    each_span_has_a_row, rebuilt_is_no_heavier, tables_by_type, tables_can_be_written,
    tables_have_no_defects, tables_tell_the_same,
};
use otap_spans::reading_laws::cells_and_ids_decide;
use otap_spans::{check_rows, regroup, table_weight, tables_of};
use otlp_model::{Items, Request, ResourceGroup, Span};
use std::alloc::{AllocError, Global};

/// Traces.
#[derive(Clone, Copy, Debug)]
pub struct SpanSignal;

impl SignalTables for SpanSignal {
    type Item = Span;

    ghost rows = { spans };

    fn request(groups: Items<ResourceGroup<Span>>) -> Request
        ensures { result ≡ spans.request groups }
    {
        Request::Traces(groups)
    }

    fn table_weight(groups: &Items<ResourceGroup<Span>>) -> u64 {
        table_weight(groups)
    }

    fn tables_of(
        alloc: Global,
        groups: &Items<ResourceGroup<Span>>,
    ) -> Result<TableSet<LogicalTable>, AllocError> {
        tables_of(alloc, groups)
    }

    fn check_rows<R: Rows>(alloc: Global, set: &TableSet<R>) -> Result<u64, CheckRefusal> {
        check_rows(alloc, set)
    }

    fn regroup<R: Rows>(alloc: Global, set: &TableSet<R>) -> Result<Grouped<Span>, RegroupRefusal> {
        regroup(alloc, set)
    }

    fn tables_come_back() {
        tables_tell_the_same();
        tables_have_no_defects();
        rebuilt_is_no_heavier();
        tables_can_be_written();
        tables_by_type();
        each_span_has_a_row();
    }

    fn requests_read_alike() {
        cells_and_ids_decide();
    }
}
