//! Metrics.
ghost use Rattle.std.specs.Prelude.{◌≡◌};
ghost use Rattle.otap_signals.specs.Instances.{metrics};

use crate::signal_tables::SignalTables;
use otap_attrs::CheckRefusal;
use otap_cells::{LogicalTable, Rows, TableSet};
use otap_checks::{Grouped, RegroupRefusal};
use otap_metrics::laws::{
    each_metric_has_a_row, rebuilt_is_no_heavier, tables_by_type, tables_can_be_written,
    tables_have_no_defects, tables_tell_the_same,
};
use otap_metrics::reading_laws::cells_and_ids_decide;
use otap_metrics::{check_rows, regroup, table_weight, tables_of};
use otlp_model::{Items, Metric, Request, ResourceGroup};
use std::alloc::{AllocError, Global};

/// Metrics.
#[derive(Clone, Copy, Debug)]
pub struct MetricSignal;

impl SignalTables for MetricSignal {
    type Item = Metric;

    ghost rows = { metrics };

    fn request(groups: Items<ResourceGroup<Metric>>) -> Request
        ensures { result ≡ metrics.request groups }
    {
        Request::Metrics(groups)
    }

    fn table_weight(groups: &Items<ResourceGroup<Metric>>) -> u64 {
        table_weight(groups)
    }

    fn tables_of(
        alloc: Global,
        groups: &Items<ResourceGroup<Metric>>,
    ) -> Result<TableSet<LogicalTable>, AllocError> {
        tables_of(alloc, groups)
    }

    fn check_rows<R: Rows>(alloc: Global, set: &TableSet<R>) -> Result<u64, CheckRefusal> {
        check_rows(alloc, set)
    }

    fn regroup<R: Rows>(
        alloc: Global,
        set: &TableSet<R>,
    ) -> Result<Grouped<Metric>, RegroupRefusal> {
        regroup(alloc, set)
    }

    fn tables_come_back() {
        tables_tell_the_same();
        tables_have_no_defects();
        rebuilt_is_no_heavier();
        tables_can_be_written();
        tables_by_type();
        each_metric_has_a_row();
    }

    fn requests_read_alike() {
        cells_and_ids_decide();
    }
}
