//! Logs.
ghost use Rattle.std.specs.Prelude.{◌≡◌};
ghost use Rattle.otap_signals.specs.Instances.{logs};

use crate::signal_tables::SignalTables;
use otap_attrs::CheckRefusal;
use otap_cells::{LogicalTable, Rows, TableSet};
use otap_checks::{Grouped, RegroupRefusal};
use otap_logs::laws::{
    each_record_has_a_row, rebuilt_is_no_heavier, tables_by_type, tables_can_be_written,
    tables_have_no_defects, tables_tell_the_same,
};
use otap_logs::reading_laws::cells_and_ids_decide;
use otap_logs::{check_rows, regroup, table_weight, tables_of};
use otlp_model::{Items, LogRecord, Request, ResourceGroup};
use std::alloc::{AllocError, Global};

/// Logs.
#[derive(Clone, Copy, Debug)]
pub struct LogSignal;

impl SignalTables for LogSignal {
    type Item = LogRecord;

    ghost rows = { logs };

    fn request(groups: Items<ResourceGroup<LogRecord>>) -> Request
        ensures { result ≡ logs.request groups }
    {
        Request::Logs(groups)
    }

    fn table_weight(groups: &Items<ResourceGroup<LogRecord>>) -> u64 {
        table_weight(groups)
    }

    fn tables_of(
        alloc: Global,
        groups: &Items<ResourceGroup<LogRecord>>,
    ) -> Result<TableSet<LogicalTable>, AllocError> {
        tables_of(alloc, groups)
    }

    fn check_rows<R: Rows>(alloc: Global, set: &TableSet<R>) -> Result<u64, CheckRefusal> {
        check_rows(alloc, set)
    }

    fn regroup<R: Rows>(
        alloc: Global,
        set: &TableSet<R>,
    ) -> Result<Grouped<LogRecord>, RegroupRefusal> {
        regroup(alloc, set)
    }

    fn tables_come_back() {
        tables_tell_the_same();
        tables_have_no_defects();
        rebuilt_is_no_heavier();
        tables_can_be_written();
        tables_by_type();
        each_record_has_a_row();
    }

    fn requests_read_alike() {
        cells_and_ids_decide();
    }
}
