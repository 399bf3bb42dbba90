//! The tables of a request of logs.
ghost use Rattle.std.specs.Prelude.{◌≡◌, ◌≤◌, map, min, IfOk};
ghost use Rattle.otlp_model.specs.Limits.{weight_limit, count_cap};
ghost use Rattle.otlp_model.specs.Profile.{IsProfile};
ghost use Rattle.otlp_model.specs.Weight.{weight_of};
ghost use Rattle.otlp_model.specs.declared.request.Request.TheVariants.{Logs};
ghost use Rattle.otap_cells.specs.declared.payload.Kind.TheVariants as table;
ghost use Rattle.otap_groups.specs.Weighing.{cells_weight};
ghost use Rattle.otap_logs.specs.Records.{record_cells};
ghost use Rattle.otap_logs.specs.Tables.{tables_of_logs};
ghost use Rattle.otap_logs.specs.Writable.{CanWriteRecord};

use otap_attrs::{nested_bytes, push_filled, value_cells, value_cells_weight, write_attributes};
use otap_cells::{
    Kind, LogicalTable, TableSet, bits_cell, int_cell, log_columns, number_cell, octets_cell,
    text_cell,
};
use otap_groups::{Flat, FrontCells, RowWriter, flatten, resources_of, scopes_of, write_rows};
use otlp_model::{Items, LogRecord, ResourceGroup, sum_capped};
use std::alloc::{AllocError, Global};

/// The column of a body's type. The other columns of its value come after it.
const BODY: usize = 15;

/// The cell that a column has of a field, by how the field is written. `$body` names the cells of the body, which are made before.
macro_rules! cell {
    (bits $log:ident $field:ident $body:ident $column:literal) => {
        bits_cell($log.$field)
    };
    (number $log:ident $field:ident $body:ident $column:literal) => {
        number_cell($log.$field)
    };
    (int $log:ident $field:ident $body:ident $column:literal) => {
        int_cell(i64::from($log.$field))
    };
    (text $log:ident $field:ident $body:ident $column:literal) => {
        text_cell(&$log.$field)
    };
    (octets $log:ident $field:ident $body:ident $column:literal) => {
        octets_cell(&$log.$field)
    };
    (value $log:ident $field:ident $body:ident $column:literal) => {
        $body[$column - BODY]
    };
}

/// The cells of a row: those in front, and then those of its record.
macro_rules! row {
    (($front:ident, $log:ident, $body:ident) $($field:ident: $how:ident { $($column:literal $($part:literal)+ $base:ident $($mark:ident)?);+ })*) => {
        [
            $front.id,
            $front.resource_id,
            $front.resource_url,
            $front.resource_dropped,
            $front.scope_id,
            $front.scope_name,
            $front.scope_version,
            $front.scope_dropped,
            $front.schema_url,
            $($(cell!($how $log $field $body $column),)+)*
        ]
    };
}

/// The bytes of the cells of a field.
macro_rules! row_weight {
    (text $log:ident $field:ident) => {
        $log.$field.len() as u64
    };
    (octets $log:ident $field:ident) => {
        $log.$field.len() as u64
    };
    (value $log:ident $field:ident) => {
        value_cells_weight(&$log.$field)
    };
    ($how:ident $log:ident $field:ident) => {
        0
    };
}

/// The bytes of the cells of each field.
macro_rules! row_weights {
    (($log:ident) $($field:ident: $how:ident { $($line:tt)* })*) => {
        [$(row_weight!($how $log $field)),*]
    };
}

/// Writes the rows of log records.
#[derive(Clone, Copy, Debug)]
struct RecordWriter {
    alloc: Global,
}

impl RowWriter for RecordWriter {
    type Item = LogRecord;

    ghost kind = { table.Logs };

    ghost cells_of = { record_cells };

    ghost CanWrite = { CanWriteRecord };

    fn kind(&self) -> Kind {
        Kind::Logs
    }

    fn push<'a>(
        &self,
        table: &mut LogicalTable,
        front: &FrontCells<'a>,
        log: &'a LogRecord,
    ) -> Result<(), AllocError> {
        let mut nested = Vec::new(self.alloc);
        nested_bytes(&mut nested, &log.body)?;
        let body = value_cells(&log.body, &nested);
        table.push_cells(&log_columns!(row(front, log, body)))
    }
}

/// The bytes of a record's own cells, or `CAP` where they are more.
pub(crate) fn record_weight(log: &LogRecord) -> u64
    requires { CanWriteRecord log.now }
    ensures { result ≡ min (cells_weight (record_cells log.now)) count_cap }
{
    sum_capped(&log_columns!(row_weights(log)))
}

/// The tables of a request of logs: its records, then its attributes, where there are some, by their payload types. Takes
/// n log n for n attributes.
pub fn tables_of(
    alloc: Global,
    groups: &Items<ResourceGroup<LogRecord>>,
) -> Result<TableSet<LogicalTable>, AllocError>
    requires profile { IsProfile (Logs groups.now) }
    requires weight { weight_of (Logs groups.now) ≤ weight_limit }
    ensures { IfOk result (λ set. set ≡ tables_of_logs groups.now) }
{
    let groups = groups.as_slice();
    let rows = flatten(alloc, groups)?;
    let main = write_rows(alloc, &RecordWriter { alloc }, &rows)?;
    let resources = resources_of(alloc, groups)?;
    let resources = write_attributes(alloc, Kind::ResourceAttrs, &resources)?;
    let scopes = scopes_of(alloc, groups)?;
    let scopes = write_attributes(alloc, Kind::ScopeAttrs, &scopes)?;
    let records = records_of(alloc, &rows)?;
    let records = write_attributes(alloc, Kind::LogAttrs, &records)?;
    let mut tables = Vec::new(alloc);
    tables.push((Kind::Logs, main))?;
    push_filled(&mut tables, resources)?;
    push_filled(&mut tables, scopes)?;
    push_filled(&mut tables, records)?;
    Ok(TableSet { tables })
}

/// The records of some rows.
fn records_of<'a>(
    alloc: Global,
    rows: &[Flat<'a, LogRecord>],
) -> Result<Vec<&'a LogRecord>, AllocError>
    ensures { IfOk result (λ found. map (λ log. log.now) found.items ≡ map (λ row. row.item.now) rows.now) }
{
    let mut found = Vec::with_capacity(alloc, rows.len())?;
    'rows: for row in rows {
        found.push(row.item)?;
    }
    Ok(found)
}
