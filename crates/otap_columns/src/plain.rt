//! The columns of a table for an Arrow file: all of them, as they are read.

ghost use Rattle.std.specs.Prelude.{◌≡◌, ◌<◌, ◌≤◌, ◌++◌, ◌∷◌, [], length, IfOk, IsTrue, OnOk};
ghost use Rattle.std.specs.List.{slice_index_or};
ghost use Rattle.arrow_schema.specs.Limits.{max_written_fields, max_written_names};
ghost use Rattle.arrow_schema.specs.Readable.{IsReadable};
ghost use Rattle.arrow_schema.specs.Trees.{count_of};
ghost use Rattle.arrow_schema.specs.Writing.{names_of, widths_fit, encodings_named};
ghost use Rattle.arrow_arrays.specs.Arrays.{arrays_of};
ghost use Rattle.arrow_arrays.specs.Nodes.{HasNodesOf};
ghost use Rattle.otap_cells.specs.Columns.{width_of};
ghost use Rattle.otap_cells.specs.Tables.{IsTable, profile_table};
ghost use Rattle.otap_cells.specs.Weights.{row_weight_limit, weight_of_table};
ghost use Rattle.otap_columns.specs.Plain.{HoldsPlain, plain_forms, plain_schema};
ghost use Rattle.otap_columns.specs.PlainInside.{ArePlain};

use crate::forms::ColumnForm;
use crate::writer::cells::is_null;
use crate::writer::rows::rows_of;
use crate::writer::schema::schema_of;
use crate::writer::unseen_columns;
use arrow_ipc::BatchBuilder;
use arrow_schema::SchemaSpec;
use arrow_schema::laws::added_is_read;
use otap_cells::{Kind, LogicalTable, Rows, base_of, columns};
use std::alloc::{AllocError, Global};

/// The schema of a table with all columns of its kind: no dictionaries, ids as numbers of 32 bits. The field of each column of
/// ids names how the rows store them, by the key `encoding` of its metadata. Tables of one kind whose ids are stored alike have
/// the same schema. It can be written.
pub fn plain_schema<R: Rows>(alloc: Global, kind: Kind, rows: &R) -> Result<SchemaSpec, AllocError>
    requires kind { (R.table rows.now).kind ≡ kind }
    ensures says { IfOk result (λ schema. schema ≡ plain_schema (R.table rows.now)) }
    ensures readable { IfOk result IsReadable }
    ensures few { IfOk result (λ schema. count_of schema ≤ max_written_fields) }
    ensures names { IfOk result (λ schema. names_of schema ≤ max_written_names) }
    ensures widths { IfOk result (λ schema. IsTrue (widths_fit schema)) }
    ensures encodings { IfOk result (λ schema. IsTrue (encodings_named schema)) }
{
    added_is_read();
    let forms = forms_of(alloc, rows)?;
    schema_of(alloc, kind, &forms)
}

/// The record batch of a table under that schema: its cells, with exact null counts. It takes the time to copy them twice.
pub fn plain_batch<R: Rows>(alloc: Global, kind: Kind, rows: &R) -> Result<BatchBuilder, AllocError>
    requires kind { (R.table rows.now).kind ≡ kind }
    requires light { weight_of_table (R.table rows.now) ≤ row_weight_limit }
    ensures holds { IfOk result (HoldsPlain (R.table rows.now)) }
    ensures nodes { IfOk result (HasNodesOf (arrays_of (plain_schema (R.table rows.now)))) }
{
    let forms = forms_of(alloc, rows)?;
    let table = copied(alloc, rows)?;
    let unseen = unseen_columns(alloc, kind)?;
    rows_of(alloc, &table, &forms, &unseen)
}

/// The forms of all columns.
fn forms_of<R: Rows>(alloc: Global, rows: &R) -> Result<Vec<ColumnForm>, AllocError>
    ensures plain { IfOk result (λ forms. ArePlain (R.table rows.now) forms.items) }
    ensures sound { IsTable (R.table rows.now) }
{
    let _rows = rows.rows();
    let mut forms = Vec::new(alloc);
    let count = columns(rows.kind()).len() as u32;
    'columns: for column in 0..count {
        forms.push(form_of(rows, column))?;
    }
    Ok(forms)
}

fn form_of<R: Rows>(rows: &R, column: u32) -> ColumnForm
    requires { column < width_of (R.table rows.now).kind }
    ensures { result ≡ plain_forms (R.table rows.now) column }
{
    if !base_of(rows.kind(), column).is_id() {
        return ColumnForm::Plain;
    }
    ColumnForm::Coded(rows.coding(column))
}

/// The rows in a table of its own, without how their ids are stored.
fn copied<R: Rows>(alloc: Global, rows: &R) -> Result<LogicalTable, AllocError>
    ensures { IfOk result (λ table. table ≡ profile_table (R.table rows.now).kind (R.table rows.now).rows) }
{
    let count = rows.rows();
    let mut table = LogicalTable::for_rows(alloc, rows.kind(), count as usize);
    'rows: for row in 0..count {
        copy_row(&mut table, rows, row)?;
    }
    Ok(table)
}

/// Appends a row to a table. Cells that are null aren't written.
fn copy_row<R: Rows>(table: &mut LogicalTable, rows: &R, row: u64) -> Result<(), AllocError>
    requires kind { table.old.kind ≡ (R.table rows.now).kind }
    requires sound { IsTable (R.table rows.now) }
    requires row { row < length (R.table rows.now).rows }
    ensures { OnOk result (table.new ≡ record table.old { rows = table.old.rows ++ slice_index_or (R.table rows.now).rows row [] ∷ [] }) }
{
    table.push_row()?;
    let count = columns(rows.kind()).len() as u32;
    'cells: for column in 0..count {
        let cell = rows.cell(column, row);
        if is_null(cell) {
            continue;
        }
        table.set(column, cell)?;
    }
    Ok(())
}
