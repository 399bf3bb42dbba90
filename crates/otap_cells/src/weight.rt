ghost use Rattle.std.specs.Prelude.{◌≡◌, ◌<◌, ◌≤◌, true, min, sum_by};
ghost use Rattle.otlp_model.specs.Limits.{count_cap};
ghost use Rattle.otap_cells.specs.Cells.{seen};
ghost use Rattle.otap_cells.specs.Columns.{width_of};
ghost use Rattle.otap_cells.specs.Tables.{column_in};
ghost use Rattle.otap_cells.specs.Weights.{cell_weight, weight_of_table, weight_of_tables};

use crate::profile::{base_of, columns};
use crate::rows::Rows;
use crate::sets::TableSet;
use crate::view::CellView;
use otlp_model::{CAP, add_capped};

/// How much the tables of a batch may weigh.
pub const MAX_ROW_WEIGHT: u64 = 1 << 26;

/// What a row weighs beside its cells.
pub const ROW_UNIT: u64 = 32;

/// The row weight of a set of tables, or `CAP` where it is larger: a unit for each row, and the bytes of each text,
/// binary and fixed cell that isn't null. Visits each of these cells once.
pub fn row_weight<R: Rows>(set: &TableSet<R>) -> u64
    ensures { result ≡ min (weight_of_tables set.now) count_cap }
{
    let mut total = 0;
    'tables: for (_, rows) in &set.tables {
        total = add_capped(total, table_weight(rows));
    }
    total
}

/// Whether it is known that a set of tables weighs at most a limit: its cells are looked at only in columns whose bytes have no
/// known limit. `false` says nothing.
pub fn is_light<R: Rows>(set: &TableSet<R>, limit: u64) -> bool
    requires { limit < count_cap }
    ensures { result ≡ true → weight_of_tables set.now ≤ limit }
{
    let mut total = 0;
    'tables: for (_, rows) in &set.tables {
        total = add_capped(total, most_weight(rows));
    }
    total <= limit
}

fn most_weight<R: Rows>(rows: &R) -> u64
    ensures { min (weight_of_table (R.table rows.now)) count_cap ≤ result }
{
    let width = columns(rows.kind()).len();
    let mut total = rows.rows().saturating_mul(ROW_UNIT).min(CAP);
    'columns: for column in 0..width {
        total = add_capped(total, most_in_column(rows, column as u32));
    }
    total
}

fn most_in_column<R: Rows>(rows: &R, column: u32) -> u64
    requires { column < width_of (R.table rows.now).kind }
    ensures { min (sum_by cell_weight (column_in (R.table rows.now).rows column)) count_cap ≤ result }
{
    match rows.most_bytes(column) {
        Some(most) => most.min(CAP),
        None => column_weight(rows, column),
    }
}

fn table_weight<R: Rows>(rows: &R) -> u64
    ensures { result ≡ min (weight_of_table (R.table rows.now)) count_cap }
{
    let width = columns(rows.kind()).len();
    let mut total = rows.rows().saturating_mul(ROW_UNIT).min(CAP);
    'columns: for column in 0..width {
        total = add_capped(total, column_weight(rows, column as u32));
    }
    total
}

/// The bytes of a column's cells. Neither a column of another base nor one that the table lacks is gone over.
fn column_weight<R: Rows>(rows: &R, column: u32) -> u64
    requires { column < width_of (R.table rows.now).kind }
    ensures { result ≡ min (sum_by cell_weight (column_in (R.table rows.now).rows column)) count_cap }
{
    let count = rows.rows();
    if !base_of(rows.kind(), column).has_bytes() {
        return 0;
    }
    if rows.lacks(column) {
        return 0;
    }
    let mut total = 0;
    'rows: for row in 0..count {
        total = add_capped(total, bytes_of(rows.cell(column, row)));
    }
    total
}

fn bytes_of(cell: CellView<'_>) -> u64
    ensures { result ≡ cell_weight (seen cell.entry) }
{
    match cell {
        CellView::Bytes(part) => part.len() as u64,
        CellView::Null | CellView::Num(_) | CellView::Bits(_) | CellView::Flag(_) => 0,
    }
}
