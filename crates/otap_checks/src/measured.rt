//! What may be wrong with the measured numbers and the lists of a table's rows.
ghost use Rattle.std.specs.Prelude.{◌≡◌, ◌<◌, ◌+◌, ◌^◌, true, false};
ghost use Rattle.otap_cells.specs.Cells.{seen};
ghost use Rattle.otap_cells.specs.Columns.{width_of};
ghost use Rattle.otap_cells.specs.Named.{table_named};
ghost use Rattle.otap_checks.specs.Measured.{HasTwoValues, HasUnevenLists, IsThere};

use otap_cells::{CellView, Kind, Rows, TableSet, bytes_in};

/// Whether a row of a kind's table has an integer in this column and a double in the one after it.
pub fn has_two_values<R: Rows>(set: &TableSet<R>, kind: Kind, column: u32) -> bool
    requires column { column + 1 < width_of kind }
    requires few { column + 1 < 2 ^ 32 }
    ensures yes { result ≡ true → HasTwoValues (table_named kind set.now) column }
    ensures no { result ≡ false → HasTwoValues (table_named kind set.now) column → ⊥ }
{
    match set.get(kind) {
        Some(rows) => any_two_values(rows, column),
        None => false,
    }
}

fn any_two_values<R: Rows>(rows: &R, column: u32) -> bool
    requires column { column + 1 < width_of (R.table rows.now).kind }
    requires few { column + 1 < 2 ^ 32 }
    ensures yes { result ≡ true → HasTwoValues (R.table rows.now) column }
    ensures no { result ≡ false → HasTwoValues (R.table rows.now) column → ⊥ }
{
    'rows: for row in 0..rows.rows() {
        if is_there(rows.cell(column, row)) && is_there(rows.cell(column + 1, row)) {
            return true;
        }
    }
    false
}

fn is_there(cell: CellView<'_>) -> bool
    ensures yes { result ≡ true → IsThere (seen cell.entry) }
    ensures no { result ≡ false → IsThere (seen cell.entry) → ⊥ }
{
    match cell {
        CellView::Null => false,
        CellView::Num(_) | CellView::Bits(_) | CellView::Flag(_) | CellView::Bytes(_) => true,
    }
}

/// Whether a row of a kind's table has lists of different lengths in two columns.
pub fn has_uneven_lists<R: Rows>(set: &TableSet<R>, kind: Kind, first: u32, second: u32) -> bool
    requires first { first < width_of kind }
    requires second { second < width_of kind }
    ensures yes { result ≡ true → HasUnevenLists (table_named kind set.now) first second }
    ensures no { result ≡ false → HasUnevenLists (table_named kind set.now) first second → ⊥ }
{
    match set.get(kind) {
        Some(rows) => any_uneven(rows, first, second),
        None => false,
    }
}

fn any_uneven<R: Rows>(rows: &R, first: u32, second: u32) -> bool
    requires first { first < width_of (R.table rows.now).kind }
    requires second { second < width_of (R.table rows.now).kind }
    ensures yes { result ≡ true → HasUnevenLists (R.table rows.now) first second }
    ensures no { result ≡ false → HasUnevenLists (R.table rows.now) first second → ⊥ }
{
    'rows: for row in 0..rows.rows() {
        let firsts = bytes_in(rows, first, row).len() / 8;
        let seconds = bytes_in(rows, second, row).len() / 8;
        if firsts != seconds {
            return true;
        }
    }
    false
}
