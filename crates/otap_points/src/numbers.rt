//! Measured numbers as two cells, one for integers and one for doubles; doubles that may be missing; and ids as cells.
ghost use Rattle.std.specs.Prelude.{◌≡◌, ◌<◌, ◌+◌, ◌^◌, Bool, length};
ghost use Rattle.otap_cells.specs.declared.profile.Base.TheVariants as base;
ghost use Rattle.otap_cells.specs.Cells.{seen, IsCellOf};
ghost use Rattle.otap_cells.specs.Columns.{width_of};
ghost use Rattle.otap_cells.specs.Tables.{cell_in};
ghost use Rattle.otap_groups.specs.Stored.{id_cell};
ghost use Rattle.otap_points.specs.Numbers.{double_value, int_value, measured_in};
ghost use Rattle.otap_points.specs.Points.{optional_cell, optional_in};

use otap_cells::{CellView, Rows};
use otlp_model::Number;

/// The cell of integers, null where the number isn't one. The integer 0 is stored as 0.
pub(crate) fn int_value<'a>(value: &Number) -> CellView<'a>
    ensures value { seen result ≡ int_value value.now }
    ensures fits { IsCellOf base.I64 (seen result) }
{
    match value {
        Number::Int(number) => CellView::Num(*number),
        Number::Missing | Number::Double(_) => CellView::Null,
    }
}

/// The cell of doubles, null where the number isn't one. The double 0 is stored as 0.
pub(crate) fn double_value<'a>(value: &Number) -> CellView<'a>
    ensures value { seen result ≡ double_value value.now }
    ensures fits { IsCellOf base.Double (seen result) }
{
    match value {
        Number::Double(bits) => CellView::Bits(*bits),
        Number::Missing | Number::Int(_) => CellView::Null,
    }
}

/// The number that is stored for an id.
pub(crate) fn id_cell<'a>(id: u32) -> CellView<'a>
    ensures value { seen result ≡ id_cell id }
    ensures fits { (wide : Bool) → IsCellOf (base.Id wide) (seen result) }
{
    CellView::Num(i64::from(id))
}

/// The number that a row has: the integer in this column, else the double in the one after it, else none.
pub(crate) fn measured_at<R: Rows>(rows: &R, column: u32, row: u64) -> Number
    requires column { column + 1 < width_of (R.table rows.now).kind }
    requires few { column + 1 < 2 ^ 32 }
    requires row { row < length (R.table rows.now).rows }
    ensures { result ≡ measured_in (cell_in (R.table rows.now).rows column row) (cell_in (R.table rows.now).rows (column + 1) row) }
{
    match (rows.cell(column, row), rows.cell(column + 1, row)) {
        (CellView::Num(number), _) => Number::Int(number),
        (_, CellView::Bits(bits)) => Number::Double(bits),
        _ => Number::Missing,
    }
}

/// A double that may be missing, null where it is. The double 0 is stored as 0.
pub(crate) fn optional_cell<'a>(bits: Option<u64>) -> CellView<'a>
    ensures value { seen result ≡ optional_cell bits }
    ensures fits { IsCellOf base.Double (seen result) }
{
    match bits {
        Some(bits) => CellView::Bits(bits),
        None => CellView::Null,
    }
}

/// The double of a cell, where there is one.
pub(crate) fn optional_at<R: Rows>(rows: &R, column: u32, row: u64) -> Option<u64>
    requires column { column < width_of (R.table rows.now).kind }
    requires row { row < length (R.table rows.now).rows }
    ensures { result ≡ optional_in (cell_in (R.table rows.now).rows column row) }
{
    match rows.cell(column, row) {
        CellView::Bits(bits) => Some(bits),
        CellView::Null | CellView::Num(_) | CellView::Flag(_) | CellView::Bytes(_) => None,
    }
}
