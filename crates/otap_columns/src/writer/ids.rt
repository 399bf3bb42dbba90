//! Whether an id of a column needs more than 16 bits.

ghost use Rattle.std.specs.Prelude.{◌≡◌, ◌+◌, ◌<◌, ◌≤◌, ℕ, drop, false, length, true, IfOk, IfSome};
ghost use Rattle.std.specs.List.{list_any};
ghost use Rattle.otap_cells.specs.Bases.{is_id};
ghost use Rattle.otap_cells.specs.Cells.{IsCellOf, seen};
ghost use Rattle.otap_cells.specs.Columns.{base_at, coding_at, is_id_at, width_of};
ghost use Rattle.otap_cells.specs.ColumnIds.{id_in};
ghost use Rattle.otap_cells.specs.Continuing.{continues_in};
ghost use Rattle.otap_cells.specs.Ids.{base_of, goes_on, takes_null};
ghost use Rattle.otap_cells.specs.Tables.{coding_in, greatest_narrow};
ghost use Rattle.otap_columns.specs.NarrowIds.{StaysNarrow};
ghost use Rattle.otap_columns.specs.Observed.{has_wide_id, is_above};

use crate::writer::cells::set_rows;
use otap_cells::{
    Base, CellView, Coding, LogicalTable, Rows, base_of, continues, continuing_rows,
    stored_numbers, undo,
};
use std::alloc::{AllocError, Global};

/// The greatest id of 16 bits.
const GREATEST_NARROW: u64 = 65_535;

/// Above this sum, each row is looked at for whether a run begins there.
const LARGE_SUM: u64 = 32_767;

/// Whether an id of a column needs more than 16 bits.
pub(crate) fn has_wide_id(
    alloc: Global,
    table: &LogicalTable,
    column: u32,
) -> Result<bool, AllocError>
    requires column { column < width_of table.now.kind }
    requires id { is_id_at table.now.kind column ≡ true }
    requires coded { coding_in table.now column ≡ coding_at table.now.kind column }
    ensures { IfOk result (λ wide. wide ≡ has_wide_id table.now.kind column table.now) }
{
    if are_narrow(table, column) {
        return Ok(false);
    }
    has_above(alloc, table, column)
}

/// The same, by the ids themselves.
fn has_above(alloc: Global, table: &LogicalTable, column: u32) -> Result<bool, AllocError>
    requires id { is_id_at table.now.kind column ≡ true }
    requires coded { coding_in table.now column ≡ coding_at table.now.kind column }
    ensures { IfOk result (λ wide. wide ≡ has_wide_id table.now.kind column table.now) }
{
    let continues = continuing_rows(alloc, table)?;
    let mut ids = stored_numbers(alloc, table, column)?;
    undo(table.coding(column), &mut ids, &continues, u32::MAX);
    let wide = is_above(&ids);
    Ok(wide)
}

fn is_above(ids: &[Option<u32>]) -> bool
    ensures { result ≡ list_any is_above ids.now }
{
    ids.iter().any(|id| matches!(id, Some(id) if u64::from(*id) > GREATEST_NARROW))
}

/// Whether the sums of the stored numbers show that no id needs more than 16 bits. Takes no memory, and looks at no row after the
/// last one in which the column was set.
fn are_narrow(table: &LogicalTable, column: u32) -> bool
    requires column { column < width_of table.now.kind }
    requires id { is_id_at table.now.kind column ≡ true }
    requires coded { coding_in table.now column ≡ coding_at table.now.kind column }
    ensures { result ≡ true → has_wide_id table.now.kind column table.now ≡ false }
{
    let base = base_of(table.kind(), column);
    let coding = table.coding(column);
    let mut most = 0;
    let count = set_rows(table, column);
    'rows: for row in 0..count {
        let Some(next) = most_after(table, column, base, coding, row, most) else {
            return false;
        };
        most = next;
    }
    true
}

/// From a bound of the id before a row, one of the id before the next row; `None` where that id may need more than 16
/// bits, or where a row has no id and ids are stored in runs.
fn most_after(
    table: &LogicalTable,
    column: u32,
    base: Base,
    coding: Coding,
    row: u64,
    most: u64,
) -> Option<u64>
    requires column { column < width_of table.now.kind }
    requires base { base ≡ base_at table.now.kind column }
    requires id { is_id base ≡ true }
    requires coded { coding ≡ coding_at table.now.kind column }
    requires row { row < length table.now.rows }
    requires most { most ≤ greatest_narrow }
    ensures small { IfSome result (λ next. next ≤ greatest_narrow) }
    ensures stays { IfSome result (StaysNarrow table.now column row most) }
{
    let Some(number) = id_of(base, table.cell(column, row)) else {
        return without_id(coding, most);
    };
    let next = most_with(table, coding, row, most, number);
    if next > GREATEST_NARROW {
        None
    } else {
        Some(next)
    }
}

/// A row without an id is passed over, except where ids are stored in runs.
fn without_id(coding: Coding, most: u64) -> Option<u64>
    ensures { IfSome result (λ next. (next ≡ most) × (takes_null coding ≡ true)) }
{
    match coding {
        Coding::Plain | Coding::Delta => Some(most),
        Coding::Run => None,
    }
}

/// The number that a cell of a column of ids stores.
fn id_of(base: Base, cell: CellView<'_>) -> Option<u32>
    requires base { IsCellOf base (seen cell) }
    requires id { is_id base ≡ true }
    ensures { result ≡ id_in (seen cell.entry) }
{
    match (base, cell) {
        (Base::Id { .. }, CellView::Num(number)) => Some(number as u32),
        _ => None,
    }
}

/// A bound of the id for which a number is stored, from a bound of the id before it.
fn most_with(table: &LogicalTable, coding: Coding, row: u64, most: u64, number: u32) -> u64
    requires row { row < length table.now.rows }
    requires most { most ≤ greatest_narrow }
    ensures { (before : ℕ) → before ≤ most → base_of coding (goes_on (drop row (continues_in table.now))) before + number ≤ result }
{
    let number = u64::from(number);
    let sum = most + number;
    match coding {
        Coding::Plain => number,
        Coding::Delta => sum,
        Coding::Run => { if begins(table, row, sum) { number } else { sum } }
    }
}

/// Whether a run begins at a row. It is looked at only where the sum is large.
fn begins(table: &LogicalTable, row: u64, sum: u64) -> bool
    requires { row < length table.now.rows }
    ensures { result ≡ true → goes_on (drop row (continues_in table.now)) ≡ false }
{
    sum > LARGE_SUM && !continues(table, row)
}
