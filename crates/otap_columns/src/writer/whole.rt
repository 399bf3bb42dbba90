//! Columns in which no row is null: the bytes of their cells, which all have one width, in one loop.

ghost use Rattle.std.specs.Prelude.{◌≡◌, ◌<◌, ◌++◌, [], ℕ, None, false, length, map, IfOk, IfSome, OnOk};
ghost use Rattle.std.specs.List.{slice_index_or};
ghost use Rattle.otap_cells.specs.Columns.{base_at, width_of};
ghost use Rattle.otap_columns.specs.Schemas.{is_dictionary};
ghost use Rattle.otap_columns.specs.WrittenCells.{stored_column};
ghost use Rattle.otap_columns.specs.BuiltCells.{AreParts, FitsColumn, IsIndexFor, index_of, index_size};

use crate::forms::ColumnForm;
use crate::writer::cells::{CellBytes, bytes_for};
use crate::writer::columns::index_width;
use otap_cells::{Base, LogicalTable, Rows, base_of};
use std::alloc::{AllocError, Global};

/// The bytes of the values of a column, which have this width; `None` where a row is null, and for other widths.
pub(crate) fn value_bytes(
    alloc: Global,
    table: &LogicalTable,
    column: u32,
    form: ColumnForm,
    width: u32,
) -> Result<Option<Vec<u8>>, AllocError>
    requires column { column < width_of table.now.kind }
    requires fits { FitsColumn form table.now column }
    requires plain { is_dictionary form ≡ false }
    ensures { IfOk result (λ found. IfSome found (λ values. AreParts width (stored_column form [] table.now column) values.items)) }
{
    let base = base_of(table.kind(), column);
    match width {
        1 => parts_of_one(alloc, table, column, base, form),
        2 => parts_of_two(alloc, table, column, base, form),
        4 => parts_of_four(alloc, table, column, base, form),
        8 => parts_of_eight(alloc, table, column, base, form),
        _ => Ok(None),
    }
}

/// The bytes of values of one byte each.
#[inline(always)]
fn parts_of_one(
    alloc: Global,
    table: &LogicalTable,
    column: u32,
    base: Base,
    form: ColumnForm,
) -> Result<Option<Vec<u8>>, AllocError>
    requires column { column < width_of table.now.kind }
    requires base { base ≡ base_at table.now.kind column }
    requires fits { FitsColumn form table.now column }
    requires plain { is_dictionary form ≡ false }
    ensures { IfOk result (λ found. IfSome found (λ values. AreParts 1 (stored_column form [] table.now column) values.items)) }
{
    let count = table.rows();
    let mut values = Vec::with_capacity(alloc, (count as usize).saturating_mul(1))?;
    'rows: for row in 0..count {
        let CellBytes::One(bytes) = bytes_for(base, form, table.cell(column, row)) else {
            return Ok(None);
        };
        push_one(&mut values, bytes)?;
    }
    Ok(Some(values))
}

/// The bytes of values of two bytes each.
#[inline(always)]
fn parts_of_two(
    alloc: Global,
    table: &LogicalTable,
    column: u32,
    base: Base,
    form: ColumnForm,
) -> Result<Option<Vec<u8>>, AllocError>
    requires column { column < width_of table.now.kind }
    requires base { base ≡ base_at table.now.kind column }
    requires fits { FitsColumn form table.now column }
    requires plain { is_dictionary form ≡ false }
    ensures { IfOk result (λ found. IfSome found (λ values. AreParts 2 (stored_column form [] table.now column) values.items)) }
{
    let count = table.rows();
    let mut values = Vec::with_capacity(alloc, (count as usize).saturating_mul(2))?;
    'rows: for row in 0..count {
        let CellBytes::Two(bytes) = bytes_for(base, form, table.cell(column, row)) else {
            return Ok(None);
        };
        push_two(&mut values, bytes)?;
    }
    Ok(Some(values))
}

/// The bytes of values of four bytes each.
#[inline(always)]
fn parts_of_four(
    alloc: Global,
    table: &LogicalTable,
    column: u32,
    base: Base,
    form: ColumnForm,
) -> Result<Option<Vec<u8>>, AllocError>
    requires column { column < width_of table.now.kind }
    requires base { base ≡ base_at table.now.kind column }
    requires fits { FitsColumn form table.now column }
    requires plain { is_dictionary form ≡ false }
    ensures { IfOk result (λ found. IfSome found (λ values. AreParts 4 (stored_column form [] table.now column) values.items)) }
{
    let count = table.rows();
    let mut values = Vec::with_capacity(alloc, (count as usize).saturating_mul(4))?;
    'rows: for row in 0..count {
        let CellBytes::Four(bytes) = bytes_for(base, form, table.cell(column, row)) else {
            return Ok(None);
        };
        push_four(&mut values, bytes)?;
    }
    Ok(Some(values))
}

/// The bytes of values of eight bytes each.
#[inline(always)]
fn parts_of_eight(
    alloc: Global,
    table: &LogicalTable,
    column: u32,
    base: Base,
    form: ColumnForm,
) -> Result<Option<Vec<u8>>, AllocError>
    requires column { column < width_of table.now.kind }
    requires base { base ≡ base_at table.now.kind column }
    requires fits { FitsColumn form table.now column }
    requires plain { is_dictionary form ≡ false }
    ensures { IfOk result (λ found. IfSome found (λ values. AreParts 8 (stored_column form [] table.now column) values.items)) }
{
    let count = table.rows();
    let mut values = Vec::with_capacity(alloc, (count as usize).saturating_mul(8))?;
    'rows: for row in 0..count {
        let CellBytes::Eight(bytes) = bytes_for(base, form, table.cell(column, row)) else {
            return Ok(None);
        };
        push_eight(&mut values, bytes)?;
    }
    Ok(Some(values))
}

/// The bytes of indexes; `None` where a row has none.
pub(crate) fn index_bytes(
    alloc: Global,
    form: ColumnForm,
    places: &[Option<u32>],
) -> Result<Option<Vec<u8>>, AllocError>
    requires { (row : ℕ) → IsIndexFor form (slice_index_or places.now row None) }
    ensures { IfOk result (λ found. IfSome found (λ values. AreParts (index_size form) (map (index_of form) places.now) values.items)) }
{
    if index_width(form) == 1 {
        narrow_bytes(alloc, form, places)
    } else {
        wide_bytes(alloc, form, places)
    }
}

fn narrow_bytes(
    alloc: Global,
    form: ColumnForm,
    places: &[Option<u32>],
) -> Result<Option<Vec<u8>>, AllocError>
    requires size { index_size form ≡ 1 }
    requires reached { (row : ℕ) → IsIndexFor form (slice_index_or places.now row None) }
    ensures { IfOk result (λ found. IfSome found (λ values. AreParts (index_size form) (map (index_of form) places.now) values.items)) }
{
    let mut values = Vec::with_capacity(alloc, places.len())?;
    'rows: for row in 0..places.len() {
        let Some(place) = places[row] else {
            return Ok(None);
        };
        push_one(&mut values, (place as u8).to_le_bytes())?;
    }
    Ok(Some(values))
}

fn wide_bytes(
    alloc: Global,
    form: ColumnForm,
    places: &[Option<u32>],
) -> Result<Option<Vec<u8>>, AllocError>
    requires size { index_size form ≡ 2 }
    requires reached { (row : ℕ) → IsIndexFor form (slice_index_or places.now row None) }
    ensures { IfOk result (λ found. IfSome found (λ values. AreParts (index_size form) (map (index_of form) places.now) values.items)) }
{
    let mut values = Vec::with_capacity(alloc, places.len().saturating_mul(2))?;
    'rows: for row in 0..places.len() {
        let Some(place) = places[row] else {
            return Ok(None);
        };
        push_two(&mut values, (place as u16).to_le_bytes())?;
    }
    Ok(Some(values))
}

#[inline(always)]
fn push_one(values: &mut Vec<u8>, bytes: [u8; 1]) -> Result<(), AllocError>
    ensures size { length bytes ≡ 1 }
    ensures items { OnOk result (values.new.items ≡ values.old.items ++ bytes) }
{
    values.push(bytes[0])?;
    Ok(())
}

#[inline(always)]
fn push_two(values: &mut Vec<u8>, bytes: [u8; 2]) -> Result<(), AllocError>
    ensures size { length bytes ≡ 2 }
    ensures items { OnOk result (values.new.items ≡ values.old.items ++ bytes) }
{
    values.reserve(2)?;
    values.push_reserved(bytes[0]);
    values.push_reserved(bytes[1]);
    Ok(())
}

#[inline(always)]
fn push_four(values: &mut Vec<u8>, bytes: [u8; 4]) -> Result<(), AllocError>
    ensures size { length bytes ≡ 4 }
    ensures items { OnOk result (values.new.items ≡ values.old.items ++ bytes) }
{
    values.reserve(4)?;
    values.push_reserved(bytes[0]);
    values.push_reserved(bytes[1]);
    values.push_reserved(bytes[2]);
    values.push_reserved(bytes[3]);
    Ok(())
}

#[inline(always)]
fn push_eight(values: &mut Vec<u8>, bytes: [u8; 8]) -> Result<(), AllocError>
    ensures size { length bytes ≡ 8 }
    ensures items { OnOk result (values.new.items ≡ values.old.items ++ bytes) }
{
    let [a, b, c, d, e, f, g, h] = bytes;
    push_four(values, [a, b, c, d])?;
    push_four(values, [e, f, g, h])?;
    Ok(())
}
