//! The columns of a record batch, and what they add to it.

ghost use Rattle.std.specs.Prelude.{◌≡◌, ◌+◌, ◌/◌, ◌<◌, ◌≤◌, [], ◌∷◌, ◌++◌, false, length, map, pos, true, ℕ, None, IfOk, OnOk};
ghost use Rattle.std.specs.List.{slice_index_or};
ghost use Rattle.arrow_buffers.specs.Columns.{cells_len};
ghost use Rattle.arrow_buffers.specs.Limits.{max_rows, max_values};
ghost use Rattle.arrow_ipc.specs.Limits.{max_body, max_parts};
ghost use Rattle.arrow_ipc.specs.Written.{body_size, padded};
ghost use Rattle.otap_cells.specs.Columns.{base_at, width_of};
ghost use Rattle.arrow_buffers.specs.declared.width.Width.TheVariants.{Fixed};
ghost use Rattle.otap_cells.specs.Tables.{column_in};
ghost use Rattle.otap_columns.specs.Schemas.{is_dictionary};
ghost use Rattle.otap_columns.specs.SeenInside.{filled_up, places_of_cells};
ghost use Rattle.otap_columns.specs.WrittenCells.{FitsIndexes, stored_column};
ghost use Rattle.otap_columns.specs.BuiltCells.{FitsColumn, HasRoom, IsIndexFor, index_of, index_size, batch_parts, plain_width, width_for, with_parts};

use crate::forms::ColumnForm;
use crate::writer::cells::{is_dictionary, push_index, push_value, set_rows, unset_rows};
use crate::writer::seen::SeenColumn;
use crate::writer::whole::{index_bytes, value_bytes};
use arrow_buffers::{Buffers, ColumnBuilder, Width};
use arrow_ipc::BatchBuilder;
use otap_cells::{Base, LogicalTable, Rows, base_of};
use std::alloc::{AllocError, Global};

/// How the cells of a column are stored.
pub(crate) fn width_for(base: Base, form: ColumnForm) -> Width
    ensures { result ≡ width_for base form }
{
    match form {
        ColumnForm::Dict8 => Width::Fixed(1),
        ColumnForm::Dict16 => Width::Fixed(2),
        ColumnForm::Absent | ColumnForm::Plain | ColumnForm::Wide | ColumnForm::Coded(_) => {
            plain_width(base, form)
        }
    }
}

pub(crate) fn plain_width(base: Base, form: ColumnForm) -> Width
    ensures { result ≡ plain_width base form }
{
    match base {
        Base::U8 => Width::Fixed(1),
        Base::U16 => Width::Fixed(2),
        Base::U32 | Base::I32 => Width::Fixed(4),
        Base::U64 | Base::I64 | Base::Double | Base::Timestamp | Base::Duration | Base::Fixed8 => {
            Width::Fixed(8)
        }
        Base::Fixed16 => Width::Fixed(16),
        Base::Bool => Width::Bit,
        Base::Utf8 | Base::Binary => Width::Var,
        Base::ListU64 | Base::ListF64 => Width::List(8),
        Base::Id { .. } => match form {
            ColumnForm::Wide | ColumnForm::Coded(_) => Width::Fixed(4),
            _ => Width::Fixed(2),
        },
    }
}

/// A column of a table, as its form has it written.
pub(crate) fn column_for(
    alloc: Global,
    table: &LogicalTable,
    column: u32,
    form: ColumnForm,
    seen: &SeenColumn,
) -> Result<ColumnBuilder, AllocError>
    requires column { column < width_of table.now.kind }
    requires fits { FitsColumn form table.now column }
    requires few { FitsIndexes form (length seen.now.ladder.values) }
    requires placed { is_dictionary form ≡ true → filled_up (length table.now.rows) seen.now.places ≡ places_of_cells (base_at table.now.kind column) form seen.now.ladder.values (column_in table.now.rows column) }
    requires room { cells_len (stored_column form seen.now.ladder.values table.now column) < max_values }
    ensures { IfOk result (λ built. built ≡ record { width = width_for (base_at table.now.kind column) form; cells = stored_column form seen.now.ladder.values table.now column }) }
{
    if is_dictionary(form) {
        indexes_for(alloc, form, &seen.places, table.rows())
    } else {
        values_for(alloc, table, column, form)
    }
}

/// A column that is written as its values.
fn values_for(
    alloc: Global,
    table: &LogicalTable,
    column: u32,
    form: ColumnForm,
) -> Result<ColumnBuilder, AllocError>
    requires column { column < width_of table.now.kind }
    requires fits { FitsColumn form table.now column }
    requires plain { is_dictionary form ≡ false }
    requires room { cells_len (stored_column form [] table.now column) < max_values }
    ensures { IfOk result (λ built. built ≡ record { width = width_for (base_at table.now.kind column) form; cells = stored_column form [] table.now column }) }
{
    let Width::Fixed(width) = width_for(base_of(table.kind(), column), form) else {
        return values_with_nulls(alloc, table, column, form);
    };
    let Some(values) = value_bytes(alloc, table, column, form, width)? else {
        return values_with_nulls(alloc, table, column, form);
    };
    ColumnBuilder::full(alloc, width, table.rows(), values)
}

/// The same, cell by cell. The nulls before the first cell that was set and after the last one are added at once.
fn values_with_nulls(
    alloc: Global,
    table: &LogicalTable,
    column: u32,
    form: ColumnForm,
) -> Result<ColumnBuilder, AllocError>
    requires column { column < width_of table.now.kind }
    requires fits { FitsColumn form table.now column }
    requires plain { is_dictionary form ≡ false }
    requires room { cells_len (stored_column form [] table.now column) < max_values }
    ensures { IfOk result (λ built. built ≡ record { width = width_for (base_at table.now.kind column) form; cells = stored_column form [] table.now column }) }
{
    let base = base_of(table.kind(), column);
    let rows = table.rows();
    let mut built = ColumnBuilder::for_rows(alloc, width_for(base, form), rows as usize)?;
    let count = set_rows(table, column);
    let first = unset_rows(table, column, count);
    built.push_nulls(first)?;
    'rows: for row in first..count {
        push_value(&mut built, base, form, table.cell(column, row))?;
    }
    built.push_nulls(rows - count)?;
    Ok(built)
}

/// A column that is written as indexes of its values.
fn indexes_for(
    alloc: Global,
    form: ColumnForm,
    places: &[Option<u32>],
    rows: u64,
) -> Result<ColumnBuilder, AllocError>
    requires few { length places.now ≤ rows }
    requires reached { (row : ℕ) → IsIndexFor form (slice_index_or places.now row None) }
    requires room { cells_len (map (index_of form) (filled_up rows places.now)) < max_values }
    ensures { IfOk result (λ built. built ≡ record { width = Fixed (index_size form); cells = map (index_of form) (filled_up rows places.now) }) }
{
    let Some(values) = index_bytes(alloc, form, places)? else {
        return indexes_with_nulls(alloc, form, places, rows);
    };
    let count = places.len() as u64;
    let mut built = ColumnBuilder::full(alloc, index_width(form), count, values)?;
    built.push_nulls(rows - count)?;
    Ok(built)
}

/// The same column, index by index. The nulls before the first index and after the last one are added at once.
fn indexes_with_nulls(
    alloc: Global,
    form: ColumnForm,
    places: &[Option<u32>],
    rows: u64,
) -> Result<ColumnBuilder, AllocError>
    requires few { length places.now ≤ rows }
    requires reached { (row : ℕ) → IsIndexFor form (slice_index_or places.now row None) }
    requires room { cells_len (map (index_of form) (filled_up rows places.now)) < max_values }
    ensures { IfOk result (λ built. built ≡ record { width = Fixed (index_size form); cells = map (index_of form) (filled_up rows places.now) }) }
{
    let width = Width::Fixed(index_width(form));
    let mut built = ColumnBuilder::for_rows(alloc, width, rows as usize)?;
    let first = unplaced_rows(places);
    built.push_nulls(first as u64)?;
    'rows: for row in first..places.len() {
        push_index(&mut built, form, places[row])?;
    }
    built.push_nulls(rows - places.len() as u64)?;
    Ok(built)
}

/// How many rows there are before the first one that has an index.
fn unplaced_rows(places: &[Option<u32>]) -> usize
    ensures within { result ≤ length places.now }
    ensures none { (row : ℕ) → row < result → slice_index_or places.now row None ≡ None }
{
    'rows: for row in 0..places.len() {
        if places[row].is_some() {
            return row;
        }
    }
    places.len()
}

/// How many bytes an index has.
pub(crate) fn index_width(form: ColumnForm) -> u32
    ensures { result ≡ index_size form }
{
    match form {
        ColumnForm::Dict8 => 1,
        ColumnForm::Absent
        | ColumnForm::Plain
        | ColumnForm::Wide
        | ColumnForm::Coded(_)
        | ColumnForm::Dict16 => 2,
    }
}

/// Adds a column to a batch.
pub(crate) fn add_column(
    batch: &mut BatchBuilder,
    width: Width,
    buffers: &Buffers,
) -> Result<(), AllocError>
    requires rows { buffers.now.rows < max_rows }
    requires nulls { buffers.now.nulls < max_rows }
    requires room { HasRoom batch.old 1 (padded (length buffers.now.validity.items) + padded (length buffers.now.offsets.items) + padded (length buffers.now.values.items)) }
    ensures { OnOk result (batch.new ≡ with_parts batch.old (batch_parts width buffers.now)) }
{
    batch.add(buffers.rows, buffers.nulls)?;
    batch.add_buffer(&buffers.validity)?;
    match width {
        Width::Bit | Width::Fixed(_) => batch.add_buffer(&buffers.values),
        Width::Var => add_spans(batch, &buffers.offsets, &buffers.values),
        Width::List(_) => add_lists(batch, &buffers.offsets, &buffers.values),
    }
}

fn add_spans(batch: &mut BatchBuilder, offsets: &[u8], values: &[u8]) -> Result<(), AllocError>
    requires few { length batch.old.buffers + 2 ≤ max_parts }
    requires room { body_size batch.old.buffers + padded (length offsets.now) + padded (length values.now) < max_body }
    ensures { OnOk result (batch.new ≡ record batch.old { buffers = (batch.old.buffers ++ offsets.now ∷ []) ++ values.now ∷ [] }) }
{
    batch.add_buffer(offsets)?;
    batch.add_buffer(values)?;
    Ok(())
}

/// The elements of lists have a node of their own, and no null.
fn add_lists(batch: &mut BatchBuilder, offsets: &[u8], values: &[u8]) -> Result<(), AllocError>
    requires nodes { length batch.old.nodes < max_parts }
    requires few { length batch.old.buffers + 3 ≤ max_parts }
    requires room { body_size batch.old.buffers + padded (length offsets.now) + padded (length values.now) < max_body }
    ensures { OnOk result (batch.new ≡ record {
      rows = batch.old.rows;
      nodes = batch.old.nodes ++ (pos (length values.now / 8), pos 0) ∷ [];
      buffers = (((batch.old.buffers ++ offsets.now ∷ []) ++ [] ∷ []) ++ values.now ∷ []);
    }) }
{
    batch.add_buffer(offsets)?;
    batch.add(values.len() as u64 / 8, 0)?;
    batch.add_buffer(&[])?;
    batch.add_buffer(values)?;
    Ok(())
}
