//! Values in cells, both ways: the type, then a cell for a text, an integer, a double, a truth value, bytes, and a nested value.
ghost use Rattle.std.specs.Prelude.{◌≡◌, ◌<◌, ◌≤◌, ◌∷◌, [], drop, length, map, min, unwrap_or, IfErr, IfOk, OnErr, OnOk};
ghost use Rattle.std.specs.List.{slice_index_or};
ghost use Rattle.otlp_model.specs.Limits.{weight_limit, count_cap};
ghost use Rattle.otlp_model.specs.Weight.{weight_of_value};
ghost use Rattle.otlp_model.specs.declared.value.Value as values;
ghost use Rattle.cbor_values.specs.Values.{value_of};
ghost use Rattle.std.specs.Int.{FitsUnsignedBits};
ghost use Rattle.otap_cells.specs.declared.profile.Base.TheVariants as base;
ghost use Rattle.otap_cells.specs.Cells.{number, seen, IsCellOf};
ghost use Rattle.otap_attrs.specs.declared.refusal.RowRefusal.{RowRefusal};
ghost use Rattle.otap_attrs.specs.Values.{AreCellsOf, BadValue, HasValueAt, nested_of, value_bases, value_cells, value_in};
ghost use Rattle.otap_attrs.specs.Inside.{BadNested};

use crate::refusal::RowRefusal;
use cbor_values::{CborRefusal, Nesting, read_value, weigh_value, write_value};
use otap_cells::{
    CellView, Rows, bits_cell, bits_in, bytes_in, flag_cell, flag_in, int_cell, int_in, number_in,
    octets_cell, octets_in, text_cell, text_in,
};
use otlp_model::{Value, capped_len};
use std::alloc::{AllocError, Global};

/// The value of a row, whose columns begin at this one. Cells of other types than the value's are passed over.
pub fn value_at<R: Rows>(
    alloc: Global,
    rows: &R,
    column: u32,
    row: u64,
) -> Result<Value, AllocError>
    requires columns { HasValueAt (R.table rows.now).kind column }
    requires row { row < length (R.table rows.now).rows }
    ensures { IfOk result (λ value. value ≡ value_in (drop column (slice_index_or (R.table rows.now).rows row []))) }
{
    let mut value = Value::Empty;
    set_value(alloc, rows, column, row, &mut value)?;
    Ok(value)
}

/// Makes an empty value that of a row, whose columns begin at this one. Cells of other types than the value's are passed over.
#[inline(always)]
#[tactic(auto, using(crate::proofs::ValueColumns::value_text, crate::proofs::ValueColumns::value_type, crate::proofs::ValueColumns::value_width, crate::proofs::ValueColumns::small_width, crate::proofs::ValueColumns::value_cell), unfolding(crate::specs::Values::value_in))]
pub fn set_value<R: Rows>(
    alloc: Global,
    rows: &R,
    column: u32,
    row: u64,
    value: &mut Value,
) -> Result<(), AllocError>
    requires columns { HasValueAt (R.table rows.now).kind column }
    requires row { row < length (R.table rows.now).rows }
    requires empty { value.old ≡ values.Empty }
    ensures { OnOk result (value.new ≡ value_in (drop column (slice_index_or (R.table rows.now).rows row []))) }
{
    match number_in(rows, column, row) {
        1 => *value = Value::Str(text_in(alloc, rows, column + 1, row)?),
        2 => *value = Value::Int(int_in(rows, column + 2, row)),
        3 => *value = Value::Double(bits_in(rows, column + 3, row)),
        4 => *value = Value::Bool(flag_in(rows, column + 4, row)),
        7 => *value = Value::Bytes(octets_in(alloc, rows, column + 5, row)?),
        5 | 6 => *value = nested_value(alloc, bytes_in(rows, column + 6, row))?,
        _ => {}
    }
    Ok(())
}

/// The value of the bytes, or the empty one where they have none.
fn nested_value(alloc: Global, part: &[u8]) -> Result<Value, AllocError>
    ensures { IfOk result (λ value. value ≡ unwrap_or (value_of part.now) values.Empty) }
{
    match read_value(alloc, part) {
        Ok(value) => Ok(value),
        Err(CborRefusal::Memory(error)) => Err(error),
        Err(_) => Ok(Value::Empty),
    }
}

/// Writes the bytes of the cell of a nested value in place of what was there; of other values there are none.
pub fn nested_bytes(to: &mut Vec<u8>, value: &Value) -> Result<(), AllocError>
    requires { weight_of_value value.now ≤ weight_limit }
    ensures ok { OnOk result (to.new.items ≡ nested_of value.now) }
    ensures err { OnErr result (to.new.items ≡ []) }
{
    to.clear();
    match value {
        Value::Map(_) | Value::Array(_) => write_value(to, value)?,
        Value::Empty
        | Value::Str(_)
        | Value::Bool(_)
        | Value::Int(_)
        | Value::Double(_)
        | Value::Bytes(_) => {}
    }
    Ok(())
}

/// The cells of a value, where `nested` are the bytes of a nested one.
#[tactic(auto, using(crate::proofs::ValueCells::cells_of_empty, crate::proofs::ValueCells::cells_of_str, crate::proofs::ValueCells::cells_of_bool, crate::proofs::ValueCells::cells_of_int, crate::proofs::ValueCells::cells_of_double, crate::proofs::ValueCells::cells_of_bytes, crate::proofs::ValueCells::cells_of_array, crate::proofs::ValueCells::cells_of_map, crate::proofs::ValueCells::nested_of_array, crate::proofs::ValueCells::nested_of_map))]
pub fn value_cells<'a>(value: &'a Value, nested: &'a [u8]) -> [CellView<'a>; 7]
    requires { nested.now ≡ nested_of value.now }
    ensures cells { map seen result ≡ value_cells value.now }
    ensures fits { AreCellsOf value_bases (map seen result) }
{
    let null = CellView::Null;
    match value {
        Value::Empty => [null; 7],
        Value::Str(text) => value_row(1, text_cell(text), null, null, null, null, null),
        Value::Int(number) => value_row(2, null, int_cell(*number), null, null, null, null),
        Value::Double(bits) => value_row(3, null, null, bits_cell(*bits), null, null, null),
        Value::Bool(flag) => value_row(4, null, null, null, flag_cell(*flag), null, null),
        Value::Map(_) => value_row(5, null, null, null, null, null, CellView::Bytes(nested)),
        Value::Array(_) => value_row(6, null, null, null, null, null, CellView::Bytes(nested)),
        Value::Bytes(octets) => value_row(7, null, null, null, null, octets_cell(octets), null),
    }
}

fn value_row<'a>(
    kind: i64,
    text: CellView<'a>,
    int: CellView<'a>,
    double: CellView<'a>,
    flag: CellView<'a>,
    octets: CellView<'a>,
    nested: CellView<'a>,
) -> [CellView<'a>; 7]
    requires kind { FitsUnsignedBits 8 kind }
    requires text { IsCellOf base.Utf8 (seen text) }
    requires int { IsCellOf base.I64 (seen int) }
    requires double { IsCellOf base.Double (seen double) }
    requires flag { IsCellOf base.Bool (seen flag) }
    requires octets { IsCellOf base.Binary (seen octets) }
    requires nested { IsCellOf base.Binary (seen nested) }
    ensures fits { AreCellsOf value_bases (map seen result) }
    ensures cells { map seen result ≡ number kind ∷ seen text.entry ∷ seen int.entry ∷ seen double.entry ∷ seen flag.entry ∷ seen octets.entry ∷ seen nested.entry ∷ [] }
{
    [CellView::Num(kind), text, int, double, flag, octets, nested]
}

/// What the value of a row weighs, whose columns begin at this one, or `CAP` where it is more. It builds nothing.
#[tactic(auto, using(crate::proofs::ValueColumns::value_type, crate::proofs::ValueColumns::value_width, crate::proofs::ValueColumns::small_width, crate::proofs::ValueColumns::value_cell, crate::proofs::ValueCells::weight_of_text, crate::proofs::ValueCells::weight_of_octets, crate::proofs::ValueCells::weight_of_map, crate::proofs::ValueCells::weight_of_array, crate::proofs::ValueCells::weight_of_other))]
pub fn weight_at<R: Rows>(rows: &R, column: u32, row: u64) -> u64
    requires columns { HasValueAt (R.table rows.now).kind column }
    requires row { row < length (R.table rows.now).rows }
    ensures { result ≡ min (weight_of_value (value_in (drop column (slice_index_or (R.table rows.now).rows row [])))) count_cap }
{
    match number_in(rows, column, row) {
        1 => capped_len(bytes_in(rows, column + 1, row)),
        7 => capped_len(bytes_in(rows, column + 5, row)),
        5 | 6 => nested_weight(bytes_in(rows, column + 6, row)),
        _ => 0,
    }
}

/// Returns what is wrong with the cells of a row's value, whose columns begin at this one: a type above 7, a nested value
/// that is no map or no array where its type says so, or one that can't be read.
#[tactic(auto, using(crate::proofs::ValueColumns::value_type, crate::proofs::ValueColumns::value_width, crate::proofs::ValueColumns::small_width, crate::proofs::ValueColumns::value_cell))]
pub fn check_value<R: Rows>(rows: &R, column: u32, row: u64) -> Result<(), RowRefusal>
    requires columns { HasValueAt (R.table rows.now).kind column }
    requires row { row < length (R.table rows.now).rows }
    ensures ok { OnOk result ((why : RowRefusal) → BadValue (drop column (slice_index_or (R.table rows.now).rows row [])) why → ⊥) }
    ensures err { IfErr result (BadValue (drop column (slice_index_or (R.table rows.now).rows row []))) }
{
    match number_in(rows, column, row) {
        0..5 | 7 => Ok(()),
        5 => check_nested(Nesting::Map, bytes_in(rows, column + 6, row)),
        6 => check_nested(Nesting::Array, bytes_in(rows, column + 6, row)),
        _ => Err(RowRefusal::BadValueType),
    }
}

/// Refuses bytes that aren't a value of this shape.
fn check_nested(nesting: Nesting, part: &[u8]) -> Result<(), RowRefusal>
    ensures ok { OnOk result ((why : RowRefusal) → BadNested nesting part.now why → ⊥) }
    ensures err { IfErr result (BadNested nesting part.now) }
{
    let told = match weigh_value(part) {
        Ok(told) => told,
        Err(refusal) => return Err(RowRefusal::BadCbor(refusal)),
    };
    if told.nesting == nesting {
        Ok(())
    } else {
        Err(RowRefusal::BadValueType)
    }
}

/// What the value of the bytes weighs, and 0 where they have none.
#[tactic(auto, using(otlp_model::proofs::Levels::weight_of_empty))]
fn nested_weight(part: &[u8]) -> u64
    ensures { result ≡ min (weight_of_value (unwrap_or (value_of part.now) values.Empty)) count_cap }
{
    match weigh_value(part) {
        Ok(told) => told.weight,
        Err(_) => 0,
    }
}
