//! Pairs as rows of attributes.
ghost use Rattle.std.specs.Prelude.{◌≡◌, ◌<◌, ◌≤◌, ◌++◌, ◌∷◌, [], true, suc, All, length, map, pos, take, IfOk, OnErr, OnOk};
ghost use Rattle.otlp_model.specs.Limits.{weight_limit, part_weight};
ghost use Rattle.otlp_model.specs.Weight.{total, weight_of_pair, weight_of_value};
ghost use Rattle.otap_cells.specs.declared.profile.Base.TheVariants as base;
ghost use Rattle.otap_cells.specs.Cells.{IsCellOf, number, seen};
ghost use Rattle.otap_cells.specs.Columns.{base_at, width_of};
ghost use Rattle.otap_cells.specs.Continuing.{attribute_in, has_attributes, seen_attribute};
ghost use Rattle.otap_cells.specs.Scalars.{text_cell};
ghost use Rattle.otap_groups.specs.Flat.{placed_at};
ghost use Rattle.otap_attrs.specs.Inside.{EndsNamed, EndsSame, HasNested, IsWritableAttribute, attribute_row, is_null, said_cell, seen_placed, value_place, with_some};
ghost use Rattle.otap_attrs.specs.Values.{nested_of, pair_cells, pair_row};

use crate::values::nested_bytes;
use otap_cells::{Attribute, CellView, LogicalTable, bits_cell, flag_cell, int_cell, number_cell};
use otlp_model::{Items, Pair, Value};
use std::alloc::{AllocError, Global};

/// A pair of a parent, and the bytes of its value where that is nested.
#[derive(Debug, Drop)]
pub(crate) struct PlacedPair<'a> {
    pub(crate) parent: u32,
    pub(crate) pair: &'a Pair,
    pub(crate) nested: Vec<u8>,
}

/// Appends the pairs of a parent.
pub(crate) fn place_pairs<'a>(
    alloc: Global,
    placed: &mut Vec<PlacedPair<'a>>,
    parent: u32,
    pairs: &'a Items<Pair>,
) -> Result<(), AllocError>
    requires weight { total part_weight weight_of_pair pairs.now ≤ weight_limit }
    requires nested { All HasNested placed.old.items }
    ensures are { OnOk result (map seen_placed placed.new.items ≡ map seen_placed placed.old.items ++ map (placed_at parent) pairs.now) }
    ensures nested { OnOk result (All HasNested placed.new.items) }
{
    placed.reserve(pairs.len())?;
    'pairs: for pair in pairs.as_slice() {
        placed.push(place_pair(alloc, parent, pair)?)?;
    }
    Ok(())
}

fn place_pair<'a>(alloc: Global, parent: u32, pair: &'a Pair) -> Result<PlacedPair<'a>, AllocError>
    requires { weight_of_value pair.now.value ≤ weight_limit }
    ensures is { IfOk result (λ placed. seen_placed placed ≡ placed_at parent pair.now) }
    ensures nested { IfOk result HasNested }
{
    let mut nested = Vec::new(alloc);
    nested_bytes(&mut nested, &pair.value)?;
    Ok(PlacedPair {
        parent,
        pair,
        nested,
    })
}

/// Appends the row of a pair of a parent, whose number is stored as it is. Where memory runs out, the former rows come
/// first; whether a row follows them isn't said.
pub(crate) fn add_pair(
    table: &mut LogicalTable,
    parent: u32,
    pair: &Pair,
    nested: &[u8],
) -> Result<(), AllocError>
    requires kind { has_attributes table.old.kind ≡ true }
    requires nested { nested.now ≡ nested_of pair.now.value }
    ensures ok { OnOk result (table.new ≡ record table.old { rows = table.old.rows ++ pair_row parent pair.now ∷ [] }) }
    ensures err { OnErr result (take (length table.old.rows) table.new.rows ≡ table.old.rows) }
    ensures kind { table.new.kind ≡ table.old.kind }
{
    add_attribute(table, parent, &attribute_of(pair, nested))
}

/// What the row of a pair says, where `nested` are the bytes of a nested value.
#[tactic(auto, using(crate::proofs::PairsSaid::says_empty, crate::proofs::PairsSaid::says_str, crate::proofs::PairsSaid::says_int, crate::proofs::PairsSaid::says_double, crate::proofs::PairsSaid::says_bool, crate::proofs::PairsSaid::says_map, crate::proofs::PairsSaid::says_array, crate::proofs::PairsSaid::says_bytes, crate::proofs::ValueCells::nested_of_array, crate::proofs::ValueCells::nested_of_map))]
pub(crate) fn attribute_of<'a>(pair: &'a Pair, nested: &'a [u8]) -> Attribute<'a>
    requires { nested.now ≡ nested_of pair.now.value }
    ensures says { seen_attribute result ≡ attribute_in (pair_cells pair.now) }
    ensures fits { IsWritableAttribute (seen_attribute result) }
{
    let key = pair.key.as_slice();
    match &pair.value {
        Value::Empty => attribute(0, key, 0, 0, &[]),
        Value::Str(text) => attribute(1, key, 0, 0, text.as_slice()),
        Value::Int(number) => attribute(2, key, *number, 0, &[]),
        Value::Double(bits) => attribute(3, key, 0, *bits, &[]),
        Value::Bool(flag) => attribute(4, key, 0, u64::from(*flag), &[]),
        Value::Map(_) => attribute(5, key, 0, 0, nested),
        Value::Array(_) => attribute(6, key, 0, 0, nested),
        Value::Bytes(octets) => attribute(7, key, 0, 0, octets.as_slice()),
    }
}

fn attribute<'a>(kind: u32, key: &'a [u8], int: i64, bits: u64, bytes: &'a [u8]) -> Attribute<'a>
    ensures { seen_attribute result ≡ record { kind = kind; key = key.now; int = int; bits = bits; bytes = bytes.now } }
{
    Attribute {
        kind,
        key,
        int,
        bits,
        bytes,
    }
}

/// Appends the row of what an attribute of a parent says. The parent's number is stored as it is. Where memory runs out, the
/// former rows come first; whether a row follows them isn't said.
pub(crate) fn add_attribute(
    table: &mut LogicalTable,
    parent: u32,
    says: &Attribute<'_>,
) -> Result<(), AllocError>
    requires kind { has_attributes table.old.kind ≡ true }
    requires fits { IsWritableAttribute (seen_attribute says.now) }
    ensures ok { OnOk result (table.new ≡ record table.old { rows = table.old.rows ++ attribute_row parent (seen_attribute says.now) ∷ [] }) }
    ensures err { OnErr result (take (length table.old.rows) table.new.rows ≡ table.old.rows) }
    ensures kind { table.new.kind ≡ table.old.kind }
{
    table.push_row()?;
    table.set(0, parent_cell(parent))?;
    fill(table, 1, bytes_cell(says.key))?;
    fill(table, 2, number_cell(says.kind))?;
    fill(table, value_column(says.kind), value_cell(says))?;
    Ok(())
}

/// Appends the row of an attribute with the key and the type of the row before, whose cells aren't copied.
pub(crate) fn add_named(
    table: &mut LogicalTable,
    parent: u32,
    says: &Attribute<'_>,
) -> Result<(), AllocError>
    requires kind { has_attributes table.old.kind ≡ true }
    requires fits { IsWritableAttribute (seen_attribute says.now) }
    requires named { EndsNamed (seen_attribute says.now) table.old.rows }
    ensures ok { OnOk result (table.new ≡ record table.old { rows = table.old.rows ++ attribute_row parent (seen_attribute says.now) ∷ [] }) }
    ensures kind { table.new.kind ≡ table.old.kind }
{
    table.push_row()?;
    table.set(0, parent_cell(parent))?;
    table.set_again(1)?;
    table.set_again(2)?;
    fill(table, value_column(says.kind), value_cell(says))?;
    Ok(())
}

/// Appends the row of an attribute that says the same as the row before, whose cells aren't copied.
pub(crate) fn add_again(
    table: &mut LogicalTable,
    parent: u32,
    says: &Attribute<'_>,
) -> Result<(), AllocError>
    requires kind { has_attributes table.old.kind ≡ true }
    requires fits { IsWritableAttribute (seen_attribute says.now) }
    requires same { EndsSame (seen_attribute says.now) table.old.rows }
    ensures ok { OnOk result (table.new ≡ record table.old { rows = table.old.rows ++ attribute_row parent (seen_attribute says.now) ∷ [] }) }
    ensures kind { table.new.kind ≡ table.old.kind }
{
    table.push_row()?;
    table.set(0, parent_cell(parent))?;
    table.set_again(1)?;
    table.set_again(2)?;
    table.set_again(value_column(says.kind))?;
    Ok(())
}

/// Writes a cell of the last row, unless it is null.
#[inline(always)]
fn fill(table: &mut LogicalTable, column: u32, cell: CellView<'_>) -> Result<(), AllocError>
    requires column { column < width_of table.old.kind }
    requires row { 0 < length table.old.rows }
    requires base { IsCellOf (base_at table.old.kind column) (seen cell) }
    ensures ok { OnOk result (table.new ≡ record table.old { rows = with_some column (seen cell.entry) table.old.rows }) }
    ensures err { OnErr result (table.new ≡ table.old) }
    ensures kind { table.new.kind ≡ table.old.kind }
    ensures count { length table.new.rows ≡ length table.old.rows }
{
    if is_null(cell) {
        return Ok(());
    }
    table.set(column, cell)
}

fn is_null(cell: CellView<'_>) -> bool
    ensures { result ≡ is_null (seen cell.entry) }
{
    matches!(cell, CellView::Null)
}

/// The cell of a parent, whose number is stored as it is.
fn parent_cell<'a>(parent: u32) -> CellView<'a>
    ensures value { seen result ≡ number (pos parent) }
    ensures fits { IsCellOf (base.Id true) (seen result) }
{
    CellView::Num(i64::from(parent))
}

/// The cell of a key, a text or bytes.
fn bytes_cell(bytes: &[u8]) -> CellView<'_>
    ensures { seen result ≡ text_cell bytes.now }
{
    if bytes.is_empty() {
        return CellView::Null;
    }
    CellView::Bytes(bytes)
}

/// The column of the values of a type.
fn value_column(kind: u32) -> u32
    ensures { result ≡ suc (value_place kind) }
{
    match kind {
        1 => 3,
        2 => 4,
        3 => 5,
        4 => 6,
        7 => 7,
        _ => 8,
    }
}

/// The cell of the value in that column.
fn value_cell<'a>(says: &Attribute<'a>) -> CellView<'a>
    ensures { seen result ≡ said_cell (seen_attribute says.now) }
{
    match says.kind {
        2 => int_cell(says.int),
        3 => bits_cell(says.bits),
        4 => flag_cell(says.bits == 1),
        5 | 6 => CellView::Bytes(says.bytes),
        _ => bytes_cell(says.bytes),
    }
}
