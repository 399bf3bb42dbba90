//! Which rows continue the run of the row before them.
ghost use Rattle.std.specs.Prelude.{◌≡◌, ◌<◌, ◌&&◌, [], true, drop, false, length, IfOk};
ghost use Rattle.std.specs.List.{slice_index_or};
ghost use Rattle.otap_cells.specs.Continuing.{again_of, attribute_in, attribute_is, bits_by, bytes_by, continues_in, has_attributes, ids_in_front, int_by, is_run_kind, seen_attribute};

use crate::payload::{Kind, has_attributes};
use crate::reads::{bits_in, bytes_in, flag_in, int_in, number_in};
use crate::rows::Rows;
use crate::shared_columns::{attribute, event, link};
use std::alloc::{AllocError, Global};

/// What a row of attributes says: the type of its value, its key, and of the value what the type names. The parts of other
/// types are empty. They are ordered by these parts, one after the other.
#[derive(Clone, Copy, Debug, PartialEq, Eq, PartialOrd, Ord)]
pub struct Attribute<'a> {
    pub kind: u32,
    pub key: &'a [u8],
    /// An integer.
    pub int: i64,
    /// The bits of a double, or 1 for `true`.
    pub bits: u64,
    /// A text, bytes, or a nested value.
    pub bytes: &'a [u8],
}

/// What a row of attributes says, where its cells are kept.
#[inline(always)]
#[tactic(auto, using(crate::proofs::AttributeColumns::attribute_width, crate::proofs::AttributeColumns::attribute_type, crate::proofs::Flags::after_one), unfolding(crate::specs::Continuing::attribute_in))]
pub fn attribute_at<R: Rows>(rows: &R, row: u64) -> Attribute<'_>
    requires kind { has_attributes (R.table rows.now).kind ≡ true }
    requires row { row < length (R.table rows.now).rows }
    ensures { seen_attribute result ≡ attribute_in (drop 1 (slice_index_or (R.table rows.now).rows row [])) }
{
    let kind = number_in(rows, attribute::TYPE, row);
    Attribute {
        kind,
        key: bytes_in(rows, attribute::KEY, row),
        int: int_of(rows, kind, row),
        bits: bits_of(rows, kind, row),
        bytes: bytes_of(rows, kind, row),
    }
}

/// Of each row of a table, whether it continues the run of the row before it: an attribute that says the same and is neither
/// empty nor nested, an event of the same name, a link to the same trace.
pub fn continuing_rows<R: Rows>(alloc: Global, rows: &R) -> Result<Vec<bool>, AllocError>
    ensures { IfOk result (λ found. found.items ≡ continues_in (R.table rows.now)) }
{
    if has_attributes(rows.kind()) {
        return continuing_attributes(alloc, rows);
    }
    let mut found = Vec::new(alloc);
    'rows: for row in 0..rows.rows() {
        found.push(continues(rows, row))?;
    }
    Ok(found)
}

/// The same of rows of attributes, each of which is read once.
fn continuing_attributes<R: Rows>(alloc: Global, rows: &R) -> Result<Vec<bool>, AllocError>
    requires { has_attributes (R.table rows.now).kind ≡ true }
    ensures { IfOk result (λ found. found.items ≡ continues_in (R.table rows.now)) }
{
    let count = rows.rows();
    let mut found = Vec::with_capacity(alloc, count as usize)?;
    if count == 0 {
        return Ok(found);
    }
    let mut before = attribute_at(rows, 0);
    found.push(false)?;
    'rows: for row in 1..count {
        let says = attribute_at(rows, row);
        found.push(says_again(&before, &says))?;
        before = says;
    }
    Ok(found)
}

/// Whether a row continues the run of the row before it.
#[tactic(auto, using(crate::proofs::Flags::first_flag, crate::proofs::Flags::later_flag))]
pub fn continues<R: Rows>(rows: &R, row: u64) -> bool
    requires { row < length (R.table rows.now).rows }
    ensures { result ≡ slice_index_or (continues_in (R.table rows.now)) row false }
{
    row > 0 && again(rows, row - 1, row)
}

/// Whether a row continues the run of the row `before`.
#[tactic(auto, using(crate::proofs::AttributeColumns::attribute_width, crate::proofs::AttributeColumns::event_width, crate::proofs::AttributeColumns::link_width, crate::proofs::Flags::after_two))]
fn again<R: Rows>(rows: &R, before: u64, row: u64) -> bool
    requires before { before < length (R.table rows.now).rows }
    requires row { row < length (R.table rows.now).rows }
    ensures { result ≡ again_of (R.table rows.now).kind
        (drop (ids_in_front (R.table rows.now).kind) (slice_index_or (R.table rows.now).rows before []))
        (drop (ids_in_front (R.table rows.now).kind) (slice_index_or (R.table rows.now).rows row [])) }
{
    let kind = rows.kind();
    if has_attributes(kind) {
        return says_again(&attribute_at(rows, before), &attribute_at(rows, row));
    }
    match kind {
        Kind::SpanEvents => {
            bytes_in(rows, event::NAME, before) == bytes_in(rows, event::NAME, row)
        },
        Kind::SpanLinks => {
            bytes_in(rows, link::TRACE_ID, before) == bytes_in(rows, link::TRACE_ID, row)
        },
        _ => false,
    }
}

/// Whether an attribute continues the run of the one before it: it says the same, and is neither empty nor nested.
#[inline(always)]
pub fn says_again(before: &Attribute<'_>, row: &Attribute<'_>) -> bool
    ensures { result ≡ (is_run_kind row.now.kind && attribute_is (seen_attribute before.now) (seen_attribute row.now)) }
{
    is_run_kind(row.kind)
        && before.kind == row.kind
        && before.int == row.int
        && before.bits == row.bits
        && before.bytes == row.bytes
        && before.key == row.key
}

/// Whether the values of a type have runs: they are neither empty nor nested.
pub fn is_run_kind(kind: u32) -> bool
    ensures { result ≡ is_run_kind kind }
{
    kind == 1 || kind == 2 || kind == 3 || kind == 4 || kind == 7
}

#[tactic(auto, using(crate::proofs::AttributeColumns::attribute_width, crate::proofs::Flags::after_one))]
fn int_of<R: Rows>(rows: &R, kind: u32, row: u64) -> i64
    requires kind { has_attributes (R.table rows.now).kind ≡ true }
    requires row { row < length (R.table rows.now).rows }
    ensures { result ≡ int_by kind (drop 1 (slice_index_or (R.table rows.now).rows row [])) }
{
    if kind == 2 {
        int_in(rows, attribute::INT, row)
    } else {
        0
    }
}

#[tactic(auto, using(crate::proofs::AttributeColumns::attribute_width, crate::proofs::Flags::after_one))]
fn bits_of<R: Rows>(rows: &R, kind: u32, row: u64) -> u64
    requires kind { has_attributes (R.table rows.now).kind ≡ true }
    requires row { row < length (R.table rows.now).rows }
    ensures { result ≡ bits_by kind (drop 1 (slice_index_or (R.table rows.now).rows row [])) }
{
    if kind == 3 {
        return bits_in(rows, attribute::DOUBLE, row);
    }
    if kind == 4 && flag_in(rows, attribute::BOOL, row) {
        1
    } else {
        0
    }
}

#[tactic(auto, using(crate::proofs::AttributeColumns::attribute_width, crate::proofs::Flags::after_one))]
fn bytes_of<R: Rows>(rows: &R, kind: u32, row: u64) -> &[u8]
    requires kind { has_attributes (R.table rows.now).kind ≡ true }
    requires row { row < length (R.table rows.now).rows }
    ensures { result.now ≡ bytes_by kind (drop 1 (slice_index_or (R.table rows.now).rows row [])) }
{
    match kind {
        1 => bytes_in(rows, attribute::STR, row),
        7 => bytes_in(rows, attribute::BYTES, row),
        5 | 6 => bytes_in(rows, attribute::SER, row),
        _ => &[],
    }
}
