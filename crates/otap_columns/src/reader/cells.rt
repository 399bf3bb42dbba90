//! Cells by the bytes that they are stored in, little-endian (Arrow columnar format, "Fixed-size
//! primitive layout").

ghost use Rattle.std.specs.Prelude.{◌≡◌, ◌⊎◌, length};
ghost use Rattle.std.specs.Option.{ForSome, option_copied};
ghost use Rattle.byteorder.specs.Endian.{little_number};
ghost use Rattle.otap_cells.specs.Cells.{seen};
ghost use Rattle.otap_columns.specs.Known.{unsigned, stored, stored_cell};
ghost use Rattle.otap_columns.specs.Resolved.{FitsBase};

use byteorder::{ByteOrder, LittleEndian};
use otap_cells::{Base, CellView};

/// The cell of a column of this base that is stored in these bytes; null where there are none.
#[inline(always)]
#[tactic(auto, unfolding(crate::specs::Known::stored_cell))]
pub(crate) fn cell(base: Base, value: Option<&[u8]>) -> CellView<'_>
    requires { ForSome (option_copied value) (FitsBase base) }
    ensures { seen result ≡ stored_cell base (option_copied value.entry) }
{
    match value {
        None => CellView::Null,
        Some(value) => stored(base, value),
    }
}

#[inline(always)]
fn stored(base: Base, value: &[u8]) -> CellView<'_>
    requires { FitsBase base value.now }
    ensures { seen result ≡ stored base value.now }
{
    if base.has_bytes() {
        return CellView::Bytes(value);
    }
    match value.len() {
        1 if base == Base::Bool => CellView::Flag(value[0] == 1),
        1 => CellView::Num(i64::from(value[0])),
        2 => CellView::Num(i64::from(narrow(value))),
        4 if base == Base::I32 => CellView::Num(i64::from(LittleEndian::read_i32(value))),
        4 => CellView::Num(i64::from(wide(value))),
        _ if base == Base::I64 => CellView::Num(LittleEndian::read_i64(value)),
        _ => CellView::Bits(long(value)),
    }
}

#[inline(always)]
fn narrow(value: &[u8]) -> u16
    requires { length value.now ≡ 2 }
    ensures { result ≡ unsigned value.now }
{
    LittleEndian::read_u16(value)
}

#[inline(always)]
fn wide(value: &[u8]) -> u32
    requires { length value.now ≡ 4 }
    ensures { result ≡ unsigned value.now }
{
    LittleEndian::read_u32(value)
}

#[inline(always)]
fn long(value: &[u8]) -> u64
    requires { length value.now ≡ 8 }
    ensures { result ≡ unsigned value.now }
{
    LittleEndian::read_u64(value)
}

/// A number of 16 or 32 bits.
#[inline(always)]
fn id(value: &[u8]) -> u32
    requires { (length value.now ≡ 2) ⊎ (length value.now ≡ 4) }
    ensures { result ≡ unsigned value.now }
{
    if value.len() == 2 {
        return u32::from(narrow(value));
    }
    wide(value)
}

/// The index that one byte or two hold.
#[inline(always)]
pub(crate) fn index(value: &[u8]) -> usize
    requires { length value.now ≡ 1 ⊎ length value.now ≡ 2 }
    ensures { result ≡ little_number (length value.now) value.now }
{
    if value.len() == 2 {
        usize::from(LittleEndian::read_u16(value))
    } else {
        usize::from(value[0])
    }
}
