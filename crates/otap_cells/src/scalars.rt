//! Single values as cells: what a column holds for a text, a byte string, a number or a truth value. A default is null.
ghost use Rattle.std.specs.Prelude.{◌≡◌, ◌<◌, true, FitsSigned};
ghost use Rattle.std.specs.Int.{w32};
ghost use Rattle.otlp_model.specs.Profile.{IsTraceId, IsSpanId};
ghost use Rattle.otap_cells.specs.declared.profile.Base.{Base};
ghost use Rattle.otap_cells.specs.declared.profile.Base.TheVariants as base;
ghost use Rattle.otap_cells.specs.Cells.{seen, IsCellOf};
ghost use Rattle.otap_cells.specs.Scalars.{text_cell, number_cell, int_cell, bits_cell, flag_cell, is_bits};

use crate::view::CellView;
use otlp_model::{Octets, Text};

/// A text.
pub fn text_cell(text: &Text) -> CellView<'_>
    ensures value { seen result ≡ text_cell text.now }
    ensures fits { IsCellOf base.Utf8 (seen result) }
{
    let bytes = text.as_slice();
    if bytes.is_empty() {
        return CellView::Null;
    }
    CellView::Bytes(bytes)
}

/// A byte string.
pub fn octets_cell(octets: &Octets) -> CellView<'_>
    ensures value { seen result ≡ text_cell octets.now }
    ensures binary { IsCellOf base.Binary (seen result) }
    ensures trace { IsTraceId octets.now → IsCellOf base.Fixed16 (seen result) }
    ensures span { IsSpanId octets.now → IsCellOf base.Fixed8 (seen result) }
{
    let bytes = octets.as_slice();
    if bytes.is_empty() {
        return CellView::Null;
    }
    CellView::Bytes(bytes)
}

/// An unsigned number.
pub fn number_cell<'a>(number: u32) -> CellView<'a>
    ensures value { seen result ≡ number_cell number }
    ensures fits { IsCellOf base.U32 (seen result) }
    ensures small { number < 256 → IsCellOf base.U8 (seen result) }
{
    if number == 0 {
        return CellView::Null;
    }
    CellView::Num(i64::from(number))
}

/// A signed number.
pub fn int_cell<'a>(number: i64) -> CellView<'a>
    ensures value { seen result ≡ int_cell number }
    ensures fits { IsCellOf base.I64 (seen result) }
    ensures small { FitsSigned w32 number → IsCellOf base.I32 (seen result) }
{
    if number == 0 {
        return CellView::Null;
    }
    CellView::Num(number)
}

/// 64 bits: a number, a double, a time or a duration.
pub fn bits_cell<'a>(bits: u64) -> CellView<'a>
    ensures value { seen result ≡ bits_cell bits }
    ensures fits { (holds : Base) → is_bits holds ≡ true → IsCellOf holds (seen result) }
{
    if bits == 0 {
        return CellView::Null;
    }
    CellView::Bits(bits)
}

/// A truth value.
pub fn flag_cell<'a>(flag: bool) -> CellView<'a>
    ensures value { seen result ≡ flag_cell flag }
    ensures fits { IsCellOf base.Bool (seen result) }
{
    if flag {
        CellView::Flag(true)
    } else {
        CellView::Null
    }
}
