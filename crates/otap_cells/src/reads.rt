//! Single values, read from the cells of a table. Null reads as the default.
ghost use Rattle.std.specs.Prelude.{◌≡◌, ◌<◌, [], true, length, IfOk, OnErr, OnOk};
ghost use Rattle.otap_cells.specs.declared.profile.Base.TheVariants as base;
ghost use Rattle.otap_cells.specs.Cells.{bytes_in, nat_in};
ghost use Rattle.otap_cells.specs.Scalars.{int_in, bits_in, flag_in, is_unsigned};
ghost use Rattle.otap_cells.specs.Columns.{base_at, width_of};
ghost use Rattle.otap_cells.specs.Tables.{cell_in};

use crate::rows::Rows;
use crate::view::CellView;
use otlp_model::{Octets, Text};
use std::alloc::{AllocError, Global};

/// The bytes of a cell, where they are kept.
pub fn bytes_in<R: Rows>(rows: &R, column: u32, row: u64) -> &[u8]
    requires column { column < width_of (R.table rows.now).kind }
    requires row { row < length (R.table rows.now).rows }
    ensures { result.now ≡ bytes_in (cell_in (R.table rows.now).rows column row) }
{
    match rows.cell(column, row) {
        CellView::Bytes(part) => part,
        CellView::Null | CellView::Num(_) | CellView::Bits(_) | CellView::Flag(_) => &[],
    }
}

/// A copy of the text of a cell.
#[inline(always)]
pub fn text_in<R: Rows>(alloc: Global, rows: &R, column: u32, row: u64) -> Result<Text, AllocError>
    requires base { base_at (R.table rows.now).kind column ≡ base.Utf8 }
    requires row { row < length (R.table rows.now).rows }
    ensures { IfOk result (λ text. text ≡ bytes_in (cell_in (R.table rows.now).rows column row)) }
{
    let mut text = Text::new(alloc);
    set_text(alloc, rows, column, row, &mut text)?;
    Ok(text)
}

/// Makes an empty text a copy of that of a cell. Out of memory, it is empty still.
#[inline(always)]
pub fn set_text<R: Rows>(
    alloc: Global,
    rows: &R,
    column: u32,
    row: u64,
    text: &mut Text,
) -> Result<(), AllocError>
    requires base { base_at (R.table rows.now).kind column ≡ base.Utf8 }
    requires row { row < length (R.table rows.now).rows }
    requires empty { text.old ≡ [] }
    ensures ok { OnOk result (text.new ≡ bytes_in (cell_in (R.table rows.now).rows column row)) }
    ensures err { OnErr result (text.new ≡ []) }
{
    if let CellView::Bytes(part) = rows.cell(column, row) {
        text.set_slice(alloc, part)?;
    }
    Ok(())
}

/// A copy of the bytes of a cell.
pub fn octets_in<R: Rows>(
    alloc: Global,
    rows: &R,
    column: u32,
    row: u64,
) -> Result<Octets, AllocError>
    requires column { column < width_of (R.table rows.now).kind }
    requires row { row < length (R.table rows.now).rows }
    ensures { IfOk result (λ octets. octets ≡ bytes_in (cell_in (R.table rows.now).rows column row)) }
{
    Octets::from_slice(alloc, bytes_in(rows, column, row))
}

/// The unsigned number of a cell.
pub fn number_in<R: Rows>(rows: &R, column: u32, row: u64) -> u32
    requires base { is_unsigned (base_at (R.table rows.now).kind column) ≡ true }
    requires row { row < length (R.table rows.now).rows }
    ensures { result ≡ nat_in (cell_in (R.table rows.now).rows column row) }
{
    match rows.cell(column, row) {
        CellView::Num(number) => number as u32,
        CellView::Null | CellView::Bits(_) | CellView::Flag(_) | CellView::Bytes(_) => 0,
    }
}

/// The signed number of a cell.
pub fn int_in<R: Rows>(rows: &R, column: u32, row: u64) -> i64
    requires column { column < width_of (R.table rows.now).kind }
    requires row { row < length (R.table rows.now).rows }
    ensures { result ≡ int_in (cell_in (R.table rows.now).rows column row) }
{
    match rows.cell(column, row) {
        CellView::Num(number) => number,
        CellView::Null | CellView::Bits(_) | CellView::Flag(_) | CellView::Bytes(_) => 0,
    }
}

/// The signed number of a cell that holds 32 bits.
pub fn small_int_in<R: Rows>(rows: &R, column: u32, row: u64) -> i32
    requires base { base_at (R.table rows.now).kind column ≡ base.I32 }
    requires row { row < length (R.table rows.now).rows }
    ensures { result ≡ int_in (cell_in (R.table rows.now).rows column row) }
{
    match rows.cell(column, row) {
        CellView::Num(number) => number as i32,
        CellView::Null | CellView::Bits(_) | CellView::Flag(_) | CellView::Bytes(_) => 0,
    }
}

/// The 64 bits of a cell.
pub fn bits_in<R: Rows>(rows: &R, column: u32, row: u64) -> u64
    requires column { column < width_of (R.table rows.now).kind }
    requires row { row < length (R.table rows.now).rows }
    ensures { result ≡ bits_in (cell_in (R.table rows.now).rows column row) }
{
    match rows.cell(column, row) {
        CellView::Bits(bits) => bits,
        CellView::Null | CellView::Num(_) | CellView::Flag(_) | CellView::Bytes(_) => 0,
    }
}

/// The truth value of a cell.
pub fn flag_in<R: Rows>(rows: &R, column: u32, row: u64) -> bool
    requires column { column < width_of (R.table rows.now).kind }
    requires row { row < length (R.table rows.now).rows }
    ensures { result ≡ flag_in (cell_in (R.table rows.now).rows column row) }
{
    match rows.cell(column, row) {
        CellView::Flag(flag) => flag,
        CellView::Null | CellView::Num(_) | CellView::Bits(_) | CellView::Bytes(_) => false,
    }
}
