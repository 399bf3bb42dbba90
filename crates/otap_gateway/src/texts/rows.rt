//! The lines of a table's rows: the cells as they are stored.
ghost use Rattle.std.specs.Prelude.{◌≡◌, ◌<◌, ◌≤◌, [], ◌++◌, codes, length, OnOk};
ghost use Rattle.std.specs.List.{slice_index_or};
ghost use Rattle.hex.specs.Hex.{encode_lower};
ghost use Rattle.otap_cells.specs.Cells.{seen};
ghost use Rattle.otap_cells.specs.Columns.{columns_of, described};
ghost use Rattle.otap_cells.specs.Tables.{IsTable};
ghost use Rattle.otap_gateway.specs.Quoting.{quoted};
ghost use Rattle.otap_gateway.specs.Rows.{bits_text, bytes_text, cell_text, cells_text, elements, elements_text, list_text, named_cell, row_line, table_text};
ghost use Rattle.otap_gateway.specs.RowsInside.{after_commas};

use crate::texts::numbers::{push_number, push_signed};
use crate::texts::quoting::push_quoted;
use byteorder::{ByteOrder, LittleEndian};
use otap_cells::{Base, CellView, Column, Rows, columns};
use std::alloc::AllocError;

/// Appends a line for each row: its number, and each cell that is not null after the name of its column. Takes
/// time for what it appends, and for each known column of each row.
pub(crate) fn push_rows<R: Rows>(to: &mut Vec<u8>, rows: &R) -> Result<(), AllocError>
    ensures { OnOk result (to.new.items ≡ to.old.items ++ table_text (R.table rows.now)) }
{
    'rows: for row in 0..rows.rows() {
        push_row(to, rows, row)?;
    }
    Ok(())
}

fn push_row<R: Rows>(to: &mut Vec<u8>, rows: &R, row: u64) -> Result<(), AllocError>
    requires sound { IsTable (R.table rows.now) }
    requires row { row < length (R.table rows.now).rows }
    ensures { OnOk result (to.new.items ≡ to.old.items
        ++ row_line (columns_of (R.table rows.now).kind) row (slice_index_or (R.table rows.now).rows row [])) }
{
    to.extend_from_slice(b"row ")?;
    push_number(to, row)?;
    to.push(b':')?;
    push_cells(to, rows, row)?;
    to.push(b'\n')?;
    Ok(())
}

fn push_cells<R: Rows>(to: &mut Vec<u8>, rows: &R, row: u64) -> Result<(), AllocError>
    requires sound { IsTable (R.table rows.now) }
    requires row { row < length (R.table rows.now).rows }
    ensures { OnOk result (to.new.items ≡ to.old.items
        ++ cells_text (columns_of (R.table rows.now).kind) (slice_index_or (R.table rows.now).rows row [])) }
{
    let columns = columns(rows.kind());
    'columns: for place in 0..columns.len() {
        push_named(to, &columns[place], rows.cell(place as u32, row))?;
    }
    Ok(())
}

fn push_named(to: &mut Vec<u8>, column: &Column, cell: CellView<'_>) -> Result<(), AllocError>
    ensures { OnOk result (to.new.items ≡ to.old.items ++ named_cell (described column.now) (seen cell.entry)) }
{
    if matches!(cell, CellView::Null) {
        return Ok(());
    }
    to.push(b' ')?;
    to.extend_from_slice(column.name.as_bytes())?;
    to.push(b'=')?;
    push_cell(to, column.base, cell)?;
    Ok(())
}

fn push_cell(to: &mut Vec<u8>, base: Base, cell: CellView<'_>) -> Result<(), AllocError>
    ensures { OnOk result (to.new.items ≡ to.old.items ++ cell_text base (seen cell.entry)) }
{
    match cell {
        CellView::Null => Ok(()),
        CellView::Num(number) => push_signed(to, number),
        CellView::Bits(bits) => push_bits(to, base, bits),
        CellView::Flag(true) => to.extend_from_slice(b"true"),
        CellView::Flag(false) => to.extend_from_slice(b"false"),
        CellView::Bytes(part) => push_bytes(to, base, part),
    }
}

fn push_bits(to: &mut Vec<u8>, base: Base, bits: u64) -> Result<(), AllocError>
    ensures { OnOk result (to.new.items ≡ to.old.items ++ bits_text base bits) }
{
    match base {
        Base::Double | Base::ListF64 => push_hex(to, &bits.to_be_bytes()),
        _other => push_number(to, bits),
    }
}

fn push_bytes(to: &mut Vec<u8>, base: Base, part: &[u8]) -> Result<(), AllocError>
    ensures { OnOk result (to.new.items ≡ to.old.items ++ bytes_text base part.now) }
{
    match base {
        Base::Utf8 => push_text(to, part),
        Base::ListU64 | Base::ListF64 => push_list(to, base, part),
        _other => push_hex(to, part),
    }
}

fn push_text(to: &mut Vec<u8>, text: &[u8]) -> Result<(), AllocError>
    ensures { OnOk result (to.new.items ≡ to.old.items ++ codes "\"" ++ quoted text.now ++ codes "\"") }
{
    to.push(b'"')?;
    push_quoted(to, text)?;
    to.push(b'"')?;
    Ok(())
}

/// Appends the elements of a list, 8 bytes each, between brackets.
fn push_list(to: &mut Vec<u8>, base: Base, part: &[u8]) -> Result<(), AllocError>
    ensures { OnOk result (to.new.items ≡ to.old.items ++ list_text base part.now) }
{
    to.push(b'[')?;
    push_elements(to, base, part)?;
    to.push(b']')?;
    Ok(())
}

/// Appends the elements, with commas between them.
fn push_elements(to: &mut Vec<u8>, base: Base, part: &[u8]) -> Result<(), AllocError>
    ensures { OnOk result (to.new.items ≡ to.old.items ++ elements_text base (elements part.now)) }
{
    if part.len() < 8 {
        return Ok(());
    }
    let (first, rest) = part.split_at(8);
    push_bits(to, base, LittleEndian::read_u64(first))?;
    push_more(to, base, rest)?;
    Ok(())
}

/// Appends each element after a comma.
fn push_more(to: &mut Vec<u8>, base: Base, part: &[u8]) -> Result<(), AllocError>
    ensures { OnOk result (to.new.items ≡ to.old.items ++ after_commas base (elements part.now)) }
{
    let mut rest = part;
    'elements: while rest.len() >= 8 {
        let (element, more) = rest.split_at(8);
        to.push(b',')?;
        push_bits(to, base, LittleEndian::read_u64(element))?;
        rest = more;
    }
    Ok(())
}

/// Appends bytes as hexadecimal digits, two for each.
fn push_hex(to: &mut Vec<u8>, part: &[u8]) -> Result<(), AllocError>
    ensures { OnOk result (to.new.items ≡ to.old.items ++ encode_lower part.now) }
{
    let mut rest = part;
    'parts: while rest.len() > 16 {
        let (first, more) = rest.split_at(16);
        push_digits(to, first)?;
        rest = more;
    }
    push_digits(to, rest)
}

fn push_digits(to: &mut Vec<u8>, part: &[u8]) -> Result<(), AllocError>
    requires { length part.now ≤ 16 }
    ensures { OnOk result (to.new.items ≡ to.old.items ++ encode_lower part.now) }
{
    let mut room = [0; 32];
    let digits = &mut room[..2 * part.len()];
    let Ok(()) = hex::encode_to_slice(part, digits) else {
        unreachable!()
    };
    to.extend_from_slice(digits)
}
