//! Offsets of 32 bits into values whose elements have one width: the cells of rows that differ in
//! length (Arrow columnar format, "Variable-size binary layout" and "Variable-size list layout").

ghost use Rattle.std.specs.Prelude.{◌≡◌, ◌+◌, ◌*◌, ◌≤◌, length};
ghost use Rattle.arrow_buffers.specs.Offsets.{offset_at, is_fine, offsets_check, span_at};

use crate::BufferFault;
use byteorder::{ByteOrder, LittleEndian};

/// The offset at an index.
#[tactic(auto, unfolding(crate::specs::Offsets::offset_at))]
fn offset_at(offsets: &[u8], place: usize) -> u32
    requires { 4 * (place + 1) ≤ length offsets.now }
    ensures { result ≡ offset_at offsets.now place }
{
    LittleEndian::read_u32(&offsets[4 * place..])
}

/// Whether an offset is not negative, not less than the one before, and not past `len` bytes.
fn is_fine(before: u32, offset: u32, width: u32, len: usize) -> bool
    ensures { result ≡ is_fine before offset width len }
{
    offset <= i32::MAX as u32
        && before <= offset
        && u64::from(offset) * u64::from(width) <= len as u64
}

/// Whether the offsets of `rows` rows, which count elements of `width` bytes, lead into the values.
/// It reads each offset once.
#[tactic(auto, unfolding(crate::specs::Offsets::offsets_check))]
pub(crate) fn check(offsets: &[u8], values: &[u8], width: u32, rows: u64) -> Result<(), BufferFault>
    ensures { result ≡ offsets_check width offsets.now values.now rows }
{
    if rows == 0 && offsets.is_empty() {
        return Ok(());
    }
    if (offsets.len() as u128) < 4 * (u128::from(rows) + 1) {
        return Err(BufferFault::Short);
    }
    let mut before = 0;
    'places: for place in 0..rows as usize + 1 {
        let offset = offset_at(offsets, place);
        if !is_fine(before, offset, width, values.len()) {
            return Err(BufferFault::BadOffsets);
        }
        before = offset;
    }
    Ok(())
}

/// A row's offset, and the next one.
pub(crate) fn bounds(offsets: &[u8], row: u64) -> (u32, u32)
    requires { 4 * (row + 2) ≤ length offsets.now }
    ensures { result ≡ (offset_at offsets.now row, offset_at offsets.now (row + 1)) }
{
    let row = row as usize;
    (offset_at(offsets, row), offset_at(offsets, row + 1))
}

/// The values from a row's offset to the next one.
pub(crate) fn span<'a>(offsets: &[u8], values: &'a [u8], width: u32, row: u64) -> &'a [u8]
    requires there { 4 * (row + 2) ≤ length offsets.now }
    requires order { offset_at offsets.now row ≤ offset_at offsets.now (row + 1) }
    requires within { offset_at offsets.now (row + 1) * width ≤ length values.now }
    ensures { result.now ≡ span_at width offsets.now values.now row }
{
    let row = row as usize;
    let width = width as usize;
    let start = offset_at(offsets, row) as usize * width;
    let end = offset_at(offsets, row + 1) as usize * width;
    &values[start..end]
}
