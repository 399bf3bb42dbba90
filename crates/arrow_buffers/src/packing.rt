//! Parts of buffers that grow: bits, offsets and values after those that are there.

ghost use Rattle.std.specs.Prelude.{◌≡◌, ℕ, true, ◌+◌, ◌/◌, ◌^◌, ◌<◌, ◌≤◌, [], ◌++◌, length, vec_len, vec_capacity, OnOk, OnErr, IsOk, unwrap_or, replicate};
ghost use Rattle.std.specs.Option.{option_copied};
ghost use Rattle.arrow_buffers.specs.Bits.{bit_at};
ghost use Rattle.arrow_buffers.specs.Offsets.{offset_bytes};
ghost use Rattle.arrow_buffers.specs.Packed.{IsPacked, PushesBit, PushesZeros};

use byteorder::{ByteOrder, LittleEndian};
use std::alloc::AllocError;

/// The bytes of bits or values for which there is room from the first ones on.
pub(crate) const LEAST_ROOM: usize = 64;

/// Makes room for the bit after the first `count`.
#[inline(always)]
pub(crate) fn reserve_bit(bytes: &mut Vec<u8>, count: u64) -> Result<(), AllocError>
    ensures items { bytes.new.items ≡ bytes.old.items }
    ensures ok { OnOk result (count / 8 < vec_capacity bytes.new) }
{
    let len = (count / 8) as usize + 1;
    bytes.reserve(LEAST_ROOM.max(len).saturating_sub(bytes.len()))
}

/// Puts a bit after the first `count`. There is room for it.
#[inline(always)]
pub(crate) fn push_bit(bytes: &mut Vec<u8>, count: u64, bit: bool)
    requires packed { IsPacked count bytes.old.items }
    requires room { count / 8 < vec_capacity bytes.old }
    ensures bits { PushesBit count bit bytes.old.items bytes.new.items }
    ensures room { vec_capacity bytes.new ≡ vec_capacity bytes.old }
{
    let place = count % 8;
    if place == 0 {
        bytes.push_reserved(u8::from(bit));
    } else if bit {
        let last = bytes.len() - 1;
        bytes[last] |= 1 << place;
    }
}

/// Puts `count` bits that are 1 where there are none yet. There is room for them.
pub(crate) fn fill_ones(bytes: &mut Vec<u8>, count: u64)
    requires none { bytes.old.items ≡ [] }
    requires room { count / 8 < vec_capacity bytes.old }
    ensures packed { IsPacked count bytes.new.items }
    ensures ones { (k : ℕ) → k < count → bit_at bytes.new.items k ≡ true }
    ensures room { vec_capacity bytes.old ≤ vec_capacity bytes.new }
{
    let filled = bytes.resize((count / 8) as usize, u8::MAX);
    prove!(filled.is_ok());
    let rest = count % 8;
    if rest != 0 {
        bytes.push_reserved((1 << rest) - 1);
    }
}

/// Puts bits that are 0 after the first `count`, up to `all` bits.
pub(crate) fn push_zeros(bytes: &mut Vec<u8>, count: u64, all: u64) -> Result<(), AllocError>
    requires packed { IsPacked count bytes.old.items }
    requires more { count ≤ all }
    requires few { all < 2 ^ 63 }
    ensures ok { OnOk result (PushesZeros all bytes.old.items bytes.new.items) }
    ensures err { OnErr result (bytes.new.items ≡ bytes.old.items) }
    ensures room { all / 8 < vec_capacity bytes.old → IsOk result }
{
    bytes.resize(all.div_ceil(8) as usize, 0)
}

/// Puts the offset of what follows `len` bytes of elements after the others.
#[tactic(auto, unfolding(crate::specs::Offsets::offset_bytes))]
pub(crate) fn push_offset(offsets: &mut Vec<u8>, element: u32, len: usize) -> Result<(), AllocError>
    requires some { 1 ≤ element }
    requires fits { len / element < 2 ^ 32 }
    ensures ok { OnOk result (offsets.new.items ≡ offsets.old.items ++ offset_bytes (len / element)) }
    ensures err { OnErr result (offsets.new.items ≡ offsets.old.items) }
    ensures room { vec_len offsets.old + 4 ≤ vec_capacity offsets.old → IsOk result }
    ensures capacity { vec_capacity offsets.old ≤ vec_capacity offsets.new }
{
    let mut bytes = [0; 4];
    LittleEndian::write_u32(&mut bytes, (len / element as usize) as u32);
    offsets.extend_from_slice(&bytes)
}

/// Puts a value of one width after the others: zeros where it is null.
#[inline(always)]
pub(crate) fn push_part(
    values: &mut Vec<u8>,
    width: u32,
    cell: Option<&[u8]>,
) -> Result<(), AllocError>
    ensures ok { OnOk result (values.new.items ≡ values.old.items ++ unwrap_or (option_copied cell.entry) (replicate width 0)) }
    ensures err { OnErr result (values.new.items ≡ values.old.items) }
{
    match cell {
        Some(part) => push_bytes(values, part),
        None => push_null(values, width),
    }
}

/// Puts zeros for a null after the others.
#[inline(always)]
fn push_null(values: &mut Vec<u8>, width: u32) -> Result<(), AllocError>
    ensures ok { OnOk result (values.new.items ≡ values.old.items ++ replicate width 0) }
    ensures err { OnErr result (values.new.items ≡ values.old.items) }
{
    match width {
        1 => push_bytes(values, &[0]),
        2 => push_bytes(values, &[0; 2]),
        8 => push_bytes(values, &[0; 8]),
        _ => values.resize(values.len() + width as usize, 0),
    }
}

/// Puts bytes after the others. The bytes of numbers are put one by one, since that is no call and no copy.
#[inline(always)]
fn push_bytes(values: &mut Vec<u8>, part: &[u8]) -> Result<(), AllocError>
    ensures ok { OnOk result (values.new.items ≡ values.old.items ++ part.now) }
    ensures err { OnErr result (values.new.items ≡ values.old.items) }
{
    match *part {
        [byte] => {
            values.push(byte)?;
            Ok(())
        }
        [low, high] => {
            values.reserve(2)?;
            values.push_reserved(low);
            values.push_reserved(high);
            Ok(())
        }
        [a, b, c, d] => {
            values.reserve(4)?;
            push_four(values, [a, b, c, d]);
            Ok(())
        }
        [a, b, c, d, e, f, g, h] => {
            values.reserve(8)?;
            push_four(values, [a, b, c, d]);
            push_four(values, [e, f, g, h]);
            Ok(())
        }
        _ => values.extend_from_slice(part),
    }
}

/// Puts four bytes after the others. There is room for them.
#[inline(always)]
fn push_four(values: &mut Vec<u8>, bytes: [u8; 4])
    requires { vec_len values.old + 4 ≤ vec_capacity values.old }
    ensures items { values.new.items ≡ values.old.items ++ bytes }
    ensures len { vec_len values.new ≡ vec_len values.old + 4 }
    ensures capacity { vec_capacity values.new ≡ vec_capacity values.old }
{
    values.push_reserved(bytes[0]);
    values.push_reserved(bytes[1]);
    values.push_reserved(bytes[2]);
    values.push_reserved(bytes[3]);
}

/// Puts a value after the others, and its offset, which counts elements: nothing where it is null.
pub(crate) fn push_span(
    offsets: &mut Vec<u8>,
    values: &mut Vec<u8>,
    element: u32,
    cell: Option<&[u8]>,
) -> Result<(), AllocError>
    requires some { 1 ≤ element }
    requires fits { length values.old.items / element < 2 ^ 32 }
    ensures ok { OnOk result ((offsets.new.items ≡ offsets.old.items ++ offset_bytes (length values.old.items / element))
        × (values.new.items ≡ values.old.items ++ unwrap_or (option_copied cell.entry) [])) }
    ensures err { OnErr result ((offsets.new.items ≡ offsets.old.items) × (values.new.items ≡ values.old.items)) }
{
    let start = values.len();
    offsets.reserve(4)?;
    if let Some(part) = cell {
        values.extend_from_slice(part)?;
    }
    push_offset(offsets, element, start)
}
