ghost use Rattle.std.specs.Prelude.{◌≡◌, ◌+◌, ◌≤◌, ◌<◌, length, IfOk, OnOk};
ghost use Rattle.std.specs.Int.{w16, w32, w64};
ghost use Rattle.lists.specs.Results.{Gives};
ghost use Rattle.flat_tables.specs.Bytes.{part_at, number_at, signed_at};
ghost use Rattle.flat_tables.specs.Tables.{referred, vtable_at, size_at};

use crate::fault::FlatFault;
use byteorder::{ByteOrder, LittleEndian};

/// The `size` bytes at `place`, all of which must lie in the bytes.
#[tactic(auto, unfolding(crate::specs::Bytes::part_at))]
pub(crate) fn part(bytes: &[u8], place: usize, size: usize) -> Result<&[u8], FlatFault>
    ensures value { Gives (λ part. part.now) result (part_at bytes.now place size) }
    ensures size { IfOk result (λ part. length part.now ≡ size) }
    ensures within { OnOk result (place + size ≤ length bytes.now) }
{
    let end = place.checked_add(size).ok_or(FlatFault::OutOfRange)?;
    bytes.get(place..end).ok_or(FlatFault::OutOfRange)
}

#[tactic(auto, unfolding(crate::specs::Bytes::number_at))]
pub(crate) fn u8_at(bytes: &[u8], place: usize) -> Result<u8, FlatFault>
    ensures { result ≡ number_at 1 bytes.now place }
{
    Ok(part(bytes, place, 1)?[0])
}

#[tactic(auto, unfolding(crate::specs::Bytes::number_at))]
pub(crate) fn u16_at(bytes: &[u8], place: usize) -> Result<u16, FlatFault>
    ensures { result ≡ number_at 2 bytes.now place }
{
    Ok(LittleEndian::read_u16(part(bytes, place, 2)?))
}

#[tactic(auto, unfolding(crate::specs::Bytes::number_at))]
pub(crate) fn u32_at(bytes: &[u8], place: usize) -> Result<u32, FlatFault>
    ensures value { result ≡ number_at 4 bytes.now place }
    ensures within { OnOk result (place + 4 ≤ length bytes.now) }
{
    Ok(LittleEndian::read_u32(part(bytes, place, 4)?))
}

#[tactic(auto, unfolding(crate::specs::Bytes::number_at, crate::specs::Bytes::signed_at))]
pub(crate) fn i16_at(bytes: &[u8], place: usize) -> Result<i16, FlatFault>
    ensures { result ≡ signed_at w16 2 bytes.now place }
{
    Ok(LittleEndian::read_i16(part(bytes, place, 2)?))
}

#[tactic(auto, unfolding(crate::specs::Bytes::number_at, crate::specs::Bytes::signed_at))]
pub(crate) fn i32_at(bytes: &[u8], place: usize) -> Result<i32, FlatFault>
    ensures value { result ≡ signed_at w32 4 bytes.now place }
    ensures within { OnOk result (place + 4 ≤ length bytes.now) }
{
    Ok(LittleEndian::read_i32(part(bytes, place, 4)?))
}

#[tactic(auto, unfolding(crate::specs::Bytes::number_at, crate::specs::Bytes::signed_at))]
pub(crate) fn i64_at(bytes: &[u8], place: usize) -> Result<i64, FlatFault>
    ensures { result ≡ signed_at w64 8 bytes.now place }
{
    Ok(LittleEndian::read_i64(part(bytes, place, 8)?))
}

/// The offset that the u32 at `place` refers to: that many bytes after it.
#[tactic(auto, unfolding(crate::specs::Tables::referred))]
pub(crate) fn referred(bytes: &[u8], place: usize) -> Result<usize, FlatFault>
    ensures { result ≡ referred bytes.now place }
{
    Ok(place + u32_at(bytes, place)? as usize)
}

/// The offset of the vtable of the table at `place`.
#[tactic(auto, unfolding(crate::specs::Tables::vtable_at), using(crate::proofs::Natural::natural_place))]
pub(crate) fn vtable_at(bytes: &[u8], place: usize) -> Result<usize, FlatFault>
    ensures value { result ≡ vtable_at bytes.now place }
    ensures within { OnOk result (place ≤ length bytes.now) }
{
    let distance = i32_at(bytes, place)?;
    place
        .checked_sub_signed(distance as isize)
        .ok_or(FlatFault::OutOfRange)
}

/// The size that the vtable gives itself.
#[tactic(auto, unfolding(crate::specs::Tables::size_at))]
pub(crate) fn size_at(bytes: &[u8], vtable: usize) -> Result<usize, FlatFault>
    ensures value { result ≡ size_at bytes.now vtable }
    ensures within { IfOk result (λ size. vtable + size ≤ length bytes.now) }
{
    part(bytes, vtable, 4)?;
    let size = u16_at(bytes, vtable)? as usize;
    if size < 4 || size % 2 != 0 {
        return Err(FlatFault::BadVtable);
    }
    part(bytes, vtable, size)?;
    Ok(size)
}
