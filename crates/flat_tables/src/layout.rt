ghost use Rattle.std.specs.Prelude.{◌≡◌, ◌+◌, ◌-◌, ◌*◌, ◌%◌, ◌≤◌, ◌<◌, ◌^◌, ◌++◌, ℕ, length, take, drop, reverse, slice_index_or, vec_len, All, IfOk, OnOk, OnErr};
ghost use Rattle.byteorder.specs.Endian.{little_bytes};
ghost use Rattle.flat_tables.specs.Limits.{max_slots, max_held};
ghost use Rattle.flat_tables.specs.Slots.{Reaches, AllReach};
ghost use Rattle.flat_tables.specs.Layout as layout;

use crate::place::{Place, Slot};
use byteorder::{ByteOrder, LittleEndian};
use std::alloc::{AllocError, Global};

/// How many zero bytes make a length a multiple of 8.
pub(crate) fn padding(len: usize) -> usize
    requires { len < 2 ^ 32 }
    ensures whole { (len + result) % 8 ≡ 0 }
    ensures small { result < 8 }
{
    (8 - len % 8) % 8
}

/// The bytes for which there is room from the first ones on.
const LEAST_ROOM: usize = 256;

/// Appends a number, the content and zero bytes.
#[tactic(auto, unfolding(crate::specs::Layout::piece))]
pub(crate) fn append(
    bytes: &mut Vec<u8>,
    head: u32,
    content: &[u8],
    pad: usize,
) -> Result<(), AllocError>
    requires { vec_len bytes.old + (4 + length content.now + pad) < 2 ^ 32 }
    ensures ok { OnOk result (bytes.new.items ≡ bytes.old.items ++ layout.piece head content.now pad) }
    ensures len { OnOk result (vec_len bytes.new ≡ vec_len bytes.old + (4 + length content.now + pad)) }
    ensures err { OnErr result (bytes.new.items ≡ bytes.old.items) }
{
    let end = bytes.len() + 4 + content.len() + pad;
    bytes.reserve(LEAST_ROOM.max(end) - bytes.len())?;
    let mut number = [0; 4];
    LittleEndian::write_u32(&mut number, head);
    bytes.extend_from_slice(&number)?;
    bytes.extend_from_slice(content)?;
    bytes.resize(end, 0)?;
    Ok(())
}

/// Turns the bytes from `start` on.
pub(crate) fn turn(bytes: &mut Vec<u8>, start: usize)
    requires { start ≤ vec_len bytes.old }
    ensures items { bytes.new.items ≡ take start bytes.old.items ++ reverse (drop start bytes.old.items) }
    ensures len { vec_len bytes.new ≡ vec_len bytes.old }
{
    bytes[start..].reverse();
}

fn push_u16(bytes: &mut Vec<u8>, number: u16) -> Result<(), AllocError>
    ensures ok { OnOk result (bytes.new.items ≡ bytes.old.items ++ little_bytes 2 number) }
    ensures len { OnOk result (vec_len bytes.new ≡ vec_len bytes.old + 2) }
{
    let mut part = [0; 2];
    LittleEndian::write_u16(&mut part, number);
    bytes.extend_from_slice(&part)?;
    Ok(())
}

fn push_u32(bytes: &mut Vec<u8>, number: u32) -> Result<(), AllocError>
    ensures ok { OnOk result (bytes.new.items ≡ bytes.old.items ++ little_bytes 4 number) }
    ensures len { OnOk result (vec_len bytes.new ≡ vec_len bytes.old + 4) }
{
    let mut part = [0; 4];
    LittleEndian::write_u32(&mut part, number);
    bytes.extend_from_slice(&part)?;
    Ok(())
}

fn push_u64(bytes: &mut Vec<u8>, number: u64) -> Result<(), AllocError>
    ensures ok { OnOk result (bytes.new.items ≡ bytes.old.items ++ little_bytes 8 number) }
    ensures len { OnOk result (vec_len bytes.new ≡ vec_len bytes.old + 8) }
{
    let mut part = [0; 8];
    LittleEndian::write_u64(&mut part, number);
    bytes.extend_from_slice(&part)?;
    Ok(())
}

/// References to parts of the builder, where the first reference is `from` bytes from the end.
pub(crate) fn references(
    alloc: Global,
    places: &[Place],
    from: usize,
) -> Result<Vec<u8>, AllocError>
    requires room { from < max_held }
    requires given { All (λ place. place + 4 * length places.now ≤ from) places.now }
    ensures value { IfOk result (λ bytes. bytes.items ≡ layout.references from places.now) }
    ensures len { IfOk result (λ bytes. vec_len bytes ≡ 4 * length places.now) }
{
    let mut bytes = Vec::with_capacity(alloc, 4 * places.len())?;
    for (index, place) in places.iter().enumerate() {
        let distance = from - 4 * index - place.to_end();
        push_u32(&mut bytes, distance as u32)?;
    }
    Ok(bytes)
}

/// The number of a slot, whose value is `from` bytes from the end.
fn slot_number(slot: Slot, from: usize) -> u64
    requires { Reaches from slot }
    ensures value { result ≡ layout.slot_number from slot }
    ensures fits { layout.IsSlot slot }
{
    match slot {
        Slot::Absent => 0,
        Slot::U8(number) => u64::from(number),
        Slot::I16(number) => u64::from(number.cast_unsigned()),
        Slot::I32(number) => u64::from(number.cast_unsigned()),
        Slot::I64(number) => number.cast_unsigned(),
        Slot::At(place) => (from - place.to_end()) as u64,
    }
}

/// The cells of a table and its vtable, where the first cell is `from` bytes from the end.
pub(crate) fn cells(alloc: Global, slots: &[Slot], from: usize) -> Result<Vec<u8>, AllocError>
    requires few { length slots.now ≤ max_slots }
    requires room { 8 * length slots.now ≤ from }
    requires given { AllReach (from - 8 * length slots.now) slots.now }
    ensures value { IfOk result (λ bytes. bytes.items ≡ layout.cells from slots.now ++ layout.vtable slots.now) }
    ensures len { IfOk result (λ bytes. vec_len bytes ≡ 10 * length slots.now + 4) }
    ensures fits { OnOk result ((k : ℕ) → layout.IsSlot (slice_index_or slots.now k Slot.Absent)) }
{
    let mut bytes = Vec::with_capacity(alloc, 10 * slots.len() + 4)?;
    for (index, slot) in slots.iter().enumerate() {
        push_u64(&mut bytes, slot_number(*slot, from - 8 * index))?;
    }
    push_vtable(&mut bytes, slots)?;
    Ok(bytes)
}

/// Appends the vtable of a table.
fn push_vtable(bytes: &mut Vec<u8>, slots: &[Slot]) -> Result<(), AllocError>
    requires { length slots.now ≤ max_slots }
    ensures ok { OnOk result (bytes.new.items ≡ bytes.old.items ++ layout.vtable slots.now) }
    ensures len { OnOk result (vec_len bytes.new ≡ vec_len bytes.old + (2 * length slots.now + 4)) }
{
    push_u16(bytes, 4 + 2 * slots.len() as u16)?;
    push_u16(bytes, 4 + 8 * slots.len() as u16)?;
    for (index, slot) in slots.iter().enumerate() {
        push_u16(bytes, entry(*slot, index))?;
    }
    Ok(())
}

/// The vtable's entry of a slot.
fn entry(slot: Slot, index: usize) -> u16
    requires { index < max_slots }
    ensures { result ≡ layout.vtable_entry index slot }
{
    match slot {
        Slot::Absent => 0,
        _ => 4 + 8 * index as u16,
    }
}

/// How far the vtable is after its table, as the table stores it: negative, since it is subtracted.
pub(crate) fn vtable_distance(slots: usize) -> u32
    requires { slots ≤ max_slots }
    ensures { result ≡ 2 ^ 32 - (4 + 8 * slots) }
{
    u32::MAX - (3 + 8 * slots as u32)
}
