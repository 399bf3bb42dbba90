ghost use Rattle.std.specs.Prelude.{◌≡◌, [], ◌∷◌, ◌++◌, ◌+◌, ◌-◌, ◌<◌, ◌≤◌, ◌^◌, if◌then◌else◌, drop, is_ok, length, take, true, vec_len, replicate, slice_set, OnOk, OnErr, IfOk};
ghost use Rattle.std.specs.List.{slice_index_or};
ghost use Rattle.otap_cells.specs.Cells.{seen, null, bytes_in};
ghost use Rattle.otap_cells.specs.Inside.{cell_of_slot, reach};
ghost use Rattle.otap_cells.specs.declared.kept.KeptCell.TheVariants as slot;

use crate::view::CellView;
use std::alloc::{AllocError, Global};
use std::marker::Model;

/// The most bytes for which there is room before they come.
const MAX_ROOM: usize = 1 << 15;

/// A cell as a column keeps it; `Bytes` names a part of the column's bytes.
#[derive(Clone, Copy, Debug)]
pub enum KeptCell {
    Null,
    Num(i64),
    Bits(u64),
    Flag(bool),
    Bytes { from: u32, len: u32 },
}

/// The cells of one column, from the first row to the last one that was set.
#[derive(Debug, Drop)]
pub struct Cells {
    slots: Vec<KeptCell>,
    bytes: Vec<u8>,
}

impl Model for Cells {
    ghost use Rattle.std.specs.Prelude.{◌≤◌, List, length, map, All};
    ghost use Rattle.otap_cells.specs.Cells.{Cell};

    ghost Value = { List Cell };

    ghost use Rattle.otap_cells.specs.Inside.{cell_of_slot, reach};

    ghost view = { λ a. map (cell_of_slot a.bytes.items) a.slots.items };

    ghost invariant = { λ a. All (λ slot. reach slot ≤ length a.bytes.items) a.slots.items };
}

impl Cells {
    pub fn new(alloc: Global) -> Cells
        ensures { result ≡ [] }
    {
        Cells {
            slots: Vec::new(alloc),
            bytes: Vec::new(alloc),
        }
    }

    /// How many rows there are up to the last one that was set.
    pub fn reach(&self) -> u64
        ensures { result ≡ length self.now }
    {
        self.slots.len() as u64
    }

    /// The cell of a row, null past the last one.
    pub fn get(&self, row: usize) -> CellView<'_>
        ensures { seen result ≡ slice_index_or self.now row null }
    {
        if row >= self.slots.len() {
            return CellView::Null;
        }
        match self.slots[row] {
            KeptCell::Null => CellView::Null,
            KeptCell::Num(number) => CellView::Num(number),
            KeptCell::Bits(bits) => CellView::Bits(bits),
            KeptCell::Flag(flag) => CellView::Flag(flag),
            KeptCell::Bytes { from, len } => CellView::Bytes(part_of(&self.bytes, from, len)),
        }
    }

    /// Whether the cell of a row is known to be that of the row before: both are the same part of the column's bytes. `false`
    /// says nothing of the cells.
    #[inline(always)]
    pub fn is_again(&self, row: usize) -> bool
        requires { 0 < row }
        ensures { result ≡ true → slice_index_or self.now row null ≡ slice_index_or self.now (row - 1) null }
    {
        is_same_part(slot_at(&self.slots, row), slot_at(&self.slots, row - 1))
    }

    /// Writes the cell of a row after which no row has a cell. The bytes of a cell that was there before keep their room. The
    /// first cell reserves room for `room` cells.
    #[inline(always)]
    pub fn set(&mut self, row: usize, cell: CellView<'_>, room: usize) -> Result<(), AllocError>
        requires last { length self.old ≤ row + 1 }
        requires below { row + 1 < 2 ^ 64 }
        ensures ok { OnOk result (self.new ≡ slice_set (self.old ++ replicate (row + 1 - length self.old) null) row (seen cell.entry)) }
        ensures err { OnErr result (self.new ≡ self.old) }
    {
        let slot = keep(&mut self.bytes, cell, room)?;
        if row == self.slots.len() {
            push_slot(&mut self.slots, slot, room)?;
            return Ok(());
        }
        resize(&mut self.slots, row + 1, room)?;
        self.slots[row] = slot;
        Ok(())
    }

    /// Writes the cell of a row after which no row has a cell as the one of the row before it, whose bytes aren't copied.
    #[inline(always)]
    pub fn set_again(&mut self, row: usize, room: usize) -> Result<(), AllocError>
        requires some { 0 < row }
        requires last { length self.old ≤ row + 1 }
        requires below { row + 1 < 2 ^ 64 }
        ensures ok { OnOk result (self.new ≡ slice_set (self.old ++ replicate (row + 1 - length self.old) null) row (slice_index_or self.old (row - 1) null)) }
        ensures err { OnErr result (self.new ≡ self.old) }
    {
        let slot = slot_at(&self.slots, row - 1);
        if row == self.slots.len() {
            push_slot(&mut self.slots, slot, room)?;
            return Ok(());
        }
        resize(&mut self.slots, row + 1, room)?;
        self.slots[row] = slot;
        Ok(())
    }
}

/// The slot of a row, null past the last one.
#[inline(always)]
fn slot_at(slots: &[KeptCell], row: usize) -> KeptCell
    ensures { result ≡ slice_index_or slots.now row slot.Null }
{
    if row < slots.len() {
        slots[row]
    } else {
        KeptCell::Null
    }
}

/// Whether two slots name the same part of a column's bytes.
#[inline(always)]
fn is_same_part(one: KeptCell, other: KeptCell) -> bool
    ensures { result ≡ true → one ≡ other }
{
    let KeptCell::Bytes { from, len } = one else {
        return false;
    };
    match other {
        KeptCell::Bytes {
            from: start,
            len: count,
        } => from == start && len == count,
        KeptCell::Null | KeptCell::Num(_) | KeptCell::Bits(_) | KeptCell::Flag(_) => false,
    }
}

/// Puts a slot after the others.
#[inline(always)]
fn push_slot(slots: &mut Vec<KeptCell>, slot: KeptCell, room: usize) -> Result<(), AllocError>
    ensures ok { OnOk result (slots.new.items ≡ slots.old.items ++ slot ∷ []) }
    ensures err { OnErr result (slots.new.items ≡ slots.old.items) }
{
    if slots.is_empty() {
        slots.reserve(room)?;
    }
    slots.push(slot)?;
    Ok(())
}

/// Fills slots up with nulls to `count`.
fn resize(slots: &mut Vec<KeptCell>, count: usize, room: usize) -> Result<(), AllocError>
    ensures items { slots.new.items ≡ (if is_ok result then take count slots.old.items ++ replicate (count - vec_len slots.old) slot.Null else slots.old.items) }
{
    if slots.is_empty() {
        slots.reserve(room)?;
    }
    slots.resize(count, KeptCell::Null)?;
    Ok(())
}

fn part_of(bytes: &[u8], from: u32, len: u32) -> &[u8]
    requires { from + len ≤ length bytes.now }
    ensures { result.now ≡ take len (drop from bytes.now) }
{
    let from = from as usize;
    let len = len as usize;
    &bytes[from..from + len]
}

/// The slot of a cell, whose bytes come after those that are kept. A column has room for less than 2^32 bytes.
#[inline(always)]
fn keep(kept: &mut Vec<u8>, cell: CellView<'_>, room: usize) -> Result<KeptCell, AllocError>
    ensures ok { OnOk result (kept.new.items ≡ kept.old.items ++ bytes_in (seen cell.entry)) }
    ensures err { OnErr result (kept.new.items ≡ kept.old.items) }
    ensures value { IfOk result (λ slot. cell_of_slot kept.new.items slot ≡ seen cell.entry) }
    ensures within { IfOk result (λ slot. reach slot ≤ length kept.new.items) }
{
    match cell {
        CellView::Null => Ok(KeptCell::Null),
        CellView::Num(number) => Ok(KeptCell::Num(number)),
        CellView::Bits(bits) => Ok(KeptCell::Bits(bits)),
        CellView::Flag(flag) => Ok(KeptCell::Flag(flag)),
        CellView::Bytes(part) => {
            let from = short(kept.len())?;
            let len = short(part.len())?;
            if from == 0 {
                kept.reserve(bytes_room(part.len(), room))?;
            }
            kept.extend_from_slice(part)?;
            Ok(KeptCell::Bytes { from, len })
        }
    }
}

/// The room in bytes that comes with a column's first cell of bytes.
fn bytes_room(len: usize, room: usize) -> usize {
    len.saturating_mul(room).min(MAX_ROOM)
}

fn short(len: usize) -> Result<u32, AllocError>
    ensures { IfOk result (λ short. short ≡ len) }
{
    if len > u32::MAX as usize {
        return Err(AllocError);
    }
    Ok(len as u32)
}
