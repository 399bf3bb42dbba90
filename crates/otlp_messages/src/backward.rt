//! A buffer that is filled from its end to its front, so that the length of an embedded message is known
//! when its last byte, the first one, is written.

ghost use Rattle.std.specs.Prelude.{◌≡◌, ◌+◌, ◌-◌, ◌≤◌, ◌∷◌, ◌++◌, [], length, take, drop, vec_len, IfOk, OnOk, OnErr, IsTrue, ◌↔◌};
ghost use Rattle.otlp_messages.specs.Kept.{KeepsEnd};
ghost use Rattle.otlp_wire.specs.Varint.{varint};

use std::alloc::{AllocError, Global};
use std::marker::Model;

/// How many bytes are moved at once.
const PIECE: usize = 1024;

/// The least room that a buffer gets.
const LEAST: usize = 4096;

/// A buffer that grows at its front. After an `Err` of a method that writes, what was written before is still the end of
/// what it holds.
#[derive(Debug, Drop)]
pub struct Backward {
    bytes: Vec<u8>,
    start: usize,
}

impl Model for Backward {
    ghost use Rattle.std.specs.Prelude.{ℕ, List, ◌≤◌, drop, vec_len};

    ghost Value = { List ℕ };

    ghost view = { λ b. drop b.start b.bytes.items };

    ghost invariant = { λ b. b.start ≤ vec_len b.bytes };
}

impl Backward {
    /// An empty buffer.
    pub fn new(alloc: Global) -> Backward
        ensures { result ≡ [] }
    {
        Backward {
            bytes: Vec::new(alloc),
            start: 0,
        }
    }

    /// A buffer in which these bytes are written.
    pub fn from_vec(bytes: Vec<u8>) -> Backward
        ensures { result ≡ bytes.items }
    {
        Backward { bytes, start: 0 }
    }

    /// All that is written.
    #[inline]
    pub fn as_slice(&self) -> &[u8]
        ensures { result.now ≡ self.now }
    {
        &self.bytes[self.start..]
    }

    /// Takes away all that is written. The memory stays, for what is written next.
    pub fn clear(&mut self)
        ensures { self.new ≡ [] }
    {
        self.start = self.bytes.len();
    }

    /// How many bytes are written.
    #[inline]
    pub fn len(&self) -> usize
        ensures { result ≡ length self.now }
    {
        self.bytes.len() - self.start
    }

    /// Whether nothing is written.
    pub fn is_empty(&self) -> bool
        ensures { IsTrue result ↔ (self.now ≡ []) }
    {
        self.len() == 0
    }

    /// Writes a byte before all others.
    #[inline]
    pub fn push(&mut self, byte: u8) -> Result<(), AllocError>
        ensures ok { OnOk result (self.new ≡ byte ∷ self.old) }
        ensures err { OnErr result (self.new ≡ self.old) }
    {
        let end = reserve_front(&mut self.bytes, self.start, 1)?;
        let start = end - 1;
        self.bytes[start] = byte;
        self.start = start;
        Ok(())
    }

    /// Writes the bytes before all others.
    #[inline]
    pub fn push_slice(&mut self, part: &[u8]) -> Result<(), AllocError>
        ensures ok { OnOk result (self.new ≡ part.now ++ self.old) }
        ensures err { OnErr result (self.new ≡ self.old) }
    {
        let end = reserve_front(&mut self.bytes, self.start, part.len())?;
        let start = end - part.len();
        self.bytes[start..end].copy_from_slice(part);
        self.start = start;
        Ok(())
    }

    /// Writes the shortest varint of the value before all others.
    #[inline(always)]
    #[tactic(auto, using(otlp_wire::proofs::Shortest::varint_small, crate::proofs::Keeping::keeps_itself))]
    pub(crate) fn push_varint(&mut self, value: u64) -> Result<(), AllocError>
        ensures ok { OnOk result (self.new ≡ varint value ++ self.old) }
        ensures err { OnErr result (KeepsEnd self.old self.new) }
    {
        if value < 128 {
            return self.push(value as u8);
        }
        self.push_long_varint(value)
    }

    /// The same without the short way of a varint of one byte.
    #[inline(never)]
    #[tactic(auto, using(otlp_wire::proofs::Shortest::varint_small, otlp_wire::proofs::Shortest::varint_large, crate::proofs::Keeping::keeps_itself))]
    fn push_long_varint(&mut self, value: u64) -> Result<(), AllocError>
        ensures ok { OnOk result (self.new ≡ varint value ++ self.old) }
        ensures err { OnErr result (KeepsEnd self.old self.new) }
    {
        if value < 128 {
            return self.push(value as u8);
        }
        if value < 128 * 128 {
            return self.push_slice(&[(value % 128) as u8 + 128, (value / 128) as u8]);
        }
        self.push_long_varint(value / 128)?;
        self.push((value % 128) as u8 + 128)
    }

    /// Reserves room for `more` bytes before those that are written, so that writing them allocates nothing. They stay.
    pub fn reserve(&mut self, more: usize) -> Result<(), AllocError>
        ensures { self.new ≡ self.old }
    {
        self.start = reserve_front(&mut self.bytes, self.start, more)?;
        Ok(())
    }

    /// All that is written, as a vector.
    pub fn finish(self) -> Vec<u8>
        ensures { result.items ≡ self }
    {
        let Backward { mut bytes, start } = self;
        if start > 0 {
            let len = bytes.len() - start;
            move_to_front(bytes.as_mut_slice(), start);
            bytes.truncate(len);
        }
        bytes
    }
}

/// Where the bytes from `start` on begin, once there is room for `room` bytes before them.
#[inline(always)]
fn reserve_front(bytes: &mut Vec<u8>, start: usize, room: usize) -> Result<usize, AllocError>
    requires { start ≤ vec_len bytes.old }
    ensures room { IfOk result (λ s. (room ≤ s) × (s ≤ vec_len bytes.new)) }
    ensures kept { IfOk result (λ s. drop s bytes.new.items ≡ drop start bytes.old.items) }
    ensures err { OnErr result (bytes.new.items ≡ bytes.old.items) }
{
    if room <= start {
        return Ok(start);
    }
    grow_front(bytes, start, room)
}

/// Moves the bytes from `start` on to the end of a longer vector.
#[inline(never)]
fn grow_front(bytes: &mut Vec<u8>, start: usize, room: usize) -> Result<usize, AllocError>
    requires { start ≤ vec_len bytes.old }
    ensures room { IfOk result (λ s. (room ≤ s) × (s ≤ vec_len bytes.new)) }
    ensures kept { IfOk result (λ s. drop s bytes.new.items ≡ drop start bytes.old.items) }
    ensures err { OnErr result (bytes.new.items ≡ bytes.old.items) }
{
    let old = bytes.len();
    let more = room.max(old).max(LEAST);
    bytes.resize(old.saturating_add(more), 0)?;
    let moved = start + (bytes.len() - old);
    copy_back(bytes.as_mut_slice(), start, old);
    Ok(moved)
}

/// Copies the bytes from offset `start` to offset `end` into the last bytes of the slice, which all come after `end`.
fn copy_back(bytes: &mut [u8], start: usize, end: usize)
    requires order { start ≤ end }
    requires apart { end + (end - start) ≤ length bytes.old }
    ensures copied { drop (length bytes.old - (end - start)) bytes.new ≡ take (end - start) (drop start bytes.old) }
    ensures len { length bytes.new ≡ length bytes.old }
{
    let (front, back) = bytes.split_at_mut(end);
    let (_between, last) = back.split_at_mut(back.len() - (end - start));
    last.copy_from_slice(&front[start..]);
}

/// Moves the bytes from `start` on to the front.
fn move_to_front(bytes: &mut [u8], start: usize)
    requires { start ≤ length bytes.old }
    ensures moved { take (length bytes.old - start) bytes.new ≡ drop start bytes.old }
    ensures len { length bytes.new ≡ length bytes.old }
{
    let len = bytes.len() - start;
    let mut place = 0;
    'pieces: while place < len {
        let size = PIECE.min(len - place);
        move_piece(bytes, start + place, place, size);
        place += size;
    }
}

/// Moves some bytes to an offset that is no later. They go by a buffer, since a copy between parts that may
/// share bytes takes them one by one.
fn move_piece(bytes: &mut [u8], from: usize, to: usize, size: usize)
    requires size { size ≤ 1024 }
    requires from { from + size ≤ length bytes.old }
    requires to { to ≤ from }
    ensures moved { take (to + size) bytes.new ≡ take to bytes.old ++ take size (drop from bytes.old) }
    ensures rest { drop (to + size) bytes.new ≡ drop (to + size) bytes.old }
    ensures len { length bytes.new ≡ length bytes.old }
{
    let mut piece = [0; PIECE];
    piece[..size].copy_from_slice(&bytes[from..from + size]);
    bytes[to..to + size].copy_from_slice(&piece[..size]);
}
