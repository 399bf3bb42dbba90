//! Bytes that are read from a source, in memory that is kept from read to read.
ghost use Rattle.std.specs.Prelude.{◌≡◌, ◌+◌, ◌*◌, ◌≤◌, OnOk, length, take, drop, max};
ghost use Rattle.otap_capture.specs.Buffering.{IsInOrder, kept_in, KeepsPlaces, ReadsBehind};
ghost use Rattle.otap_capture.specs.Cutting.{GivesPiece};
ghost use Rattle.otap_capture.specs.Limits.{read_ahead};
ghost use Rattle.otap_capture.specs.Outside.{Counts};
ghost use Rattle.otap_capture.specs.Reading.{StepCounts};

use crate::frame::FramesRefusal;
use crate::outside::{ReadFailed, Source};
use std::alloc::AllocError;

/// How many bytes a read asks for.
pub(crate) const ROOM: usize = 1 << 16;

/// Bytes that were read, and behind them room for the next read.
#[derive(Drop)]
pub(crate) struct Buffer {
    /// It never gets shorter, so each byte of it is zeroed once.
    pub(crate) bytes: Vec<u8>,
    /// Where the bytes begin that are kept.
    pub(crate) place: usize,
    /// Where they end, and the room begins.
    pub(crate) filled: usize,
}

impl Buffer {
    /// The bytes that are kept.
    pub(crate) fn kept(&self) -> &[u8]
        requires { IsInOrder self.now }
        ensures { result.now ≡ kept_in self.now }
    {
        &self.bytes[..self.filled][self.place..]
    }

    /// Lets go of the bytes before those that are kept, where they are at least as many as these, which are moved to the front.
    /// So all bytes that are moved are at most those that were read.
    pub(crate) fn let_go(&mut self)
        requires { IsInOrder self.old }
        ensures order { IsInOrder self.new }
        ensures kept { kept_in self.new ≡ kept_in self.old }
        ensures few { self.new.filled ≤ 2 * length (kept_in self.old) }
        ensures long { length self.new.bytes.items ≡ length self.old.bytes.items }
    {
        let kept = self.filled - self.place;
        if kept <= self.place {
            move_front(&mut self.bytes, self.place, kept);
            self.place = 0;
            self.filled = kept;
        }
    }

    /// Reads the next bytes of the source behind those that are kept. Returns whether the source is at its end.
    /// Room is made before the read, so that a refusal loses nothing.
    pub(crate) fn read_piece<S: Source>(&mut self, source: &mut S) -> Result<bool, FramesRefusal>
        requires { IsInOrder self.old }
        ensures order { IsInOrder self.new }
        ensures place { self.new.place ≡ self.old.place }
        ensures piece { GivesPiece (kept_in self.old) (kept_in self.new) (S.left source.old) (S.left source.new) result }
        ensures count { StepCounts (S.faults source.old) (S.faults source.new) result }
        ensures long { length self.new.bytes.items ≤ max (length self.old.bytes.items) (self.old.filled + read_ahead) }
    {
        self.make_room()?;
        let Ok(count) = read_behind(&mut self.bytes, self.filled, source) else {
            return Err(FramesRefusal::Source);
        };
        self.filled += count;
        Ok(count == 0)
    }

    /// Makes room for one read.
    fn make_room(&mut self) -> Result<(), AllocError>
        requires { IsInOrder self.old }
        ensures places { KeepsPlaces self.old self.new }
        ensures room { OnOk result (self.old.filled + read_ahead ≤ length self.new.bytes.items) }
        ensures long { length self.new.bytes.items ≤ max (length self.old.bytes.items) (self.old.filled + read_ahead) }
    {
        let end = self.filled + ROOM;
        if self.bytes.len() < end {
            self.bytes.resize(end, 0)?;
        }
        Ok(())
    }
}

/// Copies `count` bytes, from offset `from`, to the front.
fn move_front(bytes: &mut [u8], from: usize, count: usize)
    requires there { from + count ≤ length bytes.old }
    requires apart { count ≤ from }
    ensures { take count bytes.new ≡ take count (drop from bytes.old) }
{
    let (front, back) = bytes.split_at_mut(from);
    front[..count].copy_from_slice(&back[..count]);
}

/// Has the source fill the room behind the first `filled` bytes.
fn read_behind<S: Source>(
    bytes: &mut [u8],
    filled: usize,
    source: &mut S,
) -> Result<usize, ReadFailed>
    requires { filled + read_ahead ≤ length bytes.old }
    ensures front { take filled bytes.new ≡ take filled bytes.old }
    ensures reads { ReadsBehind (drop filled bytes.new) (S.left source.old) (S.left source.new) result }
    ensures count { Counts (S.faults source.old) (S.faults source.new) result }
{
    let (_, back) = bytes.split_at_mut(filled);
    let (room, _) = back.split_at_mut(ROOM);
    source.read(room)
}
