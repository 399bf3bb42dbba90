//! Where bytes come from and where they go.
ghost use Rattle.std.specs.Prelude.{◌≡◌, ℕ, List, [], OnOk, Ok};
ghost use Rattle.std.specs.declared.option.Option.{Option};
ghost use Rattle.std.specs.Io.{ReadsAtMost, WritesAtMost};
ghost use Rattle.std.specs.Io.KnownBytes.{Appends, Keeps, ReadConsumes, WriteAppends};
ghost use Rattle.otap_capture.specs.declared.outside.SinkRefusal.TheVariants.{Memory};
ghost use Rattle.otap_capture.specs.Outside.{Counts, SinkCounts, WriteCounts, FlushPasses, IsFront, AppendsFront};

use std::alloc::AllocError;
use thiserror::Error;

/// A read failed. The source's count of faults rose in that call, and nothing was taken.
#[derive(Clone, Copy, Debug, PartialEq, Eq, Error)]
#[error("the source failed")]
pub struct ReadFailed;

/// Why a write or a flush was refused. What was written stays as it was.
#[derive(Debug, Drop, Error)]
pub enum SinkRefusal {
    /// The sink failed: its count of faults rose in that call.
    #[error("the sink failed")]
    Failed,
    /// Memory ran out.
    #[error(transparent)]
    Memory(AllocError),
}

impl From<AllocError> for SinkRefusal {
    ghost from_gives = { λ error refusal. refusal ≡ Memory error };

    fn from(error: AllocError) -> Self {
        SinkRefusal::Memory(error)
    }
}

/// Bytes that come in pieces.
pub trait Source {
    /// The bytes that it has still to give, where they are known.
    ghost left: { Self → Option (List ℕ) };

    /// How often it failed.
    ghost faults: { Self → ℕ };

    /// Puts the next bytes into the front of the room, and returns how many. None for a room that
    /// isn't empty means the end.
    fn read(&mut self, room: &mut [u8]) -> Result<usize, ReadFailed>
        ensures bound { ReadsAtMost result room.new }
        ensures bytes { ReadConsumes (left self.old) (left self.new) result room.new }
        ensures count { Counts (faults self.old) (faults self.new) result };
}

/// A destination for bytes.
pub trait Sink {
    /// The bytes written so far, where they are known.
    ghost written: { Self → Option (List ℕ) };

    /// Those of them that were passed on, to wherever the sink leads.
    ghost passed: { Self → Option (List ℕ) };

    /// How often it failed.
    ghost faults: { Self → ℕ };

    /// Appends a front of the part, and returns its length. To take none of a part that isn't empty
    /// is a fault.
    fn write(&mut self, part: &[u8]) -> Result<usize, SinkRefusal>
        ensures bound { WritesAtMost result part.now }
        ensures bytes { WriteAppends (written self.old) (written self.new) result part.now }
        ensures kept { Keeps (passed self.old) (passed self.new) }
        ensures count { WriteCounts (faults self.old) (faults self.new) result part.now };

    /// Passes on all that was written.
    fn flush(&mut self) -> Result<(), SinkRefusal>
        ensures bytes { Keeps (written self.old) (written self.new) }
        ensures flushed { FlushPasses (passed self.old) (passed self.new) (written self.new) result }
        ensures count { SinkCounts (faults self.old) (faults self.new) result };

    /// What was passed on is a front of what was written, so it never shrinks.
    ghost front: { (sink : Self) → IsFront (passed sink) (written sink) };
}

/// Writes all of the part. After a refusal the sink holds a front of it more than before.
pub fn write_whole<K: Sink>(sink: &mut K, part: &[u8]) -> Result<(), SinkRefusal>
    ensures whole { OnOk result (Appends (K.written sink.old) (K.written sink.new) part.now) }
    ensures front { AppendsFront (K.written sink.old) (K.written sink.new) part.now }
    ensures kept { Keeps (K.passed sink.old) (K.passed sink.new) }
    ensures count { SinkCounts (K.faults sink.old) (K.faults sink.new) result }
    // A part without bytes isn't written.
    ensures nothing { part.now ≡ [] → (result ≡ Ok tt) × (sink.new ≡ sink.old) }
{
    let mut rest = part;
    'parts: while !rest.is_empty() {
        let count = sink.write(rest)?;
        if count == 0 {
            return Err(SinkRefusal::Failed);
        }
        rest = &rest[count..];
    }
    Ok(())
}
