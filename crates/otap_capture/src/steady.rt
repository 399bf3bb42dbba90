//! Sources and sinks in memory that never fail.
ghost use Rattle.std.specs.Prelude.{◌≡◌, [], take, drop, length, min, ◌≤◌, Some};
ghost use Rattle.std.proofs.Common.{sym, take-append-drop};

use crate::outside::{ReadFailed, Sink, SinkRefusal, Source};
use std::alloc::Global;
use std::marker::Model;

/// Gives the bytes that it was made with, as many at a time as the room takes.
#[derive(Drop)]
pub struct SteadySource {
    bytes: Vec<u8>,
    given: usize,
}

impl Model for SteadySource {
    ghost use Rattle.std.specs.Prelude.{List, ℕ, drop, ◌≤◌, length};

    ghost Value = { List ℕ };

    ghost view = { λ s. drop s.given s.bytes.items };

    ghost invariant = { λ s. s.given ≤ length s.bytes.items };
}

impl SteadySource {
    /// A source of these bytes.
    pub fn new(bytes: Vec<u8>) -> SteadySource
        ensures { result ≡ bytes.items }
    {
        SteadySource { bytes, given: 0 }
    }
}

/// Copies the bytes, but at most `most` of them, into the front of the room. Returns how many.
pub(crate) fn copy_front(bytes: &[u8], most: usize, room: &mut [u8]) -> usize
    requires { most ≤ length room.old }
    ensures bound { result ≡ min (length bytes.now) most }
    ensures copied { take result room.new ≡ take result bytes.now }
{
    let count = bytes.len().min(most);
    room[..count].copy_from_slice(&bytes[..count]);
    count
}

impl Source for SteadySource {
    ghost left = { λ bytes. Some bytes };

    ghost faults = { λ bytes. 0 };

    fn read(&mut self, room: &mut [u8]) -> Result<usize, ReadFailed> {
        let count = copy_front(&self.bytes[self.given..], room.len(), room);
        self.given += count;
        Ok(count)
    }
}

/// Keeps what is written to it.
#[derive(Drop)]
pub struct SteadySink {
    bytes: Vec<u8>,
    passed: usize,
}

impl Model for SteadySink {
    ghost use Rattle.std.specs.Prelude.{◌≤◌, length};
    ghost use Rattle.otap_capture.specs.Memory.{SinkIn};

    ghost Value = { SinkIn };

    ghost view = { λ s. record { bytes = s.bytes.items; passed = s.passed } };

    ghost invariant = { λ s. s.passed ≤ length s.bytes.items };
}

impl SteadySink {
    /// A sink to which nothing is written.
    pub fn new(alloc: Global) -> SteadySink
        ensures { result ≡ record { bytes = []; passed = 0 } }
    {
        SteadySink {
            bytes: Vec::new(alloc),
            passed: 0,
        }
    }

    /// What was written.
    pub fn bytes(&self) -> &[u8]
        ensures { result.now ≡ self.now.bytes }
    {
        &self.bytes
    }
}

impl Sink for SteadySink {
    ghost written = { λ sink. Some sink.bytes };

    ghost passed = { λ sink. Some (take sink.passed sink.bytes) };

    ghost faults = { λ sink. 0 };

    ghost front = { λ sink. (drop sink.passed sink.bytes, sym (take-append-drop sink.passed sink.bytes)) };

    fn write(&mut self, part: &[u8]) -> Result<usize, SinkRefusal> {
        self.bytes.extend_from_slice(part)?;
        Ok(part.len())
    }

    fn flush(&mut self) -> Result<(), SinkRefusal> {
        self.passed = self.bytes.len();
        Ok(())
    }
}
