//! Sources and sinks in memory whose calls fail by their numbers.
ghost use Rattle.std.specs.Prelude.{◌≡◌, ◌<◌, ◌≤◌, All, [], length, take, drop, slice_get, Some, if◌then◌else◌, true};
ghost use Rattle.std.proofs.Common.{sym, take-append-drop};
ghost use Rattle.std.specs.Io.{ReadsAtMost, WritesAtMost};
ghost use Rattle.std.specs.Io.KnownBytes.{Keeps, ReadConsumes, WriteAppends};
ghost use Rattle.otap_capture.specs.Outside.{Counts, SinkCounts, WriteCounts, FlushPasses, Rose};
ghost use Rattle.otap_capture.specs.Memory.{ReadsByNumber, WritesByNumber, FlushesByNumber, called, failed, fails, size_in};

use crate::outside::{ReadFailed, Sink, SinkRefusal, Source};
use crate::steady::copy_front;
use std::alloc::Global;
use std::marker::Model;

/// Gives its bytes in pieces. Call number c, counted from 0, fails where c is in `failing`, and
/// gives at most `pieces[c]` bytes, or as many as the room takes where there is no such piece.
#[derive(Drop)]
pub struct MemorySource {
    bytes: Vec<u8>,
    given: usize,
    pieces: Vec<u32>,
    failing: Vec<u64>,
    calls: u64,
    faults: u64,
}

impl Model for MemorySource {
    ghost use Rattle.std.specs.Prelude.{drop, ◌≤◌, ◌<◌, length, All};
    ghost use Rattle.otap_capture.specs.Memory.{Supply};

    ghost Value = { Supply };

    ghost view = { λ s. record {
      left = drop s.given s.bytes.items;
      pieces = s.pieces.items;
      calls = record { failing = s.failing.items; made = s.calls; faults = s.faults };
    } };

    ghost invariant = { λ s. (s.given ≤ length s.bytes.items) × All (λ piece. 0 < piece) s.pieces.items };
}

impl MemorySource {
    /// A source of these bytes, with the sizes of its pieces and the numbers of the calls that fail.
    pub fn new(bytes: Vec<u8>, pieces: Vec<u32>, failing: Vec<u64>) -> MemorySource
        requires { All (λ piece. 0 < piece) pieces.items }
        ensures { result ≡ record {
          left = bytes.items;
          pieces = pieces.items;
          calls = record { failing = failing.items; made = 0; faults = 0 };
        } }
    {
        MemorySource {
            bytes,
            given: 0,
            pieces,
            failing,
            calls: 0,
            faults: 0,
        }
    }
}

impl Source for MemorySource {
    ghost left = { λ s. Some s.left };

    ghost faults = { λ s. s.calls.faults };

    fn read(&mut self, room: &mut [u8]) -> Result<usize, ReadFailed>
        ensures bound { ReadsAtMost result room.new }
        ensures bytes { ReadConsumes (Some self.old.left) (Some self.new.left) result room.new }
        ensures count { Counts self.old.calls.faults self.new.calls.faults result }
        ensures by_number { ReadsByNumber self.old self.new result (length room.new) }
    {
        let number = self.calls;
        self.calls = number.saturating_add(1);
        if self.failing.contains(&number) {
            self.faults = self.faults.saturating_add(1);
            return Err(ReadFailed);
        }
        let size = piece_in(&self.pieces, number, room.len());
        let count = copy_front(&self.bytes[self.given..], size, room);
        self.given += count;
        Ok(count)
    }
}

/// Keeps what is written to it. Call number c, counted from 0 over writes and flushes together, fails
/// where c is in `failing`.
#[derive(Drop)]
pub struct MemorySink {
    bytes: Vec<u8>,
    passed: usize,
    failing: Vec<u64>,
    calls: u64,
    faults: u64,
}

impl Model for MemorySink {
    ghost use Rattle.std.specs.Prelude.{◌≤◌, length};
    ghost use Rattle.otap_capture.specs.Memory.{Store};

    ghost Value = { Store };

    ghost view = { λ s. record {
      bytes = s.bytes.items;
      passed = s.passed;
      calls = record { failing = s.failing.items; made = s.calls; faults = s.faults };
    } };

    ghost invariant = { λ s. s.passed ≤ length s.bytes.items };
}

impl MemorySink {
    /// An empty sink, with the numbers of the calls that fail.
    pub fn new(alloc: Global, failing: Vec<u64>) -> MemorySink
        ensures { result ≡ record {
          bytes = [];
          passed = 0;
          calls = record { failing = failing.items; made = 0; faults = 0 };
        } }
    {
        MemorySink {
            bytes: Vec::new(alloc),
            passed: 0,
            failing,
            calls: 0,
            faults: 0,
        }
    }

    /// What was written.
    pub fn bytes(&self) -> &[u8]
        ensures { result.now ≡ self.now.bytes }
    {
        &self.bytes
    }

    /// Counts a call, and a fault where it is one of those that fail. Returns whether it is.
    fn call_fails(&mut self) -> bool
        ensures fails { result ≡ fails self.old.calls }
        ensures after { self.new ≡ record self.old { calls = if result then failed self.old.calls else called self.old.calls } }
        ensures rose { result ≡ true → Rose self.old.calls.faults self.new.calls.faults }
    {
        let number = self.calls;
        self.calls = number.saturating_add(1);
        if self.failing.contains(&number) {
            self.faults = self.faults.saturating_add(1);
            return true;
        }
        false
    }
}

impl Sink for MemorySink {
    ghost written = { λ sink. Some sink.bytes };

    ghost passed = { λ sink. Some (take sink.passed sink.bytes) };

    ghost faults = { λ sink. sink.calls.faults };

    ghost front = { λ sink. (drop sink.passed sink.bytes, sym (take-append-drop sink.passed sink.bytes)) };

    fn write(&mut self, part: &[u8]) -> Result<usize, SinkRefusal>
        ensures bound { WritesAtMost result part.now }
        ensures bytes { WriteAppends (Some self.old.bytes) (Some self.new.bytes) result part.now }
        ensures kept { Keeps (Some (take self.old.passed self.old.bytes)) (Some (take self.new.passed self.new.bytes)) }
        ensures count { WriteCounts self.old.calls.faults self.new.calls.faults result part.now }
        ensures by_number { WritesByNumber self.old self.new result part.now }
    {
        if self.call_fails() {
            return Err(SinkRefusal::Failed);
        }
        self.bytes.extend_from_slice(part)?;
        Ok(part.len())
    }

    fn flush(&mut self) -> Result<(), SinkRefusal>
        ensures bytes { Keeps (Some self.old.bytes) (Some self.new.bytes) }
        ensures flushed { FlushPasses (Some (take self.old.passed self.old.bytes)) (Some (take self.new.passed self.new.bytes)) (Some self.new.bytes) result }
        ensures count { SinkCounts self.old.calls.faults self.new.calls.faults result }
        ensures by_number { FlushesByNumber self.old self.new result }
    {
        if self.call_fails() {
            return Err(SinkRefusal::Failed);
        }
        self.passed = self.bytes.len();
        Ok(())
    }
}

/// How much of a room the call with this number fills at most.
fn piece_in(pieces: &[u32], number: u64, room: usize) -> usize
    ensures size { result ≡ size_in (slice_get pieces.now number) room }
    ensures bound { result ≤ room }
    ensures some { All (λ piece. 0 < piece) pieces.now → 0 < room → 0 < result }
{
    match pieces.get(number as usize) {
        Some(piece) => (*piece as usize).min(room),
        None => room,
    }
}
