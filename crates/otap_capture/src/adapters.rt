//! Standard readers and writers as sources and sinks: the edge of what is proved. As a source or a sink their content
//! is unknown; where the bytes of the reader or the writer inside are known, each call's clause `through` says that they
//! are handed on.
ghost use Rattle.std.specs.Prelude.{◌≡◌, None};
ghost use Rattle.std.specs.Io.{ReadsAtMost, WritesAtMost};
ghost use Rattle.std.specs.Io.KnownBytes.{Keeps, ReadConsumes, WriteAppends};
ghost use Rattle.otap_capture.specs.Outside.{Counts, SinkCounts, WriteCounts, FlushPasses};

use crate::outside::{ReadFailed, Sink, SinkRefusal, Source};
use std::io::{Read, Write};
use std::marker::Model;

/// Reads from a reader. Each error that it returns is a fault.
#[derive(Drop)]
pub struct ReadSource<R: Read + Drop> {
    inner: R,
    faults: u64,
}

impl<R: Read + Drop> Model for ReadSource<R> {
    ghost use Rattle.otap_capture.specs.Adapters.{Adapter};

    ghost Value = { Adapter R };

    ghost view = { λ s. record { inner = s.inner; faults = s.faults } };
}

impl<R: Read + Drop> ReadSource<R> {
    /// Over this reader, without a fault so far.
    pub fn new(inner: R) -> ReadSource<R>
        ensures { result ≡ record { inner = inner; faults = 0 } }
    {
        ReadSource { inner, faults: 0 }
    }
}

impl<R: Read + Drop> Source for ReadSource<R> {
    ghost left = { λ s. None };

    ghost faults = { λ s. s.faults };

    fn read(&mut self, room: &mut [u8]) -> Result<usize, ReadFailed>
        ensures bound { ReadsAtMost result room.new }
        ensures bytes { ReadConsumes None None result room.new }
        ensures count { Counts self.old.faults self.new.faults result }
        // What comes is what the reader gives, where that is known.
        ensures through { ReadConsumes (R.remaining self.old.inner) (R.remaining self.new.inner) result room.new }
    {
        match self.inner.read(room) {
            Ok(count) => Ok(count),
            Err(_) => {
                self.faults = self.faults.saturating_add(1);
                Err(ReadFailed)
            }
        }
    }
}

/// Writes to a writer. Each error that it returns is a fault, and so is a write that takes nothing of
/// a part that isn't empty.
#[derive(Drop)]
pub struct WriteSink<W: Write + Drop> {
    inner: W,
    faults: u64,
}

impl<W: Write + Drop> Model for WriteSink<W> {
    ghost use Rattle.otap_capture.specs.Adapters.{Adapter};

    ghost Value = { Adapter W };

    ghost view = { λ s. record { inner = s.inner; faults = s.faults } };
}

impl<W: Write + Drop> WriteSink<W> {
    /// Over this writer, without a fault so far.
    pub fn new(inner: W) -> WriteSink<W>
        ensures { result ≡ record { inner = inner; faults = 0 } }
    {
        WriteSink { inner, faults: 0 }
    }
}

impl<W: Write + Drop> Sink for WriteSink<W> {
    ghost written = { λ s. None };

    ghost passed = { λ s. None };

    ghost faults = { λ s. s.faults };

    ghost front = { λ s. tt };

    fn write(&mut self, part: &[u8]) -> Result<usize, SinkRefusal>
        ensures bound { WritesAtMost result part.now }
        ensures bytes { WriteAppends None None result part.now }
        ensures kept { Keeps None None }
        ensures count { WriteCounts self.old.faults self.new.faults result part.now }
        // What goes is what the writer takes, where that is known.
        ensures through { WriteAppends (W.contents self.old.inner) (W.contents self.new.inner) result part.now }
    {
        match self.inner.write(part) {
            Ok(0) if !part.is_empty() => {
                self.faults = self.faults.saturating_add(1);
                Ok(0)
            }
            Ok(count) => Ok(count),
            Err(_) => {
                self.faults = self.faults.saturating_add(1);
                Err(SinkRefusal::Failed)
            }
        }
    }

    fn flush(&mut self) -> Result<(), SinkRefusal>
        ensures bytes { Keeps None None }
        ensures flushed { FlushPasses None None None result }
        ensures count { SinkCounts self.old.faults self.new.faults result }
        ensures through { Keeps (W.contents self.old.inner) (W.contents self.new.inner) }
    {
        match self.inner.flush() {
            Ok(()) => Ok(()),
            Err(_) => {
                self.faults = self.faults.saturating_add(1);
                Err(SinkRefusal::Failed)
            }
        }
    }
}
