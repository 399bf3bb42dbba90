//! The run of `unfile`: the source is read to its end, and the batches of the file are written one by one.
ghost use Rattle.std.specs.Prelude.{◌≤◌, ◌<◌, length, IfOk};
ghost use Rattle.otap_gateway.specs.Runs.{sinks, world, CountsFaults, SinkFaults};
ghost use Rattle.otap_gateway.specs.Unfiling.{LeavesUnfile, TakesFile};
ghost use Rattle.otap_gateway.specs.UnfilingSteps.{CountsSink, CountsSource, FitsFrames, ReadsIn, Replies, WritesIn, file_text, later_text};

use crate::jobs::unfile::{first_message, later_message, refusal_line};
use crate::runs::drive::flush_both;
use crate::runs::stop::{Stop, Tally};
use arrow_file::{FileView, MAX_FILE};
use otap_capture::{Sink, Source, write_frame, write_whole};
use otap_cells::Kind;
use std::alloc::Global;

/// How many bytes a read asks for at most.
const ROOM: usize = 1 << 16;

/// Runs `unfile`.
pub(crate) fn unfile<S: Source, O: Sink, E: Sink>(
    alloc: Global,
    kind: Kind,
    source: &mut S,
    out: &mut O,
    err: &mut E,
) -> Result<Tally, Stop>
    ensures leaves { LeavesUnfile kind
        (world S.Source source.old (sinks O.Sink out.old E.Sink err.old))
        (world S.Source source.new (sinks O.Sink out.new E.Sink err.new)) result }
    ensures faults { CountsFaults
        (world S.Source source.old (sinks O.Sink out.old E.Sink err.old))
        (world S.Source source.new (sinks O.Sink out.new E.Sink err.new)) result }
{
    let bytes = read_file(alloc, source)?;
    let refused = write_reply(alloc, kind, &bytes, out, err)?;
    flush_both(out, err)?;
    Ok(Tally {
        refused,
        damaged: false,
    })
}

/// Reads the source to its end, or until it gave one byte more than a file may have.
fn read_file<S: Source>(alloc: Global, source: &mut S) -> Result<Vec<u8>, Stop>
    ensures takes { IfOk result (λ bytes. TakesFile (S.left source.old) (S.left source.new) bytes.items) }
    ensures faults { CountsSource (S.faults source.old) (S.faults source.new) result }
{
    let mut bytes = Vec::new(alloc);
    'pieces: while bytes.len() <= MAX_FILE {
        let left = MAX_FILE + 1 - bytes.len();
        if read_piece(&mut bytes, left.min(ROOM), source)? == 0 {
            return Ok(bytes);
        }
    }
    Ok(bytes)
}

/// Appends what one read of the source gives, and returns how many bytes that is.
fn read_piece<S: Source>(bytes: &mut Vec<u8>, most: usize, source: &mut S) -> Result<usize, Stop>
    requires some { 0 < most }
    requires few { most ≤ 65536 }
    ensures reads { ReadsIn bytes.old.items bytes.new.items (S.left source.old) (S.left source.new) most result }
    ensures faults { CountsSource (S.faults source.old) (S.faults source.new) result }
{
    let mut room = [0; ROOM];
    read_into(bytes, &mut room[..most], source)
}

/// The same, by way of some room.
fn read_into<S: Source>(bytes: &mut Vec<u8>, room: &mut [u8], source: &mut S) -> Result<usize, Stop>
    requires { 0 < length room.old }
    ensures reads { ReadsIn bytes.old.items bytes.new.items (S.left source.old) (S.left source.new) (length room.old) result }
    ensures faults { CountsSource (S.faults source.old) (S.faults source.new) result }
{
    let Ok(()) = bytes.reserve(room.len()) else {
        return Err(Stop::Memory);
    };
    let Ok(count) = source.read(room) else {
        return Err(Stop::Source);
    };
    let Ok(()) = bytes.extend_from_slice(&room[..count]) else {
        return Err(Stop::Memory);
    };
    Ok(count)
}

/// Writes the batches of a file, or why the bytes are none. Returns whether they are refused.
fn write_reply<O: Sink, E: Sink>(
    alloc: Global,
    kind: Kind,
    bytes: &[u8],
    out: &mut O,
    err: &mut E,
) -> Result<bool, Stop>
    ensures replies { Replies kind bytes.now (sinks O.Sink out.old E.Sink err.old) (sinks O.Sink out.new E.Sink err.new) result }
    ensures faults { SinkFaults (sinks O.Sink out.old E.Sink err.old) (sinks O.Sink out.new E.Sink err.new) result }
{
    match FileView::open(alloc, bytes) {
        Ok(file) => {
            write_batches(alloc, kind, &file, out)?;
            Ok(false)
        }
        Err(refusal) => {
            let Ok(line) = refusal_line(alloc, refusal) else {
                return Err(Stop::Memory);
            };
            write_whole(err, &line)?;
            Ok(true)
        }
    }
}

/// Writes a batch for each record batch of the file.
fn write_batches<O: Sink>(
    alloc: Global,
    kind: Kind,
    file: &FileView<'_>,
    out: &mut O,
) -> Result<(), Stop>
    requires { FitsFrames file.now }
    ensures writes { WritesIn (O.written out.old) (O.written out.new) (file_text kind file.now) result }
    ensures faults { CountsSink (O.faults out.old) (O.faults out.new) result }
{
    let Some(rows) = file.batch(0) else {
        return Ok(());
    };
    let Ok(message) = first_message(alloc, kind, file, rows) else {
        return Err(Stop::Memory);
    };
    write_frame(out, &message)?;
    write_later(alloc, kind, file, out)
}

/// Writes a batch for each record batch but the first.
fn write_later<O: Sink>(
    alloc: Global,
    kind: Kind,
    file: &FileView<'_>,
    out: &mut O,
) -> Result<(), Stop>
    requires { FitsFrames file.now }
    ensures writes { WritesIn (O.written out.old) (O.written out.new) (later_text kind 1 file.now) result }
    ensures faults { CountsSink (O.faults out.old) (O.faults out.new) result }
{
    'batches: for place in 1..file.batches() {
        let Some(rows) = file.batch(place) else {
            unreachable!()
        };
        let Ok(message) = later_message(alloc, kind, place, rows) else {
            return Err(Stop::Memory);
        };
        write_frame(out, &message)?;
    }
    Ok(())
}
