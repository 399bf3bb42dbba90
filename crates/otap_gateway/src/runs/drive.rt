//! The run of a job over a capture: frames are read, and replies are written and passed on.
ghost use Rattle.std.specs.Prelude.{◌≡◌, ◌≤◌, [], None, OnOk};
ghost use Rattle.std.specs.Io.KnownBytes.{Keeps};
ghost use Rattle.otap_gateway.specs.Endings.{RuleOf, BegunBy};
ghost use Rattle.otap_gateway.specs.Jobs.{HasHistory};
ghost use Rattle.otap_gateway.specs.Runs.{sinks, world, Leaves, Stops, StopsBy, CountsFaults, SinkFaults, IsFlushed};
ghost use Rattle.otap_gateway.specs.Turns.{Drives, Ends, OnEnd, SettlesTurn, Turns, TurnAsks, world_ahead};

use crate::jobs::job::Job;
use crate::runs::handler::{Handled, Handler};
use crate::runs::stop::{Stop, Tally};
use crate::texts::lines::damage_line;
use otap_capture::{Damage, Frames, Sink, Source, Step, write_whole};
use std::alloc::Global;

/// What a turn came to.
pub(crate) enum Turn {
    Frame(Handled),
    /// The end of the capture.
    End(Option<Damage>),
}

/// All frames of a capture were handled.
#[derive(Clone, Copy)]
pub(crate) struct Ended {
    /// Whether a frame was refused.
    pub(crate) refused: bool,
    /// The damage of the capture, if it has one.
    pub(crate) end: Option<Damage>,
}

/// Passes on all that was written.
pub(crate) fn flush_both<O: Sink, E: Sink>(out: &mut O, err: &mut E) -> Result<(), Stop>
    ensures out { Keeps (O.written out.old) (O.written out.new) }
    ensures err { Keeps (E.written err.old) (E.written err.new) }
    ensures flushed { OnOk result (IsFlushed (sinks O.Sink out.new E.Sink err.new)) }
    ensures faults { SinkFaults
        (sinks O.Sink out.old E.Sink err.old)
        (sinks O.Sink out.new E.Sink err.new) result }
{
    out.flush()?;
    err.flush()?;
    Ok(())
}

/// Flushes both sinks if the source is about to be asked and something was written since the last flush. Returns
/// whether something is left to flush.
fn settle<O: Sink, E: Sink>(
    frames: &Frames,
    unflushed: bool,
    out: &mut O,
    err: &mut E,
) -> Result<bool, Stop>
    ensures settles { SettlesTurn frames.now unflushed
        (sinks O.Sink out.old E.Sink err.old)
        (sinks O.Sink out.new E.Sink err.new) result }
    ensures faults { SinkFaults
        (sinks O.Sink out.old E.Sink err.old)
        (sinks O.Sink out.new E.Sink err.new) result }
{
    if !unflushed || !frames.asks() {
        return Ok(unflushed);
    }
    flush_both(out, err)?;
    Ok(false)
}

/// Writes the line of a damage, if there is one, and passes on all that was written.
fn finish<O: Sink, E: Sink>(
    alloc: Global,
    end: Option<Damage>,
    out: &mut O,
    err: &mut E,
) -> Result<bool, Stop>
    ensures ends { Ends end
        (sinks O.Sink out.old E.Sink err.old)
        (sinks O.Sink out.new E.Sink err.new) result }
    ensures faults { SinkFaults
        (sinks O.Sink out.old E.Sink err.old)
        (sinks O.Sink out.new E.Sink err.new) result }
{
    match end {
        None => {
            flush_both(out, err)?;
            Ok(false)
        }
        Some(damage) => {
            let Ok(line) = damage_line(alloc, damage) else {
                return Err(Stop::Memory);
            };
            write_whole(err, line.as_bytes())?;
            flush_both(out, err)?;
            Ok(true)
        }
    }
}

/// Takes the next step over the capture, and writes the reply to a frame.
fn take_turn<H: Handler, S: Source, O: Sink, E: Sink>(
    alloc: Global,
    handler: &mut H,
    number: u64,
    frames: &mut Frames,
    source: &mut S,
    out: &mut O,
    err: &mut E,
) -> Result<Turn, Stop>
    requires goes_on { frames.old.ended ≡ None }
    requires history { HasHistory (H.histories handler.old) number }
    requires few { number ≤ frames.old.handed }
    ensures same { H.task handler.new ≡ H.task handler.old }
    ensures turns { Turns (RuleOf (H.task handler.old)) (BegunBy (H.task handler.old))
        (H.histories handler.old) (H.histories handler.new) number frames.old frames.new
        (world_ahead frames.old S.Source source.old (sinks O.Sink out.old E.Sink err.old))
        (world_ahead frames.new S.Source source.new (sinks O.Sink out.new E.Sink err.new)) result }
    // At the end of the capture the job isn't called.
    ensures stays { OnEnd result (handler.new ≡ handler.old) }
    ensures asks { TurnAsks frames.old frames.new
        (world_ahead frames.old S.Source source.old (sinks O.Sink out.old E.Sink err.old))
        (world_ahead frames.new S.Source source.new (sinks O.Sink out.new E.Sink err.new)) result }
    ensures faults { CountsFaults
        (world_ahead frames.old S.Source source.old (sinks O.Sink out.old E.Sink err.old))
        (world_ahead frames.new S.Source source.new (sinks O.Sink out.new E.Sink err.new)) result }
{
    match frames.next(source)? {
        Step::Frame => {
            let Some(frame) = frames.frame() else {
                unreachable!()
            };
            let handled = handler.handle(alloc, number, &frame, out, err)?;
            Ok(Turn::Frame(handled))
        }
        Step::End => Ok(Turn::End(None)),
        Step::Damage(damage) => Ok(Turn::End(Some(damage))),
    }
}

/// Writes the replies of a job to all frames of the capture that the source gives. Each frame is handled before the next is
/// asked for, and what was written is passed on before the source is asked for more.
pub(crate) fn drive_frames<H: Handler, S: Source, O: Sink, E: Sink>(
    alloc: Global,
    handler: &mut H,
    source: &mut S,
    out: &mut O,
    err: &mut E,
) -> Result<Ended, Stop>
    requires { H.histories handler.old [] [] }
    ensures same { OnOk result (H.task handler.new ≡ H.task handler.old) }
    ensures drives { Drives (RuleOf (H.task handler.old)) (BegunBy (H.task handler.old))
        (H.histories handler.new) (S.left source.old)
        (sinks O.Sink out.old E.Sink err.old)
        (sinks O.Sink out.new E.Sink err.new) result }
    ensures stops { StopsBy (RuleOf (H.task handler.old))
        (world S.Source source.old (sinks O.Sink out.old E.Sink err.old))
        (world S.Source source.new (sinks O.Sink out.new E.Sink err.new)) result }
    ensures faults { CountsFaults
        (world S.Source source.old (sinks O.Sink out.old E.Sink err.old))
        (world S.Source source.new (sinks O.Sink out.new E.Sink err.new)) result }
{
    let mut frames = Frames::new(alloc);
    let mut number = 0;
    let mut refused = false;
    let mut unflushed = false;
    'frames: loop {
        unflushed = settle(&frames, unflushed, out, err)?;
        match take_turn(alloc, handler, number, &mut frames, source, out, err)? {
            Turn::Frame(handled) => {
                refused |= handled.refused;
                unflushed |= handled.wrote;
                number += 1;
            }
            Turn::End(end) => return Ok(Ended { refused, end }),
        }
    }
}

/// Runs a job over the whole capture that the source gives.
pub(crate) fn drive<J: Job, S: Source, O: Sink, E: Sink>(
    alloc: Global,
    job: &mut J,
    source: &mut S,
    out: &mut O,
    err: &mut E,
) -> Result<Tally, Stop>
    requires { J.stands job.old [] [] }
    ensures leaves { Leaves (J.command job.old) (S.left source.old)
        (sinks O.Sink out.old E.Sink err.old)
        (sinks O.Sink out.new E.Sink err.new) result }
    ensures stops { Stops (J.command job.old)
        (world S.Source source.old (sinks O.Sink out.old E.Sink err.old))
        (world S.Source source.new (sinks O.Sink out.new E.Sink err.new)) result }
    ensures faults { CountsFaults
        (world S.Source source.old (sinks O.Sink out.old E.Sink err.old))
        (world S.Source source.new (sinks O.Sink out.new E.Sink err.new)) result }
{
    let ended = drive_frames(alloc, job, source, out, err)?;
    let damaged = finish(alloc, ended.end, out, err)?;
    Ok(Tally {
        refused: ended.refused,
        damaged,
    })
}
