//! The run of a job that adds something of its own at the end of the capture.
ghost use Rattle.std.specs.Prelude.{◌≡◌, ◌++◌, [], List, IfOk, OnOk};
ghost use Rattle.otap_capture.specs.Capture.{Frame as GivenFrame};
ghost use Rattle.otap_gateway.specs.declared.jobs.ending.Ending.{Ending};
ghost use Rattle.otap_gateway.specs.EndingRuns.{LeavesEnding};
ghost use Rattle.otap_gateway.specs.Endings.{Ends as EndsTask, AnswerOf, ClosingOf, closing_text};
ghost use Rattle.otap_gateway.specs.Lines.{end_text};
ghost use Rattle.otap_gateway.specs.Reply.{ReplyText, adds_after, adds_on_out, refuses_before};
ghost use Rattle.otap_gateway.specs.Runs.{sinks, world, StopsBy, CountsFaults, SinkFaults};
ghost use Rattle.otap_gateway.specs.Turns.{AddsIn};

use crate::runs::drive::{drive_frames, flush_both};
use crate::runs::handler::Handler;
use crate::runs::stop::{Stop, Tally};
use crate::texts::lines::damage_line;
use otap_capture::{Damage, Sink, Source, write_whole};
use std::alloc::{AllocError, Global};
use std::marker::Model;

/// What a job adds at the end of the capture.
#[derive(Drop)]
pub(crate) struct Added {
    out: Vec<u8>,
    /// On err, before the line of a damage.
    before: Vec<u8>,
    /// On err, after it.
    after: Vec<u8>,
    refused: bool,
}

impl Model for Added {
    ghost use Rattle.otap_gateway.specs.Reply.{Closing};

    ghost Value = { Closing };

    ghost view = { λ s. record { out = s.out.items; before = s.before.items; after = s.after.items; refused = s.refused } };
}

impl Added {
    /// A text on err, after the line of a damage.
    pub(crate) fn after(alloc: Global, after: Vec<u8>) -> Added
        ensures { result ≡ adds_after after.items }
    {
        Added {
            out: Vec::new(alloc),
            before: Vec::new(alloc),
            after,
            refused: false,
        }
    }

    /// Bytes on out.
    pub(crate) fn on_out(alloc: Global, out: Vec<u8>) -> Added
        ensures { result ≡ adds_on_out out.items }
    {
        Added {
            out,
            before: Vec::new(alloc),
            after: Vec::new(alloc),
            refused: false,
        }
    }

    /// A refusal, by its line on err, before the line of a damage.
    pub(crate) fn refusal(alloc: Global, line: Vec<u8>) -> Added
        ensures { result ≡ refuses_before line.items }
    {
        Added {
            out: Vec::new(alloc),
            before: line,
            after: Vec::new(alloc),
            refused: true,
        }
    }

    fn is_refused(&self) -> bool
        ensures { result ≡ self.now.refused }
    {
        self.refused
    }
}

/// A job that adds something at the end of the capture.
pub(crate) trait Ender: Handler {
    /// Which job it is.
    ghost ending: { Self → Ending };

    /// What it adds, once all frames of the capture were taken.
    fn add(&mut self, alloc: Global) -> Result<Added, AllocError>
        ensures { IfOk result (λ added. (frames : List GivenFrame) (replies : List ReplyText)
            → Self.histories self.old frames replies → ClosingOf (ending self.old) frames replies added) };

    ghost named: { (s : Self) → Self.task s ≡ EndsTask (ending s) };
}

/// What follows the replies to all frames on err.
fn text_of_end(alloc: Global, end: Option<Damage>, added: &Added) -> Result<Vec<u8>, AllocError>
    ensures { IfOk result (λ text. text.items ≡ closing_text added.now end) }
{
    let mut text = added.before.as_slice().to_vec(alloc)?;
    push_end(alloc, &mut text, end)?;
    text.extend_from_slice(&added.after)?;
    Ok(text)
}

/// Appends the line of a damage, if there is one.
fn push_end(alloc: Global, text: &mut Vec<u8>, end: Option<Damage>) -> Result<(), AllocError>
    ensures { OnOk result (text.new.items ≡ text.old.items ++ end_text end) }
{
    match end {
        None => Ok(()),
        Some(damage) => {
            let line = damage_line(alloc, damage)?;
            text.extend_from_slice(line.as_bytes())
        }
    }
}

/// Writes what a job adds at the end, with the line of a damage in its place, and passes on all that was written.
fn write_end<O: Sink, E: Sink>(
    alloc: Global,
    end: Option<Damage>,
    added: &Added,
    out: &mut O,
    err: &mut E,
) -> Result<bool, Stop>
    ensures adds { AddsIn added.now end
        (sinks O.Sink out.old E.Sink err.old)
        (sinks O.Sink out.new E.Sink err.new) result }
    ensures faults { SinkFaults
        (sinks O.Sink out.old E.Sink err.old)
        (sinks O.Sink out.new E.Sink err.new) result }
{
    let Ok(text) = text_of_end(alloc, end, added) else {
        return Err(Stop::Memory);
    };
    write_whole(out, &added.out)?;
    write_whole(err, &text)?;
    flush_both(out, err)?;
    Ok(end.is_some())
}

/// Runs a job that adds something at the end over the whole capture that the source gives.
pub(crate) fn drive_to_end<J: Ender, S: Source, O: Sink, E: Sink>(
    alloc: Global,
    job: &mut J,
    source: &mut S,
    out: &mut O,
    err: &mut E,
) -> Result<Tally, Stop>
    requires { J.histories job.old [] [] }
    ensures leaves { LeavesEnding (J.ending job.old) (S.left source.old)
        (sinks O.Sink out.old E.Sink err.old)
        (sinks O.Sink out.new E.Sink err.new) result }
    ensures stops { StopsBy (AnswerOf (J.ending job.old))
        (world S.Source source.old (sinks O.Sink out.old E.Sink err.old))
        (world S.Source source.new (sinks O.Sink out.new E.Sink err.new)) result }
    ensures faults { CountsFaults
        (world S.Source source.old (sinks O.Sink out.old E.Sink err.old))
        (world S.Source source.new (sinks O.Sink out.new E.Sink err.new)) result }
{
    let ended = drive_frames(alloc, job, source, out, err)?;
    let Ok(added) = job.add(alloc) else {
        return Err(Stop::Memory);
    };
    let damaged = write_end(alloc, ended.end, &added, out, err)?;
    Ok(Tally {
        refused: ended.refused | added.is_refused(),
        damaged,
    })
}
