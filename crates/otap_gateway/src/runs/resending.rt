//! The run of `resend`: its replies are written frame by frame, and its last line at the end of the capture.
ghost use Rattle.otap_gateway.specs.declared.jobs.ending.Ending.TheVariants as ending;
ghost use Rattle.otap_gateway.specs.EndingRuns.{LeavesEnding};
ghost use Rattle.otap_gateway.specs.Endings.{AnswerOf, Ends as EndsTask};
ghost use Rattle.otap_gateway.specs.JobStates.{HasRepliedBy};
ghost use Rattle.otap_gateway.specs.Resends.{ResendsAfter, resent_text};
ghost use Rattle.otap_gateway.specs.ResendingSteps.{CountsOut, HasResent, HasSomeState, ResendsAll, Restarts, rows_in};
ghost use Rattle.otap_signals.specs.BySignal.{rows_by};
ghost use Rattle.otap_gateway.specs.Runs.{sinks, world, StopsBy, CountsFaults};

use crate::jobs::resend::{Counts, refused_event, sent_line, take_event};
use crate::runs::ending::{Added, Ender, drive_to_end};
use crate::runs::handler::{Handled, Handler, write_reply};
use crate::runs::stop::{Stop, Tally};
use otap_capture::{Frame, Sink, Source, write_frame, write_reset};
use otap_resend::Resender;
use otlp_model::Signal;
use std::alloc::{AllocError, Global};

/// The job `resend` of a signal.
#[derive(Drop)]
struct ResendJob {
    resender: Resender,
    signal: Signal,
    window: u32,
    counts: Counts,
}

impl Handler for ResendJob {
    ghost task = { λ s. EndsTask (ending.Resend s.signal s.window) };

    ghost histories = { λ s. HasRepliedBy (ResendsAfter (rows_by s.signal) s.window) resent_text
        (HasResent (rows_by s.signal) s.window s.resender s.counts) };

    fn handle<O: Sink, E: Sink>(
        &mut self,
        alloc: Global,
        number: u64,
        frame: &Frame<'_>,
        out: &mut O,
        err: &mut E,
    ) -> Result<Handled, Stop> {
        match frame {
            Frame::Message(bytes) => {
                let resender = &mut self.resender;
                let counts = &mut self.counts;
                let Ok(reply) = take_event(alloc, self.signal, resender, counts, number, bytes)
                else {
                    return Err(Stop::Memory);
                };
                write_reply(&reply, out, err)
            }
            Frame::Packed => {
                let Ok(reply) = refused_event(alloc, number, "Compressed") else {
                    return Err(Stop::Memory);
                };
                write_reply(&reply, out, err)
            }
            Frame::Reset => {
                restart(&mut self.resender, out)?;
                Ok(Handled {
                    refused: false,
                    wrote: true,
                })
            }
        }
    }
}

/// Begins a segment, and writes each open request again.
fn restart<O: Sink>(resender: &mut Resender, out: &mut O) -> Result<(), Stop>
    requires state { HasSomeState (rows_in resender.old) resender.old }
    ensures restarts { Restarts (rows_in resender.old) resender.old resender.new (O.written out.old) (O.written out.new) result }
    ensures faults { CountsOut (O.faults out.old) (O.faults out.new) result }
{
    resender.reset();
    write_reset(out)?;
    resend_all(resender, out)
}

/// Writes each open request that isn't written yet in the segment. A message is written as soon as it is made.
fn resend_all<O: Sink>(resender: &mut Resender, out: &mut O) -> Result<(), Stop>
    requires state { HasSomeState (rows_in resender.old) resender.old }
    ensures resends { ResendsAll (rows_in resender.old) resender.old resender.new (O.written out.old) (O.written out.new) result }
    ensures faults { CountsOut (O.faults out.old) (O.faults out.new) result }
{
    'messages: loop {
        match resender.resend() {
            Ok(Some(message)) => write_frame(out, &message)?,
            Ok(None) => return Ok(()),
            Err(_) => return Err(Stop::Memory),
        }
    }
}

impl Ender for ResendJob {
    ghost use Rattle.std.specs.Prelude.{refl};

    ghost ending = { λ s. ending.Resend s.signal s.window };

    fn add(&mut self, alloc: Global) -> Result<Added, AllocError> {
        let line = sent_line(alloc, &self.resender, self.counts)?;
        Ok(Added::after(alloc, line))
    }

    ghost named = { λ s. refl };
}

/// Runs `resend`.
pub(crate) fn resend<S: Source, O: Sink, E: Sink>(
    alloc: Global,
    signal: Signal,
    window: u32,
    source: &mut S,
    out: &mut O,
    err: &mut E,
) -> Result<Tally, Stop>
    ensures leaves { LeavesEnding (ending.Resend signal window) (S.left source.old)
        (sinks O.Sink out.old E.Sink err.old)
        (sinks O.Sink out.new E.Sink err.new) result }
    ensures stops { StopsBy (AnswerOf (ending.Resend signal window))
        (world S.Source source.old (sinks O.Sink out.old E.Sink err.old))
        (world S.Source source.new (sinks O.Sink out.new E.Sink err.new)) result }
    ensures faults { CountsFaults
        (world S.Source source.old (sinks O.Sink out.old E.Sink err.old))
        (world S.Source source.new (sinks O.Sink out.new E.Sink err.new)) result }
{
    let Ok(resender) = Resender::new(alloc, signal, window) else {
        return Err(Stop::Memory);
    };
    let counts = Counts {
        done: 0,
        given_up: 0,
    };
    let mut job = ResendJob {
        resender,
        signal,
        window,
        counts,
    };
    drive_to_end(alloc, &mut job, source, out, err)
}
