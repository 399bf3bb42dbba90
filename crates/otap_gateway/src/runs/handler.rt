//! What the driver asks of a job: that it writes the reply to a frame.
ghost use Rattle.std.specs.Prelude.{◌≡◌, ◌<◌};
ghost use Rattle.otap_capture.specs.Capture.{capture_limit, frame_of};
ghost use Rattle.otap_gateway.specs.Endings.{Task, Each, RuleOf, BegunBy};
ghost use Rattle.otap_gateway.specs.Jobs.{HasHistory, History};
ghost use Rattle.otap_gateway.specs.Runs.{sinks, SinkFaults};
ghost use Rattle.otap_gateway.specs.Turns.{Handles, WritesReply};

use crate::jobs::job::Job;
use crate::jobs::reply::Reply;
use crate::runs::stop::Stop;
use otap_capture::{Frame, Sink, write_whole};
use std::alloc::Global;

/// What a frame came to.
#[derive(Clone, Copy)]
pub(crate) struct Handled {
    /// Whether it was refused.
    pub(crate) refused: bool,
    /// Whether something was written.
    pub(crate) wrote: bool,
}

/// A job that writes its replies itself, whole or piece by piece.
pub(crate) trait Handler {
    /// Which job it is.
    ghost task: { Self → Task };

    /// The histories after which it has its state.
    ghost histories: { Self → History };

    /// Writes the reply to the next frame, whose number counts the frames before it. Where something stops it, the reply
    /// may be begun.
    fn handle<O: Sink, E: Sink>(
        &mut self,
        alloc: Global,
        number: u64,
        frame: &Frame<'_>,
        out: &mut O,
        err: &mut E,
    ) -> Result<Handled, Stop>
        requires history { HasHistory (histories self.old) number }
        requires few { number < capture_limit }
        ensures same { task self.new ≡ task self.old }
        ensures handles { Handles (RuleOf (task self.old)) (BegunBy (task self.old)) (histories self.old) (histories self.new)
            number (frame_of frame.now)
            (sinks O.Sink out.old E.Sink err.old)
            (sinks O.Sink out.new E.Sink err.new) result }
        ensures faults { SinkFaults
            (sinks O.Sink out.old E.Sink err.old)
            (sinks O.Sink out.new E.Sink err.new) result };
}

/// A job that never sees a sink: its reply is made whole, and then written.
impl<J: Job> Handler for J {
    ghost task = { λ s. Each (J.command s) };

    ghost histories = { λ s. J.stands s };

    fn handle<O: Sink, E: Sink>(
        &mut self,
        alloc: Global,
        number: u64,
        frame: &Frame<'_>,
        out: &mut O,
        err: &mut E,
    ) -> Result<Handled, Stop> {
        let Ok(reply) = self.step(alloc, number, frame) else {
            return Err(Stop::Memory);
        };
        let handled = write_reply(&reply, out, err)?;
        self.take_back(reply);
        Ok(handled)
    }
}

/// Writes a reply.
pub(crate) fn write_reply<O: Sink, E: Sink>(
    reply: &Reply,
    out: &mut O,
    err: &mut E,
) -> Result<Handled, Stop>
    ensures writes { WritesReply reply.now
        (sinks O.Sink out.old E.Sink err.old)
        (sinks O.Sink out.new E.Sink err.new) result }
    ensures faults { SinkFaults
        (sinks O.Sink out.old E.Sink err.old)
        (sinks O.Sink out.new E.Sink err.new) result }
{
    write_whole(out, reply.out())?;
    write_whole(err, reply.err())?;
    Ok(Handled {
        refused: reply.is_refused(),
        wrote: reply.is_written(),
    })
}
