//! What a job does with each frame.
ghost use Rattle.std.specs.Prelude.{◌≡◌, ◌<◌, IfOk};
ghost use Rattle.otap_capture.specs.Capture.{capture_limit, frame_of};
ghost use Rattle.otap_gateway.specs.declared.jobs.command.Command.{Command};
ghost use Rattle.otap_gateway.specs.Commands.{ReplyOf};
ghost use Rattle.otap_gateway.specs.Jobs.{History, Extends, HasHistory, Stays};

use crate::jobs::reply::Reply;
use otap_capture::Frame;
use std::alloc::{AllocError, Global};

/// A job that replies to frames, one after the other. Its state is the one after the frames that it has
/// taken and the replies that it has made to them.
pub(crate) trait Job {
    /// Which job it is.
    ghost command: { Self → Command };

    /// The histories after which it has its state.
    ghost stands: { Self → History };

    /// The reply to the next frame, whose number counts the frames before it.
    fn step(&mut self, alloc: Global, number: u64, frame: &Frame<'_>) -> Result<Reply, AllocError>
        requires history { HasHistory (stands self.old) number }
        requires few { number < capture_limit }
        ensures same { command self.new ≡ command self.old }
        ensures next { IfOk result (Extends (ReplyOf (command self.old)) (stands self.old) (stands self.new) number (frame_of frame.now)) };

    /// Takes a reply back that was written, for its memory.
    fn take_back(&mut self, reply: Reply)
        ensures same { command self.new ≡ command self.old }
        ensures stays { Stays (stands self.old) (stands self.new) }
    {
        let _ = reply;
    }
}
