//! The jobs of a receiver: each is the text of what the frames give.
ghost use Rattle.std.specs.Prelude.{◌≡◌, IfOk};
ghost use Rattle.otap_signals.specs.BySignal.{meaning_by};
ghost use Rattle.otap_consume.specs.Segments.{IsNew};
ghost use Rattle.otap_gateway.specs.declared.jobs.command.Command.TheVariants as command;
ghost use Rattle.otap_gateway.specs.JobStates.{HasReplied};
ghost use Rattle.otap_gateway.specs.Lines.{refuses};
ghost use Rattle.otap_gateway.specs.Receptions.{refusal_line, text_of};

use crate::jobs::command::ReceiverText;
use crate::jobs::decode::decode;
use crate::jobs::job::Job;
use crate::jobs::replay::replay;
use crate::jobs::reply::Reply;
use crate::jobs::spare::Spare;
use crate::jobs::status::status_of;
use crate::texts::causes::cause_name;
use crate::texts::lines::refused_line;
use otap_capture::Frame;
use otap_consume::{Receiver, Refusal};
use otlp_model::Signal;
use std::alloc::{AllocError, Global};

/// A job of a receiver.
#[derive(Drop)]
pub(crate) struct ReceiverJob {
    text: ReceiverText,
    receiver: Receiver,
    spare: Spare,
}

impl ReceiverJob {
    pub(crate) fn new(
        alloc: Global,
        text: ReceiverText,
        signal: Signal,
    ) -> Result<ReceiverJob, AllocError>
        ensures text { IfOk result (λ job. job.text ≡ text) }
        ensures receiver { IfOk result (λ job. IsNew signal job.receiver) }
    {
        let receiver = Receiver::new(alloc, signal)?;
        Ok(ReceiverJob {
            text,
            receiver,
            spare: Spare::new(),
        })
    }
}

impl Job for ReceiverJob {
    ghost command = { λ s. command.Receive s.text s.receiver.signal };

    ghost stands = { λ s. HasReplied (meaning_by s.receiver.signal) (text_of s.text) s.receiver };

    fn step(&mut self, alloc: Global, number: u64, frame: &Frame<'_>) -> Result<Reply, AllocError> {
        match self.text {
            ReceiverText::Decode => {
                let given = self.receiver.request(frame)?;
                decode(alloc, number, given, &mut self.spare)
            }
            ReceiverText::Status => {
                let given = self.receiver.request(frame)?;
                status_of(alloc, number, given)
            }
            ReceiverText::Replay => {
                let taken = self.receiver.take(frame)?;
                replay(alloc, number, taken)
            }
        }
    }

    fn take_back(&mut self, reply: Reply) {
        if matches!(self.text, ReceiverText::Decode) {
            self.spare.keep(reply);
        }
    }
}

/// The reply to a refused frame.
pub(crate) fn refused(alloc: Global, number: u64, refusal: Refusal) -> Result<Reply, AllocError>
    ensures { IfOk result (λ reply. reply ≡ refuses (refusal_line number refusal)) }
{
    let payload = refusal.payload.map(i64::from);
    let cause = cause_name(refusal.cause)?;
    let line = refused_line(alloc, number, refusal.id, refusal.stage, cause, payload)?;
    Ok(Reply::refusal(alloc, line))
}
