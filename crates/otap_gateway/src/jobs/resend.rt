//! `resend`: the batches of an exporter that sends again what wasn't answered. What a frame that is no reset gives is made here;
//! [`crate::runs::resending`] writes it.
ghost use Rattle.std.specs.Prelude.{[], ◌≡◌, ◌<◌, length, IfOk};
ghost use Rattle.otap_capture.specs.Statuses.{status_content};
ghost use Rattle.otap_produce.specs.Limits.{batch_limit};
ghost use Rattle.otlp_model.specs.Profile.{IsProfile};
ghost use Rattle.otlp_model.specs.Telemetry.{signal_of};
ghost use Rattle.otap_resend.specs.Resenders.{outcome_of};
ghost use Rattle.otap_signals.specs.BySignal.{rows_by};
ghost use Rattle.otap_gateway.specs.Lines.{refuses};
ghost use Rattle.otap_gateway.specs.Resends.{answer_line, answer_word, counts_line, event_line, is_unknown};
ghost use Rattle.otap_gateway.specs.ResendingSteps.{AddsAnswer, AreFew, HasSomeState, NamesWhy, SendsOne, TakesEvent, TakesRequest, TakesStatus, rows_in};

use crate::jobs::refused::unread_name;
use crate::jobs::refused_requests::{refusal_name, refused};
use crate::jobs::reply::Reply;
use otap_capture::{SendEvent, Status, read_event};
use otap_resend::{Answered, Resender, SendRefusal};
use otlp_codec::read_request;
use otlp_model::{Request, Signal};
use std::alloc::{AllocError, Global};

/// How many requests are done, and how many were given up.
#[derive(Clone, Copy)]
pub(crate) struct Counts {
    pub(crate) done: u64,
    pub(crate) given_up: u64,
}

impl Counts {
    /// Counts what became of a request.
    fn add(&mut self, answer: &Answered)
        requires done { self.old.done < batch_limit }
        requires given_up { self.old.given_up < batch_limit }
        ensures { AddsAnswer (outcome_of answer.now) self.old self.new }
    {
        match answer {
            Answered::Done(_) => self.done += 1,
            Answered::GivenUp { .. } => self.given_up += 1,
            Answered::Kept(_) | Answered::Unknown => {}
        }
    }
}

/// The reply to an event, by its bytes.
pub(crate) fn take_event(
    alloc: Global,
    signal: Signal,
    resender: &mut Resender,
    counts: &mut Counts,
    number: u64,
    bytes: &[u8],
) -> Result<Reply, AllocError>
    requires state { HasSomeState (rows_by signal) resender.old }
    requires few { AreFew resender.old counts.old }
    ensures { IfOk result (TakesEvent (rows_by signal)
        resender.old resender.new
        counts.old counts.new number bytes.now) }
{
    match read_event(bytes) {
        Ok(SendEvent::Request(part)) => take_request(alloc, signal, resender, number, part),
        Ok(SendEvent::Status(status)) => take_status(alloc, resender, counts, number, &status),
        Err(refusal) => refused_event(alloc, number, unread_name(refusal)),
    }
}

/// The reply to a request, by its bytes.
fn take_request(
    alloc: Global,
    signal: Signal,
    resender: &mut Resender,
    number: u64,
    part: &[u8],
) -> Result<Reply, AllocError>
    requires state { HasSomeState (rows_by signal) resender.old }
    requires few { resender.old.sent < batch_limit }
    ensures { IfOk result (TakesRequest (rows_by signal) resender.old resender.new number part.now) }
{
    match read_request(alloc, signal, part) {
        Ok(request) => send(alloc, resender, number, request),
        Err(refusal) => refused(alloc, number, refusal_name(refusal)?),
    }
}

/// The reply to a request that was read. Where each request is written and memory didn't run out, nothing is pending.
fn send(
    alloc: Global,
    resender: &mut Resender,
    number: u64,
    request: Request,
) -> Result<Reply, AllocError>
    requires state { HasSomeState (rows_in resender.old) resender.old }
    requires few { resender.old.sent < batch_limit }
    requires of_signal { signal_of request ≡ resender.old.exporter.signal }
    requires profile { IsProfile request }
    ensures { IfOk result (SendsOne (rows_in resender.old) resender.old resender.new number request) }
{
    match resender.send(request) {
        Ok(message) => Reply::frame(alloc, &message),
        Err(not_sent) => refused(alloc, number, why_name(not_sent.why)?),
    }
}

/// The printed name of a refusal to send. Out of memory is passed on.
fn why_name(why: SendRefusal) -> Result<&'static str, AllocError>
    ensures { IfOk result (λ name. NamesWhy why name.now) }
{
    match why {
        SendRefusal::Full => Ok("Full"),
        SendRefusal::Pending => Ok("Pending"),
        SendRefusal::Broken => Ok("Broken"),
        SendRefusal::TooManyItems => Ok("TooManyItems"),
        SendRefusal::TooHeavy => Ok("TooHeavy"),
        SendRefusal::Memory(error) => Err(error),
    }
}

/// The reply to a status.
fn take_status(
    alloc: Global,
    resender: &mut Resender,
    counts: &mut Counts,
    number: u64,
    status: &Status<'_>,
) -> Result<Reply, AllocError>
    requires few { AreFew resender.old counts.old }
    ensures { IfOk result (TakesStatus (rows_in resender.old)
        resender.old resender.new
        counts.old counts.new number (status_content status.now)) }
{
    let answer = resender.answer(status);
    counts.add(&answer);
    let line = answer_line(alloc, number, status.id, answer_word(&answer))?;
    Ok(answer_reply(alloc, line, &answer))
}

/// What became of the request of a batch, as it is printed.
fn answer_word(answer: &Answered) -> &'static str
    ensures { result.now ≡ answer_word (outcome_of answer.now) }
{
    match answer {
        Answered::Done(_) => "done",
        Answered::GivenUp { .. } => "given up",
        Answered::Kept(_) => "kept",
        Answered::Unknown => "unknown",
    }
}

/// The reply to a status, by its line.
fn answer_reply(alloc: Global, line: Vec<u8>, answer: &Answered) -> Reply
    ensures { result ≡ record { out = []; err = line.items; refused = is_unknown (outcome_of answer.now) } }
{
    match answer {
        Answered::Unknown => Reply::refusal(alloc, line),
        Answered::Done(_) | Answered::GivenUp { .. } | Answered::Kept(_) => {
            Reply::on_err(alloc, line)
        }
    }
}

/// The line for a status, with what became of the request of its batch.
fn answer_line(alloc: Global, number: u64, id: i64, word: &str) -> Result<Vec<u8>, AllocError>
    ensures { IfOk result (λ line. line.items ≡ answer_line number id word.now) }
{
    let line = format!(in alloc; "frame {number}: answer {id} {word}\n")?;
    Ok(line.into_bytes())
}

/// The reply to a frame that is no event, by the name of the cause.
pub(crate) fn refused_event(alloc: Global, number: u64, cause: &str) -> Result<Reply, AllocError>
    ensures { IfOk result (λ reply. reply ≡ refuses (event_line number cause.now)) }
{
    let line = format!(in alloc; "frame {number}: event refused: {cause}\n")?;
    Ok(Reply::refusal(alloc, line.into_bytes()))
}

/// The last line: how many requests were sent, how many are done and were given up, and how many are open.
pub(crate) fn sent_line(
    alloc: Global,
    resender: &Resender,
    counts: Counts,
) -> Result<Vec<u8>, AllocError>
    ensures { IfOk result (λ line. line.items ≡ counts_line
        resender.now.sent counts.done counts.given_up (length resender.now.unanswered)) }
{
    let sent = resender.sent();
    let Counts { done, given_up } = counts;
    let open = resender.unanswered();
    let line = format!(in alloc; "sent {sent} done {done} given up {given_up} open {open}\n")?;
    Ok(line.into_bytes())
}
