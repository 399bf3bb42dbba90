//! Laws of `resend`: each is the contract of a function that does nothing.
ghost use Rattle.std.specs.Prelude.{[], ℕ, ℤ, List, None};
ghost use Rattle.std.specs.declared.option.Option.{Option};
ghost use Rattle.lists.specs.EachAfter.{EachAfter};
ghost use Rattle.otap_capture.specs.Capture.{Frame};
ghost use Rattle.otap_gateway.specs.declared.jobs.ending.Ending.TheVariants as ending;
ghost use Rattle.otap_gateway.specs.declared.runs.stop.Tally.{Tally};
ghost use Rattle.otap_gateway.specs.Accepted.{WasAccepted};
ghost use Rattle.otap_gateway.specs.EndingRuns.{CompletesEnding, EndsAll};
ghost use Rattle.otap_gateway.specs.Endings.{AnswerOf, ClosingOf};
ghost use Rattle.otap_gateway.specs.OneRun.{GrowsByRun, IsOneRun, IsReadBack};
ghost use Rattle.otap_gateway.specs.Replies.{Gave};
ghost use Rattle.otap_gateway.specs.Reply.{ReplyText, Closing};
ghost use Rattle.otap_gateway.specs.Resends.{IsResent, Resent, ResendsAfter};
ghost use Rattle.otap_gateway.specs.Runs.{Sinks};
ghost use Rattle.otap_resend.specs.Runs.{Step, IsRun, messages_since, requests_sent, state_after};
ghost use Rattle.otap_resend.specs.States.{Answer, Done};
ghost use Rattle.otap_resend.specs.Turns.{MayGive};
ghost use Rattle.otap_signals.specs.BySignal.{meaning_by, rows_by};
ghost use Rattle.otlp_model.specs.declared.request.Signal.{Signal};

use otap_capture::written_is_read;
use otap_resend::laws::nothing_is_lost;
use otap_transit::laws::what_is_sent_arrives;

/// What `resend` replies to the frames of a capture, or to the first of them, is given by one list of what these frames gave, and
/// its calls are a run of a resending exporter: so no request is lost or invented.
pub fn resent_texts_are_of_a_run()
    ensures { (signal : Signal) (window : ℕ) (frames : List Frame) (replies : List ReplyText)
        → EachAfter (AnswerOf (ending.Resend signal window)) [] [] frames replies
        → IsResent (rows_by signal) window frames replies }
{}

/// The replies and the last line are of one run: it counts the requests after all calls that the frames gave.
pub fn all_texts_are_of_one_run()
    ensures { (signal : Signal) (window : ℕ) (frames : List Frame) (replies : List ReplyText) (closing : Closing)
        → ClosingOf (ending.Resend signal window) frames replies closing
        → IsOneRun (rows_by signal) window frames replies closing }
{}

/// Where `resend` came to its end, the sinks grew by the texts of one run, its last line included.
pub fn sinks_grow_by_one_run()
    ensures ended { (signal : Signal) (window : ℕ) (left : Option (List ℕ)) (old new : Sinks) (tally : Tally)
        → (all : EndsAll (ending.Resend signal window) left old new tally)
        → GrowsByRun (rows_by signal) window all.frames all.end old new }
    ensures completed { (signal : Signal) (window : ℕ) (frames : List Frame) (old new : Sinks) (status : ℕ)
        → CompletesEnding (ending.Resend signal window) frames old new status
        → GrowsByRun (rows_by signal) window frames None old new }
{}

/// What `resend` writes for what frames gave, read as one capture where it has fewer than 2^40 bytes, is the frames of what it
/// sent, resets included, and all of it arrives: each message is accepted and means the same telemetry as its request.
pub fn what_is_resent_is_read()
    ensures { (signal : Signal) (window : ℕ) (frames : List Frame) (given : List Resent)
        → Gave (ResendsAfter (rows_by signal) window) frames given
        → IsReadBack (rows_by signal) (meaning_by signal) window given }
{
    written_is_read();
    what_is_sent_arrives();
}

/// A request that is done was sent with its number, and is accepted by the far end as the same telemetry. After each run of a
/// resending exporter, and for each status by which a request is done: the messages since the latest reset have outcomes at the
/// far end, and in all that they have the message with the status's batch id is accepted, and means the same telemetry as the
/// request. Nothing is asked of the code of the far end. The premise is that the status is for a message of this segment: a late
/// status of a former segment counts for the request that has its id now.
pub fn done_is_accepted()
    ensures { (signal : Signal) (window : ℕ) (before : List Step) (id code : ℤ) (number : ℕ)
        → IsRun (rows_by signal) window before
        → MayGive (rows_by signal) (state_after window before) (Answer id code) (Done number)
        → WasAccepted (meaning_by signal)
        (state_after window before) (requests_sent before) (messages_since before) id number }
{
    nothing_is_lost();
    what_is_sent_arrives();
}
