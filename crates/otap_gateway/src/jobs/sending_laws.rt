//! Laws of `encode`: each is the contract of a function that does nothing.
ghost use Rattle.std.specs.Prelude.{◌≡◌, [], List};
ghost use Rattle.std.specs.List.{flat_map};
ghost use Rattle.lists.specs.EachAfter.{EachAfter};
ghost use Rattle.otap_capture.specs.Batch.{payloads_in};
ghost use Rattle.otap_capture.specs.Capture.{Frame};
ghost use Rattle.otap_gateway.specs.declared.jobs.command.Command.TheVariants as command;
ghost use Rattle.otlp_model.specs.declared.request.Signal.{Signal};
ghost use Rattle.otap_gateway.specs.Commands.{ReplyOf};
ghost use Rattle.otap_signals.specs.BySignal.{rows_by, meaning_by};
ghost use Rattle.otap_gateway.specs.Encoding.{Encoded, Encodes, encoded, sent};
ghost use Rattle.otap_gateway.specs.ReadBack.{IsReadAgain};
ghost use Rattle.otap_gateway.specs.Reply.{ReplyText};
ghost use Rattle.otap_gateway.specs.Replies.{Gave, replies_from};
ghost use Rattle.otap_transit.specs.Layouts.{AreLaidPayloads};
ghost use Rattle.otap_transit.specs.Sendings.{messages_since};

use otap_capture::written_is_read;
use otap_transit::laws::{layouts_are_read, what_is_sent_arrives};

/// What `encode` writes is given by one list of what the frames of the capture gave, and all of it arrives.
pub fn encoded_texts_have_outcomes()
    ensures { (signal : Signal) (frames : List Frame) (replies : List ReplyText) → EachAfter (ReplyOf (command.Encode signal)) [] [] frames replies
        → (outcomes : List Encoded) × Gave (Encodes (rows_by signal) (meaning_by signal)) frames outcomes × (replies ≡ replies_from encoded 0 outcomes) }
{}

/// What `encode` writes, read as one capture where it has fewer than 2^40 bytes, is the frames of what it sent, and all of it
/// arrives: each message is accepted and means the same telemetry as its request.
pub fn what_is_written_is_read()
    ensures { (signal : Signal) (frames : List Frame) (replies : List ReplyText) → EachAfter (ReplyOf (command.Encode signal)) [] [] frames replies
        → IsReadAgain (rows_by signal) (meaning_by signal) frames replies }
{
    written_is_read();
    what_is_sent_arrives();
}

/// After each frame, the payloads of all messages that `encode` wrote since the latest reset are laid out, by their bytes alone:
/// each by the schema that its sub-stream then has.
pub fn what_is_written_is_laid_out()
    ensures { (signal : Signal) (frames : List Frame) (outcomes : List Encoded) → Gave (Encodes (rows_by signal) (meaning_by signal)) frames outcomes
        → AreLaidPayloads (flat_map payloads_in (messages_since (sent outcomes))) }
{
    layouts_are_read();
}
