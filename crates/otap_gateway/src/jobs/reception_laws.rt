//! Laws of `show` and of the jobs of a receiver: each is the contract of a function that does nothing.
ghost use Rattle.std.specs.Prelude.{◌≡◌, ◌<◌, ◌++◌, [], All, List, Option, ℕ, codes};
ghost use Rattle.lists.specs.EachAfter.{EachAfter};
ghost use Rattle.otap_capture.specs.declared.frame.Damage.{Damage};
ghost use Rattle.otap_capture.specs.Capture.{Frame, IsCapture};
ghost use Rattle.otap_consume.specs.declared.refusal.Refusal.{Refusal};
ghost use Rattle.otap_consume.specs.Outcomes.{Outcome, Outcomes};
ghost use Rattle.otap_consume.specs.Receiving.{Received};
ghost use Rattle.otap_gateway.specs.declared.jobs.command.Command.TheVariants as command;
ghost use Rattle.otap_gateway.specs.declared.jobs.command.ReceiverText.{ReceiverText};
ghost use Rattle.otlp_model.specs.declared.request.Signal.{Signal};
ghost use Rattle.otap_gateway.specs.Commands.{ReplyOf};
ghost use Rattle.otap_gateway.specs.Lines.{batch_head, or_dash, line_feed};
ghost use Rattle.otap_signals.specs.BySignal.{meaning_by};
ghost use Rattle.otap_gateway.specs.Receptions.{as_taken, refusal_line, refusal_status, text_of};
ghost use Rattle.otap_gateway.specs.Reply.{ReplyText};
ghost use Rattle.otap_gateway.specs.Showing.{shown};
ghost use Rattle.otap_gateway.specs.Texts.{HaveTexts, IsEarly};
ghost use Rattle.otap_gateway.specs.Replies.{replies_from};

use otap_consume::laws::some_outcome;
use otap_consume::receiving_laws::received_some_outcome;

/// One list of outcomes of the frames of a capture gives what each job of a receiver may write, and where none of them is refused
/// after stage 4, what `show` may write too (`show_alike`). The outcomes of the stages 0 to 4 give what `show` may write (`show`).
pub fn outcomes_give_the_texts()
    ensures receive { (text : ReceiverText) (signal : Signal) (frames : List Frame) (outcomes : List Outcome) → Received (meaning_by signal) frames outcomes
        → EachAfter (ReplyOf (command.Receive text signal)) [] [] frames (replies_from (as_taken (meaning_by signal) (text_of text)) 0 outcomes) }
    ensures show { (signal : Signal) (frames : List Frame) (outcomes : List Outcome) → Outcomes signal frames outcomes
        → EachAfter (ReplyOf (command.Show signal)) [] [] frames (replies_from shown 0 outcomes) }
    ensures show_alike { (signal : Signal) (frames : List Frame) (outcomes : List Outcome) → Received (meaning_by signal) frames outcomes → All IsEarly outcomes
        → EachAfter (ReplyOf (command.Show signal)) [] [] frames (replies_from shown 0 outcomes) }
{}

/// What each of these jobs writes is given by one list of outcomes of the frames of the capture.
pub fn texts_have_outcomes()
    ensures receive { (text : ReceiverText) (signal : Signal) (frames : List Frame) (replies : List ReplyText) → EachAfter (ReplyOf (command.Receive text signal)) [] [] frames replies
        → (outcomes : List Outcome) × Received (meaning_by signal) frames outcomes × (replies ≡ replies_from (as_taken (meaning_by signal) (text_of text)) 0 outcomes) }
    ensures show { (signal : Signal) (frames : List Frame) (replies : List ReplyText) → EachAfter (ReplyOf (command.Show signal)) [] [] frames replies
        → (outcomes : List Outcome) × Outcomes signal frames outcomes × (replies ≡ replies_from shown 0 outcomes) }
{}

/// For each capture, one list of outcomes of its frames gives what each job of a receiver may write, and one of what the stages 0
/// to 4 make of them gives what `show` may write.
pub fn captures_have_texts()
    ensures { (signal : Signal) (bytes : List ℕ) (frames : List Frame) (end : Option Damage) → All (λ byte. byte < 256) bytes → IsCapture bytes frames end
        → HaveTexts signal frames }
{
    some_outcome();
    received_some_outcome();
}

/// The message of a refused batch's status is what the line of the refusal says from its stage on.
pub fn status_says_the_line()
    ensures { (number : ℕ) (refusal : Refusal)
        → refusal_line number refusal ≡ batch_head number (or_dash refusal.id) ++ (codes " refused: " ++ ((refusal_status refusal).message ++ line_feed)) }
{}
