//! What the outcomes of a receiver say of the format. The functions do nothing: their contracts are the laws.

ghost use Rattle.std.specs.Prelude.{◌≡◌, ◌<◌, ℕ, ℤ, ◌↔◌, true, false, All, List, Ok, Option, Some};
ghost use Rattle.lists.specs.Payloads.{PayloadIn};
ghost use Rattle.otlp_model.specs.declared.request.Signal.{Signal};
ghost use Rattle.otap_capture.specs.Batch.{BatchContent};
ghost use Rattle.otap_capture.specs.declared.frame.Damage.{Damage};
ghost use Rattle.otap_capture.specs.Capture.{Frame, IsCapture};
ghost use Rattle.otap_cells.specs.Tables.{Table};
ghost use Rattle.otap_signals.specs.BySignal.{meaning_by};
ghost use Rattle.otap_consume.specs.declared.not_taken.NotTaken.{NotTaken};
ghost use Rattle.otap_consume.specs.declared.opened.Checked.{Checked};
ghost use Rattle.otap_consume.specs.declared.opened.Opened.TheVariants as opening;
ghost use Rattle.otap_consume.specs.declared.refusal.Cause.{Cause};
ghost use Rattle.otap_consume.specs.declared.refusal.Refusal.{Refusal};
ghost use Rattle.otap_consume.specs.Bytes.{IsOfBytes};
ghost use Rattle.otap_consume.specs.Defects.{tables_of};
ghost use Rattle.otap_consume.specs.LateStages.{HasFineRows};
ghost use Rattle.otap_consume.specs.Opening.{AreWithinLimits, HasLateDefect, IsChecked, IsLateDefect, LeadsTo, NextOutcome, Opens, OpensFrame, refusal_by};
ghost use Rattle.otap_consume.specs.Outcomes.{stage_of, Outcome, Accepted, Refused, Reset, is_broken, payloads_after, refused};
ghost use Rattle.otap_consume.specs.Receiving.{ReceivedAfter, Received, HasDefect, IsInFormat};
ghost use Rattle.otap_consume.specs.Segments.{SegmentIn, StandsFor};

use otap_checks::laws::row_defects_are_decided;

/// A frame is accepted exactly where it is in the format and no frame of its segment was refused before it.
pub fn accepted_where_in_the_format()
    ensures in_format { (signal : Signal) (outcomes : List Outcome) (frame : Frame) (batch : BatchContent) (tables : List Table)
        → ReceivedAfter (meaning_by signal) outcomes frame (Accepted batch tables)
        → (is_broken outcomes ≡ false) × IsInFormat (meaning_by signal) (payloads_after outcomes) frame }
    ensures accepted { (signal : Signal) (frames : List Frame) (outcomes : List Outcome) (frame : Frame)
        → Received (meaning_by signal) frames outcomes → is_broken outcomes ≡ false → IsInFormat (meaning_by signal) (payloads_after outcomes) frame
        → (batch : BatchContent) × (tables : List Table) × ReceivedAfter (meaning_by signal) outcomes frame (Accepted batch tables) }
{}

/// A refusal names something that is wrong with the frame, in the one stage in which something is; or an earlier frame of
/// the segment was refused, and exactly then its stage is 0.
pub fn refused_by_what_is_wrong()
    ensures named { (signal : Signal) (outcomes : List Outcome) (frame : Frame) (refusal : Refusal)
        → ReceivedAfter (meaning_by signal) outcomes frame (Refused refusal) → is_broken outcomes ≡ false
        → HasDefect (meaning_by signal) (payloads_after outcomes) frame refusal.cause refusal.payload × (refusal.stage ≡ stage_of refusal.cause) }
    ensures one_stage { (signal : Signal) (past : List PayloadIn) (frame : Frame) (a b : Cause) (p q : Option ℤ)
        → HasDefect (meaning_by signal) past frame a p → HasDefect (meaning_by signal) past frame b q → stage_of a ≡ stage_of b }
    ensures broken { (signal : Signal) (outcomes : List Outcome) (frame : Frame) (refusal : Refusal)
        → ReceivedAfter (meaning_by signal) outcomes frame (Refused refusal) → (refusal.stage ≡ 0) ↔ (is_broken outcomes ≡ true) }
{}

/// An opened batch that is within the limits, and has nothing wrong in its rows, is accepted; else it is refused by what is
/// wrong. The segment has then taken one more frame; a refused batch breaks it.
pub fn opened_leads_to_an_outcome()
    ensures accepted { (old new : SegmentIn) (outcomes : List Outcome) (frame : Frame) (batch : BatchContent)
        → OpensFrame old frame batch new → StandsFor old.signal outcomes old
        → AreWithinLimits old.signal (payloads_after outcomes) batch.payloads
        → HasFineRows (meaning_by old.signal) (tables_of old.signal (payloads_after outcomes) batch.payloads)
        → LeadsTo (meaning_by old.signal) outcomes frame
        (Accepted batch (tables_of old.signal (payloads_after outcomes) batch.payloads)) new }
    ensures refused { (old opened new : SegmentIn) (outcomes : List Outcome) (frame : Frame) (batch : BatchContent)
        (cause : Cause) (payload : Option ℤ)
        → OpensFrame old frame batch opened → StandsFor old.signal outcomes old → new ≡ record opened { broken = true }
        → IsLateDefect old.signal (payloads_after outcomes) batch.payloads cause payload
        → LeadsTo (meaning_by old.signal) outcomes frame (refused (Some batch.id) cause payload) new }
{}

/// What a segment says of the next frame decides its outcome: a batch that is opened and checked is accepted, with the tables that
/// were looked at; one that isn't taken is refused, where the segment is broken by the refusal; and a frame that isn't opened is
/// refused, or a reset, as the segment says.
pub fn checked_frames_have_outcomes()
    ensures accepted { (old new : SegmentIn) (frame : Frame) (batch : BatchContent) (made : Checked)
        → OpensFrame old frame batch new → IsChecked new.signal new.streams batch.payloads made
        → NextOutcome (meaning_by old.signal) old frame (Accepted batch made.tables) new }
    ensures not_taken { (old opened new : SegmentIn) (frame : Frame) (batch : BatchContent) (why : NotTaken) (refusal : Refusal)
        → OpensFrame old frame batch opened → HasLateDefect opened.signal opened.streams batch.payloads why
        → new ≡ record opened { broken = true } → refusal_by batch why ≡ Ok refusal
        → NextOutcome (meaning_by old.signal) old frame (Refused refusal) new }
    ensures refused { (old new : SegmentIn) (frame : Frame) (refusal : Refusal)
        → Opens old frame new (opening.Refused refusal) → NextOutcome (meaning_by old.signal) old frame (Refused refusal) new }
    ensures reset { (old new : SegmentIn) (frame : Frame)
        → Opens old frame new opening.Reset → NextOutcome (meaning_by old.signal) old frame Reset new }
{}

/// Each frame has an outcome after frames with outcomes, and so have all frames, and those of each capture. Messages and
/// captures are lists of bytes, numbers below 256.
pub fn received_some_outcome()
    ensures next { (signal : Signal) (frames : List Frame) (outcomes : List Outcome) (frame : Frame) → All IsOfBytes frames → IsOfBytes frame → Received (meaning_by signal) frames outcomes
        → (outcome : Outcome) × ReceivedAfter (meaning_by signal) outcomes frame outcome }
    ensures all { (signal : Signal) (frames : List Frame) → All IsOfBytes frames → (outcomes : List Outcome) × Received (meaning_by signal) frames outcomes }
    ensures capture { (signal : Signal) (bytes : List ℕ) (frames : List Frame) (end : Option Damage) → All (λ byte. byte < 256) bytes → IsCapture bytes frames end
        → (outcomes : List Outcome) × Received (meaning_by signal) frames outcomes }
{
    row_defects_are_decided();
}
