//! What a filter writes, and what the far end reads of it. The functions do nothing: their contracts are the laws.

ghost use Rattle.std.specs.Prelude.{◌<◌, ◌^◌, ℕ, ℤ, All, List, [], length};
ghost use Rattle.lists.specs.EachAfter.{AllAfter};
ghost use Rattle.otlp_model.specs.declared.request.Signal.{Signal};
ghost use Rattle.otlp_model.specs.declared.value.Pair.{Pair};
ghost use Rattle.otap_capture.specs.Capture.{Frame};
ghost use Rattle.otap_consume.specs.Bytes.{IsOfBytes};
ghost use Rattle.otap_consume.specs.Outcomes.{Outcome};
ghost use Rattle.otap_kept.specs.declared.whose.Whose.{Whose};
ghost use Rattle.otap_filter.specs.Filtering.{Answer, Answers, AreFiltered, Batch, FrameResult, Unordered};
ghost use Rattle.otap_filter.specs.Runs.{AreAlike, AreMessagesOf, HasArrived, HasOutcome};

use otap_consume::receiving_laws::received_some_outcome;
use otap_kept::laws::{
    rows_are_no_heavier, what_is_kept_can_be_written, what_is_kept_has_no_defect,
    what_is_kept_is_no_heavier, what_is_kept_tells_the_filter,
};
use otap_signals::laws::requests_read_alike;
use otap_transit::laws::{fit_tables_arrive, layouts_of_sets_are_read, profile_tables_are_fit};

/// The messages since the latest reset are those of what was kept of the batches since then, where it is ordered: one for each,
/// after those before it. What was kept is fit to be sent, so each set arrives; and each message is laid out.
pub fn messages_are_of_what_is_kept()
    ensures { (of : Signal) (whose : Whose) (pair : Pair) (frames : List Frame) (given : List FrameResult)
        → AreFiltered of whose pair frames given → length given < 2 ^ 64 → AreMessagesOf of whose pair given }
{
    what_is_kept_can_be_written();
    rows_are_no_heavier();
    what_is_kept_has_no_defect();
    what_is_kept_is_no_heavier();
    what_is_kept_tells_the_filter();
    profile_tables_are_fit();
    fit_tables_arrive();
    layouts_of_sets_are_read();
}

/// Each message is in the format after those since the latest reset. It has the id of its batch, what is read of it is the filter of
/// the telemetry of the batch, and the rows that were kept weigh no more than those of the batch.
pub fn filters_of_batches_arrive()
    ensures { (of : Signal) (whose : Whose) (pair : Pair) (frames : List Frame) (given : List FrameResult)
        → AreFiltered of whose pair frames given → length given < 2 ^ 64 → AllAfter (HasArrived of whose pair) [] given }
{
    what_is_kept_can_be_written();
    rows_are_no_heavier();
    what_is_kept_has_no_defect();
    what_is_kept_is_no_heavier();
    what_is_kept_tells_the_filter();
    profile_tables_are_fit();
    fit_tables_arrive();
    requests_read_alike();
}

/// Each frame has an outcome after frames that gave something, and an answer, where no message is the answer. Messages are lists of
/// bytes, numbers below 256.
pub fn each_frame_has_an_outcome()
    ensures { (of : Signal) (whose : Whose) (pair : Pair) (frames : List Frame) (given : List FrameResult) (frame : Frame)
        → All IsOfBytes frames → IsOfBytes frame → AreFiltered of whose pair frames given → HasOutcome of whose pair given frame }
{
    received_some_outcome();
}

/// An outcome after frames that gave something has one kind of answer: a batch that is answered by a message isn't one of which what
/// is kept isn't ordered, and two answers have the same id or the same refusal. So only the bytes of a message are free.
pub fn one_kind_of_answer()
    ensures kind { (of : Signal) (whose : Whose) (pair : Pair) (given : List FrameResult) (outcome : Outcome) (id other : ℤ) (message : List ℕ)
        → Answers of whose pair given outcome (Batch id message) → Answers of whose pair given outcome (Unordered other) → ⊥ }
    ensures alike { (of : Signal) (whose : Whose) (pair : Pair) (given : List FrameResult) (outcome : Outcome) (a b : Answer)
        → Answers of whose pair given outcome a → Answers of whose pair given outcome b → AreAlike a b }
{}
