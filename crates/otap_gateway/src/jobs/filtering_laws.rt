//! Laws of `filter`: each is the contract of a function that does nothing.
ghost use Rattle.std.specs.Prelude.{◌≡◌, [], List, Option, ℕ};
ghost use Rattle.lists.specs.EachAfter.{EachAfter};
ghost use Rattle.otap_capture.specs.declared.frame.Damage.{Damage};
ghost use Rattle.otap_capture.specs.Capture.{Frame, IsCapture};
ghost use Rattle.otap_kept.specs.Texts.{text_under};
ghost use Rattle.otap_gateway.specs.declared.jobs.command.Command.TheVariants as command;
ghost use Rattle.otap_gateway.specs.declared.jobs.owner.Owner.{Owner};
ghost use Rattle.otap_gateway.specs.Commands.{ReplyOf};
ghost use Rattle.otap_gateway.specs.FilteredBack.{HaveOutcomes, IsReadFiltered};
ghost use Rattle.otap_gateway.specs.Owners.{signal_of, whose_of};
ghost use Rattle.otap_gateway.specs.Reply.{ReplyText};

use otap_capture::written_is_read;
use otap_filter::laws::filters_of_batches_arrive;
use otap_kept::laws::{
    rows_are_no_heavier, what_is_kept_can_be_written, what_is_kept_has_no_defect,
    what_is_kept_is_no_heavier, what_is_kept_tells_the_filter,
};
use otap_signals::laws::requests_read_alike;

/// What `filter` writes is given by one list of what the frames of the capture gave, and their outcomes are those of a receiver. So
/// it refuses what `decode` may refuse.
pub fn filtered_texts_have_outcomes()
    ensures { (owner : Owner) (key text : List ℕ) (frames : List Frame) (replies : List ReplyText) → EachAfter (ReplyOf (command.Filter owner key text)) [] [] frames replies
        → HaveOutcomes (signal_of owner) (whose_of owner) (text_under key text) frames replies }
{}

/// What `filter` writes for a capture is read, as one capture where it has fewer than 2^40 bytes: each batch that it writes is
/// accepted with the id of the batch that it came from, tells the filter of the telemetry of this batch, and weighs no more.
pub fn what_is_filtered_is_read()
    ensures { (owner : Owner) (key text : List ℕ) (bytes : List ℕ) (frames : List Frame) (end : Option Damage) (replies : List ReplyText) → IsCapture bytes frames end
        → EachAfter (ReplyOf (command.Filter owner key text)) [] [] frames replies
        → IsReadFiltered (signal_of owner) (whose_of owner) (text_under key text) frames replies }
{
    written_is_read();
    filters_of_batches_arrive();
    what_is_kept_can_be_written();
    rows_are_no_heavier();
    what_is_kept_has_no_defect();
    what_is_kept_is_no_heavier();
    what_is_kept_tells_the_filter();
    requests_read_alike();
}
