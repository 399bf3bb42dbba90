//! The rows of a batch, looked at without its request being built.
ghost use Rattle.std.specs.Prelude.{◌≡◌, IfErr, IfOk, OnOk};
ghost use Rattle.otlp_model.specs.Weight.{weight_of};
ghost use Rattle.otap_signals.specs.BySignal.{meaning_by, request_in};
ghost use Rattle.otap_consume.specs.LateStages.{HasFineRows, IsDefectOfRows};
ghost use Rattle.otap_consume.specs.Untaken.{SaysDefect};

use crate::not_taken::NotTaken;
use crate::refusal::Cause;
use crate::taking::of_size;
use otap_cells::TableSet;
use otap_columns::RowsView;
use otap_signals::check_set;
use otlp_model::{MAX_TREE_WEIGHT, Signal};
use std::alloc::Global;

/// What the request of the tables of a batch weighs, where nothing is wrong with their rows and it is within the limit.
pub(crate) fn tree_within(
    alloc: Global,
    signal: Signal,
    set: &TableSet<RowsView<'_>>,
) -> Result<u64, NotTaken>
    ensures fine { OnOk result (HasFineRows (meaning_by signal) set.now) }
    ensures tree { IfOk result (λ tree. tree ≡ weight_of (request_in signal set.now)) }
    ensures stops { IfErr result (SaysDefect (IsDefectOfRows (meaning_by signal) set.now)) }
{
    let tree = check_set(alloc, signal, set)?;
    if tree > MAX_TREE_WEIGHT {
        return Err(of_size(Cause::TreeTooHeavy));
    }
    Ok(tree)
}
