//! The payloads of a batch, taken after those of the accepted batches of its segment.
ghost use Rattle.std.specs.Prelude.{◌≡◌, None, List, IfErr, IfOk, OnOk};
ghost use Rattle.lists.specs.Payloads.{PayloadIn};
ghost use Rattle.otap_cells.specs.Payload.{kinds_of};
ghost use Rattle.otap_cells.specs.Weights.{weight_of_tables};
ghost use Rattle.otap_consume.specs.declared.not_taken.NotTaken.TheVariants.{Defect};
ghost use Rattle.otap_consume.specs.Defects.{Refuses};
ghost use Rattle.otap_consume.specs.Opening.{IsOverLimit, IsWeighed, OpensAfter};
ghost use Rattle.otap_consume.specs.Segments.{CanShow};
ghost use Rattle.otap_consume.specs.Untaken.{SaysDefect};
ghost use Rattle.otap_consume.specs.Streams.{AreAfter, kinds_in};

use crate::ids::check_ids;
use crate::not_taken::NotTaken;
use crate::payload_types::check_types;
use crate::records::take_records;
use crate::refusal::Cause;
use crate::sizes::{check_sizes, hold_too_much};
use crate::stream::Stream;
use crate::views::views;
use otap_capture::Batch;
use otap_cells::TableSet;
use otap_columns::RowsView;
use otlp_model::Signal;
use std::alloc::Global;

/// Takes the payloads of a batch as far as their records, stage by stage, each over all of them. After a refusal the streams
/// are of no use.
pub(crate) fn open_payloads(
    alloc: Global,
    signal: Signal,
    streams: &mut [Stream],
    batch: &Batch<'_>,
) -> Result<(), NotTaken>
    requires { kinds_in streams.old ≡ kinds_of signal }
    ensures opens { OnOk result ((past : List PayloadIn) → AreAfter past streams.old
        → OpensAfter signal past batch.now.payloads streams.new) }
    ensures refuses { IfErr result (λ stop. (past : List PayloadIn) → AreAfter past streams.old
        → SaysDefect (Refuses signal past batch.now.payloads) stop) }
    ensures shows { OnOk result (CanShow streams.new batch.now.payloads) }
    ensures kinds { kinds_in streams.new ≡ kinds_in streams.old }
{
    check_types(signal, batch)?;
    check_ids(alloc, streams, batch)?;
    take_records(alloc, streams, batch)
}

/// The tables of a batch whose records were taken last, where they are within the limits.
pub(crate) fn within<'v>(
    alloc: Global,
    signal: Signal,
    streams: &'v [Stream],
    batch: &Batch<'v>,
) -> Result<TableSet<RowsView<'v>>, NotTaken>
    requires shows { CanShow streams.now batch.now.payloads }
    requires kinds { kinds_in streams.now ≡ kinds_of signal }
    ensures within { IfOk result (λ set. IsWeighed signal streams.now batch.now.payloads (record { tables = set; rows = weight_of_tables set })) }
    ensures stops { IfErr result (IsOverLimit signal streams.now batch.now.payloads) }
{
    let tables = views(alloc, streams, batch)?;
    match check_sizes(signal, &tables) {
        Ok(()) if hold_too_much(streams) => Err(of_size(Cause::HeldTooMuch)),
        Ok(()) => Ok(tables),
        Err(cause) => Err(of_size(cause)),
    }
}

/// A limit that is exceeded names no payload.
pub(crate) fn of_size(cause: Cause) -> NotTaken
    ensures { result ≡ Defect cause None }
{
    NotTaken::Defect {
        cause,
        payload: None,
    }
}
