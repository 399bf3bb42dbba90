//! The records of the payloads of a batch.
ghost use Rattle.std.specs.Prelude.{◌≡◌, List, IfErr, OnOk};
ghost use Rattle.lists.specs.Payloads.{PayloadIn};
ghost use Rattle.otlp_model.specs.declared.request.Signal.{Signal};
ghost use Rattle.otap_cells.specs.Payload.{kinds_of};
ghost use Rattle.otap_capture.specs.Batch.{content_of};
ghost use Rattle.otap_consume.specs.Records.{EachTakes, OneRefuses, TakesPayloads};
ghost use Rattle.otap_consume.specs.Streams.{AreAfter, kinds_in};
ghost use Rattle.otap_consume.specs.Untaken.{SaysDefect, IsOfRecord, IsUntakenFor};

use crate::not_taken::{NotTaken, defect};
use crate::refusal::Cause;
use crate::stream::Stream;
use otap_capture::{Batch, Payload};
use otap_columns::ColumnRefusal;
use std::alloc::Global;

/// Takes the payloads of a batch, in order. After a refusal the streams are of no use.
pub(crate) fn take_records(
    alloc: Global,
    streams: &mut [Stream],
    batch: &Batch<'_>,
) -> Result<(), NotTaken>
    ensures takes { OnOk result (TakesPayloads streams.old batch.now.payloads streams.new) }
    ensures stops { IfErr result (λ stop. (signal : Signal) (past : List PayloadIn) → kinds_in streams.old ≡ kinds_of signal
        → AreAfter past streams.old → SaysDefect (IsOfRecord signal past batch.now.payloads) stop) }
    ensures kinds { kinds_in streams.new ≡ kinds_in streams.old }
{
    'payloads: for payload in batch.payloads() {
        if let Err(refusal) = take_payload(alloc, streams, &payload) {
            return Err(stop_of(refusal, &payload));
        }
    }
    Ok(())
}

/// Each stream takes the payload: those of other types pass it over.
fn take_payload(
    alloc: Global,
    streams: &mut [Stream],
    payload: &Payload<'_>,
) -> Result<(), ColumnRefusal>
    ensures takes { OnOk result (EachTakes streams.old (content_of payload.now) streams.new) }
    ensures refuses { IfErr result (OneRefuses streams.old (content_of payload.now)) }
    ensures kinds { kinds_in streams.new ≡ kinds_in streams.old }
{
    'streams: for place in 0..streams.len() {
        streams[place].take(alloc, payload)?;
    }
    Ok(())
}

fn stop_of(refusal: ColumnRefusal, payload: &Payload<'_>) -> NotTaken
    ensures { IsUntakenFor refusal payload.now.kind result }
{
    match refusal {
        ColumnRefusal::Memory(error) => NotTaken::Memory(error),
        refusal => defect(Cause::Column(refusal), payload.kind),
    }
}
