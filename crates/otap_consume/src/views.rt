//! The tables of a batch, as views of its records.
ghost use Rattle.std.specs.Prelude.{◌≡◌, IfOk, find};
ghost use Rattle.std.specs.Option.{option_copied};
ghost use Rattle.otap_capture.specs.Batch.{content_of};
ghost use Rattle.otap_consume.specs.Segments.{CanShow};
ghost use Rattle.otap_consume.specs.Views.{IsViewOf, AreViewsOf, Shown, is_stream_of};

use crate::stream::Stream;
use otap_capture::{Batch, Payload};
use otap_cells::{Kind, TableSet};
use otap_columns::RowsView;
use std::alloc::{AllocError, Global};

/// Views of the records of a batch, which the streams took last, in the order of the payloads.
pub(crate) fn views<'v>(
    alloc: Global,
    streams: &'v [Stream],
    batch: &Batch<'v>,
) -> Result<TableSet<RowsView<'v>>, AllocError>
    requires { CanShow streams.now batch.now.payloads }
    ensures { IfOk result (λ set. AreViewsOf streams.now batch.now.payloads set) }
{
    let mut tables = Vec::new(alloc);
    'payloads: for payload in batch.payloads() {
        tables.push(view(streams, &payload))?;
    }
    Ok(TableSet { tables })
}

fn view<'v>(streams: &'v [Stream], payload: &Payload<'v>) -> (Kind, RowsView<'v>)
    requires { Shown streams.now (content_of payload.now) }
    ensures view { IsViewOf streams.now (content_of payload.now) result.1 }
    ensures beside { result.1.kind ≡ result.0 }
{
    let Some(stream) = stream_of(streams, payload.kind) else {
        unreachable!()
    };
    let Some(reader) = stream.reader() else {
        unreachable!()
    };
    (stream.kind(), reader.view(payload.bytes))
}

/// The stream of a payload type.
fn stream_of(streams: &[Stream], kind: i32) -> Option<&Stream>
    ensures { option_copied result ≡ find (is_stream_of kind) streams.now }
{
    'streams: for stream in streams {
        if stream.is_of(kind) {
            return Some(stream);
        }
    }
    None
}
