//! `show`: the cells of each batch as they are stored.
ghost use Rattle.std.specs.Prelude.{◌≡◌, ◌++◌, length, IfOk, OnOk};
ghost use Rattle.otap_capture.specs.Batch.{content_of};
ghost use Rattle.otap_capture.specs.Capture.{frame_of};
ghost use Rattle.otap_consume.specs.Segments.{IsNew, IsTaken, TakesIf};
ghost use Rattle.otap_gateway.specs.declared.jobs.command.Command.TheVariants as command;
ghost use Rattle.otap_gateway.specs.JobStates.{HasShown};
ghost use Rattle.otap_gateway.specs.Showing.{rows_line, payload_rows_text, batch_text};
ghost use Rattle.otap_gateway.specs.ShowingSeen.{ShowsSeen, ShowsTaken};

use crate::jobs::job::Job;
use crate::jobs::receiving::refused;
use crate::jobs::reply::Reply;
use crate::texts::lines::{push_head_line, push_payload_head, reset_line};
use crate::texts::numbers::push_number;
use crate::texts::rows::push_rows;
use otap_capture::{Batch, Frame, Payload, read_batch};
use otap_cells::{Rows, TableSet};
use otap_consume::{Seen, Segment};
use otlp_model::Signal;
use std::alloc::{AllocError, Global};

/// The job `show` of a signal. It keeps the sub-streams of the segment that are open.
#[derive(Drop)]
pub(crate) struct ShowJob {
    segment: Segment,
}

impl ShowJob {
    pub(crate) fn new(alloc: Global, signal: Signal) -> Result<ShowJob, AllocError>
        ensures { IfOk result (λ job. IsNew signal job.segment) }
    {
        let segment = Segment::new(alloc, signal)?;
        Ok(ShowJob { segment })
    }
}

impl Job for ShowJob {
    ghost command = { λ s. command.Show s.segment.signal };

    ghost stands = { λ s. HasShown s.segment };

    fn step(&mut self, alloc: Global, number: u64, frame: &Frame<'_>) -> Result<Reply, AllocError> {
        let returned = self.segment.take(frame)?;
        reply_to(alloc, number, &self.segment, frame, returned)
    }
}

/// The reply to what the segment gave for a frame.
fn reply_to(
    alloc: Global,
    number: u64,
    segment: &Segment,
    frame: &Frame<'_>,
    returned: Seen,
) -> Result<Reply, AllocError>
    requires { TakesIf (frame_of frame.now) segment.now returned }
    ensures { IfOk result (ShowsSeen (frame_of frame.now) segment.now number returned) }
{
    match returned {
        Seen::Batch { .. } => show_batch(alloc, number, segment, frame),
        Seen::Refused(refusal) => refused(alloc, number, refusal),
        Seen::Reset => Ok(Reply::printed(alloc, reset_line(alloc, number)?)),
    }
}

/// The reply to a batch, which the segment took last.
fn show_batch(
    alloc: Global,
    number: u64,
    segment: &Segment,
    frame: &Frame<'_>,
) -> Result<Reply, AllocError>
    requires { IsTaken (frame_of frame.now) segment.now }
    ensures { IfOk result (ShowsTaken (frame_of frame.now) segment.now number) }
{
    let Frame::Message(bytes) = frame else {
        unreachable!()
    };
    let Ok(batch) = read_batch(bytes) else {
        unreachable!()
    };
    let set = segment.tables(alloc, &batch)?;
    let text = batch_text(alloc, number, &batch, &set)?;
    Ok(Reply::on_out(alloc, text))
}

fn batch_text<R: Rows>(
    alloc: Global,
    number: u64,
    batch: &Batch<'_>,
    set: &TableSet<R>,
) -> Result<Vec<u8>, AllocError>
    requires { length set.now ≡ length batch.now.payloads }
    ensures { IfOk result (λ text. text.items ≡ batch_text number batch.now set.now) }
{
    let mut out = Vec::new(alloc);
    push_head_line(&mut out, number, batch.id())?;
    let mut payloads = batch.payloads();
    'tables: for (_, rows) in &set.tables {
        let Some(payload) = payloads.next() else {
            unreachable!()
        };
        push_payload(&mut out, &payload, rows)?;
    }
    Ok(out)
}

fn push_payload<R: Rows>(
    out: &mut Vec<u8>,
    payload: &Payload<'_>,
    rows: &R,
) -> Result<(), AllocError>
    ensures { OnOk result (out.new.items ≡ out.old.items ++ payload_rows_text (content_of payload.now) (R.table rows.now)) }
{
    push_rows_line(out, payload, rows.rows())?;
    push_rows(out, rows)
}

fn push_rows_line(out: &mut Vec<u8>, payload: &Payload<'_>, rows: u64) -> Result<(), AllocError>
    ensures { OnOk result (out.new.items ≡ out.old.items ++ rows_line (content_of payload.now) rows) }
{
    push_payload_head(out, payload)?;
    out.extend_from_slice(b" rows ")?;
    push_number(out, rows)?;
    out.push(b'\n')?;
    Ok(())
}
