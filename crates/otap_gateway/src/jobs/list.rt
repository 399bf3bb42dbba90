//! `list`: one line for each frame.
ghost use Rattle.std.specs.Prelude.{◌≡◌, [], ◌++◌, IfOk, OnOk};
ghost use Rattle.std.specs.List.{flat_map};
ghost use Rattle.otap_capture.specs.Batch.{content_of};
ghost use Rattle.otap_capture.specs.Capture.{frame_of};
ghost use Rattle.otap_gateway.specs.declared.jobs.command.Command.TheVariants as command;
ghost use Rattle.otap_gateway.specs.Listing.{ListsFrame, ListsMessage, batch_line, payload_text};

use crate::jobs::job::Job;
use crate::jobs::refused::{refused_unread, unread_name};
use crate::jobs::reply::Reply;
use crate::texts::lines::{push_head, reset_line};
use crate::texts::numbers::{push_number, push_signed};
use otap_capture::{Batch, Frame, Payload, read_batch};
use std::alloc::{AllocError, Global};

/// The job `list`. It takes each frame by itself, and writes each line into the memory of the one before.
#[derive(Drop)]
pub(crate) struct ListJob {
    line: Vec<u8>,
}

impl ListJob {
    pub(crate) fn new(alloc: Global) -> ListJob
        ensures { result.line.items ≡ [] }
    {
        ListJob {
            line: Vec::new(alloc),
        }
    }
}

impl Job for ListJob {
    ghost command = { λ s. command.List };

    ghost stands = { λ s frames replies. Unit {0} };

    fn step(&mut self, alloc: Global, number: u64, frame: &Frame<'_>) -> Result<Reply, AllocError> {
        let line = std::mem::replace(&mut self.line, Vec::new(alloc));
        list_frame(alloc, line, number, frame)
    }

    fn take_back(&mut self, reply: Reply) {
        self.line = reply.into_out().finish();
    }
}

fn list_frame(
    alloc: Global,
    line: Vec<u8>,
    number: u64,
    frame: &Frame<'_>,
) -> Result<Reply, AllocError>
    ensures { IfOk result (ListsFrame number (frame_of frame.now)) }
{
    match frame {
        Frame::Message(bytes) => list_message(alloc, line, number, bytes),
        Frame::Packed => refused_unread(alloc, number, "Compressed"),
        Frame::Reset => Ok(Reply::printed(alloc, reset_line(alloc, number)?)),
    }
}

fn list_message(
    alloc: Global,
    line: Vec<u8>,
    number: u64,
    bytes: &[u8],
) -> Result<Reply, AllocError>
    ensures { IfOk result (ListsMessage number bytes.now) }
{
    match read_batch(bytes) {
        Ok(batch) => Ok(Reply::on_out(alloc, batch_line(line, number, &batch)?)),
        Err(refusal) => refused_unread(alloc, number, unread_name(refusal)),
    }
}

/// The line for a batch, in the memory of an earlier line.
fn batch_line(mut line: Vec<u8>, number: u64, batch: &Batch<'_>) -> Result<Vec<u8>, AllocError>
    ensures { IfOk result (λ text. text.items ≡ batch_line number batch.now) }
{
    line.clear();
    push_head(&mut line, number, batch.id())?;
    push_payloads(&mut line, batch)?;
    line.push(b'\n')?;
    Ok(line)
}

/// Appends each payload. A batch that has none isn't looked at again.
fn push_payloads(line: &mut Vec<u8>, batch: &Batch<'_>) -> Result<(), AllocError>
    ensures { OnOk result (line.new.items ≡ line.old.items ++ flat_map payload_text batch.now.payloads) }
{
    if batch.count() == 0 {
        return Ok(());
    }
    'payloads: for payload in batch.payloads() {
        push_payload(line, &payload)?;
    }
    Ok(())
}

fn push_payload(line: &mut Vec<u8>, payload: &Payload<'_>) -> Result<(), AllocError>
    ensures { OnOk result (line.new.items ≡ line.old.items ++ payload_text (content_of payload.now)) }
{
    line.push(b' ')?;
    push_signed(line, i64::from(payload.kind))?;
    line.push(b':')?;
    push_number(line, payload.bytes.len() as u64)
}
