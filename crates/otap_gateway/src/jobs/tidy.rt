//! `tidy`: each request in canonical spelling.
ghost use Rattle.std.specs.Prelude.{◌≡◌, ◌≤◌, ◌<◌, ◌*◌, ◌↔◌, IsTrue, IfOk};
ghost use Rattle.otap_capture.specs.Capture.{frame_of};
ghost use Rattle.otlp_codec.specs.Limits.{weight_for_byte};
ghost use Rattle.otlp_model.specs.Limits.{weight_limit};
ghost use Rattle.otlp_model.specs.Weight.{weight_of};
ghost use Rattle.otap_gateway.specs.declared.jobs.command.Command.TheVariants as command;
ghost use Rattle.otap_gateway.specs.Tidying.{TidiesFrame, TidiesMessage, tidied};

use crate::jobs::job::Job;
use crate::jobs::lightness::is_light;
use crate::jobs::refused_requests::{refusal_name, refused};
use crate::jobs::reply::Reply;
use crate::jobs::spare::Spare;
use otap_capture::{FRAME_HEAD, Frame};
use otlp_codec::{RequestReader, put_request, read_is_light};
use otlp_model::{MAX_ITEMS, MAX_TREE_WEIGHT, Request, Signal, items, weight};
use std::alloc::{AllocError, Global};

/// The job `tidy` of a signal. It takes each frame by itself, reads each request into lists of earlier ones, and writes it
/// into the memory of an earlier reply.
#[derive(Drop)]
pub(crate) struct TidyJob {
    signal: Signal,
    reader: RequestReader,
    spare: Spare,
}

impl TidyJob {
    pub(crate) fn new(alloc: Global, signal: Signal) -> TidyJob
        ensures { result.signal ≡ signal }
    {
        TidyJob {
            signal,
            reader: RequestReader::new(alloc),
            spare: Spare::new(),
        }
    }
}

impl Job for TidyJob {
    ghost command = { λ s. command.Tidy s.signal };

    ghost stands = { λ s frames replies. Unit {0} };

    fn step(&mut self, alloc: Global, number: u64, frame: &Frame<'_>) -> Result<Reply, AllocError> {
        tidy_frame(
            alloc,
            self.signal,
            number,
            frame,
            &mut self.reader,
            &mut self.spare,
        )
    }

    fn take_back(&mut self, reply: Reply) {
        self.spare.keep(reply);
    }
}

fn tidy_frame(
    alloc: Global,
    signal: Signal,
    number: u64,
    frame: &Frame<'_>,
    reader: &mut RequestReader,
    spare: &mut Spare,
) -> Result<Reply, AllocError>
    ensures { IfOk result (TidiesFrame signal number (frame_of frame.now)) }
{
    match frame {
        Frame::Message(bytes) => tidy_message(alloc, signal, number, bytes, reader, spare),
        Frame::Packed => refused(alloc, number, "Compressed"),
        Frame::Reset => Reply::reset(alloc),
    }
}

fn tidy_message(
    alloc: Global,
    signal: Signal,
    number: u64,
    bytes: &[u8],
    reader: &mut RequestReader,
    spare: &mut Spare,
) -> Result<Reply, AllocError>
    ensures { IfOk result (TidiesMessage signal number bytes.now) }
{
    match reader.read(signal, bytes) {
        Ok(request) => {
            read_is_light();
            let reply = tidy_request(alloc, number, &request, bytes.len(), spare)?;
            reader.take_back(request);
            Ok(reply)
        }
        Err(refusal) => refused(alloc, number, refusal_name(refusal)?),
    }
}

/// What is written is about as long as `len`, the length of what the request was read of.
fn tidy_request(
    alloc: Global,
    number: u64,
    request: &Request,
    len: usize,
    spare: &mut Spare,
) -> Result<Reply, AllocError>
    requires light { weight_of request.now ≤ weight_for_byte * len }
    ensures { IfOk result (λ reply. reply ≡ tidied number request.now) }
{
    if items(request) > MAX_ITEMS {
        return refused(alloc, number, "TooManyItems");
    }
    if is_too_heavy(request, len) {
        return refused(alloc, number, "TooHeavy");
    }
    let mut spelling = spare.take(alloc);
    spelling.reserve(len.saturating_add(FRAME_HEAD))?;
    put_request(&mut spelling, request)?;
    Reply::message(alloc, spelling)
}

/// Whether a request that was read of `len` bytes weighs too much. Few bytes can't, so most requests aren't weighed.
fn is_too_heavy(request: &Request, len: usize) -> bool
    requires light { weight_of request.now ≤ weight_for_byte * len }
    ensures { IsTrue result ↔ (weight_limit < weight_of request.now) }
{
    !is_light(len) && weight(request) > MAX_TREE_WEIGHT
}
