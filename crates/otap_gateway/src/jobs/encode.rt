//! `encode`: the batch message of each request.
ghost use Rattle.std.specs.Prelude.{[], ◌≡◌, ◌<◌, ◌≤◌, ◌*◌, IfOk};
ghost use Rattle.otap_capture.specs.Capture.{Message, frame_of};
ghost use Rattle.otap_produce.specs.Exporters.{StandsFor};
ghost use Rattle.otap_produce.specs.Limits.{batch_limit};
ghost use Rattle.otlp_codec.specs.Limits.{weight_for_byte};
ghost use Rattle.otlp_model.specs.Profile.{IsProfile};
ghost use Rattle.otlp_model.specs.Real.{IsReal};
ghost use Rattle.otlp_model.specs.Weight.{weight_of};
ghost use Rattle.otlp_model.specs.Telemetry.{signal_of};
ghost use Rattle.otap_gateway.specs.declared.jobs.command.Command.TheVariants as command;
ghost use Rattle.otap_signals.specs.BySignal.{rows_by, meaning_by};
ghost use Rattle.otap_gateway.specs.Encoding.{encoded, Encodes};
ghost use Rattle.otap_gateway.specs.EncodingSteps.{EncodesFrame, EncodesRequest, IsEncoding, HasEncoded};
ghost use Rattle.otap_gateway.specs.JobStates.{HasRepliedBy};

use crate::jobs::job::Job;
use crate::jobs::lightness::is_light;
use crate::jobs::refused_requests::{refusal_name, refused};
use crate::jobs::reply::Reply;
use otap_capture::Frame;
use otap_produce::{Exporter, ProduceRefusal};
use otap_transit::laws::what_is_sent_arrives;
use otlp_codec::{RequestReader, read_is_light, read_is_real};
use otlp_model::{Request, Signal};
use std::alloc::{AllocError, Global};

/// The job `encode` of a signal.
#[derive(Drop)]
pub(crate) struct EncodeJob {
    reader: RequestReader,
    exporter: Exporter,
}

impl EncodeJob {
    pub(crate) fn new(alloc: Global, signal: Signal) -> Result<EncodeJob, AllocError>
        ensures { IfOk result (λ job. StandsFor (rows_by signal) [] [] job.exporter) }
    {
        let exporter = Exporter::new(alloc, signal)?;
        let reader = RequestReader::new(alloc);
        Ok(EncodeJob { reader, exporter })
    }
}

impl Job for EncodeJob {
    ghost command = { λ s. command.Encode s.exporter.signal };

    ghost stands = { λ s. HasRepliedBy (Encodes (rows_by s.exporter.signal) (meaning_by s.exporter.signal)) encoded (HasEncoded (rows_by s.exporter.signal) s.exporter) };

    fn step(&mut self, alloc: Global, number: u64, frame: &Frame<'_>) -> Result<Reply, AllocError> {
        what_is_sent_arrives();
        encode_frame(alloc, &mut self.reader, &mut self.exporter, number, frame)
    }
}

fn encode_frame(
    alloc: Global,
    reader: &mut RequestReader,
    exporter: &mut Exporter,
    number: u64,
    frame: &Frame<'_>,
) -> Result<Reply, AllocError>
    requires history { IsEncoding (rows_by exporter.old.signal) exporter.old }
    requires few { exporter.old.batches < batch_limit }
    ensures encodes { IfOk result (EncodesFrame (rows_by exporter.old.signal) exporter.old exporter.new number (frame_of frame.now)) }
    ensures signal { exporter.new.signal ≡ exporter.old.signal }
{
    match frame {
        Frame::Message(bytes) => encode_message(alloc, reader, exporter, number, bytes),
        Frame::Packed => refused(alloc, number, "Compressed"),
        Frame::Reset => {
            exporter.reset();
            Reply::reset(alloc)
        }
    }
}

fn encode_message(
    alloc: Global,
    reader: &mut RequestReader,
    exporter: &mut Exporter,
    number: u64,
    bytes: &[u8],
) -> Result<Reply, AllocError>
    requires history { IsEncoding (rows_by exporter.old.signal) exporter.old }
    requires few { exporter.old.batches < batch_limit }
    ensures encodes { IfOk result (EncodesFrame (rows_by exporter.old.signal) exporter.old exporter.new number (Message bytes.now)) }
    ensures signal { exporter.new.signal ≡ exporter.old.signal }
{
    match reader.read(exporter.signal(), bytes) {
        Ok(request) => {
            read_is_light();
            read_is_real();
            let reply = encode_request(alloc, exporter, number, &request, bytes.len())?;
            reader.take_back(request);
            Ok(reply)
        }
        Err(refusal) => refused(alloc, number, refusal_name(refusal)?),
    }
}

/// The request was read of `len` bytes.
fn encode_request(
    alloc: Global,
    exporter: &mut Exporter,
    number: u64,
    request: &Request,
    len: usize,
) -> Result<Reply, AllocError>
    requires history { IsEncoding (rows_by exporter.old.signal) exporter.old }
    requires few { exporter.old.batches < batch_limit }
    requires of_signal { signal_of request.now ≡ exporter.old.signal }
    requires profile { IsProfile request.now }
    requires light { weight_of request.now ≤ weight_for_byte * len }
    requires real { IsReal request.now }
    ensures encodes { IfOk result (EncodesRequest (rows_by exporter.old.signal) exporter.old exporter.new number request.now) }
    ensures signal { exporter.new.signal ≡ exporter.old.signal }
{
    match exporter.encode_weighed(request, is_light(len)) {
        Ok(message) => Reply::frame(alloc, &message),
        Err(ProduceRefusal::TooManyItems) => refused(alloc, number, "TooManyItems"),
        Err(ProduceRefusal::TooHeavy) => refused(alloc, number, "TooHeavy"),
        Err(ProduceRefusal::Broken) => unreachable!(),
        Err(ProduceRefusal::Memory(error)) => Err(error),
    }
}
