//! `schema`: the schemas that the payloads of each batch begin with.
ghost use Rattle.std.specs.Prelude.{◌≡◌, ◌++◌, IfOk, IfErr, OnOk};
ghost use Rattle.otap_capture.specs.Batch.{content_of};
ghost use Rattle.otap_capture.specs.Capture.{Message, frame_of};
ghost use Rattle.otap_gateway.specs.declared.jobs.command.Command.TheVariants as command;
ghost use Rattle.otap_gateway.specs.declared.jobs.schema.RecordRefusal.TheVariants.{Memory};
ghost use Rattle.arrow_ipc.specs.Faults.{Refuses};
ghost use Rattle.otap_gateway.specs.Openings.{BeginsWell};
ghost use Rattle.otap_gateway.specs.Records.{RefusesRecords, RefusesPayload, RepliesTo};
ghost use Rattle.otap_gateway.specs.Schemas.{SchemasFrame, SchemasBatch, SchemasRecords, BeginWell, batch_lines, payload_lines, opening_text, refused_types};

use crate::jobs::job::Job;
use crate::jobs::opening::opening;
use crate::jobs::refused::{refused_batch, refused_unread, unread_name};
use crate::jobs::reply::Reply;
use crate::texts::fields::push_fields;
use crate::texts::ipc_causes::fault_name;
use crate::texts::lines::{push_head_line, push_payload_head, reset_line};
use arrow_ipc::IpcFault;
use arrow_schema::SchemaSpec;
use otap_capture::{Batch, Frame, Payload, read_batch};
use otap_consume::{TypesRefusal, check_types};
use otlp_model::Signal;
use std::alloc::{AllocError, Global};
use thiserror::Error;

/// The job `schema` of a signal. It takes each frame by itself.
#[derive(Clone, Copy)]
pub(crate) struct SchemaJob {
    signal: Signal,
}

impl SchemaJob {
    pub(crate) fn new(signal: Signal) -> SchemaJob
        ensures { result.signal ≡ signal }
    {
        SchemaJob { signal }
    }
}

impl Job for SchemaJob {
    ghost command = { λ s. command.Schema s.signal };

    ghost stands = { λ s frames replies. Unit {0} };

    fn step(&mut self, alloc: Global, number: u64, frame: &Frame<'_>) -> Result<Reply, AllocError> {
        schema_frame(alloc, self.signal, number, frame)
    }
}

fn schema_frame(
    alloc: Global,
    signal: Signal,
    number: u64,
    frame: &Frame<'_>,
) -> Result<Reply, AllocError>
    ensures { IfOk result (SchemasFrame signal number (frame_of frame.now)) }
{
    match frame {
        Frame::Message(bytes) => schema_message(alloc, signal, number, bytes),
        Frame::Packed => refused_unread(alloc, number, "Compressed"),
        Frame::Reset => Ok(Reply::printed(alloc, reset_line(alloc, number)?)),
    }
}

fn schema_message(
    alloc: Global,
    signal: Signal,
    number: u64,
    bytes: &[u8],
) -> Result<Reply, AllocError>
    ensures { IfOk result (SchemasFrame signal number (Message bytes.now)) }
{
    match read_batch(bytes) {
        Ok(batch) => schema_batch(alloc, signal, number, &batch),
        Err(refusal) => refused_unread(alloc, number, unread_name(refusal)),
    }
}

fn schema_batch(
    alloc: Global,
    signal: Signal,
    number: u64,
    batch: &Batch<'_>,
) -> Result<Reply, AllocError>
    ensures { IfOk result (SchemasBatch signal number batch.now) }
{
    match check_types(signal, batch) {
        Ok(()) => schemas(alloc, number, batch),
        Err(refusal) => refused_types(alloc, number, batch.id(), refusal),
    }
}

fn schemas(alloc: Global, number: u64, batch: &Batch<'_>) -> Result<Reply, AllocError>
    ensures { IfOk result (SchemasRecords number batch.now) }
{
    match schemas_text(alloc, number, batch) {
        Ok(text) => Ok(Reply::on_out(alloc, text)),
        Err(refusal) => refused_record(alloc, number, batch.id(), refusal),
    }
}

fn refused_types(
    alloc: Global,
    number: u64,
    id: i64,
    refusal: TypesRefusal,
) -> Result<Reply, AllocError>
    ensures { IfOk result (λ reply. reply ≡ refused_types number id refusal) }
{
    match refusal {
        TypesRefusal::PayloadType(kind) => {
            refused_batch(alloc, number, id, 2, "PayloadType", Some(kind))
        }
        TypesRefusal::PayloadTwice(kind) => {
            refused_batch(alloc, number, id, 2, "PayloadTwice", Some(kind))
        }
    }
}

fn refused_record(
    alloc: Global,
    number: u64,
    id: i64,
    refusal: RecordRefusal,
) -> Result<Reply, AllocError>
    ensures { IfOk result (RepliesTo refusal number id) }
{
    match refusal {
        RecordRefusal::Ipc { payload, fault } => {
            refused_batch(alloc, number, id, 3, fault_name(fault)?, Some(payload))
        }
        RecordRefusal::Memory(error) => Err(error),
    }
}

/// Why the schemas of a batch can't be read.
#[derive(Debug, Drop, Error)]
enum RecordRefusal {
    /// No message can be read at the start of the record of this payload type.
    #[error("the record of type {payload} begins with no message: {fault}")]
    Ipc { payload: i32, fault: IpcFault },
    /// Memory ran out.
    #[error("out of memory")]
    Memory(AllocError),
}

impl From<AllocError> for RecordRefusal {
    ghost from_gives = { λ error refusal. refusal ≡ Memory error };

    fn from(error: AllocError) -> RecordRefusal {
        RecordRefusal::Memory(error)
    }
}

/// The lines for a batch.
fn schemas_text(alloc: Global, number: u64, batch: &Batch<'_>) -> Result<Vec<u8>, RecordRefusal>
    ensures text { IfOk result (λ out. out.items ≡ batch_lines number batch.now) }
    ensures well { IfOk result (λ out. BeginWell batch.now.payloads) }
    ensures fault { IfErr result (RefusesRecords batch.now.payloads) }
{
    let mut out = Vec::new(alloc);
    push_head_line(&mut out, number, batch.id())?;
    'payloads: for payload in batch.payloads() {
        push_payload(alloc, &mut out, &payload)?;
    }
    Ok(out)
}

fn push_payload(
    alloc: Global,
    out: &mut Vec<u8>,
    payload: &Payload<'_>,
) -> Result<(), RecordRefusal>
    ensures text { OnOk result (out.new.items ≡ out.old.items ++ payload_lines (content_of payload.now)) }
    ensures well { OnOk result (BeginsWell payload.now.bytes.now) }
    ensures fault { IfErr result (RefusesPayload (content_of payload.now)) }
{
    match opening(alloc, payload.bytes) {
        Ok(schema) => {
            push_opening(alloc, out, payload, schema)?;
            Ok(())
        }
        Err(fault) => Err(record_refusal(payload, fault)),
    }
}

fn record_refusal(payload: &Payload<'_>, fault: IpcFault) -> RecordRefusal
    requires { Refuses payload.now.bytes.now fault }
    ensures { RefusesPayload (content_of payload.now) result }
{
    match fault {
        IpcFault::Memory(error) => RecordRefusal::Memory(error),
        fault => RecordRefusal::Ipc {
            payload: payload.kind,
            fault,
        },
    }
}

fn push_opening(
    alloc: Global,
    out: &mut Vec<u8>,
    payload: &Payload<'_>,
    schema: Option<SchemaSpec>,
) -> Result<(), AllocError>
    ensures { OnOk result (out.new.items ≡ out.old.items ++ opening_text (content_of payload.now) schema) }
{
    push_payload_head(out, payload)?;
    match schema {
        None => out.extend_from_slice(b" goes on\n"),
        Some(schema) => {
            out.push(b'\n')?;
            push_fields(alloc, out, &[], schema.as_slice())
        }
    }
}
