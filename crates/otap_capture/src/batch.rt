//! A batch message of the OpenTelemetry Arrow Protocol, read where it lies.

ghost use Rattle.std.specs.Prelude.{◌≡◌, [], pos, ◌+◌, ◌^◌, ◌<◌, length, slice_get, IfOk, IfErr, OnOk};
ghost use Rattle.std.specs.Option.{option_map};
ghost use Rattle.std.specs.Iterator.{YieldsFirstBy, item_count};
ghost use Rattle.otlp_wire.specs.Wire.{entry, value_of};
ghost use Rattle.otlp_messages.specs.Table.{kind_of};
ghost use Rattle.otlp_messages.specs.Defects.{IsFine};
ghost use Rattle.otlp_messages.specs.Fine.{FineValue};
ghost use Rattle.otlp_messages.specs.Rows.{said, at, bytes_in, int32_in};
ghost use Rattle.otap_capture.specs.Batch.{content_of, payload_in, batch_content, defect_of, ReadsBatch, RefusesBatch};
ghost use Rattle.otap_capture.specs.BatchScanning.{Says, SaysMore, FieldFaults, IsOfBatch, numbered_part};

use otlp_messages::{Defect, Message, check};
use otlp_wire::{Field, Fields, Wire};
use std::marker::Model;
use thiserror::Error;

/// Why a message is no batch message, no batch status, or no event. Where several of these are true of it, any of them may be named.
#[derive(Clone, Copy, Debug, PartialEq, Eq, Error)]
pub enum BatchRefusal {
    /// A wire error, or a known field with another wire type, in the message or in a payload; or an event
    /// without its one field.
    #[error("the message is malformed")]
    BadMessage,
    /// A singular field occurs twice.
    #[error("a field of the message occurs twice")]
    Repeated,
    /// A text (a schema id, or the message of a status) is not UTF-8.
    #[error("a text is not UTF-8")]
    BadUtf8,
}

impl BatchRefusal {
    /// The defect of the message that it names.
    pub fn defect(self) -> Defect
        ensures { result ≡ defect_of self }
    {
        match self {
            BatchRefusal::BadMessage => Defect::BadMessage,
            BatchRefusal::Repeated => Defect::Repeated,
            BatchRefusal::BadUtf8 => Defect::BadUtf8,
        }
    }
}

/// A payload: the schema id of its stream, its payload type, and the Arrow IPC messages of its record.
#[derive(Clone, Copy, Debug, PartialEq, Eq)]
pub struct Payload<'a> {
    /// The name of the sub-stream that the record belongs to.
    pub schema_id: &'a str,
    /// The number of the payload type, known or not.
    pub kind: i32,
    /// The record: Arrow IPC messages, one after the other.
    pub bytes: &'a [u8],
}

/// A batch message, read where its bytes lie: its batch id and its payloads.
#[derive(Debug, Drop)]
pub struct Batch<'a> {
    id: i64,
    count: usize,
    bytes: &'a [u8],
}

impl<'a> Model for Batch<'a> {
    ghost use Rattle.otap_capture.specs.Batch.{BatchContent};

    ghost Value = { BatchContent };

    ghost use Rattle.otap_capture.specs.BatchInside.{message_content, HoldsMessage};

    ghost view = { message_content };

    ghost invariant = { HoldsMessage };
}

/// Reads a batch message (BatchArrowRecords), where it lies. It looks into the payloads and passes over
/// their records.
pub fn read_batch(bytes: &[u8]) -> Result<Batch<'_>, BatchRefusal>
    ensures read { IfOk result (ReadsBatch bytes.now) }
    ensures refused { IfErr result (RefusesBatch bytes.now) }
{
    let scan = scan_fields(bytes)?;
    Ok(Batch {
        id: scan.id,
        count: scan.count,
        bytes,
    })
}

impl<'a> Batch<'a> {
    /// The batch id.
    pub fn id(&self) -> i64
        ensures { result ≡ self.now.id }
    {
        self.id
    }

    /// How many payloads it has.
    pub fn count(&self) -> usize
        ensures { result ≡ length self.now.payloads }
    {
        self.count
    }

    /// The payload at this index, or `None` exactly where the index is not below [`Batch::count`]. It
    /// walks the payloads before it: [`Batch::payloads`] gives all of them in one walk.
    pub fn payload(&self, place: usize) -> Option<Payload<'a>>
        ensures { option_map content_of result ≡ slice_get self.now.payloads place }
    {
        self.payloads().nth(place)
    }

    /// The payloads, in order.
    pub fn payloads(&self) -> Payloads<'a>
        ensures { result ≡ self.now.payloads }
    {
        Payloads {
            fields: Fields::new(self.bytes),
        }
    }
}

/// The payloads of a batch that are left, in order.
#[derive(Debug, Drop)]
pub struct Payloads<'a> {
    fields: Fields<'a>,
}

impl<'a> Model for Payloads<'a> {
    ghost use Rattle.std.specs.Prelude.{List};
    ghost use Rattle.lists.specs.Payloads.{PayloadIn};

    ghost Value = { List PayloadIn };

    ghost use Rattle.otap_capture.specs.Batch.{payloads_in};
    ghost use Rattle.otap_capture.specs.BatchInside.{HasFinePayloads};

    ghost view = { λ p. payloads_in p.fields };

    ghost invariant = { λ p. HasFinePayloads p.fields };
}

impl<'a> Iterator for Payloads<'a> {
    type Item = Payload<'a>;

    ghost next_gives = { YieldsFirstBy content_of (λ left. left) };

    ghost remaining = { item_count (λ left. left) };

    #[tactic(auto, using(otlp_wire::proofs::FieldsOf::fields_of_nothing))]
    fn next(&mut self) -> Option<Payload<'a>> {
        'fields: while let Some(next) = self.fields.next() {
            let Ok(field) = next else {
                return None;
            };
            if let Some(part) = payload_in_field(&field) {
                return Some(payload_of(part));
            }
        }
        None
    }
}

/// The bytes of a payload, where the field of a batch is one.
fn payload_in_field<'a>(field: &Field<'a>) -> Option<&'a [u8]>
    ensures { option_map (λ part. part.now) result ≡ numbered_part 2 (entry field.now) }
{
    match (field.number, field.value) {
        (2, Wire::Bytes(part)) => Some(part),
        _ => None,
    }
}

/// What the fields of a batch say, as far as they were looked at: whether the id occurs, the id, and how many payloads.
#[derive(Clone, Copy)]
struct Scan {
    seen: bool,
    id: i64,
    count: usize,
}

/// Looks at each field of a batch once.
fn scan_fields(bytes: &[u8]) -> Result<Scan, BatchRefusal>
    ensures fine { IfOk result (λ scan. IsFine Message.BatchArrowRecords 0 bytes.now) }
    ensures says { IfOk result (Says (batch_content bytes.now)) }
    ensures refused { IfErr result (RefusesBatch bytes.now) }
{
    let mut scan = Scan {
        seen: false,
        id: 0,
        count: 0,
    };
    'fields: for next in Fields::new(bytes) {
        let Ok(field) = next else {
            return Err(BatchRefusal::BadMessage);
        };
        scan.take(&field)?;
    }
    Ok(scan)
}

impl Scan {
    /// Looks at one more field.
    #[inline(always)]
    fn take(&mut self, field: &Field<'_>) -> Result<(), BatchRefusal>
        requires { self.old.count + 1 < 2 ^ 64 }
        ensures fine { OnOk result (FineValue (kind_of Message.BatchArrowRecords field.now.number) 0 (value_of field.now.value)) }
        ensures says { OnOk result (SaysMore self.old self.new (entry field.now)) }
        ensures fault { IfErr result (FieldFaults self.old.seen (entry field.now)) }
    {
        match (field.number, field.value) {
            (1, _) if self.seen => return Err(BatchRefusal::Repeated),
            (1, Wire::Varint(id)) => {
                self.seen = true;
                self.id = id.cast_signed();
            }
            (2, Wire::Bytes(part)) => {
                if let Err(defect) = check(Message::ArrowPayload, 0, part) {
                    return Err(refusal_of(defect));
                }
                self.count += 1;
            }
            (1 | 2, _) => return Err(BatchRefusal::BadMessage),
            _ => {}
        }
        Ok(())
    }
}

/// What the fields of a payload without a defect say.
fn payload_of(part: &[u8]) -> Payload<'_>
    requires { IsFine Message.ArrowPayload 0 part.now }
    ensures { content_of result ≡ payload_in part.now }
{
    let parts = parts_of(part);
    let Ok(schema_id) = std::str::from_utf8(parts.schema_id) else {
        unreachable!()
    };
    Payload {
        schema_id,
        kind: parts.kind,
        bytes: parts.bytes,
    }
}

/// What the fields of a payload say, before the schema id is known to be a text.
#[derive(Clone, Copy)]
struct Parts<'a> {
    schema_id: &'a [u8],
    kind: i32,
    bytes: &'a [u8],
}

/// Looks at each field of a payload once.
fn parts_of(part: &[u8]) -> Parts<'_>
    ensures schema_id { result.schema_id.now ≡ said 1 bytes_in [] part.now }
    ensures kind { result.kind ≡ said 2 int32_in (pos 0) part.now }
    ensures bytes { result.bytes.now ≡ said 3 bytes_in [] part.now }
{
    let mut parts = Parts {
        schema_id: &[],
        kind: 0,
        bytes: &[],
    };
    'fields: for next in Fields::new(part) {
        let Ok(field) = next else {
            return parts;
        };
        parts = parts_with(parts, field);
    }
    parts
}

/// The parts after one more field.
fn parts_with<'a>(parts: Parts<'a>, field: Field<'a>) -> Parts<'a>
    ensures schema_id { result.schema_id.now ≡ at 1 bytes_in parts.entry.schema_id.now (entry field.entry) }
    ensures kind { result.kind ≡ at 2 int32_in parts.entry.kind (entry field.entry) }
    ensures bytes { result.bytes.now ≡ at 3 bytes_in parts.entry.bytes.now (entry field.entry) }
{
    let Parts {
        schema_id,
        kind,
        bytes,
    } = parts;
    match (field.number, field.value) {
        (1, Wire::Bytes(schema_id)) => Parts {
            schema_id,
            kind,
            bytes,
        },
        (2, Wire::Varint(value)) => Parts {
            schema_id,
            kind: ((value % (1 << 32)) as u32).cast_signed(),
            bytes,
        },
        (3, Wire::Bytes(bytes)) => Parts {
            schema_id,
            kind,
            bytes,
        },
        _ => parts,
    }
}

/// The refusal that names the defect, one of those that can be in a batch message, a status or an event.
pub(crate) fn refusal_of(defect: Defect) -> BatchRefusal
    requires { IsOfBatch defect }
    ensures { defect_of result ≡ defect }
{
    match defect {
        Defect::BadMessage => BatchRefusal::BadMessage,
        Defect::Repeated => BatchRefusal::Repeated,
        Defect::BadUtf8 => BatchRefusal::BadUtf8,
        Defect::BadLength | Defect::Unsupported | Defect::TooDeep => unreachable!(),
    }
}
