//! Writes batch messages of the OpenTelemetry Arrow Protocol.

ghost use Rattle.std.specs.Prelude.{◌≡◌, ◌+◌, ◌<◌, ◌≤◌, ◌∷◌, [], ◌++◌, length, vec_len, vec_capacity, IfOk, OnOk, OnErr};
ghost use Rattle.otlp_wire.specs.Wire.{IsNumber, Bytes};
ghost use Rattle.otlp_messages.specs.Canon.{canon_row, bytes_row, signed_row};
ghost use Rattle.otap_capture.specs.Batch.{canon_payload, canon_batch};
ghost use Rattle.otap_capture.specs.BatchWriting.{with_payload};
ghost use Rattle.otap_capture.specs.BatchScanning.{fields_of_payload};

use otlp_wire::{len_varint, put_bytes_field, put_varint, put_varint_field};
use std::alloc::{AllocError, Global};
use std::marker::Model;

/// The tag of a payload in a batch: field 2, wire type 2.
const PAYLOAD_TAG: u64 = 8 * 2 + 2;

/// A batch message that is being written: its batch id and its payloads so far.
#[derive(Debug, Drop)]
pub struct BatchWriter {
    bytes: Vec<u8>,
}

impl Model for BatchWriter {
    ghost use Rattle.otap_capture.specs.Batch.{BatchContent};

    ghost Value = { BatchContent };

    ghost use Rattle.otap_capture.specs.BatchWriting.{written_of, IsWrittenBatch};

    ghost view = { written_of };

    ghost invariant = { IsWrittenBatch };
}

impl BatchWriter {
    /// A batch with this batch id, and no payload yet.
    pub fn new(alloc: Global, id: i64) -> Result<BatchWriter, AllocError>
        ensures { IfOk result (λ w. w ≡ record { id = id; payloads = [] }) }
    {
        let mut bytes = Vec::new(alloc);
        put_signed_row(&mut bytes, 1, id)?;
        Ok(BatchWriter { bytes })
    }

    /// Adds a payload after the others.
    pub fn add(&mut self, schema_id: &str, kind: i32, bytes: &[u8]) -> Result<(), AllocError>
        ensures ok { OnOk result (self.new ≡ with_payload self.old (record { schema_id = schema_id.now; kind = kind; bytes = bytes.now })) }
        ensures err { OnErr result (self.new ≡ self.old) }
    {
        put_payload(&mut self.bytes, schema_id.as_bytes(), kind, bytes)?;
        Ok(())
    }

    /// The canonical spelling of the batch.
    pub fn finish(self) -> Vec<u8>
        ensures { result.items ≡ canon_batch self }
    {
        let BatchWriter { bytes } = self;
        bytes
    }
}

/// Appends a payload as a field of a batch.
fn put_payload(
    to: &mut Vec<u8>,
    schema_id: &[u8],
    kind: i32,
    bytes: &[u8],
) -> Result<(), AllocError>
    ensures ok { OnOk result (to.new.items ≡ to.old.items
        ++ canon_row 2 (Bytes (canon_payload (record { schema_id = schema_id.now; kind = kind; bytes = bytes.now })) ∷ [])) }
    ensures err { OnErr result (to.new.items ≡ to.old.items) }
{
    let len = len_payload(schema_id, kind, bytes)?;
    let head = len_varint(PAYLOAD_TAG) + len_varint(len as u64);
    to.reserve(checked_sum(head, len)?)?;
    put_varint(to, PAYLOAD_TAG)?;
    put_varint(to, len as u64)?;
    put_fields(to, schema_id, kind, bytes)?;
    Ok(())
}

/// Appends the fields of a payload.
fn put_fields(to: &mut Vec<u8>, schema_id: &[u8], kind: i32, bytes: &[u8]) -> Result<(), AllocError>
    ensures ok { OnOk result (to.new.items ≡ to.old.items ++ fields_of_payload schema_id.now kind bytes.now) }
    ensures full { OnErr result (vec_capacity to.old < vec_len to.old + length (fields_of_payload schema_id.now kind bytes.now)) }
    ensures capacity { vec_capacity to.old ≤ vec_capacity to.new }
{
    put_bytes_row(to, 1, schema_id)?;
    put_signed_row(to, 2, i64::from(kind))?;
    put_bytes_row(to, 3, bytes)?;
    Ok(())
}

/// How many bytes the fields of a payload have.
fn len_payload(schema_id: &[u8], kind: i32, bytes: &[u8]) -> Result<usize, AllocError>
    ensures { IfOk result (λ n. n ≡ length (fields_of_payload schema_id.now kind bytes.now)) }
{
    let schema_id = len_bytes_row(1, schema_id)?;
    let kind = len_signed_row(2, i64::from(kind));
    let bytes = len_bytes_row(3, bytes)?;
    let front = checked_sum(schema_id, kind)?;
    let len = checked_sum(front, bytes)?;
    Ok(len)
}

/// How many bytes the field of a string or of bytes has, which is not written where it is empty.
fn len_bytes_row(number: u32, part: &[u8]) -> Result<usize, AllocError>
    requires { IsNumber number }
    ensures { IfOk result (λ n. n ≡ length (canon_row number (bytes_row part.now))) }
{
    if part.is_empty() {
        return Ok(0);
    }
    let tag = 8 * u64::from(number) + 2;
    let len = checked_sum(len_varint(tag) + len_varint(part.len() as u64), part.len())?;
    Ok(len)
}

/// How many bytes the field of a number has, which is not written where it is 0.
fn len_signed_row(number: u32, value: i64) -> usize
    requires { IsNumber number }
    ensures { result ≡ length (canon_row number (signed_row value)) }
{
    if value == 0 {
        return 0;
    }
    len_varint(8 * u64::from(number)) + len_varint(value.cast_unsigned())
}

/// The sum, where the memory can be as long.
fn checked_sum(a: usize, b: usize) -> Result<usize, AllocError>
    ensures { IfOk result (λ n. n ≡ a + b) }
{
    match a.checked_add(b) {
        Some(sum) => Ok(sum),
        None => Err(AllocError),
    }
}

/// Appends a string or bytes, where it is not empty.
fn put_bytes_row(to: &mut Vec<u8>, number: u32, part: &[u8]) -> Result<(), AllocError>
    requires { IsNumber number }
    ensures ok { OnOk result (to.new.items ≡ to.old.items ++ canon_row number (bytes_row part.now)) }
    ensures err { OnErr result (to.new.items ≡ to.old.items) }
    ensures full { OnErr result (vec_capacity to.old < vec_len to.old + length (canon_row number (bytes_row part.now))) }
    ensures capacity { vec_capacity to.old ≤ vec_capacity to.new }
{
    if !part.is_empty() {
        put_bytes_field(to, number, part)?;
    }
    Ok(())
}

/// Appends a number, where it is not 0.
fn put_signed_row(to: &mut Vec<u8>, number: u32, value: i64) -> Result<(), AllocError>
    requires { IsNumber number }
    ensures ok { OnOk result (to.new.items ≡ to.old.items ++ canon_row number (signed_row value)) }
    ensures err { OnErr result (to.new.items ≡ to.old.items) }
    ensures full { OnErr result (vec_capacity to.old < vec_len to.old + length (canon_row number (signed_row value))) }
    ensures capacity { vec_capacity to.old ≤ vec_capacity to.new }
{
    if value != 0 {
        put_varint_field(to, number, value.cast_unsigned())?;
    }
    Ok(())
}
