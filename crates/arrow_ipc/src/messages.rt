ghost use Rattle.std.specs.Prelude.{◌≡◌, ◌≢◌, ◌+◌, ◌<◌, ◌≤◌, ◌↔◌, [], false, length, drop, IsNone, IfSome, IfNone, OnSome, IfOk, IfErr};
ghost use Rattle.arrow_ipc.specs.Batches.{BatchIn};
ghost use Rattle.arrow_ipc.specs.Messages.{IsMessage};
ghost use Rattle.arrow_ipc.specs.Faults.{Refuses};
ghost use Rattle.arrow_ipc.specs.Fronts.{rest_of, Advances, ReadsNoFurther, TakesFirst, record_batch_in, HasRows};
ghost use Rattle.arrow_ipc.specs.Returned.{RefusesHeader};
ghost use Rattle.arrow_ipc.specs.Order as order;

use crate::batch::BatchView;
use crate::fault::IpcFault;
use crate::header::{FoundHeader, Header, find};
use arrow_schema::{SchemaSpec, read_schema};
use std::alloc::Global;
use std::marker::Model;

/// A message. A schema is copied; batches borrow the bytes.
#[derive(Debug, Drop)]
pub enum IpcMessage<'a> {
    /// A schema.
    Schema(SchemaSpec),
    /// A dictionary batch: the id of the dictionary, whether the values are added to those before, and the batch of the
    /// values.
    Dictionary {
        id: i64,
        delta: bool,
        batch: BatchView<'a>,
    },
    /// A record batch.
    Rows(BatchView<'a>),
}

/// The messages that follow one another in bytes.
#[derive(Debug, Drop)]
pub struct Messages<'a> {
    bytes: &'a [u8],
    place: usize,
    ended: bool,
}

impl<'a> Model for Messages<'a> {
    ghost use Rattle.arrow_ipc.specs.Fronts.{MessagesIn};

    ghost Value = { MessagesIn };

    ghost use Rattle.arrow_ipc.specs.Inside.{messages_in, IsMessagesInside};

    ghost view = { messages_in };

    ghost invariant = { IsMessagesInside };
}

impl<'a> Messages<'a> {
    /// The messages of these bytes, from their start on.
    pub fn new(bytes: &'a [u8]) -> Messages<'a>
        ensures { result ≡ record { bytes = bytes.now; place = 0; ended = false } }
    {
        Messages {
            bytes,
            place: 0,
            ended: false,
        }
    }

    /// How many bytes the messages given so far have together. The next one begins there.
    pub fn place(&self) -> usize
        ensures { result ≡ self.now.place }
    {
        self.place
    }

    /// The next message, or a fault instead; `None` at the end of the bytes and after a fault, also
    /// after out of memory. Where there are several faults, any of them is
    /// returned.
    ///
    /// It costs as much as the metadata is long: bodies are not walked. Only a schema takes
    /// memory.
    pub fn next(&mut self, alloc: Global) -> Option<Result<IpcMessage<'a>, IpcFault>>
        ensures message { IfSome result (λ r. IfOk r (Advances self.old self.new)) }
        ensures fault { IfSome result (λ r. IfErr r (λ fault. Refuses (rest_of self.old) fault × ReadsNoFurther self.old self.new)) }
        ensures end { IsNone result ↔ (rest_of self.old ≡ []) }
        ensures stays { IfNone result (self.new ≡ self.old) }
        ensures shorter { OnSome result (length (rest_of self.new) < length (rest_of self.old)) }
        ensures front { TakesFirst self.old result self.new }
    {
        if self.ended {
            return None;
        }
        let rest = rest(self.bytes, self.place);
        if rest.is_empty() {
            return None;
        }
        match message(alloc, rest) {
            Ok((message, size)) => {
                self.place += size;
                Some(Ok(message))
            }
            Err(fault) => {
                self.ended = true;
                Some(Err(fault))
            }
        }
    }
}

/// The message that begins the bytes, and how many bytes it takes.
fn message(alloc: Global, bytes: &[u8]) -> Result<(IpcMessage<'_>, usize), IpcFault>
    ensures message { IfOk result (λ found. IsMessage bytes.now found.0 found.1) }
    ensures within { IfOk result (λ found. (0 < found.1) × (found.1 ≤ length bytes.now)) }
    ensures fault { IfErr result (λ fault. bytes.now ≢ [] → Refuses bytes.now fault) }
{
    let FoundHeader { header, size } = find(bytes)?;
    let message = message_of(alloc, header)?;
    Ok((message, size))
}

#[tactic(auto, using(crate::proofs::Refusing::refuses_schema), unfolding(crate::specs::Order::message_of))]
fn message_of(alloc: Global, header: Header<'_>) -> Result<IpcMessage<'_>, IpcFault>
    ensures message { IfOk result (λ message. order.message_of header.entry ≡ Ok message) }
    ensures fault { IfErr result (λ fault. RefusesHeader header.entry fault) }
{
    match header {
        Header::Schema(table) => Ok(IpcMessage::Schema(read_schema(alloc, table)?)),
        Header::Dictionary { id, delta, batch } => Ok(IpcMessage::Dictionary { id, delta, batch }),
        Header::Rows(batch) => Ok(IpcMessage::Rows(batch)),
    }
}

/// The bytes from an offset on.
fn rest(bytes: &[u8], place: usize) -> &[u8]
    ensures { result.now ≡ drop place bytes.now }
{
    &bytes[place.min(bytes.len())..]
}

/// The record batch message at an offset; `None` where there is none, or it has a fault. It takes
/// no memory.
pub fn rows_at<'a>(bytes: &'a [u8], place: usize) -> Option<BatchView<'a>>
    ensures value { result ≡ record_batch_in (drop place bytes.now) }
    ensures some { IfSome result (HasRows (drop place bytes.now)) }
    ensures none { IfNone result ((batch : BatchIn) → HasRows (drop place bytes.now) batch → ⊥) }
{
    let batch = rows(rest(bytes, place));
    batch
}

#[tactic(auto, unfolding(crate::specs::Fronts::record_batch_in))]
fn rows(bytes: &[u8]) -> Option<BatchView<'_>>
    ensures { result ≡ record_batch_in bytes.now }
{
    match find(bytes) {
        Ok(
            FoundHeader {
                header: Header::Rows(batch),
                ..
            },
        ) => Some(batch),
        _ => None,
    }
}
