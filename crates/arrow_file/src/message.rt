ghost use Rattle.std.specs.Prelude.{◌≡◌, ◌+◌, ◌<◌, ◌≤◌, ◌^◌, ℕ, List, length, map, take, drop, IfOk, OnOk, IfSome, IfNone};
ghost use Rattle.arrow_ipc.specs.Messages.{kind_number};
ghost use Rattle.arrow_file.specs.Blocks.{blocks_in, blocks_of};
ghost use Rattle.arrow_file.specs.Files.{IsMessageAt, IsMessageFrom, AreMessagesOf};
ghost use Rattle.arrow_file.specs.Defects.{HasNoMessageAt, HaveNoMessages};
ghost use Rattle.arrow_file.specs.Reading.{HasBlocks, BeginsWith, IsOfBytes, Finds};

use crate::block::offset_at;
use arrow_ipc::{IpcFault, IpcMessage, Messages};
use flat_tables::VectorView;
use std::alloc::{AllocError, Global};

/// The kinds of messages.
pub(crate) const SCHEMA: u8 = 1;

pub(crate) const DICTIONARY_BATCH: u8 = 2;

pub(crate) const RECORD_BATCH: u8 = 3;

/// A message that a block names, and where it ends.
#[derive(Clone, Copy, Debug)]
pub(crate) struct Found<'a> {
    message: &'a [u8],
    end: usize,
}

/// The messages of a vector's blocks, each of the kind, each from the end of the one before it on, and the first from `from` on;
/// `None` where there are no such messages. It costs as much as their metadata are long: bodies are not walked.
pub(crate) fn messages_of<'a>(
    alloc: Global,
    bytes: &'a [u8],
    kind: u8,
    from: usize,
    blocks: &Option<VectorView<'_>>,
) -> Result<Option<Vec<&'a [u8]>>, AllocError>
    requires { HasBlocks blocks.now }
    ensures some { IfOk result (λ found. IfSome found (λ messages. AreMessagesOf bytes.now kind from (blocks_of blocks.now) (map (λ m. m.now) messages.items))) }
    ensures few { IfOk result (λ found. IfSome found (λ messages. length messages.items < 2 ^ 32)) }
    ensures none { IfOk result (λ found. IfNone found (HaveNoMessages bytes.now kind from (blocks_of blocks.now))) }
{
    match blocks {
        None => Ok(Some(Vec::new(alloc))),
        Some(blocks) => messages_in(alloc, bytes, kind, from, blocks),
    }
}

fn messages_in<'a>(
    alloc: Global,
    bytes: &'a [u8],
    kind: u8,
    from: usize,
    blocks: &VectorView<'_>,
) -> Result<Option<Vec<&'a [u8]>>, AllocError>
    requires { blocks.now.width ≡ 24 }
    ensures some { IfOk result (λ found. IfSome found (λ messages. AreMessagesOf bytes.now kind from (blocks_in blocks.now) (map (λ m. m.now) messages.items))) }
    ensures few { IfOk result (λ found. IfSome found (λ messages. length messages.items < 2 ^ 32)) }
    ensures none { IfOk result (λ found. IfNone found (HaveNoMessages bytes.now kind from (blocks_in blocks.now))) }
{
    let mut messages = Vec::new(alloc);
    let mut end = from;
    for place in 0..blocks.len() {
        let offset = offset_at(blocks, place).unwrap();
        let Some(found) = message_from(alloc, bytes, kind, end, offset)? else {
            return Ok(None);
        };
        end = found.end;
        messages.push(found.message)?;
    }
    Ok(Some(messages))
}

/// The message of a kind at the offset that a block names; `None` where there is none, or it begins before `from`.
fn message_from<'a>(
    alloc: Global,
    bytes: &'a [u8],
    kind: u8,
    from: usize,
    offset: i64,
) -> Result<Option<Found<'a>>, AllocError>
    ensures some { IfOk result (λ found. IfSome found (Finds bytes.now kind from offset)) }
    ensures none { IfOk result (λ found. IfNone found ((message : List ℕ) → IsMessageFrom bytes.now kind from offset message → ⊥)) }
{
    let Ok(place) = usize::try_from(offset) else {
        return Ok(None);
    };
    if place < from {
        return Ok(None);
    }
    match message_at(alloc, bytes, kind, place)? {
        None => Ok(None),
        Some(message) => {
            let end = place + message.len();
            Ok(Some(Found { message, end }))
        }
    }
}

/// The message of a kind at an offset; `None` where there is none.
pub(crate) fn message_at(
    alloc: Global,
    bytes: &[u8],
    kind: u8,
    offset: usize,
) -> Result<Option<&[u8]>, AllocError>
    ensures some { IfOk result (λ found. IfSome found (λ message. IsMessageAt bytes.now kind offset message.now)) }
    ensures within { IfOk result (λ found. IfSome found (λ message. offset + length message.now ≤ length bytes.now)) }
    ensures none { IfOk result (λ found. IfNone found (HasNoMessageAt bytes.now kind offset)) }
{
    let rest = rest(bytes, offset);
    match first_size(alloc, rest, kind)? {
        None => Ok(None),
        Some(size) => Ok(Some(front(rest, size))),
    }
}

/// The bytes from an offset on.
pub(crate) fn rest(bytes: &[u8], offset: usize) -> &[u8]
    ensures { result.now ≡ drop offset bytes.now }
{
    &bytes[offset.min(bytes.len())..]
}

fn front(bytes: &[u8], size: usize) -> &[u8]
    requires { size ≤ length bytes.now }
    ensures { result.now ≡ take size bytes.now }
{
    &bytes[..size]
}

/// How many bytes the message of a kind takes that begins the bytes; `None` where none does.
fn first_size(alloc: Global, bytes: &[u8], kind: u8) -> Result<Option<usize>, AllocError>
    ensures some { IfOk result (λ found. IfSome found (BeginsWith bytes.now kind)) }
    ensures within { IfOk result (λ found. IfSome found (λ size. (0 < size) × (size ≤ length bytes.now))) }
    ensures none { IfOk result (λ found. IfNone found ((size : ℕ) → BeginsWith bytes.now kind size → ⊥)) }
{
    let mut messages = Messages::new(bytes);
    match messages.next(alloc) {
        None => Ok(None),
        Some(Err(fault)) => {
            unless_memory(fault)?;
            Ok(None)
        }
        Some(Ok(message)) => {
            if kind_of(&message) == kind {
                Ok(Some(messages.place()))
            } else {
                Ok(None)
            }
        }
    }
}

/// A fault of the bytes is passed over; that memory ran out is returned.
fn unless_memory(fault: IpcFault) -> Result<(), AllocError>
    ensures { OnOk result (IsOfBytes fault) }
{
    match fault {
        IpcFault::Memory(e) => Err(e),
        _ => Ok(()),
    }
}

fn kind_of(message: &IpcMessage<'_>) -> u8
    ensures { result ≡ kind_number message.now }
{
    match message {
        IpcMessage::Schema(_) => SCHEMA,
        IpcMessage::Dictionary { .. } => DICTIONARY_BATCH,
        IpcMessage::Rows(_) => RECORD_BATCH,
    }
}
