ghost use Rattle.std.specs.Prelude.{◌≡◌, ◌+◌, ◌≤◌, length, IfOk, OnOk};
ghost use Rattle.std.specs.List.{list_all};
ghost use Rattle.flat_tables.specs.Bytes.{part_at, number_at};
ghost use Rattle.arrow_ipc.specs.Batches.{structs_in, structs_of, lies_in};
ghost use Rattle.arrow_ipc.specs.Inside.{HasPairs};
ghost use Rattle.lists.specs.Results.{Gives};
ghost use Rattle.arrow_ipc.specs.Order as order;

use crate::batch::{BatchView, lies_in, pair_at};
use crate::fault::IpcFault;
use byteorder::{ByteOrder, LittleEndian};
use flat_tables::{TableView, VectorView};

/// The continuation marker, which each message begins with.
pub(crate) const CONTINUATION: u32 = 0xFFFF_FFFF;

/// How many bytes the continuation and the size of the metadata take.
pub(crate) const PREFIX: usize = 8;

/// The kinds of headers.
pub(crate) const SCHEMA: u8 = 1;

pub(crate) const DICTIONARY_BATCH: u8 = 2;

pub(crate) const RECORD_BATCH: u8 = 3;

/// What a message holds, the schema not read yet.
#[derive(Debug, Drop)]
pub(crate) enum Header<'a> {
    Schema(TableView<'a>),
    Dictionary {
        id: i64,
        delta: bool,
        batch: BatchView<'a>,
    },
    Rows(BatchView<'a>),
}

/// A header, and how many bytes the message takes.
#[derive(Debug, Drop)]
pub(crate) struct FoundHeader<'a> {
    pub(crate) header: Header<'a>,
    pub(crate) size: usize,
}

/// The header of the message that begins the bytes.
#[tactic(auto, unfolding(crate::specs::Order::find))]
pub(crate) fn find(bytes: &[u8]) -> Result<FoundHeader<'_>, IpcFault>
    ensures { result ≡ order.find bytes.now }
{
    let metadata = metadata(bytes)?;
    let table = TableView::root(metadata)?;
    check_version(&table)?;
    let body = body(bytes, PREFIX + metadata.len(), &table)?;
    let header = header_of(&table, body)?;
    Ok(FoundHeader {
        header,
        size: PREFIX + metadata.len() + body.len(),
    })
}

/// The `size` bytes at `place`.
#[tactic(auto, unfolding(flat_tables::specs::Bytes::part_at))]
fn part(bytes: &[u8], place: usize, size: usize) -> Result<&[u8], IpcFault>
    ensures value { Gives (λ part. part.now) result (order.whole (part_at bytes.now place size)) }
    ensures size { IfOk result (λ part. length part.now ≡ size) }
    ensures within { OnOk result (place + size ≤ length bytes.now) }
{
    let end = place.checked_add(size).ok_or(IpcFault::Cut)?;
    bytes.get(place..end).ok_or(IpcFault::Cut)
}

#[tactic(auto, unfolding(flat_tables::specs::Bytes::number_at))]
fn number(bytes: &[u8], place: usize) -> Result<u32, IpcFault>
    ensures { result ≡ order.whole (number_at 4 bytes.now place) }
{
    Ok(LittleEndian::read_u32(part(bytes, place, 4)?))
}

/// The metadata, where it and the prefix before it are whole.
#[tactic(auto, unfolding(crate::specs::Order::metadata))]
fn metadata(bytes: &[u8]) -> Result<&[u8], IpcFault>
    ensures value { Gives (λ part. part.now) result (order.metadata bytes.now) }
    ensures within { IfOk result (λ part. 8 + length part.now ≤ length bytes.now) }
{
    if number(bytes, 0)? != CONTINUATION {
        return Err(IpcFault::Cut);
    }
    let size = number(bytes, 4)? as usize;
    let metadata = part(bytes, PREFIX, size)?;
    Ok(metadata)
}

#[tactic(auto, unfolding(crate::specs::Order::check_version, crate::specs::Messages::version_of))]
fn check_version(table: &TableView<'_>) -> Result<(), IpcFault>
    ensures { result ≡ order.check_version table.now }
{
    match table.i16_at(0, 0)? {
        3 | 4 => Ok(()),
        _ => Err(IpcFault::BadVersion),
    }
}

/// The body, which begins at `place`.
#[tactic(auto, unfolding(crate::specs::Order::body, crate::specs::Messages::body_size_of))]
fn body<'a>(bytes: &'a [u8], place: usize, table: &TableView<'_>) -> Result<&'a [u8], IpcFault>
    ensures value { Gives (λ part. part.now) result (order.body bytes.now place table.now) }
    ensures within { IfOk result (λ part. place + length part.now ≤ length bytes.now) }
{
    let size = usize::try_from(table.i64_at(3, 0)?).map_err(|_| IpcFault::BadBody)?;
    let body = part(bytes, place, size)?;
    Ok(body)
}

#[tactic(auto, unfolding(crate::specs::Order::header_of, crate::specs::Messages::header_kind, crate::specs::Messages::header_table_of))]
fn header_of<'a>(table: &TableView<'a>, body: &'a [u8]) -> Result<Header<'a>, IpcFault>
    ensures { result ≡ order.header_of table.now body.now }
{
    let kind = table.u8_at(1, 0)?;
    let header = table.table_at(2)?.ok_or(IpcFault::Unsupported)?;
    match kind {
        SCHEMA => Ok(Header::Schema(header)),
        DICTIONARY_BATCH => dictionary_of(&header, body),
        RECORD_BATCH => Ok(Header::Rows(batch_of(&header, body)?)),
        _ => Err(IpcFault::Unsupported),
    }
}

#[tactic(auto, unfolding(crate::specs::Order::dictionary_of, crate::specs::Messages::id_of, crate::specs::Messages::delta_of, crate::specs::Messages::data_of))]
fn dictionary_of<'a>(table: &TableView<'a>, body: &'a [u8]) -> Result<Header<'a>, IpcFault>
    ensures { result ≡ order.dictionary_of table.now body.now }
{
    let id = table.i64_at(0, 0)?;
    let delta = table.u8_at(2, 0)? != 0;
    let data = table.table_at(1)?.ok_or(IpcFault::Unsupported)?;
    let batch = batch_of(&data, body)?;
    Ok(Header::Dictionary { id, delta, batch })
}

#[tactic(auto, unfolding(crate::specs::Order::batch_of, crate::specs::Batches::row_count, crate::specs::Batches::nodes_of, crate::specs::Batches::places_of))]
fn batch_of<'a>(table: &TableView<'a>, body: &'a [u8]) -> Result<BatchView<'a>, IpcFault>
    ensures { result ≡ order.batch_of table.now body.now }
{
    let rows = u64::try_from(table.i64_at(0, 0)?).map_err(|_| IpcFault::BadBody)?;
    let nodes = table.vector_at(1, 16)?;
    let buffers = table.vector_at(2, 16)?;
    check_buffers(&buffers, body)?;
    if !matches!(table.table_at(3), Ok(None)) {
        return Err(IpcFault::Compressed);
    }
    Ok(BatchView {
        rows,
        nodes,
        buffers,
        body,
    })
}

fn check_buffers(buffers: &Option<VectorView<'_>>, body: &[u8]) -> Result<(), IpcFault>
    requires { HasPairs buffers.now }
    ensures { result ≡ order.check_buffers (structs_of buffers.now) body.now }
{
    match buffers {
        Some(buffers) if !all_lie_in(buffers, body.len()) => Err(IpcFault::BadBody),
        _ => Ok(()),
    }
}

/// Whether each buffer lies in a body of this size.
fn all_lie_in(buffers: &VectorView<'_>, size: usize) -> bool
    requires { buffers.now.width ≡ 16 }
    ensures { result ≡ list_all (lies_in size) (structs_in buffers.now) }
{
    for place in 0..buffers.len() {
        let buffer = pair_at(buffers, place).unwrap();
        if !lies_in(buffer, size) {
            return false;
        }
    }
    true
}
