ghost use Rattle.std.specs.Prelude.{◌≡◌, ◌+◌, ◌-◌, ◌*◌, ◌%◌, ◌≤◌, ◌<◌, ◌^◌, ◌++◌, length, vec_len, FitsSigned, IsTrue, IfOk, OnOk, OnErr};
ghost use Rattle.std.specs.Int.{w64};
ghost use Rattle.flat_tables.specs.Limits.{max_size};
ghost use Rattle.flat_tables.specs.Building.{StaysAt};
ghost use Rattle.arrow_schema.specs.Trees.{count_of};
ghost use Rattle.arrow_schema.specs.Limits.{max_written_fields, max_written_names};
ghost use Rattle.arrow_schema.specs.Writing.{names_of, widths_fit, encodings_named};
ghost use Rattle.arrow_ipc.specs.Limits.{max_parts, max_count, max_body};
ghost use Rattle.arrow_ipc.specs.Laying as laying;
ghost use Rattle.arrow_ipc.specs.Written as written;

use crate::builder::padded;
use crate::header::{CONTINUATION, PREFIX, SCHEMA};
use arrow_schema::{SchemaSpec, add_schema};
use byteorder::{ByteOrder, LittleEndian};
use flat_tables::{Builder, Place, Slot};
use std::alloc::{AllocError, Global};

/// The version that is written: V5.
const VERSION: i16 = 4;

/// Appends a schema as a message. Its length is a multiple of 8.
pub fn write_schema(to: &mut Vec<u8>, spec: &SchemaSpec) -> Result<(), AllocError>
    requires few { count_of spec.now ≤ max_written_fields }
    requires names { names_of spec.now ≤ max_written_names }
    requires widths { IsTrue (widths_fit spec.now) }
    requires encodings { IsTrue (encodings_named spec.now) }
    ensures ok { OnOk result (written.AppendsSchema spec.now to.old.items to.new.items) }
    ensures err { OnErr result (to.new.items ≡ to.old.items) }
{
    let mut builder = Builder::new(*to.allocator());
    let header = add_schema(&mut builder, spec)?;
    write_message(to, builder, SCHEMA, header, &[])?;
    Ok(())
}

/// Adds the table of a record batch.
pub(crate) fn add_batch(
    builder: &mut Builder,
    rows: u64,
    nodes: &[(i64, i64)],
    places: &[(i64, i64)],
) -> Result<Place, AllocError>
    requires rows { rows < max_count }
    requires nodes { length nodes.now ≤ max_parts }
    requires places { length places.now ≤ max_parts }
    requires room { length builder.old + 32 * max_parts + 64 < max_size }
    ensures table { IfOk result (StaysAt (laying.IsBatchTable rows nodes.now places.now) builder.new) }
    ensures size { OnOk result (length builder.new ≤ length builder.old + 16 * length nodes.now + 16 * length places.now + 320) }
{
    let node_bytes = pairs(builder.alloc(), nodes)?;
    let place_bytes = pairs(builder.alloc(), places)?;
    let node_vector = builder.add_parts(16, &node_bytes)?;
    let place_vector = builder.add_parts(16, &place_bytes)?;
    let table = builder.add_table(&[
        Slot::I64(rows as i64),
        Slot::At(node_vector),
        Slot::At(place_vector),
    ])?;
    Ok(table)
}

/// The bytes of structs of two numbers, one after the other.
fn pairs(alloc: Global, pairs: &[(i64, i64)]) -> Result<Vec<u8>, AllocError>
    requires { length pairs.now < 2 ^ 32 }
    ensures value { IfOk result (λ bytes. bytes.items ≡ laying.pairs_bytes pairs.now) }
    ensures len { IfOk result (λ bytes. vec_len bytes ≡ 16 * length pairs.now) }
    ensures fit { OnOk result (laying.AllFit pairs.now) }
{
    let mut bytes = Vec::with_capacity(alloc, 16 * pairs.len())?;
    for pair in pairs {
        push_pair(&mut bytes, pair)?;
    }
    Ok(bytes)
}

fn push_pair(bytes: &mut Vec<u8>, pair: &(i64, i64)) -> Result<(), AllocError>
    ensures ok { OnOk result (bytes.new.items ≡ bytes.old.items ++ laying.pair_bytes pair.now) }
    ensures len { OnOk result (vec_len bytes.new ≡ vec_len bytes.old + 16) }
    ensures fits { OnOk result (laying.FitsPair pair.now) }
{
    push(bytes, pair.0)?;
    push(bytes, pair.1)?;
    Ok(())
}

#[tactic(auto, unfolding(crate::specs::Laying::number_bytes))]
fn push(bytes: &mut Vec<u8>, number: i64) -> Result<(), AllocError>
    ensures ok { OnOk result (bytes.new.items ≡ bytes.old.items ++ laying.number_bytes number) }
    ensures len { OnOk result (vec_len bytes.new ≡ vec_len bytes.old + 8) }
    ensures fits { OnOk result (FitsSigned w64 number) }
{
    let mut part = [0; 8];
    LittleEndian::write_i64(&mut part, number);
    bytes.extend_from_slice(&part)?;
    Ok(())
}

/// Appends a message, whose header is at an offset of the builder.
pub(crate) fn write_message(
    to: &mut Vec<u8>,
    builder: Builder,
    kind: u8,
    header: Place,
    body: &[u8],
) -> Result<(), AllocError>
    requires header { header ≤ length builder }
    requires room { length builder < max_size }
    requires body { length body.now < max_body }
    ensures ok { OnOk result (laying.HasMessage builder header kind body.now to.old.items to.new.items) }
    ensures err { OnErr result (to.new.items ≡ to.old.items) }
{
    let metadata = metadata(builder, kind, header, padded(body.len()))?;
    append_message(to, &metadata, body)?;
    Ok(())
}

/// The metadata of a message: the table Message.
fn metadata(
    mut builder: Builder,
    kind: u8,
    header: Place,
    size: usize,
) -> Result<Vec<u8>, AllocError>
    requires header { header ≤ length builder }
    requires room { length builder < max_size }
    requires size { size < 2 ^ 63 }
    ensures is { IfOk result (λ metadata. laying.IsMetadata builder header kind size metadata.items) }
    ensures few { IfOk result (λ metadata. length metadata.items ≤ length builder + 288) }
    ensures even { IfOk result (λ metadata. length metadata.items % 8 ≡ 0) }
{
    let root = builder.add_table(&[
        Slot::I16(VERSION),
        Slot::U8(kind),
        Slot::At(header),
        Slot::I64(size as i64),
    ])?;
    let metadata = builder.finish(root)?;
    Ok(metadata)
}

/// Appends metadata and a body, which is padded to a multiple of 8.
#[tactic(auto, unfolding(crate::specs::Laying::laid_out))]
fn append_message(to: &mut Vec<u8>, metadata: &[u8], body: &[u8]) -> Result<(), AllocError>
    requires metadata { length metadata.now < 2 ^ 32 }
    requires body { length body.now < 2 ^ 32 }
    ensures ok { OnOk result (to.new.items ≡ to.old.items ++ laying.laid_out metadata.now body.now) }
    ensures err { OnErr result (to.new.items ≡ to.old.items) }
{
    let size = PREFIX + metadata.len() + padded(body.len());
    to.reserve(size)?;
    let end = to.len() + size;
    let mut prefix = [0; PREFIX];
    LittleEndian::write_u32(&mut prefix, CONTINUATION);
    LittleEndian::write_u32(&mut prefix[4..], metadata.len() as u32);
    to.extend_from_slice(&prefix)?;
    to.extend_from_slice(metadata)?;
    to.extend_from_slice(body)?;
    to.resize(end, 0)?;
    Ok(())
}
