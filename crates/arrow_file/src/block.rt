ghost use Rattle.std.specs.Prelude.{◌≡◌, ◌+◌, ◌*◌, ◌-◌, ◌≤◌, ◌<◌, ◌^◌, ◌++◌, length, drop, vec_len, pos, slice_get, FitsSigned, IfOk, OnOk};
ghost use Rattle.std.specs.Int.{w32, w64};
ghost use Rattle.std.specs.Option.{option_map};
ghost use Rattle.byteorder.specs.Endian.{little_number};
ghost use Rattle.arrow_file.specs.Blocks.{block_in, blocks_in};
ghost use Rattle.arrow_file.specs.BlockBytes as laid;

use byteorder::{ByteOrder, LittleEndian};
use flat_tables::VectorView;
use std::alloc::{AllocError, Global};

/// How many bytes the continuation marker and the size before a message's metadata take.
const PREFIX: usize = 8;

/// How many bytes a block takes.
pub(crate) const BLOCK: u32 = 24;

/// Where a message is in a file, and how long its parts are (struct Block of File.fbs).
#[derive(Clone, Copy, Debug)]
pub(crate) struct Block {
    /// Where the message's continuation marker begins.
    pub(crate) offset: i64,
    /// The bytes of the continuation marker, the size and the metadata.
    pub(crate) metadata_size: i32,
    pub(crate) body_size: i64,
}

/// The block of a message that begins at an offset.
pub(crate) fn block_of(offset: usize, message: &[u8]) -> Block
    requires offset { offset < 2 ^ 63 }
    requires whole { 8 + little_number 4 (drop 4 message.now) ≤ length message.now }
    requires fits { 8 + little_number 4 (drop 4 message.now) < 2 ^ 31 }
    ensures { laid.IsBlock offset message.now result }
{
    let metadata_size = PREFIX + LittleEndian::read_u32(&message[4..]) as usize;
    Block {
        offset: offset as i64,
        metadata_size: metadata_size as i32,
        body_size: (message.len() - metadata_size) as i64,
    }
}

/// The offset that a block of a vector names; `None` where there is no such block.
#[tactic(auto, using(crate::proofs::BlocksFound::slice_get_blocks))]
pub(crate) fn offset_at(blocks: &VectorView<'_>, place: u32) -> Option<i64>
    requires { blocks.now.width ≡ 24 }
    ensures { result ≡ option_map (λ block. block.offset) (slice_get (blocks_in blocks.now) place) }
{
    let part = blocks.part(place)?;
    Some(offset_in(part))
}

fn offset_in(part: &[u8]) -> i64
    requires { 8 ≤ length part.now }
    ensures { result ≡ (block_in part.now).offset }
{
    LittleEndian::read_i64(part)
}

/// The bytes of blocks, one after the other.
pub(crate) fn block_bytes(alloc: Global, blocks: &[Block]) -> Result<Vec<u8>, AllocError>
    requires { length blocks.now < 2 ^ 32 }
    ensures value { IfOk result (λ bytes. bytes.items ≡ laid.blocks_bytes blocks.now) }
    ensures len { IfOk result (λ bytes. vec_len bytes ≡ 24 * length blocks.now) }
    ensures fit { OnOk result (laid.AllFit blocks.now) }
{
    let mut bytes = Vec::with_capacity(alloc, 24 * blocks.len())?;
    for block in blocks {
        push_block(&mut bytes, block)?;
    }
    Ok(bytes)
}

fn push_block(bytes: &mut Vec<u8>, block: &Block) -> Result<(), AllocError>
    ensures ok { OnOk result (bytes.new.items ≡ bytes.old.items ++ laid.block_bytes block.now) }
    ensures len { OnOk result (vec_len bytes.new ≡ vec_len bytes.old + 24) }
    ensures fits { OnOk result (laid.Fits block.now) }
{
    push_i64(bytes, block.offset)?;
    push_i32(bytes, block.metadata_size)?;
    push_i32(bytes, 0)?;
    push_i64(bytes, block.body_size)?;
    Ok(())
}

#[tactic(auto, unfolding(crate::specs::BlockBytes::number_32))]
fn push_i32(bytes: &mut Vec<u8>, number: i32) -> Result<(), AllocError>
    ensures ok { OnOk result (bytes.new.items ≡ bytes.old.items ++ laid.number_32 number) }
    ensures len { OnOk result (vec_len bytes.new ≡ vec_len bytes.old + 4) }
    ensures fits { OnOk result (FitsSigned w32 number) }
{
    let mut part = [0; 4];
    LittleEndian::write_i32(&mut part, number);
    bytes.extend_from_slice(&part)?;
    Ok(())
}

#[tactic(auto, unfolding(crate::specs::BlockBytes::number_64))]
fn push_i64(bytes: &mut Vec<u8>, number: i64) -> Result<(), AllocError>
    ensures ok { OnOk result (bytes.new.items ≡ bytes.old.items ++ laid.number_64 number) }
    ensures len { OnOk result (vec_len bytes.new ≡ vec_len bytes.old + 8) }
    ensures fits { OnOk result (FitsSigned w64 number) }
{
    let mut part = [0; 8];
    LittleEndian::write_i64(&mut part, number);
    bytes.extend_from_slice(&part)?;
    Ok(())
}
