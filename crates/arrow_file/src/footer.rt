ghost use Rattle.std.specs.Prelude.{◌≡◌, ◌≤◌, ◌<◌, ◌^◌, ◌++◌, length, IfOk, OnOk, OnErr};
ghost use Rattle.byteorder.specs.Endian.{little_bytes};
ghost use Rattle.arrow_file.specs.Files.{magic};
ghost use Rattle.arrow_file.specs.Written.{end_mark};
ghost use Rattle.arrow_file.specs.Footers.{IsFooter};

use crate::block::{BLOCK, Block, block_bytes};
use crate::framing::MAGIC;
use byteorder::{ByteOrder, LittleEndian};
use flat_tables::{Builder, Place, Slot};
use std::alloc::AllocError;

/// The version that is written: V5.
const VERSION: i16 = 4;

/// The end of the messages: the continuation marker, and the size 0.
const END_MARK: [u8; 8] = [0xFF, 0xFF, 0xFF, 0xFF, 0, 0, 0, 0];

/// The footer of a file: the table Footer, with no dictionary batches. Its schema was built before.
pub(crate) fn footer_of(
    mut builder: Builder,
    schema: Place,
    blocks: &[Block],
) -> Result<Vec<u8>, AllocError>
    requires schema { schema ≤ length builder }
    requires room { length builder < 4194304 }
    requires few { length blocks.now ≤ 65536 }
    ensures { IfOk result (λ footer. IsFooter builder schema blocks.now footer.items) }
{
    let bytes = block_bytes(builder.alloc(), blocks)?;
    let dictionaries = builder.add_parts(BLOCK, &[])?;
    let batches = builder.add_parts(BLOCK, &bytes)?;
    let root = builder.add_table(&[
        Slot::I16(VERSION),
        Slot::At(schema),
        Slot::At(dictionaries),
        Slot::At(batches),
    ])?;
    let footer = builder.finish(root)?;
    Ok(footer)
}

/// Appends the end mark, the footer, its size and the magic.
pub(crate) fn append_end(bytes: &mut Vec<u8>, footer: &[u8]) -> Result<(), AllocError>
    requires { length footer.now < 2 ^ 31 }
    ensures ok { OnOk result (bytes.new.items ≡ bytes.old.items ++ (end_mark ++ (footer.now ++ (little_bytes 4 (length footer.now) ++ magic)))) }
    ensures err { OnErr result (bytes.new.items ≡ bytes.old.items) }
{
    bytes.reserve(END_MARK.len() + footer.len() + 4 + MAGIC.len())?;
    let mut size = [0; 4];
    LittleEndian::write_u32(&mut size, footer.len() as u32);
    bytes.extend_from_slice(&END_MARK)?;
    bytes.extend_from_slice(footer)?;
    bytes.extend_from_slice(&size)?;
    bytes.extend_from_slice(&MAGIC)?;
    Ok(())
}
