ghost use Rattle.std.specs.Prelude.{◌≡◌, ◌≤◌, ◌↔◌, length, IsTrue, IfOk, IfErr};
ghost use Rattle.arrow_file.specs.Limits.{max_file};
ghost use Rattle.arrow_file.specs.Files.{IsFramedFile};
ghost use Rattle.arrow_file.specs.Defects.{HasMagics, HasFileDefect};
ghost use Rattle.arrow_file.specs.Reading.{vectors_of, HasBlocks};

use crate::block::BLOCK;
use crate::message::rest;
use crate::refusal::FileRefusal;
use byteorder::{ByteOrder, LittleEndian};
use flat_tables::{FlatFault, TableView, VectorView};

/// The most bytes of a file that is read.
pub const MAX_FILE: usize = 1 << 28;

/// What a file begins with: the magic and two zero bytes.
pub(crate) const HEAD: [u8; 8] = *b"ARROW1\0\0";

/// What a file ends with.
pub(crate) const MAGIC: [u8; 6] = *b"ARROW1";

/// How many bytes the footer's size and the magic take.
const TAIL: usize = 10;

/// The slots of the table Footer that are looked at.
const DICTIONARIES: u16 = 2;

const RECORD_BATCHES: u16 = 3;

/// The vectors of blocks of a footer.
#[derive(Debug, Drop)]
pub(crate) struct Vectors<'a> {
    pub(crate) dictionaries: Option<VectorView<'a>>,
    pub(crate) batches: Option<VectorView<'a>>,
}

/// The footer in the bytes of a file. A size below zero is too large, read without its sign.
pub(crate) fn footer_in(bytes: &[u8]) -> Result<&[u8], FileRefusal>
    requires { length bytes.now ≤ max_file }
    ensures ok { IfOk result (λ footer. IsFramedFile bytes.now footer.now) }
    ensures err { IfErr result (HasFileDefect bytes.now) }
{
    if !has_magics(bytes) {
        return Err(FileRefusal::BadMagic);
    }
    let end = bytes.len() - TAIL;
    let size = LittleEndian::read_u32(rest(bytes, end)) as usize;
    if size > end - HEAD.len() {
        return Err(FileRefusal::BadFooter(FlatFault::OutOfRange));
    }
    Ok(&bytes[end - size..end])
}

/// Whether bytes begin and end as a file, and have room for the footer's size.
fn has_magics(bytes: &[u8]) -> bool
    ensures { IsTrue result ↔ HasMagics bytes.now }
{
    bytes.len() >= HEAD.len() + TAIL && bytes.starts_with(&HEAD) && bytes.ends_with(&MAGIC)
}

/// The two vectors of a footer.
#[tactic(auto, unfolding(crate::specs::Reading::vectors_of))]
pub(crate) fn vectors_of(footer: &[u8]) -> Result<Vectors<'_>, FlatFault>
    ensures value { result ≡ vectors_of footer.now }
    ensures dictionaries { IfOk result (λ found. HasBlocks found.dictionaries) }
    ensures batches { IfOk result (λ found. HasBlocks found.batches) }
{
    let table = TableView::root(footer)?;
    let dictionaries = table.vector_at(DICTIONARIES, BLOCK)?;
    let batches = table.vector_at(RECORD_BATCHES, BLOCK)?;
    Ok(Vectors {
        dictionaries,
        batches,
    })
}
