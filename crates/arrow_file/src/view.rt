ghost use Rattle.std.specs.Prelude.{◌≡◌, ◌≤◌, length, map, slice_get, IfOk, IfErr};
ghost use Rattle.std.specs.Option.{option_copied};
ghost use Rattle.arrow_file.specs.Limits.{max_file};
ghost use Rattle.arrow_file.specs.Files.{File};
ghost use Rattle.arrow_file.specs.Defects.{Refuses};

use crate::framing::{HEAD, MAX_FILE, footer_in, vectors_of};
use crate::message::{DICTIONARY_BATCH, RECORD_BATCH, SCHEMA, message_at, messages_of};
use crate::refusal::FileRefusal;
use std::alloc::Global;
use std::marker::Model;

/// An Arrow file in bytes: its Schema message, and the messages that its footer names. It borrows the bytes, and copies none.
#[derive(Debug, Drop)]
pub struct FileView<'a> {
    schema: &'a [u8],
    dictionaries: Vec<&'a [u8]>,
    batches: Vec<&'a [u8]>,
}

impl<'a> Model for FileView<'a> {
    ghost use Rattle.arrow_file.specs.Views.{FileIn};

    ghost Value = { FileIn };

    ghost use Rattle.arrow_file.specs.Inside.{file_in, IsFileInside};

    ghost view = { file_in };

    ghost invariant = { IsFileInside };
}

impl<'a> FileView<'a> {
    /// The file that bytes are. A refusal is the first that holds, or that memory ran out.
    ///
    /// It costs as much as the footer and the metadata of the messages are long. Memory is taken for 16 bytes a message, and for one schema
    /// at a time.
    pub fn open(alloc: Global, bytes: &'a [u8]) -> Result<FileView<'a>, FileRefusal>
        ensures short { IfOk result (λ _. length bytes.now ≤ max_file) }
        ensures file { IfOk result (λ file. File bytes.now file.schema file.dictionaries file.batches) }
        ensures refused { IfErr result (Refuses bytes.now) }
    {
        if bytes.len() > MAX_FILE {
            return Err(FileRefusal::TooLong);
        }
        let footer = footer_in(bytes)?;
        let vectors = vectors_of(footer)?;
        let Some(schema) = message_at(alloc, bytes, SCHEMA, HEAD.len())? else {
            return Err(FileRefusal::BadSchema);
        };
        let from = HEAD.len() + schema.len();
        let Some(dictionaries) = messages_of(
            alloc,
            bytes,
            DICTIONARY_BATCH,
            from,
            &vectors.dictionaries,
        )?
        else {
            return Err(FileRefusal::BadBlock);
        };
        let Some(batches) = messages_of(alloc, bytes, RECORD_BATCH, from, &vectors.batches)? else {
            return Err(FileRefusal::BadBlock);
        };
        Ok(FileView {
            schema,
            dictionaries,
            batches,
        })
    }

    /// The Schema message, whole.
    pub fn schema(&self) -> &'a [u8]
        ensures { result.now ≡ self.now.schema }
    {
        self.schema
    }

    /// The number of dictionary batches.
    pub fn dictionaries(&self) -> u32
        ensures { result ≡ length self.now.dictionaries }
    {
        self.dictionaries.len() as u32
    }

    /// A dictionary batch message, whole, in the footer's order; `None` where there is no such one.
    pub fn dictionary(&self, place: u32) -> Option<&'a [u8]>
        ensures { option_copied result ≡ slice_get self.now.dictionaries place }
    {
        message_of(&self.dictionaries, place)
    }

    /// The number of record batches.
    pub fn batches(&self) -> u32
        ensures { result ≡ length self.now.batches }
    {
        self.batches.len() as u32
    }

    /// A record batch message, whole, in the footer's order; `None` where there is no such one.
    pub fn batch(&self, place: u32) -> Option<&'a [u8]>
        ensures { option_copied result ≡ slice_get self.now.batches place }
    {
        message_of(&self.batches, place)
    }
}

fn message_of<'a>(messages: &[&'a [u8]], place: u32) -> Option<&'a [u8]>
    ensures { option_copied result ≡ slice_get (map (λ m. m.now) messages.now) place }
{
    messages.get(place as usize).copied()
}
