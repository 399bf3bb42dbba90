ghost use Rattle.std.specs.Prelude.{◌≡◌, ◌≤◌, ◌<◌, [], length, IsTrue, IfOk, OnOk, OnErr};
ghost use Rattle.arrow_schema.specs.Trees.{count_of};
ghost use Rattle.arrow_schema.specs.Limits.{max_written_fields, max_written_names};
ghost use Rattle.arrow_schema.specs.Writing.{names_of, widths_fit, encodings_named};
ghost use Rattle.arrow_file.specs.Limits.{max_batches};
ghost use Rattle.arrow_file.specs.Writers.{StandsFor, AddsRows, Finishes};
ghost use Rattle.arrow_file.specs.BlockBytes.{AppendsRows};

use crate::block::{Block, block_of};
use crate::footer::{append_end, footer_of};
use crate::framing::HEAD;
use crate::message::rest;
use arrow_ipc::{BatchBuilder, write_schema};
use arrow_schema::{SchemaSpec, add_schema};
use flat_tables::{Builder, Place};
use std::alloc::{AllocError, Global};
use std::marker::Model;

/// The most record batches of a file that is written.
pub const MAX_BATCHES: usize = 1 << 16;

/// Writes an Arrow file: a schema, and record batches one after the other. A contract sees what was written so far;
/// `StandsFor` ties it to the schema and the record batches.
#[derive(Debug, Drop)]
pub struct FileWriter {
    /// The file so far, up to the last record batch message.
    bytes: Vec<u8>,
    blocks: Vec<Block>,
    /// What was built of the footer, and the offset of the schema in it.
    footer: Builder,
    schema: Place,
}

impl Model for FileWriter {
    ghost use Rattle.arrow_file.specs.Writers.{WriterIn};

    ghost Value = { WriterIn };

    ghost use Rattle.arrow_file.specs.Inside.{writer_in, IsWriterInside};

    ghost view = { writer_in };

    ghost invariant = { IsWriterInside };
}

impl FileWriter {
    /// A file with a schema and no record batches yet.
    pub fn new(alloc: Global, spec: &SchemaSpec) -> Result<FileWriter, AllocError>
        requires few { count_of spec.now ≤ max_written_fields }
        requires names { names_of spec.now ≤ max_written_names }
        requires widths { IsTrue (widths_fit spec.now) }
        requires encodings { IsTrue (encodings_named spec.now) }
        ensures stands { IfOk result (StandsFor spec.now []) }
        ensures empty { IfOk result (λ w. w.blocks ≡ []) }
    {
        let mut bytes = Vec::new(alloc);
        bytes.extend_from_slice(&HEAD)?;
        write_schema(&mut bytes, spec)?;
        let mut footer = Builder::new(alloc);
        let schema = add_schema(&mut footer, spec)?;
        Ok(FileWriter {
            bytes,
            blocks: Vec::new(alloc),
            footer,
            schema,
        })
    }

    /// Adds a record batch. Where memory runs out, the file is as it was, and the batch is dropped.
    pub fn add_rows(&mut self, batch: BatchBuilder) -> Result<(), AllocError>
        requires { length self.old.blocks < max_batches }
        ensures ok { OnOk result (AddsRows batch self.old self.new) }
        ensures err { OnErr result (self.new ≡ self.old) }
    {
        self.blocks.reserve(1)?;
        let block = append_rows(&mut self.bytes, batch)?;
        self.blocks.push(block)?;
        Ok(())
    }

    /// The whole file: what was added, the end mark, and a footer with the schema and the blocks of the record batches.
    pub fn finish(self) -> Result<Vec<u8>, AllocError>
        ensures { IfOk result (λ bytes. Finishes self bytes.items) }
    {
        let FileWriter {
            mut bytes,
            blocks,
            footer,
            schema,
        } = self;
        let footer = footer_of(footer, schema, &blocks)?;
        append_end(&mut bytes, &footer)?;
        Ok(bytes)
    }
}

/// Appends a record batch message, and returns its block.
fn append_rows(bytes: &mut Vec<u8>, batch: BatchBuilder) -> Result<Block, AllocError>
    requires nodes { length batch.nodes ≤ 65536 }
    requires buffers { length batch.buffers ≤ 65536 }
    ensures ok { IfOk result (AppendsRows batch bytes.old.items bytes.new.items) }
    ensures err { OnErr result (bytes.new.items ≡ bytes.old.items) }
{
    let offset = bytes.len();
    batch.finish_rows(bytes)?;
    let message = rest(bytes, offset);
    Ok(block_of(offset, message))
}
