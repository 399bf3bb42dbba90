ghost use Rattle.arrow_ipc.specs.Limits.{max_parts, max_count, max_body};
ghost use Rattle.std.specs.Prelude.{◌≡◌, ◌+◌, ◌-◌, ◌*◌, ◌≤◌, ◌<◌, ◌^◌, ◌++◌, ◌∷◌, [], length, replicate, vec_len, pos, OnOk, OnErr};
ghost use Rattle.arrow_ipc.specs.declared.messages.IpcMessage.TheVariants.{Dictionary, Rows};
ghost use Rattle.arrow_ipc.specs.Written.{padded, body_size, most_of_batch, Appends};

use crate::header::{DICTIONARY_BATCH, RECORD_BATCH};
use crate::write::{add_batch, write_message};
use flat_tables::{Builder, Slot};
use std::alloc::{AllocError, Global};
use std::marker::Model;

/// The most nodes, and the most buffers, that a new batch has.
pub const MAX_PARTS: usize = 65_536;

/// What the body of a new batch stays below, in bytes.
pub const MAX_BODY: usize = 1 << 29;

/// The nodes, and the buffers, for which there is room from the first one on.
const LEAST_PARTS: usize = 32;

/// The bytes of a body for which there is room from the first ones on.
const LEAST_ROOM: usize = 1024;

/// Builds a record batch. A contract sees it as the batch that was built so far.
#[derive(Debug, Drop)]
pub struct BatchBuilder {
    rows: u64,
    nodes: Vec<(i64, i64)>,
    /// The offset and the length of each buffer in the body.
    places: Vec<(i64, i64)>,
    body: Vec<u8>,
}

impl Model for BatchBuilder {
    ghost use Rattle.arrow_ipc.specs.Batches.{BatchIn};

    ghost Value = { BatchIn };

    ghost use Rattle.arrow_ipc.specs.Building.{batch_built, IsBuilding};

    ghost view = { batch_built };

    ghost invariant = { IsBuilding };
}

impl BatchBuilder {
    /// A batch of this number of rows, with no nodes and no buffers.
    pub fn new(alloc: Global, rows: u64) -> BatchBuilder
        requires { rows < max_count }
        ensures { result ≡ record { rows = rows; nodes = []; buffers = [] } }
    {
        BatchBuilder {
            rows,
            nodes: Vec::new(alloc),
            places: Vec::new(alloc),
            body: Vec::new(alloc),
        }
    }

    /// Adds a node: the number of rows of a column, and how many of them are null.
    pub fn add(&mut self, rows: u64, nulls: u64) -> Result<(), AllocError>
        requires few { length self.old.nodes < max_parts }
        requires rows { rows < max_count }
        requires nulls { nulls < max_count }
        ensures ok { OnOk result (self.new ≡ record self.old { nodes = self.old.nodes ++ (pos rows, pos nulls) ∷ [] }) }
        ensures err { OnErr result (self.new ≡ self.old) }
    {
        self.nodes
            .reserve(LEAST_PARTS.saturating_sub(self.nodes.len()))?;
        self.nodes.push((rows as i64, nulls as i64))?;
        Ok(())
    }

    /// Adds a buffer, which begins at a multiple of 8 bytes in the body.
    pub fn add_buffer(&mut self, part: &[u8]) -> Result<(), AllocError>
        requires few { length self.old.buffers < max_parts }
        requires room { body_size self.old.buffers + padded (length part.now) < max_body }
        ensures ok { OnOk result (self.new ≡ record self.old { buffers = self.old.buffers ++ part.now ∷ [] }) }
        ensures err { OnErr result (self.new ≡ self.old) }
    {
        let end = self.body.len();
        let offset = padded(end);
        self.places
            .reserve(LEAST_PARTS.saturating_sub(self.places.len()).max(1))?;
        append(&mut self.body, offset, part)?;
        self.places.push((offset as i64, part.len() as i64))?;
        Ok(())
    }

    /// Appends the batch as a record batch message. Its length and the offset of its body are
    /// multiples of 8.
    pub fn finish_rows(self, to: &mut Vec<u8>) -> Result<(), AllocError>
        ensures ok { OnOk result (Appends (Rows self) (most_of_batch self) to.old.items to.new.items) }
        ensures err { OnErr result (to.new.items ≡ to.old.items) }
    {
        let mut builder = Builder::new(*to.allocator());
        let batch = add_batch(&mut builder, self.rows, &self.nodes, &self.places)?;
        write_message(to, builder, RECORD_BATCH, batch, &self.body)?;
        Ok(())
    }

    /// Appends the batch as a dictionary batch message, whose values replace those of the
    /// dictionary or, as a delta, are added to them.
    pub fn finish_dictionary(self, to: &mut Vec<u8>, id: i64, delta: bool) -> Result<(), AllocError>
        ensures ok { OnOk result (Appends (Dictionary id delta self) (most_of_batch self) to.old.items to.new.items) }
        ensures err { OnErr result (to.new.items ≡ to.old.items) }
    {
        let mut builder = Builder::new(*to.allocator());
        let batch = add_batch(&mut builder, self.rows, &self.nodes, &self.places)?;
        let header = builder.add_table(&[
            Slot::I64(id),
            Slot::At(batch),
            Slot::U8(u8::from(delta)),
        ])?;
        write_message(to, builder, DICTIONARY_BATCH, header, &self.body)?;
        Ok(())
    }
}

/// The next multiple of 8.
pub(crate) fn padded(len: usize) -> usize
    requires { len < 2 ^ 62 }
    ensures { result ≡ padded len }
{
    (len + 7) / 8 * 8
}

/// Appends a part from an offset on, after zero bytes.
fn append(body: &mut Vec<u8>, offset: usize, part: &[u8]) -> Result<(), AllocError>
    requires offset { vec_len body.old ≤ offset }
    requires room { offset + length part.now < 2 ^ 63 }
    ensures ok { OnOk result (body.new.items ≡ body.old.items ++ (replicate (offset - vec_len body.old) 0 ++ part.now)) }
    ensures err { OnErr result (body.new.items ≡ body.old.items) }
{
    body.reserve(LEAST_ROOM.max(offset + part.len()) - body.len())?;
    body.resize(offset, 0)?;
    body.extend_from_slice(part)?;
    Ok(())
}
