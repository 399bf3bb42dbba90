//! `file`: the Arrow file of one sub-stream. What a frame adds to it is made here; [`crate::runs::filing`] runs the job.

ghost use Rattle.std.specs.Prelude.{◌≡◌, ◌≤◌, ◌<◌, not, length, find, None, IfOk, OnOk};
ghost use Rattle.std.specs.Option.{option_copied, option_map};
ghost use Rattle.arrow_file.specs.Limits.{max_batches};
ghost use Rattle.otap_capture.specs.Batch.{content_of};
ghost use Rattle.otap_capture.specs.Capture.{frame_of};
ghost use Rattle.otap_cells.specs.Payload.{is_kind};
ghost use Rattle.otap_cells.specs.Weights.{row_weight_limit, weight_of_table};
ghost use Rattle.otap_columns.specs.Streams.{is_of};
ghost use Rattle.otap_gateway.specs.FilingSteps.{AddsBatch, AddsRows, AddsTable, HasAccepted, HasSomeFile, HoldsSome, IsNewSubstream, Notes, Passes, TakesBatch, TakesFrame, is_within, open_in, opens_anew};

use crate::jobs::receiving::refused;
use crate::jobs::reply::Reply;
use arrow_file::{FileWriter, MAX_BATCHES};
use otap_capture::{Batch, Frame, Payload, read_batch};
use otap_cells::{Kind, Rows, TableSet};
use otap_columns::{plain_batch, plain_schema};
use otap_consume::{Seen, Segment};
use std::alloc::{AllocError, Global};

/// Where a capture is among the sub-streams of a payload type, which are counted as they open.
#[derive(Clone, Copy)]
pub(crate) enum Position {
    /// So many others open before the one that is looked for.
    Before { others: u32 },
    /// It is the one that opened last.
    Within,
    /// Others opened after it.
    After,
}

impl Position {
    /// The position once one more sub-stream opened.
    fn next(self) -> Position
        ensures { Passes self result }
    {
        match self {
            Position::Before { others: 0 } => Position::Within,
            Position::Before { others } => Position::Before { others: others - 1 },
            Position::Within | Position::After => Position::After,
        }
    }

    fn is_within(self) -> bool
        ensures { result ≡ is_within self }
    {
        match self {
            Position::Within => true,
            Position::Before { .. } | Position::After => false,
        }
    }
}

/// The file of some tables.
#[derive(Drop)]
pub(crate) enum TableFile {
    /// There is no table yet.
    Empty,
    /// A record batch for each table.
    Written { writer: FileWriter, batches: usize },
    /// There are more tables than a file may have record batches.
    TooMany,
}

impl TableFile {
    /// The file with one more table.
    fn with_table<R: Rows>(
        self,
        alloc: Global,
        kind: Kind,
        rows: &R,
    ) -> Result<TableFile, AllocError>
        requires kind { (R.table rows.now).kind ≡ kind }
        requires light { weight_of_table (R.table rows.now) ≤ row_weight_limit }
        requires holds { HoldsSome self }
        ensures { IfOk result (AddsTable (R.table rows.now) self) }
    {
        match self {
            TableFile::Empty => {
                let schema = plain_schema(alloc, kind, rows)?;
                let writer = FileWriter::new(alloc, &schema)?;
                with_batch(writer, 0, alloc, kind, rows)
            }
            TableFile::Written { writer, batches } if batches < MAX_BATCHES => {
                with_batch(writer, batches, alloc, kind, rows)
            }
            TableFile::Written { .. } | TableFile::TooMany => Ok(TableFile::TooMany),
        }
    }
}

/// The file with a record batch more.
fn with_batch<R: Rows>(
    mut writer: FileWriter,
    batches: usize,
    alloc: Global,
    kind: Kind,
    rows: &R,
) -> Result<TableFile, AllocError>
    requires kind { (R.table rows.now).kind ≡ kind }
    requires light { weight_of_table (R.table rows.now) ≤ row_weight_limit }
    requires counted { length writer.blocks ≡ batches }
    requires few { batches < max_batches }
    ensures { IfOk result (AddsBatch (R.table rows.now) writer batches) }
{
    let _rows = rows.rows();
    let batch = plain_batch(alloc, kind, rows)?;
    writer.add_rows(batch)?;
    Ok(TableFile::Written {
        writer,
        batches: batches + 1,
    })
}

/// The sub-stream that is looked for: where the capture is, and the file so far.
#[derive(Drop)]
pub(crate) struct Substream {
    position: Position,
    /// The schema id of the type's sub-stream that is open in the segment.
    schema_id: Option<Vec<u8>>,
    file: TableFile,
}

impl Substream {
    /// The sub-stream that opens after this number of others.
    pub(crate) fn new(number: u32) -> Substream
        ensures { IsNewSubstream number result }
    {
        Substream {
            position: Position::Before { others: number },
            schema_id: None,
            file: TableFile::Empty,
        }
    }

    /// Takes the batch that the segment took last.
    fn take_batch(
        &mut self,
        alloc: Global,
        kind: Kind,
        segment: &Segment,
        frame: &Frame<'_>,
    ) -> Result<(), AllocError>
        requires accepted { HasAccepted (frame_of frame.now) segment.now }
        requires holds { HoldsSome self.old.file }
        ensures { OnOk result (TakesBatch kind (frame_of frame.now) segment.now self.old self.new) }
    {
        let Frame::Message(bytes) = frame else {
            unreachable!()
        };
        let Ok(batch) = read_batch(bytes) else {
            unreachable!()
        };
        let Some(payload) = payload_of(&batch, kind.number()) else {
            return Ok(());
        };
        self.note(alloc, payload.schema_id)?;
        if !self.position.is_within() {
            return Ok(());
        }
        let set = segment.tables(alloc, &batch)?;
        let Some(rows) = rows_of(&set, kind) else {
            unreachable!()
        };
        self.add(alloc, kind, rows)
    }

    /// Notes the schema id of the type's next payload. Where another one is open, the payload opens a sub-stream.
    fn note(&mut self, alloc: Global, schema_id: &str) -> Result<(), AllocError>
        ensures { OnOk result (Notes schema_id.now self.old self.new) }
    {
        if self.is_open(schema_id) {
            return Ok(());
        }
        self.position = self.position.next();
        self.schema_id = Some(schema_id.as_bytes().to_vec(alloc)?);
        Ok(())
    }

    fn is_open(&self, schema_id: &str) -> bool
        ensures { opens_anew (open_in self.now) schema_id.now ≡ not result }
    {
        match &self.schema_id {
            Some(current) => current.as_slice() == schema_id.as_bytes(),
            None => false,
        }
    }

    /// Adds a table to the file.
    fn add<R: Rows>(&mut self, alloc: Global, kind: Kind, rows: &R) -> Result<(), AllocError>
        requires kind { (R.table rows.now).kind ≡ kind }
        requires light { weight_of_table (R.table rows.now) ≤ row_weight_limit }
        requires holds { HoldsSome self.old.file }
        ensures { OnOk result (AddsRows (R.table rows.now) self.old self.new) }
    {
        let file = self.take_file();
        self.file = file.with_table(alloc, kind, rows)?;
        Ok(())
    }

    /// Begins a segment, in which no sub-stream is open.
    fn reset(&mut self)
        ensures { self.new ≡ record self.old { schema_id = None } }
    {
        self.schema_id = None;
    }

    /// The file, which is taken out.
    pub(crate) fn take_file(&mut self) -> TableFile
        ensures file { result ≡ self.old.file }
        ensures position { self.new.position ≡ self.old.position }
        ensures current { self.new.schema_id ≡ self.old.schema_id }
    {
        std::mem::replace(&mut self.file, TableFile::Empty)
    }
}

/// The reply to a frame, whose table goes to the file where it is one of the sub-stream.
pub(crate) fn take_frame(
    alloc: Global,
    kind: Kind,
    segment: &mut Segment,
    substream: &mut Substream,
    number: u64,
    frame: &Frame<'_>,
) -> Result<Reply, AllocError>
    requires { HasSomeFile kind segment.old substream.old }
    ensures signal { segment.new.signal ≡ segment.old.signal }
    ensures takes { IfOk result (TakesFrame kind (frame_of frame.now) segment.old segment.new substream.old substream.new number) }
{
    let returned = segment.take(frame)?;
    match returned {
        Seen::Batch { .. } => {
            substream.take_batch(alloc, kind, segment, frame)?;
            Ok(Reply::on_out(alloc, Vec::new(alloc)))
        }
        Seen::Refused(refusal) => refused(alloc, number, refusal),
        Seen::Reset => {
            substream.reset();
            Ok(Reply::on_out(alloc, Vec::new(alloc)))
        }
    }
}

/// The payload of a type in a batch.
fn payload_of<'v>(batch: &Batch<'v>, number: i32) -> Option<Payload<'v>>
    ensures { option_map content_of result ≡ find (is_of number) batch.now.payloads }
{
    'payloads: for payload in batch.payloads() {
        if payload.kind == number {
            return Some(payload);
        }
    }
    None
}

/// The table of a kind in a set.
fn rows_of<R: Rows>(set: &TableSet<R>, kind: Kind) -> Option<&R>
    ensures { option_map (λ rows. R.table rows) (option_copied result) ≡ find (λ t. is_kind t.kind kind) set.now }
{
    'tables: for (_, rows) in &set.tables {
        if rows.kind() == kind {
            return Some(rows);
        }
    }
    None
}
