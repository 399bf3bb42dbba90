//! Segments of captures.
ghost use Rattle.std.specs.Prelude.{◌≡◌, ◌++◌, List, map, None, Some, IfOk, IfErr, OnErr, true, false, if◌then◌else◌};
ghost use Rattle.lists.specs.Payloads.{PayloadIn};
ghost use Rattle.otap_capture.specs.Capture.{Message, frame_of};
ghost use Rattle.otap_cells.specs.Weights.{weight_of_tables};
ghost use Rattle.otap_consume.specs.declared.seen.Seen.TheVariants as seen;
ghost use Rattle.otap_consume.specs.Opening.{HasLateDefect, IsChecked, IsOverLimit, IsWeighed, Opens, Weighs, refusal_by};
ghost use Rattle.otap_consume.specs.Outcomes.{refusal_of, unread_cause};
ghost use Rattle.otap_consume.specs.Streams.{AreAfter};
ghost use Rattle.otap_consume.specs.StreamSteps.{closed};
ghost use Rattle.otap_consume.specs.Taking.{NextOpened, OpensMessage};

use crate::checking::tree_within;
use crate::not_taken::NotTaken;
use crate::opened::{Checked, Opened, Weighed};
use crate::refusal::{Cause, Refusal};
use crate::seen::Seen;
use crate::stream::Stream;
use crate::taking::{open_payloads, within};
use crate::views::views;
use otap_capture::{Batch, BatchRefusal, Frame, read_batch};
use otap_cells::{TableSet, kinds, row_weight};
use otap_columns::RowsView;
use otlp_model::Signal;
use std::alloc::{AllocError, Global};
use std::marker::Model;

/// The batches of a segment: the frames between two resets. It keeps of each payload type the sub-stream that is open, and
/// no batch. A contract sees it as the frames that it has taken, by their outcomes.
#[derive(Debug, Drop)]
pub struct Segment {
    alloc: Global,
    signal: Signal,
    streams: Vec<Stream>,
    broken: bool,
}

impl Model for Segment {
    ghost use Rattle.otap_consume.specs.Segments.{SegmentIn};

    ghost Value = { SegmentIn };

    ghost use Rattle.otap_consume.specs.SegmentInside.{segment_in, IsSegment};

    ghost view = { segment_in };

    ghost invariant = { IsSegment };
}

impl Segment {
    ghost use Rattle.otap_consume.specs.declared.refusal.Cause.TheVariants.{Broken};
    ghost use Rattle.otap_consume.specs.Segments.{IsNew, Next, TakesIf, CanShow, TablesOf};

    /// A segment that has taken no frame.
    pub fn new(alloc: Global, signal: Signal) -> Result<Segment, AllocError>
        ensures { IfOk result (IsNew signal) }
    {
        let mut streams = Vec::new(alloc);
        'kinds: for kind in kinds(signal) {
            streams.push(Stream::new(*kind))?;
        }
        Ok(Segment {
            alloc,
            signal,
            streams,
            broken: false,
        })
    }

    /// Takes the next frame: a batch after those before it, or a reset, which begins a segment. A refused frame breaks the
    /// segment, and so does running out of memory: until a reset each batch is then refused.
    pub fn take(&mut self, frame: &Frame<'_>) -> Result<Seen, AllocError>
        ensures next { IfOk result (Next self.old (frame_of frame.now) self.new) }
        ensures taken { IfOk result (TakesIf (frame_of frame.now) self.new) }
        ensures memory { OnErr result (self.new.broken ≡ true) }
        ensures signal { self.new.signal ≡ self.old.signal }
    {
        match self.open(frame)? {
            Opened::Batch(batch) => self.weigh_batch(&batch),
            Opened::Refused(refusal) => Ok(Seen::Refused(refusal)),
            Opened::Reset => Ok(Seen::Reset),
        }
    }

    /// Opens the next frame: a batch after those before it, as far as its records, or a reset, which begins a segment. What it
    /// refuses, `take` refuses too. A refused frame breaks the segment, and so does running out of memory. The caller then
    /// looks at its tables by [`Segment::check`], or by [`Segment::within`] or [`Segment::weigh`] and then at their rows; where
    /// the batch isn't taken, [`Segment::refuse_batch`] breaks the segment.
    pub fn open<'f>(&mut self, frame: &Frame<'f>) -> Result<Opened<'f>, AllocError>
        ensures opens { IfOk result (Opens self.old (frame_of frame.now) self.new) }
        ensures memory { OnErr result (self.new.broken ≡ true) }
        ensures signal { self.new.signal ≡ self.old.signal }
    {
        match frame {
            Frame::Message(bytes) => self.open_message(bytes),
            Frame::Packed => Ok(Opened::Refused(self.refuse_unread(Cause::Compressed))),
            Frame::Reset => {
                self.reset();
                Ok(Opened::Reset)
            }
        }
    }

    /// The tables of the batch that the last call of `open` returned, one for each payload, and their row weight. Where the
    /// batch exceeds a limit the cause is [`Cause::TooManyItems`], [`Cause::RowsTooHeavy`] or [`Cause::HeldTooMuch`], of no
    /// one payload.
    pub fn weigh<'v>(&'v self, batch: &Batch<'v>) -> Result<Weighed<'v>, NotTaken>
        requires { CanShow self.now.streams batch.now.payloads }
        ensures weighs { IfOk result (IsWeighed self.now.signal self.now.streams batch.now.payloads) }
        ensures stops { IfErr result (IsOverLimit self.now.signal self.now.streams batch.now.payloads) }
    {
        let tables = self.within(batch)?;
        let rows = row_weight(&tables);
        Ok(Weighed { tables, rows })
    }

    /// The tables of the batch that the last call of `open` returned, one for each payload, where it is within the limits. Of their
    /// row weight only that is found out.
    pub fn within<'v>(&'v self, batch: &Batch<'v>) -> Result<TableSet<RowsView<'v>>, NotTaken>
        requires { CanShow self.now.streams batch.now.payloads }
        ensures within { IfOk result (λ set. IsWeighed self.now.signal self.now.streams batch.now.payloads (record { tables = set; rows = weight_of_tables set })) }
        ensures stops { IfErr result (IsOverLimit self.now.signal self.now.streams batch.now.payloads) }
    {
        within(self.alloc, self.signal, &self.streams, batch)
    }

    /// The tables of the batch that the last call of `open` returned, one for each payload, with the tree weight of their request,
    /// which isn't built. Where the batch is too large, something is wrong with its rows, or its
    /// request weighs too much, this says so, in the causes of a receiver.
    pub fn check<'v>(&'v self, batch: &Batch<'v>) -> Result<Checked<'v>, NotTaken>
        requires { CanShow self.now.streams batch.now.payloads }
        ensures checks { IfOk result (IsChecked self.now.signal self.now.streams batch.now.payloads) }
        ensures stops { IfErr result (HasLateDefect self.now.signal self.now.streams batch.now.payloads) }
    {
        let tables = self.within(batch)?;
        let tree = tree_within(self.alloc, self.signal(), &tables)?;
        Ok(Checked { tables, tree })
    }

    /// Breaks the segment, and returns the refusal of the batch that was opened last. Out of memory is passed on.
    pub fn refuse_batch(&mut self, batch: &Batch<'_>, why: NotTaken) -> Result<Refusal, AllocError>
        ensures refusal { result ≡ refusal_by batch.now why }
        ensures broken { self.new ≡ record self.old { broken = true } }
    {
        self.refuse();
        match why {
            NotTaken::Defect { cause, payload } => Ok(refused(batch, cause, payload)),
            NotTaken::Memory(error) => Err(error),
        }
    }

    /// The tables of the batch that the last call of `take` returned, one for each payload.
    pub fn tables<'v>(
        &'v self,
        alloc: Global,
        batch: &Batch<'v>,
    ) -> Result<TableSet<RowsView<'v>>, AllocError>
        requires whole { self.now.broken ≡ false }
        requires taken { CanShow self.now.streams batch.now.payloads }
        ensures { IfOk result (λ set. TablesOf self.now batch.now.payloads set) }
    {
        let set = views(alloc, &self.streams, batch)?;
        Ok(set)
    }

    /// Breaks the segment: a later stage refuses the batch that was taken last.
    pub fn refuse(&mut self)
        ensures { self.new ≡ record self.old { broken = true } }
    {
        self.broken = true;
    }

    /// Begins a new segment.
    pub fn reset(&mut self)
        ensures { IsNew self.old.signal self.new }
    {
        close_all(&mut self.streams);
        self.broken = false;
    }

    /// Whether a frame since the last reset was refused, or memory ran out.
    pub fn is_broken(&self) -> bool
        ensures { result ≡ self.now.broken }
    {
        self.broken
    }

    /// The signal of its batches.
    pub fn signal(&self) -> Signal
        ensures { result ≡ self.now.signal }
    {
        self.signal
    }

    fn open_message<'f>(&mut self, bytes: &'f [u8]) -> Result<Opened<'f>, AllocError>
        ensures opens { IfOk result (Opens self.old (Message bytes.now) self.new) }
        ensures memory { OnErr result (self.new.broken ≡ true) }
        ensures signal { self.new.signal ≡ self.old.signal }
    {
        match read_batch(bytes) {
            Ok(batch) => self.open_batch(batch),
            Err(refusal) => Ok(Opened::Refused(self.refuse_unread(unread_cause(refusal)))),
        }
    }

    fn open_batch<'f>(&mut self, batch: Batch<'f>) -> Result<Opened<'f>, AllocError>
        ensures opens { IfOk result (OpensMessage self.old batch.entry self.new) }
        ensures memory { OnErr result (self.new.broken ≡ true) }
        ensures signal { self.new.signal ≡ self.old.signal }
    {
        if self.broken {
            return Ok(Opened::Refused(refused(&batch, Cause::Broken, None)));
        }
        match open_payloads(self.alloc, self.signal, &mut self.streams, &batch) {
            Ok(()) => Ok(Opened::Batch(batch)),
            Err(why) => Ok(Opened::Refused(self.refuse_batch(&batch, why)?)),
        }
    }

    /// What a batch gives that was opened last.
    fn weigh_batch(&mut self, batch: &Batch<'_>) -> Result<Seen, AllocError>
        requires { CanShow self.old.streams batch.now.payloads }
        ensures next { IfOk result (NextOpened batch.now self.old self.new) }
        ensures memory { OnErr result (self.new.broken ≡ true) }
        ensures signal { self.new.signal ≡ self.old.signal }
    {
        match self.row_weight(batch) {
            Ok(rows) => Ok(accepted(batch, rows)),
            Err(why) => Ok(Seen::Refused(self.refuse_batch(batch, why)?)),
        }
    }

    /// The row weight of the batch that was opened last.
    fn row_weight(&self, batch: &Batch<'_>) -> Result<u64, NotTaken>
        requires { CanShow self.now.streams batch.now.payloads }
        ensures weighs { IfOk result (λ rows. (past : List PayloadIn) → AreAfter (past ++ batch.now.payloads) self.now.streams
            → Weighs self.now.signal past batch.now.payloads rows) }
        ensures stops { IfErr result (IsOverLimit self.now.signal self.now.streams batch.now.payloads) }
    {
        let made = self.weigh(batch)?;
        Ok(made.rows)
    }

    /// A frame whose message can't be read.
    fn refuse_unread(&mut self, cause: Cause) -> Refusal
        ensures returned { result ≡ refusal_of None (if self.old.broken then Broken else cause) None }
        ensures broken { self.new ≡ record self.old { broken = true } }
    {
        let cause = if self.broken { Cause::Broken } else { cause };
        self.refuse();
        Refusal::new(None, cause, None)
    }
}

fn accepted(batch: &Batch<'_>, rows: u64) -> Seen
    ensures { result ≡ seen.Batch batch.now.id rows }
{
    let id = batch.id();
    Seen::Batch { id, rows }
}

fn refused(batch: &Batch<'_>, cause: Cause, payload: Option<i32>) -> Refusal
    ensures { result ≡ refusal_of (Some batch.now.id) cause payload }
{
    Refusal::new(Some(batch.id()), cause, payload)
}

fn unread_cause(refusal: BatchRefusal) -> Cause
    ensures { result ≡ unread_cause refusal }
{
    match refusal {
        BatchRefusal::BadMessage => Cause::BadMessage,
        BatchRefusal::Repeated => Cause::Repeated,
        BatchRefusal::BadUtf8 => Cause::BadUtf8,
    }
}

/// Closes all sub-streams.
fn close_all(streams: &mut [Stream])
    ensures { streams.new ≡ map closed streams.old }
{
    'streams: for place in 0..streams.len() {
        streams[place].close();
    }
}
