//! The receiver of batches.
ghost use Rattle.std.specs.Prelude.{◌≡◌, ◌++◌, List, true, IfOk, IfErr, OnErr};
ghost use Rattle.lists.specs.Payloads.{PayloadIn};
ghost use Rattle.otap_capture.specs.Capture.{frame_of};
ghost use Rattle.otap_signals.specs.BySignal.{meaning_by};
ghost use Rattle.otap_signals.specs.Regroups.{IsLight, IsRegrouped};
ghost use Rattle.otap_consume.specs.declared.taken.Given.TheVariants as given;
ghost use Rattle.otap_consume.specs.declared.taken.Taken.TheVariants as taken;
ghost use Rattle.otap_consume.specs.LateStages.{IsDefectOfRows};
ghost use Rattle.otap_consume.specs.Opening.{HasLateDefect};
ghost use Rattle.otap_consume.specs.ReceiverInside.{GivesOpened, MakesRequest, MakesUnweighed, ReceivesOpened};
ghost use Rattle.otap_consume.specs.Segments.{CanShow};
ghost use Rattle.otap_consume.specs.Streams.{AreAfter};
ghost use Rattle.otap_consume.specs.Untaken.{SaysDefect};

use crate::not_taken::NotTaken;
use crate::opened::Opened;
use crate::segment::Segment;
use crate::taken::{Given, Taken};
use otap_capture::{Batch, Frame};
use otap_cells::TableSet;
use otap_columns::RowsView;
use otap_signals::Regrouped;
use otlp_model::Signal;
use std::alloc::{AllocError, Global};
use std::marker::Model;

/// A receiver of the batches of a signal, frame by frame. It keeps what a segment keeps. A contract sees it as the frames
/// that it has taken, by their outcomes.
#[derive(Debug, Drop)]
pub struct Receiver {
    alloc: Global,
    segment: Segment,
}

impl Model for Receiver {
    ghost use Rattle.otap_consume.specs.Segments.{SegmentIn};

    ghost Value = { SegmentIn };

    ghost view = { λ s. s.segment };
}

impl Receiver {
    ghost use Rattle.otap_consume.specs.Receivers.{Gives, GivesLightRequest, Receives, HasLightRequest};
    ghost use Rattle.otap_consume.specs.Segments.{IsNew};

    /// A receiver of a signal that has taken no frame.
    pub fn new(alloc: Global, signal: Signal) -> Result<Receiver, AllocError>
        ensures { IfOk result (IsNew signal) }
    {
        let segment = Segment::new(alloc, signal)?;
        Ok(Receiver { alloc, segment })
    }

    /// Takes the next frame: a batch after those before it, or a reset, which begins a segment. A refused frame breaks the
    /// segment, and so does running out of memory: until a reset each batch is then refused. The request of a batch is built
    /// only where its weight is within the limit.
    pub fn take(&mut self, frame: &Frame<'_>) -> Result<Taken, AllocError>
        ensures next { IfOk result (Receives (meaning_by self.old.signal) self.old (frame_of frame.now) self.new) }
        ensures light { IfOk result HasLightRequest }
        ensures memory { OnErr result (self.new.broken ≡ true) }
        ensures signal { self.new.signal ≡ self.old.signal }
    {
        match self.segment.open(frame)? {
            Opened::Batch(batch) => self.take_batch(&batch),
            Opened::Refused(refusal) => Ok(Taken::Refused(refusal)),
            Opened::Reset => Ok(Taken::Reset),
        }
    }

    /// Takes the next frame as [`Receiver::take`] does. Of a batch it returns the id and the request alone: of its row weight it is
    /// only found out whether it is within the limit.
    pub fn request(&mut self, frame: &Frame<'_>) -> Result<Given, AllocError>
        ensures next { IfOk result (Gives (meaning_by self.old.signal) self.old (frame_of frame.now) self.new) }
        ensures light { IfOk result GivesLightRequest }
        ensures memory { OnErr result (self.new.broken ≡ true) }
        ensures signal { self.new.signal ≡ self.old.signal }
    {
        match self.segment.open(frame)? {
            Opened::Batch(batch) => self.request_batch(&batch),
            Opened::Refused(refusal) => Ok(Given::Refused(refusal)),
            Opened::Reset => Ok(Given::Reset),
        }
    }

    /// Begins a new segment.
    pub fn reset(&mut self)
        ensures { IsNew self.old.signal self.new }
    {
        self.segment.reset();
    }

    /// Whether a frame since the last reset was refused, or memory ran out.
    pub fn is_broken(&self) -> bool
        ensures { result ≡ self.now.broken }
    {
        self.segment.is_broken()
    }

    /// Takes a batch that the segment opened last.
    fn take_batch(&mut self, batch: &Batch<'_>) -> Result<Taken, AllocError>
        requires { CanShow self.old.streams batch.now.payloads }
        ensures takes { IfOk result (ReceivesOpened batch.now self.old self.new) }
        ensures light { IfOk result HasLightRequest }
        ensures memory { OnErr result (self.new.broken ≡ true) }
        ensures signal { self.new.signal ≡ self.old.signal }
    {
        match made_of(self.alloc, &self.segment, batch) {
            Ok(made) => Ok(accepted(batch, made)),
            Err(why) => Ok(Taken::Refused(self.segment.refuse_batch(batch, why)?)),
        }
    }

    /// Takes a batch that the segment opened last, for its request.
    fn request_batch(&mut self, batch: &Batch<'_>) -> Result<Given, AllocError>
        requires { CanShow self.old.streams batch.now.payloads }
        ensures gives { IfOk result (GivesOpened batch.now self.old self.new) }
        ensures light { IfOk result GivesLightRequest }
        ensures memory { OnErr result (self.new.broken ≡ true) }
        ensures signal { self.new.signal ≡ self.old.signal }
    {
        match kept_of(self.alloc, &self.segment, batch) {
            Ok(kept) => Ok(given(batch, kept)),
            Err(why) => Ok(Given::Refused(self.segment.refuse_batch(batch, why)?)),
        }
    }
}

/// What is made of a batch: its row weight, and its request.
#[derive(Drop)]
struct Made {
    rows: u64,
    kept: Regrouped,
}

/// What is made of the batch that the segment opened last.
fn made_of(alloc: Global, segment: &Segment, batch: &Batch<'_>) -> Result<Made, NotTaken>
    requires { CanShow segment.now.streams batch.now.payloads }
    ensures makes { IfOk result (λ made. (past : List PayloadIn) → AreAfter (past ++ batch.now.payloads) segment.now.streams
        → MakesRequest segment.now.signal past batch.now.payloads made.rows made.kept) }
    ensures light { IfOk result (λ made. IsLight made.kept) }
    ensures stops { IfErr result (HasLateDefect segment.now.signal segment.now.streams batch.now.payloads) }
{
    let weighed = segment.weigh(batch)?;
    let kept = regroup(alloc, segment.signal(), &weighed.tables)?;
    Ok(Made {
        rows: weighed.rows,
        kept,
    })
}

/// The request of the batch that the segment opened last.
fn kept_of(alloc: Global, segment: &Segment, batch: &Batch<'_>) -> Result<Regrouped, NotTaken>
    requires { CanShow segment.now.streams batch.now.payloads }
    ensures makes { IfOk result (MakesUnweighed segment.now.signal segment.now.streams batch.now.payloads) }
    ensures light { IfOk result IsLight }
    ensures stops { IfErr result (HasLateDefect segment.now.signal segment.now.streams batch.now.payloads) }
{
    let tables = segment.within(batch)?;
    regroup(alloc, segment.signal(), &tables)
}

/// The request of the tables of a batch.
fn regroup(
    alloc: Global,
    signal: Signal,
    set: &TableSet<RowsView<'_>>,
) -> Result<Regrouped, NotTaken>
    ensures regrouped { IfOk result (IsRegrouped (meaning_by signal) set.now) }
    ensures light { IfOk result IsLight }
    ensures stops { IfErr result (SaysDefect (IsDefectOfRows (meaning_by signal) set.now)) }
{
    let kept = otap_signals::regroup(alloc, signal, set)?;
    Ok(kept)
}

fn given(batch: &Batch<'_>, kept: Regrouped) -> Given
    ensures { result ≡ given.Accepted batch.now.id kept.request }
{
    Given::Accepted {
        id: batch.id(),
        request: kept.request,
    }
}

fn accepted(batch: &Batch<'_>, made: Made) -> Taken
    ensures { result ≡ taken.Accepted batch.now.id made.kept.request made.rows made.kept.tree }
{
    let Made { rows, kept } = made;
    Taken::Accepted {
        id: batch.id(),
        request: kept.request,
        rows,
        tree: kept.tree,
    }
}
