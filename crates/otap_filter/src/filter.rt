//! The filter of a signal.

ghost use Rattle.std.specs.Prelude.{◌≡◌, ◌<◌, [], IfErr, IfOk, IfSome, OnErr};
ghost use Rattle.otap_capture.specs.Capture.{frame_of};
ghost use Rattle.otap_kept.specs.Texts.{text_under};
ghost use Rattle.otap_consume.specs.Opening.{HasLateDefect};
ghost use Rattle.otap_consume.specs.Segments.{CanShow};
ghost use Rattle.otap_produce.specs.Limits.{batch_limit};
ghost use Rattle.otap_filter.specs.Filters.{Filters, HasPairs, HasSameRule, RanOut, StandsFor, answer_of};
ghost use Rattle.otap_filter.specs.Inside.{BeginsAnew, CanBeSent, FiltersOpened, IsKeptOfOpened, SendsSet};

use crate::filtered::Filtered;
use otap_capture::{Batch, Frame};
use otap_cells::{LogicalTable, TableSet};
use otap_consume::receiving_laws::checked_frames_have_outcomes;
use otap_consume::{NotTaken, Opened, Segment};
use otap_kept::laws::{rows_are_no_heavier, what_is_kept_can_be_written};
use otap_kept::{TextPair, Whose, kept};
use otap_produce::Senders;
use otap_produce::laws::profile_tables_can_be_written;
use otlp_model::Signal;
use std::alloc::{AllocError, Global};
use std::marker::Model;

/// A filter of the batches of a signal: of each batch it keeps the items that have a pair whose value is a text, or whose resources
/// have it, and writes the batch message of what is kept. Of a segment it keeps what is needed to read the next batch, and what
/// decides the next message. A contract sees this state, and `StandsFor` says after which frames a filter has it.
#[derive(Debug, Drop)]
pub struct Filter {
    alloc: Global,
    whose: Whose,
    key: String,
    text: String,
    segment: Segment,
    senders: Senders,
    batches: u64,
}

impl Model for Filter {
    ghost use Rattle.std.specs.Prelude.{string_bytes};
    ghost use Rattle.otap_kept.specs.Texts.{text_under};
    ghost use Rattle.otap_filter.specs.Filters.{FilterIn};
    ghost use Rattle.otap_filter.specs.Inside.{IsFilter};

    ghost Value = { FilterIn };

    ghost use Rattle.std.specs.Coded.{codes};
    ghost use Rattle.otlp_model.specs.contracts.value.Pair as pair;

    ghost coded = { Prim.hlevel (codes, pair.the_row.coded) };

    ghost view = { λ f. record {
      whose = f.whose;
      pair = text_under (string_bytes f.key) (string_bytes f.text);
      segment = f.segment;
      sent = f.senders;
      batches = f.batches;
    } };

    ghost invariant = { λ f. IsFilter f.segment.signal f.senders f.batches };
}

impl Filter {
    /// A filter that has taken no frame. It looks for the pair of this key and this text among the pairs of each item, or of its
    /// resource.
    pub fn new(
        alloc: Global,
        signal: Signal,
        whose: Whose,
        key: &str,
        text: &str,
    ) -> Result<Filter, AllocError>
        requires { HasPairs signal whose }
        ensures { IfOk result (StandsFor signal whose (text_under key.now text.now) []) }
    {
        let key = String::from_str(alloc, key)?;
        let text = String::from_str(alloc, text)?;
        let segment = Segment::new(alloc, signal)?;
        let senders = Senders::new(alloc, signal)?;
        Ok(Filter {
            alloc,
            whose,
            key,
            text,
            segment,
            senders,
            batches: 0,
        })
    }

    /// Takes the next frame: a batch after those before it, or a reset, which begins a segment. It refuses what a receiver refuses.
    /// A refused frame breaks the filter, and so does running out of memory: until a reset each batch is then refused. A batch of
    /// which what is kept isn't ordered is taken, but nothing is written for it.
    pub fn take(&mut self, frame: &Frame<'_>) -> Result<Filtered, AllocError>
        requires { self.old.batches < batch_limit }
        ensures next { IfOk result (λ found. Filters self.old (frame_of frame.now) self.new (answer_of found)) }
        ensures memory { OnErr result (RanOut self.old self.new) }
        ensures rule { HasSameRule self.old self.new }
    {
        checked_frames_have_outcomes();
        match self.segment.open(frame)? {
            Opened::Batch(batch) => self.take_batch(&batch),
            Opened::Refused(refusal) => Ok(Filtered::Refused(refusal)),
            Opened::Reset => {
                self.begin_anew();
                Ok(Filtered::Reset)
            }
        }
    }

    /// How many batch messages were returned since the latest reset.
    pub fn batches(&self) -> u64
        ensures { result ≡ self.now.batches }
    {
        self.batches
    }

    /// Begins a new segment.
    pub fn reset(&mut self)
        ensures { StandsFor self.old.segment.signal self.old.whose self.old.pair [] self.new }
    {
        self.segment.reset();
        self.begin_anew();
    }

    /// Whether a frame since the latest reset was refused, or memory ran out.
    pub fn is_broken(&self) -> bool
        ensures { result ≡ self.now.segment.broken }
    {
        self.segment.is_broken()
    }

    /// Forgets what was sent: a new segment begins.
    fn begin_anew(&mut self)
        ensures { BeginsAnew self.old self.new }
    {
        self.senders.reset();
        self.batches = 0;
    }

    /// Takes a batch that the segment opened last.
    fn take_batch(&mut self, batch: &Batch<'_>) -> Result<Filtered, AllocError>
        requires batches { self.old.batches < batch_limit }
        requires shows { CanShow self.old.segment.streams batch.now.payloads }
        ensures next { IfOk result (λ found. FiltersOpened batch.now self.old self.new (answer_of found)) }
        ensures memory { OnErr result (RanOut self.old self.new) }
        ensures rule { HasSameRule self.old self.new }
    {
        checked_frames_have_outcomes();
        match self.kept(batch) {
            Ok(Some(set)) => self.send(batch.id(), &set),
            Ok(None) => Ok(Filtered::Unordered { id: batch.id() }),
            Err(why) => Ok(Filtered::Refused(self.segment.refuse_batch(batch, why)?)),
        }
    }

    /// What is kept of the batch that the segment opened last; `None` where it isn't ordered.
    fn kept(&self, batch: &Batch<'_>) -> Result<Option<TableSet<LogicalTable>>, NotTaken>
        requires { CanShow self.now.segment.streams batch.now.payloads }
        ensures keeps { IfOk result (IsKeptOfOpened self.now batch.now.payloads) }
        ensures fit { IfOk result (λ found. IfSome found (CanBeSent self.now)) }
        ensures stops { IfErr result (HasLateDefect self.now.segment.signal self.now.segment.streams batch.now.payloads) }
    {
        what_is_kept_can_be_written();
        rows_are_no_heavier();
        profile_tables_can_be_written();
        let checked = self.segment.check(batch)?;
        let pair = TextPair {
            key: self.key.as_str(),
            text: self.text.as_str(),
        };
        let found = kept(
            self.alloc,
            self.segment.signal(),
            self.whose,
            &pair,
            &checked.tables,
        )?;
        Ok(found)
    }

    /// The batch message of tables that were kept. Where memory runs out, the filter is broken, and its senders begin anew, since
    /// what they sent is unknown.
    fn send(&mut self, id: i64, set: &TableSet<LogicalTable>) -> Result<Filtered, AllocError>
        requires batches { self.old.batches < batch_limit }
        requires fit { CanBeSent self.old set.now }
        ensures sends { IfOk result (λ found. SendsSet id set.now self.old self.new (answer_of found)) }
        ensures memory { OnErr result (RanOut self.old self.new) }
        ensures rule { HasSameRule self.old self.new }
    {
        match self.senders.send_all(id, &set.tables) {
            Ok(bytes) => {
                self.batches += 1;
                Ok(Filtered::Batch { id, bytes })
            }
            Err(error) => {
                self.segment.refuse();
                self.senders.reset();
                Err(error)
            }
        }
    }
}
