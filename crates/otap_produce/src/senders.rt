//! Sends the tables of a signal: a sender for each kind, and the schema ids, which are counted over all kinds.
ghost use Rattle.std.specs.Prelude.{◌≡◌, ◌≤◌, ◌<◌, ◌+◌, ◌^◌, [], ◌∷◌, length, All, Contains, IfOk, OnOk, OnErr, if◌then◌else◌};
ghost use Rattle.std.specs.List.{slice_index_or};
ghost use Rattle.otap_cells.specs.Payload.{kinds_of};
ghost use Rattle.otap_cells.specs.Sets.{tables_in};
ghost use Rattle.otap_columns.specs.Limits.{tables_limit};
ghost use Rattle.otap_produce.specs.Senders.{SenderIn, HasSentTables, HaveSent, AreReadyForAll, SendsMessage, kinds_in};
ghost use Rattle.otap_produce.specs.SentMessages.{Adds, AreReady, AreReadyForEach};

use crate::sender::Sender;
use otap_capture::{BatchWriter, written_batch_is_read};
use otap_cells::{Kind, LogicalTable, Rows, kinds};
use otap_columns::writer_laws::records_fit_a_message;
use otlp_model::Signal;
use std::alloc::{AllocError, Global};
use std::marker::Model;

/// Sends sets of tables of a signal, whatever they come from. Of a segment it keeps what decides the next messages: a sender for
/// each kind of table, with its columns, its dictionaries and its last schema id, and how many payloads opened a sub-stream. A
/// contract sees this state, and `HaveSent` says after which tables and payloads senders have it.
#[derive(Debug, Drop)]
pub struct Senders {
    alloc: Global,
    senders: Vec<Sender>,
    openings: u64,
}

impl Model for Senders {
    ghost use Rattle.otap_produce.specs.Senders.{SendersIn};

    ghost Value = { SendersIn };

    ghost view = { λ s. record { senders = s.senders.items; openings = s.openings } };
}

impl Senders {
    /// The senders of a signal, which have sent nothing.
    pub fn new(alloc: Global, signal: Signal) -> Result<Senders, AllocError>
        ensures kinds { IfOk result (λ s. kinds_in s.senders ≡ kinds_of signal) }
        ensures sent { IfOk result (λ s. HaveSent [] [] s) }
    {
        let mut senders = Vec::new(alloc);
        'kinds: for kind in kinds(signal) {
            senders.push(Sender::new(alloc, *kind))?;
        }
        Ok(Senders {
            alloc,
            senders,
            openings: 0,
        })
    }

    /// Forgets what was sent: a new segment begins.
    pub fn reset(&mut self)
        ensures kinds { kinds_in self.new.senders ≡ kinds_in self.old.senders }
        ensures sent { HaveSent [] [] self.new }
    {
        begin_anew(self.alloc, &mut self.senders);
        self.openings = 0;
    }

    /// How many payloads opened a sub-stream.
    pub fn openings(&self) -> u64
        ensures { result ≡ self.now.openings }
    {
        self.openings
    }

    /// The batch message of tables, under any id: a payload for each table. The tables are of the senders' signal, in the order of
    /// its kinds, and within the limit on row weight. Where memory runs out, no opening is counted, and what was sent is unknown
    /// until a reset.
    pub fn send_all(
        &mut self,
        id: i64,
        tables: &[(Kind, LogicalTable)],
    ) -> Result<Vec<u8>, AllocError>
        requires { AreReadyForAll (tables_in (λ t. t) tables.now) self.old }
        ensures sends { IfOk result (λ bytes. SendsMessage id (tables_in (λ t. t) tables.now) self.old self.new bytes.items) }
        ensures openings { OnOk result (self.new.openings ≤ self.old.openings + length tables.now) }
        ensures few { OnOk result (self.new.openings ≤ self.old.openings + tables_limit) }
        ensures uncounted { OnErr result (self.new.openings ≡ self.old.openings) }
        ensures kinds { kinds_in self.new.senders ≡ kinds_in self.old.senders }
    {
        records_fit_a_message();
        let mut batch = BatchWriter::new(self.alloc, id)?;
        let before = self.openings;
        match self.add_all(tables, &mut batch) {
            Ok(()) => {
                written_batch_is_read();
                Ok(batch.finish())
            }
            Err(error) => {
                self.openings = before;
                Err(error)
            }
        }
    }

    /// Adds a payload for each table to a batch.
    fn add_all(
        &mut self,
        tables: &[(Kind, LogicalTable)],
        batch: &mut BatchWriter,
    ) -> Result<(), AllocError>
        requires { AreReadyForEach (tables_in (λ t. t) tables.now) self.old }
        ensures adds { OnOk result (Adds (tables_in (λ t. t) tables.now) self.old self.new batch.old batch.new) }
        ensures kinds { kinds_in self.new.senders ≡ kinds_in self.old.senders }
    {
        'tables: for (_, table) in tables {
            self.add(table, batch)?;
        }
        Ok(())
    }

    /// Adds the payload of one more table.
    fn add(&mut self, table: &LogicalTable, batch: &mut BatchWriter) -> Result<(), AllocError>
        requires { AreReady table.now self.old }
        ensures adds { OnOk result (Adds (table.now ∷ []) self.old self.new batch.old batch.new) }
        ensures kinds { kinds_in self.new.senders ≡ kinds_in self.old.senders }
    {
        let kind = table.kind();
        let place = place_of(&self.senders, kind);
        let sender = &mut self.senders[place];
        let written = sender.send(table, self.openings)?;
        let number = sender.last();
        self.openings = openings_after(self.openings, written.opens);
        let schema_id = format!(in self.alloc; "{number}")?;
        batch.add(&schema_id, kind.number(), &written.bytes)?;
        Ok(())
    }
}

/// How many openings there are after a record.
fn openings_after(openings: u64, opens: bool) -> u64
    requires { openings + 1 < 2 ^ 64 }
    ensures { result ≡ (if opens then openings + 1 else openings) }
{
    if opens { openings + 1 } else { openings }
}

/// Makes each sender one that has sent nothing.
fn begin_anew(alloc: Global, senders: &mut [Sender])
    ensures kinds { kinds_in senders.new ≡ kinds_in senders.old }
    ensures sent { All (HasSentTables [] []) senders.new }
{
    'senders: for place in 0..senders.len() {
        let kind = senders[place].kind();
        senders[place] = Sender::new(alloc, kind);
    }
}

/// The index of the sender of a kind.
fn place_of(senders: &[Sender], kind: Kind) -> usize
    requires { Contains (kinds_in senders.now) kind }
    ensures inside { result < length senders.now }
    ensures kind { (d : SenderIn) → (slice_index_or senders.now result d).writer.kind ≡ kind }
{
    'senders: for place in 0..senders.len() {
        if senders[place].kind() == kind {
            return place;
        }
    }
    unreachable!()
}
