//! Sends the tables of one kind.
ghost use Rattle.std.specs.Prelude.{◌≡◌, ◌≤◌, List, [], length, IfOk, if◌then◌else◌};
ghost use Rattle.otap_cells.specs.Tables.{Table};
ghost use Rattle.otap_cells.specs.Weights.{row_weight_limit, weight_of_table};
ghost use Rattle.otap_columns.specs.Limits.{record_limit};
ghost use Rattle.otap_columns.specs.WrittenPayloads.{IsWritableTable};
ghost use Rattle.otap_columns.specs.Writers.{HasWritten, WritesRecord};

use otap_cells::{Kind, LogicalTable};
use otap_columns::{Writer, Written};
use std::alloc::{AllocError, Global};
use std::marker::Model;

/// Sends the tables of a kind: it writes their records, and keeps the number that is the schema id of the last one.
#[derive(Debug, Drop)]
pub(crate) struct Sender {
    kind: Kind,
    writer: Writer,
    last: u64,
}

impl Model for Sender {
    ghost use Rattle.std.specs.Prelude.{◌≡◌};
    ghost use Rattle.otap_produce.specs.Senders.{SenderIn};

    ghost Value = { SenderIn };

    ghost view = { λ s. record { writer = s.writer; last = s.last } };

    ghost invariant = { λ s. s.writer.kind ≡ s.kind };
}

impl Sender {
    /// A sender that has sent nothing.
    pub(crate) fn new(alloc: Global, kind: Kind) -> Sender
        ensures wrote { HasWritten [] result.writer }
        ensures kind { result.writer.kind ≡ kind }
    {
        Sender {
            kind,
            writer: Writer::new(alloc, kind),
            last: 0,
        }
    }

    /// The kind of its tables.
    pub(crate) fn kind(&self) -> Kind
        ensures { result ≡ self.now.writer.kind }
    {
        self.kind
    }

    /// The number that is the schema id of the last payload.
    pub(crate) fn last(&self) -> u64
        ensures { result ≡ self.now.last }
    {
        self.last
    }

    /// The record of one more table. Where it opens a sub-stream, its number is that of the openings so far.
    pub(crate) fn send(
        &mut self,
        table: &LogicalTable,
        openings: u64,
    ) -> Result<Written, AllocError>
        requires wrote { (tables : List Table) × HasWritten tables self.old.writer }
        requires writable { IsWritableTable self.old.writer.kind table.now }
        requires light { weight_of_table table.now ≤ row_weight_limit }
        ensures writes { IfOk result (λ written. WritesRecord self.old.writer table.now written.opens written.bytes.items self.new.writer) }
        ensures last { IfOk result (λ written. self.new.last ≡ (if written.opens then openings else self.old.last)) }
        ensures bound { IfOk result (λ written. length written.bytes.items ≤ record_limit table.now) }
        ensures kind { self.new.writer.kind ≡ self.old.writer.kind }
    {
        let written = self.writer.write(table)?;
        self.last = number_of(&written, openings, self.last);
        Ok(written)
    }
}

/// The number of a record's schema id.
fn number_of(written: &Written, openings: u64, last: u64) -> u64
    ensures { result ≡ (if written.now.opens then openings else last) }
{
    if written.opens { openings } else { last }
}
