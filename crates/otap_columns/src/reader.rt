ghost use Rattle.std.specs.Prelude.{◌≡◌, ◌<◌, [], true, false, is_err, length, Some, OnOk, IfOk, IfErr, IfSome, IfNone, List, IsOk};
ghost use Rattle.std.specs.Option.{option_copied};
ghost use Rattle.arrow_ipc.specs.declared.messages.IpcMessage.{IpcMessage};
ghost use Rattle.arrow_ipc.specs.Fronts.{front_of};

pub(crate) mod cells;
pub(crate) mod dictionaries;
pub(crate) mod dictionary;
pub(crate) mod ends;
pub(crate) mod indexes;
pub(crate) mod known;
pub(crate) mod messages;
pub(crate) mod resolved;
pub(crate) mod view;

use crate::reader::dictionary::Dictionary;
use crate::reader::messages::AnyBatch;
use crate::reader::resolved::ResolvedColumn;
use crate::reader::view::RowsView;
use crate::refusal::ColumnRefusal;
use arrow_arrays::{ArraySpec, Arrays};
use arrow_ipc::{BatchView, Messages, rows_at};
use arrow_schema::SchemaSpec;
use otap_cells::{Base, Coding, Kind, base_of, coding_of};
use std::alloc::Global;
use std::marker::Model;

/// Reads the records of a sub-stream. A contract sees its sub-stream, which is the one after the messages that were
/// read.
#[derive(Debug, Drop)]
pub struct Reader {
    alloc: Global,
    kind: Kind,
    arrays: Arrays,
    /// The index of the array of each column of the kind.
    places: Vec<Option<usize>>,
    dictionaries: Vec<Dictionary>,
    /// The offset of the record batch in the last record.
    place: usize,
    broken: bool,
}

impl Model for Reader {
    ghost use Rattle.otap_columns.specs.Views.{ReaderIn};

    ghost Value = { ReaderIn };

    ghost use Rattle.otap_columns.specs.ReaderInside.{reader_in, IsReaderInside};

    ghost view = { reader_in };

    ghost invariant = { IsReaderInside };
}

impl Reader {
    ghost use Rattle.otap_columns.specs.Dictionaries.{held_weight};
    ghost use Rattle.otap_columns.specs.Limits.{reader_held_limit};
    ghost use Rattle.otap_columns.specs.Records.{IsRead, Refuses};
    ghost use Rattle.otap_columns.specs.Views.{StandsFor, StandsForRecord, Shows, Takes};
    ghost use Rattle.otap_columns.specs.Substreams.{logical};

    /// A reader of the sub-stream that a record opens.
    pub fn start(alloc: Global, kind: Kind, bytes: &[u8]) -> Result<Reader, ColumnRefusal>
        ensures read { OnOk result (IsRead kind [] bytes.now) }
        ensures stands { IfOk result (StandsForRecord (front_of bytes.now) bytes.now) }
        ensures shows { IfOk result (λ reader. Shows reader bytes.now) }
        ensures refused { IfErr result (Refuses kind [] bytes.now) }
        ensures kind { IfOk result (λ reader. reader.kind ≡ kind) }
        ensures broken { IfOk result (λ reader. reader.broken ≡ false) }
    {
        let mut messages = Messages::new(bytes);
        let schema = messages::first_schema(alloc, &mut messages)?;
        let mut reader = Reader::open(alloc, kind, &schema)?;
        reader.take_messages(&mut messages)?;
        Ok(reader)
    }

    /// Takes a further record. After any refusal, out of memory too, the reader is broken.
    pub fn take(&mut self, bytes: &[u8]) -> Result<(), ColumnRefusal>
        requires { self.old.broken ≡ false }
        ensures takes { OnOk result (Takes self.old bytes.now self.new) }
        ensures shows { OnOk result (Shows self.new bytes.now) }
        ensures refused { IfErr result (λ refusal. (past : List IpcMessage) → StandsFor past self.old → Refuses self.old.kind past bytes.now refusal) }
        ensures kind { self.new.kind ≡ self.old.kind }
        ensures broken { self.new.broken ≡ is_err result }
    {
        self.broken = true;
        let mut messages = Messages::new(bytes);
        self.take_messages(&mut messages)?;
        self.broken = false;
        Ok(())
    }

    /// Whether a call of `take` was refused.
    pub fn is_broken(&self) -> bool
        ensures { result ≡ self.now.broken }
    {
        self.broken
    }

    /// What the dictionaries hold: the bytes of each value, and 8 for each.
    pub fn held(&self) -> u64
        ensures value { result ≡ held_weight self.now.substream.dictionaries }
        ensures few { result < reader_held_limit }
    {
        dictionaries::held(&self.dictionaries)
    }

    /// The table of the record in these bytes, which the last `start` or `take` took. It takes no memory.
    pub fn view<'v>(&'v self, bytes: &'v [u8]) -> RowsView<'v>
        requires { Shows self.now bytes.now }
        ensures table { (messages : List IpcMessage) → StandsForRecord messages bytes.now self.now → logical self.now.kind messages ≡ Some result }
        ensures kind { result.kind ≡ self.now.kind }
    {
        match rows_at(bytes, self.place) {
            Some(batch) => RowsView::new(self, batch),
            None => unreachable!(),
        }
    }
}

impl Reader {
    ghost use Rattle.arrow_ipc.specs.Fronts.{left_of, rest_of};
    ghost use Rattle.arrow_schema.specs.Readable.{IsReadable};
    ghost use Rattle.arrow_arrays.specs.Arrays.{arrays_of};
    ghost use Rattle.otap_columns.specs.Known.{columns_fit};
    ghost use Rattle.otap_columns.specs.Reading.{RefusesOpen, opened, PassesRows, TakesBatch, RefusesMessage, TakesFront, RefusesFront, TakesRecord, RefusesRecord, FitsRows, RefusesRows, KeepsReader};

    /// A reader of a sub-stream with this schema, before any dictionary batch.
    fn open(alloc: Global, kind: Kind, schema: &SchemaSpec) -> Result<Reader, ColumnRefusal>
        requires { IsReadable schema.now }
        ensures ok { IfOk result (λ reader. reader ≡ record { kind = kind; substream = opened schema.now; place = 0; broken = false }) }
        ensures types { OnOk result (columns_fit kind (arrays_of schema.now) ≡ true) }
        ensures err { IfErr result (RefusesOpen kind schema.now) }
    {
        let arrays = Arrays::new(alloc, schema)?;
        let known = known::known_columns(alloc, kind, &arrays)?;
        if !known::columns_fit(kind, &arrays, &known) {
            return Err(ColumnRefusal::Column);
        }
        let places = known::places(alloc, kind, &known)?;
        let dictionaries = dictionaries::empty(alloc, &arrays)?;
        Ok(Reader {
            alloc,
            kind,
            arrays,
            places,
            dictionaries,
            place: 0,
            broken: false,
        })
    }

    /// Takes the messages of a record, those after the schema.
    fn take_messages(&mut self, messages: &mut Messages<'_>) -> Result<(), ColumnRefusal>
        ensures ok { OnOk result (TakesRecord self.old messages.old self.new) }
        ensures kept { KeepsReader self.old self.new }
        ensures err { IfErr result (RefusesRecord self.old.substream (front_of (rest_of messages.old)) (left_of (rest_of messages.old))) }
    {
        let batch = self.take_dictionaries(messages)?;
        messages::end(self.alloc, messages)?;
        self.check_rows(&batch)?;
        Ok(())
    }

    /// Takes the dictionary batches, and returns the record batch after them.
    fn take_dictionaries<'a>(
        &mut self,
        messages: &mut Messages<'a>,
    ) -> Result<BatchView<'a>, ColumnRefusal>
        ensures ok { IfOk result (TakesFront self.old messages.old self.new messages.new) }
        ensures kept { KeepsReader self.old self.new }
        ensures err { IfErr result (RefusesFront self.old.substream (front_of (rest_of messages.old)) (left_of (rest_of messages.old))) }
    {
        'messages: loop {
            self.place = messages.place();
            if let Some(batch) = self.take_message(messages)? {
                return Ok(batch);
            }
        }
    }

    /// Takes a dictionary batch, or returns a record batch.
    fn take_message<'a>(
        &mut self,
        messages: &mut Messages<'a>,
    ) -> Result<Option<BatchView<'a>>, ColumnRefusal>
        ensures dictionary { IfOk result (λ found. IfNone found (TakesBatch self.old.substream messages.old messages.new self.new.substream)) }
        ensures rows { IfOk result (λ found. IfSome found (λ batch. PassesRows messages.old messages.new batch × (self.new.substream ≡ self.old.substream))) }
        ensures shorter { OnOk result (length (rest_of messages.new) < length (rest_of messages.old)) }
        ensures kept { KeepsReader self.old self.new }
        ensures place { self.new.place ≡ self.old.place }
        ensures err { IfErr result (RefusesMessage self.old.substream (front_of (rest_of messages.old)) (left_of (rest_of messages.old))) }
    {
        match messages::next_batch(self.alloc, messages)? {
            AnyBatch::Dictionary { id, delta, batch } => {
                dictionaries::take(&mut self.dictionaries, id, delta, &batch)?;
                Ok(None)
            }
            AnyBatch::Rows(batch) => Ok(Some(batch)),
        }
    }

    /// Checks that the buffers of a record batch have no fault, and that its indexes lead to values.
    fn check_rows(&self, batch: &BatchView<'_>) -> Result<(), ColumnRefusal>
        ensures ok { OnOk result (FitsRows self.now.substream batch.now) }
        ensures err { IfErr result (RefusesRows self.now.substream batch.now) }
    {
        self.arrays.check(batch)?;
        if !indexes::fit(&self.arrays, &self.dictionaries, batch) {
            return Err(ColumnRefusal::BadIndex);
        }
        Ok(())
    }
}

impl Reader {
    ghost use Rattle.otap_columns.specs.Known.{place_at, array_of, column_coding, column_greatest};
    ghost use Rattle.otap_columns.specs.Resolved.{IsColumn, IsFieldColumn};
    ghost use Rattle.arrow_arrays.specs.Arrays.{arrays_check};
    ghost use Rattle.otap_cells.specs.Columns.{width_of};

    /// The kind whose columns the rows have.
    pub(crate) fn kind(&self) -> Kind
        ensures { result ≡ self.now.kind }
    {
        self.kind
    }

    /// How the ids of a column are stored.
    pub(crate) fn coding(&self, column: u32) -> Coding
        requires { column < width_of self.now.kind }
        ensures { result ≡ column_coding self.now.kind self.now.substream.arrays column }
    {
        known::coding_if(coding_of(self.kind, column), self.array(column))
    }

    /// The greatest number that a column of ids may hold.
    pub(crate) fn greatest(&self, column: u32) -> u32
        requires { column < width_of self.now.kind }
        ensures { result ≡ column_greatest self.now.kind self.now.substream.arrays column }
    {
        known::greatest_if(self.array(column))
    }

    /// A column of a record batch, found once for all its rows.
    pub(crate) fn column<'v>(&'v self, batch: &BatchView<'v>, column: u32) -> ResolvedColumn<'v>
        requires column { column < width_of self.now.kind }
        requires fine { IsOk (arrays_check batch.now self.now.substream.arrays) }
        ensures { IsColumn self.now.kind self.now.substream batch.now column result }
    {
        let base = base_of(self.kind, column);
        match self.place_of(column) {
            None => ResolvedColumn::missing(base),
            Some(place) => self.field(batch, place, base),
        }
    }

    /// The column of the field at an index, whose cells hold a base.
    fn field<'v>(&'v self, batch: &BatchView<'v>, place: usize, base: Base) -> ResolvedColumn<'v>
        requires { IsOk (arrays_check batch.now self.now.substream.arrays) }
        ensures field { IsFieldColumn self.now.substream batch.now place result }
        ensures base { result.base ≡ base }
    {
        let Some(array) = self.arrays.get(place) else {
            return ResolvedColumn::missing(base);
        };
        let stored = self.arrays.view(batch, place);
        match array.dict {
            None => ResolvedColumn::plain(base, stored),
            Some(dict) => {
                dictionaries::lead(&self.dictionaries, array.kind, dict.id, base, stored)
            }
        }
    }

    /// The array of a column.
    #[tactic(auto, unfolding(crate::specs::Known::array_of))]
    fn array(&self, column: u32) -> Option<&ArraySpec>
        requires { column < width_of self.now.kind }
        ensures { option_copied result ≡ array_of self.now.kind self.now.substream.arrays column }
    {
        match self.place_of(column) {
            None => None,
            Some(place) => self.arrays.get(place),
        }
    }

    /// The index of the array of a column.
    fn place_of(&self, column: u32) -> Option<usize>
        requires { column < width_of self.now.kind }
        ensures { result ≡ place_at self.now.kind self.now.substream.arrays column }
    {
        self.places[column as usize]
    }
}
