ghost use Rattle.std.specs.Prelude.{◌≡◌, ℕ, ◌+◌, ◌<◌, ◌≤◌, ◌^◌, ◌++◌, ◌∷◌, [], None, length, IsOk, IsTrue, OnOk, OnErr, IfErr};
ghost use Rattle.std.specs.List.{slice_index_or};
ghost use Rattle.std.specs.Option.{option_copied};
ghost use Rattle.arrow_buffers.specs.Columns.{cell_len};
ghost use Rattle.arrow_arrays.specs.Cells.{array_check, place_of_values};

use crate::reader::ends::{End, keep, value_in};
use crate::refusal::ColumnRefusal;
use arrow_arrays::ArrayPlace;
use arrow_ipc::BatchView;
use arrow_schema::ArrowType;
use std::alloc::{AllocError, Global};
use std::marker::Model;

/// The most values of a dictionary that is read.
pub const MAX_VALUES: u64 = 65_536;

/// What is held of a value beside its bytes.
pub(crate) const HELD_UNIT: u64 = 8;

/// A dictionary and its values. A contract sees the values, each null or its bytes.
#[derive(Debug, Drop)]
pub(crate) struct Dictionary {
    id: i64,
    kind: ArrowType,
    ends: Vec<End>,
    /// The bytes of all values, one after the other.
    bytes: Vec<u8>,
    /// No value has more bytes.
    longest: usize,
}

impl Model for Dictionary {
    ghost use Rattle.otap_columns.specs.Dictionaries.{DictionaryIn};

    ghost Value = { DictionaryIn };

    ghost use Rattle.otap_columns.specs.Inside.{dictionary_in, IsDictionaryInside};

    ghost view = { dictionary_in };

    ghost invariant = { IsDictionaryInside };
}

impl Dictionary {
    ghost use Rattle.otap_columns.specs.Dictionaries.{has_id, is_for, kept, grown, grown_if, dictionary_weight, values_of};
    ghost use Rattle.otap_columns.specs.Steps.{FitsIn};
    ghost use Rattle.otap_columns.specs.Reading.{RefusesValues, RefusesIf};
    ghost use Rattle.otap_columns.specs.Limits.{dictionary_limit};
    ghost use Rattle.otap_columns.specs.Records.{is_fine_for};

    pub(crate) fn new(alloc: Global, id: i64, kind: ArrowType) -> Dictionary
        ensures { result ≡ record { id = id; kind = kind; values = [] } }
    {
        Dictionary {
            id,
            kind,
            ends: Vec::new(alloc),
            bytes: Vec::new(alloc),
            longest: 0,
        }
    }

    pub(crate) fn has_id(&self, id: i64) -> bool
        ensures { result ≡ has_id id self.now }
    {
        self.id == id
    }

    pub(crate) fn is_for(&self, kind: ArrowType, id: i64) -> bool
        ensures { result ≡ is_for kind id self.now }
    {
        self.id == id && self.kind == kind
    }

    /// The value at an index; `None` where it is null, or there is none.
    pub(crate) fn value(&self, place: usize) -> Option<&[u8]>
        ensures { option_copied result ≡ slice_index_or self.now.values place None }
    {
        value_in(&self.bytes, &self.ends, place)
    }

    pub(crate) fn len(&self) -> usize
        ensures value { result ≡ length self.now.values }
        ensures few { result ≤ dictionary_limit }
    {
        self.ends.len()
    }

    /// The bytes of the values, and a unit for each.
    pub(crate) fn weight(&self) -> u64
        ensures value { result ≡ dictionary_weight self.now }
        ensures few { result < 2 ^ 50 }
    {
        self.bytes.len() as u64 + HELD_UNIT * self.ends.len() as u64
    }

    /// A number of bytes that no value exceeds.
    pub(crate) fn longest(&self) -> u64
        ensures { (place : ℕ) → cell_len (slice_index_or self.now.values place None) ≤ result }
    {
        self.longest as u64
    }

    /// Takes the values of a batch, if it has this dictionary's id.
    pub(crate) fn take_if(
        &mut self,
        id: i64,
        delta: bool,
        batch: &BatchView<'_>,
    ) -> Result<(), ColumnRefusal>
        ensures ok { OnOk result (self.new ≡ grown_if id delta batch.now self.old) }
        ensures fine { OnOk result (IsTrue (is_fine_for id batch.now self.old)) }
        ensures fits { FitsIn self.old → FitsIn self.new }
        ensures few { OnOk result (length self.new.values ≤ dictionary_limit) }
        ensures err { IfErr result (RefusesIf id delta batch.now self.old) }
    {
        if self.id != id {
            return Ok(());
        }
        self.take(delta, batch)?;
        Ok(())
    }

    /// Takes the values of a batch: a delta is appended, another batch replaces what was there.
    fn take(&mut self, delta: bool, batch: &BatchView<'_>) -> Result<(), ColumnRefusal>
        ensures ok { OnOk result (self.new ≡ grown delta batch.now self.old) }
        ensures fine { OnOk result (IsOk (array_check batch.now (place_of_values self.old.kind))) }
        ensures fits { FitsIn self.old → FitsIn self.new }
        ensures few { OnOk result (length self.new.values ≤ dictionary_limit) }
        ensures err { IfErr result (RefusesValues delta batch.now self.old) }
    {
        let array = ArrayPlace::of_values(self.kind);
        array.check(batch)?;
        self.begin(delta);
        if batch.rows() > MAX_VALUES - self.ends.len() as u64 {
            return Err(ColumnRefusal::DictionarySize);
        }
        self.append(array, batch)?;
        Ok(())
    }

    /// Forgets the values, unless those that come are a delta.
    fn begin(&mut self, delta: bool)
        ensures { self.new ≡ record self.old { values = kept delta self.old.values } }
    {
        if !delta {
            self.ends.clear();
            self.bytes.clear();
            self.longest = 0;
        }
    }

    /// Appends the cells of an array.
    fn append(&mut self, array: ArrayPlace, batch: &BatchView<'_>) -> Result<(), AllocError>
        requires array { array ≡ place_of_values self.old.kind }
        requires fine { IsOk (array_check batch.now array) }
        requires room { length self.old.values + batch.now.rows ≤ dictionary_limit }
        ensures ok { OnOk result (self.new ≡ record self.old { values = self.old.values ++ values_of self.old.kind batch.now }) }
        ensures fits { FitsIn self.old → FitsIn self.new }
    {
        let column = array.view(batch);
        'rows: for row in 0..batch.rows() {
            self.push(column.cell(row))?;
        }
        Ok(())
    }

    /// Appends a value. Where there would be too many bytes, it returns out of memory.
    fn push(&mut self, value: Option<&[u8]>) -> Result<(), AllocError>
        requires { length self.old.values < dictionary_limit }
        ensures ok { OnOk result (self.new ≡ record self.old { values = self.old.values ++ option_copied value.entry ∷ [] }) }
        ensures err { OnErr result (self.new ≡ self.old) }
    {
        self.ends.reserve(1)?;
        let from = self.bytes.len();
        let there = keep(&mut self.bytes, value)?;
        let place = self.bytes.len();
        self.ends.push(End { from, place, there })?;
        self.longest = self.longest.max(place - from);
        Ok(())
    }
}
