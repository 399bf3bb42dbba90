ghost use Rattle.std.specs.Prelude.{◌≡◌, ◌+◌, ◌<◌, ◌≤◌, [], length, position, bytes_eq, slice_get, true, false, Some, IfOk, OnOk, OnErr};
ghost use Rattle.std.specs.List.{list_any};
ghost use Rattle.std.specs.Option.{option_copied};
ghost use Rattle.otap_dicts.specs.Forms.{byte_count};
ghost use Rattle.otap_dicts.specs.Ladders.{StandsForMore, ladder_of, observed, with_new, in_form, is_dictionary, takes};
ghost use Rattle.otap_dicts.specs.Limits.{byte_limit, value_limit};

use crate::form::{Form, dictionary_form};
use crate::key::{Key, Sought};
use indexmap::IndexSet;
use std::alloc::{AllocError, Global};
use std::marker::Model;

/// The values that were observed in a column, and the form in which it is written: a function of all of them.
///
/// A ladder climbs from `Absent` to `Dict8`, `Dict16` and `Plain`, and never goes back. In a dictionary form it holds the
/// distinct values in the order of their first occurrence, once `Plain` it holds none.
#[derive(Debug, Drop)]
pub struct Ladder {
    alloc: Global,
    dictionary: bool,
    form: Form,
    /// The bytes of all values together.
    bytes: usize,
    values: IndexSet<Key>,
}

impl Model for Ladder {
    ghost use Rattle.otap_dicts.specs.Ladders.{LadderIn};
    ghost use Rattle.otap_dicts.specs.Inside.{ladder_in, IsLadderInside};

    ghost Value = { LadderIn };

    ghost view = { ladder_in };

    ghost invariant = { IsLadderInside };
}

impl Ladder {
    /// A ladder that has observed no value. `dictionary` says whether the column may be written as a dictionary.
    #[tactic(auto, unfolding(crate::specs::Ladders::ladder_of, crate::specs::Forms::distinct))]
    pub fn new(alloc: Global, dictionary: bool) -> Ladder
        ensures { result ≡ ladder_of dictionary [] }
    {
        Ladder {
            alloc,
            dictionary,
            form: Form::Absent,
            bytes: 0,
            values: IndexSet::new(alloc),
        }
    }

    /// The form of a column that had the observed values.
    pub fn form(&self) -> Form
        ensures { result ≡ self.now.form }
    {
        self.form
    }

    /// The number of values of the dictionary; 0 in any other form.
    pub fn count(&self) -> u32
        ensures { result ≡ length self.now.values }
    {
        self.values.len() as u32
    }

    /// The index of a value in the dictionary; `None` exactly where it isn't in it, as in any other form. Takes the time
    /// of one look-up by hash.
    pub fn index_of(&self, value: &[u8]) -> Option<u32>
        ensures { result ≡ position (bytes_eq value.now) self.now.values }
    {
        let place = self.values.get_index_of(Sought { bytes: value })?;
        Some(place as u32)
    }

    /// The value at an index of the dictionary; `None` exactly where there is none.
    pub fn value(&self, place: u32) -> Option<&[u8]>
        ensures { option_copied result ≡ slice_get self.now.values place }
    {
        match self.values.get_index(place as usize) {
            Some(key) => Some(key.bytes.as_slice()),
            None => None,
        }
    }

    /// Observes a value, and returns its index in the dictionary; `None` exactly where the column has none. Takes one look-up by
    /// hash for a value that is known, and two for a new one. After out of memory the ladder is as before.
    #[tactic(auto, using(crate::proofs::Observing::stands_for_more))]
    pub fn observe(&mut self, value: &[u8]) -> Result<Option<u32>, AllocError>
        ensures ok { OnOk result (self.new ≡ observed self.old value.now) }
        ensures place { IfOk result (λ place. place ≡ position (bytes_eq value.now) self.new.values) }
        ensures stands { OnOk result (StandsForMore self.old self.new value.now) }
        ensures err { OnErr result (self.new ≡ self.old) }
    {
        self.step(value)
    }

    #[tactic(auto, unfolding(crate::specs::Ladders::observed))]
    fn step(&mut self, value: &[u8]) -> Result<Option<u32>, AllocError>
        ensures ok { OnOk result (self.new ≡ observed self.old value.now) }
        ensures place { IfOk result (λ place. place ≡ position (bytes_eq value.now) self.new.values) }
        ensures err { OnErr result (self.new ≡ self.old) }
    {
        if !self.takes() {
            self.form = Form::Plain;
            return Ok(None);
        }
        let known = self.index_of(value);
        if known.is_some() {
            return Ok(known);
        }
        self.add(value)
    }

    /// Whether a new value is put into the dictionary.
    fn takes(&self) -> bool
        ensures { result ≡ takes self.now }
    {
        self.dictionary && self.form != Form::Plain
    }

    /// Adds a value that isn't in the dictionary, or gives the dictionary up where it becomes too large.
    #[tactic(auto, unfolding(crate::specs::Ladders::with_new))]
    fn add(&mut self, value: &[u8]) -> Result<Option<u32>, AllocError>
        requires takes { takes self.old ≡ true }
        requires new { list_any (bytes_eq value.now) self.old.values ≡ false }
        ensures ok { OnOk result (self.new ≡ with_new self.old value.now) }
        ensures place { IfOk result (λ place. place ≡ position (bytes_eq value.now) self.new.values) }
        ensures err { OnErr result (self.new ≡ self.old) }
    {
        let form = match value.len().checked_add(self.bytes) {
            Some(bytes) => dictionary_form(self.values.len() + 1, bytes),
            None => Form::Plain,
        };
        if form == Form::Plain {
            self.form = Form::Plain;
            self.bytes = 0;
            self.values = IndexSet::new(self.alloc);
            return Ok(None);
        }
        let place = self.insert(value, form)?;
        Ok(Some(place))
    }

    /// Puts a value last, and returns its index.
    fn insert(&mut self, value: &[u8], form: Form) -> Result<u32, AllocError>
        requires new { list_any (bytes_eq value.now) self.old.values ≡ false }
        requires dictionary { is_dictionary form ≡ true }
        requires marked { self.old.dictionary ≡ true }
        requires few { length self.old.values < value_limit }
        requires small { byte_count self.old.values + length value.now ≤ byte_limit }
        ensures ok { OnOk result (self.new ≡ in_form self.old form value.now) }
        ensures place { IfOk result (λ place. Some place ≡ position (bytes_eq value.now) self.new.values) }
        ensures err { OnErr result (self.new ≡ self.old) }
    {
        let place = self.count();
        let bytes = Vec::from_slice(self.alloc, value)?;
        self.values.insert(Key { bytes })?;
        self.form = form;
        self.bytes += value.len();
        Ok(place)
    }
}
