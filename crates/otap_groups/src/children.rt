//! The children of a parent, by an index of the rows of a table.
ghost use Rattle.std.specs.Prelude.{◌≡◌, ◌<◌, All, length, IfOk};
ghost use Rattle.std.specs.List.Sorted.{IsNonDecreasingBy};
ghost use Rattle.otap_groups.specs.declared.entry.ChildEntry.{ChildEntry};
ghost use Rattle.otap_groups.specs.Beside.{FindAlike};
ghost use Rattle.otap_groups.specs.Rows.{child_rows};
ghost use Rattle.otap_groups.specs.Children.{children};
ghost use Rattle.otap_groups.specs.Inside.{AreStarts};
ghost use Rattle.otap_groups.specs.Found.{child_entries, finds_in, found};

use crate::entry::ChildEntry;
use crate::front::id_at;
use crate::index::entries_of;
use crate::reading::{Lookup, RowReader};
use crate::starts::{part_of, starts_of};
use otlp_model::{Items, PART_WEIGHT, add_capped};
use std::alloc::{AllocError, Global};

/// The rows of a table, found by their parents: the children of a parent come in the order of their rows.
#[derive(Drop)]
pub struct ChildIndex<'a, C: RowReader> {
    pub reader: C,
    /// Empty where the rows have no ids.
    pub ids: &'a [Option<u32>],
    pub entries: Vec<ChildEntry>,
    starts: Vec<usize>,
    ghost begin: { AreStarts entries.items starts.items },
    ghost rising: { IsNonDecreasingBy (λ (e : ChildEntry). e.parent) entries.items },
    ghost below: { All (λ (e : ChildEntry). e.place < length (C.cells reader)) entries.items },
}

impl<'a, C: RowReader> ChildIndex<'a, C> {
    /// The rows that a reader reads, with their ids, or none of them, and their parents. Takes n log n for n rows, and time in
    /// proportion to them where parents aren't far above their number.
    pub fn new(
        alloc: Global,
        reader: C,
        ids: &'a [Option<u32>],
        parents: &[Option<u32>],
    ) -> Result<ChildIndex<'a, C>, AllocError>
        requires { length parents.now ≡ length (C.cells reader) }
        ensures reader { IfOk result (λ made. made.reader ≡ reader) }
        ensures found { IfOk result (λ made. FindAlike (⟦<ChildIndex<'a, C> as Lookup>⟧.finds made) (children (C.item reader) (child_rows ids.now parents.now (C.cells reader)))) }
    {
        let entries = entries_of(alloc, parents)?;
        let starts = starts_of(alloc, &entries)?;
        Ok(ChildIndex {
            reader,
            ids,
            entries,
            starts,
        })
    }

    /// The entries of a parent, in the order of their rows.
    fn entries_of(&self, parent: Option<u32>) -> &[ChildEntry]
        ensures found { result.now ≡ child_entries parent self.now.entries.items }
        ensures below { All (λ (e : ChildEntry). e.place < length (C.cells self.now.reader)) result.now }
    {
        match parent {
            Some(parent) => part_of(&self.entries, &self.starts, parent),
            None => &[],
        }
    }
}

impl<C: RowReader> Lookup for ChildIndex<'_, C> {
    type Child = C::Item;

    ghost finds = { λ s. found (C.item s.reader) s.ids.now (C.cells s.reader) s.entries.items };

    ghost weigh = { C.weigh };

    fn of(&self, alloc: Global, parent: Option<u32>) -> Result<Items<C::Item>, AllocError> {
        let mut children = Items::new(alloc);
        let entries = self.entries_of(parent);
        children.reserve(entries.len())?;
        'entries: for entry in entries {
            let id = id_at(self.ids, entry.place);
            self.reader.add(alloc, id, entry.place, &mut children)?;
        }
        Ok(children)
    }

    fn weight_of(&self, parent: Option<u32>) -> u64 {
        let mut weight = 0;
        let entries = self.entries_of(parent);
        'entries: for entry in entries {
            let own = self
                .reader
                .weight(id_at(self.ids, entry.place), entry.place);
            weight = add_capped(weight, add_capped(PART_WEIGHT, own));
        }
        weight
    }
}

/// A table that isn't there has no children.
impl<L: Lookup> Lookup for Option<L> {
    type Child = L::Child;

    ghost finds = { λ s parent. finds_in L.finds s parent };

    ghost weigh = { L.weigh };

    fn of(&self, alloc: Global, parent: Option<u32>) -> Result<Items<L::Child>, AllocError> {
        match self {
            Some(lookup) => {
                let children = lookup.of(alloc, parent)?;
                Ok(children)
            }
            None => Ok(Items::new(alloc)),
        }
    }

    fn weight_of(&self, parent: Option<u32>) -> u64 {
        match self {
            Some(lookup) => lookup.weight_of(parent),
            None => 0,
        }
    }
}
