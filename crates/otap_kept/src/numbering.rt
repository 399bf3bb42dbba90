//! New numbers of ids.
ghost use Rattle.std.specs.Prelude.{◌≡◌, ℕ, List, Option, map, IfOk};
ghost use Rattle.std.specs.List.Sorted.{IsNonDecreasingBy};
ghost use Rattle.otap_groups.specs.declared.entry.ChildEntry.{ChildEntry};
ghost use Rattle.otap_groups.specs.Found.{of_parent};
ghost use Rattle.otap_groups.specs.Inside.{entries_from};
ghost use Rattle.otap_attrs.specs.Sorting.{sorted_by};
ghost use Rattle.otap_kept.specs.Numbering.{IsNumbering, entry_has_lesser_parent, first_place};
ghost use Rattle.otap_kept.specs.Numbers.{new_number};

use otap_groups::ChildEntry;
use std::alloc::{AllocError, Global};

/// Ids that are kept, in their new order, by which the new number of each is found.
#[derive(Debug, Drop)]
pub(crate) struct Numbering {
    /// Each id with its place, by id.
    entries: Vec<ChildEntry>,
}

impl Numbering {
    /// Takes n log n for n ids.
    pub(crate) fn new(alloc: Global, ids: &[Option<u32>]) -> Result<Numbering, AllocError>
        ensures { IfOk result (λ numbering. IsNumbering ids.now numbering.entries.items) }
    {
        let mut entries = places_of(alloc, ids)?;
        entries.sort_by_key(|entry| entry.parent)?;
        Ok(Numbering { entries })
    }

    /// The new number of an id, by a binary search.
    pub(crate) fn number(&self, id: Option<u32>) -> Option<usize>
        requires { IsNonDecreasingBy (λ (e : ChildEntry). e.parent) self.now.entries.items }
        ensures { (ids : List (Option ℕ)) → IsNumbering ids self.now.entries.items → result ≡ new_number ids id }
    {
        let Some(id) = id else {
            return None;
        };
        first_of(&self.entries, id)
    }
}

/// The ids with their places, in their order; a null id has none.
fn places_of(alloc: Global, ids: &[Option<u32>]) -> Result<Vec<ChildEntry>, AllocError>
    ensures { IfOk result (λ entries. entries.items ≡ entries_from 0 ids.now) }
{
    let mut entries = Vec::with_capacity(alloc, ids.len())?;
    'ids: for place in 0..ids.len() {
        let parent = match ids[place] {
            None => continue,
            Some(parent) => parent,
        };
        entries.push(ChildEntry { parent, place })?;
    }
    Ok(entries)
}

/// The first place of an id.
fn first_of(entries: &[ChildEntry], id: u32) -> Option<usize>
    requires { IsNonDecreasingBy (λ (e : ChildEntry). e.parent) entries.now }
    ensures { result ≡ first_place (of_parent id entries.now) }
{
    match places_at(entries, id).first() {
        Some(entry) => Some(entry.place),
        None => None,
    }
}

/// The entries of an id.
fn places_at(entries: &[ChildEntry], id: u32) -> &[ChildEntry]
    requires { IsNonDecreasingBy (λ (e : ChildEntry). e.parent) entries.now }
    ensures { result.now ≡ of_parent id entries.now }
{
    let first = entries.partition_point(|entry| entry.parent < id);
    let rest = entries.split_at(first).1;
    let count = rest.partition_point(|entry| entry.parent <= id);
    rest.split_at(count).0
}

/// The new numbers of ids, by those that are kept. Takes log n for each, for n ids that are kept.
pub(crate) fn new_numbers(
    alloc: Global,
    kept: &[Option<u32>],
    ids: &[Option<u32>],
) -> Result<Vec<Option<u32>>, AllocError>
    ensures { IfOk result (λ numbers. numbers.items ≡ map (new_number kept.now) ids.now) }
{
    let numbering = Numbering::new(alloc, kept)?;
    let mut numbers = Vec::with_capacity(alloc, ids.len())?;
    'ids: for id in ids {
        numbers.push(short(numbering.number(*id))?)?;
    }
    Ok(numbers)
}

/// A number, of which there are less than 2^32.
fn short(number: Option<usize>) -> Result<Option<u32>, AllocError>
    ensures { IfOk result (λ short. short ≡ number) }
{
    let Some(number) = number else {
        return Ok(None);
    };
    if number > u32::MAX as usize {
        return Err(AllocError);
    }
    Ok(Some(number as u32))
}

/// The rows whose parents have new numbers, each with that number, and sorted by it; those of one parent stay in their order.
pub(crate) fn rows_by_number(
    alloc: Global,
    numbers: &[Option<u32>],
) -> Result<Vec<ChildEntry>, AllocError>
    ensures { IfOk result (λ entries. entries.items ≡ sorted_by entry_has_lesser_parent (entries_from 0 numbers.now)) }
{
    let mut entries = places_of(alloc, numbers)?;
    entries.sort_by_key(|entry| entry.parent)?;
    Ok(entries)
}
