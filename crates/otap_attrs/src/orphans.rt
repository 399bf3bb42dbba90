//! Parents that aren't there.
ghost use Rattle.std.specs.Prelude.{◌≡◌, ◌↔◌, ◌<◌, ◌≤◌, length, Some, true, false, Contains, IfOk};
ghost use Rattle.std.specs.List.Sorted.{IsNonDecreasingBy};
ghost use Rattle.otap_cells.specs.Inside.{numbers};
ghost use Rattle.otap_attrs.specs.Defects.{OrphanIn};
ghost use Rattle.otap_attrs.specs.Indexing.{Lacks};

use std::alloc::{AllocError, Global};

/// Whether a parent isn't among ids. Takes n log n for n ids and parents, and time in proportion to them where none is missing and
/// ids are counted from 0 or both rise.
pub fn has_orphan(
    alloc: Global,
    parents: &[Option<u32>],
    ids: &[Option<u32>],
) -> Result<bool, AllocError>
    ensures yes { IfOk result (λ found. found ≡ true → OrphanIn parents.now ids.now) }
    ensures no { IfOk result (λ found. found ≡ false → OrphanIn parents.now ids.now → ⊥) }
{
    if finds_all(ids, parents) {
        return Ok(false);
    }
    let mut sorted = numbers(alloc, ids)?;
    sorted.sort()?;
    let found = lacks_one(&sorted, parents);
    Ok(found)
}

/// Whether each parent is among ids at the place that it counts, or else at or after the place where the last
/// search ended. Where ids are counted from 0, or where parents and ids rise, each that is there is found so.
fn finds_all(ids: &[Option<u32>], parents: &[Option<u32>]) -> bool
    ensures { result ≡ true → OrphanIn parents.now ids.now → ⊥ }
{
    let mut at = 0;
    'parents: for parent in parents {
        let Some(number) = parent else {
            continue;
        };
        if stands_at_its_place(ids, *number) {
            continue;
        }
        at = find_from(ids, at, *number);
        if at == ids.len() {
            return false;
        }
    }
    true
}

/// Whether a number is the id at the place that it counts.
fn stands_at_its_place(ids: &[Option<u32>], number: u32) -> bool
    ensures { result ≡ true → Contains ids.now (Some number) }
{
    let place = number as usize;
    place < ids.len() && is_number(ids[place], number)
}

/// The first place of a number among ids from a place on, or their end.
fn find_from(ids: &[Option<u32>], from: usize, number: u32) -> usize
    requires { from ≤ length ids.now }
    ensures within { result ≤ length ids.now }
    ensures found { result < length ids.now → Contains ids.now (Some number) }
{
    for at in from..ids.len() {
        if is_number(ids[at], number) {
            return at;
        }
    }
    ids.len()
}

fn is_number(id: Option<u32>, number: u32) -> bool
    ensures { result ≡ true → id ≡ Some number }
{
    match id {
        Some(other) => other == number,
        None => false,
    }
}

fn numbers(alloc: Global, ids: &[Option<u32>]) -> Result<Vec<u32>, AllocError>
    ensures { IfOk result (λ found. found.items ≡ numbers ids.now) }
{
    let mut found = Vec::with_capacity(alloc, ids.len())?;
    'ids: for id in ids {
        if let Some(number) = id {
            found.push(*number)?;
        }
    }
    Ok(found)
}

/// Whether a parent isn't among sorted numbers.
fn lacks_one(sorted: &[u32], parents: &[Option<u32>]) -> bool
    requires { IsNonDecreasingBy (λ n. n) sorted.now }
    ensures yes { result ≡ true → Lacks parents.now sorted.now }
    ensures no { result ≡ false → Lacks parents.now sorted.now → ⊥ }
{
    'parents: for parent in parents {
        if let Some(number) = parent
            && !holds(sorted, *number)
        {
            return true;
        }
    }
    false
}

fn holds(sorted: &[u32], number: u32) -> bool
    requires { IsNonDecreasingBy (λ n. n) sorted.now }
    ensures { (result ≡ true) ↔ Contains sorted.now number }
{
    match sorted.binary_search(&number) {
        Ok(_) => true,
        Err(_) => false,
    }
}
