//! Ids, and the numbers that a column stores for them.
ghost use Rattle.std.specs.Prelude.{◌≡◌, ◌+◌, ◌≤◌, ℕ, [], List, Option, Some, true, drop, length, map, IfErr, IfOk, MatchOption, OnOk, false, ◌<◌};
ghost use Rattle.otap_cells.specs.declared.ids.IdFault.TheVariants.{PastType};
ghost use Rattle.otap_cells.specs.declared.profile.Coding.TheVariants.{Delta, Run};
ghost use Rattle.otap_cells.specs.Ids.{AtMost, Ids, Rise, base_of, fits_after, goes_on, takes_null, undone, undone_after, Twice};
ghost use Rattle.otap_cells.specs.Inside.{stored_after, HasPair, numbers};

use crate::profile::Coding;
use std::alloc::{AllocError, Global};
use thiserror::Error;

/// What is wrong with the ids of a column.
#[derive(Clone, Copy, Debug, PartialEq, Eq, Error)]
pub enum IdFault {
    /// An id is above the greatest number of its column.
    #[error("an id is above the greatest number of its column")]
    PastType,
    /// Two rows have one id.
    #[error("two rows have one id")]
    Duplicate,
    /// A row has no parent.
    #[error("a row has no parent")]
    NullParent,
}

/// Writes the numbers that are stored for ids: the first as it is, each later one as its distance from the one before.
pub fn delta_ids(ids: &mut [Option<u32>])
    requires { Rise Delta [] ids.old }
    ensures { (last : ℕ) → AtMost last ids.old → Ids Delta last [] ids.new ids.old }
{
    code(Coding::Delta, ids, &[]);
}

/// Gives the ids back whose distances are stored. Refuses with `PastType` where an id would be above `last`; then the ids before
/// it are given back, and it and all after it are as before.
pub fn undo_delta(ids: &mut [Option<u32>], last: u32) -> Result<(), IdFault>
    ensures ids { OnOk result (Ids Delta last [] ids.old ids.new) }
    ensures past { IfErr result (λ fault. (fault ≡ PastType) × ((given : List (Option ℕ)) → Ids Delta last [] ids.old given → ⊥)) }
    ensures undone { ids.new ≡ undone Delta last [] ids.old }
{
    if undo(Coding::Delta, ids, &[], last) {
        Ok(())
    } else {
        Err(IdFault::PastType)
    }
}

/// Writes the numbers that are stored for ids: where a row continues the run of the one before, the distance from its id, and
/// else the id.
pub fn run_ids(ids: &mut [u32], continues: &[bool])
    requires { Rise Run continues.now (map Some ids.old) }
    ensures { (last : ℕ) → AtMost last (map Some ids.old) → Ids Run last continues.now (map Some ids.new) (map Some ids.old) }
{
    let mut before = 0;
    'ids: for place in 0..ids.len() {
        let id = ids[place];
        ids[place] = id - base(Coding::Run, continues_at(continues, place), before);
        before = id;
    }
}

/// Gives the ids back whose distances in runs are stored. Refuses with `PastType` where an id would be above `last`; then the
/// ids before it are given back, and it and all after it are as before.
pub fn undo_run(ids: &mut [u32], continues: &[bool], last: u32) -> Result<(), IdFault>
    ensures ids { OnOk result (Ids Run last continues.now (map Some ids.old) (map Some ids.new)) }
    ensures past { IfErr result (λ fault. (fault ≡ PastType) × ((given : List (Option ℕ)) → Ids Run last continues.now (map Some ids.old) given → ⊥)) }
    ensures undone { map Some ids.new ≡ undone Run last continues.now (map Some ids.old) }
{
    let mut before = 0;
    'ids: for place in 0..ids.len() {
        let Some(id) = next_id(
            base(Coding::Run, continues_at(continues, place), before),
            ids[place],
            last,
        ) else {
            return Err(IdFault::PastType);
        };
        ids[place] = id;
        before = id;
    }
    Ok(())
}

/// Whether some number occurs twice among ids. Takes n log n for n of them.
pub fn has_twice(alloc: Global, ids: &[Option<u32>]) -> Result<bool, AllocError>
    ensures yes { IfOk result (λ found. found ≡ true → Twice ids.now) }
    ensures no { IfOk result (λ found. found ≡ false → Twice ids.now → ⊥) }
{
    let mut sorted = numbers(alloc, ids)?;
    sorted.sort()?;
    let found = has_pair(&sorted);
    Ok(found)
}

fn numbers(alloc: Global, ids: &[Option<u32>]) -> Result<Vec<u32>, AllocError>
    ensures { IfOk result (λ found. found.items ≡ numbers ids.now) }
{
    let mut found = Vec::with_capacity(alloc, ids.len())?;
    'ids: for id in ids {
        if let Some(number) = id {
            found.push(*number)?;
        }
    }
    Ok(found)
}

/// Whether two neighbours are equal.
fn has_pair(numbers: &[u32]) -> bool
    ensures yes { result ≡ true → HasPair numbers.now }
    ensures no { result ≡ false → HasPair numbers.now → ⊥ }
{
    'numbers: for place in 1..numbers.len() {
        if numbers[place - 1] == numbers[place] {
            return true;
        }
    }
    false
}

/// Writes the stored numbers of ids.
fn code(how: Coding, ids: &mut [Option<u32>], continues: &[bool])
    requires { Rise how continues.now ids.old }
    ensures stored { ids.new ≡ stored_after how 0 continues.now ids.old }
    ensures long { length ids.new ≡ length ids.old }
{
    let mut before = 0;
    'ids: for place in 0..ids.len() {
        let id = match ids[place] {
            None => continue,
            Some(id) => id,
        };
        ids[place] = Some(id - base(how, continues_at(continues, place), before));
        before = id;
    }
}

/// Replaces stored numbers by their ids, up to the first that has none: its id would be above `last`, or it is a null in a
/// run. Returns whether all have ids.
pub fn undo(how: Coding, ids: &mut [Option<u32>], continues: &[bool], last: u32) -> bool
    ensures undone { ids.new ≡ undone_after how last 0 continues.now ids.old }
    ensures exactly { result ≡ fits_after how last 0 continues.now ids.old }
    ensures long { length ids.new ≡ length ids.old }
{
    let mut before = 0;
    'ids: for place in 0..ids.len() {
        let number = match ids[place] {
            None => {
                if !takes_null(how) {
                    return false;
                }
                continue;
            }
            Some(number) => number,
        };
        let Some(id) = next_id(
            base(how, continues_at(continues, place), before),
            number,
            last,
        ) else {
            return false;
        };
        ids[place] = Some(id);
        before = id;
    }
    true
}

/// The sum, where it is at most `last`.
fn next_id(base: u32, number: u32, last: u32) -> Option<u32>
    ensures { MatchOption result (last < base + number) (λ id. (id ≡ base + number) × (id ≤ last)) }
{
    let id = u64::from(base) + u64::from(number);
    if id > u64::from(last) {
        return None;
    }
    Some(id as u32)
}

fn base(how: Coding, continues: bool, before: u32) -> u32
    ensures { result ≡ base_of how continues before }
{
    match how {
        Coding::Plain => 0,
        Coding::Delta => before,
        Coding::Run => { if continues { before } else { 0 } }
    }
}

/// Whether a row without an id is passed over.
fn takes_null(how: Coding) -> bool
    ensures { result ≡ takes_null how }
{
    match how {
        Coding::Plain | Coding::Delta => true,
        Coding::Run => false,
    }
}

/// Whether a row continues the run of the one before; one past the end of `continues` doesn't.
fn continues_at(continues: &[bool], place: usize) -> bool
    ensures { result ≡ goes_on (drop place continues.now) }
{
    place < continues.len() && continues[place]
}
