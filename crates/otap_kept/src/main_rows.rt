//! The main rows that a filter keeps.
ghost use Rattle.std.specs.Prelude.{◌≡◌, ◌↔◌, ◌<◌, true, All, Contains, length, map, IfOk};
ghost use Rattle.std.specs.List.Sorted.{IsNonDecreasingBy};
ghost use Rattle.otap_cells.specs.Named.{table_named};
ghost use Rattle.otap_cells.specs.Payload.{main_of};
ghost use Rattle.otap_checks.specs.Known.{KnowsAll};
ghost use Rattle.otap_kept.specs.Clean.{AreCleanAndLight};
ghost use Rattle.otap_kept.specs.Holding.{is_among, looked_at, main_row_in, places_among};
ghost use Rattle.otap_kept.specs.Kept.{kept_rows};
ghost use Rattle.otap_kept.specs.Texts.{text_pair};

use crate::holders::holders;
use crate::text_pair::TextPair;
use crate::whose::Whose;
use otap_cells::{Kind, Rows, TableSet, main_of, shared_columns};
use otap_checks::{KnownIds, item_attributes};
use otlp_model::Signal;
use std::alloc::{AllocError, Global};

/// The indexes of the main rows that are kept, in their order. Takes n log n for n rows.
pub(crate) fn kept_rows<R: Rows>(
    alloc: Global,
    signal: Signal,
    whose: Whose,
    pair: &TextPair<'_>,
    set: &TableSet<R>,
    read: &KnownIds,
) -> Result<Vec<usize>, AllocError>
    requires accepted { AreCleanAndLight signal set.now }
    requires known { KnowsAll signal set.now read.now }
    ensures rows { IfOk result (λ found. map (main_row_in (table_named (main_of signal) set.now)) found.items
        ≡ kept_rows signal whose (text_pair pair.now) set.now) }
    ensures within { IfOk result (λ found. All (λ place. place < length (table_named (main_of signal) set.now).rows) found.items) }
{
    let Some((kind, column)) = looked_at(signal, whose) else {
        return Ok(Vec::new(alloc));
    };
    let owners = read.of(main_of(signal), column);
    let found = holders(alloc, set, kind, read, pair)?;
    let places = places_among(alloc, &found, owners)?;
    Ok(places)
}

/// The kind of the attributes that are looked at, and the column of the main table that has the ids of their owners.
fn looked_at(signal: Signal, whose: Whose) -> Option<(Kind, u32)>
    ensures { result ≡ looked_at signal whose }
{
    match whose {
        Whose::Resource => Some((Kind::ResourceAttrs, shared_columns::main::RESOURCE_ID)),
        Whose::Item => match item_attributes(signal) {
            Some(kind) => Some((kind, shared_columns::main::ID)),
            None => None,
        },
    }
}

/// The indexes of the ids that are among sorted numbers. Takes log n for each, for n numbers.
fn places_among(
    alloc: Global,
    sorted: &[u32],
    ids: &[Option<u32>],
) -> Result<Vec<usize>, AllocError>
    requires { IsNonDecreasingBy (λ n. n) sorted.now }
    ensures { IfOk result (λ found. found.items ≡ places_among sorted.now 0 ids.now) }
{
    let mut found = Vec::new(alloc);
    'ids: for place in 0..ids.len() {
        if is_among(sorted, ids[place]) {
            found.push(place)?;
        }
    }
    Ok(found)
}

/// Whether an id is among sorted numbers.
fn is_among(sorted: &[u32], id: Option<u32>) -> bool
    requires { IsNonDecreasingBy (λ n. n) sorted.now }
    ensures { result ≡ is_among sorted.now id }
{
    match id {
        Some(number) => holds(sorted, number),
        None => false,
    }
}

fn holds(sorted: &[u32], number: u32) -> bool
    requires { IsNonDecreasingBy (λ n. n) sorted.now }
    ensures { (result ≡ true) ↔ Contains sorted.now number }
{
    match sorted.binary_search(&number) {
        Ok(_) => true,
        Err(_) => false,
    }
}
