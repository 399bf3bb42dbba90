//! The shapes of metrics, and points below metrics of another shape.
ghost use Rattle.std.specs.Prelude.{◌≡◌, ◌↔◌, true, false, length, Contains, IfOk};
ghost use Rattle.std.specs.List.Sorted.{IsNonDecreasingBy};
ghost use Rattle.otap_cells.specs.declared.payload.Kind.TheVariants as table;
ghost use Rattle.otap_cells.specs.Columns.{is_id_at};
ghost use Rattle.otap_cells.specs.Inside.{numbers};
ghost use Rattle.otap_cells.specs.Named.{table_named};
ghost use Rattle.otap_checks.specs.Known.{Knows};
ghost use Rattle.otap_checks.specs.Ruled.{FindsOther, HoldsId};
ghost use Rattle.otap_checks.specs.Shapes.{NamesOther, WrongParent, WrongType, fits_of, is_type};

use crate::known::KnownIds;
use otap_cells::shared_columns::{main, metric, part};
use otap_cells::{Kind, Rows, TableSet, number_in};
use std::alloc::{AllocError, Global};

/// Which points a table has: those of gauges and sums, of histograms, or of summaries.
#[derive(Clone, Copy, Debug, PartialEq, Eq)]
pub enum PointSort {
    /// The number points of gauges and sums.
    Numbers,
    /// The points of histograms.
    Histograms,
    /// The points of summaries.
    Summaries,
}

impl PointSort {
    /// Whether metrics of this type have such points.
    fn fits(self, number: u32) -> bool
        ensures { result ≡ fits_of self number }
    {
        match self {
            PointSort::Numbers => number == 1 || number == 2,
            PointSort::Histograms => number == 3,
            PointSort::Summaries => number == 5,
        }
    }
}

/// Whether the type of a metric, in the table of metrics, is none of those that there are.
pub fn has_wrong_type<R: Rows>(set: &TableSet<R>, kind: Kind) -> bool
    requires { kind ≡ table.Metrics }
    ensures yes { result ≡ true → WrongType (table_named kind set.now) }
    ensures no { result ≡ false → WrongType (table_named kind set.now) → ⊥ }
{
    match set.get(kind) {
        Some(rows) => any_wrong_type(rows),
        None => false,
    }
}

#[tactic(auto, unfolding(otap_cells::specs::Columns::metrics))]
fn any_wrong_type<R: Rows>(rows: &R) -> bool
    requires { (R.table rows.now).kind ≡ table.Metrics }
    ensures yes { result ≡ true → WrongType (R.table rows.now) }
    ensures no { result ≡ false → WrongType (R.table rows.now) → ⊥ }
{
    'rows: for row in 0..rows.rows() {
        if !is_type(number_in(rows, metric::TYPE, row)) {
            return true;
        }
    }
    false
}

fn is_type(number: u32) -> bool
    ensures { result ≡ is_type number }
{
    matches!(number, 0 | 1 | 2 | 3 | 5)
}

/// Whether a point of a kind's table names a metric of another shape. Takes n log n for n points.
pub fn has_other_parents<R: Rows>(
    alloc: Global,
    set: &TableSet<R>,
    known: &KnownIds,
    kind: Kind,
    sort: PointSort,
) -> Result<bool, AllocError>
    requires metrics { Knows (table_named table.Metrics set.now) table.Metrics known.now }
    requires points { Knows (table_named kind set.now) kind known.now }
    requires parent { is_id_at kind 1 ≡ true }
    ensures yes { IfOk result (λ found. found ≡ true → WrongParent (fits_of sort) (table_named kind set.now) (table_named table.Metrics set.now)) }
    ensures no { IfOk result (λ found. found ≡ false → WrongParent (fits_of sort) (table_named kind set.now) (table_named table.Metrics set.now) → ⊥) }
{
    let Some(rows) = set.get(Kind::Metrics) else {
        return Ok(false);
    };
    let ids = known.of(Kind::Metrics, main::ID);
    let parents = known.of(kind, part::PARENT_ID);
    let found = names_other(alloc, rows, ids, parents, sort)?;
    Ok(found)
}

fn names_other<R: Rows>(
    alloc: Global,
    rows: &R,
    ids: &[Option<u32>],
    parents: &[Option<u32>],
    sort: PointSort,
) -> Result<bool, AllocError>
    requires kind { (R.table rows.now).kind ≡ table.Metrics }
    requires long { length ids.now ≡ length (R.table rows.now).rows }
    ensures yes { IfOk result (λ found. found ≡ true → NamesOther (fits_of sort) (R.table rows.now) parents.now ids.now) }
    ensures no { IfOk result (λ found. found ≡ false → NamesOther (fits_of sort) (R.table rows.now) parents.now ids.now → ⊥) }
{
    let mut named = numbers(alloc, parents)?;
    named.sort()?;
    let found = finds_other(rows, ids, &named, sort);
    Ok(found)
}

fn numbers(alloc: Global, ids: &[Option<u32>]) -> Result<Vec<u32>, AllocError>
    ensures { IfOk result (λ found. found.items ≡ numbers ids.now) }
{
    let mut found = Vec::with_capacity(alloc, ids.len())?;
    'ids: for id in ids {
        if let Some(number) = id {
            found.push(*number)?;
        }
    }
    Ok(found)
}

/// Whether the id of a metric of another shape is among sorted numbers.
#[tactic(auto, unfolding(otap_cells::specs::Columns::metrics))]
fn finds_other<R: Rows>(rows: &R, ids: &[Option<u32>], named: &[u32], sort: PointSort) -> bool
    requires kind { (R.table rows.now).kind ≡ table.Metrics }
    requires long { length ids.now ≡ length (R.table rows.now).rows }
    requires sorted { IsNonDecreasingBy (λ n. n) named.now }
    ensures yes { result ≡ true → FindsOther (fits_of sort) (R.table rows.now) ids.now named.now }
    ensures no { result ≡ false → FindsOther (fits_of sort) (R.table rows.now) ids.now named.now → ⊥ }
{
    'rows: for row in 0..rows.rows() {
        let other = !sort.fits(number_in(rows, metric::TYPE, row));
        if other && holds_id(named, ids[row as usize]) {
            return true;
        }
    }
    false
}

fn holds_id(sorted: &[u32], id: Option<u32>) -> bool
    requires { IsNonDecreasingBy (λ n. n) sorted.now }
    ensures { (result ≡ true) ↔ HoldsId sorted.now id }
{
    match id {
        Some(number) => holds(sorted, number),
        None => false,
    }
}

fn holds(sorted: &[u32], number: u32) -> bool
    requires { IsNonDecreasingBy (λ n. n) sorted.now }
    ensures { (result ≡ true) ↔ Contains sorted.now number }
{
    match sorted.binary_search(&number) {
        Ok(_) => true,
        Err(_) => false,
    }
}
