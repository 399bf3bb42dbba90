//! The pairs of parents, found in a table of attributes.
ghost use Rattle.std.specs.Prelude.{◌≡◌, Some, true, map, min, IfErr, IfOk, OnOk};
ghost use Rattle.std.specs.List.Sorted.{IsNonDecreasingBy};
ghost use Rattle.otlp_model.specs.Limits.{count_cap, part_weight};
ghost use Rattle.otlp_model.specs.Weight.{total, weight_of_pair};
ghost use Rattle.otap_cells.specs.Continuing.{has_attributes};
ghost use Rattle.otap_cells.specs.Tables.{Table};
ghost use Rattle.otap_groups.specs.declared.entry.ChildEntry.{ChildEntry};
ghost use Rattle.otap_groups.specs.Found.{of_parent};
ghost use Rattle.otap_attrs.specs.declared.refusal.RowRefusal.{RowRefusal};
ghost use Rattle.otap_attrs.specs.Defects.{PairDefect, RefusesRow, WrongValue};
ghost use Rattle.otap_attrs.specs.Index.{IsIndexOf, pairs_in, pair_weight_in};

use crate::orphans::has_orphan;
use crate::reading::Pairs;
use crate::refusal::RowRefusal;
use crate::values::check_value;
use otap_cells::{Kind, Rows, read_ids, shared_columns};
use otap_groups::{ChildEntry, ChildIndex, RowReader};
use otlp_model::{Items, PART_WEIGHT, Pair, add_capped};
use std::alloc::{AllocError, Global};
use std::marker::Model;

/// Which rows of a table of attributes each parent has, and what their pairs weigh. It keeps no cells.
#[derive(Debug, Drop)]
pub struct PairIndex {
    /// The rows by the parents that they name, and those of one parent in their order.
    entries: Vec<ChildEntry>,
    /// Of each row what its pair weighs, or `CAP` where it is more.
    weights: Vec<u64>,
}

impl Model for PairIndex {
    ghost use Rattle.std.specs.Prelude.{length};
    ghost use Rattle.otap_attrs.specs.Index.{IndexIn};
    ghost use Rattle.otap_attrs.specs.Indexing.{IsByParent};

    ghost Value = { IndexIn };

    ghost view = { λ s. record { entries = s.entries.items; weights = s.weights.items } };

    ghost invariant = { λ s. IsByParent s.entries.items (length s.weights.items) };
}

/// Finds the pairs of each parent in a table of attributes whose parents are to be among these, or returns what is wrong
/// with it. Takes n log n for n rows and parents.
pub fn index_pairs<R: Rows>(
    alloc: Global,
    kind: Kind,
    rows: &R,
    parents: &[Option<u32>],
) -> Result<PairIndex, RowRefusal>
    requires attributes { has_attributes kind ≡ true }
    requires kind { (R.table rows.now).kind ≡ kind }
    ensures index { IfOk result (IsIndexOf (R.table rows.now)) }
    ensures fine { OnOk result ((why : RowRefusal) → PairDefect (R.table rows.now) parents.now why → ⊥) }
    ensures wrong { IfErr result (RefusesRow (PairDefect (R.table rows.now) parents.now)) }
{
    let ids = read_ids(alloc, rows, shared_columns::attribute::PARENT_ID)?;
    if has_orphan(alloc, &ids, parents)? {
        return Err(RowRefusal::Orphan);
    }
    check_values(rows)?;
    let weights = weights_of(alloc, rows)?;
    let found = ChildIndex::new(alloc, Pairs { rows }, &[], &ids)?;
    Ok(PairIndex {
        entries: found.entries,
        weights,
    })
}

impl PairIndex {
    /// What the pairs of a parent weigh, with 32 for each, or 2^63 where it is more. Takes log n for n rows, and time in
    /// proportion to the pairs.
    pub fn weight_of(&self, parent: u32) -> u64
        ensures { (t : Table) → IsIndexOf t self.now → result ≡ min (total part_weight weight_of_pair (pairs_in t (Some parent))) count_cap }
    {
        let entries = entries_of(&self.entries, parent);
        let mut weight = 0;
        'entries: for entry in entries {
            weight = add_capped(weight, add_capped(PART_WEIGHT, self.weights[entry.place]));
        }
        weight
    }

    /// The pairs of a parent in the order of their rows, which are those that the index was made of. Takes log n for n rows,
    /// and the time to copy the pairs.
    pub fn pairs_of<R: Rows>(
        &self,
        alloc: Global,
        rows: &R,
        parent: u32,
    ) -> Result<Items<Pair>, AllocError>
        requires { IsIndexOf (R.table rows.now) self.now }
        ensures { IfOk result (λ pairs. pairs ≡ pairs_in (R.table rows.now) (Some parent)) }
    {
        let reader = Pairs { rows };
        let entries = entries_of(&self.entries, parent);
        let mut pairs = Items::new(alloc);
        pairs.reserve(entries.len())?;
        'entries: for entry in entries {
            reader.add(alloc, None, entry.place, &mut pairs)?;
        }
        Ok(pairs)
    }
}

/// The part of the entries that has this parent.
fn entries_of(entries: &[ChildEntry], parent: u32) -> &[ChildEntry]
    requires { IsNonDecreasingBy (λ (e : ChildEntry). e.parent) entries.now }
    ensures { result.now ≡ of_parent parent entries.now }
{
    let first = entries.partition_point(|entry| entry.parent < parent);
    let rest = entries.split_at(first).1;
    let count = rest.partition_point(|entry| entry.parent <= parent);
    rest.split_at(count).0
}

fn check_values<R: Rows>(rows: &R) -> Result<(), RowRefusal>
    requires { has_attributes (R.table rows.now).kind ≡ true }
    ensures ok { OnOk result ((why : RowRefusal) → WrongValue (R.table rows.now) 2 why → ⊥) }
    ensures err { IfErr result (WrongValue (R.table rows.now) 2) }
{
    'rows: for row in 0..rows.rows() {
        check_value(rows, 2, row)?;
    }
    Ok(())
}

/// Of each row of a table of attributes what its pair weighs, or `CAP` where it is more.
pub fn weights_of<R: Rows>(alloc: Global, rows: &R) -> Result<Vec<u64>, AllocError>
    requires { has_attributes (R.table rows.now).kind ≡ true }
    ensures { IfOk result (λ weights. weights.items ≡ map pair_weight_in (R.table rows.now).rows) }
{
    let pairs = Pairs { rows };
    let count = rows.rows();
    let mut weights = Vec::with_capacity(alloc, count as usize)?;
    'rows: for row in 0..count {
        weights.push(pairs.weight(None, row as usize))?;
    }
    Ok(weights)
}
