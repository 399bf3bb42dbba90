//! The pairs of parents, found in the tables of attributes.
ghost use Rattle.std.specs.Prelude.{◌≡◌, map, true, All, IfOk, IfSome};
ghost use Rattle.otap_attrs.specs.Index.{pair_weight_in, pairs_in};
ghost use Rattle.otap_cells.specs.Continuing.{has_attributes};
ghost use Rattle.otap_cells.specs.Named.{table_named};
ghost use Rattle.otap_attrs.specs.Facts.{HasWeights};
ghost use Rattle.otap_groups.specs.Beside.{FindsIf};
ghost use Rattle.otap_checks.specs.Known.{IsWeighed, Knows};

use crate::known::KnownRows;
use otap_attrs::{WeighedPairs, weights_of};
use otap_cells::{Kind, Rows, TableSet, shared_columns};
use otap_groups::Children;
use std::alloc::{AllocError, Global};

/// The pairs of parents, in a table of attributes; `None` without a table.
pub type PairRows<'a, R> = Option<Children<'a, WeighedPairs<'a, R>>>;

/// Finds the pairs of parents in the table of a kind, by the parents of its rows. Takes n log n for n rows, and time in proportion
/// to them where parents rise or count from 0.
pub fn find_pairs<'a, R: Rows>(
    alloc: Global,
    set: &'a TableSet<R>,
    kind: Kind,
    known: &KnownRows,
) -> Result<PairRows<'a, R>, AllocError>
    requires kind { has_attributes kind ≡ true }
    requires known { Knows (table_named kind set.now) kind known.now.ids }
    requires weights { All (IsWeighed set.now) known.now.weights.items }
    ensures { IfOk result (FindsIf (pairs_in (table_named kind set.now))) }
{
    let Some(rows) = set.get(kind) else {
        return Ok(None);
    };
    let weights = weights_for(alloc, rows, known.weights_of(kind))?;
    let made = Children::new(
        alloc,
        WeighedPairs { rows, weights },
        &[],
        known.ids.of(kind, shared_columns::attribute::PARENT_ID),
    )?;
    Ok(Some(made))
}

/// The weights of the pairs of a table: those that are known, or new ones.
fn weights_for<R: Rows>(
    alloc: Global,
    rows: &R,
    known: Option<&[u64]>,
) -> Result<Vec<u64>, AllocError>
    requires attributes { has_attributes (R.table rows.now).kind ≡ true }
    requires known { IfSome known (λ known. HasWeights (R.table rows.now) known.now) }
    ensures { IfOk result (λ weights. weights.items ≡ map pair_weight_in (R.table rows.now).rows) }
{
    match known {
        Some(known) => Vec::from_slice(alloc, known),
        None => weights_of(alloc, rows),
    }
}
