//! The ids that have a pair.
ghost use Rattle.std.specs.Prelude.{◌≡◌, ◌<◌, [], true, drop, length, IfOk};
ghost use Rattle.std.specs.List.{slice_index_or};
ghost use Rattle.otap_cells.specs.Continuing.{has_attributes};
ghost use Rattle.otap_cells.specs.Named.{table_named};
ghost use Rattle.otap_checks.specs.Known.{Knows};
ghost use Rattle.otap_checks.specs.ValueDefects.{HasFineValues};
ghost use Rattle.otap_kept.specs.Holding.{AreHolders, parents_saying, says};
ghost use Rattle.otap_kept.specs.Texts.{text_pair};

use crate::text_pair::TextPair;
use otap_cells::{Kind, Rows, TableSet, attribute_at, shared_columns};
use otap_checks::KnownIds;
use std::alloc::{AllocError, Global};

/// The ids that have a pair in the table of a kind, sorted. Takes n log n for n rows that say it, and is linear beside that.
pub(crate) fn holders<R: Rows>(
    alloc: Global,
    set: &TableSet<R>,
    kind: Kind,
    read: &KnownIds,
    pair: &TextPair<'_>,
) -> Result<Vec<u32>, AllocError>
    requires kind { has_attributes kind ≡ true }
    requires known { Knows (table_named kind set.now) kind read.now }
    requires fine { HasFineValues set.now kind }
    ensures { IfOk result (λ found. AreHolders (text_pair pair.now) (table_named kind set.now) found.items) }
{
    let Some(rows) = set.get(kind) else {
        return Ok(Vec::new(alloc));
    };
    let parents = read.of(kind, shared_columns::attribute::PARENT_ID);
    let mut found = parents_saying(alloc, rows, parents, pair)?;
    found.sort()?;
    Ok(found)
}

/// The parents of the rows that say a pair, in the order of the rows.
fn parents_saying<R: Rows>(
    alloc: Global,
    rows: &R,
    parents: &[Option<u32>],
    pair: &TextPair<'_>,
) -> Result<Vec<u32>, AllocError>
    requires kind { has_attributes (R.table rows.now).kind ≡ true }
    requires long { length parents.now ≡ length (R.table rows.now).rows }
    ensures { IfOk result (λ found. found.items ≡ parents_saying pair.now parents.now (R.table rows.now).rows) }
{
    let mut found = Vec::new(alloc);
    'rows: for row in 0..rows.rows() {
        let Some(parent) = parents[row as usize] else {
            continue;
        };
        if says(rows, row, pair) {
            found.push(parent)?;
        }
    }
    Ok(found)
}

/// Whether a row of attributes says a pair.
fn says<R: Rows>(rows: &R, row: u64, pair: &TextPair<'_>) -> bool
    requires kind { has_attributes (R.table rows.now).kind ≡ true }
    requires row { row < length (R.table rows.now).rows }
    ensures { result ≡ says pair.now (drop 1 (slice_index_or (R.table rows.now).rows row [])) }
{
    let said = attribute_at(rows, row);
    said.kind == 1 && said.key == pair.key.as_bytes() && said.bytes == pair.text.as_bytes()
}
