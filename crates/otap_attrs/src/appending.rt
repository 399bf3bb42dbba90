//! The rows of pairs, appended to a table of attributes.
ghost use Rattle.std.specs.Prelude.{◌≡◌, ◌≤◌, ◌++◌, true, length, map, take, OnErr, OnOk};
ghost use Rattle.otlp_model.specs.Limits.{weight_limit, part_weight};
ghost use Rattle.otlp_model.specs.Weight.{total, weight_of_pair};
ghost use Rattle.otap_cells.specs.Continuing.{has_attributes};
ghost use Rattle.otap_attrs.specs.Values.{pair_row};

use crate::pairs::add_pair;
use crate::values::nested_bytes;
use otap_cells::LogicalTable;
use otlp_model::{Items, Pair};
use std::alloc::{AllocError, Global};

/// Appends the rows of the pairs of a parent, whose number is stored as it is. Where memory runs out, the table's former rows
/// come first; which rows follow them isn't said.
pub fn add_pairs(
    alloc: Global,
    table: &mut LogicalTable,
    parent: u32,
    pairs: &Items<Pair>,
) -> Result<(), AllocError>
    requires kind { has_attributes table.old.kind ≡ true }
    requires weight { total part_weight weight_of_pair pairs.now ≤ weight_limit }
    ensures ok { OnOk result (table.new ≡ record table.old { rows = table.old.rows ++ map (pair_row parent) pairs.now }) }
    ensures err { OnErr result (take (length table.old.rows) table.new.rows ≡ table.old.rows) }
    ensures kind { table.new.kind ≡ table.old.kind }
{
    let mut nested = Vec::new(alloc);
    'pairs: for pair in pairs.as_slice() {
        nested_bytes(&mut nested, &pair.value)?;
        add_pair(table, parent, pair, &nested)?;
    }
    Ok(())
}
