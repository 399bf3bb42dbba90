//! The parts of parents, found in the table of a kind.
ghost use Rattle.std.specs.Prelude.{◌≡◌, drop, map, IfOk};
ghost use Rattle.otap_cells.specs.Named.{table_named};
ghost use Rattle.otap_groups.specs.Beside.{Finds};
ghost use Rattle.otap_groups.specs.Children.{children};
ghost use Rattle.otap_groups.specs.Kinds.{IsPart};
ghost use Rattle.otap_checks.specs.Known.{Knows};
ghost use Rattle.otap_checks.specs.Reading.{part_rows_in};

use crate::known::KnownIds;
use otap_cells::{Kind, Rows, TableSet, shared_columns};
use otap_groups::{Children, RowReader};
use std::alloc::{AllocError, Global};

/// The rows that a reader reads, which are those of the table of a kind, found by their parents. Takes n log n for n rows, and
/// time in proportion to them where ids and parents rise or count from 0.
pub fn index_rows<'a, R: Rows, S: RowReader>(
    alloc: Global,
    set: &TableSet<R>,
    kind: Kind,
    known: &'a KnownIds,
    reader: S,
) -> Result<Children<'a, S>, AllocError>
    requires part { IsPart kind }
    requires known { Knows (table_named kind set.now) kind known.now }
    requires rows { S.cells reader ≡ map (drop 2) (table_named kind set.now).rows }
    ensures { IfOk result (Finds (children (S.item reader) (part_rows_in (table_named kind set.now)))) }
{
    let ids = known.of(kind, shared_columns::part::ID);
    let parents = known.of(kind, shared_columns::part::PARENT_ID);
    let made = Children::new(alloc, reader, ids, parents)?;
    Ok(made)
}
