//! The ids of main rows that are kept, and their table.
ghost use Rattle.std.specs.Prelude.{◌≡◌, ◌<◌, ◌≤◌, true, false, All, length, map, IfNone, IfOk, IfSome};
ghost use Rattle.otap_cells.specs.Limits.{wide_ids};
ghost use Rattle.otap_cells.specs.Named.{table_named};
ghost use Rattle.otap_groups.specs.Kinds.{IsMain};
ghost use Rattle.otap_checks.specs.Known.{Knows, ids_named};
ghost use Rattle.otap_kept.specs.Holding.{main_row_in};
ghost use Rattle.otap_kept.specs.Numbering.{IsFirstIds, numbers_rise};
ghost use Rattle.otap_kept.specs.Numbers.{new_number};
ghost use Rattle.otap_kept.specs.Rows.{renewed};
ghost use Rattle.otap_kept.specs.Tables.{kept_main};
ghost use Rattle.otap_kept.specs.Writing.{ids_kept, main_ids_kept, places_rise, seen_ids};

use crate::first_ids::first_ids;
use crate::main_table::write_main;
use crate::numbering::new_numbers;
use crate::places::ids_at;
use otap_cells::{Kind, LogicalTable, Rows, TableSet, shared_columns};
use otap_checks::{ColumnIds, KnownIds};
use std::alloc::{AllocError, Global};

/// The ids of the main rows at these places: their own, and each of their resources and scopes once. `None` where the new numbers
/// of resources or of scopes fall. Takes n log n for n rows.
pub(crate) fn main_ids(
    alloc: Global,
    main: Kind,
    read: &KnownIds,
    places: &[usize],
) -> Result<Option<KnownIds>, AllocError>
    ensures ids { IfOk result (λ found. IfSome found (λ ids. map seen_ids ids ≡ main_ids_kept main read.now places.now)) }
    ensures ordered { IfOk result (λ found. IfSome found (λ ids. places_rise main read.now places.now ≡ true)) }
    ensures unordered { IfOk result (λ found. IfNone found (places_rise main read.now places.now ≡ false)) }
{
    let own = ids_at(alloc, read.of(main, shared_columns::main::ID), places)?;
    let Some(resources) = first_of_column(
        alloc,
        main,
        read,
        shared_columns::main::RESOURCE_ID,
        places,
    )?
    else {
        return Ok(None);
    };
    let Some(scopes) = first_of_column(alloc, main, read, shared_columns::main::SCOPE_ID, places)?
    else {
        return Ok(None);
    };
    let mut columns = Vec::with_capacity(alloc, 3)?;
    columns.push(column_ids(main, shared_columns::main::ID, own))?;
    columns.push(column_ids(main, shared_columns::main::RESOURCE_ID, resources))?;
    columns.push(column_ids(main, shared_columns::main::SCOPE_ID, scopes))?;
    Ok(Some(KnownIds { columns }))
}

/// The first of each id of a column, where the new numbers don't fall.
fn first_of_column(
    alloc: Global,
    main: Kind,
    read: &KnownIds,
    column: u32,
    places: &[usize],
) -> Result<Option<Vec<Option<u32>>>, AllocError>
    ensures ordered { IfOk result (λ found. IfSome found (λ first. IsFirstIds (ids_kept main read.now places.now column) first.items)) }
    ensures unordered { IfOk result (λ found. IfNone found (numbers_rise (ids_kept main read.now places.now column) ≡ false)) }
{
    let ids = ids_at(alloc, read.of(main, column), places)?;
    let first = first_ids(alloc, &ids)?;
    Ok(first)
}

fn column_ids(kind: Kind, column: u32, ids: Vec<Option<u32>>) -> ColumnIds
    ensures { seen_ids result ≡ record { kind = kind; column = column; ids = ids.items } }
{
    ColumnIds { kind, column, ids }
}

/// The table of the main rows at these places, of which the ids that are kept are known. Takes n log n for n rows.
pub(crate) fn main_table<R: Rows>(
    alloc: Global,
    set: &TableSet<R>,
    main: Kind,
    read: &KnownIds,
    places: &[usize],
    kept: &KnownIds,
) -> Result<LogicalTable, AllocError>
    requires main { IsMain main }
    requires known { Knows (table_named main set.now) main read.now }
    requires within { All (λ place. place < length (table_named main set.now).rows) places.now }
    requires few { length places.now ≤ wide_ids }
    requires kept { map seen_ids kept.now ≡ main_ids_kept main read.now places.now }
    ensures { IfOk result (λ table. table ≡ kept_main main (renewed (map (main_row_in (table_named main set.now)) places.now))) }
{
    let resources = numbers_of(
        alloc,
        main,
        read,
        places,
        kept,
        shared_columns::main::RESOURCE_ID,
    )?;
    let scopes = numbers_of(
        alloc,
        main,
        read,
        places,
        kept,
        shared_columns::main::SCOPE_ID,
    )?;
    let Some(rows) = set.get(main) else {
        return Ok(LogicalTable::new(alloc, main));
    };
    let table = write_main(alloc, rows, places, &resources, &scopes)?;
    Ok(table)
}

/// The new numbers of a column's ids at these places.
fn numbers_of(
    alloc: Global,
    main: Kind,
    read: &KnownIds,
    places: &[usize],
    kept: &KnownIds,
    column: u32,
) -> Result<Vec<Option<u32>>, AllocError>
    ensures { IfOk result (λ numbers. numbers.items
        ≡ map (new_number (ids_named main column kept.now)) (ids_kept main read.now places.now column)) }
{
    let ids = ids_at(alloc, read.of(main, column), places)?;
    let numbers = new_numbers(alloc, kept.of(main, column), &ids)?;
    Ok(numbers)
}
