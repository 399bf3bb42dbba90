//! The tables of attributes below parents that are kept.
ghost use Rattle.std.specs.Prelude.{◌≡◌, ◌<◌, ◌++◌, ◌∷◌, [], true, drop, length, IfOk, OnOk};
ghost use Rattle.std.specs.List.{slice_index_or};
ghost use Rattle.otap_cells.specs.Continuing.{has_attributes};
ghost use Rattle.otap_cells.specs.Named.{table_named};
ghost use Rattle.otap_cells.specs.Tables.{profile_table};
ghost use Rattle.otap_groups.specs.Stored.{id_cell};
ghost use Rattle.otap_attrs.specs.Index.{attribute_rows_in};
ghost use Rattle.otap_checks.specs.Known.{Knows};
ghost use Rattle.otap_kept.specs.Rows.{under};
ghost use Rattle.otap_kept.specs.Tables.{kept_attributes};
ghost use Rattle.otap_kept.specs.Writing.{with_numbers};

use crate::copying::{add_cells, id_cell};
use crate::numbering::new_numbers;
use otap_attrs::code_parents;
use otap_cells::{CellView, Kind, LogicalTable, Rows, TableSet, shared_columns};
use otap_checks::KnownIds;
use std::alloc::{AllocError, Global};

/// The attributes of parents that are kept, whose former ids are these. Takes n log n for n rows.
pub(crate) fn attributes_below<R: Rows>(
    alloc: Global,
    set: &TableSet<R>,
    read: &KnownIds,
    kind: Kind,
    kept: &[Option<u32>],
) -> Result<LogicalTable, AllocError>
    requires kind { has_attributes kind ≡ true }
    requires known { Knows (table_named kind set.now) kind read.now }
    ensures { IfOk result (λ table. table ≡ kept_attributes kind (under kept.now (attribute_rows_in (table_named kind set.now)))) }
{
    let Some(rows) = set.get(kind) else {
        return Ok(LogicalTable::new(alloc, kind));
    };
    let numbers = new_numbers(
        alloc,
        kept,
        read.of(kind, shared_columns::attribute::PARENT_ID),
    )?;
    let mut table = numbered_rows(alloc, rows, &numbers)?;
    code_parents(alloc, &mut table)?;
    Ok(table)
}

/// The rows that have a number, with it in the place of their parent.
fn numbered_rows<R: Rows>(
    alloc: Global,
    rows: &R,
    numbers: &[Option<u32>],
) -> Result<LogicalTable, AllocError>
    requires kind { has_attributes (R.table rows.now).kind ≡ true }
    requires long { length numbers.now ≡ length (R.table rows.now).rows }
    ensures { IfOk result (λ table. table ≡ profile_table (R.table rows.now).kind (with_numbers numbers.now (R.table rows.now).rows)) }
{
    let count = rows.rows();
    let mut table = LogicalTable::for_rows(alloc, rows.kind(), count as usize);
    let mut cells = Vec::new(alloc);
    'rows: for row in 0..count {
        let Some(number) = numbers[row as usize] else {
            continue;
        };
        push_numbered(&mut table, &mut cells, rows, row, number)?;
    }
    Ok(table)
}

/// Appends a row with a number in the place of its parent. The list of cells is overwritten.
fn push_numbered<'a, R: Rows>(
    table: &mut LogicalTable,
    cells: &mut Vec<CellView<'a>>,
    rows: &'a R,
    row: u64,
    number: u32,
) -> Result<(), AllocError>
    requires attributes { has_attributes (R.table rows.now).kind ≡ true }
    requires kind { table.old.kind ≡ (R.table rows.now).kind }
    requires row { row < length (R.table rows.now).rows }
    ensures { OnOk result (table.new ≡ record table.old {
      rows = table.old.rows ++ (id_cell number ∷ drop 1 (slice_index_or (R.table rows.now).rows row [])) ∷ [];
    }) }
{
    let _count = rows.rows();
    cells.clear();
    cells.push(id_cell(number))?;
    add_cells(cells, rows, shared_columns::attribute::KEY, row)?;
    table.push_cells(cells)?;
    Ok(())
}
