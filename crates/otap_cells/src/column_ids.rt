//! The ids of a table's columns.
ghost use Rattle.std.specs.Prelude.{◌≡◌, ◌<◌, ◌↔◌, true, codes, Contains, None, IfErr, IfOk, OnOk};
ghost use Rattle.otap_cells.specs.declared.column_ids.IdsRefusal.TheVariants.{Memory};
ghost use Rattle.otap_cells.specs.declared.profile.Base.TheVariants as base;
ghost use Rattle.otap_cells.specs.Cells.{seen, IsCellOf};
ghost use Rattle.otap_cells.specs.Columns.{is_id_at, name_at, width_of};
ghost use Rattle.otap_cells.specs.ColumnIds.{HasNullParent, IdsOf, RefusesIds, id_in, stored_in};
ghost use Rattle.otap_cells.specs.Continuing.{continues_in};
ghost use Rattle.otap_cells.specs.GivenIds.{HasIds};

use crate::continuing::continuing_rows;
use crate::ids::{IdFault, undo};
use crate::payload::Kind;
use crate::profile::{Coding, columns};
use crate::rows::Rows;
use crate::view::CellView;
use std::alloc::{AllocError, Global};
use thiserror::Error;

/// Why the ids of a column aren't given.
#[derive(Debug, Drop, Error)]
pub enum IdsRefusal {
    /// Something is wrong with the ids.
    #[error("{0}")]
    Ids(IdFault),
    /// Memory ran out.
    #[error("out of memory")]
    Memory(AllocError),
}

impl From<AllocError> for IdsRefusal {
    ghost from_gives = { λ error refusal. refusal ≡ Memory error };

    fn from(error: AllocError) -> IdsRefusal {
        IdsRefusal::Memory(error)
    }
}

/// The ids of a column, by its coding and its greatest number. `continues` says of each row whether it continues the run of
/// the one before, at which only runs look. Refuses with `NullParent` where the column is `parent_id` and a cell is null, and
/// else with `PastType` where an id would be above the greatest number.
pub fn ids_of<R: Rows>(
    alloc: Global,
    rows: &R,
    column: u32,
    continues: &[bool],
) -> Result<Vec<Option<u32>>, IdsRefusal>
    requires { is_id_at (R.table rows.now).kind column ≡ true }
    ensures ids { IfOk result (λ ids. IdsOf (R.table rows.now) column continues.now ids.items) }
    ensures parents { OnOk result (HasNullParent (R.table rows.now) column → ⊥) }
    ensures refused { IfErr result (RefusesIds (R.table rows.now) column continues.now) }
{
    let mut ids = stored_numbers(alloc, rows, column)?;
    if lacks_parent(rows.kind(), column, &ids) {
        return Err(IdsRefusal::Ids(IdFault::NullParent));
    }
    if undo(
        rows.coding(column),
        &mut ids,
        continues,
        rows.greatest(column),
    ) {
        Ok(ids)
    } else {
        Err(IdsRefusal::Ids(IdFault::PastType))
    }
}

/// The ids of a column, where the table's own cells say which rows continue a run. They are compared only where the ids are
/// stored in runs. Refuses as `ids_of` does.
pub fn read_ids<R: Rows>(
    alloc: Global,
    rows: &R,
    column: u32,
) -> Result<Vec<Option<u32>>, IdsRefusal>
    requires { is_id_at (R.table rows.now).kind column ≡ true }
    ensures ids { IfOk result (λ ids. HasIds (R.table rows.now) column ids.items) }
    ensures parents { OnOk result (HasNullParent (R.table rows.now) column → ⊥) }
    ensures refused { IfErr result (RefusesIds (R.table rows.now) column (continues_in (R.table rows.now))) }
{
    match rows.coding(column) {
        Coding::Run => {
            let continues = continuing_rows(alloc, rows)?;
            ids_of(alloc, rows, column, &continues)
        }
        Coding::Plain | Coding::Delta => ids_of(alloc, rows, column, &[]),
    }
}

/// The numbers that a column of ids stores.
pub fn stored_numbers<R: Rows>(
    alloc: Global,
    rows: &R,
    column: u32,
) -> Result<Vec<Option<u32>>, AllocError>
    requires { is_id_at (R.table rows.now).kind column ≡ true }
    ensures { IfOk result (λ found. found.items ≡ stored_in (R.table rows.now) column) }
{
    let count = rows.rows();
    let mut found = Vec::with_capacity(alloc, count as usize)?;
    'rows: for row in 0..count {
        found.push(id_in(rows.cell(column, row)))?;
    }
    Ok(found)
}

fn id_in(cell: CellView<'_>) -> Option<u32>
    requires { IsCellOf (base.Id true) (seen cell) }
    ensures { result ≡ id_in (seen cell.entry) }
{
    match cell {
        CellView::Num(number) => Some(number as u32),
        CellView::Null | CellView::Bits(_) | CellView::Flag(_) | CellView::Bytes(_) => None,
    }
}

/// Whether a parent is null among the numbers of the column.
fn lacks_parent(kind: Kind, column: u32, numbers: &[Option<u32>]) -> bool
    requires { column < width_of kind }
    ensures { (result ≡ true) ↔ (name_at kind column ≡ codes "parent_id") × Contains numbers.now None }
{
    is_parent(kind, column) && has_null(numbers)
}

fn is_parent(kind: Kind, column: u32) -> bool
    requires { column < width_of kind }
    ensures { (result ≡ true) ↔ (name_at kind column ≡ codes "parent_id") }
{
    columns(kind)[column as usize].name == "parent_id"
}

fn has_null(ids: &[Option<u32>]) -> bool
    ensures { (result ≡ true) ↔ Contains ids.now None }
{
    ids.contains(&None)
}
