//! The table of main rows that are kept.
ghost use Rattle.std.specs.Prelude.{◌≡◌, ◌<◌, ◌≤◌, ◌++◌, ◌∷◌, [], true, All, length, IfOk, OnOk};
ghost use Rattle.std.specs.List.{slice_index_or};
ghost use Rattle.otap_cells.specs.declared.profile.Base.TheVariants as base;
ghost use Rattle.otap_cells.specs.Cells.{IsCellOf, seen};
ghost use Rattle.otap_cells.specs.Limits.{wide_ids};
ghost use Rattle.otap_groups.specs.Kinds.{IsMain};
ghost use Rattle.otap_kept.specs.Tables.{distance, kept_main, past_id};
ghost use Rattle.otap_kept.specs.Writing.{main_cells, mains_from};

use crate::copying::{add_cells, id_cell};
use otap_cells::{CellView, LogicalTable, Rows, shared_columns};
use std::alloc::{AllocError, Global};

/// The cells for the ids of a main row.
#[derive(Clone, Copy, Debug)]
struct FrontIds<'a> {
    own: CellView<'a>,
    resource: CellView<'a>,
    scope: CellView<'a>,
}

/// The main table of the rows at these places, with the new numbers of their resources and of their scopes.
pub(crate) fn write_main<R: Rows>(
    alloc: Global,
    rows: &R,
    places: &[usize],
    resources: &[Option<u32>],
    scopes: &[Option<u32>],
) -> Result<LogicalTable, AllocError>
    requires main { IsMain (R.table rows.now).kind }
    requires within { All (λ place. place < length (R.table rows.now).rows) places.now }
    requires few { length places.now ≤ wide_ids }
    requires resources { length resources.now ≡ length places.now }
    requires scopes { length scopes.now ≡ length places.now }
    ensures { IfOk result (λ table. table
        ≡ kept_main (R.table rows.now).kind (mains_from resources.now scopes.now (R.table rows.now).rows 0 places.now)) }
{
    let _count = rows.rows();
    let mut table = LogicalTable::for_rows(alloc, rows.kind(), places.len());
    let mut cells = Vec::new(alloc);
    let mut own = 0;
    let mut resource = 0;
    let mut scope = 0;
    'rows: for n in 0..places.len() {
        let id = Some(n as u32);
        let ids = FrontIds {
            own: distance(own, id),
            resource: distance(resource, resources[n]),
            scope: distance(scope, scopes[n]),
        };
        push_row(&mut table, &mut cells, rows, places[n] as u64, &ids)?;
        own = past_id(own, id);
        resource = past_id(resource, resources[n]);
        scope = past_id(scope, scopes[n]);
    }
    Ok(table)
}

/// What is stored for an id: its distance from the one before.
fn distance<'a>(before: u32, id: Option<u32>) -> CellView<'a>
    ensures value { seen result ≡ distance before id }
    ensures fits { IsCellOf (base.Id true) (seen result) }
{
    match id {
        Some(id) => id_cell(id.saturating_sub(before)),
        None => CellView::Null,
    }
}

/// The id from which the next distance is counted.
fn past_id(before: u32, id: Option<u32>) -> u32
    ensures { result ≡ past_id before id }
{
    match id {
        Some(id) => id,
        None => before,
    }
}

/// Appends a row with these cells for its ids. The list of cells is overwritten.
fn push_row<'a, R: Rows>(
    table: &mut LogicalTable,
    cells: &mut Vec<CellView<'a>>,
    rows: &'a R,
    row: u64,
    ids: &FrontIds<'a>,
) -> Result<(), AllocError>
    requires main { IsMain (R.table rows.now).kind }
    requires kind { table.old.kind ≡ (R.table rows.now).kind }
    requires row { row < length (R.table rows.now).rows }
    requires own { IsCellOf (base.Id true) (seen ids.now.own) }
    requires resource { IsCellOf (base.Id true) (seen ids.now.resource) }
    requires scope { IsCellOf (base.Id true) (seen ids.now.scope) }
    ensures { OnOk result (table.new ≡ record table.old {
      rows = table.old.rows ++ main_cells ids.now (slice_index_or (R.table rows.now).rows row []) ∷ [];
    }) }
{
    let _count = rows.rows();
    cells.clear();
    cells.push(ids.own)?;
    cells.push(ids.resource)?;
    cells.push(rows.cell(shared_columns::main::RESOURCE_URL, row))?;
    cells.push(rows.cell(shared_columns::main::RESOURCE_DROPPED, row))?;
    cells.push(ids.scope)?;
    add_cells(cells, rows, shared_columns::main::SCOPE_NAME, row)?;
    table.push_cells(cells)?;
    Ok(())
}
