//! The cells of rows that are written.
ghost use Rattle.std.specs.Prelude.{◌≡◌, ◌<◌, ◌++◌, [], true, drop, length, map, OnOk};
ghost use Rattle.std.specs.List.{slice_index_or};
ghost use Rattle.otap_cells.specs.declared.profile.Base.TheVariants as base;
ghost use Rattle.otap_cells.specs.Cells.{IsCellOf, seen};
ghost use Rattle.otap_groups.specs.Stored.{id_cell};

use otap_cells::{CellView, Rows, columns};
use std::alloc::AllocError;

/// Appends the cells of a row from a column on.
pub(crate) fn add_cells<'a, R: Rows>(
    cells: &mut Vec<CellView<'a>>,
    rows: &'a R,
    from: u32,
    row: u64,
) -> Result<(), AllocError>
    requires { row < length (R.table rows.now).rows }
    ensures { OnOk result (map seen cells.new.items
        ≡ map seen cells.old.items ++ drop from (slice_index_or (R.table rows.now).rows row [])) }
{
    let width = columns(rows.kind()).len() as u32;
    let _count = rows.rows();
    'columns: for column in from..width {
        cells.push(rows.cell(column, row))?;
    }
    Ok(())
}

/// The cell of an id.
pub(crate) fn id_cell<'a>(id: u32) -> CellView<'a>
    ensures value { seen result ≡ id_cell id }
    ensures fits { IsCellOf (base.Id true) (seen result) }
{
    CellView::Num(i64::from(id))
}
