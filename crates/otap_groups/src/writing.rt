//! The main table of a request.
ghost use Rattle.std.specs.Prelude.{◌≡◌, ◌++◌, ◌∷◌, [], List, length, map, take, All, IfOk, OnOk, OnErr};
ghost use Rattle.otap_cells.specs.declared.payload.Kind.{Kind};
ghost use Rattle.otap_cells.specs.Cells.{Cell};
ghost use Rattle.otap_cells.specs.Columns.{common};
ghost use Rattle.otap_cells.specs.Tables.{IsRow, profile_table};
ghost use Rattle.otap_groups.specs.Flat.{resource_cells, scope_cells};
ghost use Rattle.otap_groups.specs.Stored.{Rising, id_cell, stored_rows};
ghost use Rattle.otap_groups.specs.Views.{front_cells, seen_flat};
ghost use Rattle.otap_cells.specs.Scalars.{text_cell};

use crate::cells::FrontCells;
use crate::flat::Flat;
use otap_cells::{CellView, Kind, LogicalTable, number_cell, text_cell};
use std::alloc::{AllocError, Global};

/// Writes the rows of items.
pub trait RowWriter {
    type Item;

    /// The kind of the table.
    ghost kind: { Kind };

    /// The own cells of an item.
    ghost cells_of: { Self.Item → List Cell };

    /// The items that can be written.
    ghost CanWrite: { Self.Item → Type 0 };

    fn kind(&self) -> Kind
        ensures { result ≡ kind };

    /// Appends a row: the cells in front, and those of the item. Where memory runs out, the former rows come first; whether a row
    /// follows them isn't said.
    fn push<'a>(
        &self,
        table: &mut LogicalTable,
        front: &FrontCells<'a>,
        item: &'a Self::Item,
    ) -> Result<(), AllocError>
        requires kind { table.old.kind ≡ kind }
        requires front { IsRow common (front_cells front.now) }
        requires item { CanWrite item.now }
        ensures ok { OnOk result (table.new ≡ record table.old { rows = table.old.rows ++ (front_cells front.now ++ cells_of item.now) ∷ [] }) }
        ensures err { OnErr result (take (length table.old.rows) table.new.rows ≡ table.old.rows) }
        ensures kind { table.new.kind ≡ table.old.kind };
}

/// The main table of a request's items.
pub fn write_rows<W: RowWriter>(
    alloc: Global,
    writer: &W,
    rows: &[Flat<'_, W::Item>],
) -> Result<LogicalTable, AllocError>
    requires rising { Rising 0 0 (map seen_flat rows.now) }
    requires items { All (λ f. W.CanWrite f.item.now) rows.now }
    ensures { IfOk result (λ table. table ≡ profile_table W.kind (stored_rows W.cells_of 0 0 0 (map seen_flat rows.now))) }
{
    let mut table = LogicalTable::for_rows(alloc, writer.kind(), rows.len());
    let mut step = 0;
    let mut resource_id = 0;
    let mut scope_id = 0;
    'rows: for row in rows {
        let front = front_of(
            step,
            row.resource_id - resource_id,
            row.scope_id - scope_id,
            row,
        );
        writer.push(&mut table, &front, row.item)?;
        step = 1;
        resource_id = row.resource_id;
        scope_id = row.scope_id;
    }
    Ok(table)
}

fn front_of<'a, I>(id: u32, resource_id: u32, scope_id: u32, row: &Flat<'a, I>) -> FrontCells<'a>
    ensures cells { front_cells result ≡ id_cell id ∷ id_cell resource_id ∷ resource_cells row.now.resource.now
        ++ (id_cell scope_id ∷ scope_cells row.now.scope.now ++ text_cell row.now.scope.now.schema_url ∷ []) }
    ensures fits { IsRow common (front_cells result) }
{
    FrontCells {
        id: CellView::Num(i64::from(id)),
        resource_id: CellView::Num(i64::from(resource_id)),
        resource_url: text_cell(&row.resource.schema_url),
        resource_dropped: number_cell(row.resource.dropped),
        scope_id: CellView::Num(i64::from(scope_id)),
        scope_name: text_cell(&row.scope.name),
        scope_version: text_cell(&row.scope.version),
        scope_dropped: number_cell(row.scope.dropped),
        schema_url: text_cell(&row.scope.schema_url),
    }
}
