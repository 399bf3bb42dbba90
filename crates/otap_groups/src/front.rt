//! The front of a main table: the ids of its rows, and the cells of their resources and scopes.
ghost use Rattle.std.specs.Prelude.{◌≡◌, ◌<◌, ◌≤◌, drop, length, map, IfOk};
ghost use Rattle.otap_cells.specs.Columns.{width_of};
ghost use Rattle.otap_cells.specs.Cells.{seen};
ghost use Rattle.otap_cells.specs.Tables.{cell_in};
ghost use Rattle.otap_groups.specs.Kinds.{IsMain};
ghost use Rattle.otap_groups.specs.Disagree.{Disagree};
ghost use Rattle.otap_groups.specs.Rows.{cell_is, cells_are, id_at, id_is, main_rows, row_at, same_resource, same_scope};
ghost use Rattle.otap_groups.specs.Inside.{EndsRun, cells_at, cells_by, id_by, same_at};

use crate::level::Level;
use otap_cells::{CellView, Rows};
use std::alloc::{AllocError, Global};
use std::marker::Model;

/// The rows of a main table with their ids. Contracts see it as the list of its main rows.
#[derive(Drop)]
pub struct FrontColumns<'a, R: Rows> {
    pub(crate) rows: &'a R,
    pub(crate) ids: &'a [Option<u32>],
    pub(crate) resource_ids: &'a [Option<u32>],
    pub(crate) scope_ids: &'a [Option<u32>],
}

impl<'a, R: Rows> Model for FrontColumns<'a, R> {
    ghost use Rattle.std.specs.Prelude.{List};
    ghost use Rattle.otap_groups.specs.Kinds.{IsMain};
    ghost use Rattle.otap_groups.specs.Rows.{MainRow, main_rows};

    ghost Value = { List MainRow };

    ghost view = { λ a. main_rows a.ids.now a.resource_ids.now a.scope_ids.now (R.table a.rows.now).rows };

    ghost invariant = { λ a. IsMain (R.table a.rows.now).kind };
}

impl<'a, R: Rows> FrontColumns<'a, R> {
    /// The rows of a table with these ids. It checks nothing.
    pub fn new(
        rows: &'a R,
        ids: &'a [Option<u32>],
        resource_ids: &'a [Option<u32>],
        scope_ids: &'a [Option<u32>],
    ) -> FrontColumns<'a, R>
        requires { IsMain (R.table rows.now).kind }
        ensures rows { result ≡ main_rows ids.now resource_ids.now scope_ids.now (R.table rows.now).rows }
        ensures own { map (drop 9) (R.table rows.now).rows ≡ map (λ row. row.own) result }
    {
        FrontColumns {
            rows,
            ids,
            resource_ids,
            scope_ids,
        }
    }

    /// How many rows there are.
    pub fn len(&self) -> usize
        ensures { result ≡ length self.now }
    {
        self.rows.rows() as usize
    }

    /// The id of a row.
    pub(crate) fn id(&self, place: usize) -> Option<u32>
        requires { place < length self.now }
        ensures { result ≡ (row_at self.now place).id }
    {
        id_at(self.ids, place)
    }

    /// The end of the group that begins at a place, among the rows up to `to`.
    pub(crate) fn run(&self, level: Level, from: usize, to: usize) -> usize
        requires agree { Disagree self.now → ⊥ }
        requires some { from < to }
        requires within { to ≤ length self.now }
        ensures some { from < result }
        ensures within { result ≤ to }
        ensures cut { EndsRun level self.now from result to }
    {
        let mut end = from + 1;
        'rows: while end < to && self.same(level, end - 1, end) {
            end += 1;
        }
        end
    }

    /// Whether two rows are in one group.
    fn same(&self, level: Level, a: usize, b: usize) -> bool
        requires agree { Disagree self.now → ⊥ }
        requires a { a < length self.now }
        requires b { b < length self.now }
        ensures { result ≡ same_at level (row_at self.now a) (row_at self.now b) }
    {
        match level {
            Level::Resource => self.same_resource(a, b),
            Level::Scope => self.same_scope(a, b),
        }
    }

    /// Rows of one id agree, so cells are compared only where there is none.
    fn same_resource(&self, a: usize, b: usize) -> bool
        requires agree { Disagree self.now → ⊥ }
        requires a { a < length self.now }
        requires b { b < length self.now }
        ensures { result ≡ same_resource (row_at self.now a) (row_at self.now b) }
    {
        let id = self.id_by(Level::Resource, a);
        if !same_id(id, self.id_by(Level::Resource, b)) {
            return false;
        }
        match id {
            Some(_) => true,
            None => self.same_cells(Level::Resource, a, b),
        }
    }

    /// As for resources, but the cell beside the scope is compared in any case.
    fn same_scope(&self, a: usize, b: usize) -> bool
        requires agree { Disagree self.now → ⊥ }
        requires a { a < length self.now }
        requires b { b < length self.now }
        ensures { result ≡ same_scope (row_at self.now a) (row_at self.now b) }
    {
        let id = self.id_by(Level::Scope, a);
        if !same_id(id, self.id_by(Level::Scope, b)) {
            return false;
        }
        if !self.same_url(a, b) {
            return false;
        }
        match id {
            Some(_) => true,
            None => self.same_cells(Level::Scope, a, b),
        }
    }

    /// Whether the schema urls beside two scopes are equal.
    fn same_url(&self, a: usize, b: usize) -> bool
        requires a { a < length self.now }
        requires b { b < length self.now }
        ensures { result ≡ cell_is (row_at self.now a).schema_url (row_at self.now b).schema_url }
    {
        same_cell(self.rows, 8, a as u64, b as u64)
    }

    /// Whether the cells beside an id are equal.
    pub(crate) fn same_cells(&self, level: Level, a: usize, b: usize) -> bool
        requires a { a < length self.now }
        requires b { b < length self.now }
        ensures { result ≡ cells_are (cells_by level (row_at self.now a)) (cells_by level (row_at self.now b)) }
    {
        same_cells(self.rows, level, a as u64, b as u64)
    }

    /// The ids of all rows.
    #[tactic(auto, using(crate::proofs::PartSteps::part_next, crate::proofs::PartSteps::part_over))]
    pub(crate) fn ids_by(&self, alloc: Global, level: Level) -> Result<Vec<Option<u32>>, AllocError>
        ensures { IfOk result (λ ids. ids.items ≡ map (id_by level) self.now) }
    {
        let to = self.len();
        let mut ids = Vec::with_capacity(alloc, to)?;
        'rows: for place in 0..to {
            ids.push(self.id_by(level, place))?;
        }
        Ok(ids)
    }

    fn id_by(&self, level: Level, place: usize) -> Option<u32>
        requires { place < length self.now }
        ensures { result ≡ id_by level (row_at self.now place) }
    {
        match level {
            Level::Resource => id_at(self.resource_ids, place),
            Level::Scope => id_at(self.scope_ids, place),
        }
    }
}

/// The id at a place, none past the end.
pub(crate) fn id_at(ids: &[Option<u32>], place: usize) -> Option<u32>
    ensures { result ≡ id_at ids.now place }
{
    if place < ids.len() { ids[place] } else { None }
}

fn same_id(a: Option<u32>, b: Option<u32>) -> bool
    ensures { result ≡ id_is a b }
{
    match (a, b) {
        (Some(a), Some(b)) => a == b,
        (a, b) => a.is_none() && b.is_none(),
    }
}

/// Whether the cells beside an id are equal in two rows of a main table.
fn same_cells<R: Rows>(rows: &R, level: Level, a: u64, b: u64) -> bool
    requires main { IsMain (R.table rows.now).kind }
    requires a { a < length (R.table rows.now).rows }
    requires b { b < length (R.table rows.now).rows }
    ensures { result ≡ cells_are (cells_at level (R.table rows.now).rows a) (cells_at level (R.table rows.now).rows b) }
{
    match level {
        Level::Resource => same_cell(rows, 2, a, b) && same_cell(rows, 3, a, b),
        Level::Scope => {
            same_cell(rows, 5, a, b) && same_cell(rows, 6, a, b) && same_cell(rows, 7, a, b)
        }
    }
}

fn same_cell<R: Rows>(rows: &R, column: u32, a: u64, b: u64) -> bool
    requires column { column < width_of (R.table rows.now).kind }
    requires a { a < length (R.table rows.now).rows }
    requires b { b < length (R.table rows.now).rows }
    ensures { result ≡ cell_is (cell_in (R.table rows.now).rows column a) (cell_in (R.table rows.now).rows column b) }
{
    rows.lacks(column) || same_view(rows.cell(column, a), rows.cell(column, b))
}

/// Whether two cells are equal.
fn same_view(a: CellView<'_>, b: CellView<'_>) -> bool
    ensures { result ≡ cell_is (seen a.entry) (seen b.entry) }
{
    match (a, b) {
        (CellView::Null, CellView::Null) => true,
        (CellView::Num(a), CellView::Num(b)) => a == b,
        (CellView::Bits(a), CellView::Bits(b)) => a == b,
        (CellView::Flag(a), CellView::Flag(b)) => a == b,
        (CellView::Bytes(a), CellView::Bytes(b)) => a == b,
        _ => false,
    }
}
