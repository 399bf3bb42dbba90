ghost use Rattle.std.specs.Prelude.{◌≡◌, ◌++◌, ◌∷◌, [], ◌<◌, ◌≤◌, ◌+◌, ◌-◌, ℕ, length, map, take, true, OnOk, OnErr};
ghost use Rattle.std.specs.List.{slice_index_or};
ghost use Rattle.otap_cells.specs.Cells.{seen, null, IsCellOf};
ghost use Rattle.otap_cells.specs.Columns.{columns_of, base_at, width_of};
ghost use Rattle.otap_cells.specs.Tables.{IsRow, cell_in, null_row, profile_table, with_cell};

use crate::kept::Cells;
use crate::payload::Kind;
use crate::profile::{Coding, coding_of, columns};
use crate::rows::Rows;
use crate::view::CellView;
use std::alloc::{AllocError, Global};
use std::marker::Model;

/// A table that is built row by row. Contracts see it as its kind and its rows; its ids are stored as the profile says, in
/// numbers of 32 bits.
///
/// The cells are kept column by column. A column takes room only up to the last row in which it was set; for 2^32 bytes of
/// texts, bytes and lists it has no room.
#[derive(Debug, Drop)]
pub struct LogicalTable {
    alloc: Global,
    kind: Kind,
    rows: u64,
    /// For how many cells a column has room from its first one on.
    room: usize,
    columns: Vec<Cells>,
}

impl Model for LogicalTable {
    ghost use Rattle.otap_cells.specs.Tables.{Table};
    ghost use Rattle.otap_cells.specs.Kept.{IsKept, kept_table};

    ghost Value = { Table };

    ghost view = { λ a. kept_table a.kind a.rows a.columns.items };

    ghost invariant = { λ a. IsKept a.kind a.rows a.columns.items };
}

impl LogicalTable {
    /// The table of a kind that has no rows.
    #[tactic(auto, unfolding(crate::specs::Tables::table_by))]
    pub fn new(alloc: Global, kind: Kind) -> LogicalTable
        ensures { result ≡ profile_table kind [] }
    {
        LogicalTable {
            alloc,
            kind,
            rows: 0,
            room: 0,
            columns: Vec::new(alloc),
        }
    }

    /// The same, for about that many rows: a column has room for them from its first cell on.
    #[tactic(auto, unfolding(crate::specs::Tables::table_by))]
    pub fn for_rows(alloc: Global, kind: Kind, rows: usize) -> LogicalTable
        ensures { result ≡ profile_table kind [] }
    {
        LogicalTable {
            alloc,
            kind,
            rows: 0,
            room: rows,
            columns: Vec::new(alloc),
        }
    }

    /// Appends a row in which every cell is null, in constant time. A table of 2^64 - 1 rows has no room for another one.
    #[inline(always)]
    pub fn push_row(&mut self) -> Result<(), AllocError>
        ensures ok { OnOk result (self.new ≡ record self.old { rows = self.old.rows ++ null_row self.old.kind ∷ [] }) }
        ensures err { OnErr result (self.new ≡ self.old) }
        ensures kind { self.new.kind ≡ self.old.kind }
        ensures count { OnOk result (length self.new.rows ≡ length self.old.rows + 1) }
    {
        if self.rows == u64::MAX {
            return Err(AllocError);
        }
        widen(self.alloc, &mut self.columns, columns(self.kind).len())?;
        self.rows += 1;
        Ok(())
    }

    /// Writes a cell of the last row, in amortised constant time and the time to copy its bytes. Where the cell had bytes
    /// before, they keep their room.
    #[inline(always)]
    pub fn set(&mut self, column: u32, cell: CellView<'_>) -> Result<(), AllocError>
        requires column { column < width_of self.old.kind }
        requires row { 0 < length self.old.rows }
        requires base { IsCellOf (base_at self.old.kind column) (seen cell) }
        ensures ok { OnOk result (self.new ≡ record self.old { rows = with_cell column (seen cell.entry) self.old.rows }) }
        ensures err { OnErr result (self.new ≡ self.old) }
        ensures kind { self.new.kind ≡ self.old.kind }
        ensures count { length self.new.rows ≡ length self.old.rows }
    {
        let row = (self.rows - 1) as usize;
        self.columns[column as usize].set(row, cell, self.room)?;
        Ok(())
    }

    /// Writes a cell of the last row as the one of the row before it, in amortised constant time: no bytes are copied.
    #[inline(always)]
    pub fn set_again(&mut self, column: u32) -> Result<(), AllocError>
        requires column { column < width_of self.old.kind }
        requires rows { 1 < length self.old.rows }
        ensures ok { OnOk result (self.new ≡ record self.old { rows = with_cell column (cell_in self.old.rows column (length self.old.rows - 2)) self.old.rows }) }
        ensures err { OnErr result (self.new ≡ self.old) }
        ensures kind { self.new.kind ≡ self.old.kind }
        ensures count { length self.new.rows ≡ length self.old.rows }
    {
        let row = (self.rows - 1) as usize;
        self.columns[column as usize].set_again(row, self.room)?;
        Ok(())
    }
}

impl LogicalTable {
    /// Appends a row of these cells, one for each column. Takes the time to copy the bytes of those that aren't null, and
    /// constant time for each null. Out of memory, the former rows come first; whether a row follows them is unspecified.
    #[inline(always)]
    pub fn push_cells(&mut self, cells: &[CellView<'_>]) -> Result<(), AllocError>
        requires { IsRow (columns_of self.old.kind) (map seen cells.now) }
        ensures ok { OnOk result (self.new ≡ record self.old { rows = self.old.rows ++ map seen cells.now ∷ [] }) }
        ensures err { OnErr result (take (length self.old.rows) self.new.rows ≡ self.old.rows) }
        ensures kind { self.new.kind ≡ self.old.kind }
    {
        self.push_row()?;
        'cells: for column in 0..cells.len() {
            if is_null(cells[column]) {
                continue;
            }
            self.set(column as u32, cells[column])?;
        }
        Ok(())
    }

    /// How many rows there are up to the last one in which a column was set. From there on its cells are null.
    pub fn reach(&self, column: u32) -> u64
        ensures { (row : ℕ) → result ≤ row → cell_in self.now.rows column row ≡ null }
    {
        let column = column as usize;
        if column >= self.columns.len() {
            return 0;
        }
        self.columns[column].reach()
    }

    /// Whether the cell of a row in a column is known to be that of the row before, without a look at its bytes. `false` says
    /// nothing of the cells. In constant time.
    #[inline(always)]
    pub fn is_again(&self, column: u32, row: u64) -> bool
        requires column { column < width_of self.now.kind }
        requires after { 0 < row }
        requires row { row < length self.now.rows }
        ensures { result ≡ true → cell_in self.now.rows column row ≡ cell_in self.now.rows column (row - 1) }
    {
        self.columns[column as usize].is_again(row as usize)
    }
}

impl Rows for LogicalTable {
    ghost table = { λ t. t };

    fn kind(&self) -> Kind {
        self.kind
    }

    fn rows(&self) -> u64 {
        self.rows
    }

    fn cell(&self, column: u32, row: u64) -> CellView<'_> {
        self.columns[column as usize].get(row as usize)
    }

    fn lacks(&self, column: u32) -> bool {
        self.reach(column) == 0
    }

    fn most_bytes(&self, _column: u32) -> Option<u64> {
        None
    }

    fn coding(&self, column: u32) -> Coding {
        coding_of(self.kind, column)
    }

    fn greatest(&self, _column: u32) -> u32 {
        let _kind = self.kind;
        u32::MAX
    }
}

fn is_null(cell: CellView<'_>) -> bool
    ensures { result ≡ true → seen cell.entry ≡ null }
{
    matches!(cell, CellView::Null)
}

/// Adds columns without cells until there is that number of them.
fn widen(alloc: Global, columns: &mut Vec<Cells>, width: usize) -> Result<(), AllocError>
    requires { length columns.old.items ≤ width }
    ensures ok { OnOk result (length columns.new.items ≡ width) }
    ensures grows { length columns.old.items ≤ length columns.new.items }
    ensures few { length columns.new.items ≤ width }
    ensures same { (column : ℕ) → slice_index_or columns.new.items column [] ≡ slice_index_or columns.old.items column [] }
{
    columns.reserve(width.saturating_sub(columns.len()))?;
    'columns: while columns.len() < width {
        columns.push(Cells::new(alloc))?;
    }
    Ok(())
}
