ghost use Rattle.std.specs.Prelude.{◌≡◌, ◌<◌, ◌≤◌, true, length, sum_by, IfSome};
ghost use Rattle.otap_cells.specs.Cells.{seen, IsCellOf};
ghost use Rattle.otap_cells.specs.Columns.{base_at, is_id_at, width_of};
ghost use Rattle.otap_cells.specs.Tables.{Table, IsNullColumn, IsTable, cell_in, column_in, coding_in, greatest_in};
ghost use Rattle.otap_cells.specs.Weights.{cell_weight};

use crate::payload::Kind;
use crate::profile::Coding;
use crate::view::CellView;

/// The rows of a table, wherever they are kept.
pub trait Rows {
    /// The table that these rows are.
    ghost table: { Self → Table };

    /// The kind whose columns the rows have.
    fn kind(&self) -> Kind
        ensures { result ≡ (table self.now).kind };

    /// How many rows there are.
    fn rows(&self) -> u64
        ensures count { result ≡ length (table self.now).rows }
        ensures sound { IsTable (table self.now) };

    /// The cell of a row in a column, in constant time.
    fn cell(&self, column: u32, row: u64) -> CellView<'_>
        requires column { column < width_of (table self.now).kind }
        requires row { row < length (table self.now).rows }
        ensures value { seen result ≡ cell_in (table self.now).rows column row }
        ensures fits { IsCellOf (base_at (table self.now).kind column) (seen result) };

    /// Whether the table is known to lack a column: each of its cells is null. `false` says nothing of the cells. In constant time.
    fn lacks(&self, column: u32) -> bool
        requires { column < width_of (table self.now).kind }
        ensures { result ≡ true → IsNullColumn (table self.now).rows column };

    /// A number of bytes that the cells of a column don't exceed together, where one is known without looking at them. In constant
    /// time.
    fn most_bytes(&self, column: u32) -> Option<u64>
        requires { column < width_of (table self.now).kind }
        ensures { IfSome result (λ most. sum_by cell_weight (column_in (table self.now).rows column) ≤ most) };

    /// How the ids of a column are stored: in a way that the column allows.
    fn coding(&self, column: u32) -> Coding
        requires { is_id_at (table self.now).kind column ≡ true }
        ensures { result ≡ coding_in (table self.now) column };

    /// The greatest number that a column of ids may hold. No number that is stored in it is greater, and no id.
    fn greatest(&self, column: u32) -> u32
        requires { is_id_at (table self.now).kind column ≡ true }
        ensures { result ≡ greatest_in (table self.now) column };
}
