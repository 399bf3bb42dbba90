ghost use Rattle.std.specs.Prelude.{◌≡◌, ◌<◌, Ok, length};
ghost use Rattle.arrow_arrays.specs.Arrays.{arrays_check};
ghost use Rattle.otap_cells.specs.Columns.{width_of};

use crate::reader::Reader;
use crate::reader::resolved::ResolvedColumn;
use arrow_ipc::BatchView;
use otap_cells::{Base, CellView, Coding, Kind, Rows, columns};
use std::marker::Model;

/// Room for the columns of any table.
pub(crate) const COLUMN_ROOM: usize = 25;

/// The table of a record. It hands out parts of the record's bytes and of the reader's dictionaries, and takes no memory. A
/// contract sees it as the table.
#[derive(Debug, Drop)]
pub struct RowsView<'v> {
    reader: &'v Reader,
    batch: BatchView<'v>,
    /// The columns of the kind, found once for all rows.
    columns: [ResolvedColumn<'v>; COLUMN_ROOM],
}

impl<'v> Model for RowsView<'v> {
    ghost use Rattle.otap_cells.specs.Tables.{Table};

    ghost Value = { Table };

    ghost use Rattle.otap_columns.specs.RowsInside.{rows_view, IsRowsInside};

    ghost view = { rows_view };

    ghost invariant = { IsRowsInside };
}

impl<'v> RowsView<'v> {
    ghost use Rattle.otap_cells.specs.Tables.{IsTable, cell_in};
    ghost use Rattle.otap_columns.specs.Parts.{bytes_of_cell};
    ghost use Rattle.otap_columns.specs.Substreams.{table_of_batch};
    ghost use Rattle.otap_columns.specs.Resolved.{ShowsColumn};
    ghost use Rattle.std.specs.Option.{option_copied};

    pub(crate) fn new(reader: &'v Reader, batch: BatchView<'v>) -> RowsView<'v>
        requires fine { arrays_check batch reader.now.substream.arrays ≡ Ok tt }
        requires sound { IsTable (table_of_batch reader.now.kind reader.now.substream batch) }
        ensures { result ≡ table_of_batch reader.now.kind reader.now.substream batch.entry }
    {
        let mut found = [ResolvedColumn::missing(Base::Bool); COLUMN_ROOM];
        'columns: for column in 0..columns(reader.kind()).len() {
            found[column] = reader.column(&batch, column as u32);
        }
        RowsView {
            reader,
            batch,
            columns: found,
        }
    }

    /// The bytes of a row's cell in a column; `None` where the cell has none, since it is null or no text, binary, id of a trace
    /// or span, or list. They stay for as long as the record and the reader are lent, longer than the view itself.
    pub fn part(&self, column: u32, row: u64) -> Option<&'v [u8]>
        requires column { column < width_of self.now.kind }
        requires row { row < length self.now.rows }
        ensures { option_copied result ≡ bytes_of_cell (cell_in self.now.rows column row) }
    {
        self.column(column).part(row)
    }

    #[inline(always)]
    fn column(&self, column: u32) -> &ResolvedColumn<'v>
        requires { column < width_of self.now.kind }
        ensures { ShowsColumn self.now column result.now }
    {
        let columns = &self.columns[..];
        &columns[column as usize]
    }
}

impl<'v> Rows for RowsView<'v> {
    ghost table = { λ t. t };

    fn kind(&self) -> Kind {
        self.reader.kind()
    }

    fn rows(&self) -> u64 {
        self.batch.rows()
    }

    #[inline(always)]
    fn cell(&self, column: u32, row: u64) -> CellView<'_> {
        self.column(column).cell(row)
    }

    fn lacks(&self, column: u32) -> bool {
        self.column(column).is_missing()
    }

    fn most_bytes(&self, column: u32) -> Option<u64> {
        self.column(column).most_bytes(self.batch.rows())
    }

    fn coding(&self, column: u32) -> Coding {
        self.reader.coding(column)
    }

    fn greatest(&self, column: u32) -> u32 {
        self.reader.greatest(column)
    }
}
