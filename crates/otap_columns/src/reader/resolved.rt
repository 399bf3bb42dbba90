ghost use Rattle.std.specs.Prelude.{◌≡◌, ℕ, true, None, IfSome};
ghost use Rattle.std.specs.Option.{ForSome, option_copied};
ghost use Rattle.arrow_arrays.specs.Views.{cell_seen};
ghost use Rattle.otap_cells.specs.Cells.{seen};
ghost use Rattle.otap_columns.specs.Known.{stored_cell};
ghost use Rattle.otap_columns.specs.Resolved.{FitsBase, resolved_value, HasIndexSizes, IsResolved, AtMost};
ghost use Rattle.otap_columns.specs.Parts.{bytes_of_cell};
ghost use Rattle.otap_columns.specs.Substreams.{value_by_index};

use crate::reader::cells;
use crate::reader::dictionary::Dictionary;
use arrow_arrays::ColumnView;
use otap_cells::{Base, CellView};

/// A column of a record batch that is found once, and what its cells hold. Each of them is then a test of bits and a slice, and
/// for one with a dictionary an index and a slice.
#[derive(Clone, Copy, Debug)]
pub(crate) struct ResolvedColumn<'v> {
    base: Base,
    stored: ColumnView<'v>,
    /// No bitmap has bytes.
    whole: bool,
    /// The dictionary that the stored indexes lead into.
    dictionary: Option<&'v Dictionary>,
}

impl<'v> ResolvedColumn<'v> {
    /// A column that is missing: null in each row.
    pub(crate) fn missing(base: Base) -> ResolvedColumn<'v>
        ensures values { (row : ℕ) → resolved_value result row ≡ None }
        ensures resolved { IsResolved result }
        ensures base { result.base ≡ base }
    {
        ResolvedColumn {
            base,
            stored: ColumnView::none(),
            whole: false,
            dictionary: None,
        }
    }

    /// A column whose values are in the array itself.
    pub(crate) fn plain(base: Base, stored: ColumnView<'v>) -> ResolvedColumn<'v>
        ensures values { (row : ℕ) → resolved_value result row ≡ cell_seen stored.entry row }
        ensures resolved { IsResolved result }
        ensures base { result.base ≡ base }
    {
        ResolvedColumn {
            base,
            stored,
            whole: stored.is_whole(),
            dictionary: None,
        }
    }

    /// A column that stores indexes.
    pub(crate) fn indexed(
        base: Base,
        stored: ColumnView<'v>,
        dictionary: &'v Dictionary,
    ) -> ResolvedColumn<'v>
        requires { HasIndexSizes stored }
        ensures values { (row : ℕ) → resolved_value result row ≡ value_by_index dictionary.now.values (cell_seen stored.entry row) }
        ensures resolved { IsResolved result }
        ensures base { result.base ≡ base }
    {
        ResolvedColumn {
            base,
            stored,
            whole: stored.is_whole(),
            dictionary: Some(dictionary),
        }
    }

    /// Whether it is known that no row has a value, since the column is missing.
    pub(crate) fn is_missing(&self) -> bool
        ensures { result ≡ true → (row : ℕ) → resolved_value self.now row ≡ None }
    {
        match self.dictionary {
            None => self.stored.has_no_rows(),
            Some(_) => false,
        }
    }

    /// A number of bytes that so many rows don't exceed together, where one is known: no cell has more than the longest value of
    /// its dictionary, and a column that is missing has none.
    pub(crate) fn most_bytes(&self, rows: u64) -> Option<u64>
        ensures { IfSome result (AtMost self.now rows) }
    {
        if self.is_missing() {
            return Some(0);
        }
        let longest = self.dictionary?.longest();
        rows.checked_mul(longest)
    }

    /// The value in a row; `None` where it is null, or there is no such row.
    #[inline(always)]
    pub(crate) fn value(&self, row: u64) -> Option<&'v [u8]>
        requires { IsResolved self.now }
        ensures { option_copied result ≡ resolved_value self.now row }
    {
        match self.dictionary {
            None => self.stored.cell_if(row, self.whole),
            Some(dictionary) => dictionary.value(self.stored.index_if(row, self.whole)?),
        }
    }

    /// The cell of a row; null where there is no such row.
    #[inline(always)]
    pub(crate) fn cell(&self, row: u64) -> CellView<'v>
        requires resolved { IsResolved self.now }
        requires fits { ForSome (resolved_value self.now row) (FitsBase self.now.base) }
        ensures { seen result ≡ stored_cell self.now.base (resolved_value self.now row) }
    {
        cells::cell(self.base, self.value(row))
    }

    /// The bytes of a row's cell; `None` where it has none, or there is no such row.
    #[inline(always)]
    pub(crate) fn part(&self, row: u64) -> Option<&'v [u8]>
        requires { IsResolved self.now }
        ensures { option_copied result ≡ bytes_of_cell (stored_cell self.now.base (resolved_value self.now row)) }
    {
        if self.base.has_bytes() {
            self.value(row)
        } else {
            None
        }
    }
}
