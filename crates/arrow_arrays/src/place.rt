ghost use Rattle.std.specs.Prelude.{◌≡◌, ℕ, IsOk, IfErr, IfSome, OnOk};
ghost use Rattle.std.specs.Option.{option_copied};
ghost use Rattle.arrow_arrays.specs.Layouts.{FitsLayout};
ghost use Rattle.arrow_arrays.specs.Cells.{place_of_values, array_check, own_cell};
ghost use Rattle.arrow_arrays.specs.Faults.{IsArrayFault, HasNoArrayFault};
ghost use Rattle.arrow_arrays.specs.Views.{cell_seen};

use crate::column::ColumnView;
use crate::found::own_column;
use crate::layout::Layout;
use crate::view::array_in;
use arrow_buffers::BufferFault;
use arrow_ipc::BatchView;
use arrow_schema::ArrowType;

/// Where an array is in a record batch, and how its values are stored. Nodes and buffers come
/// depth first (Arrow columnar format, "RecordBatch message").
#[derive(Clone, Copy, Debug, PartialEq, Eq)]
pub struct ArrayPlace {
    pub layout: Layout,
    /// The index of its node among all nodes.
    pub node: u16,
    /// The index of its validity bitmap among all buffers. Its other buffers come next.
    pub buffer: u16,
    /// Whether it holds the elements of lists. These are as many as its node counts; the rows of
    /// every other array are those of the batch.
    pub element: bool,
}

impl ArrayPlace {
    /// The one array of a dictionary batch, whose values have this type.
    pub fn of_values(kind: ArrowType) -> ArrayPlace
        ensures { result ≡ place_of_values kind }
    {
        ArrayPlace {
            layout: Layout::of(kind, None),
            node: 0,
            buffer: 0,
            element: false,
        }
    }

    /// Whether the array has no fault, else the first that is met: `Short` where its node or a
    /// buffer is missing, the node counts other rows than the array has, or a buffer is too small;
    /// `BadNulls` where nulls are counted and there is no bitmap, or a list that isn't null has an
    /// element that is; `BadOffsets` and `BadUtf8` as their names say. A text or a list is checked
    /// where its row is valid in the array's own bitmap. It takes time linear in the array's bytes.
    #[tactic(auto, unfolding(crate::specs::Cells::array_check))]
    pub fn check(self, batch: &BatchView<'_>) -> Result<(), BufferFault>
        ensures exact { result ≡ array_check batch.now self }
        ensures none { OnOk result (HasNoArrayFault batch.now self) }
        ensures fault { IfErr result (IsArrayFault batch.now self) }
    {
        let array = array_in(batch, self)?;
        array.check_content(self.layout)
    }

    /// The column of the array's cells, by its own buffers. It takes constant time and no memory.
    pub fn view<'v>(self, batch: &BatchView<'v>) -> ColumnView<'v>
        requires fine { IsOk (array_check batch.now self) }
        ensures cells { (row : ℕ) → cell_seen result row ≡ own_cell batch.now self row }
        ensures fits { (row : ℕ) → IfSome (cell_seen result row) (FitsLayout self.layout) }
    {
        own_column(batch, self)
    }

    /// The bytes of a row's cell, by the array's own buffers; `None` where it is null, or there is
    /// no such row. Where more than one cell is asked for, `view` is found once for all of them.
    pub fn cell<'v>(self, batch: &BatchView<'v>, row: u64) -> Option<&'v [u8]>
        requires fine { IsOk (array_check batch.now self) }
        ensures cell { option_copied result ≡ own_cell batch.now self row }
        ensures fits { IfSome (option_copied result) (FitsLayout self.layout) }
    {
        let column = self.view(batch);
        column.cell(row)
    }
}
