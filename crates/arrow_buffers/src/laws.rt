//! What the definitions say, in other words. The functions do nothing: their contracts are the laws.

ghost use Rattle.std.specs.Prelude.{◌≡◌, ℕ, ◌+◌, ◌*◌, ◌<◌, ◌≤◌, ◌⊎◌, ◌↔◌, if◌then◌else◌, Bool, List, length, take, slice_get, slice_range, IsTrue, IsOk, Some, Ok, Err, option_map};
ghost use Rattle.std.specs.List.{flat_map, list_all, range_with_len};
ghost use Rattle.arrow_buffers.specs.declared.fault.BufferFault.TheVariants.{Short, BadOffsets, BadUtf8};
ghost use Rattle.arrow_buffers.specs.declared.width.Width.{Width};
ghost use Rattle.arrow_buffers.specs.declared.width.Width.TheVariants.{Bit, Fixed, Var};
ghost use Rattle.arrow_buffers.specs.declared.width.Width.TheVariants as width;
ghost use Rattle.arrow_buffers.specs.Limits.{max_rows};
ghost use Rattle.arrow_buffers.specs.Below.{all_below};
ghost use Rattle.arrow_buffers.specs.Bits.{bits_of, cell_where, flag_of};
ghost use Rattle.arrow_buffers.specs.Columns.{bit_byte, cell_at, cells_of};
ghost use Rattle.arrow_buffers.specs.Fixed.{row_part, part_of};
ghost use Rattle.arrow_buffers.specs.Lists.{elements_of};
ghost use Rattle.arrow_buffers.specs.Offsets.{AreNone, AreOffsets, IsBad, offset_at, offsets_check, span_at};
ghost use Rattle.arrow_buffers.specs.Vars.{is_text, row_span, utf8_check};

use crate::builder::MAX_ROWS;

/// The limit has its value.
pub fn limits_hold()
    ensures rows { MAX_ROWS ≡ max_rows }
{}

/// A test holds for all numbers below one where it holds for each of them.
pub fn below_is_at_each_place()
    ensures { (test : ℕ → Bool) (n : ℕ) → IsTrue (all_below test n) ↔ ((i : ℕ) → i < n → IsTrue (test i)) }
{}

/// Offsets have no fault exactly where they are as the format wants them, or there is nothing that
/// they could lead to; and each fault is found exactly under its own condition.
pub fn offsets_have_their_faults()
    ensures no_fault { (width : ℕ) (offsets values : List ℕ) (rows : ℕ) → IsOk (offsets_check width offsets values rows)
        ↔ (AreNone offsets rows ⊎ AreOffsets width offsets values rows) }
    ensures short { (width : ℕ) (offsets values : List ℕ) (rows : ℕ) → (offsets_check width offsets values rows ≡ Err Short)
        ↔ ((¬ AreNone offsets rows) × (length offsets < 4 * (rows + 1))) }
    ensures bad_offsets { (width : ℕ) (offsets values : List ℕ) (rows : ℕ) → (offsets_check width offsets values rows ≡ Err BadOffsets)
        ↔ ((¬ AreNone offsets rows) × (4 * (rows + 1) ≤ length offsets) × ((place : ℕ) × (place ≤ rows) × IsBad width offsets values place)) }
{}

/// No byte is left out and none is given twice: the values of all rows, joined, are those of the
/// buffer.
pub fn values_are_joined()
    ensures fixed { (width : ℕ) (bytes : List ℕ) (rows : ℕ) → flat_map (row_part width bytes) (range_with_len 0 rows) ≡ take (rows * width) bytes }
    ensures spans { (width : ℕ) (offsets values : List ℕ) (rows : ℕ) → IsOk (offsets_check width offsets values rows)
        → flat_map (span_at width offsets values) (range_with_len 0 rows) ≡ slice_range values (offset_at offsets 0 * width) (offset_at offsets rows * width) }
{}

/// A column has one cell a row, by the row's index in the buffers.
pub fn cells_are_read_by_row()
    ensures count { (width : Width) (validity offsets values : List ℕ) (rows : ℕ) → length (cells_of width validity offsets values rows) ≡ rows }
    ensures row { (width : Width) (validity offsets values : List ℕ) (rows row : ℕ) → row < rows
        → slice_get (cells_of width validity offsets values rows) row ≡ Some (cell_at width validity offsets values row) }
{}

/// The cells of a column are what the views give for its buffers.
pub fn views_read_the_cells()
    ensures bit { (validity offsets values : List ℕ) (rows row : ℕ) → row < rows → IsOk (bits_of values rows)
        → cell_where (flag_of (record { bytes = validity; rows = rows }) row) (option_map bit_byte (flag_of (record { bytes = values; rows = rows }) row)) ≡ cell_at Bit validity offsets values row }
    ensures fixed { (width : ℕ) (validity offsets values : List ℕ) (rows row : ℕ) → row < rows
        → cell_where (flag_of (record { bytes = validity; rows = rows }) row) (part_of (record { bytes = values; width = width; rows = rows }) row) ≡ cell_at (Fixed width) validity offsets values row }
    ensures var { (validity offsets values : List ℕ) (rows row : ℕ) → row < rows
        → cell_where (flag_of (record { bytes = validity; rows = rows }) row) (row_span (record { offsets = offsets; values = values; rows = rows }) row) ≡ cell_at Var validity offsets values row }
    ensures list { (element : ℕ) (validity offsets values : List ℕ) (rows row : ℕ) → row < rows
        → cell_where (flag_of (record { bytes = validity; rows = rows }) row) (elements_of (record { offsets = offsets; values = values; width = element; rows = rows }) row) ≡ cell_at (width.List element) validity offsets values row }
{}

/// A column of texts is UTF-8 exactly where each cell is, taken by itself.
pub fn texts_are_checked_by_cell()
    ensures { (validity offsets values : List ℕ) (rows : ℕ) → utf8_check (record { offsets = offsets; values = values; rows = rows }) (record { bytes = validity; rows = rows })
        ≡ (if list_all is_text (cells_of Var validity offsets values rows) then Ok tt else Err BadUtf8) }
{}
