//! A column of a record batch that is found once, so that each of its cells is a test of bits and a
//! slice.

ghost use Rattle.std.specs.Prelude.{◌≡◌, ℕ, ◌+◌, ◌*◌, ◌<◌, ◌≤◌, true, length, slice_index, None};
ghost use Rattle.std.specs.Option.{option_copied, ForSome};
ghost use Rattle.arrow_buffers.specs.Bits.{is_valid};
ghost use Rattle.arrow_buffers.specs.Columns.{bit_byte};
ghost use Rattle.arrow_buffers.specs.Offsets.{offset_at};
ghost use Rattle.arrow_arrays.specs.Views.{part_between, span_between, value_seen, has_no_bitmap, is_valid_in, cell_seen, number_in, IsIndexSize, HoldsBelow};
ghost use Rattle.arrow_arrays.specs.Found.{IsBelow, IsEmpty};

use byteorder::{ByteOrder, LittleEndian};

/// The bytes that hold the values of a column.
#[derive(Clone, Copy, Debug)]
pub(crate) enum Stored<'a> {
    Bits(&'a [u8]),
    /// Values of one width, which is 0 where no row has bytes.
    Fixed(&'a [u8], u32),
    /// Offsets, and the elements that they count, of one width.
    Spans(&'a [u8], &'a [u8], u32),
}

/// A column of a record batch: the bytes of its array, and the bitmaps of the structs above it. It
/// is found once, and then each cell takes constant time.
#[derive(Clone, Copy, Debug)]
pub struct ColumnView<'a> {
    pub(crate) rows: u64,
    /// The bitmap of its own array, and those of the structs above. Where each row is valid there
    /// are no bytes.
    pub(crate) own: &'a [u8],
    pub(crate) above: &'a [u8],
    pub(crate) top: &'a [u8],
    pub(crate) stored: Stored<'a>,
}

impl<'a> ColumnView<'a> {
    /// A column without cells: each row is null.
    pub fn none() -> ColumnView<'a>
        ensures { (row : ℕ) → cell_seen result row ≡ None }
    {
        ColumnView::empty()
    }

    pub(crate) fn empty() -> ColumnView<'a>
        ensures cells { (row : ℕ) → cell_seen result row ≡ None }
        ensures empty { IsEmpty result }
    {
        ColumnView {
            rows: 0,
            own: &[],
            above: &[],
            top: &[],
            stored: Stored::Fixed(&[], 0),
        }
    }

    /// The bytes of a row's cell; `None` where it is null, or there is no such row. A bit is one
    /// byte, 0 or 1; a struct has no bytes; a list has those of its elements.
    #[inline(always)]
    pub fn cell(&self, row: u64) -> Option<&'a [u8]>
        ensures { option_copied result ≡ cell_seen self.now row }
    {
        self.cell_if(row, false)
    }

    /// Whether no bitmap has bytes: each row is valid then.
    pub fn is_whole(&self) -> bool
        ensures { result ≡ has_no_bitmap self.now }
    {
        self.own.is_empty() && self.above.is_empty() && self.top.is_empty()
    }

    /// Whether it has no cells, as a column that is missing.
    pub fn has_no_rows(&self) -> bool
        ensures { result ≡ true → (row : ℕ) → cell_seen self.now row ≡ None }
    {
        self.rows == 0
    }

    /// Whether it is known that each cell holds a number below another: where all cells are of one byte, and those of null rows
    /// are below it too. `false` says nothing of the cells.
    pub fn is_below(&self, count: usize) -> bool
        ensures { result ≡ true → (row : ℕ) → HoldsBelow count (cell_seen self.now row) }
    {
        match self.stored {
            Stored::Fixed(bytes, 1) => are_below(bytes, count),
            _ => false,
        }
    }

    /// The bytes of a row's cell, as `cell` returns them. Where the column is known to be whole no
    /// bitmap is looked at.
    #[inline(always)]
    #[tactic(auto, unfolding(crate::specs::Views::cell_seen, crate::specs::Views::is_there))]
    pub fn cell_if(&self, row: u64, whole: bool) -> Option<&'a [u8]>
        requires { whole ≡ true → has_no_bitmap self.now ≡ true }
        ensures { option_copied result ≡ cell_seen self.now row }
    {
        if row >= self.rows {
            return None;
        }
        if !whole && !self.is_valid(row) {
            return None;
        }
        self.stored.value(row)
    }

    /// The number that a row's cell of one byte or two holds, low byte first; `None` where it is null, or there is no such row.
    /// Bitmaps are looked at as by `cell_if`.
    #[inline(always)]
    #[tactic(auto, unfolding(crate::specs::Views::cell_seen, crate::specs::Views::is_there))]
    pub fn index_if(&self, row: u64, whole: bool) -> Option<usize>
        requires whole { whole ≡ true → has_no_bitmap self.now ≡ true }
        requires size { ForSome (cell_seen self.now row) IsIndexSize }
        ensures { result ≡ number_in (cell_seen self.now row) }
    {
        if row >= self.rows {
            return None;
        }
        if !whole && !self.is_valid(row) {
            return None;
        }
        self.stored.index(row)
    }

    /// The same column below a struct, whose rows that are null are null in it.
    pub(crate) fn below(self, above: ColumnView<'a>) -> ColumnView<'a>
        ensures { IsBelow above.entry self.entry result }
    {
        ColumnView {
            rows: self.rows.min(above.rows),
            own: self.own,
            above: above.own,
            top: above.above,
            stored: self.stored,
        }
    }

    #[inline(always)]
    fn is_valid(&self, row: u64) -> bool
        ensures { result ≡ is_valid_in self.now row }
    {
        has(self.own, row) && has(self.above, row) && has(self.top, row)
    }
}

impl<'a> Stored<'a> {
    #[inline(always)]
    #[tactic(auto, unfolding(crate::specs::Views::value_seen))]
    fn index(&self, row: u64) -> Option<usize>
        requires { ForSome (value_seen self.now row) IsIndexSize }
        ensures { result ≡ number_in (value_seen self.now row) }
    {
        match *self {
            Stored::Fixed(bytes, 1) => byte_at(bytes, row),
            Stored::Fixed(bytes, 2) => pair_at(bytes, row),
            _ => number_in(self.value(row)),
        }
    }

    #[inline(always)]
    #[tactic(auto, unfolding(crate::specs::Views::value_seen))]
    fn value(&self, row: u64) -> Option<&'a [u8]>
        ensures { option_copied result ≡ value_seen self.now row }
    {
        match *self {
            Stored::Bits(bytes) => Some(bit_byte(has(bytes, row))),
            Stored::Fixed(bytes, width) => part(bytes, row, width),
            Stored::Spans(offsets, values, width) => span(offsets, values, width, row),
        }
    }
}

#[inline(always)]
fn byte_at(bytes: &[u8], row: u64) -> Option<usize>
    ensures { result ≡ number_in (part_between bytes.now (row * 1) ((row + 1) * 1)) }
{
    if row >= bytes.len() as u64 {
        return None;
    }
    Some(usize::from(bytes[row as usize]))
}

#[inline(always)]
fn pair_at(bytes: &[u8], row: u64) -> Option<usize>
    ensures { result ≡ number_in (part_between bytes.now (row * 2) ((row + 1) * 2)) }
{
    if row >= (bytes.len() / 2) as u64 {
        return None;
    }
    Some(usize::from(LittleEndian::read_u16(&bytes[2 * row as usize..])))
}

/// The number that one byte or two hold.
fn number_in(cell: Option<&[u8]>) -> Option<usize>
    requires { ForSome (option_copied cell) IsIndexSize }
    ensures { result ≡ number_in (option_copied cell.entry) }
{
    let cell = cell?;
    if cell.len() == 2 {
        return Some(usize::from(LittleEndian::read_u16(cell)));
    }
    Some(usize::from(cell[0]))
}

/// Whether each byte is below a number. All are looked at, so that many are compared at once.
fn are_below(bytes: &[u8], count: usize) -> bool
    ensures { result ≡ true → (k : ℕ) → k < length bytes.now → slice_index bytes.now k < count }
{
    let mut greatest = 0_u8;
    'bytes: for byte in bytes {
        greatest = greatest.max(*byte);
    }
    usize::from(greatest) < count
}

/// Whether a row is valid in a bitmap. In one without bytes each row is.
#[inline(always)]
#[tactic(auto, unfolding(arrow_buffers::specs::Bits::bit_at))]
fn has(bytes: &[u8], row: u64) -> bool
    ensures { result ≡ is_valid bytes.now row }
{
    if bytes.is_empty() {
        return true;
    }
    let place = row / 8;
    if place >= bytes.len() as u64 {
        return false;
    }
    (bytes[place as usize] >> (row % 8)) & 1 == 1
}

fn bit_byte(bit: bool) -> &'static [u8]
    ensures { result.now ≡ bit_byte bit }
{
    if bit { &[1] } else { &[0] }
}

/// The value of a row, where all have one width.
#[inline(always)]
fn part(bytes: &[u8], row: u64, width: u32) -> Option<&[u8]>
    ensures { option_copied result ≡ part_between bytes.now (row * width) ((row + 1) * width) }
{
    let start = u128::from(row) * u128::from(width);
    let end = start + u128::from(width);
    if end > bytes.len() as u128 {
        return None;
    }
    Some(&bytes[start as usize..end as usize])
}

/// The elements from a row's offset to the next one.
#[inline(always)]
fn span<'a>(offsets: &[u8], values: &'a [u8], width: u32, row: u64) -> Option<&'a [u8]>
    ensures { option_copied result ≡ span_between offsets.now values.now width row }
{
    if u128::from(row) * 4 + 8 > offsets.len() as u128 {
        return None;
    }
    let row = row as usize;
    let start = u64::from(offset_at(offsets, row)) * u64::from(width);
    let end = u64::from(offset_at(offsets, row + 1)) * u64::from(width);
    between(values, start, end)
}

/// The offset at an index.
#[inline(always)]
#[tactic(auto, unfolding(arrow_buffers::specs::Offsets::offset_at))]
fn offset_at(offsets: &[u8], place: usize) -> u32
    requires { 4 * (place + 1) ≤ length offsets.now }
    ensures { result ≡ offset_at offsets.now place }
{
    LittleEndian::read_u32(&offsets[4 * place..])
}

#[inline(always)]
fn between(bytes: &[u8], start: u64, end: u64) -> Option<&[u8]>
    ensures { option_copied result ≡ part_between bytes.now start end }
{
    if start > end || end > bytes.len() as u64 {
        return None;
    }
    Some(&bytes[start as usize..end as usize])
}
