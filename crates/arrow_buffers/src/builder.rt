ghost use Rattle.std.specs.Prelude.{◌≡◌, ◌+◌, ◌-◌, ◌*◌, ◌^◌, ◌<◌, min, [], ◌∷◌, ◌++◌, length, replicate, count_by, is_none, None, pos, Ok, IfOk, OnOk, OnErr};
ghost use Rattle.std.specs.Option.{ForSome, option_copied};
ghost use Rattle.arrow_buffers.specs.Bits.{validity_of};
ghost use Rattle.arrow_buffers.specs.Limits.{max_rows, max_values};
ghost use Rattle.arrow_buffers.specs.Columns.{HasElementSize, HasWidth, HasNoFault, HoldsParts, cell_len, cells_len, cells_of, ended_offsets, validity_len, offsets_len, values_len};
ghost use Rattle.arrow_buffers.specs.Building.{HasValueForEach, OffsetsFit, PushesNulls, PushesValue, is_one, sized_len};

use crate::Width;
use crate::flags::{push_flag, push_null_flags, reserve_flag};
use crate::nulls::{push_null_parts, push_null_spans};
use crate::packing::{
    LEAST_ROOM, push_bit, push_offset, push_part, push_span, push_zeros, reserve_bit,
};
use std::alloc::{AllocError, Global};
use std::marker::Model;

/// A column has less than this number of rows: Arrow counts them in signed numbers of 64 bits.
pub(crate) const MAX_ROWS: u64 = 1 << 63;

/// The buffers of a column, and what its node says of them.
#[derive(Debug, Drop)]
pub struct Buffers {
    pub rows: u64,
    pub nulls: u64,
    pub validity: Vec<u8>,
    pub offsets: Vec<u8>,
    pub values: Vec<u8>,
}

/// A column that grows cell by cell.
#[derive(Debug, Drop)]
pub struct ColumnBuilder {
    width: Width,
    rows: u64,
    nulls: u64,
    /// Without bytes until the first null.
    validity: Vec<u8>,
    /// Where each value begins. The end of the last is only known when the column ends.
    offsets: Vec<u8>,
    values: Vec<u8>,
}

impl Model for ColumnBuilder {
    ghost use Rattle.arrow_buffers.specs.Columns.{ColumnIn, cells_so_far};
    ghost use Rattle.arrow_buffers.specs.Building.{IsBuilt};

    ghost Value = { ColumnIn };

    ghost view = { λ b. record { width = b.width; cells = cells_so_far b.width b.validity.items b.offsets.items b.values.items b.rows } };

    ghost invariant = { λ b. IsBuilt b.width b.rows b.nulls b.validity.items b.offsets.items b.values.items };
}

impl ColumnBuilder {
    /// A column without cells.
    #[tactic(auto, unfolding(crate::specs::Columns::cells_of))]
    pub fn new(alloc: Global, width: Width) -> ColumnBuilder
        requires { HasElementSize width }
        ensures { result ≡ record { width = width; cells = [] } }
    {
        ColumnBuilder {
            width,
            rows: 0,
            nulls: 0,
            validity: Vec::new(alloc),
            offsets: Vec::new(alloc),
            values: Vec::new(alloc),
        }
    }

    /// A column without cells, with room for the values of some rows, or for their offsets where the
    /// values differ in length: these are not moved until there are more cells.
    #[tactic(auto, unfolding(crate::specs::Columns::cells_of))]
    pub fn for_rows(alloc: Global, width: Width, rows: usize) -> Result<ColumnBuilder, AllocError>
        requires { HasElementSize width }
        ensures { IfOk result (λ c. c ≡ record { width = width; cells = [] }) }
    {
        let offsets = Vec::with_capacity(alloc, offsets_room(width, rows))?;
        let values = Vec::with_capacity(alloc, LEAST_ROOM.max(values_room(width, rows)))?;
        Ok(ColumnBuilder {
            width,
            rows: 0,
            nulls: 0,
            validity: Vec::new(alloc),
            offsets,
            values,
        })
    }

    /// A column of values of one width, none of which is null, whose bytes come one after the other. They are moved, not
    /// copied. Out of memory is also returned for rows that Arrow could not count.
    pub fn full(
        alloc: Global,
        width: u32,
        rows: u64,
        values: Vec<u8>,
    ) -> Result<ColumnBuilder, AllocError>
        requires { length values.items ≡ rows * width }
        ensures { IfOk result (HoldsParts width rows values.items) }
    {
        if rows >= MAX_ROWS {
            return Err(AllocError);
        }
        Ok(ColumnBuilder {
            width: Width::Fixed(width),
            rows,
            nulls: 0,
            validity: Vec::new(alloc),
            offsets: Vec::new(alloc),
            values,
        })
    }

    /// Adds a cell after the others; `None` is null. The cell has the column's width, and the
    /// values of all cells stay below 2^31 bytes together. Takes amortised constant time for each
    /// byte of the cell. Out of memory is also returned for a row that Arrow could not count; after
    /// it the column is as before.
    #[inline(always)]
    pub fn push(&mut self, cell: Option<&[u8]>) -> Result<(), AllocError>
        requires width { ForSome (option_copied cell) (HasWidth self.old.width) }
        requires room { cells_len self.old.cells + cell_len (option_copied cell) < max_values }
        ensures ok { OnOk result (self.new ≡ record { width = self.old.width; cells = self.old.cells ++ option_copied cell.entry ∷ [] }) }
        ensures err { OnErr result (self.new ≡ self.old) }
    {
        if self.rows + 1 == MAX_ROWS {
            return Err(AllocError);
        }
        let valid = cell.is_some();
        reserve_flag(&mut self.validity, self.nulls, self.rows, valid)?;
        push_value(
            self.width,
            self.rows,
            cell,
            &mut self.offsets,
            &mut self.values,
        )?;
        push_flag(&mut self.validity, self.nulls, self.rows, valid);
        self.rows += 1;
        self.nulls += u64::from(cell.is_none());
        Ok(())
    }

    /// Adds some nulls after the other cells. Takes amortised constant time for each byte that the
    /// buffers grow by. Out of memory is also returned for rows that Arrow could not count; after
    /// it the column is as before.
    pub fn push_nulls(&mut self, count: u64) -> Result<(), AllocError>
        ensures ok { OnOk result (self.new ≡ record { width = self.old.width; cells = self.old.cells ++ replicate count None }) }
        ensures err { OnErr result (self.new ≡ self.old) }
    {
        if count >= MAX_ROWS - self.rows {
            return Err(AllocError);
        }
        if count == 0 {
            return Ok(());
        }
        reserve_bit(&mut self.validity, self.rows + count)?;
        push_null_values(
            self.width,
            self.rows,
            count,
            &mut self.offsets,
            &mut self.values,
        )?;
        push_null_flags(&mut self.validity, self.nulls, self.rows, count);
        self.rows += count;
        self.nulls += count;
        Ok(())
    }

    /// The buffers of the column. Where no cell is null the bitmap is left out; without rows there
    /// still is one offset. What is stored for a null among the values is left open.
    pub fn finish(self) -> Result<Buffers, AllocError>
        ensures rows { IfOk result (λ b. b.rows ≡ length self.cells) }
        ensures few { IfOk result (λ b. b.rows < max_rows) }
        ensures nulls { IfOk result (λ b. b.nulls ≡ count_by is_none self.cells) }

        // They read as the cells, and have no fault.
        ensures reads { IfOk result (λ b. cells_of self.width b.validity.items b.offsets.items b.values.items b.rows ≡ self.cells) }
        ensures bitmap { IfOk result (λ b. validity_of b.validity.items b.rows (pos b.nulls) ≡ Ok (record { bytes = b.validity.items; rows = b.rows })) }
        ensures no_fault { IfOk result (λ b. HasNoFault self.width b.offsets.items b.values.items b.rows) }

        ensures validity_len { IfOk result (λ b. length b.validity.items ≡ validity_len b.nulls b.rows) }
        ensures offsets_len { IfOk result (λ b. length b.offsets.items ≡ offsets_len self.width b.rows) }
        ensures values_len { IfOk result (λ b. length b.values.items ≡ values_len self.width self.cells) }
    {
        let ColumnBuilder {
            width,
            rows,
            nulls,
            validity,
            offsets,
            values,
        } = self;
        let offsets = end_offsets(width, offsets, values.as_slice())?;
        Ok(Buffers {
            rows,
            nulls,
            validity,
            offsets,
            values,
        })
    }
}

/// How many bytes the offsets of some rows have, as far as that can be counted.
fn offsets_room(width: Width, rows: usize) -> usize
    ensures { result ≡ min (offsets_len width rows) (2 ^ 64 - 1) }
{
    match width {
        Width::Bit | Width::Fixed(_) => 0,
        Width::Var | Width::List(_) => rows.saturating_add(1).saturating_mul(4),
    }
}

/// How many bytes the values of some rows have, where that doesn't depend on the values.
fn values_room(width: Width, rows: usize) -> usize
    ensures { result ≡ min (sized_len width rows) (2 ^ 64 - 1) }
{
    match width {
        Width::Bit => rows.div_ceil(8),
        Width::Fixed(width) => rows.saturating_mul(width as usize),
        Width::Var | Width::List(_) => 0,
    }
}

/// Puts a value after those of the first `rows`.
#[inline(always)]
fn push_value(
    width: Width,
    rows: u64,
    cell: Option<&[u8]>,
    offsets: &mut Vec<u8>,
    values: &mut Vec<u8>,
) -> Result<(), AllocError>
    requires stored { HasValueForEach width rows offsets.old.items values.old.items }
    requires width { ForSome (option_copied cell) (HasWidth width) }
    requires room { OffsetsFit width (length values.old.items + cell_len (option_copied cell)) }
    ensures ok { OnOk result (PushesValue width rows (option_copied cell.entry) offsets.old.items values.old.items offsets.new.items values.new.items) }
    ensures err { OnErr result ((offsets.new.items ≡ offsets.old.items) × (values.new.items ≡ values.old.items)) }
{
    match width {
        Width::Bit => {
            reserve_bit(values, rows)?;
            push_bit(values, rows, is_one(cell));
            Ok(())
        }
        Width::Fixed(width) => push_part(values, width, cell),
        Width::Var => push_span(offsets, values, 1, cell),
        Width::List(element) => push_span(offsets, values, element, cell),
    }
}

/// Puts the stored values of nulls after those of the first `rows`.
fn push_null_values(
    width: Width,
    rows: u64,
    count: u64,
    offsets: &mut Vec<u8>,
    values: &mut Vec<u8>,
) -> Result<(), AllocError>
    requires stored { HasValueForEach width rows offsets.old.items values.old.items }
    requires few { rows + count < max_rows }
    ensures ok { OnOk result (PushesNulls width rows count offsets.old.items values.old.items offsets.new.items values.new.items) }
    ensures err { OnErr result ((offsets.new.items ≡ offsets.old.items) × (values.new.items ≡ values.old.items)) }
{
    match width {
        Width::Bit => push_zeros(values, rows, rows + count),
        Width::Fixed(width) => push_null_parts(values, width, count),
        Width::Var => push_null_spans(offsets, values.as_slice(), 1, count),
        Width::List(element) => push_null_spans(offsets, values.as_slice(), element, count),
    }
}

/// Whether a value is the bit 1.
fn is_one(cell: Option<&[u8]>) -> bool
    ensures { result ≡ is_one (option_copied cell.entry) }
{
    match cell {
        Some([bit, ..]) => *bit == 1,
        _ => false,
    }
}

/// The offsets with the last one after them, where there are offsets.
fn end_offsets(width: Width, mut offsets: Vec<u8>, values: &[u8]) -> Result<Vec<u8>, AllocError>
    requires { OffsetsFit width (length values.now) }
    ensures { IfOk result (λ v. v.items ≡ ended_offsets width offsets.items values.now) }
{
    match width {
        Width::Bit | Width::Fixed(_) => Ok(offsets),
        Width::Var => {
            push_offset(&mut offsets, 1, values.len())?;
            Ok(offsets)
        }
        Width::List(element) => {
            push_offset(&mut offsets, element, values.len())?;
            Ok(offsets)
        }
    }
}
