//! An array of a batch, with its faults.

ghost use Rattle.std.specs.Prelude.{◌≡◌, ◌+◌, ◌^◌, ◌<◌};
ghost use Rattle.arrow_arrays.specs.Cells.{length_in, rows_in, nulls_in, buffer_in, validity_in, bit_values, fixed_in, vars_in, elements_in, element_bytes, lists_in, values_in, array_in, content_check};
ghost use Rattle.lists.specs.Results.{Gives};

use crate::layout::{ELEMENT_LEN, Layout};
use crate::place::ArrayPlace;
use arrow_buffers::{Bits, BufferFault, Fixed, Lists, Vars};
use arrow_ipc::BatchView;

/// The values of an array, by its layout.
#[derive(Debug, Drop)]
pub(crate) enum RowValues<'a> {
    /// No bytes for any row.
    Nothing,
    Bits(Bits<'a>),
    Fixed(Fixed<'a>),
    Vars(Vars<'a>),
    /// Lists, and which of their elements are valid.
    Lists(Lists<'a>, Bits<'a>),
}

/// An array: which rows are valid, and their values.
#[derive(Debug, Drop)]
pub(crate) struct ArrayView<'a> {
    pub(crate) valid: Bits<'a>,
    pub(crate) values: RowValues<'a>,
}

/// The array at a place of a batch, or its first fault.
#[tactic(auto, unfolding(crate::specs::Cells::array_in))]
pub(crate) fn array_in<'a>(
    batch: &BatchView<'a>,
    place: ArrayPlace,
) -> Result<ArrayView<'a>, BufferFault>
    ensures { result ≡ array_in batch.now place }
{
    let rows = rows_in(batch, place)?;
    let valid = validity_in(batch, rows, u32::from(place.node), u32::from(place.buffer))?;
    let values = values_in(batch, rows, place)?;
    Ok(ArrayView { valid, values })
}

/// How many rows an array has.
#[tactic(auto, unfolding(crate::specs::Cells::rows_in))]
pub(crate) fn rows_in(batch: &BatchView<'_>, place: ArrayPlace) -> Result<u64, BufferFault>
    ensures { result ≡ rows_in batch.now place }
{
    if place.element {
        return length_in(batch, u32::from(place.node));
    }
    Ok(batch.rows())
}

/// The length of the node at an index, which isn't negative.
#[tactic(auto, unfolding(crate::specs::Cells::length_in))]
fn length_in(batch: &BatchView<'_>, place: u32) -> Result<u64, BufferFault>
    ensures { result ≡ length_in batch.now place }
{
    let (rows, _) = batch.node(place).ok_or(BufferFault::Short)?;
    match u64::try_from(rows) {
        Ok(rows) => Ok(rows),
        Err(_) => Err(BufferFault::Short),
    }
}

/// The null count of the node at an index, which counts the rows.
#[tactic(auto, unfolding(crate::specs::Cells::nulls_in))]
fn nulls_in(batch: &BatchView<'_>, rows: u64, place: u32) -> Result<i64, BufferFault>
    ensures { result ≡ nulls_in batch.now rows place }
{
    let (length, nulls) = batch.node(place).ok_or(BufferFault::Short)?;
    match u64::try_from(length) {
        Ok(length) if length == rows => Ok(nulls),
        _ => Err(BufferFault::Short),
    }
}

/// The buffer at an index.
pub(crate) fn buffer_in<'a>(batch: &BatchView<'a>, place: u32) -> Result<&'a [u8], BufferFault>
    ensures { Gives (λ bytes. bytes.now) result (buffer_in batch.now place) }
{
    batch.buffer(place).ok_or(BufferFault::Short)
}

#[tactic(auto, unfolding(crate::specs::Cells::validity_in))]
fn validity_in<'a>(
    batch: &BatchView<'a>,
    rows: u64,
    node: u32,
    buffer: u32,
) -> Result<Bits<'a>, BufferFault>
    ensures { result ≡ validity_in batch.now rows node buffer }
{
    let nulls = nulls_in(batch, rows, node)?;
    let bytes = buffer_in(batch, buffer)?;
    Bits::validity(bytes, rows, nulls)
}

#[tactic(auto, unfolding(crate::specs::Cells::bit_values))]
fn bits_in<'a>(batch: &BatchView<'a>, rows: u64, place: u32) -> Result<RowValues<'a>, BufferFault>
    ensures { result ≡ bit_values batch.now rows place }
{
    let bytes = buffer_in(batch, place)?;
    Ok(RowValues::Bits(Bits::values(bytes, rows)?))
}

/// Values of no bytes need none.
#[tactic(auto, unfolding(crate::specs::Cells::fixed_in))]
fn fixed_in<'a>(
    batch: &BatchView<'a>,
    rows: u64,
    place: u32,
    width: u32,
) -> Result<RowValues<'a>, BufferFault>
    ensures { result ≡ fixed_in batch.now rows place width }
{
    let bytes = buffer_in(batch, place)?;
    if width == 0 {
        return Ok(RowValues::Nothing);
    }
    Ok(RowValues::Fixed(Fixed::new(bytes, width, rows)?))
}

/// The buffer at the index holds the offsets, and the next one the values.
#[tactic(auto, unfolding(crate::specs::Cells::vars_in))]
fn vars_in<'a>(batch: &BatchView<'a>, rows: u64, place: u32) -> Result<RowValues<'a>, BufferFault>
    requires { place + 1 < 2 ^ 32 }
    ensures { result ≡ vars_in batch.now rows place }
{
    let offsets = buffer_in(batch, place)?;
    let values = buffer_in(batch, place + 1)?;
    Ok(RowValues::Vars(Vars::new(offsets, values, rows)?))
}

/// The bytes of the elements: `Short` where there are fewer.
pub(crate) fn elements<'a>(bytes: &'a [u8], count: u64) -> Result<&'a [u8], BufferFault>
    ensures { Gives (λ bytes. bytes.now) result (element_bytes bytes.now count) }
{
    if (bytes.len() as u128) < u128::from(count) * u128::from(ELEMENT_LEN) {
        return Err(BufferFault::Short);
    }
    Ok(&bytes[..count as usize * ELEMENT_LEN as usize])
}

/// The elements of lists, by the node and the first buffer of their array.
#[tactic(auto, unfolding(crate::specs::Cells::elements_in))]
fn elements_in<'a>(
    batch: &BatchView<'a>,
    node: u32,
    buffer: u32,
) -> Result<(&'a [u8], Bits<'a>), BufferFault>
    requires { buffer + 1 < 2 ^ 32 }
    ensures { Gives (λ elements. (elements.0.now, elements.1)) result (elements_in batch.now node buffer) }
{
    let count = length_in(batch, node)?;
    let there = validity_in(batch, count, node, buffer)?;
    let bytes = elements(buffer_in(batch, buffer + 1)?, count)?;
    Ok((bytes, there))
}

#[tactic(auto, unfolding(crate::specs::Cells::lists_in))]
fn lists_in<'a>(
    batch: &BatchView<'a>,
    rows: u64,
    place: ArrayPlace,
) -> Result<RowValues<'a>, BufferFault>
    ensures { result ≡ lists_in batch.now rows place }
{
    let first = u32::from(place.buffer) + 1;
    let offsets = buffer_in(batch, first)?;
    let (values, there) = elements_in(batch, u32::from(place.node) + 1, first + 1)?;
    let lists = Lists::new(offsets, values, ELEMENT_LEN, rows)?;
    Ok(RowValues::Lists(lists, there))
}

/// The values come after the validity bitmap.
#[tactic(auto, unfolding(crate::specs::Cells::values_in))]
fn values_in<'a>(
    batch: &BatchView<'a>,
    rows: u64,
    place: ArrayPlace,
) -> Result<RowValues<'a>, BufferFault>
    ensures { result ≡ values_in batch.now rows place }
{
    let first = u32::from(place.buffer) + 1;
    match place.layout {
        Layout::Struct => Ok(RowValues::Nothing),
        Layout::Bits => bits_in(batch, rows, first),
        Layout::Fixed(width) => fixed_in(batch, rows, first, width),
        Layout::Binary | Layout::Text => vars_in(batch, rows, first),
        Layout::List => lists_in(batch, rows, place),
    }
}

impl<'a> ArrayView<'a> {
    /// `BadUtf8` where the array holds texts, and one that isn't null is none; `BadNulls` where it
    /// holds lists, and one that isn't null has an element that is.
    pub(crate) fn check_content(&self, layout: Layout) -> Result<(), BufferFault>
        ensures { result ≡ content_check layout self.now }
    {
        match (layout, &self.values) {
            (Layout::Text, RowValues::Vars(texts)) => texts.check_utf8(&self.valid),
            (Layout::List, RowValues::Lists(lists, there)) => lists.check_nulls(&self.valid, there),
            _ => Ok(()),
        }
    }
}
