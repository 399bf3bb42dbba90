//! Lists of numbers of 64 bits as the bytes of cells: 8 bytes for each number, the lowest first.
ghost use Rattle.std.specs.Prelude.{◌≡◌, ◌<◌, ◌++◌, ◌*◌, ◌%◌, ◌/◌, length, map, min, IfOk, OnOk};
ghost use Rattle.otlp_model.specs.Limits.{count_cap};
ghost use Rattle.byteorder.specs.Endian.{little_bytes};
ghost use Rattle.otlp_model.specs.declared.histograms.Quantile.{Quantile};
ghost use Rattle.otap_cells.specs.declared.profile.Base.TheVariants as base;
ghost use Rattle.otap_cells.specs.Cells.{seen, IsCellOf};
ghost use Rattle.otap_cells.specs.Scalars.{text_cell};
ghost use Rattle.lists.specs.Numbers.{little_numbers};
ghost use Rattle.otap_cells.specs.Columns.{width_of};
ghost use Rattle.otap_cells.specs.Tables.{cell_in};
ghost use Rattle.otap_points.specs.Lists.{bytes_of, list_in};
ghost use Rattle.otap_points.specs.Points.{quantiles_of};

use byteorder::{ByteOrder, LittleEndian};
use otap_cells::{CellView, Rows, bytes_in};
use otlp_model::{CAP, Items, Quantile};
use std::alloc::{AllocError, Global};

/// The bytes of numbers.
pub(crate) fn bytes_of(alloc: Global, numbers: &[u64]) -> Result<Vec<u8>, AllocError>
    ensures { IfOk result (λ bytes. bytes.items ≡ bytes_of numbers.now) }
{
    let mut bytes = Vec::new(alloc);
    'numbers: for number in numbers {
        push_number(&mut bytes, *number)?;
    }
    Ok(bytes)
}

/// The bytes of what quantiles are asked for.
pub(crate) fn quantile_bytes(alloc: Global, quantiles: &[Quantile]) -> Result<Vec<u8>, AllocError>
    ensures { IfOk result (λ bytes. bytes.items ≡ bytes_of (map (λ (q : Quantile). q.quantile) quantiles.now)) }
{
    let mut bytes = Vec::new(alloc);
    'quantiles: for quantile in quantiles {
        push_number(&mut bytes, quantile.quantile)?;
    }
    Ok(bytes)
}

/// The bytes of the values at quantiles.
pub(crate) fn value_bytes(alloc: Global, quantiles: &[Quantile]) -> Result<Vec<u8>, AllocError>
    ensures { IfOk result (λ bytes. bytes.items ≡ bytes_of (map (λ (q : Quantile). q.value) quantiles.now)) }
{
    let mut bytes = Vec::new(alloc);
    'quantiles: for quantile in quantiles {
        push_number(&mut bytes, quantile.value)?;
    }
    Ok(bytes)
}

fn push_number(bytes: &mut Vec<u8>, number: u64) -> Result<(), AllocError>
    ensures { OnOk result (bytes.new.items ≡ bytes.old.items ++ little_bytes 8 number) }
{
    let mut part = [0; 8];
    LittleEndian::write_u64(&mut part, number);
    bytes.extend_from_slice(&part)?;
    Ok(())
}

/// A list by its bytes.
pub(crate) fn list_cell(bytes: &[u8]) -> CellView<'_>
    requires { length bytes.now % 8 ≡ 0 }
    ensures value { seen result ≡ text_cell bytes.now }
    ensures numbers { IsCellOf base.ListU64 (seen result) }
    ensures doubles { IsCellOf base.ListF64 (seen result) }
{
    if bytes.is_empty() {
        return CellView::Null;
    }
    CellView::Bytes(bytes)
}

/// The numbers that bytes hold.
fn numbers_in(alloc: Global, bytes: &[u8]) -> Result<Items<u64>, AllocError>
    ensures { IfOk result (λ numbers. numbers ≡ little_numbers (length bytes.now / 8) bytes.now) }
{
    let mut numbers = Items::new(alloc);
    numbers.reserve(bytes.len() / 8)?;
    'numbers: for place in 0..bytes.len() / 8 {
        numbers.push(LittleEndian::read_u64(&bytes[8 * place..]))?;
    }
    Ok(numbers)
}

/// The quantiles that the bytes of two lists hold, as many as the shorter list has.
pub(crate) fn quantiles_in(
    alloc: Global,
    quantiles: &[u8],
    values: &[u8],
) -> Result<Items<Quantile>, AllocError>
    ensures { IfOk result (λ found. found ≡ quantiles_of (little_numbers (length quantiles.now / 8) quantiles.now) (little_numbers (length values.now / 8) values.now)) }
{
    let count = (quantiles.len() / 8).min(values.len() / 8);
    let mut found = Items::new(alloc);
    found.reserve(count)?;
    'quantiles: for place in 0..count {
        found.push(Quantile {
            quantile: LittleEndian::read_u64(&quantiles[8 * place..]),
            value: LittleEndian::read_u64(&values[8 * place..]),
        })?;
    }
    Ok(found)
}

/// The numbers of a cell.
pub(crate) fn list_at<R: Rows>(
    alloc: Global,
    rows: &R,
    column: u32,
    row: u64,
) -> Result<Items<u64>, AllocError>
    requires column { column < width_of (R.table rows.now).kind }
    requires row { row < length (R.table rows.now).rows }
    ensures { IfOk result (λ numbers. numbers ≡ list_in (cell_in (R.table rows.now).rows column row)) }
{
    let numbers = numbers_in(alloc, bytes_in(rows, column, row))?;
    Ok(numbers)
}

/// How many bytes a list of this many numbers has, or `CAP` where it has more.
pub(crate) fn list_weight(len: usize) -> u64
    ensures { result ≡ min (8 * len) count_cap }
{
    (len as u64).saturating_mul(8).min(CAP)
}

/// What the quantiles of two lists of these lengths weigh, of which there are as many as the shorter one has; or `CAP` where it
/// is more.
pub(crate) fn quantiles_weight(asked: usize, values: usize) -> u64
    ensures { result ≡ min (16 * min asked values) count_cap }
{
    let count = if asked < values { asked } else { values };
    (count as u64).saturating_mul(16).min(CAP)
}
