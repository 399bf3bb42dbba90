//! The bytes that are written for a cell, little-endian (Arrow columnar format, "Fixed-size primitive
//! layout").

ghost use Rattle.std.specs.Prelude.{◌≡◌, ◌+◌, ◌<◌, ◌≤◌, ◌^◌, ℕ, [], ◌∷◌, ◌++◌, Some, length, option_map, true, OnOk};
ghost use Rattle.arrow_buffers.specs.Columns.{HasWidth, cell_len, cells_len};
ghost use Rattle.arrow_buffers.specs.Limits.{max_values};
ghost use Rattle.std.specs.Option.{ForSome, option_copied};
ghost use Rattle.byteorder.specs.Endian.{little_bytes};
ghost use Rattle.otap_cells.specs.Cells.{IsCellOf, IsNumberOf, null, number, seen};
ghost use Rattle.otap_cells.specs.Columns.{width_of};
ghost use Rattle.otap_cells.specs.Tables.{cell_in};
ghost use Rattle.otap_columns.specs.Observed.{bytes_for, id_width, bytes_of_number};
ghost use Rattle.otap_columns.specs.BuiltCells.{FitsForm, id_bits, IsIndexFor, index_size, shown_bytes};
ghost use Rattle.otap_columns.specs.Schemas.{is_dictionary};

use crate::forms::ColumnForm;
use arrow_buffers::ColumnBuilder;
use otap_cells::{Base, CellView, LogicalTable, Rows};
use std::alloc::AllocError;

/// What is written for a cell: nothing where it is null, the bytes of a number, or a part of the table.
#[derive(Clone, Copy, Debug)]
pub(crate) enum CellBytes<'a> {
    Null,
    One([u8; 1]),
    Two([u8; 2]),
    Four([u8; 4]),
    Eight([u8; 8]),
    Part(&'a [u8]),
}

impl CellBytes<'_> {
    pub(crate) fn as_slice(&self) -> Option<&[u8]>
        ensures { option_copied result ≡ shown_bytes self.now }
    {
        match self {
            CellBytes::Null => None,
            CellBytes::One(bytes) => Some(bytes),
            CellBytes::Two(bytes) => Some(bytes),
            CellBytes::Four(bytes) => Some(bytes),
            CellBytes::Eight(bytes) => Some(bytes),
            CellBytes::Part(part) => Some(part),
        }
    }
}

/// The bytes of a cell in a column of a base that has a form.
pub(crate) fn bytes_for(base: Base, form: ColumnForm, cell: CellView<'_>) -> CellBytes<'_>
    requires base { IsCellOf base (seen cell) }
    requires fits { FitsForm base form (seen cell) }
    ensures { shown_bytes result ≡ bytes_for base form (seen cell.entry) }
{
    match cell {
        CellView::Null => CellBytes::Null,
        CellView::Num(number) => bytes_of_number(base, form, number),
        CellView::Bits(bits) => CellBytes::Eight(bits.to_le_bytes()),
        CellView::Flag(flag) => CellBytes::One([u8::from(flag)]),
        CellView::Bytes(part) => CellBytes::Part(part),
    }
}

/// A number of a base that has numbers.
fn bytes_of_number<'a>(base: Base, form: ColumnForm, n: i64) -> CellBytes<'a>
    requires base { IsNumberOf base n }
    requires fits { FitsForm base form (number n) }
    ensures { shown_bytes result ≡ Some (bytes_of_number base form n) }
{
    match base {
        Base::U8 => CellBytes::One([n as u8]),
        Base::U16 => CellBytes::Two((n as u16).to_le_bytes()),
        Base::U32 => CellBytes::Four((n as u32).to_le_bytes()),
        Base::I32 => CellBytes::Four((n as i32).to_le_bytes()),
        Base::I64 => CellBytes::Eight(n.to_le_bytes()),
        Base::Id { .. } => id_bytes(form, n as u32),
        _ => CellBytes::Null,
    }
}

/// An id: 4 bytes where the form is wide, coded or not, else 2.
fn id_bytes<'a>(form: ColumnForm, id: u32) -> CellBytes<'a>
    requires { id < 2 ^ id_bits form }
    ensures { shown_bytes result ≡ Some (little_bytes (id_width form) id) }
{
    match form {
        ColumnForm::Wide | ColumnForm::Coded(_) => CellBytes::Four(id.to_le_bytes()),
        ColumnForm::Absent | ColumnForm::Plain | ColumnForm::Dict8 | ColumnForm::Dict16 => {
            CellBytes::Two((id as u16).to_le_bytes())
        }
    }
}

/// Whether a column is written as a dictionary.
pub(crate) fn is_dictionary(form: ColumnForm) -> bool
    ensures { result ≡ is_dictionary form }
{
    matches!(form, ColumnForm::Dict8 | ColumnForm::Dict16)
}

/// Adds the bytes of a cell to a column.
pub(crate) fn push_value(
    built: &mut ColumnBuilder,
    base: Base,
    form: ColumnForm,
    cell: CellView<'_>,
) -> Result<(), AllocError>
    requires base { IsCellOf base (seen cell) }
    requires fits { FitsForm base form (seen cell) }
    requires width { ForSome (bytes_for base form (seen cell)) (HasWidth built.old.width) }
    requires room { cells_len built.old.cells + cell_len (bytes_for base form (seen cell)) < max_values }
    ensures { OnOk result (built.new ≡ record { width = built.old.width; cells = built.old.cells ++ bytes_for base form (seen cell.entry) ∷ [] }) }
{
    match cell {
        CellView::Null => built.push(None),
        CellView::Num(number) => push_number(built, base, form, number),
        CellView::Bits(bits) => built.push(Some(&bits.to_le_bytes())),
        CellView::Flag(flag) => built.push(Some(&[u8::from(flag)])),
        CellView::Bytes(part) => built.push(Some(part)),
    }
}

fn push_number(
    built: &mut ColumnBuilder,
    base: Base,
    form: ColumnForm,
    n: i64,
) -> Result<(), AllocError>
    requires base { IsNumberOf base n }
    requires fits { FitsForm base form (number n) }
    requires width { HasWidth built.old.width (bytes_of_number base form n) }
    requires room { cells_len built.old.cells + length (bytes_of_number base form n) < max_values }
    ensures { OnOk result (built.new ≡ record { width = built.old.width; cells = built.old.cells ++ Some (bytes_of_number base form n) ∷ [] }) }
{
    match base {
        Base::U8 => built.push(Some(&[n as u8])),
        Base::U16 => built.push(Some(&(n as u16).to_le_bytes())),
        Base::U32 => built.push(Some(&(n as u32).to_le_bytes())),
        Base::I32 => built.push(Some(&(n as i32).to_le_bytes())),
        Base::I64 => built.push(Some(&n.to_le_bytes())),
        Base::Id { .. } => push_id(built, form, n as u32),
        _ => Ok(()),
    }
}

fn push_id(built: &mut ColumnBuilder, form: ColumnForm, id: u32) -> Result<(), AllocError>
    requires fits { id < 2 ^ id_bits form }
    requires width { HasWidth built.old.width (little_bytes (id_width form) id) }
    requires room { cells_len built.old.cells + length (little_bytes (id_width form) id) < max_values }
    ensures { OnOk result (built.new ≡ record { width = built.old.width; cells = built.old.cells ++ Some (little_bytes (id_width form) id) ∷ [] }) }
{
    match form {
        ColumnForm::Wide | ColumnForm::Coded(_) => built.push(Some(&id.to_le_bytes())),
        ColumnForm::Absent | ColumnForm::Plain | ColumnForm::Dict8 | ColumnForm::Dict16 => {
            built.push(Some(&(id as u16).to_le_bytes()))
        }
    }
}

/// Adds the index of a cell to a column; null has none.
pub(crate) fn push_index(
    built: &mut ColumnBuilder,
    form: ColumnForm,
    place: Option<u32>,
) -> Result<(), AllocError>
    requires fits { IsIndexFor form place }
    requires width { ForSome (option_map (little_bytes (index_size form)) place) (HasWidth built.old.width) }
    requires room { cells_len built.old.cells + cell_len (option_map (little_bytes (index_size form)) place) < max_values }
    ensures { OnOk result (built.new ≡ record { width = built.old.width; cells = built.old.cells ++ option_map (little_bytes (index_size form)) place ∷ [] }) }
{
    match place {
        None => built.push(None),
        Some(place) => match form {
            ColumnForm::Dict8 => built.push(Some(&[place as u8])),
            ColumnForm::Absent
            | ColumnForm::Plain
            | ColumnForm::Wide
            | ColumnForm::Coded(_)
            | ColumnForm::Dict16 => { built.push(Some(&(place as u16).to_le_bytes())) }
        },
    }
}

/// How many rows there are up to the last one in which a column was set.
pub(crate) fn set_rows(table: &LogicalTable, column: u32) -> u64
    ensures within { result ≤ length table.now.rows }
    ensures null { (row : ℕ) → result ≤ row → cell_in table.now.rows column row ≡ null }
{
    let reach = table.reach(column);
    let rows = table.rows();
    if reach < rows { reach } else { rows }
}

/// How many of the first `count` rows there are before the first one in which a column was set.
pub(crate) fn unset_rows(table: &LogicalTable, column: u32, count: u64) -> u64
    requires column { column < width_of table.now.kind }
    requires count { count ≤ length table.now.rows }
    ensures within { result ≤ count }
    ensures null { (row : ℕ) → row < result → cell_in table.now.rows column row ≡ null }
{
    'rows: for row in 0..count {
        if !is_null(table.cell(column, row)) {
            return row;
        }
    }
    count
}

/// Whether a cell is null.
pub(crate) fn is_null(cell: CellView<'_>) -> bool
    ensures { result ≡ true → seen cell.entry ≡ null }
{
    matches!(cell, CellView::Null)
}

/// Whether two cells are the same. Takes the time to compare their bytes.
pub(crate) fn is_same(a: CellView<'_>, b: CellView<'_>) -> bool
    ensures { result ≡ true → seen a.entry ≡ seen b.entry }
{
    match (a, b) {
        (CellView::Null, CellView::Null) => true,
        (CellView::Num(a), CellView::Num(b)) => a == b,
        (CellView::Bits(a), CellView::Bits(b)) => a == b,
        (CellView::Flag(a), CellView::Flag(b)) => a == b,
        (CellView::Bytes(a), CellView::Bytes(b)) => a == b,
        _ => false,
    }
}
