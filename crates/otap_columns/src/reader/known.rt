//! The columns of a kind among the arrays of a schema.

ghost use Rattle.std.specs.Prelude.{◌≡◌, ◌<◌, ◌≤◌, length, map, IfOk, OnOk};
ghost use Rattle.std.specs.List.{range_with_len};
ghost use Rattle.std.specs.Option.{ForSome, option_copied};
ghost use Rattle.arrow_schema.specs.Limits.{max_fields};
ghost use Rattle.arrow_schema.specs.declared.spec.ArrowType.TheVariants.{Int};
ghost use Rattle.otap_cells.specs.Columns.{column_at, described, width_of};
ghost use Rattle.otap_columns.specs.Known.{known_columns, place_in, is_column, elements_at, columns_fit, fits_column, fits_as, fits_encoding, is_allowed, stores, is_list_of, coding_named, coding_if, greatest_of, greatest_if};

use arrow_arrays::{ArraySpec, Arrays};
use arrow_schema::{ArrowType, Encoding};
use otap_cells::{Base, Coding, Column, Kind, column_of, columns};
use std::alloc::{AllocError, Global};

/// Which column each array is, by its path of names.
#[tactic(auto, unfolding(crate::specs::Known::known_columns))]
pub(crate) fn known_columns(
    alloc: Global,
    kind: Kind,
    arrays: &Arrays,
) -> Result<Vec<Option<u32>>, AllocError>
    ensures value { IfOk result (λ known. known.items ≡ known_columns kind arrays.now) }
    ensures few { OnOk result (length arrays.now ≤ max_fields) }
{
    let mut known = Vec::new(alloc);
    'arrays: for place in 0..arrays.len() {
        let path = arrays.path(alloc, place)?;
        known.push(column_of(kind, &path))?;
    }
    Ok(known)
}

/// The index of the array of each column, if it has one.
pub(crate) fn places(
    alloc: Global,
    kind: Kind,
    known: &[Option<u32>],
) -> Result<Vec<Option<usize>>, AllocError>
    ensures { IfOk result (λ places. places.items ≡ map (place_in known.now) (range_with_len 0 (width_of kind))) }
{
    let mut places = Vec::new(alloc);
    'columns: for column in 0..columns(kind).len() {
        places.push(place_in(known, column as u32))?;
    }
    Ok(places)
}

#[tactic(auto, unfolding(crate::specs::Known::place_in))]
fn place_in(known: &[Option<u32>], column: u32) -> Option<usize>
    ensures { result ≡ place_in known.now column }
{
    known.iter().position(|found| is_column(column, *found))
}

fn is_column(column: u32, found: Option<u32>) -> bool
    ensures { result ≡ is_column column found }
{
    match found {
        None => false,
        Some(found) => found == column,
    }
}

/// Whether each known column has a type that stores its base, and an encoding that it allows.
#[tactic(auto, unfolding(crate::specs::Known::columns_fit, crate::specs::Known::known_columns))]
pub(crate) fn columns_fit(kind: Kind, arrays: &Arrays, known: &[Option<u32>]) -> bool
    requires { known.now ≡ known_columns kind arrays.now }
    ensures { result ≡ columns_fit kind arrays.now }
{
    'arrays: for place in 0..arrays.len() {
        if !fits_column(
            kind,
            arrays.get(place),
            elements(arrays, place),
            known[place],
        ) {
            return false;
        }
    }
    true
}

/// The type of the elements of the list whose array is at an index.
fn elements(arrays: &Arrays, place: usize) -> Option<ArrowType>
    requires { place < max_fields }
    ensures { result ≡ elements_at arrays.now place }
{
    match arrays.get(place + 1) {
        None => None,
        Some(array) => Some(array.kind),
    }
}

fn fits_column(
    kind: Kind,
    array: Option<&ArraySpec>,
    elements: Option<ArrowType>,
    column: Option<u32>,
) -> bool
    requires { ForSome column (λ column. column < width_of kind) }
    ensures { result ≡ fits_column kind (option_copied array.entry) elements column }
{
    match array {
        None => true,
        Some(array) => fits_as(kind, array, elements, column),
    }
}

fn fits_as(kind: Kind, array: &ArraySpec, elements: Option<ArrowType>, column: Option<u32>) -> bool
    requires { ForSome column (λ column. column < width_of kind) }
    ensures { result ≡ fits_as kind array.now.kind array.now.encoding elements column }
{
    let Some(column) = column else {
        return true;
    };
    let spec = spec_of(kind, column);
    stores(spec.base, array.kind, elements) && fits_encoding(spec, array.encoding)
}

fn spec_of(kind: Kind, column: u32) -> &'static Column
    requires { column < width_of kind }
    ensures { described result.now ≡ column_at kind column }
{
    &columns(kind)[column as usize]
}

fn fits_encoding(column: &Column, encoding: Encoding) -> bool
    ensures { result ≡ fits_encoding (described column.now) encoding }
{
    !column.base.is_id() || is_allowed(column, encoding)
}

fn is_allowed(column: &Column, encoding: Encoding) -> bool
    ensures { result ≡ is_allowed (described column.now) encoding }
{
    match encoding {
        Encoding::None => true,
        Encoding::Plain => column.allows(Coding::Plain),
        Encoding::Delta => column.allows(Coding::Delta),
        Encoding::Run => column.allows(Coding::Run),
        Encoding::Other => false,
    }
}

/// Whether a type stores the values of a base; `elements` is that of a list's elements.
fn stores(base: Base, kind: ArrowType, elements: Option<ArrowType>) -> bool
    ensures { result ≡ stores base kind elements }
{
    match base {
        Base::U8 => int(8, false) == kind,
        Base::U16 => int(16, false) == kind,
        Base::U32 => int(32, false) == kind,
        Base::U64 => int(64, false) == kind,
        Base::I32 => int(32, true) == kind,
        Base::I64 => int(64, true) == kind,
        Base::Double => ArrowType::Double == kind,
        Base::Bool => ArrowType::Bool == kind,
        Base::Utf8 => ArrowType::Utf8 == kind,
        Base::Binary => ArrowType::Binary == kind,
        Base::Fixed16 => ArrowType::Fixed(16) == kind,
        Base::Fixed8 => ArrowType::Fixed(8) == kind,
        Base::Timestamp => ArrowType::Timestamp == kind,
        Base::Duration => ArrowType::Duration == kind,
        Base::ListU64 => is_list_of(int(64, false), kind, elements),
        Base::ListF64 => is_list_of(ArrowType::Double, kind, elements),
        Base::Id { .. } => int(16, false) == kind || int(32, false) == kind,
    }
}

fn int(bits: u8, signed: bool) -> ArrowType
    ensures { result ≡ Int bits signed }
{
    ArrowType::Int { bits, signed }
}

fn is_list_of(element: ArrowType, kind: ArrowType, elements: Option<ArrowType>) -> bool
    ensures { result ≡ is_list_of element kind elements }
{
    match elements {
        None => false,
        Some(own) => ArrowType::List == kind && element == own,
    }
}

/// How the ids of this array's column are stored, where the profile stores them so.
pub(crate) fn coding_if(own: Coding, array: Option<&ArraySpec>) -> Coding
    ensures { result ≡ coding_if own (option_copied array.entry) }
{
    match array {
        None => own,
        Some(array) => coding_named(array.encoding, own),
    }
}

fn coding_named(encoding: Encoding, own: Coding) -> Coding
    ensures { result ≡ coding_named encoding own }
{
    match encoding {
        Encoding::None | Encoding::Other => own,
        Encoding::Plain => Coding::Plain,
        Encoding::Delta => Coding::Delta,
        Encoding::Run => Coding::Run,
    }
}

/// The greatest number that this array may hold as an id.
pub(crate) fn greatest_if(array: Option<&ArraySpec>) -> u32
    ensures { result ≡ greatest_if (option_copied array.entry) }
{
    match array {
        None => u32::MAX,
        Some(array) => greatest_of(array.kind),
    }
}

fn greatest_of(kind: ArrowType) -> u32
    ensures { result ≡ greatest_of kind }
{
    match kind {
        ArrowType::Int { bits: 16, .. } => u32::from(u16::MAX),
        _ => u32::MAX,
    }
}
