//! What the table of a field says of itself.

ghost use Rattle.std.specs.Prelude.{◌≡◌, pos, unsigned_abs, List};
ghost use Rattle.std.specs.Int.{w16, w32, IsNonNegative};
ghost use Rattle.lists.specs.Results.{Gives};
ghost use Rattle.arrow_schema.specs.Slots as slots;
ghost use Rattle.arrow_schema.specs.Reading as reading;

use crate::Name;
use crate::refusal::SchemaRefusal;
use crate::spec::{ArrowType, DictSpec, MAX_FIXED};
use flat_tables::{FlatFault, TableView};
use std::alloc::Global;
use std::str::from_utf8;

/// The bytes of the name of a field; an absent one is empty.
fn name_bytes<'a>(field: &TableView<'a>) -> Result<&'a [u8], FlatFault>
    ensures { Gives (λ bytes. bytes.now) result (slots.name_slot field.now) }
{
    match field.text_at(0)? {
        None => Ok(&[]),
        Some(bytes) => Ok(bytes),
    }
}

/// The name of a field.
#[tactic(auto, unfolding(crate::specs::Reading::name_of))]
pub(crate) fn read_name(alloc: Global, field: &TableView<'_>) -> Result<Name, SchemaRefusal>
    ensures { reading.ReturnsReading (λ name. name) result (reading.name_of field.now) }
{
    match from_utf8(name_bytes(field)?) {
        Ok(text) => Ok(Name::from_str(alloc, text)?),
        Err(_) => Err(SchemaRefusal::BadName),
    }
}

/// A number of the field's type; it has its default where the type's table is absent.
fn type_i16(field: &TableView<'_>, default: i16) -> Result<i16, FlatFault>
    ensures { result ≡ slots.type_slot w16 2 default field.now }
{
    match field.table_at(3)? {
        None => Ok(default),
        Some(table) => table.i16_at(0, default),
    }
}

fn type_i32(field: &TableView<'_>) -> Result<i32, FlatFault>
    ensures { result ≡ slots.type_slot w32 4 (pos 0) field.now }
{
    match field.table_at(3)? {
        None => Ok(0),
        Some(table) => table.i32_at(0, 0),
    }
}

fn type_sign(field: &TableView<'_>) -> Result<bool, FlatFault>
    ensures { result ≡ slots.int_sign field.now }
{
    match field.table_at(3)? {
        None => Ok(false),
        Some(table) => Ok(table.u8_at(1, 0)? != 0),
    }
}

#[tactic(auto, unfolding(crate::specs::Reading::int_type_of))]
fn read_int(field: &TableView<'_>) -> Result<ArrowType, SchemaRefusal>
    ensures { reading.ReturnsReading (λ kind. kind) result (reading.int_type_of field.now) }
{
    let bits = type_i32(field)?;
    let signed = type_sign(field)?;
    match bits {
        8 | 16 | 32 | 64 => Ok(ArrowType::Int {
            bits: bits as u8,
            signed,
        }),
        _ => Err(SchemaRefusal::Unsupported),
    }
}

#[tactic(auto, unfolding(crate::specs::Reading::fixed_type_of))]
fn read_fixed(field: &TableView<'_>) -> Result<ArrowType, SchemaRefusal>
    ensures { reading.ReturnsReading (λ kind. kind) result (reading.fixed_type_of field.now) }
{
    match type_i32(field)? {
        width if width >= 1 && width as u32 <= MAX_FIXED => Ok(ArrowType::Fixed(width as u32)),
        _ => Err(SchemaRefusal::Unsupported),
    }
}

/// The type of a field.
#[tactic(auto, unfolding(crate::specs::Reading::type_of, crate::specs::Reading::type_with, crate::specs::Reading::numbered_type))]
pub(crate) fn read_type(field: &TableView<'_>) -> Result<ArrowType, SchemaRefusal>
    ensures { reading.ReturnsReading (λ kind. kind) result (reading.type_of field.now) }
{
    match field.u8_at(2, 0)? {
        2 => read_int(field),
        3 => read_number(type_i16(field, 0), 2, ArrowType::Double),
        4 => Ok(ArrowType::Binary),
        5 => Ok(ArrowType::Utf8),
        6 => Ok(ArrowType::Bool),
        10 => read_number(type_i16(field, 0), 3, ArrowType::Timestamp),
        12 => Ok(ArrowType::List),
        13 => Ok(ArrowType::Struct),
        15 => read_fixed(field),
        18 => read_number(type_i16(field, 1), 3, ArrowType::Duration),
        _ => Err(SchemaRefusal::Unsupported),
    }
}

/// A type with one number, which is to be this one.
#[tactic(auto, unfolding(crate::specs::Reading::numbered_type))]
fn read_number(
    read: Result<i16, FlatFault>,
    number: i16,
    kind: ArrowType,
) -> Result<ArrowType, SchemaRefusal>
    requires { IsNonNegative number }
    ensures { reading.ReturnsReading (λ kind. kind) result (reading.numbered_type (unsigned_abs number) kind read) }
{
    if read? == number {
        Ok(kind)
    } else {
        Err(SchemaRefusal::Unsupported)
    }
}

/// Whether the indexes of a dictionary have 16 bits, by the table of their type.
#[tactic(auto, unfolding(crate::specs::Reading::is_wide_index))]
fn read_wide(index: &TableView<'_>) -> Result<bool, SchemaRefusal>
    ensures { reading.ReturnsReading (λ wide. wide) result (reading.is_wide_index index.now) }
{
    let bits = index.i32_at(0, 0)?;
    let signed = index.u8_at(1, 0)? != 0;
    match bits {
        8 if !signed => Ok(false),
        16 if !signed => Ok(true),
        _ => Err(SchemaRefusal::Unsupported),
    }
}

#[tactic(auto, unfolding(crate::specs::Reading::dict_of))]
fn read_dict(dictionary: &TableView<'_>) -> Result<DictSpec, SchemaRefusal>
    ensures { reading.ReturnsReading (λ dict. dict) result (reading.dict_of dictionary.now) }
{
    let id = dictionary.i64_at(0, 0)?;
    match dictionary.table_at(1)? {
        None => Err(SchemaRefusal::Unsupported),
        Some(index) => Ok(DictSpec {
            id,
            wide: read_wide(&index)?,
        }),
    }
}

/// The dictionary of a field of this type.
#[tactic(auto, unfolding(crate::specs::Reading::dict_spec_of))]
pub(crate) fn read_dictionary(
    field: &TableView<'_>,
    kind: ArrowType,
) -> Result<Option<DictSpec>, SchemaRefusal>
    ensures { reading.ReturnsReading (λ dict. dict) result (reading.dict_spec_of kind field.now) }
{
    match field.table_at(4)? {
        None => Ok(None),
        Some(_) if !kind.takes_dictionary() => Err(SchemaRefusal::Unsupported),
        Some(dictionary) => Ok(Some(read_dict(&dictionary)?)),
    }
}
