ghost use Rattle.std.specs.Prelude.{◌+◌, ◌*◌, ◌≤◌, ◌<◌, List, length, IfOk, IsTrue};
ghost use Rattle.flat_tables.specs.Limits.{max_size};
ghost use Rattle.flat_tables.specs.Slots.{Reaches};
ghost use Rattle.flat_tables.specs.Building.{Grows, StaysAt, HasSlots};
ghost use Rattle.arrow_schema.specs.Limits.{max_written_fields, max_written_names, max_size_before, max_field_size, max_schema_size};
ghost use Rattle.arrow_schema.specs.Trees.{field_count, count_of};
ghost use Rattle.arrow_schema.specs.Writing.{names_in, names_of, fits_width, widths_in, widths_fit, is_named, named_in, encodings_named, type_slots, WritesDict, WritesPair, WritesField, WritesFields, IsSchemaTable};
ghost use Rattle.arrow_schema.specs.Standing.{DictionaryStands, MetadataStands};

use crate::spec::{ArrowType, DictSpec, Encoding, FieldSpec, SchemaSpec};
use flat_tables::{Builder, Place, Slot};
use std::alloc::AllocError;

/// The most fields of a schema that is written, children counted.
pub const MAX_WRITTEN_FIELDS: usize = 1 << 10;

/// The most bytes that the names of such fields have together.
pub const MAX_WRITTEN_NAMES: usize = 1 << 20;

/// A builder to which a schema is added holds fewer bytes than this.
pub const MAX_SIZE_BEFORE: usize = 1 << 22;

/// Adds the `Schema` table of a schema, in little-endian order. All fields are nullable, no timestamp has
/// a timezone, and the custom metadata of a field has no pair but the one that names its encoding.
///
/// Where memory runs out, what was in the builder is still there; parts of the schema may be too.
pub fn add_schema(builder: &mut Builder, spec: &SchemaSpec) -> Result<Place, AllocError>
    requires few { count_of spec.now ≤ max_written_fields }
    requires names { names_of spec.now ≤ max_written_names }
    requires widths { IsTrue (widths_fit spec.now) }
    requires encodings { IsTrue (encodings_named spec.now) }
    requires room { length builder.old < max_size_before }
    ensures schema { IfOk result (StaysAt (IsSchemaTable spec.now) builder.new) }
    ensures grows { Grows builder.old builder.new }
    ensures size { length builder.new ≤ length builder.old + names_of spec.now + max_field_size * count_of spec.now + max_schema_size }
{
    let fields = add_fields(builder, spec.as_slice())?;
    let place = builder.add_table(&[Slot::Absent, Slot::At(fields)])?;
    Ok(place)
}

/// Adds the fields, and a vector of them.
#[cycle(write)]
#[tactic(auto, using(crate::proofs::FieldTrees::costs_more, flat_tables::proofs::Standing::grows_on))]
fn add_fields(builder: &mut Builder, fields: &[FieldSpec]) -> Result<Place, AllocError>
    requires widths { IsTrue (widths_fit fields.now) }
    requires encodings { IsTrue (encodings_named fields.now) }
    requires room { length builder.old + names_of fields.now + max_field_size * count_of fields.now + 32 < max_size }
    ensures fields { IfOk result (StaysAt (WritesFields fields.now) builder.new) }
    ensures grows { Grows builder.old builder.new }
    ensures size { length builder.new ≤ length builder.old + names_of fields.now + max_field_size * count_of fields.now + 32 }
{
    let mut places = Vec::with_capacity(builder.alloc(), fields.len())?;
    for field in fields {
        places.push(add_field(builder, field)?)?;
    }
    let place = builder.add_places(&places)?;
    Ok(place)
}

#[cycle(write)]
#[tactic(auto, using(crate::proofs::FieldTrees::costs, crate::proofs::FieldTrees::widths_below, crate::proofs::FieldTrees::named_below, flat_tables::proofs::Standing::grows_on))]
fn add_field(builder: &mut Builder, field: &FieldSpec) -> Result<Place, AllocError>
    requires widths { IsTrue (widths_in field.now) }
    requires encodings { IsTrue (named_in field.now) }
    requires room { length builder.old + names_in field.now + max_field_size * field_count field.now < max_size }
    ensures field { IfOk result (StaysAt (WritesField field.now) builder.new) }
    ensures grows { Grows builder.old builder.new }
    ensures size { length builder.new + 4 ≤ length builder.old + names_in field.now + max_field_size * field_count field.now }
{
    let children = add_fields(builder, field.children.as_slice())?;
    let name = builder.add_text(field.name.as_slice())?;
    let kind = add_type(builder, field.kind)?;
    let dict = add_dictionary(builder, field.dict)?;
    let metadata = add_metadata(builder, field.encoding)?;
    let slots = [
        Slot::At(name),
        Slot::U8(1),
        Slot::U8(field.kind.number()),
        Slot::At(kind),
        dict,
        Slot::At(children),
        metadata,
    ];
    let place = builder.add_table(&slots)?;
    Ok(place)
}

/// Adds the table of a type.
fn add_type(builder: &mut Builder, kind: ArrowType) -> Result<Place, AllocError>
    requires width { IsTrue (fits_width kind) }
    requires room { length builder.old < max_size }
    ensures kind { IfOk result (StaysAt (HasSlots (type_slots kind)) builder.new) }
    ensures grows { Grows builder.old builder.new }
    ensures size { length builder.new ≤ length builder.old + 256 }
{
    match kind {
        ArrowType::Int { bits, signed } => {
            builder.add_table(&[Slot::I32(i32::from(bits)), Slot::U8(u8::from(signed))])
        }
        ArrowType::Double => builder.add_table(&[Slot::I16(2)]),
        ArrowType::Timestamp | ArrowType::Duration => builder.add_table(&[Slot::I16(3)]),
        ArrowType::Fixed(width) => builder.add_table(&[Slot::I32(width as i32)]),
        ArrowType::Bool
        | ArrowType::Utf8
        | ArrowType::Binary
        | ArrowType::Struct
        | ArrowType::List => { builder.add_table(&[]) }
    }
}

/// Adds the table of a dictionary, where there is one, and returns the slot for it.
fn add_dictionary(builder: &mut Builder, dict: Option<DictSpec>) -> Result<Slot, AllocError>
    requires { length builder.old + 256 < max_size }
    ensures dict { IfOk result (DictionaryStands dict builder.new) }
    ensures reaches { IfOk result (Reaches (length builder.new)) }
    ensures grows { Grows builder.old builder.new }
    ensures size { length builder.new ≤ length builder.old + 512 }
{
    match dict {
        None => Ok(Slot::Absent),
        Some(dict) => Ok(Slot::At(add_dict(builder, dict)?)),
    }
}

#[tactic(auto, using(flat_tables::proofs::Standing::grows_on))]
fn add_dict(builder: &mut Builder, dict: DictSpec) -> Result<Place, AllocError>
    requires { length builder.old + 256 < max_size }
    ensures dict { IfOk result (StaysAt (WritesDict dict) builder.new) }
    ensures grows { Grows builder.old builder.new }
    ensures size { length builder.new ≤ length builder.old + 512 }
{
    let bits = if dict.wide { 16 } else { 8 };
    let index = builder.add_table(&[Slot::I32(bits), Slot::U8(0)])?;
    let place = builder.add_table(&[Slot::I64(dict.id), Slot::At(index)])?;
    Ok(place)
}

/// Adds the custom metadata that names an encoding, where there is one, and returns the slot for it.
fn add_metadata(builder: &mut Builder, encoding: Encoding) -> Result<Slot, AllocError>
    requires named { IsTrue (is_named encoding) }
    requires room { length builder.old + 512 < max_size }
    ensures metadata { IfOk result (MetadataStands encoding builder.new) }
    ensures reaches { IfOk result (Reaches (length builder.new)) }
    ensures grows { Grows builder.old builder.new }
    ensures size { length builder.new ≤ length builder.old + 400 }
{
    match encoding {
        Encoding::None | Encoding::Other => Ok(Slot::Absent),
        Encoding::Plain => Ok(Slot::At(add_pair(builder, b"plain")?)),
        Encoding::Delta => Ok(Slot::At(add_pair(builder, b"delta")?)),
        Encoding::Run => Ok(Slot::At(add_pair(builder, b"run")?)),
    }
}

/// Adds a vector of one pair, whose key is `encoding`.
#[tactic(auto, using(flat_tables::proofs::Standing::grows_on))]
fn add_pair(builder: &mut Builder, value: &[u8]) -> Result<Place, AllocError>
    requires value { length value.now ≤ 8 }
    requires room { length builder.old + 512 < max_size }
    ensures pair { IfOk result (StaysAt (WritesPair value.now) builder.new) }
    ensures grows { Grows builder.old builder.new }
    ensures size { length builder.new ≤ length builder.old + 400 }
{
    let key = builder.add_text(b"encoding")?;
    let value = builder.add_text(value)?;
    let pair = builder.add_table(&[Slot::At(key), Slot::At(value)])?;
    let place = builder.add_places(&[pair])?;
    Ok(place)
}
