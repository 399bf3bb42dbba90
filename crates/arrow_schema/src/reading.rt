ghost use Rattle.std.specs.Prelude.{◌≡◌, List, Ok, IfOk, IfErr};
ghost use Rattle.arrow_schema.specs.declared.spec.FieldSpec.{FieldSpec};
ghost use Rattle.arrow_schema.specs.Trees.{names_differ, uses_agree};
ghost use Rattle.arrow_schema.specs.declared.refusal.SchemaRefusal.{SchemaRefusal};
ghost use Rattle.arrow_schema.specs.Says.{SaysSchema};
ghost use Rattle.arrow_schema.specs.Readable.{IsReadable, fits_children};
ghost use Rattle.arrow_schema.specs.Defects.{HasDefect, RefusalStands};
ghost use Rattle.arrow_schema.specs.Reading.{ReturnsReading, field_of, fields_from, slot_of, vector_of, schema_of};

use crate::FieldList;
use crate::agreement::{names_differ, uses_agree};
use crate::encoding::read_encoding;
use crate::field::{read_dictionary, read_name, read_type};
use crate::refusal::SchemaRefusal;
use crate::spec::{ArrowType, FieldSpec, MAX_DEPTH, MAX_FIELDS, SchemaSpec};
use flat_tables::{TableView, VectorView};
use std::alloc::Global;

/// Reads the schema of a `Schema` table. Where there are several defects, it returns one of them.
///
/// The fields are counted before they are read, and nested at most [`MAX_DEPTH`] deep, so it ends
/// soon, however the tables refer to one another.
pub fn read_schema(alloc: Global, view: TableView<'_>) -> Result<SchemaSpec, SchemaRefusal>
    ensures exact { ReturnsReading (λ schema. schema) result (schema_of view.entry) }
    ensures found { IfOk result (λ schema. SaysSchema view.entry schema × IsReadable schema) }
    ensures refused { IfErr result (RefusalStands view.entry) }
    ensures reads { (schema : List FieldSpec) → SaysSchema view.entry schema → IsReadable schema → ReturnsReading (λ read. read) result (Ok schema) }
    ensures refuses { (refusal : SchemaRefusal) → HasDefect view.entry refusal → IfOk result (λ schema. ⊥) }
{
    let fields = read_fields(alloc, &view)?;
    Ok(SchemaSpec::from_fields(fields))
}

#[tactic(auto, unfolding(crate::specs::Reading::schema_of))]
fn read_fields(alloc: Global, schema: &TableView<'_>) -> Result<FieldList<FieldSpec>, SchemaRefusal>
    ensures { ReturnsReading (λ fields. fields) result (schema_of schema.now) }
{
    if schema.i16_at(0, 0)? != 0 {
        return Err(SchemaRefusal::Unsupported);
    }
    let (fields, _) = read_slot(alloc, schema, 1, MAX_DEPTH, MAX_FIELDS)?;
    if !uses_agree(alloc, fields.as_slice())? {
        return Err(SchemaRefusal::DictionaryTypes);
    }
    Ok(fields)
}

/// The fields in a slot of a table, which may be nested `depth` deep, and how many more the schema
/// may have, of those that were `left`.
#[cycle(read)]
#[tactic(auto, unfolding(crate::specs::Reading::slot_of))]
fn read_slot(
    alloc: Global,
    parent: &TableView<'_>,
    slot: u16,
    depth: u32,
    left: u32,
) -> Result<(FieldList<FieldSpec>, u32), SchemaRefusal>
    ensures { ReturnsReading (λ fields. fields) result (slot_of (vector_of depth) slot left parent.now) }
{
    match parent.vector_at(slot, 4)? {
        None => Ok((FieldList::new(alloc), left)),
        Some(vector) => Ok(read_vector(alloc, &vector, depth, left)?),
    }
}

#[cycle(read)]
fn read_vector(
    alloc: Global,
    vector: &VectorView<'_>,
    depth: u32,
    left: u32,
) -> Result<(FieldList<FieldSpec>, u32), SchemaRefusal>
    requires { vector.now.width ≡ 4 }
    ensures { ReturnsReading (λ fields. fields) result (vector_of depth left vector.now) }
{
    if vector.len() == 0 {
        return Ok((FieldList::new(alloc), left));
    }
    if vector.len() > left {
        return Err(SchemaRefusal::TooManyFields);
    }
    if depth == 0 {
        return Err(SchemaRefusal::TooDeep);
    }
    let (fields, left) = read_elements(alloc, vector, depth - 1, left - vector.len())?;
    if !names_differ(fields.as_slice()) {
        return Err(SchemaRefusal::BadName);
    }
    Ok((fields, left))
}

/// The fields that the elements of a vector refer to.
#[cycle(read)]
fn read_elements(
    alloc: Global,
    vector: &VectorView<'_>,
    depth: u32,
    mut left: u32,
) -> Result<(FieldList<FieldSpec>, u32), SchemaRefusal>
    requires { vector.now.width ≡ 4 }
    ensures { ReturnsReading (λ fields. fields) result (fields_from (field_of (vector_of depth)) vector.now 0 vector.now.count left) }
{
    let mut fields = FieldList::new(alloc);
    for place in 0..vector.len() {
        let table = match vector.table(place)? {
            None => return Ok((fields, left)),
            Some(table) => table,
        };
        let (field, rest) = read_field(alloc, &table, depth, left)?;
        fields.push(field)?;
        left = rest;
    }
    Ok((fields, left))
}

/// The field of a table, whose children may be nested `depth` deep.
#[cycle(read)]
#[tactic(auto, unfolding(crate::specs::Reading::field_of))]
fn read_field(
    alloc: Global,
    table: &TableView<'_>,
    depth: u32,
    left: u32,
) -> Result<(FieldSpec, u32), SchemaRefusal>
    ensures { ReturnsReading (λ field. field) result (field_of (vector_of depth) left table.now) }
{
    let name = read_name(alloc, table)?;
    let kind = read_type(table)?;
    let dict = read_dictionary(table, kind)?;
    let encoding = read_encoding(table)?;
    let (children, left) = read_slot(alloc, table, 5, depth, left)?;
    if !fits_children(kind, children.as_slice()) {
        return Err(SchemaRefusal::Unsupported);
    }
    let field = FieldSpec {
        name,
        kind,
        dict,
        encoding,
        children,
    };
    Ok((field, left))
}

/// Whether a field of this type may have these children.
fn fits_children(kind: ArrowType, children: &[FieldSpec]) -> bool
    ensures { result ≡ fits_children kind children.now }
{
    match (kind, children) {
        (ArrowType::Struct, _) => true,
        (ArrowType::List, [child]) => child.kind.is_element_type() && child.dict.is_none(),
        (ArrowType::List, _) => false,
        (_, []) => true,
        _ => false,
    }
}
