//! The lines of a schema's fields.
ghost use Rattle.std.specs.Prelude.{◌≡◌, ◌++◌, IfOk, OnOk, string_bytes};
ghost use Rattle.otap_gateway.specs.Fields.{type_word, dictionary_word, fields_text, inner_path};
ghost use Rattle.otap_gateway.specs.FieldsInside.{field_line};

use crate::texts::quoting::push_quoted;
use arrow_schema::{ArrowType, DictSpec, FieldSpec};
use std::alloc::{AllocError, Global};

/// Appends a line for each field, its children after it. Their names come after the path, which
/// is empty or ends with a dot.
pub(crate) fn push_fields(
    alloc: Global,
    out: &mut Vec<u8>,
    path: &[u8],
    fields: &[FieldSpec],
) -> Result<(), AllocError>
    ensures { OnOk result (out.new.items ≡ out.old.items ++ fields_text path.now fields.now) }
{
    for field in fields {
        push_field(alloc, out, path, field)?;
        let inner = inner_path(alloc, path, field.name.as_slice())?;
        push_fields(alloc, out, &inner, field.children.as_slice())?;
    }
    Ok(())
}

/// The path of a field's children.
fn inner_path(alloc: Global, path: &[u8], name: &[u8]) -> Result<Vec<u8>, AllocError>
    ensures { IfOk result (λ inner. inner.items ≡ inner_path path.now name.now) }
{
    let mut inner = path.to_vec(alloc)?;
    inner.extend_from_slice(name)?;
    inner.push(b'.')?;
    Ok(inner)
}

fn push_field(
    alloc: Global,
    out: &mut Vec<u8>,
    path: &[u8],
    field: &FieldSpec,
) -> Result<(), AllocError>
    ensures { OnOk result (out.new.items ≡ out.old.items ++ field_line path.now field.now) }
{
    out.extend_from_slice(b"field ")?;
    push_quoted(out, path)?;
    push_quoted(out, field.name.as_slice())?;
    out.push(b' ')?;
    push_type(alloc, out, field.kind)?;
    out.extend_from_slice(dictionary_word(field.dict).as_bytes())?;
    out.push(b'\n')?;
    Ok(())
}

fn push_type(alloc: Global, out: &mut Vec<u8>, kind: ArrowType) -> Result<(), AllocError>
    ensures { OnOk result (out.new.items ≡ out.old.items ++ type_word kind) }
{
    let word = type_word(alloc, kind)?;
    out.extend_from_slice(word.as_bytes())
}

/// The word for a type.
fn type_word(alloc: Global, kind: ArrowType) -> Result<String, AllocError>
    ensures { IfOk result (λ word. string_bytes word ≡ type_word kind) }
{
    match kind {
        ArrowType::Bool => String::from_str(alloc, "bool"),
        ArrowType::Int { bits, signed: true } => format!(in alloc; "i{bits}"),
        ArrowType::Int {
            bits,
            signed: false,
        } => format!(in alloc; "u{bits}"),
        ArrowType::Double => String::from_str(alloc, "f64"),
        ArrowType::Utf8 => String::from_str(alloc, "utf8"),
        ArrowType::Binary => String::from_str(alloc, "binary"),
        ArrowType::Fixed(width) => format!(in alloc; "fixed {width}"),
        ArrowType::Timestamp => String::from_str(alloc, "timestamp"),
        ArrowType::Duration => String::from_str(alloc, "duration"),
        ArrowType::Struct => String::from_str(alloc, "struct"),
        ArrowType::List => String::from_str(alloc, "list"),
    }
}

/// What a line has after the type of a field with this dictionary.
fn dictionary_word(dict: Option<DictSpec>) -> &'static str
    ensures { result.now ≡ dictionary_word dict }
{
    match dict {
        None => "",
        Some(dict) if dict.wide => " dict u16",
        Some(_) => " dict u8",
    }
}
