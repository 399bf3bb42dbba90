//! What the fields of a schema must not do together.

ghost use Rattle.std.specs.Prelude.{◌≡◌, ◌++◌, IfOk, OnOk};
ghost use Rattle.arrow_schema.specs.declared.spec.FieldSpec.{FieldSpec};
ghost use Rattle.arrow_schema.specs.Trees.{lacks_name, names_differ, use_of, uses_of, uses_agree, dict_in, kind_in, agrees, agrees_with};

use crate::spec::{ArrowType, FieldSpec};
use std::alloc::{AllocError, Global};

/// Whether no two of the fields have one name. It compares each with each: they are at most 128.
#[tactic(auto, unfolding(crate::specs::Trees::names_differ))]
pub(crate) fn names_differ(fields: &[FieldSpec]) -> bool
    ensures { result ≡ names_differ fields.now }
{
    for (place, field) in fields.iter().enumerate() {
        if !lacks_name(field.name.as_slice(), &fields[place + 1..]) {
            return false;
        }
    }
    true
}

fn lacks_name(name: &[u8], fields: &[FieldSpec]) -> bool
    ensures { result ≡ lacks_name name.now fields.now }
{
    fields.iter().all(|field| field.name.as_slice() != name)
}

/// That a dictionary holds values of a type.
#[derive(Clone, Copy)]
pub(crate) struct Use {
    id: i64,
    kind: ArrowType,
}

/// Whether no dictionary has two types. It compares each use with each: they are at most 128.
#[tactic(auto, unfolding(crate::specs::Trees::uses_agree))]
pub(crate) fn uses_agree(alloc: Global, fields: &[FieldSpec]) -> Result<bool, AllocError>
    ensures { IfOk result (λ agree. agree ≡ uses_agree (uses_of fields.now)) }
{
    let mut uses = Vec::new(alloc);
    push_uses(fields, &mut uses)?;
    let all = uses.as_slice();
    Ok(all.iter().all(|a| agrees_with(all, *a)))
}

fn agrees_with(uses: &[Use], a: Use) -> bool
    ensures { result ≡ agrees_with uses.now a }
{
    uses.iter().all(|b| agrees(a, *b))
}

fn agrees(a: Use, b: Use) -> bool
    ensures { result ≡ agrees a b }
{
    a.id != b.id || a.kind == b.kind
}

/// Appends the uses of fields and of their children, depth first.
fn push_uses(fields: &[FieldSpec], uses: &mut Vec<Use>) -> Result<(), AllocError>
    ensures { OnOk result (uses.new.items ≡ uses.old.items ++ uses_of fields.now) }
{
    for field in fields {
        push_use(field, uses)?;
        push_uses(field.children.as_slice(), uses)?;
    }
    Ok(())
}

/// Appends the use of one field, where it has a dictionary.
fn push_use(field: &FieldSpec, uses: &mut Vec<Use>) -> Result<(), AllocError>
    ensures { OnOk result (uses.new.items ≡ uses.old.items ++ use_of (kind_in field.now) (dict_in field.now)) }
{
    match field.dict {
        None => Ok(()),
        Some(dict) => {
            uses.push(Use {
                id: dict.id,
                kind: field.kind,
            })?;
            Ok(())
        }
    }
}
