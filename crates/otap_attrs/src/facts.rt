//! What one pass over the rows of a table of attributes finds. Each of their cells is read once.
ghost use Rattle.std.specs.Prelude.{◌≡◌, ◌++◌, ◌∷◌, [], drop, min, true, unwrap_or, IfOk, IfSome, OnOk};
ghost use Rattle.otlp_model.specs.Limits.{count_cap};
ghost use Rattle.otlp_model.specs.Weight.{weight_of_value};
ghost use Rattle.otlp_model.specs.declared.value.Value as values;
ghost use Rattle.cbor_values.specs.Values.{value_of};
ghost use Rattle.otap_cells.specs.Continuing.{continues_in, has_attributes, seen_attribute};
ghost use Rattle.otap_attrs.specs.declared.refusal.RowRefusal.{RowRefusal};
ghost use Rattle.otap_attrs.specs.Facts.{AddsWeight, HasWeights, WeighsPair, WeighsValue};
ghost use Rattle.otap_attrs.specs.Inside.{BadNested};

use cbor_values::{Nesting, weigh_value};
use otap_cells::{Attribute, Rows, attribute_at, says_again};
use otlp_model::{add_capped, capped_len};
use std::alloc::{AllocError, Global};

/// What one pass over the rows of a table of attributes finds.
#[derive(Debug, Drop)]
pub struct AttributeFacts {
    /// Of each row, whether it continues the run of the row before it.
    pub continues: Vec<bool>,
    /// Of each row what its pair weighs in bytes, without the 32 of the pair itself, or `CAP` where it is more. Where there are
    /// weights, nothing is wrong with the value of any row.
    pub weights: Option<Vec<u64>>,
}

/// Reads the rows of a table of attributes. Weights are given only where they are right; that they are given wherever each value is
/// fine isn't claimed. Linear in the rows, in their keys and texts, and in the bytes of nested values.
pub fn read_attributes<R: Rows>(alloc: Global, rows: &R) -> Result<AttributeFacts, AllocError>
    requires { has_attributes (R.table rows.now).kind ≡ true }
    ensures continues { IfOk result (λ facts. facts.continues.items ≡ continues_in (R.table rows.now)) }
    ensures weights { IfOk result (λ facts. IfSome facts.weights (λ weights. HasWeights (R.table rows.now) weights.items)) }
{
    let count = rows.rows();
    let mut found = Found {
        continues: Vec::with_capacity(alloc, count as usize)?,
        weights: Vec::with_capacity(alloc, count as usize)?,
        fine: true,
    };
    if count == 0 {
        return Ok(found.into_facts());
    }
    let mut before = attribute_at(rows, 0);
    found.add(false, &before)?;
    'rows: for row in 1..count {
        let says = attribute_at(rows, row);
        found.add(says_again(&before, &says), &says)?;
        before = says;
    }
    Ok(found.into_facts())
}

/// What was found of the rows so far.
#[derive(Debug, Drop)]
struct Found {
    continues: Vec<bool>,
    weights: Vec<u64>,
    /// Whether nothing is wrong with their values. Where something is, the weights mean nothing.
    fine: bool,
}

impl Found {
    /// Adds what a row says.
    fn add(&mut self, continues: bool, says: &Attribute<'_>) -> Result<(), AllocError>
        ensures continues { OnOk result (self.new.continues.items ≡ self.old.continues.items ++ continues ∷ []) }
        ensures weights { OnOk result (self.new.fine ≡ true → AddsWeight self.old self.new (seen_attribute says.now)) }
    {
        self.continues.push(continues)?;
        match pair_weight(says) {
            Some(weight) => self.weights.push(weight)?,
            None => self.fine = false,
        }
        Ok(())
    }

    fn into_facts(self) -> AttributeFacts
        ensures continues { result.continues ≡ self.continues }
        ensures weights { IfSome result.weights (λ weights. (weights ≡ self.weights) × (self.fine ≡ true)) }
    {
        AttributeFacts {
            continues: self.continues,
            weights: if self.fine { Some(self.weights) } else { None },
        }
    }
}

/// What the pair of a row weighs, or `CAP` where it is more; `None` where something is wrong with its value.
fn pair_weight(says: &Attribute<'_>) -> Option<u64>
    ensures { IfSome result (WeighsPair (seen_attribute says.now)) }
{
    match value_weight(says.kind, says.bytes) {
        Some(weight) => Some(add_capped(capped_len(says.key), weight)),
        None => None,
    }
}

/// The same of a value of a type, of which these are the bytes.
#[tactic(auto, using(crate::proofs::FactsFound::no_bytes, crate::proofs::FactsFound::text_weight, crate::proofs::FactsFound::octets_weight))]
fn value_weight(kind: u32, bytes: &[u8]) -> Option<u64>
    ensures { IfSome result (WeighsValue kind bytes.now) }
{
    match kind {
        0 | 2 | 3 | 4 => Some(0),
        1 | 7 => Some(capped_len(bytes)),
        5 => nested_weight(Nesting::Map, bytes),
        6 => nested_weight(Nesting::Array, bytes),
        _ => None,
    }
}

/// The same of the bytes of a nested value, which is to have this shape.
fn nested_weight(nesting: Nesting, part: &[u8]) -> Option<u64>
    ensures fine { IfSome result (λ weight. (why : RowRefusal) → BadNested nesting part.now why → ⊥) }
    ensures weight { IfSome result (λ weight. weight ≡ min (weight_of_value (unwrap_or (value_of part.now) values.Empty)) count_cap) }
{
    match weigh_value(part) {
        Ok(weighed) => if weighed.nesting == nesting {
            Some(weighed.weight)
        } else {
            None
        },
        Err(_) => None,
    }
}
