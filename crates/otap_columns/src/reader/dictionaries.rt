//! The dictionaries of a sub-stream. A schema has few, so each look goes over all of them.

ghost use Rattle.std.specs.Prelude.{◌≡◌, ℕ, ◌+◌, ◌<◌, ◌≤◌, ◌^◌, ◌*◌, All, length, vec_len, find, OnOk, IfOk, IfErr};
ghost use Rattle.std.specs.List.{list_any};
ghost use Rattle.std.specs.Option.{option_copied};
ghost use Rattle.arrow_schema.specs.Limits.{max_fields};
ghost use Rattle.arrow_arrays.specs.Views.{cell_seen};
ghost use Rattle.otap_columns.specs.Dictionaries.{has_id, is_for, with_dictionary, empty_dictionaries, all_grown, held_weight, values_for};
ghost use Rattle.otap_columns.specs.Resolved.{HasIndexSizes, IsResolved, resolved_value};
ghost use Rattle.otap_columns.specs.Substreams.{value_by_index};
ghost use Rattle.otap_columns.specs.Records.{IsFineBatch};
ghost use Rattle.otap_columns.specs.Steps.{FitsIn};
ghost use Rattle.otap_columns.specs.Reading.{RefusesDictionaryBatch};

use crate::reader::dictionary::Dictionary;
use crate::reader::resolved::ResolvedColumn;
use crate::refusal::ColumnRefusal;
use arrow_arrays::{ArraySpec, Arrays, ColumnView};
use arrow_ipc::BatchView;
use arrow_schema::ArrowType;
use otap_cells::Base;
use std::alloc::{AllocError, Global};

/// The dictionaries of arrays, each once, without values.
#[tactic(auto, unfolding(crate::specs::Dictionaries::empty_dictionaries))]
pub(crate) fn empty(alloc: Global, arrays: &Arrays) -> Result<Vec<Dictionary>, AllocError>
    ensures value { IfOk result (λ dictionaries. dictionaries.items ≡ empty_dictionaries arrays.now) }
    ensures few { IfOk result (λ dictionaries. vec_len dictionaries ≤ length arrays.now) }
{
    let mut dictionaries = Vec::new(alloc);
    'arrays: for array in arrays.as_slice() {
        add(alloc, &mut dictionaries, array)?;
    }
    Ok(dictionaries)
}

/// Adds the dictionary of an array, unless there is none, or it is there.
fn add(
    alloc: Global,
    dictionaries: &mut Vec<Dictionary>,
    array: &ArraySpec,
) -> Result<(), AllocError>
    ensures value { OnOk result (dictionaries.new.items ≡ with_dictionary dictionaries.old.items array.now.kind array.now.dict) }
    ensures few { OnOk result (vec_len dictionaries.new ≤ vec_len dictionaries.old + 1) }
{
    let Some(dict) = array.dict else {
        return Ok(());
    };
    if is_there(dictionaries, array.kind, dict.id) {
        return Ok(());
    }
    dictionaries.push(Dictionary::new(alloc, dict.id, array.kind))?;
    Ok(())
}

fn is_there(dictionaries: &[Dictionary], kind: ArrowType, id: i64) -> bool
    ensures { result ≡ list_any (is_for kind id) dictionaries.now }
{
    dictionaries.iter().any(|d| d.is_for(kind, id))
}

fn is_known(dictionaries: &[Dictionary], id: i64) -> bool
    ensures { result ≡ list_any (has_id id) dictionaries.now }
{
    dictionaries.iter().any(|d| d.has_id(id))
}

/// Takes a dictionary batch.
pub(crate) fn take(
    dictionaries: &mut [Dictionary],
    id: i64,
    delta: bool,
    batch: &BatchView<'_>,
) -> Result<(), ColumnRefusal>
    ensures ok { OnOk result (dictionaries.new ≡ all_grown id delta batch.now dictionaries.old) }
    ensures fits { All FitsIn dictionaries.old → All FitsIn dictionaries.new }
    ensures fine { OnOk result (IsFineBatch id delta batch.now dictionaries.old) }
    ensures err { IfErr result (RefusesDictionaryBatch id delta batch.now dictionaries.old) }
{
    if !is_known(dictionaries, id) {
        return Err(ColumnRefusal::Order);
    }
    'dictionaries: for dictionary in dictionaries.iter_mut() {
        dictionary.take_if(id, delta, batch)?;
    }
    Ok(())
}

/// What the dictionaries hold.
pub(crate) fn held(dictionaries: &[Dictionary]) -> u64
    requires { length dictionaries.now ≤ max_fields }
    ensures value { result ≡ held_weight dictionaries.now }
    ensures few { result ≤ max_fields * 2 ^ 50 }
{
    let mut held = 0;
    'dictionaries: for dictionary in dictionaries {
        held += dictionary.weight();
    }
    held
}

/// How many values the dictionary of a field has.
pub(crate) fn count_for(dictionaries: &[Dictionary], kind: ArrowType, id: i64) -> usize
    ensures { result ≡ length (values_for kind id dictionaries.now) }
{
    match find(dictionaries, kind, id) {
        None => 0,
        Some(dictionary) => dictionary.len(),
    }
}

/// A column that stores indexes into the dictionary of a field.
pub(crate) fn lead<'v>(
    dictionaries: &'v [Dictionary],
    kind: ArrowType,
    id: i64,
    base: Base,
    stored: ColumnView<'v>,
) -> ResolvedColumn<'v>
    requires { HasIndexSizes stored }
    ensures values { (row : ℕ) → resolved_value result row ≡ value_by_index (values_for kind id dictionaries.now) (cell_seen stored.entry row) }
    ensures resolved { IsResolved result }
    ensures base { result.base ≡ base }
{
    match find(dictionaries, kind, id) {
        None => ResolvedColumn::missing(base),
        Some(dictionary) => ResolvedColumn::indexed(base, stored, dictionary),
    }
}

fn find(dictionaries: &[Dictionary], kind: ArrowType, id: i64) -> Option<&Dictionary>
    ensures { option_copied result ≡ find (is_for kind id) dictionaries.now }
{
    dictionaries.iter().find(|d| d.is_for(kind, id))
}
