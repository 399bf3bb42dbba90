//! What is wrong with the cells of a batch, rule by rule.
ghost use Rattle.std.specs.Prelude.{◌≡◌, true, false, All, IfErr, IfOk, OnOk};
ghost use Rattle.otap_attrs.specs.declared.refusal.CheckRefusal.TheVariants as check;
ghost use Rattle.otap_cells.specs.Named.{table_named};
ghost use Rattle.otap_groups.specs.Kinds.{IsMain};
ghost use Rattle.otap_checks.specs.IdDefects.{IdDefect};
ghost use Rattle.otap_checks.specs.Known.{IsWeighed, Knows, KnowsAll};
ghost use Rattle.otap_checks.specs.Reading.{Disagrees};
ghost use Rattle.otap_checks.specs.Refusing.{IsClean, RefusesCheck};
ghost use Rattle.otap_checks.specs.RowDefects.{RowDefect};
ghost use Rattle.otap_checks.specs.Ruled.{AreGivenFor, BreaksOne, BreaksRule, FitsRule, Keeps};

use crate::checking::known_rows;
use crate::fronts::front_of;
use crate::known::{KnownIds, KnownRows};
use crate::measured::{has_two_values, has_uneven_lists};
use crate::shapes::{has_other_parents, has_wrong_type};
use crate::signals::{Asks, CellRule, rules_of};
use crate::values::check_unweighed_values;
use otap_attrs::{CheckRefusal, RowRefusal};
use otap_cells::{Kind, Rows, TableSet};
use otlp_model::Signal;
use std::alloc::{AllocError, Global};

/// What is known of the rows of a batch with which nothing is wrong: their ids, and what pairs weigh where it was found. Takes n log n
/// for n rows.
pub fn checked_rows<R: Rows>(
    alloc: Global,
    set: &TableSet<R>,
    signal: Signal,
) -> Result<KnownRows, CheckRefusal>
    ensures clean { OnOk result (IsClean (RowDefect signal set.now)) }
    ensures known { IfOk result (λ known. KnowsAll signal set.now known.ids) }
    ensures weights { IfOk result (λ known. All (IsWeighed set.now) known.weights.items) }
    ensures refused { IfErr result (RefusesCheck (RowDefect signal set.now)) }
{
    let known = known_rows(alloc, set, signal)?;
    check_cells(alloc, set, &known, signal)?;
    Ok(known)
}

/// Checks the cells of a batch, whose ids are known and have nothing wrong. It builds nothing. Takes n log n for n rows.
pub fn check_cells<R: Rows>(
    alloc: Global,
    set: &TableSet<R>,
    known: &KnownRows,
    signal: Signal,
) -> Result<(), CheckRefusal>
    requires ids { IsClean (IdDefect signal set.now) }
    requires known { KnowsAll signal set.now known.now.ids }
    requires weights { All (IsWeighed set.now) known.now.weights.items }
    ensures clean { OnOk result (IsClean (RowDefect signal set.now)) }
    ensures refused { IfErr result (RefusesCheck (RowDefect signal set.now)) }
{
    match check_rules(alloc, set, known, rules_of(signal)) {
        Ok(()) => Ok(()),
        Err(refusal) => Err(refusal),
    }
}

fn check_rules<R: Rows>(
    alloc: Global,
    set: &TableSet<R>,
    known: &KnownRows,
    rules: &[CellRule],
) -> Result<(), CheckRefusal>
    requires fit { All FitsRule rules.now }
    requires given { All (AreGivenFor set.now known.now.ids) rules.now }
    requires weights { All (IsWeighed set.now) known.now.weights.items }
    ensures ok { OnOk result (All (Keeps set.now) rules.now) }
    ensures err { IfErr result (RefusesCheck (BreaksOne set.now rules.now)) }
{
    'rules: for place in 0..rules.len() {
        check_rule(alloc, set, known, &rules[place])?;
    }
    Ok(())
}

fn check_rule<R: Rows>(
    alloc: Global,
    set: &TableSet<R>,
    known: &KnownRows,
    rule: &CellRule,
) -> Result<(), CheckRefusal>
    requires fit { FitsRule rule.now }
    requires given { AreGivenFor set.now known.now.ids rule.now }
    requires weights { All (IsWeighed set.now) known.now.weights.items }
    ensures ok { OnOk result (Keeps set.now rule.now) }
    ensures err { IfErr result (RefusesCheck (BreaksRule set.now rule.now)) }
{
    let kind = rule.kind;
    match rule.asks {
        Asks::Values(column) => check_unweighed_values(set, known, kind, column),
        Asks::Agree => refuse(
            differ(alloc, set, &known.ids, kind)?,
            kind,
            RowRefusal::Disagree,
        ),
        Asks::OneNumber(column) => {
            refuse(
                has_two_values(set, kind, column),
                kind,
                RowRefusal::TwoValues,
            )
        }
        Asks::EvenLists(first, second) => {
            refuse(
                has_uneven_lists(set, kind, first, second),
                kind,
                RowRefusal::BadKind,
            )
        }
        Asks::KnownShape => refuse(has_wrong_type(set, kind), kind, RowRefusal::BadKind),
        Asks::OfShape(sort) => {
            let found = has_other_parents(alloc, set, &known.ids, kind, sort)?;
            refuse(found, kind, RowRefusal::BadKind)
        }
    }
}

/// Refuses the table of a kind, where something wrong was found.
fn refuse(found: bool, kind: Kind, why: RowRefusal) -> Result<(), CheckRefusal>
    ensures ok { OnOk result (found ≡ false) }
    ensures err { IfErr result (λ refusal. (found ≡ true) × (refusal ≡ check.Defect kind why)) }
{
    if found {
        return Err(CheckRefusal::Defect { kind, why });
    }
    Ok(())
}

/// Whether rows of one id differ in the main table of a kind.
fn differ<R: Rows>(
    alloc: Global,
    set: &TableSet<R>,
    known: &KnownIds,
    kind: Kind,
) -> Result<bool, AllocError>
    requires main { IsMain kind }
    requires known { Knows (table_named kind set.now) kind known.now }
    ensures yes { IfOk result (λ found. found ≡ true → Disagrees (table_named kind set.now)) }
    ensures no { IfOk result (λ found. found ≡ false → Disagrees (table_named kind set.now) → ⊥) }
{
    let Some(rows) = set.get(kind) else {
        return Ok(false);
    };
    let front = front_of(rows, known);
    let found = front.disagrees(alloc)?;
    Ok(found)
}
