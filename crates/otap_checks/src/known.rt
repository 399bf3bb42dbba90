//! The ids of the tables of a batch, each read once.
ghost use Rattle.std.specs.Prelude.{◌≡◌, ◌++◌, ◌∷◌, [], true, All, IfErr, IfOk, IfSome, List, OnOk};
ghost use Rattle.otap_cells.specs.ColumnIds.{HasNullParent, RefusesIds};
ghost use Rattle.otap_cells.specs.Columns.{is_id_at};
ghost use Rattle.otap_cells.specs.Continuing.{continues_in, has_attributes};
ghost use Rattle.otap_cells.specs.GivenIds.{HasIds};
ghost use Rattle.otap_cells.specs.Named.{table_named};
ghost use Rattle.otap_cells.specs.Tables.{Table};
ghost use Rattle.otap_attrs.specs.Facts.{HasWeights};
ghost use Rattle.otap_checks.specs.declared.signals.TableLink.{TableLink};
ghost use Rattle.otap_checks.specs.Inside.{ColumnsWrong, ColumnWrong, HasColumns, IsRight, KeepsIds};
ghost use Rattle.otap_checks.specs.Known.{IsKnown, IsWeighed, KeepsWeighed, ids_named};
ghost use Rattle.otap_checks.specs.Refusing.{RefusesCheck};

use crate::checking::refused;
use crate::signals::TableLink;
use otap_attrs::{CheckRefusal, RowRefusal, read_attributes};
use otap_cells::{
    IdsRefusal, Kind, Rows, TableSet, base_of, columns, has_attributes, ids_of, read_ids,
};
use std::alloc::{AllocError, Global};
use std::marker::Model;

/// The ids of a column of a table.
#[derive(Debug, Drop)]
pub struct ColumnIds {
    pub kind: Kind,
    pub column: u32,
    pub ids: Vec<Option<u32>>,
}

/// The ids of the tables of a batch. Contracts see them as a list of columns.
#[derive(Debug, Drop)]
pub struct KnownIds {
    pub columns: Vec<ColumnIds>,
}

impl Model for KnownIds {
    ghost use Rattle.std.specs.Prelude.{List};
    ghost use Rattle.otap_checks.specs.declared.known.ColumnIds.{ColumnIds};

    ghost Value = { List ColumnIds };

    ghost view = { λ a. a.columns.items };
}

impl KnownIds {
    /// The ids of a column of a table; none where they aren't known.
    pub fn of(&self, kind: Kind, column: u32) -> &[Option<u32>]
        ensures { result.now ≡ ids_named kind column self.now }
    {
        find(&self.columns, kind, column)
    }
}

fn find(known: &[ColumnIds], kind: Kind, column: u32) -> &[Option<u32>]
    ensures { result.now ≡ ids_named kind column known.now }
{
    'known: for ids in known {
        if ids.kind == kind && ids.column == column {
            return &ids.ids;
        }
    }
    &[]
}

/// What the pairs of a table of attributes weigh, row by row, in bytes, each without the 32 of the pair itself, or `CAP`. Nothing is
/// wrong with their values.
#[derive(Debug, Drop)]
pub struct PairWeights {
    pub kind: Kind,
    pub weights: Vec<u64>,
}

/// What is known of the rows of a batch whose ids have nothing wrong.
#[derive(Debug, Drop)]
pub struct KnownRows {
    pub ids: KnownIds,
    /// Of the tables of attributes for which they were found. A table without weights is looked at once more.
    pub weights: Vec<PairWeights>,
}

impl KnownRows {
    /// The weights of the pairs of the table of a kind, where they are known.
    pub(crate) fn weights_of(&self, kind: Kind) -> Option<&[u64]>
        ensures { (tables : List Table) → All (IsWeighed tables) self.now.weights.items
            → IfSome result (λ weights. HasWeights (table_named kind tables) weights.now) }
    {
        find_weights(&self.weights, kind)
    }
}

fn find_weights(known: &[PairWeights], kind: Kind) -> Option<&[u64]>
    ensures { (tables : List Table) → All (IsWeighed tables) known.now → IfSome result (λ weights. HasWeights (table_named kind tables) weights.now) }
{
    'known: for pairs in known {
        if pairs.kind == kind {
            return Some(&pairs.weights);
        }
    }
    None
}

/// Reads the ids of the tables that hang together in these ways, and what the pairs of attributes weigh.
#[tactic(auto, using(crate::proofs::KnownSteps::column_refusal))]
pub(crate) fn read_tables<R: Rows>(
    alloc: Global,
    set: &TableSet<R>,
    links: &[TableLink],
) -> Result<KnownRows, CheckRefusal>
    ensures right { IfOk result (λ known. All (IsRight set.now) known.ids) }
    ensures all { IfOk result (λ known. All (λ (link : TableLink). HasColumns link.kind known.ids) links.now) }
    ensures weights { IfOk result (λ known. All (IsWeighed set.now) known.weights.items) }
    ensures err { IfErr result (RefusesCheck (ColumnsWrong set.now links.now)) }
{
    let mut known = Vec::new(alloc);
    let mut weights = Vec::new(alloc);
    'links: for place in 0..links.len() {
        read_table(alloc, set, links[place].kind, &mut known, &mut weights)?;
    }
    Ok(KnownRows {
        ids: KnownIds { columns: known },
        weights,
    })
}

/// Reads the table of a kind.
fn read_table<R: Rows>(
    alloc: Global,
    set: &TableSet<R>,
    kind: Kind,
    known: &mut Vec<ColumnIds>,
    weights: &mut Vec<PairWeights>,
) -> Result<(), CheckRefusal>
    ensures right { OnOk result (All (IsRight set.now) known.old.items → All (IsRight set.now) known.new.items) }
    ensures kept { OnOk result (KeepsIds known.old.items known.new.items) }
    ensures all { OnOk result (HasColumns kind known.new.items) }
    ensures weights { OnOk result (All (IsWeighed set.now) weights.old.items → All (IsWeighed set.now) weights.new.items) }
    ensures err { IfErr result (RefusesCheck (ColumnWrong set.now kind)) }
{
    let count = columns(kind).len();
    'columns: for place in 0..count {
        let column = place as u32;
        if !base_of(kind, column).is_id() {
            continue;
        }
        let ids = read_column(alloc, set, kind, column, weights)?;
        keep(known, ColumnIds { kind, column, ids })?;
    }
    Ok(())
}

fn keep(known: &mut Vec<ColumnIds>, ids: ColumnIds) -> Result<(), AllocError>
    ensures { OnOk result (known.new.items ≡ known.old.items ++ ids ∷ []) }
{
    known.push(ids)?;
    Ok(())
}

/// The ids of a column. A table that isn't there has none. One of attributes is read in one pass, for the weights of its pairs too.
fn read_column<R: Rows>(
    alloc: Global,
    set: &TableSet<R>,
    kind: Kind,
    column: u32,
    weights: &mut Vec<PairWeights>,
) -> Result<Vec<Option<u32>>, CheckRefusal>
    requires { is_id_at kind column ≡ true }
    ensures known { IfOk result (λ ids. IsKnown (table_named kind set.now) column ids.items) }
    ensures weights { OnOk result (All (IsWeighed set.now) weights.old.items → All (IsWeighed set.now) weights.new.items) }
    ensures err { IfErr result (RefusesCheck (ColumnWrong set.now kind)) }
{
    let Some(rows) = set.get(kind) else {
        return Ok(Vec::new(alloc));
    };
    match read_ids_of(alloc, rows, column, weights) {
        Ok(ids) => Ok(ids),
        Err(why) => Err(refused(kind, RowRefusal::from(why))),
    }
}

fn read_ids_of<R: Rows>(
    alloc: Global,
    rows: &R,
    column: u32,
    weights: &mut Vec<PairWeights>,
) -> Result<Vec<Option<u32>>, IdsRefusal>
    requires { is_id_at (R.table rows.now).kind column ≡ true }
    ensures ids { IfOk result (λ ids. HasIds (R.table rows.now) column ids.items) }
    ensures parents { OnOk result (HasNullParent (R.table rows.now) column → ⊥) }
    ensures weights { OnOk result (KeepsWeighed (R.table rows.now) weights.old.items weights.new.items) }
    ensures refused { IfErr result (RefusesIds (R.table rows.now) column (continues_in (R.table rows.now))) }
{
    if has_attributes(rows.kind()) {
        return read_parents(alloc, rows, column, weights);
    }
    read_ids(alloc, rows, column)
}

/// The same of a table of attributes.
fn read_parents<R: Rows>(
    alloc: Global,
    rows: &R,
    column: u32,
    weights: &mut Vec<PairWeights>,
) -> Result<Vec<Option<u32>>, IdsRefusal>
    requires attributes { has_attributes (R.table rows.now).kind ≡ true }
    requires column { is_id_at (R.table rows.now).kind column ≡ true }
    ensures ids { IfOk result (λ ids. HasIds (R.table rows.now) column ids.items) }
    ensures parents { OnOk result (HasNullParent (R.table rows.now) column → ⊥) }
    ensures weights { OnOk result (KeepsWeighed (R.table rows.now) weights.old.items weights.new.items) }
    ensures refused { IfErr result (RefusesIds (R.table rows.now) column (continues_in (R.table rows.now))) }
{
    let facts = read_attributes(alloc, rows)?;
    keep_weights(weights, rows.kind(), facts.weights)?;
    ids_of(alloc, rows, column, &facts.continues)
}

fn keep_weights(
    weights: &mut Vec<PairWeights>,
    kind: Kind,
    found: Option<Vec<u64>>,
) -> Result<(), AllocError>
    ensures { (t : Table) → t.kind ≡ kind → IfSome found (λ found. HasWeights t found.items) → OnOk result (KeepsWeighed t weights.old.items weights.new.items) }
{
    if let Some(found) = found {
        weights.push(PairWeights {
            kind,
            weights: found,
        })?;
    }
    Ok(())
}
