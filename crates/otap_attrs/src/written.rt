//! The tables of attributes of a request, and what their rows weigh.
ghost use Rattle.std.specs.Prelude.{◌≡◌, ◌≤◌, ◌++◌, List, true, All, length, map, min, IfOk, OnErr, OnOk};
ghost use Rattle.otlp_model.specs.declared.value.Pair.{Pair};
ghost use Rattle.otlp_model.specs.Limits.{weight_limit, count_cap, part_weight};
ghost use Rattle.otlp_model.specs.Weight.{total, weight_of_pair, weight_of_value};
ghost use Rattle.otap_cells.specs.Continuing.{has_attributes};
ghost use Rattle.otap_cells.specs.Limits.{wide_ids};
ghost use Rattle.otap_groups.specs.Weighing.{cells_weight, parts_weight};
ghost use Rattle.otap_groups.specs.Flat.{placed};
ghost use Rattle.otap_attrs.specs.Inside.{HasNested, seen_placed};
ghost use Rattle.otap_attrs.specs.Tables.{attribute_table, beside_kind, where_rows};
ghost use Rattle.otap_attrs.specs.Values.{pair_cells, value_cells};

use crate::pairs::{PlacedPair, place_pairs};
use crate::sorting::coded_table;
use cbor_values::len_value;
use otap_cells::{Kind, LogicalTable, ROW_UNIT, Rows};
use otlp_model::{
    CAP, Event, Exemplar, HistPoint, Items, Link, LogRecord, Pair, Point, Resource, Scope, Span,
    SumPoint, Value, add_capped, capped_len,
};
use std::alloc::{AllocError, Global};

/// What has attributes.
pub trait Attributed {
    ghost pairs: { Self → List Pair };

    /// The attributes.
    fn pairs(&self) -> &Items<Pair>
        ensures { result.now ≡ pairs self.now };
}

impl Attributed for Resource {
    ghost pairs = { λ s. s.pairs };

    fn pairs(&self) -> &Items<Pair> {
        &self.pairs
    }
}

impl Attributed for Scope {
    ghost pairs = { λ s. s.pairs };

    fn pairs(&self) -> &Items<Pair> {
        &self.pairs
    }
}

impl Attributed for LogRecord {
    ghost pairs = { λ s. s.pairs };

    fn pairs(&self) -> &Items<Pair> {
        &self.pairs
    }
}

impl Attributed for Span {
    ghost pairs = { λ s. s.pairs };

    fn pairs(&self) -> &Items<Pair> {
        &self.pairs
    }
}

impl Attributed for Event {
    ghost pairs = { λ s. s.pairs };

    fn pairs(&self) -> &Items<Pair> {
        &self.pairs
    }
}

impl Attributed for Link {
    ghost pairs = { λ s. s.pairs };

    fn pairs(&self) -> &Items<Pair> {
        &self.pairs
    }
}

impl Attributed for Point {
    ghost pairs = { λ s. s.pairs };

    fn pairs(&self) -> &Items<Pair> {
        &self.pairs
    }
}

impl Attributed for HistPoint {
    ghost pairs = { λ s. s.pairs };

    fn pairs(&self) -> &Items<Pair> {
        &self.pairs
    }
}

impl Attributed for SumPoint {
    ghost pairs = { λ s. s.pairs };

    fn pairs(&self) -> &Items<Pair> {
        &self.pairs
    }
}

impl Attributed for Exemplar {
    ghost pairs = { λ s. s.pairs };

    fn pairs(&self) -> &Items<Pair> {
        &self.pairs
    }
}

/// The table of the attributes of some parents, whose numbers are their places. Takes n log n for n attributes.
#[tactic(auto, unfolding(crate::specs::Tables::attribute_table))]
pub fn write_attributes<P: Attributed>(
    alloc: Global,
    kind: Kind,
    parents: &[&P],
) -> Result<LogicalTable, AllocError>
    requires kind { has_attributes kind ≡ true }
    requires few { length parents.now ≤ wide_ids }
    requires weight { All (λ parent. total part_weight weight_of_pair (P.pairs parent.now) ≤ weight_limit) parents.now }
    ensures { IfOk result (λ table. table ≡ attribute_table kind (map (λ parent. P.pairs parent.now) parents.now)) }
{
    let placed = placed_of(alloc, parents)?;
    coded_table(alloc, kind, &placed)
}

/// The pairs of the parents, one parent after the other.
#[tactic(auto, unfolding(otap_groups::specs::Flat::placed))]
fn placed_of<'a, P: Attributed>(
    alloc: Global,
    parents: &[&'a P],
) -> Result<Vec<PlacedPair<'a>>, AllocError>
    requires few { length parents.now ≤ wide_ids }
    requires weight { All (λ parent. total part_weight weight_of_pair (P.pairs parent.now) ≤ weight_limit) parents.now }
    ensures are { IfOk result (λ found. map seen_placed found.items ≡ placed (map (λ parent. P.pairs parent.now) parents.now)) }
    ensures nested { IfOk result (λ found. All HasNested found.items) }
{
    let mut found = Vec::with_capacity(alloc, pairs_in(parents))?;
    'parents: for place in 0..parents.len() {
        let pairs = parents[place].pairs();
        place_pairs(alloc, &mut found, place as u32, pairs)?;
    }
    Ok(found)
}

/// How many pairs the parents have.
fn pairs_in<P: Attributed>(parents: &[&P]) -> usize {
    parents.iter().fold(
        0,
        |count, parent| parent.pairs().len().saturating_add(count),
    )
}

/// Appends a table beside its kind, where it has rows.
pub fn push_filled(
    tables: &mut Vec<(Kind, LogicalTable)>,
    table: LogicalTable,
) -> Result<(), AllocError>
    ensures ok { OnOk result (tables.new.items ≡ tables.old.items ++ map beside_kind (where_rows table)) }
    ensures err { OnErr result (tables.new.items ≡ tables.old.items) }
{
    if table.rows() == 0 {
        return Ok(());
    }
    let kind = table.kind();
    tables.push((kind, table))?;
    Ok(())
}

/// What the rows of attributes weigh, or `CAP` where it is more. It writes nothing.
pub fn attributes_weight(pairs: &Items<Pair>) -> u64
    requires { total part_weight weight_of_pair pairs.now ≤ weight_limit }
    ensures { result ≡ min (parts_weight pair_cells pairs.now) count_cap }
{
    let mut weight = 0;
    'pairs: for pair in pairs.as_slice() {
        weight = add_capped(weight, add_capped(ROW_UNIT, pair_weight(pair)));
    }
    weight
}

#[tactic(auto, using(crate::proofs::AttributesWeighed::pair_weighs))]
fn pair_weight(pair: &Pair) -> u64
    requires { weight_of_value pair.now.value ≤ weight_limit }
    ensures { result ≡ min (cells_weight (pair_cells pair.now)) count_cap }
{
    add_capped(
        capped_len(pair.key.as_slice()),
        value_cells_weight(&pair.value),
    )
}

/// The bytes of the cells that a value is written in, or `CAP` where they are more. It writes nothing.
#[tactic(auto, using(crate::proofs::AttributesWeighed::empty_weighs, crate::proofs::AttributesWeighed::str_weighs, crate::proofs::AttributesWeighed::bool_weighs, crate::proofs::AttributesWeighed::int_weighs, crate::proofs::AttributesWeighed::double_weighs, crate::proofs::AttributesWeighed::bytes_weighs, crate::proofs::AttributesWeighed::array_weighs, crate::proofs::AttributesWeighed::map_weighs))]
pub fn value_cells_weight(value: &Value) -> u64
    requires { weight_of_value value.now ≤ weight_limit }
    ensures { result ≡ min (cells_weight (value_cells value.now)) count_cap }
{
    match value {
        Value::Empty | Value::Bool(_) | Value::Int(_) | Value::Double(_) => 0,
        Value::Str(text) => capped_len(text.as_slice()),
        Value::Bytes(octets) => capped_len(octets.as_slice()),
        Value::Map(_) | Value::Array(_) => len_value(value).min(CAP),
    }
}
