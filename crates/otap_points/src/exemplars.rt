//! Exemplars: their rows read, written and weighed, whichever points they belong to.
ghost use Rattle.std.specs.Prelude.{◌≡◌, List, false, map, min, drop};
ghost use Rattle.otlp_model.specs.Limits.{count_cap};
ghost use Rattle.otlp_model.specs.Weight.{weight_of_exemplar, weight_of_pair};
ghost use Rattle.otlp_model.specs.declared.value.Pair.{Pair};
ghost use Rattle.otap_cells.specs.Cells.{Cell};
ghost use Rattle.otap_cells.specs.declared.payload.Kind.TheVariants as table;
ghost use Rattle.otap_cells.specs.Columns.{columns_of, exemplars};
ghost use Rattle.otap_cells.specs.Continuing.{again_of};
ghost use Rattle.otap_groups.specs.Kinds.{IsPart};
ghost use Rattle.otap_groups.specs.Weighing.{cells_weight};
ghost use Rattle.otap_points.specs.Points.{exemplar_cells, exemplar_of};
ghost use Rattle.otap_points.specs.Weighing.{exemplar_weight};
ghost use Rattle.otap_points.specs.Writable.{CanWriteExemplar};

use crate::columns::exemplar;
use crate::numbers::{double_value, id_cell, int_value, measured_at};
use otap_attrs::attributes_weight;
use otap_cells::{
    Kind, LogicalTable, ROW_UNIT, Rows, bits_cell, bits_in, bytes_in, octets_cell, octets_in,
};
use otap_groups::{Lookup, PartWeights, PartWriter, PartsOf, RowReader};
use otlp_model::{Exemplar, HistPoint, Pair, Point, add_capped, sum_capped};
use std::alloc::{AllocError, Global};

/// The exemplars of a table's rows.
#[derive(Drop)]
pub struct Exemplars<'a, R: Rows, P: Lookup<Child = Pair>> {
    pub rows: &'a R,
    pub pairs: P,
    ghost of_exemplars: { columns_of (R.table rows.now).kind ≡ exemplars },
    ghost weighed: { (pair : Pair) → P.weigh pair ≡ weight_of_pair pair },
}

impl<R: Rows, P: Lookup<Child = Pair>> RowReader for Exemplars<'_, R, P> {
    type Item = Exemplar;

    ghost cells = { λ s. map (drop 2) (R.table s.rows.now).rows };

    ghost item = { λ s id own. exemplar_of own (P.finds s.pairs id) };

    ghost weigh = { weight_of_exemplar };

    #[tactic(auto, using(crate::proofs::PointColumns::exemplar_width))]
    fn read(&self, alloc: Global, id: Option<u32>, row: usize) -> Result<Exemplar, AllocError> {
        let at = row as u64;
        let value = measured_at(self.rows, exemplar::VALUE, at);
        Ok(Exemplar {
            time: bits_in(self.rows, exemplar::TIME, at),
            value,
            span_id: octets_in(alloc, self.rows, exemplar::SPAN_ID, at)?,
            trace_id: octets_in(alloc, self.rows, exemplar::TRACE_ID, at)?,
            pairs: self.pairs.of(alloc, id)?,
        })
    }

    #[tactic(auto, using(crate::proofs::PointColumns::exemplar_width))]
    fn weight(&self, id: Option<u32>, row: usize) -> u64 {
        let at = row as u64;
        sum_capped(&[
            bytes_in(self.rows, exemplar::SPAN_ID, at).len() as u64,
            bytes_in(self.rows, exemplar::TRACE_ID, at).len() as u64,
            self.pairs.weight_of(id),
        ])
    }
}

/// The exemplars of the points of gauges and sums.
#[derive(Clone, Copy, Debug)]
pub struct PointExemplars;

impl PartsOf for PointExemplars {
    type Parent = Point;

    type Part = Exemplar;

    ghost parts = { λ point. point.exemplars };

    fn parts<'a>(&self, point: &'a Point) -> &'a [Exemplar] {
        point.exemplars.as_slice()
    }
}

/// The exemplars of the points of histograms.
#[derive(Clone, Copy, Debug)]
pub struct HistPointExemplars;

impl PartsOf for HistPointExemplars {
    type Parent = HistPoint;

    type Part = Exemplar;

    ghost parts = { λ point. point.exemplars };

    fn parts<'a>(&self, point: &'a HistPoint) -> &'a [Exemplar] {
        point.exemplars.as_slice()
    }
}

/// Writes the rows of the exemplars of a kind of points.
#[derive(Clone, Copy, Debug)]
pub struct ExemplarWriter {
    /// The kind of the table, whose rows are exemplars.
    pub kind: Kind,
    ghost columns: { columns_of kind ≡ exemplars },
    ghost part: { IsPart kind },
    ghost apart: { (before next : List Cell) → again_of kind before next ≡ false },
}

impl ExemplarWriter {
    /// The writer of the exemplars of the points of gauges and sums.
    pub fn of_points() -> ExemplarWriter
        ensures { result.kind ≡ table.NumberExemplars }
    {
        ExemplarWriter {
            kind: Kind::NumberExemplars,
        }
    }

    /// The writer of the exemplars of the points of histograms.
    pub fn of_hist_points() -> ExemplarWriter
        ensures { result.kind ≡ table.HistExemplars }
    {
        ExemplarWriter {
            kind: Kind::HistExemplars,
        }
    }
}

impl PartWriter for ExemplarWriter {
    type Part = Exemplar;

    ghost kind = { λ s. s.kind };

    ghost cells_of = { exemplar_cells };

    ghost CanWrite = { CanWriteExemplar };

    fn kind(&self) -> Kind {
        self.kind
    }

    fn goes_on(&self, _before: &Exemplar, _exemplar: &Exemplar) -> bool {
        false
    }

    fn push(
        &self,
        table: &mut LogicalTable,
        id: u32,
        parent: u32,
        exemplar: &Exemplar,
    ) -> Result<(), AllocError> {
        table.push_cells(&[
            id_cell(id),
            id_cell(parent),
            bits_cell(exemplar.time),
            int_value(&exemplar.value),
            double_value(&exemplar.value),
            octets_cell(&exemplar.span_id),
            octets_cell(&exemplar.trace_id),
        ])
    }
}

/// Weighs the rows of exemplars and of their attributes.
#[derive(Clone, Copy, Debug)]
pub struct ExemplarWeights;

impl PartWeights for ExemplarWeights {
    type Part = Exemplar;

    ghost of_part = { exemplar_weight };

    ghost CanWrite = { CanWriteExemplar };

    fn part(&self, exemplar: &Exemplar) -> u64 {
        let own = add_capped(ROW_UNIT, exemplar_cells_weight(exemplar));
        add_capped(own, attributes_weight(&exemplar.pairs))
    }
}

/// How many bytes an exemplar's own cells have, or `CAP` where they have more.
fn exemplar_cells_weight(exemplar: &Exemplar) -> u64
    ensures { result ≡ min (cells_weight (exemplar_cells exemplar.now)) count_cap }
{
    sum_capped(&[
        exemplar.span_id.len() as u64,
        exemplar.trace_id.len() as u64,
    ])
}
