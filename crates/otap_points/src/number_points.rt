//! The points of gauges and sums: their rows read, written and weighed.
ghost use Rattle.std.specs.Prelude.{◌≡◌, map, drop};
ghost use Rattle.otlp_model.specs.Weight.{weight_of_exemplar, weight_of_pair, weight_of_point};
ghost use Rattle.otlp_model.specs.declared.metrics.Exemplar.{Exemplar};
ghost use Rattle.otlp_model.specs.declared.value.Pair.{Pair};
ghost use Rattle.otap_cells.specs.declared.payload.Kind.TheVariants as table;
ghost use Rattle.otap_points.specs.Points.{point_cells, point_of};
ghost use Rattle.otap_points.specs.Weighing.{point_weight};
ghost use Rattle.otap_points.specs.Writable.{CanWritePoint};

use crate::columns::point;
use crate::exemplars::ExemplarWeights;
use crate::numbers::{double_value, id_cell, int_value, measured_at};
use otap_attrs::attributes_weight;
use otap_cells::{Kind, LogicalTable, ROW_UNIT, Rows, bits_cell, bits_in, number_cell, number_in};
use otap_groups::{Lookup, PartWeights, PartWriter, RowReader, part_rows_weight};
use otlp_model::{Exemplar, Pair, Point, add_capped, sum_capped};
use std::alloc::{AllocError, Global};

/// The points of gauges and sums of a table's rows.
#[derive(Drop)]
pub struct Points<'a, R: Rows, P: Lookup<Child = Pair>, X: Lookup<Child = Exemplar>> {
    pub rows: &'a R,
    pub pairs: P,
    pub exemplars: X,
    ghost of_points: { (R.table rows.now).kind ≡ table.NumberPoints },
    ghost pairs_weighed: { (pair : Pair) → P.weigh pair ≡ weight_of_pair pair },
    ghost exemplars_weighed: { (exemplar : Exemplar) → X.weigh exemplar ≡ weight_of_exemplar exemplar },
}

impl<R: Rows, P: Lookup<Child = Pair>, X: Lookup<Child = Exemplar>> RowReader
    for Points<'_, R, P, X> {
    type Item = Point;

    ghost cells = { λ s. map (drop 2) (R.table s.rows.now).rows };

    ghost item = { λ s id own. point_of own (P.finds s.pairs id) (X.finds s.exemplars id) };

    ghost weigh = { weight_of_point };

    #[tactic(auto, unfolding(otap_cells::specs::Columns::number_points))]
    fn read(&self, alloc: Global, id: Option<u32>, row: usize) -> Result<Point, AllocError> {
        let at = row as u64;
        let value = measured_at(self.rows, point::VALUE, at);
        Ok(Point {
            start: bits_in(self.rows, point::START, at),
            time: bits_in(self.rows, point::TIME, at),
            value,
            flags: number_in(self.rows, point::FLAGS, at),
            pairs: self.pairs.of(alloc, id)?,
            exemplars: self.exemplars.of(alloc, id)?,
        })
    }

    fn weight(&self, id: Option<u32>, _row: usize) -> u64 {
        sum_capped(&[self.pairs.weight_of(id), self.exemplars.weight_of(id)])
    }
}

/// Writes the rows of the points of gauges and sums.
#[derive(Clone, Copy, Debug)]
pub struct PointWriter;

impl PartWriter for PointWriter {
    type Part = Point;

    ghost kind = { λ s. table.NumberPoints };

    ghost cells_of = { point_cells };

    ghost CanWrite = { CanWritePoint };

    fn kind(&self) -> Kind {
        Kind::NumberPoints
    }

    fn goes_on(&self, _before: &Point, _point: &Point) -> bool {
        false
    }

    fn push(
        &self,
        table: &mut LogicalTable,
        id: u32,
        parent: u32,
        point: &Point,
    ) -> Result<(), AllocError> {
        table.push_cells(&[
            id_cell(id),
            id_cell(parent),
            bits_cell(point.start),
            bits_cell(point.time),
            int_value(&point.value),
            double_value(&point.value),
            number_cell(point.flags),
        ])
    }
}

/// Weighs the rows of points, whose own cells hold no bytes, and of all that is below them.
#[derive(Clone, Copy, Debug)]
pub struct PointWeights;

impl PartWeights for PointWeights {
    type Part = Point;

    ghost of_part = { point_weight };

    ghost CanWrite = { CanWritePoint };

    #[tactic(auto, using(crate::proofs::PointRows::point_weighs))]
    fn part(&self, point: &Point) -> u64 {
        let below = add_capped(
            attributes_weight(&point.pairs),
            part_rows_weight(&ExemplarWeights, point.exemplars.as_slice()),
        );
        add_capped(ROW_UNIT, below)
    }
}
