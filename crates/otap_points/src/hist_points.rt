//! The points of histograms: their rows read, written and weighed.
ghost use Rattle.std.specs.Prelude.{◌≡◌, map, min, drop};
ghost use Rattle.otlp_model.specs.Limits.{count_cap};
ghost use Rattle.otlp_model.specs.Weight.{weight_of_exemplar, weight_of_hist_point, weight_of_pair};
ghost use Rattle.otlp_model.specs.declared.metrics.Exemplar.{Exemplar};
ghost use Rattle.otlp_model.specs.declared.value.Pair.{Pair};
ghost use Rattle.otap_cells.specs.declared.payload.Kind.TheVariants as table;
ghost use Rattle.otap_groups.specs.Weighing.{cells_weight};
ghost use Rattle.otap_points.specs.Points.{hist_point_cells, hist_point_of};
ghost use Rattle.otap_points.specs.Weighing.{hist_point_weight};
ghost use Rattle.otap_points.specs.Writable.{CanWriteHistPoint};

use crate::columns::hist_point;
use crate::exemplars::ExemplarWeights;
use crate::number_lists::{bytes_of, list_at, list_cell, list_weight};
use crate::numbers::{id_cell, optional_at, optional_cell};
use otap_attrs::attributes_weight;
use otap_cells::{
    Kind, LogicalTable, ROW_UNIT, Rows, bits_cell, bits_in, bytes_in, number_cell, number_in,
};
use otap_groups::{Lookup, PartWeights, PartWriter, RowReader, part_rows_weight};
use otlp_model::{Exemplar, HistPoint, Pair, add_capped, sum_capped};
use std::alloc::{AllocError, Global};

/// The points of histograms of a table's rows.
#[derive(Drop)]
pub struct HistPoints<'a, R: Rows, P: Lookup<Child = Pair>, X: Lookup<Child = Exemplar>> {
    pub rows: &'a R,
    pub pairs: P,
    pub exemplars: X,
    ghost of_points: { (R.table rows.now).kind ≡ table.HistPoints },
    ghost pairs_weighed: { (pair : Pair) → P.weigh pair ≡ weight_of_pair pair },
    ghost exemplars_weighed: { (exemplar : Exemplar) → X.weigh exemplar ≡ weight_of_exemplar exemplar },
}

impl<R: Rows, P: Lookup<Child = Pair>, X: Lookup<Child = Exemplar>> RowReader
    for HistPoints<'_, R, P, X> {
    type Item = HistPoint;

    ghost cells = { λ s. map (drop 2) (R.table s.rows.now).rows };

    ghost item = { λ s id own. hist_point_of own (P.finds s.pairs id) (X.finds s.exemplars id) };

    ghost weigh = { weight_of_hist_point };

    #[tactic(auto, unfolding(otap_cells::specs::Columns::hist_points))]
    fn read(&self, alloc: Global, id: Option<u32>, row: usize) -> Result<HistPoint, AllocError> {
        let at = row as u64;
        Ok(HistPoint {
            start: bits_in(self.rows, hist_point::START, at),
            time: bits_in(self.rows, hist_point::TIME, at),
            count: bits_in(self.rows, hist_point::COUNT, at),
            sum: optional_at(self.rows, hist_point::SUM, at),
            buckets: list_at(alloc, self.rows, hist_point::BUCKETS, at)?,
            bounds: list_at(alloc, self.rows, hist_point::BOUNDS, at)?,
            min: optional_at(self.rows, hist_point::MIN, at),
            max: optional_at(self.rows, hist_point::MAX, at),
            flags: number_in(self.rows, hist_point::FLAGS, at),
            pairs: self.pairs.of(alloc, id)?,
            exemplars: self.exemplars.of(alloc, id)?,
        })
    }

    #[tactic(auto, unfolding(otap_cells::specs::Columns::hist_points))]
    fn weight(&self, id: Option<u32>, row: usize) -> u64 {
        let at = row as u64;
        sum_capped(&[
            list_weight(bytes_in(self.rows, hist_point::BUCKETS, at).len() / 8),
            list_weight(bytes_in(self.rows, hist_point::BOUNDS, at).len() / 8),
            self.pairs.weight_of(id),
            self.exemplars.weight_of(id),
        ])
    }
}

/// Writes the rows of the points of histograms.
#[derive(Clone, Copy)]
pub struct HistPointWriter {
    pub alloc: Global,
}

impl PartWriter for HistPointWriter {
    type Part = HistPoint;

    ghost kind = { λ s. table.HistPoints };

    ghost cells_of = { hist_point_cells };

    ghost CanWrite = { CanWriteHistPoint };

    fn kind(&self) -> Kind {
        Kind::HistPoints
    }

    fn goes_on(&self, _before: &HistPoint, _point: &HistPoint) -> bool {
        false
    }

    fn push(
        &self,
        table: &mut LogicalTable,
        id: u32,
        parent: u32,
        point: &HistPoint,
    ) -> Result<(), AllocError> {
        let buckets = bytes_of(self.alloc, point.buckets.as_slice())?;
        let bounds = bytes_of(self.alloc, point.bounds.as_slice())?;
        table.push_cells(&[
            id_cell(id),
            id_cell(parent),
            bits_cell(point.start),
            bits_cell(point.time),
            bits_cell(point.count),
            list_cell(&buckets),
            list_cell(&bounds),
            optional_cell(point.sum),
            number_cell(point.flags),
            optional_cell(point.min),
            optional_cell(point.max),
        ])
    }
}

/// Weighs the rows of the points of histograms and of all that is below them.
#[derive(Clone, Copy, Debug)]
pub struct HistPointWeights;

impl PartWeights for HistPointWeights {
    type Part = HistPoint;

    ghost of_part = { hist_point_weight };

    ghost CanWrite = { CanWriteHistPoint };

    fn part(&self, point: &HistPoint) -> u64 {
        let own = add_capped(ROW_UNIT, hist_cells_weight(point));
        let below = add_capped(
            attributes_weight(&point.pairs),
            part_rows_weight(&ExemplarWeights, point.exemplars.as_slice()),
        );
        add_capped(own, below)
    }
}

/// How many bytes a point's own cells have, or `CAP` where they have more.
fn hist_cells_weight(point: &HistPoint) -> u64
    ensures { result ≡ min (cells_weight (hist_point_cells point.now)) count_cap }
{
    add_capped(
        list_weight(point.buckets.len()),
        list_weight(point.bounds.len()),
    )
}
