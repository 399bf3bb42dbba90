//! The points of summaries: their rows read, written and weighed.
ghost use Rattle.std.specs.Prelude.{◌≡◌, map, min, drop};
ghost use Rattle.otlp_model.specs.Limits.{count_cap};
ghost use Rattle.otlp_model.specs.Weight.{weight_of_pair, weight_of_sum_point};
ghost use Rattle.otlp_model.specs.declared.value.Pair.{Pair};
ghost use Rattle.otap_cells.specs.declared.payload.Kind.TheVariants as table;
ghost use Rattle.otap_groups.specs.Weighing.{cells_weight};
ghost use Rattle.otap_points.specs.Points.{sum_point_cells, sum_point_of};
ghost use Rattle.otap_points.specs.Weighing.{summary_point_weight};
ghost use Rattle.otap_points.specs.Writable.{CanWriteSumPoint};

use crate::columns::sum_point;
use crate::number_lists::{
    list_cell, list_weight, quantile_bytes, quantiles_in, quantiles_weight, value_bytes,
};
use crate::numbers::id_cell;
use otap_attrs::attributes_weight;
use otap_cells::{
    Kind, LogicalTable, ROW_UNIT, Rows, bits_cell, bits_in, bytes_in, number_cell, number_in,
};
use otap_groups::{Lookup, PartWeights, PartWriter, RowReader};
use otlp_model::{Pair, SumPoint, add_capped, sum_capped};
use std::alloc::{AllocError, Global};

/// The points of summaries of a table's rows.
#[derive(Drop)]
pub struct SumPoints<'a, R: Rows, P: Lookup<Child = Pair>> {
    pub rows: &'a R,
    pub pairs: P,
    ghost of_points: { (R.table rows.now).kind ≡ table.SummaryPoints },
    ghost weighed: { (pair : Pair) → P.weigh pair ≡ weight_of_pair pair },
}

impl<R: Rows, P: Lookup<Child = Pair>> RowReader for SumPoints<'_, R, P> {
    type Item = SumPoint;

    ghost cells = { λ s. map (drop 2) (R.table s.rows.now).rows };

    ghost item = { λ s id own. sum_point_of own (P.finds s.pairs id) };

    ghost weigh = { weight_of_sum_point };

    #[tactic(auto, unfolding(otap_cells::specs::Columns::summary_points))]
    fn read(&self, alloc: Global, id: Option<u32>, row: usize) -> Result<SumPoint, AllocError> {
        let at = row as u64;
        let asked = bytes_in(self.rows, sum_point::QUANTILES, at);
        let values = bytes_in(self.rows, sum_point::VALUES, at);
        Ok(SumPoint {
            start: bits_in(self.rows, sum_point::START, at),
            time: bits_in(self.rows, sum_point::TIME, at),
            count: bits_in(self.rows, sum_point::COUNT, at),
            sum: bits_in(self.rows, sum_point::SUM, at),
            quantiles: quantiles_in(alloc, asked, values)?,
            flags: number_in(self.rows, sum_point::FLAGS, at),
            pairs: self.pairs.of(alloc, id)?,
        })
    }

    #[tactic(auto, unfolding(otap_cells::specs::Columns::summary_points))]
    fn weight(&self, id: Option<u32>, row: usize) -> u64 {
        let at = row as u64;
        let asked = bytes_in(self.rows, sum_point::QUANTILES, at).len() / 8;
        let values = bytes_in(self.rows, sum_point::VALUES, at).len() / 8;
        sum_capped(&[quantiles_weight(asked, values), self.pairs.weight_of(id)])
    }
}

/// Writes the rows of the points of summaries.
#[derive(Clone, Copy)]
pub struct SumPointWriter {
    pub alloc: Global,
}

impl PartWriter for SumPointWriter {
    type Part = SumPoint;

    ghost kind = { λ s. table.SummaryPoints };

    ghost cells_of = { sum_point_cells };

    ghost CanWrite = { CanWriteSumPoint };

    fn kind(&self) -> Kind {
        Kind::SummaryPoints
    }

    fn goes_on(&self, _before: &SumPoint, _point: &SumPoint) -> bool {
        false
    }

    fn push(
        &self,
        table: &mut LogicalTable,
        id: u32,
        parent: u32,
        point: &SumPoint,
    ) -> Result<(), AllocError> {
        let quantiles = quantile_bytes(self.alloc, point.quantiles.as_slice())?;
        let values = value_bytes(self.alloc, point.quantiles.as_slice())?;
        table.push_cells(&[
            id_cell(id),
            id_cell(parent),
            bits_cell(point.start),
            bits_cell(point.time),
            bits_cell(point.count),
            bits_cell(point.sum),
            list_cell(&quantiles),
            list_cell(&values),
            number_cell(point.flags),
        ])?;
        Ok(())
    }
}

/// Weighs the rows of the points of summaries and of their attributes.
#[derive(Clone, Copy, Debug)]
pub struct SumPointWeights;

impl PartWeights for SumPointWeights {
    type Part = SumPoint;

    ghost of_part = { summary_point_weight };

    ghost CanWrite = { CanWriteSumPoint };

    fn part(&self, point: &SumPoint) -> u64 {
        let own = add_capped(ROW_UNIT, summary_cells_weight(point));
        add_capped(own, attributes_weight(&point.pairs))
    }
}

/// How many bytes a point's own cells have, or `CAP` where they have more.
fn summary_cells_weight(point: &SumPoint) -> u64
    ensures { result ≡ min (cells_weight (sum_point_cells point.now)) count_cap }
{
    let list = list_weight(point.quantiles.len());
    add_capped(list, list)
}
