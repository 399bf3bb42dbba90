//! Metrics, read from the rows of their table.
ghost use Rattle.std.specs.Prelude.{◌≡◌, ◌<◌, length, map, min, drop, IfOk};
ghost use Rattle.otlp_model.specs.Limits.{count_cap};
ghost use Rattle.otlp_model.specs.Weight.{weight_of_hist_point, weight_of_metric, weight_of_point, weight_of_shape, weight_of_sum_point};
ghost use Rattle.otlp_model.specs.declared.histograms.HistPoint.{HistPoint};
ghost use Rattle.otlp_model.specs.declared.histograms.SumPoint.{SumPoint};
ghost use Rattle.otlp_model.specs.declared.metrics.Point.{Point};
ghost use Rattle.otap_cells.specs.declared.payload.Kind.TheVariants as table;
ghost use Rattle.otap_metrics.specs.Metrics.{metric_of};
ghost use Rattle.otap_metrics.specs.Below.{below_by};

use crate::columns::metric;
use otap_cells::{Rows, bytes_in, flag_in, number_in, small_int_in, text_in};
use otap_groups::{Lookup, RowReader};
use otlp_model::{HistPoint, Metric, Point, Shape, SumPoint, sum_capped};
use std::alloc::{AllocError, Global};

/// The metrics of a table's rows.
#[derive(Drop)]
pub struct Metrics<
    'a,
    R: Rows,
    N: Lookup<Child = Point>,
    H: Lookup<Child = HistPoint>,
    S: Lookup<Child = SumPoint>,
> {
    pub rows: &'a R,
    pub points: N,
    pub hist_points: H,
    pub summary_points: S,
    ghost of_metrics: { (R.table rows.now).kind ≡ table.Metrics },
    ghost points_weighed: { (point : Point) → N.weigh point ≡ weight_of_point point },
    ghost hist_points_weighed: { (point : HistPoint) → H.weigh point ≡ weight_of_hist_point point },
    ghost summary_points_weighed: { (point : SumPoint) → S.weigh point ≡ weight_of_sum_point point },
}

impl<
    R: Rows,
    N: Lookup<Child = Point>,
    H: Lookup<Child = HistPoint>,
    S: Lookup<Child = SumPoint>,
> RowReader for Metrics<'_, R, N, H, S> {
    type Item = Metric;

    ghost cells = { λ s. map (drop 9) (R.table s.rows.now).rows };

    ghost item = { λ s id own. metric_of own (below_by (N.finds s.points) (H.finds s.hist_points) (S.finds s.summary_points) id) };

    ghost weigh = { weight_of_metric };

    #[tactic(auto, unfolding(otap_cells::specs::Columns::metrics))]
    fn read(&self, alloc: Global, id: Option<u32>, row: usize) -> Result<Metric, AllocError> {
        let at = row as u64;
        Ok(Metric {
            name: text_in(alloc, self.rows, metric::NAME, at)?,
            description: text_in(alloc, self.rows, metric::DESCRIPTION, at)?,
            unit: text_in(alloc, self.rows, metric::UNIT, at)?,
            shape: self.shape(alloc, id, at)?,
        })
    }

    #[tactic(auto, unfolding(otap_cells::specs::Columns::metrics))]
    fn weight(&self, id: Option<u32>, row: usize) -> u64 {
        let at = row as u64;
        sum_capped(&[
            bytes_in(self.rows, metric::NAME, at).len() as u64,
            bytes_in(self.rows, metric::DESCRIPTION, at).len() as u64,
            bytes_in(self.rows, metric::UNIT, at).len() as u64,
            self.shape_weight(id, at),
        ])
    }
}

impl<
    R: Rows,
    N: Lookup<Child = Point>,
    H: Lookup<Child = HistPoint>,
    S: Lookup<Child = SumPoint>,
> Metrics<'_, R, N, H, S> {
    ghost use Rattle.otap_metrics.specs.RowShapes.{shape_at};

    /// The shape of a row with its points.
    #[tactic(auto, unfolding(otap_cells::specs::Columns::metrics))]
    fn shape(&self, alloc: Global, id: Option<u32>, row: u64) -> Result<Shape, AllocError>
        requires { row < length (R.table self.now.rows.now).rows }
        ensures { IfOk result (λ shape. shape ≡ shape_at self.now id row) }
    {
        let temporality = small_int_in(self.rows, metric::TEMPORALITY, row);
        let shape = match number_in(self.rows, metric::TYPE, row) {
            1 => Shape::Gauge(self.points.of(alloc, id)?),
            2 => Shape::Sum {
                points: self.points.of(alloc, id)?,
                temporality,
                monotonic: flag_in(self.rows, metric::MONOTONIC, row),
            },
            3 => Shape::Histogram {
                points: self.hist_points.of(alloc, id)?,
                temporality,
            },
            5 => Shape::Summary(self.summary_points.of(alloc, id)?),
            _ => Shape::Empty,
        };
        Ok(shape)
    }

    /// What the shape of a row weighs, or `CAP` where it is more.
    #[tactic(auto, unfolding(otap_cells::specs::Columns::metrics))]
    fn shape_weight(&self, id: Option<u32>, row: u64) -> u64
        requires { row < length (R.table self.now.rows.now).rows }
        ensures { result ≡ min (weight_of_shape (shape_at self.now id row)) count_cap }
    {
        match number_in(self.rows, metric::TYPE, row) {
            1 | 2 => self.points.weight_of(id),
            3 => self.hist_points.weight_of(id),
            5 => self.summary_points.weight_of(id),
            _ => 0,
        }
    }
}
