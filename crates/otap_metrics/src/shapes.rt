//! The points of a metric, by its shape.
ghost use Rattle.std.specs.Prelude.{◌≡◌};
ghost use Rattle.otap_metrics.specs.Metrics.{hist_points_of, points_of, summary_points_of};

use otap_groups::PartsOf;
use otlp_model::{HistPoint, Metric, Point, Shape, SumPoint};

/// The points of metrics that are gauges or sums.
#[derive(Clone, Copy, Debug)]
pub(crate) struct NumberPointsOf;

impl PartsOf for NumberPointsOf {
    type Parent = Metric;

    type Part = Point;

    ghost parts = { λ metric. points_of metric.shape };

    fn parts<'a>(&self, metric: &'a Metric) -> &'a [Point] {
        points_of(&metric.shape)
    }
}

/// The points of metrics that are histograms.
#[derive(Clone, Copy, Debug)]
pub(crate) struct HistPointsOf;

impl PartsOf for HistPointsOf {
    type Parent = Metric;

    type Part = HistPoint;

    ghost parts = { λ metric. hist_points_of metric.shape };

    fn parts<'a>(&self, metric: &'a Metric) -> &'a [HistPoint] {
        hist_points_of(&metric.shape)
    }
}

/// The points of metrics that are summaries.
#[derive(Clone, Copy, Debug)]
pub(crate) struct SumPointsOf;

impl PartsOf for SumPointsOf {
    type Parent = Metric;

    type Part = SumPoint;

    ghost parts = { λ metric. summary_points_of metric.shape };

    fn parts<'a>(&self, metric: &'a Metric) -> &'a [SumPoint] {
        summary_points_of(&metric.shape)
    }
}

/// The points of a gauge or a sum.
pub(crate) fn points_of(shape: &Shape) -> &[Point]
    ensures { result.now ≡ points_of shape.now }
{
    match shape {
        Shape::Gauge(points) => points.as_slice(),
        Shape::Sum { points, .. } => points.as_slice(),
        Shape::Empty | Shape::Histogram { .. } | Shape::Summary(_) => &[],
    }
}

/// The points of a histogram.
pub(crate) fn hist_points_of(shape: &Shape) -> &[HistPoint]
    ensures { result.now ≡ hist_points_of shape.now }
{
    match shape {
        Shape::Histogram { points, .. } => points.as_slice(),
        Shape::Empty | Shape::Gauge(_) | Shape::Sum { .. } | Shape::Summary(_) => &[],
    }
}

/// The points of a summary.
pub(crate) fn summary_points_of(shape: &Shape) -> &[SumPoint]
    ensures { result.now ≡ summary_points_of shape.now }
{
    match shape {
        Shape::Summary(points) => points.as_slice(),
        Shape::Empty | Shape::Gauge(_) | Shape::Sum { .. } | Shape::Histogram { .. } => &[],
    }
}
