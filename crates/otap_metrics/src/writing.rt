//! The tables of a request of metrics.
ghost use Rattle.std.specs.Prelude.{◌≡◌, ◌≤◌, min, IfOk};
ghost use Rattle.otlp_model.specs.Limits.{weight_limit, count_cap};
ghost use Rattle.otlp_model.specs.Profile.{IsProfile};
ghost use Rattle.otlp_model.specs.Weight.{weight_of};
ghost use Rattle.otlp_model.specs.declared.request.Request.TheVariants.{Metrics};
ghost use Rattle.otap_cells.specs.declared.payload.Kind.TheVariants as table;
ghost use Rattle.otap_groups.specs.Weighing.{cells_weight};
ghost use Rattle.otap_metrics.specs.Metrics.{is_monotonic, metric_cells, temporality_of, shape_number};
ghost use Rattle.otap_metrics.specs.Tables.{tables_of_metrics};
ghost use Rattle.otap_metrics.specs.Writable.{CanWriteMetric};

use crate::shapes::{HistPointsOf, NumberPointsOf, SumPointsOf};
use otap_attrs::{add_attributes, add_parts, add_resources, add_scopes};
use otap_cells::{Kind, LogicalTable, TableSet, flag_cell, int_cell, number_cell, text_cell};
use otap_groups::{FrontCells, RowWriter, flatten, items_of, parts_of, write_rows};
use otap_points::{
    ExemplarWriter, HistPointExemplars, HistPointWriter, PointExemplars, PointWriter,
    SumPointWriter,
};
use otlp_model::{Items, Metric, ResourceGroup, Shape, sum_capped};
use std::alloc::{AllocError, Global};

/// Writes the rows of metrics.
#[derive(Clone, Copy, Debug)]
pub(crate) struct MetricWriter;

impl RowWriter for MetricWriter {
    type Item = Metric;

    ghost kind = { table.Metrics };

    ghost cells_of = { metric_cells };

    ghost CanWrite = { CanWriteMetric };

    fn kind(&self) -> Kind {
        Kind::Metrics
    }

    fn push<'a>(
        &self,
        table: &mut LogicalTable,
        front: &FrontCells<'a>,
        metric: &'a Metric,
    ) -> Result<(), AllocError> {
        table.push_cells(&[
            front.id,
            front.resource_id,
            front.resource_url,
            front.resource_dropped,
            front.scope_id,
            front.scope_name,
            front.scope_version,
            front.scope_dropped,
            front.schema_url,
            number_cell(type_of(&metric.shape)),
            text_cell(&metric.name),
            text_cell(&metric.description),
            text_cell(&metric.unit),
            int_cell(i64::from(temporality_of(&metric.shape))),
            flag_cell(is_monotonic(&metric.shape)),
        ])
    }
}

/// How many bytes a metric's own cells have, or `CAP` where they have more.
pub(crate) fn metric_cells_weight(metric: &Metric) -> u64
    ensures { result ≡ min (cells_weight (metric_cells metric.now)) count_cap }
{
    sum_capped(&[
        metric.name.len() as u64,
        metric.description.len() as u64,
        metric.unit.len() as u64,
    ])
}

/// The number of a shape. 4 would be an exponential histogram, which no metric of the model is.
fn type_of(shape: &Shape) -> u32
    ensures { result ≡ shape_number shape.now }
{
    match shape {
        Shape::Empty => 0,
        Shape::Gauge(_) => 1,
        Shape::Sum { .. } => 2,
        Shape::Histogram { .. } => 3,
        Shape::Summary(_) => 5,
    }
}

fn temporality_of(shape: &Shape) -> i32
    ensures { result ≡ temporality_of shape.now }
{
    match shape {
        Shape::Sum { temporality, .. } | Shape::Histogram { temporality, .. } => *temporality,
        Shape::Empty | Shape::Gauge(_) | Shape::Summary(_) => 0,
    }
}

fn is_monotonic(shape: &Shape) -> bool
    ensures { result ≡ is_monotonic shape.now }
{
    match shape {
        Shape::Sum { monotonic, .. } => *monotonic,
        Shape::Empty | Shape::Gauge(_) | Shape::Histogram { .. } | Shape::Summary(_) => false,
    }
}

/// The tables of a request of metrics: its metrics, then the tables below them, where they have rows, by their payload types.
/// Takes n log n for n attributes.
pub fn tables_of(
    alloc: Global,
    groups: &Items<ResourceGroup<Metric>>,
) -> Result<TableSet<LogicalTable>, AllocError>
    requires profile { IsProfile (Metrics groups.now) }
    requires weight { weight_of (Metrics groups.now) ≤ weight_limit }
    ensures { IfOk result (λ set. set ≡ tables_of_metrics groups.now) }
{
    let groups = groups.as_slice();
    let rows = flatten(alloc, groups)?;
    let main = write_rows(alloc, &MetricWriter, &rows)?;
    let metrics = items_of(alloc, &rows)?;
    let points = parts_of(alloc, &NumberPointsOf, &metrics)?;
    let summary_points = parts_of(alloc, &SumPointsOf, &metrics)?;
    let hist_points = parts_of(alloc, &HistPointsOf, &metrics)?;
    let exemplars = parts_of(alloc, &PointExemplars, &points)?;
    let hist_exemplars = parts_of(alloc, &HistPointExemplars, &hist_points)?;
    let mut tables = Vec::new(alloc);
    tables.push((Kind::Metrics, main))?;
    add_resources(alloc, &mut tables, groups)?;
    add_scopes(alloc, &mut tables, groups)?;
    add_parts(alloc, &mut tables, &PointWriter, &points)?;
    add_parts(
        alloc,
        &mut tables,
        &SumPointWriter { alloc },
        &summary_points,
    )?;
    add_parts(alloc, &mut tables, &HistPointWriter { alloc }, &hist_points)?;
    add_attributes(alloc, &mut tables, Kind::NumberPointAttrs, &points)?;
    add_attributes(alloc, &mut tables, Kind::SummaryPointAttrs, &summary_points)?;
    add_attributes(alloc, &mut tables, Kind::HistPointAttrs, &hist_points)?;
    add_parts(alloc, &mut tables, &ExemplarWriter::of_points(), &exemplars)?;
    add_parts(
        alloc,
        &mut tables,
        &ExemplarWriter::of_hist_points(),
        &hist_exemplars,
    )?;
    add_attributes(alloc, &mut tables, Kind::NumberExemplarAttrs, &exemplars)?;
    add_attributes(alloc, &mut tables, Kind::HistExemplarAttrs, &hist_exemplars)?;
    Ok(TableSet { tables })
}
