//! What the tables of a request of metrics weigh, without making them.
ghost use Rattle.std.specs.Prelude.{◌≡◌, ◌≤◌, min};
ghost use Rattle.otlp_model.specs.Limits.{weight_limit, count_cap, part_weight};
ghost use Rattle.otlp_model.specs.Profile.{IsProfile};
ghost use Rattle.otlp_model.specs.Weight.{total, weight_of, weight_of_pair};
ghost use Rattle.otlp_model.specs.declared.request.Request.TheVariants.{Metrics};
ghost use Rattle.otap_cells.specs.Weights.{weight_of_tables};
ghost use Rattle.otap_groups.specs.Weighing.{parts_weight};
ghost use Rattle.otap_attrs.specs.Values.{pair_cells};
ghost use Rattle.otap_metrics.specs.Weighing.{metric_weight, points_weight};
ghost use Rattle.otap_metrics.specs.Tables.{tables_of_metrics};
ghost use Rattle.otap_metrics.specs.Writable.{CanWriteMetric};

use crate::shapes::{hist_points_of, points_of, summary_points_of};
use crate::writing::metric_cells_weight;
use otap_attrs::attributes_weight;
use otap_groups::{RowWeights, part_rows_weight, rows_weight};
use otap_points::{HistPointWeights, PointWeights, SumPointWeights};
use otlp_model::{Items, Metric, Resource, ResourceGroup, Scope, add_capped, sum_capped};

/// Weighs the cells of metrics and the rows of all that is below them.
#[derive(Clone, Copy, Debug)]
struct MetricWeights;

impl RowWeights for MetricWeights {
    type Item = Metric;

    ghost of_resource = { λ resource. parts_weight pair_cells resource.pairs };

    ghost of_scope = { λ scope. parts_weight pair_cells scope.pairs };

    ghost of_item = { metric_weight };

    ghost CanWriteResource = { λ resource. total part_weight weight_of_pair resource.pairs ≤ weight_limit };

    ghost CanWriteScope = { λ scope. total part_weight weight_of_pair scope.pairs ≤ weight_limit };

    ghost CanWriteItem = { CanWriteMetric };

    fn resource(&self, resource: &Resource) -> u64 {
        attributes_weight(&resource.pairs)
    }

    fn scope(&self, scope: &Scope) -> u64 {
        attributes_weight(&scope.pairs)
    }

    fn item(&self, metric: &Metric) -> u64 {
        add_capped(metric_cells_weight(metric), points_weight(metric))
    }
}

/// What the rows of the points of a metric and of all that is below them weigh, or `CAP` where it is more.
fn points_weight(metric: &Metric) -> u64
    requires { CanWriteMetric metric.now }
    ensures { result ≡ min (points_weight metric.now.shape) count_cap }
{
    sum_capped(&[
        part_rows_weight(&PointWeights, points_of(&metric.shape)),
        part_rows_weight(&HistPointWeights, hist_points_of(&metric.shape)),
        part_rows_weight(&SumPointWeights, summary_points_of(&metric.shape)),
    ])
}

/// The row weight of the tables of a request of metrics, or `CAP` where it is more. It makes no table.
pub fn table_weight(groups: &Items<ResourceGroup<Metric>>) -> u64
    requires profile { IsProfile (Metrics groups.now) }
    requires weight { weight_of (Metrics groups.now) ≤ weight_limit }
    ensures { result ≡ min (weight_of_tables (tables_of_metrics groups.now)) count_cap }
{
    rows_weight(&MetricWeights, groups.as_slice())
}
