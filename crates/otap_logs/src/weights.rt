//! What the tables of a request of logs weigh, without making them.
ghost use Rattle.std.specs.Prelude.{◌≡◌, ◌≤◌, ◌+◌, min};
ghost use Rattle.otlp_model.specs.Limits.{weight_limit, count_cap, part_weight};
ghost use Rattle.otlp_model.specs.Profile.{IsProfile};
ghost use Rattle.otlp_model.specs.Weight.{total, weight_of, weight_of_pair};
ghost use Rattle.otlp_model.specs.declared.request.Request.TheVariants.{Logs};
ghost use Rattle.otap_cells.specs.Weights.{weight_of_tables};
ghost use Rattle.otap_groups.specs.Weighing.{cells_weight, parts_weight};
ghost use Rattle.otap_attrs.specs.Values.{pair_cells};
ghost use Rattle.otap_logs.specs.Records.{record_cells};
ghost use Rattle.otap_logs.specs.Tables.{tables_of_logs};
ghost use Rattle.otap_logs.specs.Writable.{CanWriteRecord};

use crate::writing::record_weight;
use otap_attrs::attributes_weight;
use otap_groups::{RowWeights, rows_weight};
use otlp_model::{Items, LogRecord, Resource, ResourceGroup, Scope, add_capped};

/// Weighs the rows of log records and of attributes.
#[derive(Clone, Copy, Debug)]
struct LogWeights;

impl RowWeights for LogWeights {
    type Item = LogRecord;

    ghost of_resource = { λ resource. parts_weight pair_cells resource.pairs };

    ghost of_scope = { λ scope. parts_weight pair_cells scope.pairs };

    ghost of_item = { λ log. cells_weight (record_cells log) + parts_weight pair_cells log.pairs };

    ghost CanWriteResource = { λ resource. total part_weight weight_of_pair resource.pairs ≤ weight_limit };

    ghost CanWriteScope = { λ scope. total part_weight weight_of_pair scope.pairs ≤ weight_limit };

    ghost CanWriteItem = { CanWriteRecord };

    fn resource(&self, resource: &Resource) -> u64 {
        attributes_weight(&resource.pairs)
    }

    fn scope(&self, scope: &Scope) -> u64 {
        attributes_weight(&scope.pairs)
    }

    fn item(&self, log: &LogRecord) -> u64 {
        add_capped(record_weight(log), attributes_weight(&log.pairs))
    }
}

/// The row weight of the tables of a request of logs, or `CAP` where it is more. It makes no table.
pub fn table_weight(groups: &Items<ResourceGroup<LogRecord>>) -> u64
    requires profile { IsProfile (Logs groups.now) }
    requires weight { weight_of (Logs groups.now) ≤ weight_limit }
    ensures { result ≡ min (weight_of_tables (tables_of_logs groups.now)) count_cap }
{
    rows_weight(&LogWeights, groups.as_slice())
}
