//! What the definitions mean, as functions that do nothing: each ensures a law of requests.
ghost use Rattle.std.specs.Prelude.{◌≤◌, List, All};
ghost use Rattle.otlp_model.specs.Same.{Same};
ghost use Rattle.otlp_model.specs.Weight.{weight_of};
ghost use Rattle.otlp_model.specs.declared.groups.ResourceGroup.{ResourceGroup};
ghost use Rattle.otlp_model.specs.declared.metrics.Metric.{Metric};
ghost use Rattle.otlp_model.specs.declared.request.Request.TheVariants.{Metrics};
ghost use Rattle.otap_groups.specs.ProfileTables.{IsProfileTable};
ghost use Rattle.otap_metrics.specs.Laws.{AreInKindOrder, ForProfileMetrics, HasRowPerMetric, rebuilt_metrics};
ghost use Rattle.otap_metrics.specs.Requests.{AreCleanMetrics};
ghost use Rattle.otap_metrics.specs.Tables.{tables_of_metrics};

/// Law: the request that the tables of a request make means the same telemetry: the same items in the same order, each with its
/// resource and its scope, and with the same attributes in any order. How items are grouped isn't compared.
///
/// This law and those below whose clause begins with `ForProfile` are on requests that a program can hold, of the profile, and
/// within the weight limit.
pub fn tables_tell_the_same()
    ensures { ForProfileMetrics (λ groups. Same (Metrics groups) (Metrics (rebuilt_metrics groups))) }
{}

/// Law: nothing is wrong with the rows of the tables of a request.
pub fn tables_have_no_defects()
    ensures { ForProfileMetrics (λ groups. AreCleanMetrics (tables_of_metrics groups)) }
{}

/// Law: the tables of a request are tables of the profile, and have ids.
pub fn tables_can_be_written()
    ensures { ForProfileMetrics (λ groups. All IsProfileTable (tables_of_metrics groups)) }
{}

/// Law: the tables of a request are in the order of the signal's kinds: its main table, and of the others those that have
/// rows.
pub fn tables_by_type()
    ensures { (groups : List (ResourceGroup Metric)) → AreInKindOrder (tables_of_metrics groups) }
{}

/// Law: the main table of a request has as many rows as the request has metrics.
pub fn each_metric_has_a_row()
    ensures { (groups : List (ResourceGroup Metric)) → HasRowPerMetric (tables_of_metrics groups) groups }
{}

/// Law: the request that the tables of a request make weighs no more than the request. The tables themselves may weigh far more,
/// since each row has the texts of its resource and its scope: `table_weight` says how much.
pub fn rebuilt_is_no_heavier()
    ensures { ForProfileMetrics (λ groups. weight_of (Metrics (rebuilt_metrics groups)) ≤ weight_of (Metrics groups)) }
{}
