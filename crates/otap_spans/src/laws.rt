//! What the definitions mean, as functions that do nothing: each ensures a law of requests.
ghost use Rattle.std.specs.Prelude.{◌≤◌, List, All};
ghost use Rattle.otlp_model.specs.Same.{Same};
ghost use Rattle.otlp_model.specs.Weight.{weight_of};
ghost use Rattle.otlp_model.specs.declared.groups.ResourceGroup.{ResourceGroup};
ghost use Rattle.otlp_model.specs.declared.spans.Span.{Span};
ghost use Rattle.otlp_model.specs.declared.request.Request.TheVariants.{Traces};
ghost use Rattle.otap_groups.specs.ProfileTables.{IsProfileTable};
ghost use Rattle.otap_spans.specs.Laws.{AreInKindOrder, ForProfileSpans, HasRowPerSpan, rebuilt_spans};
ghost use Rattle.otap_spans.specs.Requests.{AreCleanSpans};
ghost use Rattle.otap_spans.specs.Tables.{tables_of_spans};

/// Law: the request that the tables of a request make means the same telemetry: the same items in the same order, each with its
/// resource and its scope, and with the same attributes in any order. How items are grouped isn't compared.
///
/// This law and those below whose clause begins with `ForProfile` are on requests that a program can hold, of the profile, and
/// within the weight limit.
pub fn tables_tell_the_same()
    ensures { ForProfileSpans (λ groups. Same (Traces groups) (Traces (rebuilt_spans groups))) }
{}

/// Law: nothing is wrong with the rows of the tables of a request.
pub fn tables_have_no_defects()
    ensures { ForProfileSpans (λ groups. AreCleanSpans (tables_of_spans groups)) }
{}

/// Law: the tables of a request are tables of the profile, and have ids.
pub fn tables_can_be_written()
    ensures { ForProfileSpans (λ groups. All IsProfileTable (tables_of_spans groups)) }
{}

/// Law: the tables of a request are in the order of the signal's kinds: its main table, and of the others those that have
/// rows.
pub fn tables_by_type()
    ensures { (groups : List (ResourceGroup Span)) → AreInKindOrder (tables_of_spans groups) }
{}

/// Law: the main table of a request has as many rows as the request has spans.
pub fn each_span_has_a_row()
    ensures { (groups : List (ResourceGroup Span)) → HasRowPerSpan (tables_of_spans groups) groups }
{}

/// Law: the request that the tables of a request make weighs no more than the request. The tables themselves may weigh far more,
/// since each row has the texts of its resource and its scope: `table_weight` says how much.
pub fn rebuilt_is_no_heavier()
    ensures { ForProfileSpans (λ groups. weight_of (Traces (rebuilt_spans groups)) ≤ weight_of (Traces groups)) }
{}
