ghost use Rattle.std.specs.Prelude.{◌≡◌, ◌<◌, ◌≤◌, ◌∷◌, [], ℕ, ℤ, Bool, List, Option, codes, length};
ghost use Rattle.std.specs.List.{AllByRecursion};
ghost use Rattle.otap_cells.specs.declared.payload.Kind.{Kind};
ghost use Rattle.otap_cells.specs.declared.weight.TheConstants.{MAX_ROW_WEIGHT, ROW_UNIT};
ghost use Rattle.otap_cells.specs.declared.profile.Coding.{Coding};
ghost use Rattle.otap_cells.specs.Payload.{number_of};
ghost use Rattle.otap_cells.specs.Cells.{bytes_in, nat_in};
ghost use Rattle.otap_cells.specs.Columns.{attrs, common, deep_attrs, exemplars, hist_points, logs, metrics, name_at, number_points, span_events, span_links, spans, summary_points, width_of};
ghost use Rattle.otap_cells.specs.Ids.{Ids};
ghost use Rattle.otap_cells.specs.Places.{HasMainPlaces, HasPairPlaces, HasPartPlaces, IsAt, exemplar_int, first_of_body, first_of_item, first_of_part, metric_monotonic, metric_temporality, metric_type, point_int, summary_quantiles, summary_values};
ghost use Rattle.otap_cells.specs.Scalars.{text_cell, number_cell, int_cell, bits_cell, flag_cell, int_in, bits_in, flag_in};
ghost use Rattle.otap_cells.specs.Limits.{column_limit, row_unit, row_weight_limit};

/// Law: a payload type has a number of its own.
pub fn numbers_tell_kinds_apart()
    ensures { (a b : Kind) → number_of a ≡ number_of b → a ≡ b }
{}

/// Law: a column has a name of its own among those of its table.
pub fn names_tell_columns_apart()
    ensures { (kind : Kind) (a b : ℕ) → a < width_of kind → b < width_of kind → name_at kind a ≡ name_at kind b → a ≡ b }
{}

/// Law: the constants are the limits of the profile.
pub fn the_row_weight_is_limited()
    ensures limit { MAX_ROW_WEIGHT ≡ row_weight_limit }
    ensures unit { ROW_UNIT ≡ row_unit }
{}

/// Law: no table has more columns than the limit.
pub fn tables_have_few_columns()
    ensures { (kind : Kind) → width_of kind ≤ column_limit }
{}

/// Law: the numbers that a column stores encode one list of ids at most.
pub fn numbers_stand_for_one_list()
    ensures { (how : Coding) (last : ℕ) (rows : List Bool) (numbers a b : List (Option ℕ)) → Ids how last rows numbers a → Ids how last rows numbers b → a ≡ b }
{}

/// Law: a value comes back from the cell that is written for it.
pub fn values_come_back()
    ensures text { (text : List ℕ) → bytes_in (text_cell text) ≡ text }
    ensures number { (n : ℕ) → nat_in (number_cell n) ≡ n }
    ensures int { (n : ℤ) → int_in (int_cell n) ≡ n }
    ensures bits { (n : ℕ) → bits_in (bits_cell n) ≡ n }
    ensures flag { (b : Bool) → flag_in (flag_cell b) ≡ b }
{}

/// Law: the numbers by which definitions name columns are the places of these columns' names.
#[tactic(auto, unfolding(crate::specs::Columns::logs, crate::specs::Columns::spans, crate::specs::Columns::metrics, crate::specs::Columns::number_points, crate::specs::Columns::summary_points, crate::specs::Columns::hist_points, crate::specs::Columns::exemplars, crate::specs::Columns::span_events, crate::specs::Columns::span_links, crate::specs::Columns::attrs, crate::specs::Columns::deep_attrs))]
pub fn named_columns()
    ensures main { AllByRecursion HasMainPlaces (logs ∷ spans ∷ metrics ∷ []) }
    ensures parts { AllByRecursion HasPartPlaces (number_points ∷ summary_points ∷ hist_points ∷ exemplars ∷ span_events ∷ span_links ∷ []) }
    ensures pairs { AllByRecursion HasPairPlaces (attrs ∷ deep_attrs ∷ []) }
    ensures item { length common ≡ first_of_item }
    ensures part { IsAt number_points (codes "start_time_unix_nano") first_of_part }
    ensures body { IsAt logs (codes "body.type") first_of_body }
    ensures metric { IsAt metrics (codes "metric_type") metric_type }
    ensures temporality { IsAt metrics (codes "aggregation_temporality") metric_temporality }
    ensures monotonic { IsAt metrics (codes "is_monotonic") metric_monotonic }
    ensures point { IsAt number_points (codes "int_value") point_int }
    ensures exemplar { IsAt exemplars (codes "int_value") exemplar_int }
    ensures quantiles { IsAt summary_points (codes "quantiles") summary_quantiles }
    ensures values { IsAt summary_points (codes "quantile_values") summary_values }
{}
