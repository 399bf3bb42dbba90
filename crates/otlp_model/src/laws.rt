//! What the definitions mean, as functions that do nothing: each ensures a law for all requests.

ghost use Rattle.std.specs.Prelude.{◌≡◌, ◌≢◌, ◌↔◌, [], List, IsTrue};
ghost use Rattle.otlp_model.specs.Equal.{pair_is, occurrences};
ghost use Rattle.otlp_model.specs.declared.histograms.TheConstants.{NUMBER, QUANTILE};
ghost use Rattle.otlp_model.specs.declared.limits.TheConstants.{MAX_ITEMS, MAX_TREE_WEIGHT, MAX_DEPTH, CAP};
ghost use Rattle.otlp_model.specs.declared.weights.TheConstants.{PART_WEIGHT};
ghost use Rattle.otlp_model.specs.Limits.{item_limit, weight_limit, depth_limit, count_cap, part_weight, number_weight, quantile_weight};
ghost use Rattle.otlp_model.specs.Same.{Same, SameOften};
ghost use Rattle.otlp_model.specs.Telemetry.{telemetry, signal_of, with_items};
ghost use Rattle.otlp_model.specs.declared.value.Pair.{Pair};
ghost use Rattle.otlp_model.specs.declared.request.Request.{Request};

/// The limits that the code goes by are those of the definitions.
pub fn limits()
    ensures items { MAX_ITEMS ≡ item_limit }
    ensures weight { MAX_TREE_WEIGHT ≡ weight_limit }
    ensures depth { MAX_DEPTH ≡ depth_limit }
    ensures cap { CAP ≡ count_cap }
    ensures part { PART_WEIGHT ≡ part_weight }
    ensures number { NUMBER ≡ number_weight }
    ensures quantile { QUANTILE ≡ quantile_weight }
{}

/// Denoting the same telemetry is an equivalence of requests.
pub fn same_is_an_equivalence()
    ensures reflexive { (q : Request) → Same q q }
    ensures symmetric { (p q : Request) → Same p q → Same q p }
    ensures transitive { (p q r : Request) → Same p q → Same q r → Same p r }
{}

/// Groups without items don't count.
pub fn only_items_count()
    ensures telemetry { (q : Request) → telemetry (with_items q) ≡ telemetry q }
    ensures same { (q : Request) → Same q (with_items q) }
{}

/// Requests of two signals denote the same telemetry exactly where neither has items.
pub fn signals_differ()
    ensures { (p q : Request) → signal_of p ≢ signal_of q → Same p q ↔ ((telemetry p ≡ []) × (telemetry q ≡ [])) }
{}

/// Only the order of a list of attributes doesn't count: two lists are the same exactly where each pair occurs in both
/// equally often.
pub fn order_does_not_count()
    ensures { (xs ys : List Pair) → SameOften xs ys ↔ ((pair : Pair) → occurrences pair xs ≡ occurrences pair ys) }
{}

/// The test that pairs are counted by accepts exactly the equal ones.
pub fn pairs_are_told()
    ensures { (p q : Pair) → IsTrue (pair_is p q) ↔ (p ≡ q) }
{}
