//! What the definitions mean, as functions that do nothing: each ensures a law for all requests of the load.
ghost use Rattle.std.specs.Prelude.{◌≡◌, ◌≤◌, ◌<◌, ℕ, length};
ghost use Rattle.otlp_model.specs.Limits.{weight_limit};
ghost use Rattle.otlp_model.specs.Profile.{IsProfile};
ghost use Rattle.otlp_model.specs.Telemetry.{signal_of, telemetry};
ghost use Rattle.otlp_model.specs.Weight.{weight_of};
ghost use Rattle.otlp_model.specs.declared.request.Signal.{Signal};
ghost use Rattle.otlp_load.specs.declared.requests.TheConstants.{ITEMS, REQUESTS};
ghost use Rattle.otlp_load.specs.declared.pairs.TheConstants.{PAIRS};
ghost use Rattle.otlp_load.specs.declared.groups.TheConstants.{GROUPS};
ghost use Rattle.otlp_load.specs.Limits.{groups_each, items_each, pairs_each, requests_at_most};
ghost use Rattle.otlp_load.specs.Load.{generated};

/// Law: the numbers that the code goes by are those of the definitions.
pub fn limits()
    ensures items { ITEMS ≡ items_each }
    ensures requests { REQUESTS ≡ requests_at_most }
    ensures pairs { PAIRS ≡ pairs_each }
    ensures groups { GROUPS ≡ groups_each }
{}

/// Law: a request of the load is one of its signal and has 8,192 items.
pub fn requests_have_their_items()
    ensures signal { (signal : Signal) (r : ℕ) → signal_of (generated signal r) ≡ signal }
    ensures items { (signal : Signal) (r : ℕ) → length (telemetry (generated signal r)) ≡ items_each }
{}

/// Law: a request of the load is within the profile, and weighs no more than a request may.
pub fn requests_are_within_the_limits()
    ensures profile { (signal : Signal) (r : ℕ) → IsProfile (generated signal r) }
    ensures weight { (signal : Signal) (r : ℕ) → r < requests_at_most → weight_of (generated signal r) ≤ weight_limit }
{}
