//! Laws of `selfrun`: each is the contract of a function that does nothing.
ghost use Rattle.std.specs.Prelude.{◌≡◌, ◌⊎◌, ℕ, []};
ghost use Rattle.lists.specs.EachAfter.{EachAfter};
ghost use Rattle.otap_capture.specs.Outside.{Rose};
ghost use Rattle.otap_gateway.specs.declared.runs.load.Load.{Load};
ghost use Rattle.otap_gateway.specs.Loads.{RunsLoad, WritesLoad, requests_of};
ghost use Rattle.otap_signals.specs.BySignal.{meaning_by};
ghost use Rattle.otap_transit.specs.Transits.{IsReceivedAs};
ghost use Rattle.otap_gateway.specs.Runs.{Sinks};

use otap_transit::laws::both_ends;

/// Where no count of faults rose, a run for the words of a load writes its messages and its line, passes all of it on, and
/// returns 0; or memory ran out.
pub fn complete_loads<S>()
    ensures { (load : Load) (source source' : S) (old new : Sinks) (status : ℕ) → RunsLoad load source source' old new status
        → (Rose old.out.faults new.out.faults → ⊥) → (Rose old.err.faults new.err.faults → ⊥)
        → (status ≡ 6) ⊎ ((status ≡ 0) × WritesLoad load old new) }
{}

/// What is written of a load is received: each message is in the format after those before it, with the next batch id, and means
/// the same telemetry as its request.
pub fn loads_are_received()
    ensures { (load : Load) (old new : Sinks) (written : WritesLoad load old new)
        → EachAfter (IsReceivedAs (meaning_by load.signal)) [] [] (requests_of load) written.messages }
{
    both_ends();
}
