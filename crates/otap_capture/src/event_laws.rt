//! What holds of the definitions of events: each law is the contract of a function that does nothing.

ghost use Rattle.std.specs.Prelude.{◌≡◌, ◌⊎◌, ℕ, List};
ghost use Rattle.otap_capture.specs.declared.batch.BatchRefusal.{BatchRefusal};
ghost use Rattle.otap_capture.specs.SendEvents.{EventContent, ReadsEvent, RefusesEvent};

/// An event is read in one way at most, and is not refused where it is read.
pub fn one_event()
    ensures one { (bytes : List ℕ) (a b : EventContent) → ReadsEvent bytes a → ReadsEvent bytes b → a ≡ b }
    ensures not_refused { (bytes : List ℕ) (event : EventContent) (refusal : BatchRefusal)
        → ReadsEvent bytes event → RefusesEvent bytes refusal → ⊥ }
{}

/// All bytes are read as an event, or refused.
pub fn event_or_refused()
    ensures { (bytes : List ℕ) → ((event : EventContent) × ReadsEvent bytes event) ⊎ ((refusal : BatchRefusal) × RefusesEvent bytes refusal) }
{}
