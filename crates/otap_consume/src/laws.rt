//! What the definitions say of one another. The functions do nothing: their contracts are the laws.

ghost use Rattle.std.specs.Prelude.{◌≡◌, ℤ, List, Option};
ghost use Rattle.lists.specs.Payloads.{PayloadIn};
ghost use Rattle.otap_capture.specs.Capture.{Frame};
ghost use Rattle.otap_consume.specs.declared.refusal.Cause.{Cause};
ghost use Rattle.otap_consume.specs.declared.refusal.TheConstants.{MAX_HELD};
ghost use Rattle.otap_consume.specs.Limits.{held_limit};
ghost use Rattle.otap_consume.specs.Defects.{Accepts, Refuses, AreTaken, AreJudged};
ghost use Rattle.otap_consume.specs.Outcomes.{stage_of, Outcome, Outcomes, OutcomeAfter};
ghost use Rattle.otlp_model.specs.declared.request.Signal.{Signal};

/// No payloads are both accepted and refused; after payloads that were taken they are one of the two.
pub fn accepted_or_refused()
    ensures one { (signal : Signal) (past payloads : List PayloadIn) → AreTaken signal past → AreJudged signal past payloads }
    ensures never_both { (signal : Signal) (past payloads : List PayloadIn) (cause : Cause) (payload : Option ℤ)
        → Accepts signal past payloads → Refuses signal past payloads cause payload → ⊥ }
{}

/// The constant is the limit of the profile.
pub fn what_is_held_is_limited()
    ensures { MAX_HELD ≡ held_limit }
{}

/// Each frame has an outcome after frames with outcomes.
pub fn some_outcome()
    ensures { (signal : Signal) (frames : List Frame) (outcomes : List Outcome) (frame : Frame)
        → Outcomes signal frames outcomes → (outcome : Outcome) × OutcomeAfter signal outcomes frame outcome }
{}

/// Payloads are refused in one stage only, whatever the cause.
pub fn refused_in_one_stage()
    ensures { (signal : Signal) (past payloads : List PayloadIn) (a b : Cause) (p q : Option ℤ)
        → Refuses signal past payloads a p → Refuses signal past payloads b q → stage_of a ≡ stage_of b }
{}
