//! What holds of all calls of a resending exporter. The functions do nothing: their contracts are the laws.

ghost use Rattle.std.specs.Prelude.{ℕ, List};
ghost use Rattle.otap_signals.specs.Meanings.{SignalRows};
ghost use Rattle.otap_resend.specs.Runs.{Step, IsRun, IsSound};

/// No request is lost, invented, or taken for another. Each number below those sent is once among those that are unanswered, done
/// or given up. A request that is unanswered or handed back is the one that was sent with its number, and the numbers of the
/// unanswered ones ascend. Each batch carries a request that was sent and is unanswered after its call. The messages since the last
/// reset have the policy of the requests that were written since then, all of which were sent, and are laid out.
pub fn nothing_is_lost()
    ensures { (rows : SignalRows) (window : ℕ) (steps : List Step) → IsRun rows window steps → IsSound rows window steps }
{}
