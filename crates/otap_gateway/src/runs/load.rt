//! The job that makes its own load, by its words.
ghost use Rattle.std.specs.Prelude.{◌≡◌, ◌≢◌, ◌<◌, ◌≤◌, ℕ, [], ◌∷◌, MatchOption};
ghost use Rattle.std.specs.Fmt.{decimal};
ghost use Rattle.otlp_load.specs.Load.{requests_at_most};
ghost use Rattle.otap_gateway.specs.Loads.{IsLoad, IsNoLoad, load_words};

use crate::jobs::command::any_signal;
use crate::texts::numbers::decimal_of;
use otlp_load::REQUESTS;
use otlp_model::Signal;

/// How many requests of a signal the program makes.
#[derive(Clone, Copy)]
pub(crate) struct Load {
    pub(crate) signal: Signal,
    pub(crate) requests: u32,
}

/// The load of three words.
pub(crate) fn three_words(job: &str, signal: &str, requests: &str) -> Option<Load>
    ensures { MatchOption result (IsNoLoad (job.now ∷ signal.now ∷ requests.now ∷ []))
        (λ load. IsLoad load × (job.now ∷ signal.now ∷ requests.now ∷ [] ≡ load_words load)) }
{
    match job {
        "selfrun" => Some(Load {
            signal: any_signal(signal)?,
            requests: count_of(requests)?,
        }),
        _ => None,
    }
}

/// How many requests the word says.
fn count_of(word: &str) -> Option<u32>
    ensures { MatchOption result ((n : ℕ) → 0 < n → n ≤ requests_at_most → word.now ≢ decimal n)
        (λ n. (0 < n) × (n ≤ requests_at_most) × (word.now ≡ decimal n)) }
{
    let count = decimal_of(word)?;
    if count == 0 || count > REQUESTS {
        return None;
    }
    Some(count)
}
