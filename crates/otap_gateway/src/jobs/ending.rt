//! The jobs that add something of their own at the end of the capture, by their words.
ghost use Rattle.std.specs.Prelude.{◌≡◌, ◌≢◌, ◌≤◌, ℕ, [], ◌∷◌, MatchOption};
ghost use Rattle.std.specs.Fmt.{decimal};
ghost use Rattle.otap_gateway.specs.Endings.{IsEnding, IsNoEnding, IsWindow, ending_words, number_limit};

use crate::jobs::command::any_signal;
use crate::jobs::payload_type::kind_of;
use crate::texts::numbers::decimal_of;
use otap_cells::Kind;
use otlp_model::Signal;

/// How many requests `resend` keeps at most.
const MAX_WINDOW: u32 = 64;

/// A job over a capture that adds something of its own at the end.
#[derive(Clone, Copy)]
pub(crate) enum Ending {
    /// The Arrow file of one sub-stream: of those of the payload type, the one that opens after this number of others.
    File {
        signal: Signal,
        kind: Kind,
        number: u32,
    },
    /// The batches of an exporter that sends again what wasn't answered: for requests of the signal, of which it keeps this
    /// number at most.
    Resend {
        signal: Signal,
        window: u32,
    },
}

/// How many sub-streams `file` passes over at most.
const MAX_NUMBER: u32 = 999_999;

/// The job of four words.
pub(crate) fn file_of(job: &str, signal: &str, kind: &str, number: &str) -> Option<Ending>
    ensures { MatchOption result (IsNoEnding (job.now ∷ signal.now ∷ kind.now ∷ number.now ∷ []))
        (λ ending. IsEnding ending × (job.now ∷ signal.now ∷ kind.now ∷ number.now ∷ [] ≡ ending_words ending)) }
{
    match job {
        "file" => {
            let signal = any_signal(signal)?;
            let kind = kind_of(signal, kind)?;
            let number = number_of(number)?;
            Some(Ending::File {
                signal,
                kind,
                number,
            })
        }
        _ => None,
    }
}

/// The number of a sub-stream that the word says.
fn number_of(word: &str) -> Option<u32>
    ensures { MatchOption result ((n : ℕ) → n ≤ number_limit → word.now ≢ decimal n) (λ n. (n ≤ number_limit) × (word.now ≡ decimal n)) }
{
    let number = decimal_of(word)?;
    if number > MAX_NUMBER {
        return None;
    }
    Some(number)
}

/// The job of three words.
pub(crate) fn ending_of(job: &str, signal: &str, last: &str) -> Option<Ending>
    ensures { MatchOption result (IsNoEnding (job.now ∷ signal.now ∷ last.now ∷ []))
        (λ ending. IsEnding ending × (job.now ∷ signal.now ∷ last.now ∷ [] ≡ ending_words ending)) }
{
    match job {
        "resend" => Some(Ending::Resend {
            signal: any_signal(signal)?,
            window: window_of(last)?,
        }),
        _ => None,
    }
}

/// The window that the word says.
fn window_of(word: &str) -> Option<u32>
    ensures { MatchOption result ((n : ℕ) → IsWindow n → word.now ≢ decimal n) (λ n. IsWindow n × (word.now ≡ decimal n)) }
{
    let window = decimal_of(word)?;
    if window == 0 || window > MAX_WINDOW {
        return None;
    }
    Some(window)
}
