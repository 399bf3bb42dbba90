//! The jobs by their words.
ghost use Rattle.std.specs.Prelude.{◌≡◌, ◌≢◌, [], ◌∷◌, MatchOption};
ghost use Rattle.otlp_model.specs.declared.request.Signal.{Signal};
ghost use Rattle.otap_gateway.specs.Commands.{IsNoCommand, words_of, signal_word};

use crate::jobs::owner::{Owner, owner_of};
use crate::jobs::word::Word;
use otlp_model::Signal;

/// A job that the program does.
#[derive(Drop)]
pub(crate) enum Command<'w> {
    /// A line for each frame.
    List,
    /// The canonical spelling of each request of the signal.
    Tidy(Signal),
    /// The batch message of each request of the signal.
    Encode(Signal),
    /// The schemas that the payloads of each batch of the signal begin with.
    Schema(Signal),
    /// The cells of each batch of the signal.
    Show(Signal),
    /// What is said of each batch of the signal.
    Receive(ReceiverText, Signal),
    /// Of each batch the items that have a pair, or whose resources have it, by its key and its text.
    Filter {
        owner: Owner,
        key: Word<'w>,
        text: Word<'w>,
    },
}

/// What a job of a receiver says of each batch.
#[derive(Clone, Copy)]
pub(crate) enum ReceiverText {
    /// Its request.
    Decode,
    /// Its status.
    Status,
    /// What it holds.
    Replay,
}

/// The job of one word.
pub(crate) fn one_word(job: &str) -> Option<Command<'_>>
    ensures { MatchOption result (IsNoCommand (job.now ∷ [])) (λ command. job.now ∷ [] ≡ words_of command) }
{
    match job {
        "list" => Some(Command::List),
        _ => None,
    }
}

/// The job of a word and a signal.
pub(crate) fn two_words<'w>(job: &'w str, signal: &str) -> Option<Command<'w>>
    ensures { MatchOption result (IsNoCommand (job.now ∷ signal.now ∷ []))
        (λ command. job.now ∷ signal.now ∷ [] ≡ words_of command) }
{
    match job {
        "tidy" => Some(Command::Tidy(any_signal(signal)?)),
        "encode" => Some(Command::Encode(any_signal(signal)?)),
        "schema" => Some(Command::Schema(any_signal(signal)?)),
        "show" => Some(Command::Show(any_signal(signal)?)),
        "decode" => Some(Command::Receive(ReceiverText::Decode, any_signal(signal)?)),
        "status" => Some(Command::Receive(ReceiverText::Status, any_signal(signal)?)),
        "replay" => Some(Command::Receive(ReceiverText::Replay, any_signal(signal)?)),
        _ => None,
    }
}

/// The job of five words.
pub(crate) fn five_words<'w>(
    job: &str,
    signal: &str,
    whose: &str,
    key: &'w str,
    text: &'w str,
) -> Option<Command<'w>>
    ensures { MatchOption result (IsNoCommand (job.now ∷ signal.now ∷ whose.now ∷ key.now ∷ text.now ∷ []))
        (λ command. job.now ∷ signal.now ∷ whose.now ∷ key.now ∷ text.now ∷ [] ≡ words_of command) }
{
    match job {
        "filter" => Some(Command::Filter {
            owner: owner_of(signal, whose)?,
            key: Word::new(key),
            text: Word::new(text),
        }),
        _ => None,
    }
}

/// The signal of a word.
pub(crate) fn any_signal(word: &str) -> Option<Signal>
    ensures { MatchOption result ((signal : Signal) → word.now ≢ signal_word signal) (λ signal. word.now ≡ signal_word signal) }
{
    match word {
        "traces" => Some(Signal::Traces),
        "logs" => Some(Signal::Logs),
        "metrics" => Some(Signal::Metrics),
        _ => None,
    }
}
