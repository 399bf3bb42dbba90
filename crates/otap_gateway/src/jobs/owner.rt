//! Whose attributes a filter looks at, by the words that say it.
ghost use Rattle.std.specs.Prelude.{◌≡◌, ◌≢◌, MatchOption};
ghost use Rattle.otap_gateway.specs.declared.jobs.owner.Owner.{Owner};
ghost use Rattle.otap_gateway.specs.Commands.{signal_word};
ghost use Rattle.otap_gateway.specs.Owners.{signal_of, whose_of, whose_word};

use crate::jobs::command::any_signal;
use otap_kept::Whose;
use otlp_model::Signal;

/// What has the attributes that a filter looks at. Metrics have none of their own.
#[derive(Clone, Copy)]
pub(crate) enum Owner {
    Span,
    SpanResource,
    LogRecord,
    LogResource,
    MetricResource,
}

impl Owner {
    /// The signal of the batches.
    pub(crate) fn signal(self) -> Signal
        ensures { result ≡ signal_of self }
    {
        match self {
            Owner::Span | Owner::SpanResource => Signal::Traces,
            Owner::LogRecord | Owner::LogResource => Signal::Logs,
            Owner::MetricResource => Signal::Metrics,
        }
    }

    /// Whether it is an item or its resource.
    pub(crate) fn whose(self) -> Whose
        ensures { result ≡ whose_of self }
    {
        match self {
            Owner::Span | Owner::LogRecord => Whose::Item,
            Owner::SpanResource | Owner::LogResource | Owner::MetricResource => Whose::Resource,
        }
    }
}

/// The owner that two words say.
pub(crate) fn owner_of(signal: &str, whose: &str) -> Option<Owner>
    ensures { MatchOption result
        ((owner : Owner) → signal.now ≡ signal_word (signal_of owner) → whose.now ≢ whose_word (whose_of owner))
        (λ owner. (signal.now ≡ signal_word (signal_of owner)) × (whose.now ≡ whose_word (whose_of owner))) }
{
    match (any_signal(signal)?, whose_by_word(whose)?) {
        (Signal::Traces, Whose::Item) => Some(Owner::Span),
        (Signal::Traces, Whose::Resource) => Some(Owner::SpanResource),
        (Signal::Logs, Whose::Item) => Some(Owner::LogRecord),
        (Signal::Logs, Whose::Resource) => Some(Owner::LogResource),
        (Signal::Metrics, Whose::Item) => None,
        (Signal::Metrics, Whose::Resource) => Some(Owner::MetricResource),
    }
}

/// Whose attributes the word says.
fn whose_by_word(word: &str) -> Option<Whose>
    ensures { MatchOption result ((whose : Whose) → word.now ≢ whose_word whose) (λ whose. word.now ≡ whose_word whose) }
{
    match word {
        "item" => Some(Whose::Item),
        "resource" => Some(Whose::Resource),
        _ => None,
    }
}
