ghost use Rattle.std.specs.Prelude.{◌≡◌, pos};
ghost use Rattle.otap_cells.specs.Continuing.{has_attributes};
ghost use Rattle.otap_cells.specs.Payload.{is_main, kind_numbered, kinds_of, main_of, number_of};

use otlp_model::Signal;

/// A payload type: which table a payload of a batch carries.
#[derive(Clone, Copy, Debug, PartialEq, Eq)]
pub enum Kind {
    /// The attributes of resources, in every signal.
    ResourceAttrs,
    /// The attributes of instrumentation scopes, in every signal.
    ScopeAttrs,
    /// The main table of metrics.
    Metrics,
    /// The points of gauges and sums.
    NumberPoints,
    /// The points of summaries.
    SummaryPoints,
    /// The points of histograms.
    HistPoints,
    /// The attributes of the points of gauges and sums.
    NumberPointAttrs,
    /// The attributes of the points of summaries.
    SummaryPointAttrs,
    /// The attributes of the points of histograms.
    HistPointAttrs,
    /// The exemplars of the points of gauges and sums.
    NumberExemplars,
    /// The exemplars of the points of histograms.
    HistExemplars,
    /// The attributes of number exemplars.
    NumberExemplarAttrs,
    /// The attributes of histogram exemplars.
    HistExemplarAttrs,
    /// The main table of logs: the log records.
    Logs,
    /// The attributes of log records.
    LogAttrs,
    /// The main table of traces.
    Spans,
    /// The attributes of spans.
    SpanAttrs,
    /// The events of spans.
    SpanEvents,
    /// The links of spans.
    SpanLinks,
    /// The attributes of events.
    EventAttrs,
    /// The attributes of links.
    LinkAttrs,
}

impl Kind {
    /// The number of the payload type in a batch message (OpenTelemetry Arrow Protocol, `ArrowPayloadType`).
    pub fn number(self) -> i32
        ensures { result ≡ pos (number_of self) }
    {
        match self {
            Kind::ResourceAttrs => 1,
            Kind::ScopeAttrs => 2,
            Kind::Metrics => 10,
            Kind::NumberPoints => 11,
            Kind::SummaryPoints => 12,
            Kind::HistPoints => 13,
            Kind::NumberPointAttrs => 15,
            Kind::SummaryPointAttrs => 16,
            Kind::HistPointAttrs => 17,
            Kind::NumberExemplars => 19,
            Kind::HistExemplars => 20,
            Kind::NumberExemplarAttrs => 22,
            Kind::HistExemplarAttrs => 23,
            Kind::Logs => 30,
            Kind::LogAttrs => 31,
            Kind::Spans => 40,
            Kind::SpanAttrs => 41,
            Kind::SpanEvents => 42,
            Kind::SpanLinks => 43,
            Kind::EventAttrs => 44,
            Kind::LinkAttrs => 45,
        }
    }
}

static TRACES: [Kind; 8] = [
    Kind::Spans,
    Kind::ResourceAttrs,
    Kind::ScopeAttrs,
    Kind::SpanAttrs,
    Kind::SpanEvents,
    Kind::SpanLinks,
    Kind::EventAttrs,
    Kind::LinkAttrs,
];

static LOGS: [Kind; 4] = [
    Kind::Logs,
    Kind::ResourceAttrs,
    Kind::ScopeAttrs,
    Kind::LogAttrs,
];

static METRICS: [Kind; 13] = [
    Kind::Metrics,
    Kind::ResourceAttrs,
    Kind::ScopeAttrs,
    Kind::NumberPoints,
    Kind::SummaryPoints,
    Kind::HistPoints,
    Kind::NumberPointAttrs,
    Kind::SummaryPointAttrs,
    Kind::HistPointAttrs,
    Kind::NumberExemplars,
    Kind::HistExemplars,
    Kind::NumberExemplarAttrs,
    Kind::HistExemplarAttrs,
];

/// The kinds of a signal: its main table first, then the others by ascending number.
pub fn kinds(signal: Signal) -> &'static [Kind]
    ensures { result.now ≡ kinds_of signal }
{
    match signal {
        Signal::Traces => &TRACES,
        Signal::Logs => &LOGS,
        Signal::Metrics => &METRICS,
    }
}

/// The main table of a signal: its spans, log records or metrics.
pub fn main_of(signal: Signal) -> Kind
    ensures { result ≡ main_of signal }
{
    match signal {
        Signal::Traces => Kind::Spans,
        Signal::Logs => Kind::Logs,
        Signal::Metrics => Kind::Metrics,
    }
}

/// Whether a kind is the main table of a signal.
pub fn is_main(kind: Kind) -> bool
    ensures { result ≡ is_main kind }
{
    matches!(kind, Kind::Metrics | Kind::Logs | Kind::Spans)
}

/// Whether the rows of a kind are attributes.
pub fn has_attributes(kind: Kind) -> bool
    ensures { result ≡ has_attributes kind }
{
    match kind {
        Kind::ResourceAttrs
        | Kind::ScopeAttrs
        | Kind::LogAttrs
        | Kind::SpanAttrs
        | Kind::EventAttrs
        | Kind::LinkAttrs
        | Kind::NumberPointAttrs
        | Kind::SummaryPointAttrs
        | Kind::HistPointAttrs
        | Kind::NumberExemplarAttrs
        | Kind::HistExemplarAttrs => true,
        Kind::Metrics
        | Kind::NumberPoints
        | Kind::SummaryPoints
        | Kind::HistPoints
        | Kind::NumberExemplars
        | Kind::HistExemplars
        | Kind::Logs
        | Kind::Spans
        | Kind::SpanEvents
        | Kind::SpanLinks => false,
    }
}

/// The kind of the signal that has the number, or `None` where the signal has no such payload type.
pub fn table_of(signal: Signal, kind: i32) -> Option<Kind>
    ensures { result ≡ kind_numbered signal kind }
{
    'kinds: for known in kinds(signal) {
        if known.number() == kind {
            return Some(*known);
        }
    }
    None
}
