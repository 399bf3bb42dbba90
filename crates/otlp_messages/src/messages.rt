//! The messages, the kinds of their fields, and the defects.

use thiserror::Error;

/// What the scope groups of a request hold: its signal.
#[derive(Clone, Copy, Debug, PartialEq, Eq)]
pub enum ItemKind {
    Spans,
    LogRecords,
    Metrics,
}

/// A message of the protobuf definitions of OTLP 1.x or of the OpenTelemetry Arrow Protocol.
#[derive(Clone, Copy, Debug, PartialEq, Eq)]
pub enum Message {
    BatchArrowRecords,
    ArrowPayload,
    BatchStatus,
    /// One of a resending exporter's events: a request to send, or the status of a batch. This message is
    /// ours: neither protocol has it.
    SendEvent,
    /// `ExportTraceServiceRequest`, `ExportLogsServiceRequest` or `ExportMetricsServiceRequest`.
    Request(ItemKind),
    /// `ResourceSpans`, `ResourceLogs` or `ResourceMetrics`.
    ResourceGroup(ItemKind),
    /// `ScopeSpans`, `ScopeLogs` or `ScopeMetrics`.
    ScopeGroup(ItemKind),
    Resource,
    InstrumentationScope,
    KeyValue,
    AnyValue,
    ArrayValue,
    KeyValueList,
    LogRecord,
    Span,
    /// `Span.Event`.
    Event,
    /// `Span.Link`.
    Link,
    Status,
    Metric,
    Gauge,
    Sum,
    Histogram,
    Summary,
    NumberDataPoint,
    HistogramDataPoint,
    SummaryDataPoint,
    /// `SummaryDataPoint.ValueAtQuantile`.
    ValueAtQuantile,
    Exemplar,
}

/// What a field holds.
#[derive(Clone, Copy, Debug, PartialEq, Eq)]
pub enum FieldKind {
    /// The message has no such field. It is passed over, with any wire type and any number of times.
    Unknown,
    /// Wire type 0: an integer, a bool or an enum.
    Varint,
    /// Wire type 1: 64 bits.
    Fixed64,
    /// 64 bits that repeat: one by one with wire type 1, or packed with wire type 2, in bytes whose number
    /// is a multiple of 8.
    Packed64,
    /// Wire type 5: 32 bits.
    Fixed32,
    /// Wire type 2: a string, which is UTF-8.
    Text,
    /// Wire type 2: bytes.
    Octets,
    /// Wire type 2: bytes, none or exactly this number.
    Id(usize),
    /// Wire type 2: a message.
    Embedded(Message),
    /// Wire type 2: a message that is a member of an array or of a key-value list.
    Member(Message),
    /// Wire type 2: a message that is refused whatever its bytes.
    Refused,
}

/// What the table says of a field.
#[derive(Clone, Copy, Debug, PartialEq, Eq)]
pub struct Row {
    pub kind: FieldKind,
    /// At most one field of a message may have this mark, which is below [`MARKS`](crate::MARKS). Any
    /// number of fields may have the mark 0.
    pub mark: usize,
}

/// Why bytes are not read as a message. Where several of these are in the bytes, any of them may be
/// named.
#[derive(Clone, Copy, Debug, PartialEq, Eq, Error)]
pub enum Defect {
    /// The bytes do not end with a whole field, a known field has another wire type, or the bytes of packed
    /// 64 bits are no multiple of 8.
    #[error("the message is malformed")]
    BadMessage,
    /// A singular field occurs twice, or two members of one oneof.
    #[error("a singular field occurs twice")]
    Repeated,
    /// A string is not UTF-8.
    #[error("a string is not UTF-8")]
    BadUtf8,
    /// An id has another length.
    #[error("an id has another length")]
    BadLength,
    /// A message that is refused occurs.
    #[error("a message occurs that is not supported")]
    Unsupported,
    /// A member of an array or of a key-value list is too deep.
    #[error("a value is nested too deep")]
    TooDeep,
}
