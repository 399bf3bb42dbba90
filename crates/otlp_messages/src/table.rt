//! The table of the messages, as code looks a field up: a function for each message.

ghost use Rattle.std.specs.Prelude.{◌≡◌, ◌<◌};
ghost use Rattle.otlp_messages.specs.Limits.{mark_limit};
ghost use Rattle.otlp_messages.specs.Table as table;
ghost use Rattle.otlp_messages.specs.Table.{row_in};

use crate::messages::{FieldKind, ItemKind, Message, Row};
use crate::metric_table::{
    exemplar, gauge, histogram, histogram_data_point, metric, number_data_point, sum, summary,
    summary_data_point, value_at_quantile,
};

/// Marks are below this number.
pub const MARKS: usize = 32;

/// What the table says of a field of the message.
#[inline]
pub fn row_of(message: Message, number: u32) -> Row
    ensures row { result ≡ row_in message number }
    ensures few { result.mark < mark_limit }
{
    match message {
        Message::BatchArrowRecords => batch_arrow_records(number),
        Message::ArrowPayload => arrow_payload(number),
        Message::BatchStatus => batch_status(number),
        Message::SendEvent => send_event(number),
        Message::Request(of) => request(of, number),
        Message::ResourceGroup(of) => resource_group(of, number),
        Message::ScopeGroup(of) => scope_group(of, number),
        Message::Resource => resource(number),
        Message::InstrumentationScope => instrumentation_scope(number),
        Message::KeyValue => key_value(number),
        Message::AnyValue => any_value(number),
        Message::ArrayValue => array_value(number),
        Message::KeyValueList => key_value_list(number),
        Message::LogRecord => log_record(number),
        Message::Span => span(number),
        Message::Event => event(number),
        Message::Link => link(number),
        Message::Status => status(number),
        Message::Metric => metric(number),
        Message::Gauge => gauge(number),
        Message::Sum => sum(number),
        Message::Histogram => histogram(number),
        Message::Summary => summary(number),
        Message::NumberDataPoint => number_data_point(number),
        Message::HistogramDataPoint => histogram_data_point(number),
        Message::SummaryDataPoint => summary_data_point(number),
        Message::ValueAtQuantile => value_at_quantile(number),
        Message::Exemplar => exemplar(number),
    }
}

/// The message of a scope group's items.
fn item_of(of: ItemKind) -> Message
    ensures { result ≡ table.item_of of }
{
    match of {
        ItemKind::Spans => Message::Span,
        ItemKind::LogRecords => Message::LogRecord,
        ItemKind::Metrics => Message::Metric,
    }
}

/// A field that occurs once at most, as does any other with this mark.
pub(crate) fn once(mark: usize, kind: FieldKind) -> Row
    ensures { result ≡ record { kind = kind; mark = mark } }
{
    Row { kind, mark }
}

/// A field that may occur any number of times.
pub(crate) fn many(kind: FieldKind) -> Row
    ensures { result ≡ record { kind = kind; mark = 0 } }
{
    Row { kind, mark: 0 }
}

fn batch_arrow_records(number: u32) -> Row
    ensures { result ≡ row_in Message.BatchArrowRecords number }
{
    match number {
        1 => once(1, FieldKind::Varint),
        2 => many(FieldKind::Embedded(Message::ArrowPayload)),
        _ => many(FieldKind::Unknown),
    }
}

fn arrow_payload(number: u32) -> Row
    ensures { result ≡ row_in Message.ArrowPayload number }
{
    match number {
        1 => once(1, FieldKind::Text),
        2 => once(2, FieldKind::Varint),
        3 => once(3, FieldKind::Octets),
        _ => many(FieldKind::Unknown),
    }
}

fn batch_status(number: u32) -> Row
    ensures { result ≡ row_in Message.BatchStatus number }
{
    match number {
        1 => once(1, FieldKind::Varint),
        2 => once(2, FieldKind::Varint),
        3 => once(3, FieldKind::Text),
        _ => many(FieldKind::Unknown),
    }
}

fn send_event(number: u32) -> Row
    ensures { result ≡ row_in Message.SendEvent number }
{
    match number {
        1 => once(1, FieldKind::Octets),
        2 => once(1, FieldKind::Embedded(Message::BatchStatus)),
        _ => many(FieldKind::Unknown),
    }
}

fn request(of: ItemKind, number: u32) -> Row
    ensures { result ≡ row_in (Message.Request of) number }
{
    match number {
        1 => many(FieldKind::Embedded(Message::ResourceGroup(of))),
        _ => many(FieldKind::Unknown),
    }
}

fn resource_group(of: ItemKind, number: u32) -> Row
    ensures { result ≡ row_in (Message.ResourceGroup of) number }
{
    match number {
        1 => once(1, FieldKind::Embedded(Message::Resource)),
        2 => many(FieldKind::Embedded(Message::ScopeGroup(of))),
        3 => once(3, FieldKind::Text),
        _ => many(FieldKind::Unknown),
    }
}

fn scope_group(of: ItemKind, number: u32) -> Row
    ensures { result ≡ row_in (Message.ScopeGroup of) number }
{
    match number {
        1 => once(1, FieldKind::Embedded(Message::InstrumentationScope)),
        2 => many(FieldKind::Embedded(item_of(of))),
        3 => once(3, FieldKind::Text),
        _ => many(FieldKind::Unknown),
    }
}

fn resource(number: u32) -> Row
    ensures { result ≡ row_in Message.Resource number }
{
    match number {
        1 => many(FieldKind::Embedded(Message::KeyValue)),
        2 => once(2, FieldKind::Varint),
        _ => many(FieldKind::Unknown),
    }
}

fn instrumentation_scope(number: u32) -> Row
    ensures { result ≡ row_in Message.InstrumentationScope number }
{
    match number {
        1 => once(1, FieldKind::Text),
        2 => once(2, FieldKind::Text),
        3 => many(FieldKind::Embedded(Message::KeyValue)),
        4 => once(4, FieldKind::Varint),
        _ => many(FieldKind::Unknown),
    }
}

fn key_value(number: u32) -> Row
    ensures { result ≡ row_in Message.KeyValue number }
{
    match number {
        1 => once(1, FieldKind::Text),
        2 => once(2, FieldKind::Embedded(Message::AnyValue)),
        _ => many(FieldKind::Unknown),
    }
}

fn any_value(number: u32) -> Row
    ensures { result ≡ row_in Message.AnyValue number }
{
    match number {
        1 => once(1, FieldKind::Text),
        2 | 3 => once(1, FieldKind::Varint),
        4 => once(1, FieldKind::Fixed64),
        5 => once(1, FieldKind::Embedded(Message::ArrayValue)),
        6 => once(1, FieldKind::Embedded(Message::KeyValueList)),
        7 => once(1, FieldKind::Octets),
        _ => many(FieldKind::Unknown),
    }
}

fn array_value(number: u32) -> Row
    ensures { result ≡ row_in Message.ArrayValue number }
{
    match number {
        1 => many(FieldKind::Member(Message::AnyValue)),
        _ => many(FieldKind::Unknown),
    }
}

fn key_value_list(number: u32) -> Row
    ensures { result ≡ row_in Message.KeyValueList number }
{
    match number {
        1 => many(FieldKind::Member(Message::KeyValue)),
        _ => many(FieldKind::Unknown),
    }
}

fn log_record(number: u32) -> Row
    ensures { result ≡ row_in Message.LogRecord number }
{
    match number {
        1 => once(1, FieldKind::Fixed64),
        2 => once(2, FieldKind::Varint),
        3 => once(3, FieldKind::Text),
        5 => once(5, FieldKind::Embedded(Message::AnyValue)),
        6 => many(FieldKind::Embedded(Message::KeyValue)),
        7 => once(7, FieldKind::Varint),
        8 => once(8, FieldKind::Fixed32),
        9 => once(9, FieldKind::Id(16)),
        10 => once(10, FieldKind::Id(8)),
        11 => once(11, FieldKind::Fixed64),
        12 => once(12, FieldKind::Text),
        _ => many(FieldKind::Unknown),
    }
}

fn span(number: u32) -> Row
    ensures { result ≡ row_in Message.Span number }
{
    match number {
        1 => once(1, FieldKind::Id(16)),
        2 => once(2, FieldKind::Id(8)),
        3 => once(3, FieldKind::Text),
        4 => once(4, FieldKind::Id(8)),
        5 => once(5, FieldKind::Text),
        6 => once(6, FieldKind::Varint),
        7 => once(7, FieldKind::Fixed64),
        8 => once(8, FieldKind::Fixed64),
        9 => many(FieldKind::Embedded(Message::KeyValue)),
        10 => once(10, FieldKind::Varint),
        11 => many(FieldKind::Embedded(Message::Event)),
        12 => once(12, FieldKind::Varint),
        13 => many(FieldKind::Embedded(Message::Link)),
        14 => once(14, FieldKind::Varint),
        15 => once(15, FieldKind::Embedded(Message::Status)),
        16 => once(16, FieldKind::Fixed32),
        _ => many(FieldKind::Unknown),
    }
}

fn event(number: u32) -> Row
    ensures { result ≡ row_in Message.Event number }
{
    match number {
        1 => once(1, FieldKind::Fixed64),
        2 => once(2, FieldKind::Text),
        3 => many(FieldKind::Embedded(Message::KeyValue)),
        4 => once(4, FieldKind::Varint),
        _ => many(FieldKind::Unknown),
    }
}

fn link(number: u32) -> Row
    ensures { result ≡ row_in Message.Link number }
{
    match number {
        1 => once(1, FieldKind::Id(16)),
        2 => once(2, FieldKind::Id(8)),
        3 => once(3, FieldKind::Text),
        4 => many(FieldKind::Embedded(Message::KeyValue)),
        5 => once(5, FieldKind::Varint),
        6 => once(6, FieldKind::Fixed32),
        _ => many(FieldKind::Unknown),
    }
}

fn status(number: u32) -> Row
    ensures { result ≡ row_in Message.Status number }
{
    match number {
        2 => once(2, FieldKind::Text),
        3 => once(3, FieldKind::Varint),
        _ => many(FieldKind::Unknown),
    }
}
