//! The part of the table for metrics.

ghost use Rattle.std.specs.Prelude.{◌≡◌};
ghost use Rattle.otlp_messages.specs.Table.{row_in};

use crate::messages::{FieldKind, Message, Row};
use crate::table::{many, once};

pub(crate) fn metric(number: u32) -> Row
    ensures { result ≡ row_in Message.Metric number }
{
    match number {
        1 => once(1, FieldKind::Text),
        2 => once(2, FieldKind::Text),
        3 => once(3, FieldKind::Text),
        5 => once(5, FieldKind::Embedded(Message::Gauge)),
        7 => once(5, FieldKind::Embedded(Message::Sum)),
        9 => once(5, FieldKind::Embedded(Message::Histogram)),
        10 => once(5, FieldKind::Refused),
        11 => once(5, FieldKind::Embedded(Message::Summary)),
        _ => many(FieldKind::Unknown),
    }
}

pub(crate) fn gauge(number: u32) -> Row
    ensures { result ≡ row_in Message.Gauge number }
{
    match number {
        1 => many(FieldKind::Embedded(Message::NumberDataPoint)),
        _ => many(FieldKind::Unknown),
    }
}

pub(crate) fn sum(number: u32) -> Row
    ensures { result ≡ row_in Message.Sum number }
{
    match number {
        1 => many(FieldKind::Embedded(Message::NumberDataPoint)),
        2 => once(2, FieldKind::Varint),
        3 => once(3, FieldKind::Varint),
        _ => many(FieldKind::Unknown),
    }
}

pub(crate) fn histogram(number: u32) -> Row
    ensures { result ≡ row_in Message.Histogram number }
{
    match number {
        1 => many(FieldKind::Embedded(Message::HistogramDataPoint)),
        2 => once(2, FieldKind::Varint),
        _ => many(FieldKind::Unknown),
    }
}

pub(crate) fn summary(number: u32) -> Row
    ensures { result ≡ row_in Message.Summary number }
{
    match number {
        1 => many(FieldKind::Embedded(Message::SummaryDataPoint)),
        _ => many(FieldKind::Unknown),
    }
}

pub(crate) fn number_data_point(number: u32) -> Row
    ensures { result ≡ row_in Message.NumberDataPoint number }
{
    match number {
        2 => once(2, FieldKind::Fixed64),
        3 => once(3, FieldKind::Fixed64),
        4 | 6 => once(4, FieldKind::Fixed64),
        5 => many(FieldKind::Embedded(Message::Exemplar)),
        7 => many(FieldKind::Embedded(Message::KeyValue)),
        8 => once(8, FieldKind::Varint),
        _ => many(FieldKind::Unknown),
    }
}

pub(crate) fn histogram_data_point(number: u32) -> Row
    ensures { result ≡ row_in Message.HistogramDataPoint number }
{
    match number {
        2 => once(2, FieldKind::Fixed64),
        3 => once(3, FieldKind::Fixed64),
        4 => once(4, FieldKind::Fixed64),
        5 => once(5, FieldKind::Fixed64),
        6 | 7 => many(FieldKind::Packed64),
        8 => many(FieldKind::Embedded(Message::Exemplar)),
        9 => many(FieldKind::Embedded(Message::KeyValue)),
        10 => once(10, FieldKind::Varint),
        11 => once(11, FieldKind::Fixed64),
        12 => once(12, FieldKind::Fixed64),
        _ => many(FieldKind::Unknown),
    }
}

pub(crate) fn summary_data_point(number: u32) -> Row
    ensures { result ≡ row_in Message.SummaryDataPoint number }
{
    match number {
        2 => once(2, FieldKind::Fixed64),
        3 => once(3, FieldKind::Fixed64),
        4 => once(4, FieldKind::Fixed64),
        5 => once(5, FieldKind::Fixed64),
        6 => many(FieldKind::Embedded(Message::ValueAtQuantile)),
        7 => many(FieldKind::Embedded(Message::KeyValue)),
        8 => once(8, FieldKind::Varint),
        _ => many(FieldKind::Unknown),
    }
}

pub(crate) fn value_at_quantile(number: u32) -> Row
    ensures { result ≡ row_in Message.ValueAtQuantile number }
{
    match number {
        1 => once(1, FieldKind::Fixed64),
        2 => once(2, FieldKind::Fixed64),
        _ => many(FieldKind::Unknown),
    }
}

pub(crate) fn exemplar(number: u32) -> Row
    ensures { result ≡ row_in Message.Exemplar number }
{
    match number {
        2 => once(2, FieldKind::Fixed64),
        3 | 6 => once(3, FieldKind::Fixed64),
        4 => once(4, FieldKind::Id(8)),
        5 => once(5, FieldKind::Id(16)),
        7 => many(FieldKind::Embedded(Message::KeyValue)),
        _ => many(FieldKind::Unknown),
    }
}
