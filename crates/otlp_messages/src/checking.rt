//! Whether bytes are a message, without making anything of them.

ghost use Rattle.std.specs.Prelude.{OnOk, IfErr, ◌↔◌, IsTrue, IsUtf8};
ghost use Rattle.otlp_wire.specs.Wire as wire;
ghost use Rattle.otlp_wire.specs.Wire.{value_of};
ghost use Rattle.otlp_messages.specs.Defects.{Stands, IsFine};
ghost use Rattle.otlp_messages.specs.Fine.{FinePart, FineValue};
ghost use Rattle.otlp_messages.specs.Inside.{ValueStands};

use crate::messages::{Defect, FieldKind, Message};
use crate::table::{MARKS, row_of};
use lists::as_utf8;
use otlp_wire::{Fields, Wire};

/// Whether the bytes are the message, in one pass over them. `levels` says how many levels of members
/// may be below the values of the message.
#[cycle(check)]
pub fn check(message: Message, levels: u8, bytes: &[u8]) -> Result<(), Defect>
    ensures fine { OnOk result (IsFine message levels bytes.now) }
    ensures fault { IfErr result (Stands message levels bytes.now) }
{
    let mut seen = [false; MARKS];
    'fields: for next in Fields::new(bytes) {
        let Ok(field) = next else {
            return Err(Defect::BadMessage);
        };
        let row = row_of(message, field.number);
        if seen[row.mark] {
            return Err(Defect::Repeated);
        }
        seen[row.mark] = row.mark != 0;
        check_value(row.kind, levels, &field.value)?;
    }
    Ok(())
}

/// Whether the value is of the kind.
#[cycle(check)]
fn check_value(kind: FieldKind, levels: u8, value: &Wire<'_>) -> Result<(), Defect>
    ensures fine { OnOk result (FineValue kind levels (value_of value.now)) }
    ensures fault { IfErr result (ValueStands kind levels (value_of value.now)) }
{
    match (value, kind) {
        (_, FieldKind::Unknown)
        | (Wire::Varint(_), FieldKind::Varint)
        | (Wire::Fixed64(_), FieldKind::Fixed64 | FieldKind::Packed64)
        | (Wire::Fixed32(_), FieldKind::Fixed32) => Ok(()),
        (Wire::Bytes(part), kind) => check_part(kind, levels, part),
        _ => Err(Defect::BadMessage),
    }
}

/// Whether the bytes are of the kind.
#[cycle(check)]
fn check_part(kind: FieldKind, levels: u8, part: &[u8]) -> Result<(), Defect>
    ensures fine { OnOk result (FinePart kind levels part.now) }
    ensures fault { IfErr result (ValueStands kind levels (wire.Bytes part.now)) }
{
    match kind {
        FieldKind::Unknown | FieldKind::Octets => Ok(()),
        FieldKind::Varint | FieldKind::Fixed64 | FieldKind::Fixed32 => Err(Defect::BadMessage),
        FieldKind::Packed64 if part.len() % 8 == 0 => Ok(()),
        FieldKind::Packed64 => Err(Defect::BadMessage),
        FieldKind::Text if is_text(part) => Ok(()),
        FieldKind::Text => Err(Defect::BadUtf8),
        FieldKind::Id(size) if part.is_empty() || part.len() == size => Ok(()),
        FieldKind::Id(_) => Err(Defect::BadLength),
        FieldKind::Embedded(message) => check(message, levels, part),
        FieldKind::Member(_) if levels == 0 => Err(Defect::TooDeep),
        FieldKind::Member(message) => check(message, levels - 1, part),
        FieldKind::Refused => Err(Defect::Unsupported),
    }
}

/// Whether the bytes are UTF-8.
pub fn is_text(part: &[u8]) -> bool
    ensures { IsTrue result ↔ IsUtf8 part.now }
{
    as_utf8(part).is_some()
}
