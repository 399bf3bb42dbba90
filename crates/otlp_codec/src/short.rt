//! Messages of one field or of two short ones, whose tag and length have one byte each (protobuf encoding, "Message Structure").
//! Nearly all values and pairs are such messages, so they are read without a loop.

ghost use Rattle.std.specs.Prelude.{◌≡◌, ◌<◌, [], ◌∷◌, None, IfSome};
ghost use Rattle.otlp_wire.specs.Wire.{Bytes, entry};
ghost use Rattle.otlp_wire.specs.Fields.{fields_of, end_of};

use otlp_wire::{Field, Fields};

/// The field that is all that the bytes encode.
#[inline(always)]
pub(crate) fn only_field(bytes: &[u8]) -> Option<Field<'_>>
    ensures fields { IfSome result (λ field. fields_of bytes.now ≡ entry field ∷ []) }
    ensures end { IfSome result (λ _. end_of bytes.now ≡ None) }
{
    let mut fields = Fields::new(bytes);
    let Some(Ok(field)) = fields.next() else {
        return None;
    };
    match fields.next() {
        None => Some(field),
        Some(_) => None,
    }
}

/// The bytes of the field at the front, where it is a short one with this number, and the bytes after it.
#[inline(always)]
pub(crate) fn short_field(number: u8, bytes: &[u8]) -> Option<(&[u8], &[u8])>
    requires above { 0 < number }
    requires below { number < 16 }
    ensures first { IfSome result (λ r. fields_of bytes.now ≡ record { number = number; value = Bytes r.0.now } ∷ fields_of r.1.now) }
    ensures end { IfSome result (λ r. end_of bytes.now ≡ end_of r.1.now) }
{
    let [tag, len, rest @ ..] = bytes else {
        return None;
    };
    let len = usize::from(*len);
    if *tag != 8 * number + 2 || len >= 128 || len > rest.len() {
        return None;
    }
    Some(rest.split_at(len))
}

/// What the short fields 1 and 2 hold, where the bytes encode these two in this order and nothing else.
#[inline(always)]
pub(crate) fn short_pair(bytes: &[u8]) -> Option<(&[u8], &[u8])>
    ensures fields { IfSome result (λ r. fields_of bytes.now ≡ record { number = 1; value = Bytes r.0.now } ∷ record { number = 2; value = Bytes r.1.now } ∷ []) }
    ensures end { IfSome result (λ _. end_of bytes.now ≡ None) }
{
    let (first, rest) = short_field(1, bytes)?;
    let (second, []) = short_field(2, rest)? else {
        return None;
    };
    Some((first, second))
}
