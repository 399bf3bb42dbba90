//! What the fields of one number say, for messages of few fields.

ghost use Rattle.std.specs.Prelude.{◌≡◌, [], pos};
ghost use Rattle.otlp_wire.specs.Wire.{value_of};
ghost use Rattle.otlp_messages.specs.Rows.{said, int32_in, int64_in, bytes_in};

use otlp_wire::{Fields, Wire};

/// The bytes in the last field of the number, or none.
pub fn bytes_of(message: &[u8], number: u32) -> &[u8]
    ensures { result.now ≡ said number bytes_in [] message.now }
{
    let mut bytes: &[u8] = &[];
    'fields: for next in Fields::new(message) {
        let Ok(field) = next else {
            return bytes;
        };
        if field.number == number {
            bytes = bytes_over(bytes, field.value);
        }
    }
    bytes
}

/// The enum or `int32` in the last field of the number, or 0.
pub fn int32_of(message: &[u8], number: u32) -> i32
    ensures { result ≡ said number int32_in (pos 0) message.now }
{
    let mut int = 0;
    'fields: for next in Fields::new(message) {
        let Ok(field) = next else {
            return int;
        };
        if field.number == number {
            int = int32_over(int, field.value);
        }
    }
    int
}

/// The `int64` in the last field of the number, or 0.
pub fn int64_of(message: &[u8], number: u32) -> i64
    ensures { result ≡ said number int64_in (pos 0) message.now }
{
    let mut int = 0;
    'fields: for next in Fields::new(message) {
        let Ok(field) = next else {
            return int;
        };
        if field.number == number {
            int = int64_over(int, field.value);
        }
    }
    int
}

fn bytes_over<'a>(old: &'a [u8], value: Wire<'a>) -> &'a [u8]
    ensures { result.now ≡ bytes_in old.now (value_of value.entry) }
{
    match value {
        Wire::Bytes(part) => part,
        _ => old,
    }
}

fn int32_over(old: i32, value: Wire<'_>) -> i32
    ensures { result ≡ int32_in old (value_of value.entry) }
{
    match value {
        Wire::Varint(number) => ((number % (1 << 32)) as u32).cast_signed(),
        _ => old,
    }
}

fn int64_over(old: i64, value: Wire<'_>) -> i64
    ensures { result ≡ int64_in old (value_of value.entry) }
{
    match value {
        Wire::Varint(number) => number.cast_signed(),
        _ => old,
    }
}
