//! The fields of bytes, from left to right.

ghost use Rattle.std.specs.Prelude.{◌≡◌, ◌<◌, ◌++◌, length, IfOk, IfErr};
ghost use Rattle.std.specs.Iterator.{at_most};
ghost use Rattle.otlp_wire.specs.Wire as spec;
ghost use Rattle.otlp_wire.specs.Wire.{entry, value_of, IsField, IsValue};
ghost use Rattle.otlp_wire.specs.Reading.{Begins, ValueFaults, Faults};
ghost use Rattle.otlp_wire.specs.Fields.{TakesFirst};

use crate::parts::{Field, MAX_NUMBER, Wire, WireError};
use crate::varint::take_varint;
use byteorder::{ByteOrder, LittleEndian};
use std::marker::Model;

/// The fields that bytes encode, in order, and then the first error, if there is one. After an error
/// nothing more comes.
#[derive(Debug, Drop)]
pub struct Fields<'a> {
    rest: &'a [u8],
}

impl<'a> Model for Fields<'a> {
    ghost use Rattle.std.specs.Prelude.{ℕ, List};

    ghost Value = { List ℕ };

    ghost view = { λ s. s.rest.now };
}

impl<'a> Fields<'a> {
    /// The fields of these bytes.
    pub fn new(bytes: &'a [u8]) -> Fields<'a>
        ensures { result ≡ bytes.now }
    {
        Fields { rest: bytes }
    }
}

impl<'a> Iterator for Fields<'a> {
    type Item = Result<Field<'a>, WireError>;

    ghost next_gives = { TakesFirst };

    ghost remaining = { λ s. at_most (length s) };

    #[inline(always)]
    fn next(&mut self) -> Option<Result<Field<'a>, WireError>> {
        if self.rest.is_empty() {
            return None;
        }
        match take_field(self.rest) {
            Ok((field, rest)) => {
                self.rest = rest;
                Some(Ok(field))
            }
            Err(error) => {
                self.rest = &[];
                Some(Err(error))
            }
        }
    }
}

/// The field at the front of the bytes, and the bytes after it.
#[inline(always)]
fn take_field(bytes: &[u8]) -> Result<(Field<'_>, &[u8]), WireError>
    ensures ok { IfOk result (λ r. Begins (λ front. IsField front (entry r.0)) bytes.now r.1.now) }
    ensures shorter { IfOk result (λ r. length r.1.now < length bytes.now) }
    ensures err { IfErr result (Faults bytes.now) }
{
    let (tag, rest) = take_varint(bytes)?;
    let number = tag / 8;
    if number == 0 || number > u64::from(MAX_NUMBER) {
        return Err(WireError::BadTag);
    }
    let (value, rest) = take_value(tag % 8, rest)?;
    let number = number as u32;
    Ok((Field { number, value }, rest))
}

/// The value of this wire type at the front of the bytes, and the bytes after it.
#[inline(always)]
fn take_value(wire_type: u64, bytes: &[u8]) -> Result<(Wire<'_>, &[u8]), WireError>
    requires { wire_type < 8 }
    ensures ok { IfOk result (λ r. Begins (λ front. IsValue front (value_of r.0)) bytes.now r.1.now) }
    ensures kind { IfOk result (λ r. spec.wire_type (value_of r.0) ≡ wire_type) }
    ensures err { IfErr result (ValueFaults wire_type bytes.now) }
{
    match wire_type {
        0 => {
            let (value, rest) = take_varint(bytes)?;
            Ok((Wire::Varint(value), rest))
        }
        1 => {
            let (front, rest) = take_part(8, bytes)?;
            Ok((Wire::Fixed64(LittleEndian::read_u64(front)), rest))
        }
        2 => {
            let (len, rest) = take_varint(bytes)?;
            let (part, rest) = take_part(len, rest)?;
            Ok((Wire::Bytes(part), rest))
        }
        5 => {
            let (front, rest) = take_part(4, bytes)?;
            Ok((Wire::Fixed32(LittleEndian::read_u32(front)), rest))
        }
        _ => Err(WireError::BadWireType),
    }
}

/// The first `len` bytes, and the bytes after them.
#[inline(always)]
fn take_part(len: u64, bytes: &[u8]) -> Result<(&[u8], &[u8]), WireError>
    ensures ok { IfOk result (λ r. (bytes.now ≡ r.0.now ++ r.1.now) × (length r.0.now ≡ len)) }
    ensures err { IfErr result (λ e. (length bytes.now < len) × (e ≡ WireError.Cut)) }
{
    if len > bytes.len() as u64 {
        return Err(WireError::Cut);
    }
    Ok(bytes.split_at(len as usize))
}
