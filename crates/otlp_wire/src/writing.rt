//! The bytes of a field, in its shortest encoding. After an `Err` the target is as it was.

ghost use Rattle.std.specs.Prelude.{◌≡◌, ◌+◌, ◌<◌, ◌≤◌, ◌++◌, length, vec_len, vec_capacity, OnOk, OnErr};
ghost use Rattle.otlp_wire.specs.Wire as spec;
ghost use Rattle.otlp_wire.specs.Wire.{IsNumber, spelling};

use crate::varint::{len_varint, put_varint};
use byteorder::{ByteOrder, LittleEndian};
use std::alloc::AllocError;

/// Appends a field of wire type 0.
pub fn put_varint_field(to: &mut Vec<u8>, number: u32, value: u64) -> Result<(), AllocError>
    requires { IsNumber number }
    ensures ok { OnOk result (to.new.items ≡ to.old.items ++ spelling (record { number = number; value = spec.Varint value })) }
    ensures err { OnErr result (to.new.items ≡ to.old.items) }
    ensures full { OnErr result (vec_capacity to.old < vec_len to.old + length (spelling (record { number = number; value = spec.Varint value }))) }
    ensures capacity { vec_capacity to.old ≤ vec_capacity to.new }
{
    let tag = 8 * u64::from(number);
    to.reserve(len_varint(tag) + len_varint(value))?;
    put_varint(to, tag)?;
    put_varint(to, value)?;
    Ok(())
}

/// Appends a field of wire type 1.
pub fn put_fixed64_field(to: &mut Vec<u8>, number: u32, value: u64) -> Result<(), AllocError>
    requires { IsNumber number }
    ensures ok { OnOk result (to.new.items ≡ to.old.items ++ spelling (record { number = number; value = spec.Fixed64 value })) }
    ensures err { OnErr result (to.new.items ≡ to.old.items) }
    ensures full { OnErr result (vec_capacity to.old < vec_len to.old + length (spelling (record { number = number; value = spec.Fixed64 value }))) }
    ensures capacity { vec_capacity to.old ≤ vec_capacity to.new }
{
    let tag = 8 * u64::from(number) + 1;
    let mut bytes = [0; 8];
    LittleEndian::write_u64(&mut bytes, value);
    to.reserve(len_varint(tag) + 8)?;
    put_varint(to, tag)?;
    to.extend_from_slice(&bytes)?;
    Ok(())
}

/// Appends a field of wire type 5.
pub fn put_fixed32_field(to: &mut Vec<u8>, number: u32, value: u32) -> Result<(), AllocError>
    requires { IsNumber number }
    ensures ok { OnOk result (to.new.items ≡ to.old.items ++ spelling (record { number = number; value = spec.Fixed32 value })) }
    ensures err { OnErr result (to.new.items ≡ to.old.items) }
    ensures full { OnErr result (vec_capacity to.old < vec_len to.old + length (spelling (record { number = number; value = spec.Fixed32 value }))) }
    ensures capacity { vec_capacity to.old ≤ vec_capacity to.new }
{
    let tag = 8 * u64::from(number) + 5;
    let mut bytes = [0; 4];
    LittleEndian::write_u32(&mut bytes, value);
    to.reserve(len_varint(tag) + 4)?;
    put_varint(to, tag)?;
    to.extend_from_slice(&bytes)?;
    Ok(())
}

/// Appends a field of wire type 2: a string, bytes or a message.
pub fn put_bytes_field(to: &mut Vec<u8>, number: u32, part: &[u8]) -> Result<(), AllocError>
    requires { IsNumber number }
    ensures ok { OnOk result (to.new.items ≡ to.old.items ++ spelling (record { number = number; value = spec.Bytes part.now })) }
    ensures err { OnErr result (to.new.items ≡ to.old.items) }
    ensures full { OnErr result (vec_capacity to.old < vec_len to.old + length (spelling (record { number = number; value = spec.Bytes part.now }))) }
    ensures capacity { vec_capacity to.old ≤ vec_capacity to.new }
{
    let tag = 8 * u64::from(number) + 2;
    let len = part.len() as u64;
    to.reserve(len_varint(tag) + len_varint(len) + part.len())?;
    put_varint(to, tag)?;
    put_varint(to, len)?;
    to.extend_from_slice(part)?;
    Ok(())
}
