//! The fields of a message, written from the last to the first. A method whose name ends in `row` writes
//! no field where the value is the default, as is canonical for a singular field; one whose name ends in
//! `field` always writes one, as is canonical for a member of a oneof and for a repeated field.

#![tactic(auto, using(crate::proofs::Keeping::keeps_more, crate::proofs::Keeping::keeps_itself))]

ghost use Rattle.std.specs.Prelude.{◌≡◌, ◌≤◌, ◌+◌, ◌*◌, ◌∷◌, [], ◌++◌, length, take, drop, OnOk, OnErr};
ghost use Rattle.std.specs.List.{flat_map};
ghost use Rattle.byteorder.specs.Endian.{little_bytes};
ghost use Rattle.otlp_wire.specs.Varint.{varint};
ghost use Rattle.otlp_wire.specs.Wire as wire;
ghost use Rattle.otlp_wire.specs.Wire.{IsNumber};
ghost use Rattle.otlp_messages.specs.Kept.{KeepsEnd};
ghost use Rattle.otlp_messages.specs.Canon.{canon_row, varint_row, signed_row, bool_row, fixed64_row, fixed32_row, optional_row, packed_row, bytes_row};

use crate::backward::Backward;
use byteorder::{ByteOrder, LittleEndian};
use std::alloc::AllocError;

impl Backward {
    /// Writes a field of wire type 0.
    #[inline]
    pub fn put_varint_field(&mut self, number: u32, value: u64) -> Result<(), AllocError>
        requires { IsNumber number }
        ensures ok { OnOk result (self.new ≡ canon_row number (wire.Varint value ∷ []) ++ self.old) }
        ensures err { OnErr result (KeepsEnd self.old self.new) }
    {
        self.push_varint(value)?;
        self.push_varint(8 * u64::from(number))?;
        Ok(())
    }

    /// Writes a field of wire type 1.
    #[inline]
    pub fn put_fixed64_field(&mut self, number: u32, value: u64) -> Result<(), AllocError>
        requires { IsNumber number }
        ensures ok { OnOk result (self.new ≡ canon_row number (wire.Fixed64 value ∷ []) ++ self.old) }
        ensures err { OnErr result (KeepsEnd self.old self.new) }
    {
        let mut bytes = [0; 8];
        LittleEndian::write_u64(&mut bytes, value);
        self.push_slice(&bytes)?;
        self.push_varint(8 * u64::from(number) + 1)?;
        Ok(())
    }

    /// Writes a field of wire type 5.
    #[inline]
    pub fn put_fixed32_field(&mut self, number: u32, value: u32) -> Result<(), AllocError>
        requires { IsNumber number }
        ensures ok { OnOk result (self.new ≡ canon_row number (wire.Fixed32 value ∷ []) ++ self.old) }
        ensures err { OnErr result (KeepsEnd self.old self.new) }
    {
        let mut bytes = [0; 4];
        LittleEndian::write_u32(&mut bytes, value);
        self.push_slice(&bytes)?;
        self.push_varint(8 * u64::from(number) + 5)?;
        Ok(())
    }

    /// Writes a field of wire type 2.
    #[inline]
    pub fn put_bytes_field(&mut self, number: u32, part: &[u8]) -> Result<(), AllocError>
        requires { IsNumber number }
        ensures ok { OnOk result (self.new ≡ canon_row number (wire.Bytes part.now ∷ []) ++ self.old) }
        ensures err { OnErr result (KeepsEnd self.old self.new) }
    {
        self.push_slice(part)?;
        self.close_head(number, part.len())?;
        Ok(())
    }

    /// Makes the first `size` bytes a field of wire type 2.
    #[inline]
    pub fn close_field(&mut self, number: u32, size: usize) -> Result<(), AllocError>
        requires number { IsNumber number }
        requires size { size ≤ length self.old }
        ensures ok { OnOk result (self.new ≡ canon_row number (wire.Bytes (take size self.old) ∷ []) ++ drop size self.old) }
        ensures err { OnErr result (KeepsEnd self.old self.new) }
    {
        self.close_head(number, size)?;
        Ok(())
    }

    /// Writes the tag and the length of a field of wire type 2: mostly one byte each.
    #[inline]
    #[tactic(auto, using(otlp_wire::proofs::Shortest::varint_small, crate::proofs::Keeping::keeps_more, crate::proofs::Keeping::keeps_itself))]
    fn close_head(&mut self, number: u32, size: usize) -> Result<(), AllocError>
        requires { IsNumber number }
        ensures ok { OnOk result (self.new ≡ varint (8 * number + 2) ++ (varint size ++ self.old)) }
        ensures err { OnErr result (KeepsEnd self.old self.new) }
    {
        if number < 16 && size < 128 {
            return self.push_slice(&[8 * number as u8 + 2, size as u8]);
        }
        self.push_varint(size as u64)?;
        self.push_varint(8 * u64::from(number) + 2)?;
        Ok(())
    }

    /// Writes an unsigned number.
    #[inline]
    pub fn put_varint_row(&mut self, number: u32, value: u64) -> Result<(), AllocError>
        requires { IsNumber number }
        ensures ok { OnOk result (self.new ≡ canon_row number (varint_row value) ++ self.old) }
        ensures err { OnErr result (KeepsEnd self.old self.new) }
    {
        if value != 0 {
            self.put_varint_field(number, value)?;
        }
        Ok(())
    }

    /// Writes a signed number or an enum: one below zero has ten bytes.
    #[inline]
    pub fn put_signed_row(&mut self, number: u32, value: i64) -> Result<(), AllocError>
        requires { IsNumber number }
        ensures ok { OnOk result (self.new ≡ canon_row number (signed_row value) ++ self.old) }
        ensures err { OnErr result (KeepsEnd self.old self.new) }
    {
        self.put_varint_row(number, value.cast_unsigned())?;
        Ok(())
    }

    /// Writes a bool.
    #[inline]
    pub fn put_bool_row(&mut self, number: u32, value: bool) -> Result<(), AllocError>
        requires { IsNumber number }
        ensures ok { OnOk result (self.new ≡ canon_row number (bool_row value) ++ self.old) }
        ensures err { OnErr result (KeepsEnd self.old self.new) }
    {
        if value {
            self.put_varint_field(number, 1)?;
        }
        Ok(())
    }

    /// Writes 64 bits.
    #[inline]
    pub fn put_fixed64_row(&mut self, number: u32, value: u64) -> Result<(), AllocError>
        requires { IsNumber number }
        ensures ok { OnOk result (self.new ≡ canon_row number (fixed64_row value) ++ self.old) }
        ensures err { OnErr result (KeepsEnd self.old self.new) }
    {
        if value != 0 {
            self.put_fixed64_field(number, value)?;
        }
        Ok(())
    }

    /// Writes 32 bits.
    #[inline]
    pub fn put_fixed32_row(&mut self, number: u32, value: u32) -> Result<(), AllocError>
        requires { IsNumber number }
        ensures ok { OnOk result (self.new ≡ canon_row number (fixed32_row value) ++ self.old) }
        ensures err { OnErr result (KeepsEnd self.old self.new) }
    {
        if value != 0 {
            self.put_fixed32_field(number, value)?;
        }
        Ok(())
    }

    /// Writes 64 bits that may be missing: zero is written too.
    #[inline]
    pub fn put_optional_row(&mut self, number: u32, value: Option<u64>) -> Result<(), AllocError>
        requires { IsNumber number }
        ensures ok { OnOk result (self.new ≡ canon_row number (optional_row value) ++ self.old) }
        ensures err { OnErr result (KeepsEnd self.old self.new) }
    {
        if let Some(value) = value {
            self.put_fixed64_field(number, value)?;
        }
        Ok(())
    }

    /// Writes numbers of 64 bits, packed in one field of wire type 2.
    #[inline]
    pub fn put_packed64_row(&mut self, number: u32, values: &[u64]) -> Result<(), AllocError>
        requires { IsNumber number }
        ensures ok { OnOk result (self.new ≡ canon_row number (packed_row values.now) ++ self.old) }
        ensures err { OnErr result (KeepsEnd self.old self.new) }
    {
        if values.is_empty() {
            return Ok(());
        }
        let before = self.len();
        self.push_numbers(values)?;
        let size = self.len() - before;
        self.close_field(number, size)
    }

    /// Writes numbers of 64 bits before all others, each little-endian.
    #[inline]
    fn push_numbers(&mut self, values: &[u64]) -> Result<(), AllocError>
        ensures ok { OnOk result (self.new ≡ flat_map (little_bytes 8) values.now ++ self.old) }
        ensures err { OnErr result (KeepsEnd self.old self.new) }
    {
        let mut bytes = [0; 8];
        'values: for place in (0..values.len()).rev() {
            LittleEndian::write_u64(&mut bytes, values[place]);
            self.push_slice(&bytes)?;
        }
        Ok(())
    }

    /// Writes a string or bytes.
    #[inline]
    pub fn put_bytes_row(&mut self, number: u32, part: &[u8]) -> Result<(), AllocError>
        requires { IsNumber number }
        ensures ok { OnOk result (self.new ≡ canon_row number (bytes_row part.now) ++ self.old) }
        ensures err { OnErr result (KeepsEnd self.old self.new) }
    {
        if !part.is_empty() {
            self.put_bytes_field(number, part)?;
        }
        Ok(())
    }

    /// Makes the first `size` bytes a singular message.
    #[inline]
    pub fn close_row(&mut self, number: u32, size: usize) -> Result<(), AllocError>
        requires number { IsNumber number }
        requires size { size ≤ length self.old }
        ensures ok { OnOk result (self.new ≡ canon_row number (bytes_row (take size self.old)) ++ drop size self.old) }
        ensures err { OnErr result (KeepsEnd self.old self.new) }
    {
        if size != 0 {
            self.close_field(number, size)?;
        }
        Ok(())
    }
}
