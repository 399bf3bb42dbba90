ghost use Rattle.std.specs.Prelude.{◌≡◌, IfOk};
ghost use Rattle.arrow_buffers.specs.Bits.{bits_of, validity_of, flag_of};

use crate::BufferFault;
use std::marker::Model;

/// One bit for each row, the lowest bit of a byte first (Arrow columnar format, "Validity
/// bitmaps"): the values of a boolean column, or which rows of a column are not null.
#[derive(Debug, Drop)]
pub struct Bits<'a> {
    bytes: &'a [u8],
    rows: u64,
}

impl<'a> Model for Bits<'a> {
    ghost use Rattle.std.specs.Prelude.{◌*◌, ◌<◌, ◌≤◌, length};
    ghost use Rattle.arrow_buffers.specs.Bits.{BitsIn};

    ghost Value = { BitsIn };

    ghost view = { λ b. record { bytes = b.bytes.now; rows = b.rows } };

    ghost invariant = { λ b. 0 < length b.bytes.now → b.rows ≤ length b.bytes.now * 8 };
}

impl<'a> Bits<'a> {
    /// The validity bitmap of `rows` rows, of which `nulls` are said to be null. Where it is empty
    /// all rows are valid, so nulls are `BadNulls` then; else it is `Short` where it has less than
    /// one bit a row, and `nulls` is not looked at.
    #[tactic(auto, unfolding(crate::specs::Bits::validity_of, crate::specs::Bits::bits_of))]
    pub fn validity(bytes: &'a [u8], rows: u64, nulls: i64) -> Result<Bits<'a>, BufferFault>
        ensures exact { result ≡ validity_of bytes.now rows nulls }
        ensures view { IfOk result (λ b. b ≡ record { bytes = bytes.now; rows = rows }) }
    {
        if bytes.is_empty() {
            if nulls > 0 {
                return Err(BufferFault::BadNulls);
            }
            return Ok(Bits { bytes, rows });
        }
        Bits::values(bytes, rows)
    }

    /// The values of a boolean column: `Short` where there is less than one bit a row.
    #[tactic(auto, unfolding(crate::specs::Bits::bits_of))]
    pub fn values(bytes: &'a [u8], rows: u64) -> Result<Bits<'a>, BufferFault>
        ensures exact { result ≡ bits_of bytes.now rows }
        ensures view { IfOk result (λ b. b ≡ record { bytes = bytes.now; rows = rows }) }
    {
        if (bytes.len() as u128) * 8 < u128::from(rows) {
            return Err(BufferFault::Short);
        }
        Ok(Bits { bytes, rows })
    }

    /// The bit of a row, or `None` where there is no such row.
    #[tactic(auto, unfolding(crate::specs::Bits::flag_of, crate::specs::Bits::bit_at))]
    pub fn get(&self, row: u64) -> Option<bool>
        ensures { result ≡ flag_of self.now row }
    {
        if row >= self.rows {
            return None;
        }
        if self.bytes.is_empty() {
            return Some(true);
        }
        let byte = self.bytes[(row / 8) as usize];
        Some((byte >> (row % 8)) & 1 == 1)
    }
}
