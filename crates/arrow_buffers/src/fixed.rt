ghost use Rattle.std.specs.Prelude.{◌≡◌, ◌≤◌, IfOk};
ghost use Rattle.std.specs.Option.{option_copied};
ghost use Rattle.arrow_buffers.specs.Fixed.{fixed_of, part_of};

use crate::BufferFault;
use std::marker::Model;

/// Values of one width, one after the other (Arrow columnar format, "Fixed-size primitive
/// layout").
#[derive(Debug, Drop)]
pub struct Fixed<'a> {
    bytes: &'a [u8],
    width: u32,
    rows: u64,
}

impl<'a> Model for Fixed<'a> {
    ghost use Rattle.std.specs.Prelude.{◌*◌, ◌≤◌, length};
    ghost use Rattle.arrow_buffers.specs.Fixed.{FixedIn};

    ghost Value = { FixedIn };

    ghost view = { λ f. record { bytes = f.bytes.now; width = f.width; rows = f.rows } };

    ghost invariant = { λ f. (f.rows * f.width ≤ length f.bytes.now) × (1 ≤ f.width) };
}

impl<'a> Fixed<'a> {
    /// The values of `rows` rows, of `width` bytes each: `Short` where there are fewer bytes.
    #[tactic(auto, unfolding(crate::specs::Fixed::fixed_of))]
    pub fn new(bytes: &'a [u8], width: u32, rows: u64) -> Result<Fixed<'a>, BufferFault>
        requires { 1 ≤ width }
        ensures exact { result ≡ fixed_of bytes.now width rows }
        ensures view { IfOk result (λ f. f ≡ record { bytes = bytes.now; width = width; rows = rows }) }
    {
        if (bytes.len() as u128) < u128::from(rows) * u128::from(width) {
            return Err(BufferFault::Short);
        }
        Ok(Fixed { bytes, width, rows })
    }

    /// The bytes of a row, or `None` where there is no such row.
    #[tactic(auto, unfolding(crate::specs::Fixed::part_of))]
    pub fn get(&self, row: u64) -> Option<&'a [u8]>
        ensures { option_copied result ≡ part_of self.now row }
    {
        if row >= self.rows {
            return None;
        }
        let width = self.width as usize;
        let start = row as usize * width;
        Some(&self.bytes[start..start + width])
    }
}
