ghost use Rattle.std.specs.Prelude.{◌≡◌, IfOk, IsOk};
ghost use Rattle.std.specs.Option.{option_copied};
ghost use Rattle.std.specs.Str.{is_utf8};
ghost use Rattle.arrow_buffers.specs.Vars.{vars_of, row_span, is_text_at, utf8_check};

use crate::{Bits, BufferFault, offsets};
use lists::as_utf8;
use std::marker::Model;

/// Values that differ in length, each from one offset to the next (Arrow columnar format,
/// "Variable-size binary layout").
#[derive(Debug, Drop)]
pub struct Vars<'a> {
    offsets: &'a [u8],
    values: &'a [u8],
    rows: u64,
}

impl<'a> Model for Vars<'a> {
    ghost use Rattle.std.specs.Prelude.{IsOk};
    ghost use Rattle.arrow_buffers.specs.Offsets.{offsets_check};
    ghost use Rattle.arrow_buffers.specs.Vars.{VarsIn};

    ghost Value = { VarsIn };

    ghost view = { λ v. record { offsets = v.offsets.now; values = v.values.now; rows = v.rows } };

    ghost invariant = { λ v. IsOk (offsets_check 1 v.offsets.now v.values.now v.rows) };
}

impl<'a> Vars<'a> {
    /// The values of `rows` rows. `Short` where there are fewer offsets than one more than the rows
    /// (without rows none are needed); `BadOffsets` where one is negative, less than the one before,
    /// or past the values. It reads each offset once.
    #[tactic(auto, unfolding(crate::specs::Vars::vars_of))]
    pub fn new(offsets: &'a [u8], values: &'a [u8], rows: u64) -> Result<Vars<'a>, BufferFault>
        ensures exact { result ≡ vars_of offsets.now values.now rows }
        ensures view { IfOk result (λ v. v ≡ record { offsets = offsets.now; values = values.now; rows = rows }) }
    {
        offsets::check(offsets, values, 1, rows)?;
        Ok(Vars {
            offsets,
            values,
            rows,
        })
    }

    /// The same view, for buffers that `new` reads. It looks at no offset.
    #[tactic(auto, unfolding(crate::specs::Vars::vars_of))]
    pub fn checked(offsets: &'a [u8], values: &'a [u8], rows: u64) -> Vars<'a>
        requires { IsOk (vars_of offsets.now values.now rows) }
        ensures { result ≡ record { offsets = offsets.now; values = values.now; rows = rows } }
    {
        Vars {
            offsets,
            values,
            rows,
        }
    }

    /// The bytes of a row, or `None` where there is no such row.
    #[tactic(auto, unfolding(crate::specs::Vars::row_span))]
    pub fn get(&self, row: u64) -> Option<&'a [u8]>
        ensures { option_copied result ≡ row_span self.now row }
    {
        if row >= self.rows {
            return None;
        }
        Some(offsets::span(self.offsets, self.values, 1, row))
    }

    /// `BadUtf8` where a row that is valid is not UTF-8 by itself. Other rows are not looked at.
    #[tactic(auto, unfolding(crate::specs::Vars::utf8_check))]
    pub fn check_utf8(&self, valid: &Bits<'_>) -> Result<(), BufferFault>
        ensures { result ≡ utf8_check self.now valid.now }
    {
        'rows: for row in 0..self.rows {
            if !self.is_text(valid, row) {
                return Err(BufferFault::BadUtf8);
            }
        }
        Ok(())
    }

    fn is_text(&self, valid: &Bits<'_>, row: u64) -> bool
        ensures { result ≡ is_text_at self.now valid.now row }
    {
        match (valid.get(row), self.get(row)) {
            (Some(true), Some(text)) => is_utf8(text),
            _ => true,
        }
    }
}

fn is_utf8(bytes: &[u8]) -> bool
    ensures { result ≡ is_utf8 bytes.now }
{
    match as_utf8(bytes) {
        Some(_text) => true,
        None => false,
    }
}
