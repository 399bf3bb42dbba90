ghost use Rattle.std.specs.Prelude.{◌≡◌, ◌<◌, ◌≤◌, IfOk, IsOk};
ghost use Rattle.std.specs.Option.{option_copied};
ghost use Rattle.arrow_buffers.specs.Lists.{lists_of, elements_of, is_full, is_full_at, nulls_check};

use crate::{Bits, BufferFault, offsets};
use std::marker::Model;

/// Lists of elements of one width, each list from one offset to the next (Arrow columnar format,
/// "Variable-size list layout").
#[derive(Debug, Drop)]
pub struct Lists<'a> {
    offsets: &'a [u8],
    values: &'a [u8],
    width: u32,
    rows: u64,
}

impl<'a> Model for Lists<'a> {
    ghost use Rattle.std.specs.Prelude.{◌≤◌, IsOk};
    ghost use Rattle.arrow_buffers.specs.Offsets.{offsets_check};
    ghost use Rattle.arrow_buffers.specs.Lists.{ListsIn};

    ghost Value = { ListsIn };

    ghost view = { λ l. record { offsets = l.offsets.now; values = l.values.now; width = l.width; rows = l.rows } };

    ghost invariant = { λ l. (1 ≤ l.width) × IsOk (offsets_check l.width l.offsets.now l.values.now l.rows) };
}

impl<'a> Lists<'a> {
    /// The lists of `rows` rows. The values are the elements that offsets may lead to, each of
    /// `width` bytes. `Short` where there are fewer offsets than one more than the rows (without
    /// rows none are needed); `BadOffsets` where one is negative, less than the one before, or past
    /// the values. It reads each offset once.
    #[tactic(auto, unfolding(crate::specs::Lists::lists_of))]
    pub fn new(
        offsets: &'a [u8],
        values: &'a [u8],
        width: u32,
        rows: u64,
    ) -> Result<Lists<'a>, BufferFault>
        requires { 1 ≤ width }
        ensures exact { result ≡ lists_of offsets.now values.now width rows }
        ensures view { IfOk result (λ l. l ≡ record { offsets = offsets.now; values = values.now; width = width; rows = rows }) }
    {
        offsets::check(offsets, values, width, rows)?;
        Ok(Lists {
            offsets,
            values,
            width,
            rows,
        })
    }

    /// The same view, for buffers that `new` reads. It looks at no offset.
    #[tactic(auto, unfolding(crate::specs::Lists::lists_of))]
    pub fn checked(offsets: &'a [u8], values: &'a [u8], width: u32, rows: u64) -> Lists<'a>
        requires some { 1 ≤ width }
        requires fine { IsOk (lists_of offsets.now values.now width rows) }
        ensures { result ≡ record { offsets = offsets.now; values = values.now; width = width; rows = rows } }
    {
        Lists {
            offsets,
            values,
            width,
            rows,
        }
    }

    /// The bytes of a row's elements, or `None` where there is no such row.
    #[tactic(auto, unfolding(crate::specs::Lists::elements_of))]
    pub fn get(&self, row: u64) -> Option<&'a [u8]>
        ensures { option_copied result ≡ elements_of self.now row }
    {
        if row >= self.rows {
            return None;
        }
        Some(offsets::span(self.offsets, self.values, self.width, row))
    }

    /// `BadNulls` where a row that is valid has a null among its elements, by their own bitmap. It
    /// takes time linear in the rows and the elements.
    #[tactic(auto, unfolding(crate::specs::Lists::nulls_check))]
    pub fn check_nulls(&self, valid: &Bits<'_>, elements: &Bits<'_>) -> Result<(), BufferFault>
        ensures { result ≡ nulls_check self.now valid.now elements.now }
    {
        'rows: for row in 0..self.rows {
            if !self.is_full_at(valid, elements, row) {
                return Err(BufferFault::BadNulls);
            }
        }
        Ok(())
    }

    fn is_full_at(&self, valid: &Bits<'_>, elements: &Bits<'_>, row: u64) -> bool
        requires { row < self.now.rows }
        ensures { result ≡ is_full_at self.now valid.now elements.now row }
    {
        match valid.get(row) {
            Some(true) => self.is_full(elements, row),
            _ => true,
        }
    }

    fn is_full(&self, elements: &Bits<'_>, row: u64) -> bool
        requires { row < self.now.rows }
        ensures { result ≡ is_full self.now elements.now row }
    {
        let (start, end) = offsets::bounds(self.offsets, row);
        'elements: for k in 0..end - start {
            if let Some(false) = elements.get(u64::from(start + k)) {
                return false;
            }
        }
        true
    }
}
