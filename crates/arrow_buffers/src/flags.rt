//! The validity bitmap of a column that grows: it has no bytes until the first null.

ghost use Rattle.std.specs.Prelude.{◌≡◌, ◌+◌, ◌/◌, ◌<◌, ◌≤◌, if◌then◌else◌, vec_capacity, OnOk};
ghost use Rattle.arrow_buffers.specs.Limits.{max_rows};
ghost use Rattle.arrow_buffers.specs.Flags.{HasFlags, PushesFlag, PushesNullFlags};

use crate::packing::{fill_ones, push_bit, push_zeros, reserve_bit};
use std::alloc::AllocError;

/// Makes room for the flag of one more row, if the bitmap needs one.
#[inline(always)]
pub(crate) fn reserve_flag(
    bitmap: &mut Vec<u8>,
    nulls: u64,
    rows: u64,
    valid: bool,
) -> Result<(), AllocError>
    ensures items { bitmap.new.items ≡ bitmap.old.items }
    ensures ok { OnOk result (0 < nulls + (if valid then 0 else 1) → rows / 8 < vec_capacity bitmap.new) }
{
    if nulls == 0 && valid {
        return Ok(());
    }
    reserve_bit(bitmap, rows)
}

/// Puts the flag of a row after those of the `rows` before it. There is room for it.
#[inline(always)]
pub(crate) fn push_flag(bitmap: &mut Vec<u8>, nulls: u64, rows: u64, valid: bool)
    requires flags { HasFlags nulls rows bitmap.old.items }
    requires room { 0 < nulls + (if valid then 0 else 1) → rows / 8 < vec_capacity bitmap.old }
    ensures flags { PushesFlag nulls rows valid bitmap.old.items bitmap.new.items }
    ensures room { vec_capacity bitmap.old ≤ vec_capacity bitmap.new }
{
    if nulls == 0 {
        if valid {
            return;
        }
        fill_ones(bitmap, rows);
    }
    push_bit(bitmap, rows, valid);
}

/// Puts the flags of nulls after those of the `rows` before them. There is room for them.
pub(crate) fn push_null_flags(bitmap: &mut Vec<u8>, nulls: u64, rows: u64, count: u64)
    requires flags { HasFlags nulls rows bitmap.old.items }
    requires some { 1 ≤ count }
    requires few { rows + count < max_rows }
    requires room { (rows + count) / 8 < vec_capacity bitmap.old }
    ensures { PushesNullFlags nulls rows count bitmap.old.items bitmap.new.items }
{
    push_flag(bitmap, nulls, rows, false);
    let pushed = push_zeros(bitmap, rows + 1, rows + count);
    prove!(pushed.is_ok());
}
