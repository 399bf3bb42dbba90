//! Where the values of a dictionary lie in its bytes: each begins where the one before it ends.

ghost use Rattle.std.specs.Prelude.{◌≡◌, ◌-◌, ◌≤◌, ◌++◌, take, drop, is_some, length, vec_len, IfOk, OnOk, OnErr};
ghost use Rattle.std.specs.List.{slice_index_or};
ghost use Rattle.std.specs.Option.{option_copied};
ghost use Rattle.otap_columns.specs.Limits.{kept_limit};
ghost use Rattle.otap_columns.specs.Ends.{AreEnds, values_by_ends, bytes_or_none};

use std::alloc::AllocError;

/// The most bytes that the values of a dictionary have together. No memory is so large.
pub(crate) const MAX_KEPT: usize = 1 << 48;

/// Where a value begins and ends, and whether it is valid: one that is null has no bytes.
#[derive(Clone, Copy, Debug)]
pub(crate) struct End {
    pub(crate) from: usize,
    pub(crate) place: usize,
    pub(crate) there: bool,
}

/// The value at an index; `None` where it is null, or there is none.
pub(crate) fn value_in<'v>(bytes: &'v [u8], ends: &[End], place: usize) -> Option<&'v [u8]>
    requires { AreEnds 0 ends.now (length bytes.now) }
    ensures { option_copied result ≡ slice_index_or (values_by_ends bytes.now 0 ends.now) place None }
{
    if place >= ends.len() {
        return None;
    }
    let end = ends[place];
    if !end.there {
        return None;
    }
    Some(part(bytes, end.from, end.place))
}

fn part(bytes: &[u8], from: usize, to: usize) -> &[u8]
    requires order { from ≤ to }
    requires within { to ≤ length bytes.now }
    ensures { result.now ≡ take (to - from) (drop from bytes.now) }
{
    &bytes[from..to]
}

/// Appends the bytes of a value, and whether it is valid. Where there would be too many bytes, it returns out of memory.
pub(crate) fn keep(kept: &mut Vec<u8>, value: Option<&[u8]>) -> Result<bool, AllocError>
    requires { vec_len kept.old ≤ kept_limit }
    ensures bytes { OnOk result (kept.new.items ≡ kept.old.items ++ bytes_or_none (option_copied value.entry)) }
    ensures there { IfOk result (λ there. there ≡ is_some (option_copied value.entry)) }
    ensures small { vec_len kept.new ≤ kept_limit }
    ensures err { OnErr result (kept.new.items ≡ kept.old.items) }
{
    match value {
        None => Ok(false),
        Some(value) => {
            append(kept, value)?;
            Ok(true)
        }
    }
}

fn append(kept: &mut Vec<u8>, value: &[u8]) -> Result<(), AllocError>
    requires { vec_len kept.old ≤ kept_limit }
    ensures bytes { OnOk result (kept.new.items ≡ kept.old.items ++ value.now) }
    ensures small { vec_len kept.new ≤ kept_limit }
    ensures err { OnErr result (kept.new.items ≡ kept.old.items) }
{
    if value.len() > MAX_KEPT - kept.len() {
        return Err(AllocError);
    }
    kept.extend_from_slice(value)?;
    Ok(())
}
