//! What is stored among the values for consecutive nulls.

ghost use Rattle.std.specs.Prelude.{◌≡◌, ◌*◌, ◌/◌, ◌^◌, ◌<◌, ◌≤◌, ◌++◌, length, replicate, OnOk, OnErr};
ghost use Rattle.arrow_buffers.specs.Building.{ended_times};

use crate::packing::push_offset;
use std::alloc::AllocError;

/// Puts values of one width after the others, each of zeros.
pub(crate) fn push_null_parts(
    values: &mut Vec<u8>,
    width: u32,
    count: u64,
) -> Result<(), AllocError>
    ensures ok { OnOk result (values.new.items ≡ values.old.items ++ replicate (count * width) 0) }
    ensures err { OnErr result (values.new.items ≡ values.old.items) }
{
    let Some(more) = (count as usize).checked_mul(width as usize) else {
        return Err(AllocError);
    };
    let Some(len) = values.len().checked_add(more) else {
        return Err(AllocError);
    };
    values.resize(len, 0)
}

/// Puts the offsets of values without elements after the others.
pub(crate) fn push_null_spans(
    offsets: &mut Vec<u8>,
    values: &[u8],
    element: u32,
    count: u64,
) -> Result<(), AllocError>
    requires some { 1 ≤ element }
    requires fits { length values.now / element < 2 ^ 32 }
    ensures ok { OnOk result (offsets.new.items ≡ ended_times element count offsets.old.items values.now) }
    ensures err { OnErr result (offsets.new.items ≡ offsets.old.items) }
{
    let Some(room) = (count as usize).checked_mul(4) else {
        return Err(AllocError);
    };
    // Room for all of them first: no push fails after it.
    offsets.reserve(room)?;
    'rows: for _ in 0..count {
        push_offset(offsets, element, values.len())?;
    }
    Ok(())
}
