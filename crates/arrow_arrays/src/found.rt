//! An array without a fault, found in a batch.

ghost use Rattle.std.specs.Prelude.{◌≡◌, ℕ, ◌+◌, ◌^◌, ◌<◌, IsOk};
ghost use Rattle.arrow_arrays.specs.Cells.{array_in};
ghost use Rattle.arrow_arrays.specs.Views.{value_seen};
ghost use Rattle.arrow_arrays.specs.Found.{bytes_at, rows_at, value_by_buffers, Finds};

use crate::column::{ColumnView, Stored};
use crate::layout::{ELEMENT_LEN, Layout};
use crate::place::ArrayPlace;
use crate::view::rows_in;
use arrow_ipc::BatchView;

/// The column of an array's cells, by its own buffers.
pub(crate) fn own_column<'v>(batch: &BatchView<'v>, place: ArrayPlace) -> ColumnView<'v>
    requires { IsOk (array_in batch.now place) }
    ensures { Finds batch.now place result }
{
    let first = u32::from(place.buffer);
    ColumnView {
        rows: rows_at(batch, place),
        own: bytes_at(batch, first),
        above: &[],
        top: &[],
        stored: stored_at(batch, first + 1, place.layout),
    }
}

/// The number of rows of an array; 0 where it can't be read.
fn rows_at(batch: &BatchView<'_>, place: ArrayPlace) -> u64
    ensures { result ≡ rows_at batch.now place }
{
    match rows_in(batch, place) {
        Ok(rows) => rows,
        Err(_) => 0,
    }
}

/// The buffer at an index; no bytes where there is none.
fn bytes_at<'v>(batch: &BatchView<'v>, place: u32) -> &'v [u8]
    ensures { result.now ≡ bytes_at batch.now place }
{
    match batch.buffer(place) {
        Some(bytes) => bytes,
        None => &[],
    }
}

/// The values of an array whose first buffer after its bitmap has this index.
#[tactic(auto, unfolding(crate::specs::Views::value_seen))]
fn stored_at<'v>(batch: &BatchView<'v>, place: u32, layout: Layout) -> Stored<'v>
    requires { place + 2 < 2 ^ 32 }
    ensures { (row : ℕ) → value_seen result row ≡ value_by_buffers batch.now place layout row }
{
    match layout {
        Layout::Struct => Stored::Fixed(&[], 0),
        Layout::Bits => Stored::Bits(bytes_at(batch, place)),
        Layout::Fixed(width) => Stored::Fixed(bytes_at(batch, place), width),
        Layout::Binary | Layout::Text => {
            Stored::Spans(bytes_at(batch, place), bytes_at(batch, place + 1), 1)
        }
        Layout::List => {
            Stored::Spans(
                bytes_at(batch, place),
                bytes_at(batch, place + 2),
                ELEMENT_LEN,
            )
        }
    }
}
