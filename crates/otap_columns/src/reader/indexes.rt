//! The indexes of a record batch, each judged by how many values its dictionary has.

ghost use Rattle.std.specs.Prelude.{◌≡◌, slice_get, IsOk};
ghost use Rattle.std.specs.Option.{ForSome, option_copied};
ghost use Rattle.arrow_buffers.specs.Below.{all_below};
ghost use Rattle.arrow_arrays.specs.Arrays.{arrays_check};
ghost use Rattle.arrow_arrays.specs.Views.{cell_seen};
ghost use Rattle.otap_columns.specs.Resolved.{HasIndexSizes, IsIndexSize};
ghost use Rattle.otap_columns.specs.Substreams.{is_index_below, field_fits_if, indexes_fit};

use crate::reader::cells::index;
use crate::reader::dictionaries::count_for;
use crate::reader::dictionary::Dictionary;
use arrow_arrays::{Arrays, ColumnView};
use arrow_ipc::BatchView;

/// Whether each index of each field, known or not, leads to a value. It visits each index once.
#[tactic(auto, unfolding(crate::specs::Substreams::indexes_fit))]
pub(crate) fn fit(arrays: &Arrays, dictionaries: &[Dictionary], batch: &BatchView<'_>) -> bool
    requires { IsOk (arrays_check batch.now arrays.now) }
    ensures { result ≡ indexes_fit (record { arrays = arrays.now; dictionaries = dictionaries.now }) batch.now }
{
    'arrays: for place in 0..arrays.len() {
        if !fit_at(arrays, dictionaries, batch, place) {
            return false;
        }
    }
    true
}

fn fit_at(arrays: &Arrays, dictionaries: &[Dictionary], batch: &BatchView<'_>, place: usize) -> bool
    requires { IsOk (arrays_check batch.now arrays.now) }
    ensures { result ≡ field_fits_if (record { arrays = arrays.now; dictionaries = dictionaries.now }) batch.now place (slice_get arrays.now place) }
{
    let Some(array) = arrays.get(place) else {
        return true;
    };
    let Some(dict) = array.dict else {
        return true;
    };
    let column = arrays.view(batch, place);
    let count = count_for(dictionaries, array.kind, dict.id);
    are_below(&column, batch.rows(), count)
}

/// Whether the indexes of a column are below a number.
fn are_below(column: &ColumnView<'_>, rows: u64, count: usize) -> bool
    requires { HasIndexSizes column.now }
    ensures { result ≡ all_below (λ row. is_index_below count (cell_seen column.now row)) rows }
{
    if column.is_below(count) {
        return true;
    }
    let whole = column.is_whole();
    'rows: for row in 0..rows {
        if !is_below(column.cell_if(row, whole), count) {
            return false;
        }
    }
    true
}

fn is_below(cell: Option<&[u8]>, count: usize) -> bool
    requires { ForSome (option_copied cell) IsIndexSize }
    ensures { result ≡ is_index_below count (option_copied cell.entry) }
{
    match cell {
        None => true,
        Some(cell) => index(cell) < count,
    }
}
