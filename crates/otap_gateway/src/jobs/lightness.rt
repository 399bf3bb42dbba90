//! Which requests need not be weighed.
ghost use Rattle.std.specs.Prelude.{◌≤◌, ◌*◌, IsTrue};
ghost use Rattle.otlp_codec.specs.Limits.{weight_for_byte};
ghost use Rattle.otlp_model.specs.Limits.{weight_limit};

use otlp_codec::WEIGHT_FOR_BYTE;
use otlp_model::MAX_TREE_WEIGHT;

/// Whether a request that is read of so many bytes is light enough, whatever they say.
pub(crate) fn is_light(len: usize) -> bool
    ensures { IsTrue result → weight_for_byte * len ≤ weight_limit }
{
    len as u64 <= MAX_TREE_WEIGHT / WEIGHT_FOR_BYTE
}
