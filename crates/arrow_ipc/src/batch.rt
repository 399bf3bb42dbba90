ghost use Rattle.std.specs.Prelude.{◌≡◌, ◌≤◌, true, length, slice_get, Some};
ghost use Rattle.std.specs.Option.{option_copied};
ghost use Rattle.arrow_ipc.specs.Batches.{struct_of, structs_in, lies_in, buffer_of};

use byteorder::{ByteOrder, LittleEndian};
use flat_tables::VectorView;
use std::marker::Model;

/// A record batch in bytes. It borrows the bytes, and copies none.
#[derive(Debug, Drop)]
pub struct BatchView<'a> {
    pub(crate) rows: u64,
    pub(crate) nodes: Option<VectorView<'a>>,
    pub(crate) buffers: Option<VectorView<'a>>,
    pub(crate) body: &'a [u8],
}

impl<'a> Model for BatchView<'a> {
    ghost use Rattle.arrow_ipc.specs.Batches.{BatchIn};

    ghost Value = { BatchIn };

    ghost use Rattle.arrow_ipc.specs.Inside.{batch_in, IsBatchInside};

    ghost view = { batch_in };

    ghost invariant = { IsBatchInside };
}

impl<'a> BatchView<'a> {
    /// The number of rows.
    pub fn rows(&self) -> u64
        ensures { result ≡ self.now.rows }
    {
        self.rows
    }

    /// The length and the null count of a node; `None` where there is no such node.
    pub fn node(&self, place: u32) -> Option<(i64, i64)>
        ensures { result ≡ slice_get self.now.nodes place }
    {
        pair_at(self.nodes.as_ref()?, place)
    }

    /// The bytes of a buffer; `None` where there is no such buffer.
    pub fn buffer(&self, place: u32) -> Option<&'a [u8]>
        ensures { option_copied result ≡ slice_get self.now.buffers place }
    {
        let place = pair_at(self.buffers.as_ref()?, place)?;
        Some(buffer_of(self.body, place))
    }
}

/// The two numbers of a struct of a vector; `None` where there is no such struct.
#[tactic(auto, using(crate::proofs::Pairs::slice_get_pairs))]
pub(crate) fn pair_at(vector: &VectorView<'_>, place: u32) -> Option<(i64, i64)>
    requires { vector.now.width ≡ 16 }
    ensures { result ≡ slice_get (structs_in vector.now) place }
{
    let part = vector.part(place)?;
    Some(pair_of(part))
}

fn pair_of(part: &[u8]) -> (i64, i64)
    requires { 16 ≤ length part.now }
    ensures { result ≡ struct_of part.now }
{
    (
        LittleEndian::read_i64(part),
        LittleEndian::read_i64(&part[8..]),
    )
}

/// Whether a buffer, given by its offset and its length, lies in a body of this size.
pub(crate) fn lies_in(place: (i64, i64), size: usize) -> bool
    ensures { result ≡ lies_in size place }
{
    match (usize::try_from(place.0), usize::try_from(place.1)) {
        (Ok(offset), Ok(length)) => offset + length <= size,
        _ => false,
    }
}

#[tactic(auto, using(crate::proofs::Pairs::lies_within))]
fn buffer_of(body: &[u8], place: (i64, i64)) -> &[u8]
    requires { lies_in (length body.now) place ≡ true }
    ensures { result.now ≡ buffer_of body.now place }
{
    let offset = place.0.unsigned_abs() as usize;
    let length = place.1.unsigned_abs() as usize;
    &body[offset..offset + length]
}
