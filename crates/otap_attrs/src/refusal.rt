//! What may be wrong with the rows of a table.
ghost use Rattle.std.specs.Prelude.{◌≡◌};
ghost use Rattle.otap_attrs.specs.Refusals.{refusal_of_cbor, refusal_of_ids};
ghost use Rattle.otap_attrs.specs.declared.refusal.CheckRefusal.TheVariants as check;
ghost use Rattle.otap_attrs.specs.declared.refusal.RowRefusal.TheVariants as row;

use cbor_values::CborRefusal;
use otap_cells::{IdFault, IdsRefusal, Kind};
use std::alloc::AllocError;
use thiserror::Error;

/// What is wrong with the rows of a table. Where several things are wrong, any of them may be returned.
#[derive(Debug, Drop, Error)]
pub enum RowRefusal {
    /// The ids of a column aren't given, or two rows have one id.
    #[error("{0}")]
    Ids(IdFault),
    /// No row has the id that is a row's parent.
    #[error("a row whose parent isn't there")]
    Orphan,
    /// Rows of one resource, or of one scope, differ in what they say of it.
    #[error("rows of one resource or scope differ")]
    Disagree,
    /// A type of a value above 7, or a nested value that is no map where its type says so, or no array.
    #[error("a value of another type")]
    BadValueType,
    /// A nested value can't be read.
    #[error("a nested value can't be read: {0}")]
    BadCbor(CborRefusal),
    /// A point or an exemplar has an integer and a double.
    #[error("two values")]
    TwoValues,
    /// A metric of no known kind, a point that its metric can't have, or a point of a summary whose two lists have unequal
    /// lengths.
    #[error("a metric of another kind")]
    BadKind,
    /// Memory ran out.
    #[error("out of memory")]
    Memory(AllocError),
}

impl From<AllocError> for RowRefusal {
    ghost from_gives = { λ error refusal. refusal ≡ row.Memory error };

    fn from(error: AllocError) -> RowRefusal {
        RowRefusal::Memory(error)
    }
}

impl From<IdFault> for RowRefusal {
    ghost from_gives = { λ fault refusal. refusal ≡ row.Ids fault };

    fn from(fault: IdFault) -> RowRefusal {
        RowRefusal::Ids(fault)
    }
}

impl From<IdsRefusal> for RowRefusal {
    ghost from_gives = { λ inner refusal. refusal ≡ refusal_of_ids inner };

    /// Out of memory is a refusal of its own.
    fn from(inner: IdsRefusal) -> RowRefusal {
        match inner {
            IdsRefusal::Memory(error) => RowRefusal::Memory(error),
            IdsRefusal::Ids(fault) => RowRefusal::Ids(fault),
        }
    }
}

impl From<CborRefusal> for RowRefusal {
    ghost from_gives = { λ inner refusal. refusal ≡ refusal_of_cbor inner };

    /// Out of memory is a refusal of its own.
    fn from(inner: CborRefusal) -> RowRefusal {
        match inner {
            CborRefusal::Memory(error) => RowRefusal::Memory(error),
            inner => RowRefusal::BadCbor(inner),
        }
    }
}

/// What is wrong with the rows of a batch: the table, and what is wrong with its rows.
#[derive(Debug, Drop, Error)]
pub enum CheckRefusal {
    /// This is wrong with the rows of the table of this kind.
    #[error("the rows of payload {number}: {why}", number = kind.number())]
    Defect { kind: Kind, why: RowRefusal },
    /// Memory ran out.
    #[error("out of memory")]
    Memory(AllocError),
}

impl From<AllocError> for CheckRefusal {
    ghost from_gives = { λ error refusal. refusal ≡ check.Memory error };

    fn from(error: AllocError) -> CheckRefusal {
        CheckRefusal::Memory(error)
    }
}
