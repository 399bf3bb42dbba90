//! Why the payloads of a batch are not taken.
ghost use Rattle.std.specs.Prelude.{◌≡◌, Some};
ghost use Rattle.otap_consume.specs.declared.not_taken.NotTaken.TheVariants.{Defect, Memory};

use crate::payload_types::TypesRefusal;
use crate::refusal::Cause;
use otap_attrs::CheckRefusal;
use otap_checks::RegroupRefusal;
use std::alloc::AllocError;

/// Something is wrong with the payloads, or memory ran out.
#[derive(Debug, Drop)]
pub enum NotTaken {
    /// A cause, and the type of the payload that it is in, if it is in one.
    Defect { cause: Cause, payload: Option<i32> },
    /// Memory ran out.
    Memory(AllocError),
}

impl From<AllocError> for NotTaken {
    ghost from_gives = { λ error stop. stop ≡ Memory error };

    fn from(error: AllocError) -> NotTaken {
        NotTaken::Memory(error)
    }
}

impl From<TypesRefusal> for NotTaken {
    ghost use Rattle.otap_consume.specs.Untaken.{untaken_by_types};

    ghost from_gives = { λ refusal stop. stop ≡ untaken_by_types refusal };

    fn from(refusal: TypesRefusal) -> NotTaken {
        match refusal {
            TypesRefusal::PayloadType(kind) => defect(Cause::PayloadType, kind),
            TypesRefusal::PayloadTwice(kind) => defect(Cause::PayloadTwice, kind),
        }
    }
}

impl From<CheckRefusal> for NotTaken {
    ghost use Rattle.otap_consume.specs.Untaken.{untaken_by_rows};

    ghost from_gives = { λ refusal stop. stop ≡ untaken_by_rows refusal };

    fn from(refusal: CheckRefusal) -> NotTaken {
        match refusal {
            CheckRefusal::Defect { kind, why } => defect(Cause::Row(why), kind.number()),
            CheckRefusal::Memory(error) => NotTaken::Memory(error),
        }
    }
}

impl From<RegroupRefusal> for NotTaken {
    ghost use Rattle.otap_consume.specs.Untaken.{untaken_by_regrouping};

    ghost from_gives = { λ refusal stop. stop ≡ untaken_by_regrouping refusal };

    fn from(refusal: RegroupRefusal) -> NotTaken {
        match refusal {
            RegroupRefusal::Rows(refusal) => NotTaken::from(refusal),
            RegroupRefusal::TooHeavy => NotTaken::Defect {
                cause: Cause::TreeTooHeavy,
                payload: None,
            },
        }
    }
}

/// A cause in a payload of this type.
pub(crate) fn defect(cause: Cause, kind: i32) -> NotTaken
    ensures { result ≡ Defect cause (Some kind) }
{
    NotTaken::Defect {
        cause,
        payload: Some(kind),
    }
}
