//! The printed names of what is wrong with rows.
ghost use Rattle.std.specs.Prelude.{◌≡◌, IfOk};
ghost use Rattle.otap_gateway.specs.RowCauses.{cbor_name, id_fault_name, row_name};

use cbor_values::CborRefusal;
use otap_attrs::RowRefusal;
use otap_cells::IdFault;
use std::alloc::AllocError;

/// The printed name. Out of memory is passed on.
pub(crate) fn row_name(why: RowRefusal) -> Result<&'static str, AllocError>
    ensures { IfOk result (λ name. name.now ≡ row_name why) }
{
    match why {
        RowRefusal::Ids(fault) => Ok(id_fault_name(fault)),
        RowRefusal::Orphan => Ok("Orphan"),
        RowRefusal::Disagree => Ok("Disagree"),
        RowRefusal::BadValueType => Ok("BadValueType"),
        RowRefusal::BadCbor(refusal) => cbor_name(refusal),
        RowRefusal::TwoValues => Ok("TwoValues"),
        RowRefusal::BadKind => Ok("BadKind"),
        RowRefusal::Memory(error) => Err(error),
    }
}

fn id_fault_name(fault: IdFault) -> &'static str
    ensures { result.now ≡ id_fault_name fault }
{
    match fault {
        IdFault::PastType => "Ids.PastType",
        IdFault::Duplicate => "Ids.Duplicate",
        IdFault::NullParent => "Ids.NullParent",
    }
}

fn cbor_name(refusal: CborRefusal) -> Result<&'static str, AllocError>
    ensures { IfOk result (λ name. name.now ≡ cbor_name refusal) }
{
    match refusal {
        CborRefusal::Cut => Ok("BadCbor.Cut"),
        CborRefusal::BadHead => Ok("BadCbor.BadHead"),
        CborRefusal::BadKey => Ok("BadCbor.BadKey"),
        CborRefusal::BadUtf8 => Ok("BadCbor.BadUtf8"),
        CborRefusal::OutOfRange => Ok("BadCbor.OutOfRange"),
        CborRefusal::TooDeep => Ok("BadCbor.TooDeep"),
        CborRefusal::Trailing => Ok("BadCbor.Trailing"),
        CborRefusal::Memory(error) => Err(error),
    }
}
