//! The printed names of causes.
ghost use Rattle.std.specs.Prelude.{◌≡◌, IfOk};
ghost use Rattle.otap_gateway.specs.Causes.{buffer_name, cause_name, column_name};

use crate::texts::ipc_causes::fault_name;
use crate::texts::row_causes::row_name;
use arrow_buffers::BufferFault;
use otap_columns::ColumnRefusal;
use otap_consume::Cause;
use otlp_messages::{Defect, defect_name};
use std::alloc::AllocError;

/// The printed name of a cause: its variants from the outside in, joined by dots. Out of memory is passed on.
pub(crate) fn cause_name(cause: Cause) -> Result<&'static str, AllocError>
    ensures { IfOk result (λ name. name.now ≡ cause_name cause) }
{
    match cause {
        Cause::Compressed => Ok("Compressed"),
        Cause::BadMessage => Ok(defect_name(Defect::BadMessage)),
        Cause::Repeated => Ok(defect_name(Defect::Repeated)),
        Cause::BadUtf8 => Ok(defect_name(Defect::BadUtf8)),
        Cause::PayloadType => Ok("PayloadType"),
        Cause::PayloadTwice => Ok("PayloadTwice"),
        Cause::SchemaIdTaken => Ok("SchemaIdTaken"),
        Cause::Column(refusal) => column_name(refusal),
        Cause::TooManyItems => Ok("TooManyItems"),
        Cause::RowsTooHeavy => Ok("RowsTooHeavy"),
        Cause::HeldTooMuch => Ok("HeldTooMuch"),
        Cause::Row(why) => row_name(why),
        Cause::TreeTooHeavy => Ok("TreeTooHeavy"),
        Cause::Broken => Ok("Broken"),
    }
}

fn column_name(refusal: ColumnRefusal) -> Result<&'static str, AllocError>
    ensures { IfOk result (λ name. name.now ≡ column_name refusal) }
{
    match refusal {
        ColumnRefusal::Order => Ok("Order"),
        ColumnRefusal::Ipc(fault) => fault_name(fault),
        ColumnRefusal::Column => Ok("Column"),
        ColumnRefusal::Buffers(fault) => Ok(buffer_name(fault)),
        ColumnRefusal::BadIndex => Ok("BadIndex"),
        ColumnRefusal::DictionarySize => Ok("DictionarySize"),
        ColumnRefusal::Memory(error) => Err(error),
    }
}

fn buffer_name(fault: BufferFault) -> &'static str
    ensures { result.now ≡ buffer_name fault }
{
    match fault {
        BufferFault::Short => "Buffers.Short",
        BufferFault::BadOffsets => "Buffers.BadOffsets",
        BufferFault::BadNulls => "Buffers.BadNulls",
        BufferFault::BadUtf8 => "Buffers.BadUtf8",
    }
}
