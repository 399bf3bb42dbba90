//! The printed names of faults of Arrow messages.
ghost use Rattle.std.specs.Prelude.{◌≡◌, IfOk};
ghost use Rattle.otap_gateway.specs.Openings.{fault_name, flat_name, refusal_name};

use arrow_ipc::IpcFault;
use arrow_schema::SchemaRefusal;
use flat_tables::FlatFault;
use std::alloc::AllocError;

/// The printed name of a fault.
pub(crate) fn fault_name(fault: IpcFault) -> Result<&'static str, AllocError>
    ensures { IfOk result (λ name. name.now ≡ fault_name fault) }
{
    match fault {
        IpcFault::Cut => Ok("Ipc.Cut"),
        IpcFault::Flat(fault) => Ok(flat_name(fault)),
        IpcFault::BadVersion => Ok("Ipc.BadVersion"),
        IpcFault::Compressed => Ok("Ipc.Compressed"),
        IpcFault::BadBody => Ok("Ipc.BadBody"),
        IpcFault::Unsupported => Ok("Ipc.Unsupported"),
        IpcFault::Schema(refusal) => refusal_name(refusal),
        IpcFault::Memory(error) => Err(error),
    }
}

fn flat_name(fault: FlatFault) -> &'static str
    ensures { result.now ≡ flat_name fault }
{
    match fault {
        FlatFault::OutOfRange => "Ipc.Flat.OutOfRange",
        FlatFault::BadVtable => "Ipc.Flat.BadVtable",
    }
}

fn refusal_name(refusal: SchemaRefusal) -> Result<&'static str, AllocError>
    ensures { IfOk result (λ name. name.now ≡ refusal_name refusal) }
{
    match refusal {
        SchemaRefusal::Flat(FlatFault::OutOfRange) => Ok("Ipc.Schema.Flat.OutOfRange"),
        SchemaRefusal::Flat(FlatFault::BadVtable) => Ok("Ipc.Schema.Flat.BadVtable"),
        SchemaRefusal::Unsupported => Ok("Ipc.Schema.Unsupported"),
        SchemaRefusal::TooManyFields => Ok("Ipc.Schema.TooManyFields"),
        SchemaRefusal::TooDeep => Ok("Ipc.Schema.TooDeep"),
        SchemaRefusal::BadName => Ok("Ipc.Schema.BadName"),
        SchemaRefusal::DictionaryTypes => Ok("Ipc.Schema.DictionaryTypes"),
        SchemaRefusal::Memory(error) => Err(error),
    }
}
