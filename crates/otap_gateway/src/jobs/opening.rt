//! What the record of a payload begins with.
ghost use Rattle.std.specs.Prelude.{◌≡◌, IfOk, IfErr};
ghost use Rattle.arrow_ipc.specs.Faults.{Refuses};
ghost use Rattle.otap_gateway.specs.Openings.{BeginsWell, opening_of, schema_if};

use arrow_ipc::{IpcFault, IpcMessage, Messages};
use arrow_schema::SchemaSpec;
use std::alloc::Global;

/// The schema of the Schema message that a record begins with, or `None` where it begins with another
/// message or is empty. Only this message is read.
pub(crate) fn opening(alloc: Global, bytes: &[u8]) -> Result<Option<SchemaSpec>, IpcFault>
    ensures schema { IfOk result (λ schema. schema ≡ opening_of bytes.now) }
    ensures well { IfOk result (λ schema. BeginsWell bytes.now) }
    ensures fault { IfErr result (Refuses bytes.now) }
{
    match Messages::new(bytes).next(alloc) {
        None => Ok(None),
        Some(Ok(message)) => Ok(schema_of(message)),
        Some(Err(fault)) => Err(fault),
    }
}

fn schema_of(message: IpcMessage<'_>) -> Option<SchemaSpec>
    ensures { result ≡ schema_if message.entry }
{
    match message {
        IpcMessage::Schema(schema) => Some(schema),
        _other => None,
    }
}
