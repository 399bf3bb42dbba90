use arrow_schema::SchemaRefusal;
use flat_tables::FlatFault;
use std::alloc::AllocError;
use thiserror::Error;

/// Why no message can be read at an offset.
#[derive(Debug, Drop, Error)]
pub enum IpcFault {
    /// The continuation marker, the size, the metadata or the body runs past the bytes, or another
    /// marker is there.
    #[error("the message is cut off, or begins with another mark")]
    Cut,
    /// A part of the metadata's tables that is needed can't be read.
    #[error("the metadata can't be read: {0}")]
    Flat(FlatFault),
    /// The version is neither V4 nor V5.
    #[error("the version is neither V4 nor V5")]
    BadVersion,
    /// The buffers of a batch are compressed.
    #[error("the buffers are compressed")]
    Compressed,
    /// The body's size, the number of rows, or the offset or length of a buffer is below zero, or a
    /// buffer doesn't lie in the body.
    #[error("a buffer doesn't lie in the body, or a size is below zero")]
    BadBody,
    /// The header is of another kind than a schema, a dictionary batch or a record batch; or it,
    /// or the batch inside a dictionary batch, is absent.
    #[error("the header is absent or of another kind")]
    Unsupported,
    /// The schema is refused.
    #[error("the schema is refused: {0}")]
    Schema(SchemaRefusal),
    /// Memory ran out.
    #[error("out of memory")]
    Memory(AllocError),
}

impl From<FlatFault> for IpcFault {
    ghost use Rattle.std.specs.Prelude.{◌≡◌};
    ghost use Rattle.arrow_ipc.specs.declared.fault.IpcFault.TheVariants.{Flat};

    ghost from_gives = { λ e fault. fault ≡ Flat e };

    fn from(e: FlatFault) -> IpcFault {
        IpcFault::Flat(e)
    }
}

impl From<SchemaRefusal> for IpcFault {
    ghost use Rattle.std.specs.Prelude.{◌≡◌};
    ghost use Rattle.arrow_ipc.specs.Order.{fault_of};

    ghost from_gives = { λ refusal fault. fault ≡ fault_of refusal };

    /// Out of memory is a fault of its own.
    fn from(refusal: SchemaRefusal) -> IpcFault {
        match refusal {
            SchemaRefusal::Memory(e) => IpcFault::Memory(e),
            refusal => IpcFault::Schema(refusal),
        }
    }
}
