ghost use Rattle.std.specs.Prelude.{◌≡◌};
ghost use Rattle.otap_columns.specs.declared.refusal.ColumnRefusal.TheVariants.{Buffers, Memory};

use arrow_buffers::BufferFault;
use arrow_ipc::IpcFault;
use std::alloc::AllocError;
use thiserror::Error;

/// Why a record can't be read after the records before it.
#[derive(Debug, Drop, Error)]
pub enum ColumnRefusal {
    /// A sub-stream doesn't begin with a schema, or another one follows in it; a record doesn't end with its one record
    /// batch; or no field has the id of a dictionary batch.
    #[error("the messages stand in a wrong order")]
    Order,
    /// A message can't be read.
    #[error("a message can't be read: {0}")]
    Ipc(IpcFault),
    /// A known column has a type that doesn't store what the profile gives it, or holds ids and names an encoding that
    /// it doesn't allow.
    #[error("a column has another type")]
    Column,
    /// The buffers of a field or of a dictionary batch have a fault.
    #[error("the buffers have a fault: {0}")]
    Buffers(BufferFault),
    /// An index leads to no value of its dictionary.
    #[error("an index leads to no value")]
    BadIndex,
    /// A dictionary has more than [`MAX_VALUES`](crate::MAX_VALUES) values.
    #[error("a dictionary has too many values")]
    DictionarySize,
    /// Memory ran out.
    #[error("out of memory")]
    Memory(AllocError),
}

impl From<BufferFault> for ColumnRefusal {
    ghost from_gives = { λ fault refusal. refusal ≡ Buffers fault };

    fn from(fault: BufferFault) -> ColumnRefusal {
        ColumnRefusal::Buffers(fault)
    }
}

impl From<AllocError> for ColumnRefusal {
    ghost from_gives = { λ error refusal. refusal ≡ Memory error };

    fn from(error: AllocError) -> ColumnRefusal {
        ColumnRefusal::Memory(error)
    }
}

impl From<IpcFault> for ColumnRefusal {
    ghost use Rattle.std.specs.Prelude.{◌≡◌};
    ghost use Rattle.otap_columns.specs.Faults.{refusal_of};

    ghost from_gives = { λ fault refusal. refusal ≡ refusal_of fault };

    /// Out of memory is a refusal of its own.
    fn from(fault: IpcFault) -> ColumnRefusal {
        match fault {
            IpcFault::Memory(e) => ColumnRefusal::Memory(e),
            fault => ColumnRefusal::Ipc(fault),
        }
    }
}
