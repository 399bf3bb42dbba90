ghost use Rattle.arrow_schema.specs.declared.refusal.SchemaRefusal.TheVariants.{Flat, Memory};
ghost use Rattle.std.specs.Prelude.{◌≡◌};

use flat_tables::FlatFault;
use std::alloc::AllocError;
use thiserror::Error;

/// Why tables can't be read as a schema.
#[derive(Debug, Drop, Error)]
pub enum SchemaRefusal {
    /// A needed part of the tables does not lie in the bytes, or a vtable is bad.
    #[error("{0}")]
    Flat(FlatFault),
    /// The byte order, a type, an index type, or a type's children or dictionary aren't supported.
    #[error("a type is not supported")]
    Unsupported,
    /// There are more than [`MAX_FIELDS`](crate::MAX_FIELDS) fields, children counted.
    #[error("there are too many fields")]
    TooManyFields,
    /// A field is nested deeper than [`MAX_DEPTH`](crate::MAX_DEPTH).
    #[error("fields are nested too deep")]
    TooDeep,
    /// A name is not UTF-8, or two fields of one parent have one name.
    #[error("a name is no text, or stands twice")]
    BadName,
    /// Two fields have one dictionary and different types.
    #[error("a dictionary has two types")]
    DictionaryTypes,
    /// Memory ran out.
    #[error("out of memory")]
    Memory(AllocError),
}

impl From<FlatFault> for SchemaRefusal {
    ghost from_gives = { λ fault refusal. refusal ≡ Flat fault };

    fn from(fault: FlatFault) -> SchemaRefusal {
        SchemaRefusal::Flat(fault)
    }
}

impl From<AllocError> for SchemaRefusal {
    ghost from_gives = { λ error refusal. refusal ≡ Memory error };

    fn from(error: AllocError) -> SchemaRefusal {
        SchemaRefusal::Memory(error)
    }
}
