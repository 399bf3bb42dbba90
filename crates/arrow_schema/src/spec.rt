ghost use Rattle.std.specs.Prelude.{◌≡◌, ◌==◌, ◌++◌, ◌∷◌, [], length, slice_get, OnOk, OnErr};
ghost use Rattle.std.specs.Option.{option_copied};
ghost use Rattle.arrow_schema.specs.Types.{is_element_type, takes_dictionary, type_number};

use crate::{FieldList, Name};
use std::alloc::{AllocError, Global};
use std::marker::Model;

/// The most fields that a schema that is read has, children counted.
pub const MAX_FIELDS: u32 = 128;

/// How deep the fields of a schema that is read are nested at most. Its own fields have depth 1.
pub const MAX_DEPTH: u32 = 3;

/// How many bytes a value of a fixed binary that is read has at most.
pub const MAX_FIXED: u32 = 65_536;

/// The type of a field's values.
#[derive(Clone, Copy, Debug, PartialEq, Eq)]
pub enum ArrowType {
    /// Truth values, of one bit each.
    Bool,
    /// Integers of that many bits.
    Int { bits: u8, signed: bool },
    /// Floats of 64 bits.
    Double,
    /// Texts.
    Utf8,
    /// Byte strings of any length.
    Binary,
    /// A fixed number of bytes.
    Fixed(u32),
    /// Nanoseconds since the epoch.
    Timestamp,
    /// Nanoseconds.
    Duration,
    /// No values of its own, but those of its children.
    Struct,
    /// Lists of the values of the field's one child: unsigned numbers of 64 bits, or doubles.
    List,
}

impl ArrowType {
    /// Its number in `union Type` of Arrow's Schema.fbs.
    pub(crate) fn number(self) -> u8
        ensures { result ≡ type_number self }
    {
        match self {
            ArrowType::Int { .. } => 2,
            ArrowType::Double => 3,
            ArrowType::Binary => 4,
            ArrowType::Utf8 => 5,
            ArrowType::Bool => 6,
            ArrowType::Timestamp => 10,
            ArrowType::List => 12,
            ArrowType::Struct => 13,
            ArrowType::Fixed(_) => 15,
            ArrowType::Duration => 18,
        }
    }

    /// Whether its values may be the elements of a list.
    pub(crate) fn is_element_type(self) -> bool
        ensures { result ≡ is_element_type self }
    {
        matches!(
            self,
            ArrowType::Double
                | ArrowType::Int {
                    bits: 64,
                    signed: false
                }
        )
    }

    /// Whether values of the type may be dictionary-encoded.
    pub(crate) fn takes_dictionary(self) -> bool
        ensures { result ≡ takes_dictionary self }
    {
        !matches!(self, ArrowType::Bool | ArrowType::Struct | ArrowType::List)
    }
}

/// The dictionary of a field's values.
#[derive(Clone, Copy, Debug, PartialEq, Eq)]
pub struct DictSpec {
    pub id: i64,
    /// Whether its indexes have 16 bits, or 8.
    pub wide: bool,
}

/// How the stored numbers of a column give its ids, where the custom metadata of its field says it:
/// the value of the first pair whose key is `encoding`.
#[derive(Clone, Copy, Debug, PartialEq, Eq)]
pub enum Encoding {
    /// No pair has that key.
    None,
    /// The value is `plain`.
    Plain,
    /// The value is `delta`.
    Delta,
    /// The value is `run`.
    Run,
    /// There is another value, or none.
    Other,
}

/// A field of a schema.
#[derive(Debug, Drop)]
pub struct FieldSpec {
    pub name: Name,
    pub kind: ArrowType,
    pub dict: Option<DictSpec>,
    pub encoding: Encoding,
    pub children: FieldList<FieldSpec>,
}

/// A schema: its fields, in order.
#[derive(Debug, Drop)]
pub struct SchemaSpec {
    fields: FieldList<FieldSpec>,
}

impl Model for SchemaSpec {
    ghost use Rattle.std.specs.Prelude.{List};
    ghost use Rattle.std.specs.Coded.{coded_list};
    ghost use Rattle.arrow_schema.specs.declared.spec.FieldSpec.{FieldSpec};
    ghost use Rattle.arrow_schema.specs.contracts.spec.FieldSpec as field;

    ghost Value = { List FieldSpec };

    ghost coded = { coded_list field.the_row.coded };

    ghost view = { λ schema. schema.fields };
}

impl SchemaSpec {
    /// A schema without fields.
    pub fn new(alloc: Global) -> SchemaSpec
        ensures { result ≡ [] }
    {
        SchemaSpec {
            fields: FieldList::new(alloc),
        }
    }

    pub(crate) fn from_fields(fields: FieldList<FieldSpec>) -> SchemaSpec
        ensures { result ≡ fields }
    {
        SchemaSpec { fields }
    }

    /// How many fields it has, children not counted.
    pub fn len(&self) -> usize
        ensures { result ≡ length self.now }
    {
        self.fields.len()
    }

    /// Whether it has no field.
    pub fn is_empty(&self) -> bool
        ensures { result ≡ (length self.now == 0) }
    {
        self.fields.is_empty()
    }

    /// All of its fields, borrowed.
    pub fn as_slice(&self) -> &[FieldSpec]
        ensures { result.now ≡ self.now }
    {
        self.fields.as_slice()
    }

    /// The field at an index; `None` where there is no such field.
    pub fn get(&self, place: usize) -> Option<&FieldSpec>
        ensures { option_copied result ≡ slice_get self.now place }
    {
        self.fields.get(place)
    }

    /// Appends a field; where memory runs out, the field is dropped.
    pub fn push(&mut self, field: FieldSpec) -> Result<(), AllocError>
        ensures ok { OnOk result (self.new ≡ self.old ++ field ∷ []) }
        ensures err { OnErr result (self.new ≡ self.old) }
    {
        self.fields.push(field)?;
        Ok(())
    }
}
