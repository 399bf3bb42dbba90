ghost use Rattle.std.specs.Prelude.{◌≡◌};
ghost use Rattle.arrow_arrays.specs.Arrays.{above_children, is_below_list, array_place};

use crate::layout::Layout;
use crate::place::ArrayPlace;
use arrow_schema::{ArrowType, DictSpec, Encoding, Name};

/// What a field is a child of.
#[derive(Clone, Copy, Debug, PartialEq, Eq)]
pub enum Above {
    /// Nothing: it is a field of the schema.
    Top,
    /// The struct whose array has this index in the list of arrays.
    Struct(usize),
    /// A list, whose elements its array holds.
    List,
}

impl Above {
    /// What is above the children of a field whose array has this index.
    pub(crate) fn of_children(kind: ArrowType, place: usize) -> Above
        ensures { result ≡ above_children kind place }
    {
        match kind {
            ArrowType::List => Above::List,
            _ => Above::Struct(place),
        }
    }

    fn is_list(self) -> bool
        ensures { result ≡ is_below_list self }
    {
        match self {
            Above::List => true,
            Above::Top | Above::Struct(_) => false,
        }
    }
}

/// The array of a field of a schema.
#[derive(Debug, Drop)]
pub struct ArraySpec {
    /// The field's name, type, dictionary and encoding. With a dictionary the type is that of its
    /// values, and the array holds indexes.
    pub name: Name,
    pub kind: ArrowType,
    pub dict: Option<DictSpec>,
    pub encoding: Encoding,
    /// What the field is a child of.
    pub above: Above,
    /// The indexes of its node and of its first buffer.
    pub node: u16,
    pub buffer: u16,
}

impl ArraySpec {
    /// Where it is, and how its values are stored.
    pub fn place(&self) -> ArrayPlace
        ensures { result ≡ array_place self.now }
    {
        ArrayPlace {
            layout: Layout::of(self.kind, self.dict),
            node: self.node,
            buffer: self.buffer,
            element: self.above.is_list(),
        }
    }
}
