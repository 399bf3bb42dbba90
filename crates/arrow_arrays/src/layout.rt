ghost use Rattle.std.specs.Prelude.{◌≡◌};
ghost use Rattle.arrow_arrays.specs.Layouts.{layout_of, layout_of_values, own_buffers};

use arrow_schema::{ArrowType, DictSpec};

/// The bytes of an element of a list: lists hold numbers of 64 bits.
pub(crate) const ELEMENT_LEN: u32 = 8;

/// How the values of an array are stored (Arrow columnar format, "Physical memory layout"). The
/// validity bitmap comes before each.
#[derive(Clone, Copy, Debug, PartialEq, Eq)]
pub enum Layout {
    /// No values: the fields of the struct have arrays of their own.
    Struct,
    /// One bit each.
    Bits,
    /// A number of bytes each.
    Fixed(u32),
    /// Any number of bytes each, by offsets.
    Binary,
    /// The same, and each is UTF-8.
    Text,
    /// Any number of elements each, by offsets. The elements are the values of the next array.
    List,
}

impl Layout {
    /// The layout of a field: with a dictionary its array holds indexes.
    pub fn of(kind: ArrowType, dict: Option<DictSpec>) -> Layout
        ensures { result ≡ layout_of kind dict }
    {
        match dict {
            None => Layout::of_values(kind),
            Some(DictSpec { wide: true, .. }) => Layout::Fixed(2),
            Some(DictSpec { wide: false, .. }) => Layout::Fixed(1),
        }
    }

    fn of_values(kind: ArrowType) -> Layout
        ensures { result ≡ layout_of_values kind }
    {
        match kind {
            ArrowType::Bool => Layout::Bits,
            ArrowType::Int { bits, .. } => Layout::Fixed(u32::from(bits) / 8),
            ArrowType::Double | ArrowType::Timestamp | ArrowType::Duration => Layout::Fixed(8),
            ArrowType::Utf8 => Layout::Text,
            ArrowType::Binary => Layout::Binary,
            ArrowType::Fixed(width) => Layout::Fixed(width),
            ArrowType::Struct => Layout::Struct,
            ArrowType::List => Layout::List,
        }
    }

    /// How many buffers an array has, its children's not counted.
    pub(crate) fn own_buffers(self) -> u32
        ensures { result ≡ own_buffers self }
    {
        match self {
            Layout::Struct => 1,
            Layout::Bits | Layout::Fixed(_) | Layout::List => 2,
            Layout::Binary | Layout::Text => 3,
        }
    }
}
