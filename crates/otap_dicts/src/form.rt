ghost use Rattle.std.specs.Prelude.{◌≡◌};
ghost use Rattle.otap_dicts.specs.Forms.{dictionary_form};

/// The most distinct values that indexes of 8 bits reach.
pub const MAX_NARROW: usize = 256;

/// The most distinct values of a dictionary, which indexes of 16 bits reach.
pub const MAX_VALUES: usize = 65_536;

/// The most bytes that the distinct values of a dictionary have together.
pub const MAX_BYTES: usize = 1_048_576;

/// How a column is written: not at all, as a dictionary with indexes of 8 or of 16 bits, or as its values.
#[derive(Clone, Copy, Debug, PartialEq, Eq)]
pub enum Form {
    /// No value was observed: the column isn't written.
    Absent,
    /// A dictionary, with indexes of 8 bits.
    Dict8,
    /// A dictionary, with indexes of 16 bits.
    Dict16,
    /// The values themselves.
    Plain,
}

/// The form of a dictionary column with this number of distinct values, which have this number of bytes together.
pub(crate) fn dictionary_form(count: usize, bytes: usize) -> Form
    ensures { result ≡ dictionary_form count bytes }
{
    if count > MAX_VALUES || bytes > MAX_BYTES {
        Form::Plain
    } else if count > MAX_NARROW {
        Form::Dict16
    } else {
        Form::Dict8
    }
}
