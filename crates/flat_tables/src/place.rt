ghost use Rattle.std.specs.Prelude.{◌≡◌, ℕ};

use std::marker::Model;

/// Where something begins that a builder holds. It is counted from the end, so it stays the same
/// while the builder grows at the front.
#[derive(Clone, Copy, Debug, PartialEq, Eq)]
pub struct Place {
    from_end: usize,
}

impl Model for Place {
    ghost Value = { ℕ };

    ghost view = { λ p. p.from_end };

    ghost inverse = { λ n. record { from_end = n } };
}

impl Place {
    pub(crate) fn from_end(count: usize) -> Place
        ensures { result ≡ count }
    {
        Place { from_end: count }
    }

    pub(crate) fn to_end(self) -> usize
        ensures { result ≡ self }
    {
        self.from_end
    }
}

/// What a slot of a new table holds.
#[derive(Clone, Copy, Debug, PartialEq, Eq)]
pub enum Slot {
    /// Nothing: the field isn't there.
    Absent,
    /// A byte; a bool is 0 or 1.
    U8(u8),
    /// A number of 16 bits.
    I16(i16),
    /// A number of 32 bits.
    I32(i32),
    /// A number of 64 bits.
    I64(i64),
    /// A text, a vector or a table that the builder holds.
    At(Place),
}
