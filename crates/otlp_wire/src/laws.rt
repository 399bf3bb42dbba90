//! What holds of the definitions themselves: each law is the contract of a function that does nothing.

ghost use Rattle.std.specs.Prelude.{◌≡◌, ℕ, ◌+◌, ◌^◌, ◌<◌, ◌≤◌, List, ◌++◌, length, Option};
ghost use Rattle.otlp_wire.specs.declared.parts.TheConstants.{MAX_NUMBER};
ghost use Rattle.otlp_wire.specs.declared.parts.WireError.{WireError};
ghost use Rattle.otlp_wire.specs.Varint.{IsVarint, varint};
ghost use Rattle.otlp_wire.specs.Wire.{Entry, IsNumber, IsField, Fits, spelling};
ghost use Rattle.otlp_wire.specs.Reading.{Reads, Spells};
ghost use Rattle.otlp_wire.specs.Fields.{fields_of, end_of};
ghost use Rattle.otlp_wire.specs.Limits.{number_limit};

/// The greatest number of the code is the last one below the limit that the definitions name.
pub fn limits()
    ensures { MAX_NUMBER + 1 ≡ number_limit }
{}

/// Bytes have one reading at most.
pub fn one_reading()
    ensures { (bytes : List ℕ) (fs gs : List Entry) (d e : Option WireError)
        → Reads bytes fs d → Reads bytes gs e → (fs ≡ gs) × (d ≡ e) }
{}

/// All bytes have a reading, which `fields_of` and `end_of` name.
pub fn some_reading()
    ensures { (bytes : List ℕ) → Reads bytes (fields_of bytes) (end_of bytes) }
{}

/// The fields of bytes that encode fields come before those of any bytes after them. So `fields_of`
/// has the fields of the longest front that encodes fields.
pub fn joined_reading()
    ensures fields { (front rest : List ℕ) (fs : List Entry)
        → Spells front fs → fields_of (front ++ rest) ≡ fs ++ fields_of rest }
    ensures end { (front rest : List ℕ) (fs : List Entry)
        → Spells front fs → end_of (front ++ rest) ≡ end_of rest }
{}

/// What is written for a field reads back as the field.
pub fn written_is_read()
    ensures { (f : Entry) → IsNumber f.number → Fits f.value → IsField (spelling f) f }
{}

/// The varint that is written is a varint of the number, and none is shorter.
pub fn shortest_spelling()
    ensures is_one { (n : ℕ) → n < 2 ^ 64 → IsVarint (varint n) n }
    ensures shortest { (bytes : List ℕ) (n : ℕ) → IsVarint bytes n → length (varint n) ≤ length bytes }
{}
