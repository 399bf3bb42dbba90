//! What holds of the definitions themselves: each law is the contract of a function that does nothing.

ghost use Rattle.std.specs.Prelude.{◌≡◌, ℕ, ◌^◌, ◌<◌, List, true, length};
ghost use Rattle.std.specs.List.{AllByRecursion};
ghost use Rattle.otlp_messages.specs.declared.messages.Message.{Message};
ghost use Rattle.otlp_messages.specs.declared.table.TheConstants.{MARKS};
ghost use Rattle.otlp_messages.specs.Defects.{FineOrDefect};
ghost use Rattle.otlp_messages.specs.Limits.{mark_limit};
ghost use Rattle.otlp_messages.specs.Canon.{Filled, canon, is_laid_out, RowFits, IsReadBack};

/// Rows that are written are the fields that are read, without a defect.
pub fn rows_are_read()
    ensures { (m : Message) (levels : ℕ) (rows : List Filled) → is_laid_out m rows ≡ true
        → AllByRecursion (RowFits m levels) rows → length (canon rows) < 2 ^ 64 → IsReadBack m levels rows }
{}

/// The limit of the code is the one that the definitions name.
pub fn limits()
    ensures { MARKS ≡ mark_limit }
{}

/// Whatever the bytes are, they are the message, or a defect is in them.
pub fn fine_or_defect()
    ensures { (m : Message) (levels : ℕ) (bytes : List ℕ) → FineOrDefect m levels bytes }
{}
