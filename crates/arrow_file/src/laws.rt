//! Laws of the definitions that the contracts cite.

ghost use Rattle.std.specs.Prelude.{◌≡◌, ◌≤◌, ◌<◌, ◌⊎◌, ℕ, List, All, length};
ghost use Rattle.arrow_file.specs.declared.refusal.FileRefusal.{FileRefusal};
ghost use Rattle.arrow_file.specs.Limits.{max_file, max_batches};
ghost use Rattle.arrow_file.specs.Files.{File};
ghost use Rattle.arrow_file.specs.Defects.{HasFileDefect};

use crate::framing::MAX_FILE;
use crate::writer::MAX_BATCHES;

/// The limits have their values.
pub fn limits_hold()
    ensures file { MAX_FILE ≡ max_file }
    ensures batches { MAX_BATCHES ≡ max_batches }
{}

/// Bytes are one file at most: its messages are determined.
pub fn one_file()
    ensures { (bytes s t : List ℕ) (ds es bs cs : List (List ℕ)) → File bytes s ds bs → File bytes t es cs → (s ≡ t) × (ds ≡ es) × (bs ≡ cs) }
{}

/// Bytes within the limit are a file and have no defect, or have just one defect and are no file; longer ones have just one defect.
pub fn file_or_defect()
    ensures never_both { (bytes s : List ℕ) (ds bs : List (List ℕ)) (refusal : FileRefusal) → length bytes ≤ max_file → File bytes s ds bs → HasFileDefect bytes refusal → ⊥ }
    ensures one { (bytes : List ℕ) (a b : FileRefusal) → HasFileDefect bytes a → HasFileDefect bytes b → a ≡ b }
    ensures some { (bytes : List ℕ) → All (λ byte. byte < 256) bytes
        → ((s : List ℕ) × (ds : List (List ℕ)) × (bs : List (List ℕ)) × (length bytes ≤ max_file) × File bytes s ds bs) ⊎ ((refusal : FileRefusal) × HasFileDefect bytes refusal) }
{}
