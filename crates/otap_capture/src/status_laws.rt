//! What holds of the definitions of statuses: each law is the contract of a function that does nothing.

ghost use Rattle.std.specs.Prelude.{◌≡◌, ◌⊎◌, ℕ, ◌^◌, ◌<◌, List, length};
ghost use Rattle.otap_capture.specs.declared.batch.BatchRefusal.{BatchRefusal};
ghost use Rattle.otap_capture.specs.Statuses.{StatusContent, ReadsStatus, RefusesStatus, IsRealStatus, status_in, canon_status};

/// A status is read in one way at most, and is not refused where it is read.
pub fn one_status()
    ensures one { (bytes : List ℕ) (a b : StatusContent) → ReadsStatus bytes a → ReadsStatus bytes b → a ≡ b }
    ensures not_refused { (bytes : List ℕ) (status : StatusContent) (refusal : BatchRefusal)
        → ReadsStatus bytes status → RefusesStatus bytes refusal → ⊥ }
{}

/// Bytes without a defect are read as a status, and all others are refused.
pub fn status_or_refused()
    ensures read { (bytes : List ℕ) → ((refusal : BatchRefusal) → RefusesStatus bytes refusal → ⊥) → ReadsStatus bytes (status_in bytes) }
    ensures either { (bytes : List ℕ) → ((status : StatusContent) × ReadsStatus bytes status) ⊎ ((refusal : BatchRefusal) × RefusesStatus bytes refusal) }
{}

/// The canonical spelling of a status is read as the status.
pub fn written_status_is_read()
    ensures { (status : StatusContent) → IsRealStatus status → length (canon_status status) < 2 ^ 64
        → ReadsStatus (canon_status status) status }
{}
