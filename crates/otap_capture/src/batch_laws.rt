//! What holds of the definitions of batch messages: each law is the contract of a function that does
//! nothing.

ghost use Rattle.std.specs.Prelude.{◌≡◌, ◌⊎◌, ℕ, ◌^◌, ◌<◌, List, length};
ghost use Rattle.otap_capture.specs.declared.batch.BatchRefusal.{BatchRefusal};
ghost use Rattle.otap_capture.specs.Batch.{BatchContent, ReadsBatch, RefusesBatch, IsRealBatch, batch_content, canon_batch};

/// A batch message is read in one way at most, and is not refused where it is read.
pub fn one_batch()
    ensures one { (bytes : List ℕ) (a b : BatchContent) → ReadsBatch bytes a → ReadsBatch bytes b → a ≡ b }
    ensures not_refused { (bytes : List ℕ) (batch : BatchContent) (refusal : BatchRefusal)
        → ReadsBatch bytes batch → RefusesBatch bytes refusal → ⊥ }
{}

/// Bytes without a defect are read as a batch message, and all others are refused.
pub fn read_or_refused()
    ensures read { (bytes : List ℕ) → ((refusal : BatchRefusal) → RefusesBatch bytes refusal → ⊥) → ReadsBatch bytes (batch_content bytes) }
    ensures either { (bytes : List ℕ) → ((batch : BatchContent) × ReadsBatch bytes batch) ⊎ ((refusal : BatchRefusal) × RefusesBatch bytes refusal) }
{}

/// The canonical spelling of a batch is read as the batch.
pub fn written_batch_is_read()
    ensures { (batch : BatchContent) → IsRealBatch batch → length (canon_batch batch) < 2 ^ 64
        → ReadsBatch (canon_batch batch) batch }
{}
