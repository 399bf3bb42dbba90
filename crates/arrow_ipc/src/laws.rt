ghost use Rattle.std.specs.Prelude.{◌≡◌, ◌≢◌, ℕ, List, [], ◌⊎◌};
ghost use Rattle.arrow_ipc.specs.declared.fault.IpcFault.{IpcFault};
ghost use Rattle.arrow_ipc.specs.declared.messages.IpcMessage.{IpcMessage};
ghost use Rattle.arrow_ipc.specs.Limits.{max_parts, max_body};
ghost use Rattle.arrow_ipc.specs.Messages.{IsMessage};
ghost use Rattle.arrow_ipc.specs.Faults.{Stands};
ghost use Rattle.arrow_ipc.specs.Fronts.{Front, front_of, left_of};

use crate::builder::{MAX_BODY, MAX_PARTS};

/// The limits have their values.
pub fn limits_hold()
    ensures parts { MAX_PARTS ≡ max_parts }
    ensures body { MAX_BODY ≡ max_body }
{}

/// At the start of bytes there is one message and no fault, or at least one fault and no message;
/// at the end of the bytes there is neither.
pub fn message_or_fault()
    ensures one { (bytes : List ℕ) (m n : IpcMessage) (a b : ℕ) → IsMessage bytes m a → IsMessage bytes n b → (m ≡ n) × (a ≡ b) }
    ensures never_both { (bytes : List ℕ) (m : IpcMessage) (size : ℕ) (fault : IpcFault) → IsMessage bytes m size → Stands bytes fault → ⊥ }
    ensures some { (bytes : List ℕ) → bytes ≢ [] → ((m : IpcMessage) × (size : ℕ) × IsMessage bytes m size) ⊎ ((fault : IpcFault) × Stands bytes fault) }
    ensures end { (fault : IpcFault) → Stands [] fault → ⊥ }
{}

/// All bytes have just one front. It ends at their end or at an offset with a fault, and never at
/// both.
pub fn one_front()
    ensures one { (bytes : List ℕ) (ms ns : List IpcMessage) (left rest : List ℕ) → Front bytes ms left → Front bytes ns rest → (ms ≡ ns) × (left ≡ rest) }
    ensures some { (bytes : List ℕ) → Front bytes (front_of bytes) (left_of bytes) }
    ensures ends { (bytes : List ℕ) → (left_of bytes ≡ []) ⊎ ((fault : IpcFault) × Stands (left_of bytes) fault) }
    ensures never_both { (bytes : List ℕ) (fault : IpcFault) → left_of bytes ≡ [] → Stands (left_of bytes) fault → ⊥ }
{}

/// The empty bytes have no message, and are at their end: each list of bytes that grows starts so.
pub fn no_bytes()
    ensures none { (message : IpcMessage) (size : ℕ) → IsMessage [] message size → ⊥ }
    ensures front { Front [] [] [] }
    ensures read { (front_of [] ≡ []) × (left_of [] ≡ []) }
{}
