//! What holds of the definitions themselves: each law is the contract of a function that does nothing.

ghost use Rattle.std.specs.Prelude.{◌≡◌, ℕ, ◌+◌, ◌*◌, ◌/◌, ◌%◌, ◌^◌, ◌<◌, ◌≤◌, ◌↔◌, List, length, Some, None, All, IsTrue};
ghost use Rattle.otlp_model.specs.declared.value.Value.{Value};
ghost use Rattle.otlp_model.specs.Depth.{depth_of};
ghost use Rattle.otlp_model.specs.Limits.{depth_limit};
ghost use Rattle.cbor_values.specs.Limits.{longest_head};
ghost use Rattle.otlp_model.specs.Real.{is_real_value};
ghost use Rattle.otlp_model.specs.Weight.{weight_of_value};
ghost use Rattle.cbor_values.specs.declared.refusal.CborRefusal.{CborRefusal};
ghost use Rattle.cbor_values.specs.Floats.{of_half, of_single, number_of_half, number_of_single, number_of_double};
ghost use Rattle.cbor_values.specs.Cbor.{Cbor};
ghost use Rattle.cbor_values.specs.Refusals.{Stands};
ghost use Rattle.cbor_values.specs.Written.{cbor_of};
ghost use Rattle.cbor_values.specs.Values.{value_of};

/// Bytes encode one value at most.
pub fn one_value()
    ensures { (bytes : List ℕ) (v w : Value) → Cbor bytes v → Cbor bytes w → v ≡ w }
{}

/// Bytes are read as a value exactly where they encode one that is at most 32 deep; a refusal applies to all other bytes, and
/// to no others.
pub fn value_or_refusal()
    ensures value { (bytes : List ℕ) (v : Value) → All (λ byte. byte < 256) bytes → value_of bytes ≡ Some v ↔ (Cbor bytes v × (depth_of v ≤ depth_limit)) }
    ensures refusal { (bytes : List ℕ) → All (λ byte. byte < 256) bytes → value_of bytes ≡ None ↔ ((refusal : CborRefusal) × Stands refusal bytes) }
{}

/// A narrow float that is finite and its double are the same number: doubles are counted in 2^-1074, half floats in 2^-24
/// and single ones in 2^-149. The sign is kept with each.
pub fn same_number()
    ensures half { (bits : ℕ) → bits < 2 ^ 16 → bits / 2 ^ 10 % 2 ^ 5 < 31 → number_of_double (of_half bits) ≡ number_of_half bits * 2 ^ 1050 }
    ensures single { (bits : ℕ) → bits < 2 ^ 32 → bits / 2 ^ 23 % 2 ^ 8 < 255 → number_of_double (of_single bits) ≡ number_of_single bits * 2 ^ 925 }
    ensures half_sign { (bits : ℕ) → bits < 2 ^ 16 → of_half bits / 2 ^ 63 ≡ bits / 2 ^ 15 }
    ensures single_sign { (bits : ℕ) → bits < 2 ^ 32 → of_single bits / 2 ^ 63 ≡ bits / 2 ^ 31 }
{}

/// What is written for a value encodes it, is read as it, and is longer than the value weighs by a head at most.
pub fn written_form()
    ensures stands { (v : Value) → IsTrue (is_real_value v) → Cbor (cbor_of v) v }
    ensures again { (v : Value) → IsTrue (is_real_value v) → depth_of v ≤ depth_limit → value_of (cbor_of v) ≡ Some v }
    ensures bytes { (v : Value) → IsTrue (is_real_value v) → All (λ byte. byte < 256) (cbor_of v) }
    ensures short { (v : Value) → length (cbor_of v) ≤ weight_of_value v + longest_head }
{}
