//! What holds of the definitions themselves: each law is the contract of a function that does nothing.

ghost use Rattle.std.specs.Prelude.{◌≡◌, ℕ, ◌*◌, ◌≤◌, List, length, IsTrue};
ghost use Rattle.otlp_messages.specs.declared.messages.Defect.{Defect};
ghost use Rattle.otlp_model.specs.declared.request.Request.{Request};
ghost use Rattle.otlp_model.specs.declared.request.Signal.{Signal};
ghost use Rattle.otlp_model.specs.Limits.{weight_limit};
ghost use Rattle.otlp_model.specs.Weight.{weight_of};
ghost use Rattle.lists.specs.Bytes.{is_real_octets};
ghost use Rattle.otlp_model.specs.Real.{IsReal};
ghost use Rattle.otlp_model.specs.Profile.{IsProfile};
ghost use Rattle.otlp_model.specs.Telemetry.{signal_of};
ghost use Rattle.otlp_codec.specs.declared.part.TheConstants.{LEVELS};
ghost use Rattle.otlp_codec.specs.declared.request.TheConstants.{WEIGHT_FOR_BYTE};
ghost use Rattle.otlp_codec.specs.Limits.{bytes_for_unit, level_limit, weight_for_byte};
ghost use Rattle.otlp_codec.specs.Requests.{Stands, Reads, canon_request};

/// The limits of the code are the ones that the definitions name.
pub fn limits()
    ensures levels { LEVELS ≡ level_limit }
    ensures byte { WEIGHT_FOR_BYTE ≡ weight_for_byte }
{}

/// Bytes say one request at most.
pub fn one_reading()
    ensures { (signal : Signal) (bytes : List ℕ) (q r : Request) → Reads signal bytes q → Reads signal bytes r → q ≡ r }
{}

/// Bytes say a request exactly where they have no defect.
pub fn some_reading()
    ensures some { (signal : Signal) (bytes : List ℕ) → ((e : Defect) → Stands signal bytes e → ⊥) → (q : Request) × Reads signal bytes q }
    ensures none { (signal : Signal) (bytes : List ℕ) (q : Request) (e : Defect) → Reads signal bytes q → Stands signal bytes e → ⊥ }
{}

/// What is read of bytes is real, as it must be to be written: its texts are UTF-8, and its numbers fit their types.
pub fn read_is_real()
    ensures { (signal : Signal) (bytes : List ℕ) (q : Request) → IsTrue (is_real_octets bytes) → Reads signal bytes q → IsReal q }
{}

/// What is read weighs at most `WEIGHT_FOR_BYTE` for each byte that it is read of.
pub fn read_is_light()
    ensures { (signal : Signal) (bytes : List ℕ) (q : Request) → Reads signal bytes q → weight_of q ≤ weight_for_byte * length bytes }
{}

/// What is written is read: of a request that a program can hold, whose ids have their lengths and whose
/// values are at most 32 deep, and which weighs at most `MAX_TREE_WEIGHT`.
pub fn written_is_read()
    ensures { (q : Request) → IsReal q → IsProfile q → weight_of q ≤ weight_limit → Reads (signal_of q) (canon_request q) q }
{}

/// A canonical spelling takes at most eight bytes for each unit of weight.
pub fn spelling_is_short()
    ensures { (q : Request) → IsReal q → weight_of q ≤ weight_limit → length (canon_request q) ≤ bytes_for_unit * weight_of q }
{}

/// Tidying twice changes nothing: what a canonical spelling reads as has that canonical spelling.
pub fn tidy_is_stable()
    ensures { (q r : Request) → IsReal q → IsProfile q → weight_of q ≤ weight_limit
        → Reads (signal_of q) (canon_request q) r → canon_request r ≡ canon_request q }
{}
