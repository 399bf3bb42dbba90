//! Laws of the definitions, each a function without a body whose clauses are the law.
ghost use Rattle.std.specs.Prelude.{◌≡◌, ℕ, Bool, List, ◌∷◌, ◌++◌, [], length, drop, bytes_eq, false, position, Some};
ghost use Rattle.std.specs.List.{list_any, IsDistinct};
ghost use Rattle.otap_dicts.specs.Forms.{distinct};
ghost use Rattle.otap_dicts.specs.Ladders.{LadderIn, is_plain, ladder_of, observed};
ghost use Rattle.otap_dicts.specs.declared.form.Form.TheVariants.{Plain};
ghost use Rattle.otap_dicts.specs.Limits.{narrow_limit, value_limit, byte_limit};

use crate::form::{MAX_BYTES, MAX_NARROW, MAX_VALUES};

/// The limits have their values.
pub fn limits_hold()
    ensures narrow { MAX_NARROW ≡ narrow_limit }
    ensures values { MAX_VALUES ≡ value_limit }
    ensures bytes { MAX_BYTES ≡ byte_limit }
{}

/// The distinct values of a list are its values, each once; more values only add to them, at their end.
pub fn distinct_values()
    ensures members { (values : List (List ℕ)) (value : List ℕ) → list_any (bytes_eq value) (distinct values) ≡ list_any (bytes_eq value) values }
    ensures once { (values : List (List ℕ)) → IsDistinct bytes_eq (distinct values) }
    ensures grows { (values more : List (List ℕ)) → distinct (values ++ more) ≡ distinct values ++ drop (length (distinct values)) (distinct (values ++ more)) }
{}

/// A ladder that has observed values is a function of their list: each further value takes it to the ladder of the longer list.
pub fn ladders_follow_values()
    ensures { (dictionary : Bool) (values : List (List ℕ)) (value : List ℕ) → observed (ladder_of dictionary values) value ≡ ladder_of dictionary (values ++ value ∷ []) }
{}

/// A value that is observed twice in turn changes a ladder once, and no value changes one whose form is plain.
pub fn a_value_again_changes_nothing()
    ensures twice { (ladder : LadderIn) (value : List ℕ) → observed (observed ladder value) value ≡ observed ladder value }
    ensures plain { (ladder : LadderIn) (value : List ℕ) → ladder.form ≡ Plain → observed ladder value ≡ ladder }
{}

/// A value keeps its index in a dictionary as others are observed, and each observed one has an index, until the dictionary is
/// given up.
pub fn places_stay()
    ensures stay { (ladder : LadderIn) (value other : List ℕ) (place : ℕ) → is_plain (observed ladder value).form ≡ false → position (bytes_eq other) ladder.values ≡ Some place → position (bytes_eq other) (observed ladder value).values ≡ Some place }
    ensures found { (ladder : LadderIn) (value : List ℕ) → is_plain (observed ladder value).form ≡ false → (place : ℕ) × (position (bytes_eq value) (observed ladder value).values ≡ Some place) }
{}
