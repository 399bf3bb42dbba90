//! Payload types, by the words that say them.
ghost use Rattle.std.specs.Prelude.{◌≡◌, ◌≢◌, Contains, MatchOption};
ghost use Rattle.std.specs.Fmt.{decimal};
ghost use Rattle.otap_cells.specs.declared.payload.Kind.{Kind};
ghost use Rattle.otap_cells.specs.Payload.{kinds_of, number_of};

use crate::texts::numbers::decimal_of;
use otap_cells::{Kind, table_of};
use otlp_model::Signal;

/// The greatest number that is read as a payload type.
const LAST_TYPE: u32 = 127;

/// The payload type of the signal whose number the word says.
pub(crate) fn kind_of(signal: Signal, word: &str) -> Option<Kind>
    ensures { MatchOption result ((kind : Kind) → Contains (kinds_of signal) kind → word.now ≢ decimal (number_of kind))
        (λ kind. Contains (kinds_of signal) kind × (word.now ≡ decimal (number_of kind))) }
{
    let number = decimal_of(word)?;
    if number > LAST_TYPE {
        return None;
    }
    table_of(signal, number as i32)
}
