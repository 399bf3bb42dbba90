//! The printed names of defects.

ghost use Rattle.std.specs.Prelude.{◌≡◌};
ghost use Rattle.otlp_messages.specs.Names.{defect_text};

use crate::messages::Defect;

/// The name of a defect.
pub fn defect_name(defect: Defect) -> &'static str
    ensures { result.now ≡ defect_text defect }
{
    match defect {
        Defect::BadMessage => "BadMessage",
        Defect::Repeated => "Repeated",
        Defect::BadUtf8 => "BadUtf8",
        Defect::BadLength => "BadLength",
        Defect::Unsupported => "Unsupported",
        Defect::TooDeep => "TooDeep",
    }
}
