//! Laws of captures: each is the contract of an empty function.
ghost use Rattle.std.specs.Prelude.{◌≡◌, ◌≤◌, List, ℕ, ◌++◌, length};
ghost use Rattle.std.specs.declared.option.Option.{Option};
ghost use Rattle.otap_capture.specs.Capture.{Frame, IsFrame, IsCapture, capture_limit, longest_frame, message_frame, reason_at, reset_frame};
ghost use Rattle.otap_capture.specs.Capture as frame;
ghost use Rattle.otap_capture.specs.Deciding.{IsOpen};
ghost use Rattle.otap_capture.specs.Limits.{frame_head, read_ahead};

use crate::buffer::ROOM;
use crate::frame::{Damage, FRAME_HEAD, MAX_CAPTURE, MAX_FRAME};

/// Every list of bytes has a capture.
pub fn some_capture()
    ensures { (bytes : List ℕ) → (frames : List Frame) × (end : Option Damage) × IsCapture bytes frames end }
{}

/// No list of bytes has two captures.
pub fn one_capture()
    ensures { (bytes : List ℕ) (frames others : List Frame) (end other : Option Damage)
        → IsCapture bytes frames end → IsCapture bytes others other → (frames ≡ others) × (end ≡ other) }
{}

/// What the bytes at an offset decide stays, whatever bytes come after them.
pub fn decided_stays()
    ensures { (place : ℕ) (bytes more : List ℕ) → (IsOpen place bytes → ⊥) → reason_at place (bytes ++ more) ≡ reason_at place bytes }
{}

/// What is written as a frame is that frame.
pub fn written_is_read()
    ensures message { (part : List ℕ) → length part ≤ longest_frame → IsFrame (message_frame part) (frame.Message part) }
    ensures reset { IsFrame reset_frame frame.Reset }
{}

/// The limits of the code are those of the definitions.
pub fn limits_are_stated()
    ensures head { FRAME_HEAD ≡ frame_head }
    ensures frame { MAX_FRAME ≡ longest_frame }
    ensures capture { MAX_CAPTURE ≡ capture_limit }
    ensures ahead { ROOM ≡ read_ahead }
{}
