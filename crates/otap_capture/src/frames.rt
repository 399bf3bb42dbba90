//! The frames of a capture, from a source that gives them in any pieces.
ghost use Rattle.std.specs.Prelude.{◌≡◌, ◌+◌, ◌++◌, [], IfNone, IfSome, None, Some, OnOk, OnErr, Ok, false};
ghost use Rattle.std.specs.Option.{option_map};
ghost use Rattle.otap_capture.specs.Capture.{frame_of};
ghost use Rattle.otap_capture.specs.Reading.{ahead, ReadsOn, EndsAgain, StepCounts, KeepsFew, KeepsRest, Asked, TellsWhether, IsWaiting};
ghost use Rattle.otap_capture.specs.Cutting.{StandsAt, Cuts, Fills, IsDecided, KeepsMore, SameBut};

use crate::buffer::Buffer;
use crate::frame::{Damage, FRAME_HEAD, Frame, FramesRefusal, Step};
use crate::front::{Flag, NextFrame, front_at};
use crate::outside::Source;
use std::alloc::Global;
use std::marker::Model;

/// The frames of a capture, as they come. It keeps the bytes of one frame and at most 65,536 bytes
/// more, and asks the source only where the next step isn't decided by the bytes that it keeps.
#[derive(Drop)]
pub struct Frames {
    /// The bytes that are kept; right before them are those of the last frame.
    buffer: Buffer,
    /// How many bytes the frames handed out so far have.
    handed: u64,
    /// Where the bytes of the last frame begin, after its head.
    begin: usize,
    last: Option<Flag>,
    complete: bool,
    ended: Option<Step>,
}

impl Model for Frames {
    ghost use Rattle.otap_capture.specs.Reading.{Reading};

    ghost Value = { Reading };

    ghost use Rattle.otap_capture.specs.Inside.{reading_of, IsSound};

    ghost view = { reading_of };

    ghost invariant = { IsSound };
}

impl Frames {
    /// The frames of a capture of which nothing is read yet.
    pub fn new(alloc: Global) -> Frames
        ensures { result ≡ record { handed = 0; kept = []; complete = false; frame = None; ended = None; held = 0 } }
    {
        Frames {
            buffer: Buffer {
                bytes: Vec::new(alloc),
                place: 0,
                filled: 0,
            },
            handed: 0,
            begin: 0,
            last: None,
            complete: false,
            ended: None,
        }
    }

    /// The next step over the capture that the source gives: a frame, which [`Frames::frame`] hands
    /// out until the next call, or how the capture ends. Once an end was returned, it is returned
    /// again. After a refusal nothing is lost, and a further call goes on.
    pub fn next<S: Source>(&mut self, source: &mut S) -> Result<Step, FramesRefusal>
        ensures step { IfNone self.old.ended
            (ReadsOn self.old self.new (ahead self.old (S.left source.old)) (ahead self.new (S.left source.new)) result) }
        ensures again { IfSome self.old.ended (λ end. EndsAgain self.old self.new source.old source.new end result) }
        ensures count { StepCounts (S.faults source.old) (S.faults source.new) result }
        // The bytes taken from the source, less those handed out before.
        ensures few { KeepsFew self.old self.new }
        ensures rest { IfNone self.old.ended (KeepsRest self.new result) }
        // The source is asked only where the step isn't decided.
        ensures asked { Asked self.old self.new result }
    {
        self.last = None;
        if let Some(end) = self.ended {
            return Ok(end);
        }
        self.fill(source)?;
        Ok(self.cut())
    }

    /// Whether the next call of [`Frames::next`] asks the source for bytes.
    pub fn asks(&self) -> bool
        ensures { TellsWhether result (IsWaiting self.now) }
    {
        self.ended.is_none() && !self.complete && self.front().is_open()
    }

    /// The frame that the last call of [`Frames::next`] returned, if it returned one.
    pub fn frame(&self) -> Option<Frame<'_>>
        ensures { option_map frame_of result ≡ self.now.frame }
    {
        match self.last {
            None => None,
            Some(Flag::Message) => Some(Frame::Message(
                &self.buffer.bytes[self.begin..self.buffer.place],
            )),
            Some(Flag::Packed) => Some(Frame::Packed),
            Some(Flag::Reset) => Some(Frame::Reset),
        }
    }

    /// What is at the front of the bytes that are kept.
    fn front(&self) -> NextFrame
        ensures { StandsAt self.now.handed self.now.kept result }
    {
        front_at(self.handed, self.buffer.kept())
    }

    /// Reads until the next step is decided.
    fn fill<S: Source>(&mut self, source: &mut S) -> Result<(), FramesRefusal>
        requires { self.old.frame ≡ None }
        ensures fills { Fills self.old self.new (ahead self.old (S.left source.old)) (ahead self.new (S.left source.new)) }
        ensures decided { OnOk result (IsDecided self.new) }
        ensures count { StepCounts (S.faults source.old) (S.faults source.new) result }
        ensures asked { Asked self.old self.new result }
        ensures few { KeepsFew self.old self.new }
    {
        let _ = &self.buffer;
        'pieces: while self.asks() {
            self.read_more(source)?;
        }
        Ok(())
    }

    /// Takes one more piece from the source, or finds that it is at its end.
    fn read_more<S: Source>(&mut self, source: &mut S) -> Result<(), FramesRefusal>
        requires waiting { IsWaiting self.old }
        requires shown { self.old.frame ≡ None }
        ensures fills { Fills self.old self.new (ahead self.old (S.left source.old)) (ahead self.new (S.left source.new)) }
        ensures grows { OnOk result (KeepsMore self.old self.new) }
        ensures same { OnErr result (SameBut self.old self.new) }
        ensures few { KeepsFew self.old self.new }
        ensures count { StepCounts (S.faults source.old) (S.faults source.new) result }
    {
        self.buffer.let_go();
        self.begin = self.buffer.place;
        self.complete = self.buffer.read_piece(source)?;
        Ok(())
    }

    /// Takes the next step over the bytes that are kept.
    fn cut(&mut self) -> Step
        requires { self.old.frame ≡ None }
        ensures cuts { Cuts self.old self.new result }
        ensures few { KeepsFew self.old self.new }
        ensures rest { KeepsRest self.new (Ok result) }
    {
        match self.front() {
            NextFrame::Frame(flag, size) => {
                self.begin = self.buffer.place + FRAME_HEAD;
                self.buffer.place = self.begin + size;
                self.handed += (FRAME_HEAD + size) as u64;
                self.last = Some(flag);
                Step::Frame
            }
            NextFrame::End => {
                self.ended = Some(Step::End);
                Step::End
            }
            NextFrame::Nothing(why) => {
                let at = self.handed;
                let end = Step::Damage(Damage { at, why });
                self.ended = Some(end);
                end
            }
        }
    }
}
