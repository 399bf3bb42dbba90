//! How a run ends, and its status.
ghost use Rattle.std.specs.Prelude.{◌≡◌};
ghost use Rattle.otap_gateway.specs.Runs.{exit_status, stop_status, words_status};
ghost use Rattle.otap_gateway.specs.Turns.{stop_of_sink, stop_of_frames};

use otap_capture::{FramesRefusal, SinkRefusal};

/// What stopped a run before its end.
#[derive(Clone, Copy)]
pub(crate) enum Stop {
    /// The source failed.
    Source,
    /// Out or err failed.
    Sink,
    /// Memory ran out.
    Memory,
}

impl From<FramesRefusal> for Stop {
    ghost from_gives = { λ refusal stop. stop ≡ stop_of_frames refusal };

    fn from(refusal: FramesRefusal) -> Self {
        match refusal {
            FramesRefusal::Source => Stop::Source,
            FramesRefusal::Memory(_) => Stop::Memory,
        }
    }
}

impl From<SinkRefusal> for Stop {
    ghost from_gives = { λ refusal stop. stop ≡ stop_of_sink refusal };

    fn from(refusal: SinkRefusal) -> Self {
        match refusal {
            SinkRefusal::Failed => Stop::Sink,
            SinkRefusal::Memory(_) => Stop::Memory,
        }
    }
}

/// A run that came to its end.
#[derive(Clone, Copy)]
pub(crate) struct Tally {
    /// Whether a frame was refused.
    pub(crate) refused: bool,
    /// Whether the capture has a damage.
    pub(crate) damaged: bool,
}

/// The status of a run for the words of a job.
pub(crate) fn status(end: Result<Tally, Stop>) -> u8
    ensures { result ≡ exit_status end }
{
    match end {
        Ok(tally) if tally.damaged => 5,
        Ok(tally) if tally.refused => 1,
        Ok(_) => 0,
        Err(stop) => stop_status(stop),
    }
}

/// The status of a run for words that aren't understood.
pub(crate) fn words_status(end: Result<(), Stop>) -> u8
    ensures { result ≡ words_status end }
{
    match end {
        Ok(()) => 2,
        Err(stop) => stop_status(stop),
    }
}

pub(crate) fn stop_status(stop: Stop) -> u8
    ensures { result ≡ stop_status stop }
{
    match stop {
        Stop::Source => 3,
        Stop::Sink => 4,
        Stop::Memory => 6,
    }
}
