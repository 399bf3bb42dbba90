//! The run of `file`: refused frames have their lines, and the file is written at the end of the capture.

ghost use Rattle.std.specs.Prelude.{◌≡◌, IfOk};
ghost use Rattle.otap_gateway.specs.declared.jobs.ending.Ending.TheVariants as ending;
ghost use Rattle.otap_gateway.specs.EndingRuns.{LeavesEnding};
ghost use Rattle.otap_gateway.specs.Endings.{AnswerOf, Ends as EndsTask};
ghost use Rattle.otap_gateway.specs.Filing.{many_line, none_line};
ghost use Rattle.otap_gateway.specs.FilingSteps.{ClosesFile, HasFrames};
ghost use Rattle.otap_gateway.specs.Reply.{refuses_before};
ghost use Rattle.otap_gateway.specs.Runs.{sinks, world, StopsBy, CountsFaults};

use crate::jobs::file::{Substream, TableFile, take_frame};
use crate::runs::ending::{Added, Ender, drive_to_end};
use crate::runs::handler::{Handled, Handler, write_reply};
use crate::runs::stop::{Stop, Tally};
use otap_capture::{Frame, Sink, Source};
use otap_cells::Kind;
use otap_columns::laws::plain_payloads_are_read;
use otap_consume::Segment;
use otlp_model::Signal;
use std::alloc::{AllocError, Global};

/// The job `file` of a signal.
#[derive(Drop)]
struct FileJob {
    segment: Segment,
    kind: Kind,
    number: u32,
    substream: Substream,
}

impl Handler for FileJob {
    ghost task = { λ s. EndsTask (ending.File s.segment.signal s.kind s.number) };

    ghost histories = { λ s. HasFrames s.kind s.number s.segment s.substream };

    fn handle<O: Sink, E: Sink>(
        &mut self,
        alloc: Global,
        number: u64,
        frame: &Frame<'_>,
        out: &mut O,
        err: &mut E,
    ) -> Result<Handled, Stop> {
        let segment = &mut self.segment;
        let substream = &mut self.substream;
        let Ok(reply) = take_frame(alloc, self.kind, segment, substream, number, frame) else {
            return Err(Stop::Memory);
        };
        write_reply(&reply, out, err)
    }
}

impl Ender for FileJob {
    ghost use Rattle.std.specs.Prelude.{refl};

    ghost ending = { λ s. ending.File s.segment.signal s.kind s.number };

    fn add(&mut self, alloc: Global) -> Result<Added, AllocError> {
        plain_payloads_are_read();
        closing_of(alloc, self.substream.take_file())
    }

    ghost named = { λ s. refl };
}

/// What is added at the end: the file of the tables, or why there is none.
fn closing_of(alloc: Global, file: TableFile) -> Result<Added, AllocError>
    ensures { IfOk result (ClosesFile file) }
{
    match file {
        TableFile::Empty => no_substream(alloc),
        TableFile::TooMany => too_many_batches(alloc),
        TableFile::Written { writer, batches: _ } => {
            let bytes = writer.finish()?;
            Ok(Added::on_out(alloc, bytes))
        }
    }
}

fn no_substream(alloc: Global) -> Result<Added, AllocError>
    ensures { IfOk result (λ added. added ≡ refuses_before none_line) }
{
    let line = b"file: no such sub-stream\n".to_vec(alloc)?;
    Ok(Added::refusal(alloc, line))
}

fn too_many_batches(alloc: Global) -> Result<Added, AllocError>
    ensures { IfOk result (λ added. added ≡ refuses_before many_line) }
{
    let line = b"file: too many batches\n".to_vec(alloc)?;
    Ok(Added::refusal(alloc, line))
}

/// Runs `file`.
pub(crate) fn file<S: Source, O: Sink, E: Sink>(
    alloc: Global,
    signal: Signal,
    kind: Kind,
    number: u32,
    source: &mut S,
    out: &mut O,
    err: &mut E,
) -> Result<Tally, Stop>
    ensures leaves { LeavesEnding (ending.File signal kind number) (S.left source.old)
        (sinks O.Sink out.old E.Sink err.old)
        (sinks O.Sink out.new E.Sink err.new) result }
    ensures stops { StopsBy (AnswerOf (ending.File signal kind number))
        (world S.Source source.old (sinks O.Sink out.old E.Sink err.old))
        (world S.Source source.new (sinks O.Sink out.new E.Sink err.new)) result }
    ensures faults { CountsFaults
        (world S.Source source.old (sinks O.Sink out.old E.Sink err.old))
        (world S.Source source.new (sinks O.Sink out.new E.Sink err.new)) result }
{
    let Ok(segment) = Segment::new(alloc, signal) else {
        return Err(Stop::Memory);
    };
    let mut job = FileJob {
        segment,
        kind,
        number,
        substream: Substream::new(number),
    };
    drive_to_end(alloc, &mut job, source, out, err)
}
