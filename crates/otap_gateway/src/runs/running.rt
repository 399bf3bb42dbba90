//! The whole of what the program does.
ghost use Rattle.std.specs.Prelude.{◌≡◌};
ghost use Rattle.std.specs.Io.KnownBytes.{Keeps};
ghost use Rattle.otap_gateway.specs.declared.jobs.command.Command.{Command};
ghost use Rattle.otap_gateway.specs.declared.jobs.command.Command.TheVariants as command;
ghost use Rattle.otap_gateway.specs.declared.jobs.ending.Ending.{Ending};
ghost use Rattle.otap_gateway.specs.Commands.{words_of};
ghost use Rattle.otap_gateway.specs.EndingRuns.{LeavesEnding, RunsEnding};
ghost use Rattle.otap_gateway.specs.Endings.{AnswerOf, IsEnding, ending_words};
ghost use Rattle.otap_gateway.specs.declared.runs.load.Load.{Load};
ghost use Rattle.otap_gateway.specs.Loads.{IsLoad, IsNotUnderstood, RunsLoad, load_words};
ghost use Rattle.otap_gateway.specs.declared.jobs.unfile.Unfile.{Unfile};
ghost use Rattle.otap_gateway.specs.Unfiling.{IsUnfile, RunsUnfile, unfile_words};
ghost use Rattle.otap_gateway.specs.Runs.{sinks, world, Leaves, Stops, StopsBy, CountsFaults, SinkFaults, LeavesLine, Runs, RefusesWords};

use crate::jobs::command::{Command, ReceiverText};
use crate::jobs::encode::EncodeJob;
use crate::jobs::ending::Ending;
use crate::jobs::filter::FilterJob;
use crate::jobs::list::ListJob;
use crate::jobs::owner::Owner;
use crate::jobs::receiving::ReceiverJob;
use crate::jobs::schema::SchemaJob;
use crate::jobs::show::ShowJob;
use crate::jobs::tidy::TidyJob;
use crate::runs::drive::{drive, flush_both};
use crate::runs::filing::file;
use crate::runs::resending::resend;
use crate::runs::selfrun::{load_status, run_load};
use crate::runs::stop::{Stop, Tally, status, words_status};
use crate::runs::unfiling::unfile;
use crate::runs::words::Words;
use otap_capture::{Sink, Source, write_whole};
use otlp_model::Signal;
use std::alloc::Global;

const NOT_UNDERSTOOD: &[u8] = b"otap: words not understood\n";

/// Does the job that the words name over the capture that the source gives, or writes the load that they name, and returns the
/// status with which the program ends. Each frame is handled as it comes: all that was written is passed on before the source
/// is asked for more. For a load nothing is read; an Arrow file is read whole before anything is written.
///
/// Where nothing stops the run, the status is 5 where the capture is damaged, else 1 where something was refused, else 0;
/// and 2, once their line is written, for words that aren't understood. Where something stops it: 3 where the source
/// failed, 4 where a sink failed, 6 where memory ran out.
pub fn run<S: Source, O: Sink, E: Sink>(
    alloc: Global,
    words: &Words,
    source: &mut S,
    out: &mut O,
    err: &mut E,
) -> u8
    ensures understood { (job : Command) → words.now ≡ words_of job → Runs job
        (world S.Source source.old (sinks O.Sink out.old E.Sink err.old))
        (world S.Source source.new (sinks O.Sink out.new E.Sink err.new)) result }
    ensures ending { (job : Ending) → IsEnding job → words.now ≡ ending_words job → RunsEnding job
        (world S.Source source.old (sinks O.Sink out.old E.Sink err.old))
        (world S.Source source.new (sinks O.Sink out.new E.Sink err.new)) result }
    ensures unfile { (job : Unfile) → IsUnfile job → words.now ≡ unfile_words job → RunsUnfile job
        (world S.Source source.old (sinks O.Sink out.old E.Sink err.old))
        (world S.Source source.new (sinks O.Sink out.new E.Sink err.new)) result }
    ensures load { (load : Load) → IsLoad load → words.now ≡ load_words load → RunsLoad load source.old source.new
        (sinks O.Sink out.old E.Sink err.old)
        (sinks O.Sink out.new E.Sink err.new) result }
    ensures otherwise { IsNotUnderstood words.now → RefusesWords source.old source.new
        (world S.Source source.old (sinks O.Sink out.old E.Sink err.old))
        (world S.Source source.new (sinks O.Sink out.new E.Sink err.new)) result }
{
    match words.command() {
        Some(job) => status(run_job(alloc, job, source, out, err)),
        None => run_other(alloc, words, source, out, err),
    }
}

/// The same, for words of a job that adds something at the end of the capture, of `unfile`, or of a load.
fn run_other<S: Source, O: Sink, E: Sink>(
    alloc: Global,
    words: &Words,
    source: &mut S,
    out: &mut O,
    err: &mut E,
) -> u8
    ensures ending { (job : Ending) → IsEnding job → words.now ≡ ending_words job → RunsEnding job
        (world S.Source source.old (sinks O.Sink out.old E.Sink err.old))
        (world S.Source source.new (sinks O.Sink out.new E.Sink err.new)) result }
    ensures unfile { (job : Unfile) → IsUnfile job → words.now ≡ unfile_words job → RunsUnfile job
        (world S.Source source.old (sinks O.Sink out.old E.Sink err.old))
        (world S.Source source.new (sinks O.Sink out.new E.Sink err.new)) result }
    ensures load { (load : Load) → IsLoad load → words.now ≡ load_words load → RunsLoad load source.old source.new
        (sinks O.Sink out.old E.Sink err.old)
        (sinks O.Sink out.new E.Sink err.new) result }
    ensures otherwise { IsNotUnderstood words.now → RefusesWords source.old source.new
        (world S.Source source.old (sinks O.Sink out.old E.Sink err.old))
        (world S.Source source.new (sinks O.Sink out.new E.Sink err.new)) result }
{
    match words.ending() {
        Some(job) => status(run_ending(alloc, job, source, out, err)),
        None => match words.unfile() {
            Some(job) => status(unfile(alloc, job.kind, source, out, err)),
            None => match words.load() {
                Some(load) => load_status(run_load(alloc, load, out, err)),
                None => words_status(refuse_words(out, err)),
            },
        },
    }
}

fn run_ending<S: Source, O: Sink, E: Sink>(
    alloc: Global,
    job: Ending,
    source: &mut S,
    out: &mut O,
    err: &mut E,
) -> Result<Tally, Stop>
    ensures leaves { LeavesEnding job (S.left source.old)
        (sinks O.Sink out.old E.Sink err.old)
        (sinks O.Sink out.new E.Sink err.new) result }
    ensures stops { StopsBy (AnswerOf job)
        (world S.Source source.old (sinks O.Sink out.old E.Sink err.old))
        (world S.Source source.new (sinks O.Sink out.new E.Sink err.new)) result }
    ensures faults { CountsFaults
        (world S.Source source.old (sinks O.Sink out.old E.Sink err.old))
        (world S.Source source.new (sinks O.Sink out.new E.Sink err.new)) result }
{
    match job {
        Ending::File {
            signal,
            kind,
            number,
        } => file(alloc, signal, kind, number, source, out, err),
        Ending::Resend { signal, window } => resend(alloc, signal, window, source, out, err),
    }
}

fn run_job<S: Source, O: Sink, E: Sink>(
    alloc: Global,
    job: Command<'_>,
    source: &mut S,
    out: &mut O,
    err: &mut E,
) -> Result<Tally, Stop>
    ensures leaves { Leaves job.entry (S.left source.old)
        (sinks O.Sink out.old E.Sink err.old)
        (sinks O.Sink out.new E.Sink err.new) result }
    ensures stops { Stops job.entry
        (world S.Source source.old (sinks O.Sink out.old E.Sink err.old))
        (world S.Source source.new (sinks O.Sink out.new E.Sink err.new)) result }
    ensures faults { CountsFaults
        (world S.Source source.old (sinks O.Sink out.old E.Sink err.old))
        (world S.Source source.new (sinks O.Sink out.new E.Sink err.new)) result }
{
    match job {
        Command::List => drive(alloc, &mut ListJob::new(alloc), source, out, err),
        Command::Tidy(signal) => drive(alloc, &mut TidyJob::new(alloc, signal), source, out, err),
        Command::Encode(signal) => encode(alloc, signal, source, out, err),
        Command::Schema(signal) => drive(alloc, &mut SchemaJob::new(signal), source, out, err),
        Command::Show(signal) => show(alloc, signal, source, out, err),
        Command::Receive(text, signal) => receive(alloc, text, signal, source, out, err),
        Command::Filter { owner, key, text } => {
            filter(alloc, owner, key.text(), text.text(), source, out, err)
        }
    }
}

fn show<S: Source, O: Sink, E: Sink>(
    alloc: Global,
    signal: Signal,
    source: &mut S,
    out: &mut O,
    err: &mut E,
) -> Result<Tally, Stop>
    ensures leaves { Leaves (command.Show signal) (S.left source.old)
        (sinks O.Sink out.old E.Sink err.old)
        (sinks O.Sink out.new E.Sink err.new) result }
    ensures stops { Stops (command.Show signal)
        (world S.Source source.old (sinks O.Sink out.old E.Sink err.old))
        (world S.Source source.new (sinks O.Sink out.new E.Sink err.new)) result }
    ensures faults { CountsFaults
        (world S.Source source.old (sinks O.Sink out.old E.Sink err.old))
        (world S.Source source.new (sinks O.Sink out.new E.Sink err.new)) result }
{
    let Ok(mut job) = ShowJob::new(alloc, signal) else {
        return Err(Stop::Memory);
    };
    drive(alloc, &mut job, source, out, err)
}

fn receive<S: Source, O: Sink, E: Sink>(
    alloc: Global,
    text: ReceiverText,
    signal: Signal,
    source: &mut S,
    out: &mut O,
    err: &mut E,
) -> Result<Tally, Stop>
    ensures leaves { Leaves (command.Receive text signal) (S.left source.old)
        (sinks O.Sink out.old E.Sink err.old)
        (sinks O.Sink out.new E.Sink err.new) result }
    ensures stops { Stops (command.Receive text signal)
        (world S.Source source.old (sinks O.Sink out.old E.Sink err.old))
        (world S.Source source.new (sinks O.Sink out.new E.Sink err.new)) result }
    ensures faults { CountsFaults
        (world S.Source source.old (sinks O.Sink out.old E.Sink err.old))
        (world S.Source source.new (sinks O.Sink out.new E.Sink err.new)) result }
{
    let Ok(mut job) = ReceiverJob::new(alloc, text, signal) else {
        return Err(Stop::Memory);
    };
    drive(alloc, &mut job, source, out, err)
}

fn encode<S: Source, O: Sink, E: Sink>(
    alloc: Global,
    signal: Signal,
    source: &mut S,
    out: &mut O,
    err: &mut E,
) -> Result<Tally, Stop>
    ensures leaves { Leaves (command.Encode signal) (S.left source.old)
        (sinks O.Sink out.old E.Sink err.old)
        (sinks O.Sink out.new E.Sink err.new) result }
    ensures stops { Stops (command.Encode signal)
        (world S.Source source.old (sinks O.Sink out.old E.Sink err.old))
        (world S.Source source.new (sinks O.Sink out.new E.Sink err.new)) result }
    ensures faults { CountsFaults
        (world S.Source source.old (sinks O.Sink out.old E.Sink err.old))
        (world S.Source source.new (sinks O.Sink out.new E.Sink err.new)) result }
{
    let Ok(mut job) = EncodeJob::new(alloc, signal) else {
        return Err(Stop::Memory);
    };
    drive(alloc, &mut job, source, out, err)
}

fn filter<S: Source, O: Sink, E: Sink>(
    alloc: Global,
    owner: Owner,
    key: &str,
    text: &str,
    source: &mut S,
    out: &mut O,
    err: &mut E,
) -> Result<Tally, Stop>
    ensures leaves { Leaves (command.Filter owner key.now text.now) (S.left source.old)
        (sinks O.Sink out.old E.Sink err.old)
        (sinks O.Sink out.new E.Sink err.new) result }
    ensures stops { Stops (command.Filter owner key.now text.now)
        (world S.Source source.old (sinks O.Sink out.old E.Sink err.old))
        (world S.Source source.new (sinks O.Sink out.new E.Sink err.new)) result }
    ensures faults { CountsFaults
        (world S.Source source.old (sinks O.Sink out.old E.Sink err.old))
        (world S.Source source.new (sinks O.Sink out.new E.Sink err.new)) result }
{
    let Ok(mut job) = FilterJob::new(alloc, owner, key, text) else {
        return Err(Stop::Memory);
    };
    drive(alloc, &mut job, source, out, err)
}

fn refuse_words<O: Sink, E: Sink>(out: &mut O, err: &mut E) -> Result<(), Stop>
    ensures out { Keeps (O.written out.old) (O.written out.new) }
    ensures line { LeavesLine (sinks O.Sink out.old E.Sink err.old) (sinks O.Sink out.new E.Sink err.new) result }
    ensures faults { SinkFaults (sinks O.Sink out.old E.Sink err.old) (sinks O.Sink out.new E.Sink err.new) result }
{
    write_whole(err, NOT_UNDERSTOOD)?;
    flush_both(out, err)
}
