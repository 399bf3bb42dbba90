//! `selfrun`: the batch messages of a load that the program makes itself, and a line that counts them.
ghost use Rattle.std.specs.Prelude.{◌≡◌, ◌<◌, ◌≤◌, ◌*◌, ℕ, ◌++◌, codes, IfOk, string_bytes};
ghost use Rattle.std.specs.Fmt.{decimal};
ghost use Rattle.otlp_load.specs.Load.{generated, items_each, requests_at_most};
ghost use Rattle.otlp_model.specs.declared.request.Signal.{Signal};
ghost use Rattle.otap_cells.specs.Weights.{row_weight_limit, weight_of_tables};
ghost use Rattle.otap_signals.specs.BySignal.{rows_by, tables_of_request};
ghost use Rattle.otap_gateway.specs.Lines.{line_feed};
ghost use Rattle.otap_gateway.specs.Loading.{IsLoading, LoadsNext};
ghost use Rattle.otap_gateway.specs.Loads.{IsLoad, LeavesLoad, load_status};
ghost use Rattle.otap_gateway.specs.Runs.{sinks, SinkFaults};

use crate::runs::drive::flush_both;
use crate::runs::load::Load;
use crate::runs::stop::{Stop, stop_status};
use otap_capture::{Sink, write_frame, write_whole};
use otap_produce::{Exporter, ProduceRefusal};
use otlp_load::laws::{requests_are_within_the_limits, requests_have_their_items};
use otlp_load::{ITEMS, generated};
use otlp_model::Signal;
use std::alloc::{AllocError, Global};

/// Law: the tables of a load's requests aren't too heavy.
fn loads_are_light()
    ensures { (signal : Signal) (r : ℕ) → r < requests_at_most → weight_of_tables (tables_of_request (generated signal r)) ≤ row_weight_limit }
{}

/// The message of the next request of a load.
fn next_message(
    alloc: Global,
    exporter: &mut Exporter,
    signal: Signal,
    request: u32,
) -> Result<Vec<u8>, AllocError>
    requires few { request < requests_at_most }
    requires loading { IsLoading (rows_by signal) request exporter.old }
    ensures { IfOk result (λ message. LoadsNext (rows_by signal) request exporter.old exporter.new message.items) }
{
    loads_are_light();
    requests_have_their_items();
    requests_are_within_the_limits();
    let request = generated(alloc, signal, request)?;
    match exporter.encode(&request) {
        Ok(message) => Ok(message),
        Err(ProduceRefusal::Memory(error)) => Err(error),
        Err(ProduceRefusal::Broken) => unreachable!(),
        Err(ProduceRefusal::TooManyItems) => unreachable!(),
        Err(ProduceRefusal::TooHeavy) => unreachable!(),
    }
}

/// How many items this number of requests has.
fn items_of(requests: u32) -> u64
    ensures { result ≡ items_each * requests }
{
    u64::from(ITEMS) * u64::from(requests)
}

/// The line of a load.
fn load_line(alloc: Global, requests: u32, items: u64, openings: u64) -> Result<String, AllocError>
    ensures { IfOk result (λ line. string_bytes line ≡ codes "requests " ++ decimal requests
        ++ codes " items " ++ decimal items ++ codes " openings " ++ decimal openings ++ line_feed) }
{
    Ok(format!(in alloc; "requests {requests} items {items} openings {openings}\n")?)
}

/// Runs `selfrun`: it writes the messages of a load, and then its line.
pub(crate) fn run_load<O: Sink, E: Sink>(
    alloc: Global,
    load: Load,
    out: &mut O,
    err: &mut E,
) -> Result<(), Stop>
    requires { IsLoad load }
    ensures leaves { LeavesLoad load
        (sinks O.Sink out.old E.Sink err.old)
        (sinks O.Sink out.new E.Sink err.new) result }
    ensures faults { SinkFaults
        (sinks O.Sink out.old E.Sink err.old)
        (sinks O.Sink out.new E.Sink err.new) result }
{
    requests_have_their_items();
    let Ok(mut exporter) = Exporter::new(alloc, load.signal) else {
        return Err(Stop::Memory);
    };
    'requests: for request in 0..load.requests {
        let Ok(message) = next_message(alloc, &mut exporter, load.signal, request) else {
            return Err(Stop::Memory);
        };
        write_frame(out, &message)?;
    }
    let items = items_of(load.requests);
    let Ok(line) = load_line(alloc, load.requests, items, exporter.openings()) else {
        return Err(Stop::Memory);
    };
    write_whole(err, line.as_bytes())?;
    flush_both(out, err)
}

/// The status of a run for the words of a load.
pub(crate) fn load_status(end: Result<(), Stop>) -> u8
    ensures { result ≡ load_status end }
{
    match end {
        Ok(()) => 0,
        Err(stop) => stop_status(stop),
    }
}
