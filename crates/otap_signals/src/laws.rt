//! What the definitions say of one another. The functions do nothing: their contracts are the laws.
ghost use Rattle.std.specs.Prelude.{◌≡◌, All, List};
ghost use Rattle.otlp_model.specs.declared.request.Request.{Request};
ghost use Rattle.otlp_model.specs.declared.request.Signal.{Signal};
ghost use Rattle.otap_cells.specs.GivenIds.{ReadAs};
ghost use Rattle.otap_cells.specs.Tables.{Table};
ghost use Rattle.otap_checks.specs.Reading.{HasAllIds};
ghost use Rattle.otap_signals.specs.BySignal.{RequestComesBack, request_in};
ghost use Rattle.otap_signals.specs.Signals.{IsWritten};

use crate::logs::LogSignal;
use crate::metrics::MetricSignal;
use crate::signal_tables::SignalTables;
use crate::spans::SpanSignal;

/// Law: what is written comes back. The tables of a request can be written, nothing is wrong with them, and the request that they
/// make tells the same.
pub fn requests_come_back()
    ensures { (request : Request) → IsWritten request → RequestComesBack request }
{
    SpanSignal::tables_come_back();
    LogSignal::tables_come_back();
    MetricSignal::tables_come_back();
}

/// Law: tables that read as others, whose ids are given, make their request.
pub fn requests_read_alike()
    ensures { (signal : Signal) (tables others : List Table) → ReadAs tables others → All HasAllIds others → request_in signal tables ≡ request_in signal others }
{
    SpanSignal::requests_read_alike();
    LogSignal::requests_read_alike();
    MetricSignal::requests_read_alike();
}
