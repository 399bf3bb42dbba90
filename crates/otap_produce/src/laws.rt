//! What the definitions say of one another. The functions do nothing: their contracts are the laws.

ghost use Rattle.std.specs.Prelude.{ℕ, All, List};
ghost use Rattle.otlp_model.specs.declared.request.Request.{Request};
ghost use Rattle.otlp_model.specs.declared.request.Signal.{Signal};
ghost use Rattle.otap_cells.specs.Tables.{Table};
ghost use Rattle.otap_groups.specs.ProfileTables.{IsProfileTable};
ghost use Rattle.otap_produce.specs.Exporters.{ExporterIn, StandsFor};
ghost use Rattle.otap_signals.specs.Meanings.{SignalRows};
ghost use Rattle.otap_produce.specs.Policy.{Policy};
ghost use Rattle.otap_produce.specs.TableOrder.{AreInOrder, HaveWritable};

/// The policy decides the schema ids. So the state of an exporter after requests and some messages is also its state after these
/// requests and every list of messages that the policy allows for them.
pub fn stands_for_all_messages()
    ensures { (rows : SignalRows) (requests : List Request) (messages others : List (List ℕ)) (exporter : ExporterIn) → StandsFor rows requests messages exporter
        → Policy rows requests others → StandsFor rows requests others exporter }
{}

/// Tables of the profile that are in the order of the signal's kinds can be written.
pub fn profile_tables_can_be_written()
    ensures { (signal : Signal) (tables : List Table) → AreInOrder signal tables → All IsProfileTable tables → HaveWritable signal tables }
{}
