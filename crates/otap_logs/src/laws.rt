//! What the definitions mean, as functions that do nothing: each ensures a law of requests.
ghost use Rattle.std.specs.Prelude.{◌≤◌, List, All};
ghost use Rattle.otlp_model.specs.Same.{Same};
ghost use Rattle.otlp_model.specs.Weight.{weight_of};
ghost use Rattle.otlp_model.specs.declared.groups.ResourceGroup.{ResourceGroup};
ghost use Rattle.otlp_model.specs.declared.logs.LogRecord.{LogRecord};
ghost use Rattle.otlp_model.specs.declared.request.Request.TheVariants.{Logs};
ghost use Rattle.otap_groups.specs.ProfileTables.{IsProfileTable};
ghost use Rattle.otap_logs.specs.Laws.{AreInKindOrder, ForProfileLogs, HasRowPerLog, rebuilt_logs};
ghost use Rattle.otap_logs.specs.Requests.{AreCleanLogs};
ghost use Rattle.otap_logs.specs.Tables.{tables_of_logs};

/// Law: the request that the tables of a request make means the same telemetry: the same items in the same order, each with its
/// resource and its scope, and with the same attributes in any order. How items are grouped isn't compared.
///
/// This law and those below whose clause begins with `ForProfile` are on requests that a program can hold, of the profile, and
/// within the weight limit.
pub fn tables_tell_the_same()
    ensures { ForProfileLogs (λ groups. Same (Logs groups) (Logs (rebuilt_logs groups))) }
{}

/// Law: nothing is wrong with the rows of the tables of a request.
pub fn tables_have_no_defects()
    ensures { ForProfileLogs (λ groups. AreCleanLogs (tables_of_logs groups)) }
{}

/// Law: the tables of a request are tables of the profile, and have ids.
pub fn tables_can_be_written()
    ensures { ForProfileLogs (λ groups. All IsProfileTable (tables_of_logs groups)) }
{}

/// Law: the tables of a request are in the order of the signal's kinds: its main table, and of the others those that have
/// rows.
pub fn tables_by_type()
    ensures { (groups : List (ResourceGroup LogRecord)) → AreInKindOrder (tables_of_logs groups) }
{}

/// Law: the main table of a request has as many rows as the request has records.
pub fn each_record_has_a_row()
    ensures { (groups : List (ResourceGroup LogRecord)) → HasRowPerLog (tables_of_logs groups) groups }
{}

/// Law: the request that the tables of a request make weighs no more than the request. The tables themselves may weigh far more,
/// since each row has the texts of its resource and its scope: `table_weight` says how much.
pub fn rebuilt_is_no_heavier()
    ensures { ForProfileLogs (λ groups. weight_of (Logs (rebuilt_logs groups)) ≤ weight_of (Logs groups)) }
{}
