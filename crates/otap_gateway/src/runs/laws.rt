//! Laws of runs: each is the contract of an empty function.
ghost use Rattle.std.specs.Prelude.{◌≡◌, ◌⊎◌, List, ℕ, None, Some};
ghost use Rattle.otap_capture.specs.Capture.{Frame, IsCapture, longest_frame};
ghost use Rattle.otap_capture.specs.Outside.{Rose};
ghost use Rattle.otlp_codec.specs.Limits.{longest_request};
ghost use Rattle.otap_gateway.specs.declared.jobs.command.Command.{Command};
ghost use Rattle.otap_gateway.specs.declared.jobs.ending.Ending.{Ending};
ghost use Rattle.otap_gateway.specs.declared.runs.load.Load.{Load};
ghost use Rattle.otap_gateway.specs.Commands.{words_of};
ghost use Rattle.otap_gateway.specs.EndingRuns.{CompletesEnding, RunsEnding};
ghost use Rattle.otap_gateway.specs.Endings.{IsEnding, ending_words};
ghost use Rattle.otap_gateway.specs.Loads.{IsLoad, IsNotUnderstood, load_words};
ghost use Rattle.otap_gateway.specs.declared.jobs.unfile.Unfile.{Unfile};
ghost use Rattle.otap_gateway.specs.Runs.{World, Runs, Completes};
ghost use Rattle.otap_gateway.specs.Unfiling.{CompletesUnfile, IsUnfile, RunsUnfile, unfile_words};

/// Where no count of faults rose and the capture ends well, a run for the words of a job writes what it
/// replies to each frame, passes all of it on, and returns 0 exactly where none is refused, and else 1;
/// or memory ran out.
pub fn complete_runs()
    ensures { (job : Command) (old new : World) (status : ℕ) (bytes : List ℕ) (frames : List Frame)
        → Runs job old new status → old.left ≡ Some bytes → IsCapture bytes frames None
        → (Rose old.faults new.faults → ⊥)
        → (Rose old.sinks.out.faults new.sinks.out.faults → ⊥)
        → (Rose old.sinks.err.faults new.sinks.err.faults → ⊥)
        → (status ≡ 6) ⊎ Completes job frames old.sinks new.sinks status }
{}

/// The same for a job that adds something at the end.
pub fn complete_endings()
    ensures { (job : Ending) (old new : World) (status : ℕ) (bytes : List ℕ) (frames : List Frame)
        → RunsEnding job old new status → old.left ≡ Some bytes → IsCapture bytes frames None
        → (Rose old.faults new.faults → ⊥)
        → (Rose old.sinks.out.faults new.sinks.out.faults → ⊥)
        → (Rose old.sinks.err.faults new.sinks.err.faults → ⊥)
        → (status ≡ 6) ⊎ CompletesEnding job frames old.sinks new.sinks status }
{}

/// Where no count of faults rose, a run of `unfile` over known bytes writes what it replies to them, passes all of it on, and
/// returns 1 exactly where they are refused, and else 0; or memory ran out.
pub fn complete_unfiles()
    ensures { (job : Unfile) (old new : World) (status : ℕ) (bytes : List ℕ)
        → RunsUnfile job old new status → old.left ≡ Some bytes
        → (Rose old.faults new.faults → ⊥)
        → (Rose old.sinks.out.faults new.sinks.out.faults → ⊥)
        → (Rose old.sinks.err.faults new.sinks.err.faults → ⊥)
        → (status ≡ 6) ⊎ CompletesUnfile job bytes old.sinks new.sinks status }
{}

/// Each list of words is that of a job over a capture, which may add something at the end, of `unfile`, or of a load, or it isn't
/// understood. These are the cases of `run`.
pub fn each_words()
    ensures { (words : List (List ℕ)) → ((job : Command) × (words ≡ words_of job))
        ⊎ (((job : Ending) × IsEnding job × (words ≡ ending_words job))
        ⊎ (((job : Unfile) × IsUnfile job × (words ≡ unfile_words job))
        ⊎ (((load : Load) × IsLoad load × (words ≡ load_words load)) ⊎ IsNotUnderstood words))) }
{}

/// The longest request that is written is as long as the longest message of a frame.
pub fn requests_fit_in_frames()
    ensures { longest_request ≡ longest_frame }
{}
