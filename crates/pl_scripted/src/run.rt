//! The runners of a script.
ghost use Rattle.std.specs.Prelude.{◌≡◌, IfOk, List};
ghost use Rattle.pl_machine.specs.declared.entry.Entry.{Entry};
ghost use Rattle.pl_session.specs.Complete.{IsComplete, runs_of};
ghost use Rattle.pl_scripted.specs.Commands.{session_commands, IsOfOne};

use crate::commands::sessions_of;
use pl_edit::Edit;
use pl_ports::Gate;
use pl_runs::{Sent, run_sessions};
use pl_script::Script;
use pl_session::{Ended, one_complete_history};
use pl_tech::Technology;
use pl_units::NoMemory;
use std::alloc::Global;
use std::sync::Wait;
use std::thread::Threads;

/// Runs a script: a runner for each session with a command and for each worker, on a thread of its own where one is to be had. The
/// entries are a complete history of the script, in whatever order the turns were taken, and `runs` is the number of its starts. A
/// script of session 1 alone, without workers, has no other history. Each runner passes the gate on its way. The one refusal is for
/// want of memory; then nothing is left of the run. It waits for its threads; a script that is read is not stuck.
pub fn run_script<T: Sent + Technology<Edit = Edit>, R: Threads + Wait + Sync, G: Gate + Sync>(
    rt: &R,
    alloc: Global,
    script: &Script,
    gate: &G,
) -> Result<Ended<T>, NoMemory>
    ensures complete { IfOk result (λ ended. IsComplete T.meaning (session_commands script.now.lines) script.now.workers ended.journal.items) }
    ensures alone { IfOk result (λ ended. IsOfOne script.now → (other : List (Entry T T.Plate Edit T.Reply T.Output T.Job T.Bench)) → IsComplete T.meaning (session_commands script.now.lines) script.now.workers other → other ≡ ended.journal.items) }
    ensures runs { IfOk result (λ ended. ended.runs ≡ runs_of ended.journal.items) }
{
    one_complete_history::<T>();
    let sessions = sessions_of(alloc, script.lines())?;
    run_sessions(rt, alloc, sessions, script.workers(), gate)
}
