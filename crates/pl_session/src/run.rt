ghost use Rattle.std.specs.Prelude.{◌≡◌, ◌≤◌, ◌-◌, ◌^◌, map, vec_len, All, IfOk};
ghost use Rattle.std.specs.Arc.{arc_value};
ghost use Rattle.std.specs.Thread.{IsSync};
ghost use Rattle.pl_session.specs.Alone.{first_alone, WaitsForNobody};
ghost use Rattle.pl_session.specs.Complete.{IsComplete, runs_of};

use crate::session::Session;
use pl_machine::{Command, Entry};
use pl_tech::Technology;
use pl_units::NoMemory;
use std::alloc::Global;
use std::sync::Arc;
use std::thread::Threads;

/// What the commands came to.
#[derive(Drop)]
pub struct Ended<T: Technology> {
    /// All entries.
    pub journal: Vec<Entry<T>>,
    /// How many jobs were run.
    pub runs: u64,
}

/// Makes the commands of session 1, at most 2^32 - 1, one after another on the calling thread. No other session has a command,
/// none of these is a wait, and there is no worker: before an export the session itself runs the jobs of the slots that lack a
/// result, each time the least slot that may be started. The entries are a complete history of these commands, and as many
/// jobs were run as slots were started. The one refusal is for want of memory; then nothing is left of the run.
pub fn run_session<T: Technology, R: Threads + Sync>(
    rt: &R,
    alloc: Global,
    commands: Vec<Arc<Command<T::Edit>>>,
) -> Result<Ended<T>, NoMemory>
    requires shared { IsSync R.row }
    requires few { vec_len commands ≤ 2 ^ 32 - 1 }
    requires own { All (λ command. WaitsForNobody command) (map arc_value commands.items) }
    ensures complete { IfOk result (λ ended. IsComplete T.meaning (first_alone (map arc_value commands.items)) 0 ended.journal.items) }
    ensures runs { IfOk result (λ ended. ended.runs ≡ runs_of ended.journal.items) }
{
    let count = commands.len();
    let mut session = Session::<T>::new(alloc, commands)?;
    for _made in 0..count {
        session.step(rt, alloc)?;
    }
    session.leave()?;
    let (runs, journal) = session.into_parts();
    Ok(Ended { journal, runs })
}
