//! The whole run of a runner.
ghost use Rattle.std.specs.Prelude.{◌≡◌, OnOk};
ghost use Rattle.std.specs.Thread.{IsSync};
ghost use Rattle.pl_epochs.specs.Words.{table_of};
ghost use Rattle.pl_machine.specs.History.{replay};
ghost use Rattle.pl_order.specs.Order.{HasSaidBye};
ghost use Rattle.pl_runner.specs.Closing.{epochs_of};
ghost use Rattle.pl_runner.specs.Causes.{IsSession, IsWorker, MayGoOn, SeesAllLeft};
ghost use Rattle.pl_runner.specs.Running.{IsAt, IsIdle, IsReady, actor_of, seen_by};
ghost use Rattle.pl_runner.specs.Stepping.{Keeps};

use crate::{Runner, Step};
use pl_epochs::EpochTable;
use pl_plant::Plant;
use pl_ports::Gate;
use pl_tech::Technology;
use pl_turn::TurnLock;
use pl_units::NoMemory;
use std::alloc::Global;
use std::sync::Wait;
use std::thread::Threads;

impl<T: Technology> Runner<T> {
    // Steps until it has ended, or memory is wanting. Where there is nothing to do it sleeps until a change is told: how many were
    // told is read before the step, so a change after its turn is not missed.
    fn run<R: Threads + Wait + Sync, G: Gate>(
        &mut self,
        rt: &R,
        alloc: Global,
        lock: &TurnLock<Plant<T>>,
        epochs: &EpochTable,
        sessions: u32,
        gate: &G,
    ) -> Result<(), NoMemory>
        requires shared { IsSync R.row }
        requires home { epochs_of lock.now ≡ table_of epochs.now }
        requires ready { IsReady T.meaning T.job_value T.runs lock.now (table_of epochs.now) self.old }
        requires stays { MayGoOn (actor_of self.old) (seen_by self.old) }
        ensures keeps { Keeps self.old self.new }
        ensures at { IsAt lock.now (table_of epochs.now) self.new }
        ensures ready { OnOk result (IsReady T.meaning T.job_value T.runs lock.now (table_of epochs.now) self.new) }
        ensures idle { OnOk result (IsIdle self.new) }
        ensures said { OnOk result (HasSaidBye (actor_of self.new) (seen_by self.new)) }
        ensures left { OnOk result (SeesAllLeft (replay T.meaning (seen_by self.new)) (actor_of self.new) sessions) }
    {
        for _ in rt.forever() {
            let changes = lock.changes();
            match self.step(rt, alloc, lock, epochs, sessions, gate) {
                Step::Moved => (),
                Step::Waits => lock.wait_for_change(rt, changes),
                Step::Ended => return Ok(()),
                Step::NoMemory => return Err(NoMemory),
            }
        }
        unreachable!()
    }
}

/// Steps a session's runner until its session has said bye, or a step answers that memory is wanting, to it or to another. The
/// conditions are those of a step. Ok: all its commands are called, nothing is under way, and it is in order. After a refusal the
/// runner is as its last step left it. It waits for its turns, and for what its commands wait for.
pub fn session<T: Technology, R: Threads + Wait + Sync, G: Gate>(
    runner: &mut Runner<T>,
    rt: &R,
    alloc: Global,
    lock: &TurnLock<Plant<T>>,
    epochs: &EpochTable,
    sessions: u32,
    gate: &G,
) -> Result<(), NoMemory>
    requires session { IsSession (actor_of runner.old) }
    requires shared { IsSync R.row }
    requires home { epochs_of lock.now ≡ table_of epochs.now }
    requires ready { IsReady T.meaning T.job_value T.runs lock.now (table_of epochs.now) runner.old }
    requires stays { MayGoOn (actor_of runner.old) (seen_by runner.old) }
    ensures keeps { Keeps runner.old runner.new }
    ensures at { IsAt lock.now (table_of epochs.now) runner.new }
    ensures ready { OnOk result (IsReady T.meaning T.job_value T.runs lock.now (table_of epochs.now) runner.new) }
    ensures idle { OnOk result (IsIdle runner.new) }
    ensures said { OnOk result (HasSaidBye (actor_of runner.new) (seen_by runner.new)) }
{
    runner.run(rt, alloc, lock, epochs, sessions, gate)
}

/// Steps a worker's runner until it has found, with nothing under way, that each of these sessions has left (bit i - 1 stands for
/// session i), or until a step answers that memory is wanting, to it or to another. The conditions are those of a step. After a
/// refusal the runner is as its last step left it. It waits for its turns, and for work.
pub fn worker<T: Technology, R: Threads + Wait + Sync, G: Gate>(
    runner: &mut Runner<T>,
    rt: &R,
    alloc: Global,
    lock: &TurnLock<Plant<T>>,
    epochs: &EpochTable,
    sessions: u32,
    gate: &G,
) -> Result<(), NoMemory>
    requires worker { IsWorker (actor_of runner.old) }
    requires shared { IsSync R.row }
    requires home { epochs_of lock.now ≡ table_of epochs.now }
    requires ready { IsReady T.meaning T.job_value T.runs lock.now (table_of epochs.now) runner.old }
    requires stays { MayGoOn (actor_of runner.old) (seen_by runner.old) }
    ensures keeps { Keeps runner.old runner.new }
    ensures at { IsAt lock.now (table_of epochs.now) runner.new }
    ensures ready { OnOk result (IsReady T.meaning T.job_value T.runs lock.now (table_of epochs.now) runner.new) }
    ensures idle { OnOk result (IsIdle runner.new) }
    ensures left { OnOk result (SeesAllLeft (replay T.meaning (seen_by runner.new)) (actor_of runner.new) sessions) }
{
    runner.run(rt, alloc, lock, epochs, sessions, gate)
}
