//! A step of a runner, whatever it has to do, and its whole run.
ghost use Rattle.std.specs.Prelude.{◌≡◌};
ghost use Rattle.std.specs.Thread.{IsSync};
ghost use Rattle.pl_epochs.specs.Words.{table_of};
ghost use Rattle.pl_runner.specs.Closing.{epochs_of};
ghost use Rattle.pl_runner.specs.Causes.{MayGoOn};
ghost use Rattle.pl_runner.specs.Running.{IsAt, IsIdle, IsReady, actor_of, own_of, seen_by};
ghost use Rattle.pl_runner.specs.Stepping.{CountsStopped, HasCome, HasMoved, HasWaited, Keeps, MatchStep, MayGoOnUnlessEnded, UnlessMemory};

use crate::Runner;
use pl_epochs::EpochTable;
use pl_plant::Plant;
use pl_ports::Gate;
use pl_tech::Technology;
use pl_turn::TurnLock;
use std::alloc::Global;
use std::sync::Wait;
use std::thread::Threads;

/// What a step of a runner came to.
#[derive(Clone, Copy, Debug, PartialEq, Eq)]
pub enum Step {
    /// It has one entry more: the done or late one of its job, its next call, or a start.
    Moved,
    /// There was nothing to do.
    Waits,
    /// A session has said bye, or a worker found that all sessions have left.
    Ended,
    /// Memory was wanting, to it or to another runner.
    NoMemory,
}

impl<T: Technology> Runner<T> {
    /// One step at the lock of a plant whose epochs are the words of this table; bit i - 1 of `sessions` stands for session i. The
    /// runner is in order, and a session has not said bye. With a job under way the runner passes the gate at `Started`, runs the
    /// job, which stops where its slot falls, passes `Finished`, and closes it in one turn: `Moved`. Else it takes one turn. A
    /// session makes its next call and passes `Answered` with the number of its calls: `Moved`; or, where an export lacks results,
    /// starts the least slot that may be started: `Moved`; or waits. A session without a command left says bye: `Ended`. A worker
    /// ends where all these sessions have left, starts the least slot, or waits. `NoMemory` is the answer where memory is wanting or
    /// where the plant is closed down; it adds no entry, and leaves the plant closed down. It takes turns, for which it waits.
    pub fn step<R: Threads + Wait + Sync, G: Gate>(
        &mut self,
        rt: &R,
        alloc: Global,
        lock: &TurnLock<Plant<T>>,
        epochs: &EpochTable,
        sessions: u32,
        gate: &G,
    ) -> Step
        requires shared { IsSync R.row }
        requires home { epochs_of lock.now ≡ table_of epochs.now }
        requires ready { IsReady T.meaning T.job_value T.runs lock.now (table_of epochs.now) self.old }
        requires stays { MayGoOn (actor_of self.old) (seen_by self.old) }
        ensures keeps { Keeps self.old self.new }
        ensures at { IsAt lock.now (table_of epochs.now) self.new }
        ensures ready { UnlessMemory result (IsReady T.meaning T.job_value T.runs lock.now (table_of epochs.now) self.new) }
        ensures stays { MayGoOnUnlessEnded result self.new }
        ensures idle { MatchStep result (Unit {0}) (IsIdle self.new) (IsIdle self.new) (Unit {0}) }
        ensures moved { MatchStep result (HasMoved self.old self.new) (Unit {0}) (Unit {0}) (Unit {0}) }
        ensures waits { MatchStep result (Unit {0}) (HasWaited T.meaning sessions self.old self.new) (Unit {0}) (Unit {0}) }
        ensures ended { MatchStep result (Unit {0}) (Unit {0}) (HasCome T.meaning sessions self.old self.new) (Unit {0}) }
        ensures memory { MatchStep result (Unit {0}) (Unit {0}) (Unit {0}) (own_of self.new ≡ own_of self.old) }
        ensures stopped { CountsStopped result self.old self.new }
    {
        if self.started.is_some() {
            self.finish(rt, alloc, lock, epochs, gate)
        } else {
            self.look(rt, alloc, lock, epochs, sessions, gate)
        }
    }
}
