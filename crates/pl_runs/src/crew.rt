//! A runner with all that its run wants, as a thread takes it, and what it comes to.
ghost use Rattle.std.specs.Thread.{IsSync};
ghost use Rattle.std.specs.Prelude.{◌≡◌, IfOk, MatchOption};
ghost use Rattle.pl_epochs.specs.Words.{table_of};
ghost use Rattle.pl_runner.specs.Closing.{epochs_of};
ghost use Rattle.pl_runs.specs.Went.{HasComeBack, HasGone, MayStart};

use pl_epochs::EpochTable;
use pl_plant::Plant;
use pl_ports::{Actor, Gate};
use pl_runner::{Runner, session, worker};
use pl_tech::Technology;
use pl_threads::Work;
use pl_turn::{Pass, TurnLock, Turned};
use pl_units::NoMemory;
use std::alloc::Global;
use std::sync::Wait;
use std::thread::Threads;

/// What all runners of a run share. Bit i - 1 of `sessions` stands for session i, which has a command.
#[derive(Drop)]
pub(crate) struct Desk<'a, T: Technology, G>
where
    Plant<T>: Turned,
{
    pub(crate) alloc: Global,
    pub(crate) lock: &'a TurnLock<Plant<T>>,
    pub(crate) epochs: &'a EpochTable,
    pub(crate) sessions: u32,
    pub(crate) workers: u8,
    pub(crate) gate: &'a G,
}

/// A runner, and what it runs with. Bit i - 1 of `sessions` stands for session i.
#[derive(Drop)]
pub(crate) struct Crew<'a, T: Technology, G>
where
    Plant<T>: Turned,
{
    pub(crate) actor: Actor,
    pub(crate) runner: Option<Runner<T>>,
    pub(crate) alloc: Global,
    pub(crate) lock: &'a TurnLock<Plant<T>>,
    pub(crate) epochs: &'a EpochTable,
    pub(crate) sessions: u32,
    pub(crate) gate: &'a G,
}

/// What a runner leaves that has ended: its actor, its pass, and how many jobs it has run.
#[derive(Drop)]
pub(crate) struct Account<T: Technology>
where
    Plant<T>: Turned,
{
    pub(crate) actor: Actor,
    pub(crate) pass: Pass<Plant<T>>,
    pub(crate) runs: u64,
}

impl<'a, T: Technology, G: Gate> Work for Crew<'a, T, G> {
    type Done = Result<Account<T>, NoMemory>;

    ghost may = { λ c. (epochs_of c.lock.now ≡ table_of c.epochs.now) × MatchOption c.runner ⊥ (λ r. (r.actor ≡ c.actor) × MayStart T.meaning T.job_value T.runs c.lock.now (table_of c.epochs.now) r) };

    ghost done = { λ c d. MatchOption c.runner ⊥ (λ r. IfOk d (λ a. HasComeBack T.meaning c.lock.now r a.actor a.pass a.runs)) };

    fn work<R: Threads + Wait + Sync>(self, rt: &R) -> Result<Account<T>, NoMemory> {
        let Crew {
            actor,
            runner,
            alloc,
            lock,
            epochs,
            sessions,
            gate,
        } = self;
        let Some(runner) = runner else { unreachable!() };
        go(actor, runner, rt, alloc, lock, epochs, sessions, gate)
    }
}

// Runs it to its end.
fn run_one<T: Technology, R: Threads + Wait + Sync, G: Gate>(
    actor: Actor,
    mut runner: Runner<T>,
    rt: &R,
    alloc: Global,
    lock: &TurnLock<Plant<T>>,
    epochs: &EpochTable,
    sessions: u32,
    gate: &G,
) -> (Runner<T>, Result<(), NoMemory>)
    requires shared { IsSync R.row }
    requires home { epochs_of lock.now ≡ table_of epochs.now }
    requires actor { runner.actor ≡ actor }
    requires may { MayStart T.meaning T.job_value T.runs lock.now (table_of epochs.now) runner }
    ensures { HasGone T.meaning T.job_value T.runs lock.now (table_of epochs.now) runner result.1 result.0 }
{
    let went = match actor {
        Actor::Session(_) => session(&mut runner, rt, alloc, lock, epochs, sessions, gate),
        Actor::Worker(_) => worker(&mut runner, rt, alloc, lock, epochs, sessions, gate),
    };
    (runner, went)
}

// Its account, once it has run to its end.
fn go<T: Technology, R: Threads + Wait + Sync, G: Gate>(
    actor: Actor,
    runner: Runner<T>,
    rt: &R,
    alloc: Global,
    lock: &TurnLock<Plant<T>>,
    epochs: &EpochTable,
    sessions: u32,
    gate: &G,
) -> Result<Account<T>, NoMemory>
    requires shared { IsSync R.row }
    requires home { epochs_of lock.now ≡ table_of epochs.now }
    requires actor { runner.actor ≡ actor }
    requires may { MayStart T.meaning T.job_value T.runs lock.now (table_of epochs.now) runner }
    ensures { IfOk result (λ a. HasComeBack T.meaning lock.now runner a.actor a.pass a.runs) }
{
    let (runner, went) = run_one(actor, runner, rt, alloc, lock, epochs, sessions, gate);
    went?;
    let (pass, runs) = runner.into_parts();
    Ok(Account { actor, pass, runs })
}
