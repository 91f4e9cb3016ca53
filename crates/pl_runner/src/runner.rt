//! A session or a worker on its way.
ghost use Rattle.std.specs.Prelude.{◌≡◌, ◌≤◌, ◌+◌, ◌-◌, ◌^◌, [], map, vec_len, All};
ghost use Rattle.std.specs.Arc.{arc_value};
ghost use Rattle.pl_turn.specs.Passes.{joined, known, number, own, seen, splits};
ghost use Rattle.pl_machine.specs.Calls.{NamesSession};
ghost use Rattle.pl_machine.specs.History.{IsLegal};

use pl_epochs::ReaderSeat;
use pl_machine::{Actor, Command};
use pl_plant::Plant;
use pl_tech::{Slot, Technology};
use pl_turn::{Pass, Turned};
use std::alloc::Global;
use std::sync::Arc;

/// What a runner takes turns and reads epochs with.
#[derive(Drop)]
pub struct Hands<T: Technology>
where
    Plant<T>: Turned,
{
    pub(crate) pass: Pass<Plant<T>>,
    pub(crate) reader: ReaderSeat,
}

/// A job that was started.
#[derive(Drop)]
pub struct Started<T: Technology> {
    pub(crate) slot: Slot,
    pub(crate) epoch: u64,
    pub(crate) job: T::Job,
}

/// One session or worker: its actor, its commands and how many of them were called, what it takes turns with, its bench, and the job
/// that it has started, if it has.
#[derive(Drop)]
pub struct Runner<T: Technology>
where
    Plant<T>: Turned,
{
    pub(crate) actor: Actor,
    pub(crate) hands: Option<Hands<T>>,
    pub(crate) bench: T::Bench,
    pub(crate) commands: Vec<Arc<Command<T::Edit>>>,
    pub(crate) made: usize,
    pub(crate) started: Option<Started<T>>,
    pub(crate) stopped: u64,
}

impl<T: Technology> Runner<T> {
    ghost use Rattle.pl_runner.specs.Running.{HasHands, IsOfItsLock, IsReadyWherever, actor_of, commands_of, known_by, runs_at, seen_by, stopped_of};
    ghost use Rattle.pl_runner.specs.Causes.{MayGoOn};

    /// The runner of a session, from 1 to 16. Its pass has the session's number, no own entries and no joined passes, and has seen
    /// a legal history; the bench has run nothing; there are at most 2^32 - 1 commands, and each wait among them is for a session
    /// from 1 to 16. It has these commands, and is in order wherever its pass is one of the lock and its reader one of the table.
    pub fn session(
        id: u8,
        commands: Vec<Arc<Command<T::Edit>>>,
        pass: Pass<Plant<T>>,
        reader: ReaderSeat,
        bench: T::Bench,
    ) -> Runner<T>
        requires id { (1 ≤ id) × (id ≤ 16) }
        requires number { number pass ≡ id }
        requires own { own pass ≡ [] }
        requires joined { joined pass ≡ [] }
        requires seen { IsLegal T.meaning (seen pass) }
        requires bench { T.runs bench ≡ 0 }
        requires few { vec_len commands ≤ 2 ^ 32 - 1 }
        requires named { All NamesSession (map arc_value commands.items) }
        ensures ready { IsReadyWherever T.meaning T.job_value T.runs pass reader result }
        ensures actor { actor_of result ≡ Actor.Session id }
        ensures commands { commands_of result ≡ map arc_value commands.items }
        ensures seen { seen_by result ≡ seen pass }
        ensures splits { (known_by result).splits ≡ splits pass }
        ensures stays { MayGoOn (actor_of result) (seen_by result) }
    {
        Runner {
            actor: Actor::Session(id),
            hands: Some(Hands { pass, reader }),
            bench,
            commands,
            made: 0,
            started: None,
            stopped: 0,
        }
    }

    /// The runner of a worker, from 1 to 8. Its pass has the number 16 more than the worker's, no own entries and no joined passes,
    /// and has seen a legal history; the bench has run nothing. It has no commands, and is in order wherever its pass is one of the
    /// lock and its reader one of the table.
    pub fn worker(
        alloc: Global,
        id: u8,
        pass: Pass<Plant<T>>,
        reader: ReaderSeat,
        bench: T::Bench,
    ) -> Runner<T>
        requires id { (1 ≤ id) × (id ≤ 8) }
        requires number { number pass ≡ 16 + id }
        requires own { own pass ≡ [] }
        requires joined { joined pass ≡ [] }
        requires seen { IsLegal T.meaning (seen pass) }
        requires bench { T.runs bench ≡ 0 }
        ensures ready { IsReadyWherever T.meaning T.job_value T.runs pass reader result }
        ensures actor { actor_of result ≡ Actor.Worker id }
        ensures commands { commands_of result ≡ [] }
        ensures seen { seen_by result ≡ seen pass }
        ensures stays { MayGoOn (actor_of result) (seen_by result) }
    {
        Runner {
            actor: Actor::Worker(id),
            hands: Some(Hands { pass, reader }),
            bench,
            commands: Vec::new(alloc),
            made: 0,
            started: None,
            stopped: 0,
        }
    }

    /// Its pass, and how many jobs were run at its bench.
    pub fn into_parts(self) -> (Pass<Plant<T>>, u64)
        requires { HasHands self }
        ensures pass { known result.0 ≡ known_by self }
        ensures lock { IsOfItsLock result.0 self }
        ensures runs { result.1 ≡ runs_at T.runs self }
    {
        let Runner { hands, bench, .. } = self;
        let runs = T::runs(&bench);
        let Some(Hands { pass, .. }) = hands else {
            unreachable!()
        };
        (pass, runs)
    }

    /// How many of its jobs were stopped.
    pub fn stopped(&self) -> u64
        ensures { result ≡ stopped_of self.now }
    {
        self.stopped
    }
}
