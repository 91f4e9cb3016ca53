//! The turn of a runner without work, whatever it is.
ghost use Rattle.std.specs.Prelude.{◌≡◌, ◌≤◌, ◌<◌, ◌-◌, ◌^◌, None, All, length, map, slice_get};
ghost use Rattle.std.specs.Arc.{arc_value};
ghost use mathlib.Core.List.{IsPrefix};
ghost use Rattle.pl_epochs.specs.Words.{table_of};
ghost use Rattle.pl_machine.specs.History.{replay};
ghost use Rattle.pl_machine.specs.Calls.{NamesSession};
ghost use Rattle.pl_machine.specs.Tickets.{number_of};
ghost use Rattle.pl_turn.specs.Passes.{AreOfOne, Fits, IsOf, joined, number, own, seen, splits};
ghost use Rattle.pl_order.specs.Order.{IsInOrder, calls_in};
ghost use Rattle.pl_runner.specs.Closing.{epochs_of};
ghost use Rattle.pl_runner.specs.Looked.{CountsCall, GoesOnUnlessEnded, GrewWithoutWork, IfBegun, IfEnded, IfWaits, MatchLooked, work_in};
ghost use Rattle.pl_runner.specs.Causes.{HasNext, HasNoneAsWorker, MayGoOn, RunnerWaits};

use crate::{Looked, bye_turn, session_turn, worker_turn};
use pl_epochs::EpochTable;
use pl_machine::{Actor, Command};
use pl_plant::Plant;
use pl_tech::Technology;
use pl_turn::{Pass, TurnLock};
use std::alloc::Global;
use std::sync::{Arc, Wait};

// The turn of a runner without work, which has made so many of its commands. A worker has none.
pub(crate) fn idle_turn<T: Technology, R: Wait>(
    rt: &R,
    alloc: Global,
    lock: &TurnLock<Plant<T>>,
    epochs: &EpochTable,
    pass: Pass<Plant<T>>,
    actor: Actor,
    commands: &[Arc<Command<T::Edit>>],
    made: usize,
    sessions: u32,
) -> (Looked<T>, Pass<Plant<T>>)
    requires lock { IsOf lock.now pass }
    requires number { number pass ≡ number_of actor }
    requires home { epochs_of lock.now ≡ table_of epochs.now }
    requires order { IsInOrder T.meaning (map arc_value commands.now) actor (seen pass) None }
    requires made { length (calls_in (own pass)) ≡ made }
    requires within { made ≤ length commands.now }
    requires few { length commands.now ≤ 2 ^ 32 - 1 }
    requires names { All NamesSession (map arc_value commands.now) }
    requires plain { HasNoneAsWorker actor (map arc_value commands.now) }
    requires stays { MayGoOn actor (seen pass) }
    ensures lock { AreOfOne pass result.1 }
    ensures number { number result.1 ≡ number pass }
    ensures joined { joined result.1 ≡ joined pass }
    ensures splits { splits result.1 ≡ splits pass }
    ensures seen { IsPrefix (seen pass) (seen result.1) }
    ensures own { GrewWithoutWork (own pass) (own result.1) (replay T.meaning (seen result.1)) actor (slice_get (map arc_value commands.now) made) sessions result.0 }
    ensures made { CountsCall made (length (calls_in (own result.1))) result.0 }
    ensures called { MatchLooked result.0 (made < length commands.now) (λ _ _. HasNext actor made (map arc_value commands.now)) (Unit {0}) (Unit {0}) (Unit {0}) }
    ensures order { IsInOrder T.meaning (map arc_value commands.now) actor (seen result.1) (work_in T.job_value result.0) }
    ensures stays { GoesOnUnlessEnded actor (seen result.1) result.0 }
    ensures last { IfEnded result.0 (slice_get (map arc_value commands.now) made ≡ None) }
    ensures short { IfBegun result.0 (λ _ _. length (seen result.1) < 2 ^ 64) }
    ensures waits { IfWaits result.0 (RunnerWaits T.meaning (replay T.meaning (seen result.1)) actor (slice_get (map arc_value commands.now) made) sessions) }
{
    match actor {
        Actor::Worker(worker) => worker_turn(rt, alloc, lock, pass, worker, sessions),
        Actor::Session(session) => {
            if made < commands.len() {
                session_turn(rt, alloc, lock, epochs, pass, session, commands, made)
            } else {
                bye_turn(rt, lock, pass, session, commands)
            }
        }
    }
}
