//! The end of a run: all passes joined, the lock closed, and the history that is complete.
ghost use Rattle.std.specs.Prelude.{◌≡◌, ◌++◌, ◌∷◌, [], All, Any, map};
ghost use Rattle.pl_order.specs.Order.{number_in};
ghost use Rattle.pl_session.specs.Complete.{IsComplete, runs_of};
ghost use Rattle.pl_turn.specs.Passes.{IsOf, joined, number, splits};
ghost use Rattle.pl_runs.specs.Places.{IsIdle, IsOther, IsPlaced, place_of, place_of_some};
ghost use Rattle.pl_runs.specs.Seats.{HasAll, HasFirst, IsAccount};
ghost use Rattle.pl_runs.specs.Rows.{WhereAllEnded, places_in};

use crate::Account;
use crate::collecting::total;
use crate::joining::{join_accounts, join_idle};
use pl_order::ended_runners_complete_a_history;
use pl_plant::Plant;
use pl_session::Ended;
use pl_tech::Technology;
use pl_turn::{Pass, TurnLock};

// The first pass, and the accounts of the other ones: session 1 has it, or nobody.
fn part<T: Technology>(
    lock: &TurnLock<Plant<T>>,
    first: Option<Pass<Plant<T>>>,
    mut accounts: Vec<Account<T>>,
) -> (Pass<Plant<T>>, Vec<Account<T>>)
    requires first { HasFirst lock.now first (map (λ a. a.actor) accounts.items) }
    requires accounts { All (λ a. IsAccount lock.now a.actor a.pass) accounts.items }
    ensures lock { IsOf lock.now result.0 }
    ensures number { number result.0 ≡ 1 }
    ensures joined { joined result.0 ≡ [] }
    ensures splits { splits result.0 ≡ 23 }
    ensures others { All (λ a. IsOther lock.now a.pass) result.1.items }
    ensures places { place_of result.0 ∷ map (λ a. place_of a.pass) result.1.items ≡ place_of_some first ++ map (λ a. place_of a.pass) accounts.items }
{
    match first {
        Some(first) => (first, accounts),
        None => {
            let Account { pass, .. } = accounts.remove(0);
            (pass, accounts)
        }
    }
}

// Joins all passes into the first one, and takes the plant out of the lock.
fn close_all<T: Technology>(
    lock: TurnLock<Plant<T>>,
    first: Option<Pass<Plant<T>>>,
    accounts: Vec<Account<T>>,
    idle: Vec<Pass<Plant<T>>>,
) -> Plant<T>
    requires first { HasFirst lock first (map (λ a. a.actor) accounts.items) }
    requires accounts { All (λ a. IsAccount lock a.actor a.pass) accounts.items }
    requires idle { All (λ p. IsIdle lock p) idle.items }
    requires all { HasAll (map (λ a. a.actor) accounts.items) (map (λ p. number p) idle.items) }
    ensures placed { All (IsPlaced number_in result.journal) (places_in first accounts.items idle.items) }
    ensures makers { All (λ e. Any (λ p. p.number ≡ number_in e) (places_in first accounts.items idle.items)) result.journal }
{
    let (first, others) = part(&lock, first, accounts);
    let first = join_accounts(&lock, first, others);
    let first = join_idle(&lock, first, idle);
    lock.close(first)
}

/// Ends a run, with the first pass where session 1 has no command, with the accounts of all that took part, and with the passes
/// that were idle. Whatever the commands were: where each has ended with its own, the history is complete.
pub(crate) fn ended<T: Technology>(
    lock: TurnLock<Plant<T>>,
    first: Option<Pass<Plant<T>>>,
    accounts: Vec<Account<T>>,
    idle: Vec<Pass<Plant<T>>>,
) -> Ended<T>
    requires first { HasFirst lock first (map (λ a. a.actor) accounts.items) }
    requires accounts { All (λ a. IsAccount lock a.actor a.pass) accounts.items }
    requires idle { All (λ p. IsIdle lock p) idle.items }
    requires all { HasAll (map (λ a. a.actor) accounts.items) (map (λ p. number p) idle.items) }
    ensures complete { WhereAllEnded T.meaning lock accounts.items idle.items (λ commands workers. IsComplete T.meaning commands workers result.journal.items) }
    ensures runs { WhereAllEnded T.meaning lock accounts.items idle.items (λ _ _. result.runs ≡ runs_of result.journal.items) }
{
    let runs = total(&accounts);
    let journal = close_all(lock, first, accounts, idle).into_journal();
    ended_runners_complete_a_history::<T>();
    Ended { journal, runs }
}
