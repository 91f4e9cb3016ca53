//! All passes joined into the first one, and the lock closed with it.
ghost use Rattle.std.specs.Prelude.{◌≡◌, ◌⊎◌, ◌+◌, ◌++◌, ◌≤◌, [], All, Any, MatchOption, map};
ghost use mathlib.Core.List.{IsPrefix};
ghost use Rattle.pl_turn.specs.Passes.{AreOfOne, IsOf, joined, number, own, seen, splits};
ghost use Rattle.pl_order.specs.Order.{number_in};
ghost use Rattle.pl_runs.specs.Places.{IsOther, IsPlaced, place_in, place_of};

use crate::Account;
use pl_plant::Plant;
use pl_tech::Technology;
use pl_turn::{Pass, TurnLock, Turned};

/// Joins all these passes into the first one.
pub(crate) fn join_idle<V: Turned>(
    lock: &TurnLock<V>,
    mut first: Pass<V>,
    rest: Vec<Pass<V>>,
) -> Pass<V>
    requires lock { IsOf lock.now first }
    requires rest { All (λ p. IsOther lock.now p) rest.items }
    ensures lock { AreOfOne first result }
    ensures number { number result ≡ number first }
    ensures own { own result ≡ own first }
    ensures splits { splits result ≡ splits first }
    ensures seen { IsPrefix (seen first) (seen result) }
    ensures joined { map place_in (joined result) ≡ map place_in (joined first) ++ map place_of rest.items }
{
    for pass in rest {
        lock.join(&mut first, pass);
    }
    first
}

/// Joins the passes of all these accounts into the first one.
pub(crate) fn join_accounts<T: Technology>(
    lock: &TurnLock<Plant<T>>,
    mut first: Pass<Plant<T>>,
    accounts: Vec<Account<T>>,
) -> Pass<Plant<T>>
    requires lock { IsOf lock.now first }
    requires accounts { All (λ a. IsOther lock.now a.pass) accounts.items }
    ensures lock { AreOfOne first result }
    ensures number { number result ≡ number first }
    ensures own { own result ≡ own first }
    ensures splits { splits result ≡ splits first }
    ensures seen { IsPrefix (seen first) (seen result) }
    ensures joined { map place_in (joined result) ≡ map place_in (joined first) ++ map (λ a. place_of a.pass) accounts.items }
{
    for account in accounts {
        let Account { pass, .. } = account;
        lock.join(&mut first, pass);
    }
    first
}
