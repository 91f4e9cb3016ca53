//! Threads for all crews, and what they give back.
ghost use Rattle.std.specs.Thread.{IsSync};
ghost use Rattle.std.specs.Prelude.{◌≡◌, ◌≤◌, ◌-◌, ◌^◌, [], All, IfOk, length, map, min, sum, vec_capacity};
ghost use Rattle.std.specs.List.{AllZip};
ghost use Rattle.pl_runs.specs.Rows.{IsAccountOf, MayGo};

use crate::{Account, Crew, Sent};
use pl_ports::Gate;
use pl_tech::Technology;
use pl_threads::work_all;
use pl_units::NoMemory;
use std::alloc::Global;
use std::sync::Wait;
use std::thread::Threads;

// The accounts, in order, where none was refused memory. `accounts` is empty, and has room for all.
fn accounts_of<T: Technology>(
    results: Vec<Result<Account<T>, NoMemory>>,
    mut accounts: Vec<Account<T>>,
) -> Result<Vec<Account<T>>, NoMemory>
    requires empty { accounts.items ≡ [] }
    requires room { length results.items ≤ vec_capacity accounts }
    ensures { IfOk result (λ all. results.items ≡ map (λ a. Ok a) all.items) }
{
    for result in results {
        let account = result?;
        accounts.push_reserved(account);
    }
    Ok(accounts)
}

/// Runs all crews, each on a thread of its own, and gives their accounts in order.
pub(crate) fn run_all<'a, T: Sent, R: Threads + Wait + Sync, G: Gate + Sync>(
    rt: &R,
    alloc: Global,
    crews: Vec<Crew<'a, T, G>>,
) -> Result<Vec<Account<T>>, NoMemory>
    requires shared { IsSync R.row }
    requires may { All (MayGo T.meaning T.job_value T.runs) crews.items }
    ensures { IfOk result (λ all. AllZip (IsAccountOf T.meaning) crews.entry.items all.items) }
{
    let room = Vec::with_capacity(alloc, crews.len())?;
    let results = work_all(rt, alloc, crews)?;
    let accounts = accounts_of(results, room)?;
    Ok(accounts)
}

/// How many jobs were run in all, as long as the number fits.
pub(crate) fn total<T: Technology>(accounts: &[Account<T>]) -> u64
    ensures { result ≡ min (sum (map (λ a. a.runs) accounts.now)) (2 ^ 64 - 1) }
{
    let mut runs = 0u64;
    for account in accounts {
        runs = runs.saturating_add(account.runs);
    }
    runs
}
