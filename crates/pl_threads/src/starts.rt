//! What became of the start of a thread that promised something.
ghost use Rattle.std.specs.Prelude.{◌≡◌, ◌≤◌, [], All, length, map, vec_capacity};
ghost use Rattle.std.specs.List.{AllZip};
ghost use Rattle.pl_threads.specs.Starts.{CanRun, IsKept, outcome_promise, start_promise};

use std::snapshot::Snapshot;
use std::thread::{Promise, PromisedHandle, Threads};

/// A thread runs, or it was refused: then what it was to run came back.
#[derive(Drop)]
pub(crate) enum Start<E, P: Promise<E>, F> {
    Runs(PromisedHandle<E, P>),
    Refused(F, Snapshot<P>),
}

/// What comes out of a start: it comes from a thread that runs, or it is there.
#[derive(Drop)]
pub(crate) enum Outcome<E, P: Promise<E>> {
    Coming(PromisedHandle<E, P>),
    There(E, Snapshot<P>),
}

// Runs what came back.
fn run_here<E, F: FnOnce() -> E>(f: F) -> E
    requires may_run { F.pre f }
    ensures has_run { F.post f result }
{
    f()
}

/// Runs what was refused, one after another in order. `outcomes` is empty, and has room for all.
pub(crate) fn run_refused<E: Drop, P: Promise<E> + Drop, F: FnOnce() -> E + Drop>(
    starts: Vec<Start<E, P, F>>,
    mut outcomes: Vec<Outcome<E, P>>,
) -> Vec<Outcome<E, P>>
    requires can { All (CanRun F.pre F.post P.kept_by) starts.items }
    requires empty { outcomes.items ≡ [] }
    requires room { length starts.items ≤ vec_capacity outcomes }
    ensures promises { map outcome_promise result.items ≡ map start_promise starts.items }
    ensures kept { All (IsKept P.kept_by) result.items }
{
    for start in starts {
        match start {
            Start::Runs(handle) => outcomes.push_reserved(Outcome::Coming(handle)),
            Start::Refused(f, promise) => {
                let ended = run_here(f);
                outcomes.push_reserved(Outcome::There(ended, promise));
            }
        }
    }
    outcomes
}

/// Joins the threads, one after another, and gives all that came out in order. `all` is empty, and has room for all.
pub(crate) fn join_all<E: Drop, P: Promise<E> + Drop, R: Threads>(
    rt: &R,
    outcomes: Vec<Outcome<E, P>>,
    mut all: Vec<E>,
) -> Vec<E>
    requires kept { All (IsKept P.kept_by) outcomes.items }
    requires empty { all.items ≡ [] }
    requires room { length outcomes.items ≤ vec_capacity all }
    ensures kept { AllZip P.kept_by (map outcome_promise outcomes.items) result.items }
{
    for outcome in outcomes {
        match outcome {
            Outcome::Coming(handle) => all.push_reserved(handle.join(rt)),
            Outcome::There(ended, promise) => {
                drop(promise);
                all.push_reserved(ended);
            }
        }
    }
    all
}
