//! Runners at a lock, and their steps.
ghost use Rattle.std.specs.Prelude.{◌≡◌, ◌≤◌, ◌+◌, ◌-◌, ◌^◌, [], All, OnOk, map, vec_len};
ghost use Rattle.std.specs.Arc.{arc_value};
ghost use Rattle.std.specs.Thread.{IsSync};
ghost use Rattle.pl_epochs.specs.Words.{reads_at, table_of};
ghost use Rattle.pl_machine.specs.Calls.{NamesSession};
ghost use Rattle.pl_turn.specs.Passes.{IsOf, joined, number, own, seen};
ghost use Rattle.pl_runner.specs.Causes.{MayGoOn};
ghost use Rattle.pl_runner.specs.Closing.{epochs_of};
ghost use Rattle.pl_runner.specs.Running.{HasHands, IsAt, IsReady, actor_of, seen_by};

use pl_epochs::{EpochTable, ReaderSeat};
use pl_machine::Command;
use pl_plant::Plant;
use pl_ports::OpenGate;
use pl_runner::{Runner, Step};
use pl_tech::Technology;
use pl_turn::{Pass, TurnLock};
use std::alloc::Global;
use std::sync::{Arc, Wait};
use std::test::Fail;
use std::thread::Threads;

// Session 1's runner at a lock where nothing was done yet.
pub(crate) fn one_of<T: Technology>(
    lock: &TurnLock<Plant<T>>,
    epochs: &EpochTable,
    commands: Vec<Arc<Command<T::Edit>>>,
    pass: Pass<Plant<T>>,
    reader: ReaderSeat,
) -> Runner<T>
    requires lock { IsOf lock.now pass }
    requires number { number pass ≡ 1 }
    requires seen { seen pass ≡ [] }
    requires own { own pass ≡ [] }
    requires joined { joined pass ≡ [] }
    requires reader { reads_at reader ≡ table_of epochs.now }
    requires few { vec_len commands ≤ 2 ^ 32 - 1 }
    requires named { All NamesSession (map arc_value commands.items) }
    ensures ready { IsReady T.meaning T.job_value T.runs lock.now (table_of epochs.now) result }
    ensures stays { MayGoOn (actor_of result) (seen_by result) }
{
    let _ = lock;
    let _ = epochs;
    Runner::<T>::session(1, commands, pass, reader, T::bench())
}

// The runner of a worker, from 1 to 8, at a lock where nothing was done yet.
pub(crate) fn helper_of<T: Technology>(
    alloc: Global,
    id: u8,
    lock: &TurnLock<Plant<T>>,
    epochs: &EpochTable,
    pass: Pass<Plant<T>>,
    reader: ReaderSeat,
) -> Runner<T>
    requires id { (1 ≤ id) × (id ≤ 8) }
    requires lock { IsOf lock.now pass }
    requires number { number pass ≡ 16 + id }
    requires seen { seen pass ≡ [] }
    requires own { own pass ≡ [] }
    requires joined { joined pass ≡ [] }
    requires reader { reads_at reader ≡ table_of epochs.now }
    ensures ready { IsReady T.meaning T.job_value T.runs lock.now (table_of epochs.now) result }
    ensures stays { MayGoOn (actor_of result) (seen_by result) }
{
    let _ = lock;
    let _ = epochs;
    Runner::<T>::worker(alloc, id, pass, reader, T::bench())
}

// The runner takes a step that moves.
pub(crate) fn move_once<T: Technology, R: Threads + Wait + Sync>(
    runner: &mut Runner<T>,
    rt: &R,
    alloc: Global,
    lock: &TurnLock<Plant<T>>,
    epochs: &EpochTable,
) -> Result<(), Fail>
    requires shared { IsSync R.row }
    requires home { epochs_of lock.now ≡ table_of epochs.now }
    requires ready { IsReady T.meaning T.job_value T.runs lock.now (table_of epochs.now) runner.old }
    requires stays { MayGoOn (actor_of runner.old) (seen_by runner.old) }
    ensures ready { OnOk result (IsReady T.meaning T.job_value T.runs lock.now (table_of epochs.now) runner.new) }
    ensures stays { OnOk result (MayGoOn (actor_of runner.new) (seen_by runner.new)) }
    ensures at { IsAt lock.now (table_of epochs.now) runner.new }
    ensures hands { HasHands runner.new }
{
    let Step::Moved = runner.step(rt, alloc, lock, epochs, 1, &OpenGate) else {
        return Err("a step did not move".into());
    };
    Ok(())
}
