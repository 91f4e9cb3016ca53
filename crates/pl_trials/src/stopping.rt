//! A worker's job that a session stops, step by step.
ghost use Rattle.std.specs.Prelude.{◌≡◌, ◌≤◌, ◌-◌, ◌^◌, All, IfOk, OnOk, map, vec_len};
ghost use Rattle.std.specs.Arc.{arc_value};
ghost use Rattle.std.specs.Thread.{IsSync};
ghost use Rattle.pl_epochs.specs.Words.{table_of};
ghost use Rattle.pl_machine.specs.Calls.{NamesSession};
ghost use Rattle.pl_turn.specs.Passes.{IsOf};
ghost use Rattle.pl_runner.specs.Causes.{MayGoOn};
ghost use Rattle.pl_runner.specs.Closing.{epochs_of};
ghost use Rattle.pl_runner.specs.Running.{HasHands, IsAt, IsReady, actor_of, seen_by};

use crate::lock::{of_worker, opened};
use crate::plants::{load, set};
use crate::runners::{helper_of, move_once, one_of};
use crate::trial::ends_late;
use pl_edit::Edit;
use pl_epochs::EpochTable;
use pl_fff::Fff;
use pl_machine::Command;
use pl_plant::Plant;
use pl_runner::Runner;
use pl_tech::{Slot, Technology};
use pl_turn::{Pass, TurnLock};
use pl_units::NoMemory;
use std::alloc::Global;
use std::sync::{Arc, Wait};
use std::test::Fail;
use std::thread::Threads;

// The session makes two calls, the worker starts a slot, the session makes two calls more, and the worker closes what it started.
fn step_by_step<T: Technology, R: Threads + Wait + Sync>(
    one: &mut Runner<T>,
    helper: &mut Runner<T>,
    rt: &R,
    alloc: Global,
    lock: &TurnLock<Plant<T>>,
    epochs: &EpochTable,
) -> Result<(), Fail>
    requires shared { IsSync R.row }
    requires home { epochs_of lock.now ≡ table_of epochs.now }
    requires ready { IsReady T.meaning T.job_value T.runs lock.now (table_of epochs.now) one.old }
    requires stays { MayGoOn (actor_of one.old) (seen_by one.old) }
    requires helper { IsReady T.meaning T.job_value T.runs lock.now (table_of epochs.now) helper.old }
    requires goes { MayGoOn (actor_of helper.old) (seen_by helper.old) }
    ensures at { OnOk result (IsAt lock.now (table_of epochs.now) helper.new) }
    ensures hands { OnOk result (HasHands helper.new) }
{
    move_once(one, rt, alloc, lock, epochs)?;
    move_once(one, rt, alloc, lock, epochs)?;
    move_once(helper, rt, alloc, lock, epochs)?;
    move_once(one, rt, alloc, lock, epochs)?;
    move_once(one, rt, alloc, lock, epochs)?;
    move_once(helper, rt, alloc, lock, epochs)
}

// How many entries the plant under the lock has, and whether the last one is worker 1's late one of slot 0.
fn ends<T: Technology, R: Wait>(
    rt: &R,
    lock: &TurnLock<Plant<T>>,
    pass: Pass<Plant<T>>,
) -> (usize, bool)
    requires { IsOf lock.now pass }
{
    let mut turn = lock.take(rt, pass);
    let journal = turn.value().journal();
    let found = (journal.len(), ends_late(journal, Slot::of(0), (0, 1)));
    let _ = turn.end();
    found
}

// How many jobs of the session and of the worker were stopped, how many the worker ran, how many entries there are, and whether the
// last one is the worker's late one of slot 0.
#[derive(Debug, PartialEq, Eq, Clone, Copy)]
struct Ending {
    stopped: (u64, u64),
    runs: u64,
    entries: usize,
    late: bool,
}

// What comes of four calls of session 1, where worker 1 starts a slot after the second and closes it after the last.
fn stopping<T: Technology, R: Threads + Wait + Sync>(
    rt: &R,
    alloc: Global,
    commands: Vec<Arc<Command<T::Edit>>>,
) -> Result<Ending, Fail>
    requires shared { IsSync R.row }
    requires few { vec_len commands ≤ 2 ^ 32 - 1 }
    requires named { All NamesSession (map arc_value commands.items) }
{
    let (epochs, mut reader, lock, mut first) = opened::<T>(alloc)?;
    let pass = of_worker(&lock, &mut first);
    let other = epochs.reader(&mut reader);
    let mut one = one_of::<T>(&lock, &epochs, commands, first, reader);
    let mut helper = helper_of::<T>(alloc, 1, &lock, &epochs, pass, other);
    step_by_step(&mut one, &mut helper, rt, alloc, &lock, &epochs)?;
    let stopped = (one.stopped(), helper.stopped());
    let (pass, runs) = helper.into_parts();
    let (entries, late) = ends(rt, &lock, pass);
    Ok(Ending {
        stopped,
        runs,
        entries,
        late,
    })
}

// A facet of thirty layers of 0.2 mm.
const TALL: &[u8] =
    b"solid a\nfacet normal 0 0 0\nouter loop\nvertex 0 0 0\nvertex 0.8 0 0\nvertex 0 0.8 6\nendloop\nendfacet\nendsolid a\n";

// Session 1 loads thirty layers and applies, and then makes two calls more.
fn commands(
    alloc: Global,
    third: Command<Edit>,
    fourth: Command<Edit>,
) -> Result<Vec<Arc<Command<Edit>>>, NoMemory>
    requires third { NamesSession third }
    requires fourth { NamesSession fourth }
    ensures few { IfOk result (λ made. vec_len made ≤ 2 ^ 32 - 1) }
    ensures named { IfOk result (λ made. All NamesSession (map arc_value made.items)) }
{
    let made = vec![in alloc;
        Arc::new(alloc, Command::Edit(load(alloc, TALL)?))?,
        Arc::new(alloc, Command::Apply)?,
        Arc::new(alloc, third)?,
        Arc::new(alloc, fourth)?,
    ]?;
    Ok(made)
}

// The one job is stopped, and late.
const STOPPED: Ending = Ending {
    stopped: (0, 1),
    runs: 1,
    entries: 6,
    late: true,
};

#[test]
fn thirty_layers_that_are_cancelled_are_stopped(rt: HostRuntime) -> Result<(), Fail> {
    let alloc = rt.alloc();
    let commands = commands(alloc, Command::Cancel, Command::Status)?;
    assert_eq!(rt;
        stopping::<Fff, HostRuntime>(&rt, alloc, commands)?,
        STOPPED
    );
    Ok(())
}

#[test]
fn thirty_layers_whose_height_changes_are_stopped(rt: HostRuntime) -> Result<(), Fail> {
    let alloc = rt.alloc();
    let taller = Command::Edit(set(alloc, b"layer_height", b"0.3")?);
    let commands = commands(alloc, taller, Command::Apply)?;
    assert_eq!(rt;
        stopping::<Fff, HostRuntime>(&rt, alloc, commands)?,
        STOPPED
    );
    Ok(())
}
