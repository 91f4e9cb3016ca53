//! Eight workers whose jobs a session cancels, step by step.
ghost use Rattle.std.specs.Prelude.{◌≡◌, ◌≤◌, ◌+◌, ◌-◌, ◌^◌, [], All, IfOk, OnOk, map, vec_len};
ghost use Rattle.std.specs.Arc.{arc_value};
ghost use Rattle.std.specs.Thread.{IsSync};
ghost use Rattle.pl_epochs.specs.Words.{reads_at, table_of};
ghost use Rattle.pl_machine.specs.Calls.{NamesSession};
ghost use Rattle.pl_turn.specs.Passes.{IsOf, joined, number, own, seen, splits};
ghost use Rattle.pl_runner.specs.Causes.{MayGoOn};
ghost use Rattle.pl_runner.specs.Closing.{epochs_of};
ghost use Rattle.pl_runner.specs.Running.{HasHands, IsAt, IsReady, actor_of, seen_by};

use crate::lock::{opened, split_sessions};
use crate::plants::{FACET, load};
use crate::runners::{helper_of, move_once, one_of};
use pl_edit::Edit;
use pl_epochs::{EpochTable, ReaderSeat};
use pl_fff::Fff;
use pl_machine::{Command, Entry, Reply, What};
use pl_plant::Plant;
use pl_runner::Runner;
use pl_tech::Technology;
use pl_turn::{Pass, TurnLock};
use pl_units::NoMemory;
use std::alloc::Global;
use std::sync::{Arc, Wait};
use std::test::Fail;
use std::thread::Threads;

// The runner of the next worker, where so many of the eight have one, at a lock where nothing was done yet.
fn next_helper<T: Technology>(
    alloc: Global,
    before: u8,
    lock: &TurnLock<Plant<T>>,
    epochs: &EpochTable,
    first: &mut Pass<Plant<T>>,
    reader: &mut ReaderSeat,
) -> Runner<T>
    requires before { before ≤ 7 }
    requires lock { IsOf lock.now first.old }
    requires number { number first.old ≡ 1 }
    requires splits { splits first.old ≡ 15 + before }
    requires seen { seen first.old ≡ [] }
    requires reader { reads_at reader.old ≡ table_of epochs.now }
    ensures ready { IsReady T.meaning T.job_value T.runs lock.now (table_of epochs.now) result }
    ensures stays { MayGoOn (actor_of result) (seen_by result) }
    ensures first_lock { IsOf lock.now first.new }
    ensures first_number { number first.new ≡ 1 }
    ensures first_splits { splits first.new ≡ 16 + before }
    ensures first_seen { seen first.new ≡ [] }
    ensures first_own { own first.new ≡ own first.old }
    ensures first_joined { joined first.new ≡ joined first.old }
    ensures reader { reads_at reader.new ≡ table_of epochs.now }
{
    let pass = lock.split(first);
    let other = epochs.reader(reader);
    helper_of::<T>(alloc, before + 1, lock, epochs, pass, other)
}

// The runners of the eight workers at a lock where nothing was done yet.
fn seated<T: Technology>(
    alloc: Global,
    lock: &TurnLock<Plant<T>>,
    epochs: &EpochTable,
    first: &mut Pass<Plant<T>>,
    reader: &mut ReaderSeat,
) -> Result<Vec<Runner<T>>, Fail>
    requires lock { IsOf lock.now first.old }
    requires number { number first.old ≡ 1 }
    requires splits { splits first.old ≡ 0 }
    requires seen { seen first.old ≡ [] }
    requires own { own first.old ≡ [] }
    requires joined { joined first.old ≡ [] }
    requires reader { reads_at reader.old ≡ table_of epochs.now }
    ensures lock { IsOf lock.now first.new }
    ensures number { number first.new ≡ 1 }
    ensures seen { seen first.new ≡ [] }
    ensures own { own first.new ≡ [] }
    ensures joined { joined first.new ≡ [] }
    ensures reader { reads_at reader.new ≡ table_of epochs.now }
    ensures ready { IfOk result (λ helpers. All (λ h. IsReady T.meaning T.job_value T.runs lock.now (table_of epochs.now) h × MayGoOn (actor_of h) (seen_by h)) helpers.items) }
{
    split_sessions(lock, first);
    let mut helpers = Vec::new(alloc);
    for before in 0..8u8 {
        let helper = next_helper(alloc, before, lock, epochs, first, reader);
        helpers.push(helper)?;
    }
    Ok(helpers)
}

// Each of them takes a step that moves.
fn move_all<T: Technology, R: Threads + Wait + Sync>(
    helpers: &mut [Runner<T>],
    rt: &R,
    alloc: Global,
    lock: &TurnLock<Plant<T>>,
    epochs: &EpochTable,
) -> Result<(), Fail>
    requires shared { IsSync R.row }
    requires home { epochs_of lock.now ≡ table_of epochs.now }
    requires ready { All (λ h. IsReady T.meaning T.job_value T.runs lock.now (table_of epochs.now) h × MayGoOn (actor_of h) (seen_by h)) helpers.old }
    ensures ready { OnOk result (All (λ h. IsReady T.meaning T.job_value T.runs lock.now (table_of epochs.now) h × MayGoOn (actor_of h) (seen_by h)) helpers.new) }
{
    for place in 0..helpers.len() {
        move_once(&mut helpers[place], rt, alloc, lock, epochs)?;
    }
    Ok(())
}

// Each of them takes a step that moves, then session 1 does, and then each of them again.
fn move_in_turn<T: Technology, R: Threads + Wait + Sync>(
    helpers: &mut [Runner<T>],
    one: &mut Runner<T>,
    rt: &R,
    alloc: Global,
    lock: &TurnLock<Plant<T>>,
    epochs: &EpochTable,
) -> Result<(), Fail>
    requires shared { IsSync R.row }
    requires home { epochs_of lock.now ≡ table_of epochs.now }
    requires helpers { All (λ h. IsReady T.meaning T.job_value T.runs lock.now (table_of epochs.now) h × MayGoOn (actor_of h) (seen_by h)) helpers.old }
    requires ready { IsReady T.meaning T.job_value T.runs lock.now (table_of epochs.now) one.old }
    requires stays { MayGoOn (actor_of one.old) (seen_by one.old) }
    ensures at { OnOk result (IsAt lock.now (table_of epochs.now) one.new) }
    ensures hands { OnOk result (HasHands one.new) }
{
    move_all(helpers, rt, alloc, lock, epochs)?;
    move_once(one, rt, alloc, lock, epochs)?;
    move_all(helpers, rt, alloc, lock, epochs)
}

// Session 1 takes so many steps that move.
fn move_often<T: Technology, R: Threads + Wait + Sync>(
    one: &mut Runner<T>,
    rt: &R,
    alloc: Global,
    lock: &TurnLock<Plant<T>>,
    epochs: &EpochTable,
    times: u8,
) -> Result<(), Fail>
    requires shared { IsSync R.row }
    requires home { epochs_of lock.now ≡ table_of epochs.now }
    requires ready { IsReady T.meaning T.job_value T.runs lock.now (table_of epochs.now) one.old }
    requires stays { MayGoOn (actor_of one.old) (seen_by one.old) }
    ensures ready { OnOk result (IsReady T.meaning T.job_value T.runs lock.now (table_of epochs.now) one.new) }
    ensures stays { OnOk result (MayGoOn (actor_of one.new) (seen_by one.new)) }
{
    for step in 0..times {
        move_once(one, rt, alloc, lock, epochs)?;
    }
    Ok(())
}

// What came of it: how many workers had exactly one job stopped, how many results were late at epoch 0 where epoch 1 had come, how
// many cancels were told that eight slots were started, and how many entries there are.
#[derive(Debug, PartialEq, Eq, Clone, Copy)]
struct Ending {
    stopped: usize,
    late: usize,
    cancelled: usize,
    entries: usize,
}

// How many of these entries are late at epoch 0 where epoch 1 had come.
fn late_in<T: Technology>(journal: &[Entry<T>]) -> usize {
    journal
        .iter()
        .filter(|entry| matches!(entry.what, What::Late(_, 0, 1)))
        .count()
}

// How many of them are cancels that were told that eight slots were started.
fn cancelled_in<T: Technology>(journal: &[Entry<T>]) -> usize {
    journal
        .iter()
        .filter(|entry| matches!(entry.what, What::Call(_, Reply::Cancelled(8))))
        .count()
}

// How many entries the plant under the lock has, how many of them are late, and how many cancels of eight.
fn counted<T: Technology, R: Wait>(
    rt: &R,
    lock: &TurnLock<Plant<T>>,
    pass: Pass<Plant<T>>,
) -> (usize, usize, usize)
    requires { IsOf lock.now pass }
{
    let mut turn = lock.take(rt, pass);
    let journal = turn.value().journal();
    let found = (journal.len(), late_in(journal), cancelled_in(journal));
    let _ = turn.end();
    found
}

// How many of the runners had exactly one job stopped.
fn stopped_once<T: Technology>(helpers: &[Runner<T>]) -> usize {
    helpers
        .iter()
        .filter(|helper| helper.stopped() == 1)
        .count()
}

// What comes of the commands of session 1, before the last of which each worker starts a slot, and after which each closes its own.
fn cancelling<T: Technology, R: Threads + Wait + Sync>(
    rt: &R,
    alloc: Global,
    commands: Vec<Arc<Command<T::Edit>>>,
) -> Result<Ending, Fail>
    requires shared { IsSync R.row }
    requires few { vec_len commands ≤ 2 ^ 32 - 1 }
    requires named { All NamesSession (map arc_value commands.items) }
{
    let (epochs, mut reader, lock, mut first) = opened::<T>(alloc)?;
    let mut helpers = seated(alloc, &lock, &epochs, &mut first, &mut reader)?;
    let mut one = one_of::<T>(&lock, &epochs, commands, first, reader);
    move_often(&mut one, rt, alloc, &lock, &epochs, 17)?;
    move_in_turn(&mut helpers, &mut one, rt, alloc, &lock, &epochs)?;
    let stopped = stopped_once(&helpers);
    let (pass, _) = one.into_parts();
    let (entries, late, cancelled) = counted(rt, &lock, pass);
    Ok(Ending {
        stopped,
        late,
        cancelled,
        entries,
    })
}

// A load of the facet.
fn loads(alloc: Global) -> Result<Arc<Command<Edit>>, NoMemory>
    ensures { IfOk result (λ made. NamesSession (arc_value made)) }
{
    Ok(Arc::new(alloc, Command::Edit(load(alloc, FACET)?))?)
}

// Session 1 loads sixteen objects, applies and cancels.
fn commands(alloc: Global) -> Result<Vec<Arc<Command<Edit>>>, NoMemory>
    ensures few { IfOk result (λ made. vec_len made ≤ 2 ^ 32 - 1) }
    ensures named { IfOk result (λ made. All NamesSession (map arc_value made.items)) }
{
    let mut made = Vec::new(alloc);
    for place in 0..16u8 {
        made.push(loads(alloc)?)?;
    }
    made.push(Arc::new(alloc, Command::Apply)?)?;
    made.push(Arc::new(alloc, Command::Cancel)?)?;
    Ok(made)
}

#[test]
fn eight_jobs_that_are_cancelled_are_stopped(rt: HostRuntime) -> Result<(), Fail> {
    let alloc = rt.alloc();
    let wanted = Ending {
        stopped: 8,
        late: 8,
        cancelled: 1,
        entries: 34,
    };
    let found = cancelling::<Fff, HostRuntime>(&rt, alloc, commands(alloc)?)?;
    assert_eq!(rt; found, wanted);
    Ok(())
}
