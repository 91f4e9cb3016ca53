ghost use Rattle.std.specs.Prelude.{◌≡◌, [], ◌∷◌, ◌++◌, IfOk, IfSome, MatchOption};
ghost use Rattle.pl_epochs.specs.Words.{reads_at, table_of};
ghost use Rattle.pl_machine.specs.Tickets.{number_of, start_of};
ghost use Rattle.pl_plant.specs.Tickets.{TicketStands};
ghost use Rattle.pl_plant.specs.Turned.{GrewBy};
ghost use Rattle.pl_runner.specs.Closing.{epochs_of};
ghost use Rattle.pl_turn.specs.Passes.{AreOfOne, IsOf, joined, number, own, seen, splits};

use crate::{Closed, SlotProbe, closing_down_turn, publish_turn, retire_turn, run_job};
use pl_epochs::{EpochTable, ReaderSeat};
use pl_machine::{Actor, Answer, Command};
use pl_plant::{Begun, Plant, Ticket};
use pl_tech::{Ran, Slot, Technology, Toy, ToyJob};
use pl_turn::{Pass, TurnLock};
use pl_units::NoMemory;
use std::alloc::Global;
use std::snapshot::Snapshot;
use std::sync::{Arc, Wait};
use std::test::Fail;
use std::thread::Threads;

// A table of epochs with a reader, and a lock round a blank plant that writes its words.
pub(crate) fn opened<T: Technology>(
    alloc: Global,
) -> Result<(EpochTable, ReaderSeat, TurnLock<Plant<T>>, Pass<Plant<T>>), NoMemory>
    ensures reader { IfOk result (λ r. reads_at r.1 ≡ table_of r.0) }
    ensures home { IfOk result (λ r. epochs_of r.2 ≡ table_of r.0) }
    ensures lock { IfOk result (λ r. IsOf r.2 r.3) }
    ensures number { IfOk result (λ r. number r.3 ≡ 1) }
    ensures seen { IfOk result (λ r. seen r.3 ≡ []) }
    ensures own { IfOk result (λ r. own r.3 ≡ []) }
    ensures joined { IfOk result (λ r. joined r.3 ≡ []) }
    ensures splits { IfOk result (λ r. splits r.3 ≡ 0) }
{
    let (epochs, writer, reader) = EpochTable::new(alloc)?;
    match TurnLock::new(alloc, Plant::<T>::new(alloc, writer)?) {
        Ok((lock, pass)) => Ok((epochs, reader, lock, pass)),
        Err(_) => Err(NoMemory),
    }
}

// The pass of worker 1, which is the sixteenth that is split off the first one.
pub(crate) fn of_worker<T: Technology>(
    lock: &TurnLock<Plant<T>>,
    first: &mut Pass<Plant<T>>,
) -> Pass<Plant<T>>
    requires lock { IsOf lock.now first.old }
    requires number { number first.old ≡ 1 }
    requires splits { splits first.old ≡ 0 }
    ensures lock { IsOf lock.now result }
    ensures number { number result ≡ 17 }
    ensures seen { seen result ≡ seen first.old }
    ensures own { own result ≡ [] }
    ensures joined { joined result ≡ [] }
    ensures first_lock { AreOfOne first.old first.new }
    ensures first_number { number first.new ≡ 1 }
    ensures first_seen { seen first.new ≡ seen first.old }
    ensures first_own { own first.new ≡ own first.old }
    ensures first_joined { joined first.new ≡ joined first.old }
{
    for k in 0..15u8 {
        let _ = lock.split(first);
    }
    lock.split(first)
}

// Worker 1 starts the least slot that may be started. None where it cannot.
fn start_least<T: Technology>(plant: &mut Plant<T>, alloc: Global) -> Option<(Ticket<T>, T::Job)>
    ensures home { plant.new.home ≡ plant.old.home }
    ensures journal { MatchOption result (plant.new.journal ≡ plant.old.journal) (λ r. plant.new.journal ≡ plant.old.journal ++ start_of (Actor.Worker 1) r.0.slot r.0.epoch ∷ []) }
    ensures ticket { IfSome result (λ r. (r.0.actor ≡ Actor.Worker 1) × (r.0.job.value ≡ r.1)) }
    ensures stands { IfSome result (λ r. TicketStands T.meaning T.job_value plant.new.journal r.0) }
{
    let slot = plant.startable()?;
    plant.reserve().ok()?;
    match plant.start(alloc, Actor::Worker(1), slot).ok()? {
        Begun::Go(ticket, job) => Some((ticket, job)),
        Begun::NotReady => None,
    }
}

// Worker 1 starts the least slot that may be started, in a turn of its own. None where it cannot.
fn begin<T: Technology, R: Wait>(
    rt: &R,
    alloc: Global,
    lock: &TurnLock<Plant<T>>,
    pass: Pass<Plant<T>>,
) -> Option<(Ticket<T>, T::Job, Pass<Plant<T>>)>
    requires lock { IsOf lock.now pass }
    requires number { number pass ≡ 17 }
    ensures lock { IfSome result (λ r. AreOfOne pass r.2) }
    ensures number { IfSome result (λ r. number r.2 ≡ number_of r.0.actor) }
    ensures job { IfSome result (λ r. r.0.job.value ≡ r.1) }
    ensures stands { IfSome result (λ r. TicketStands T.meaning T.job_value (seen r.2) r.0) }
{
    let mut turn = lock.take(rt, pass);
    match start_least(turn.value(), alloc) {
        Some((ticket, job)) => Some((ticket, job, turn.end_with())),
        None => {
            let _ = turn.end();
            None
        }
    }
}

// Session 1 cancels: the answer, where it could.
fn cancel<T: Technology>(
    plant: &mut Plant<T>,
    alloc: Global,
    epochs: &EpochTable,
) -> Option<Answer<T>>
    requires home { plant.old.home ≡ table_of epochs.now }
    ensures home { plant.new.home ≡ plant.old.home }
    ensures journal { MatchOption result (plant.new.journal ≡ plant.old.journal) (λ _. GrewBy 1 plant.old.journal plant.new.journal) }
{
    plant.reserve().ok()?;
    if !plant.may_call(1) || plant.calls(1) == u32::MAX {
        return None;
    }
    let command = Arc::new(alloc, Command::Cancel).ok()?;
    match plant.call(alloc, epochs, 1, command).ok()? {
        Answer::Now(reply) => Some(Answer::Now(reply)),
        _ => None,
    }
}

// Session 1 cancels in a turn of its own.
fn cancel_turn<T: Technology, R: Wait>(
    rt: &R,
    alloc: Global,
    epochs: &EpochTable,
    lock: &TurnLock<Plant<T>>,
    pass: Pass<Plant<T>>,
) -> bool
    requires lock { IsOf lock.now pass }
    requires number { number pass ≡ 1 }
    requires home { epochs_of lock.now ≡ table_of epochs.now }
{
    let mut turn = lock.take(rt, pass);
    match cancel(turn.value(), alloc, epochs) {
        Some(_) => {
            let _ = turn.end_with();
            true
        }
        None => {
            let _ = turn.end();
            false
        }
    }
}

// A runner runs its job and closes it, in a turn of its own.
fn work<T: Technology, R: Threads + Wait + Sync>(
    rt: &R,
    alloc: Global,
    epochs: &EpochTable,
    lock: &TurnLock<Plant<T>>,
    pass: Pass<Plant<T>>,
    reader: ReaderSeat,
    ticket: Ticket<T>,
    job: T::Job,
) -> Result<Closed, NoMemory>
    requires lock { IsOf lock.now pass }
    requires number { number pass ≡ number_of ticket.actor }
    requires home { epochs_of lock.now ≡ table_of epochs.now }
    requires reader { reads_at reader ≡ table_of epochs.now }
    requires job { ticket.job.value ≡ job }
    requires stands { TicketStands T.meaning T.job_value (seen pass) ticket }
{
    let mut bench = T::bench();
    let (slot, epoch) = (ticket.slot, ticket.epoch);
    let (ran, reader) = run_job::<T, R>(rt, alloc, epochs, reader, &mut bench, slot, epoch, job);
    match ran? {
        Ran::Done(output) => {
            let (closed, _) = publish_turn(rt, lock, pass, ticket, Arc::new(alloc, output)?);
            Ok(closed)
        }
        Ran::Stopped => {
            let (closed, _, _) = retire_turn(rt, lock, epochs, pass, reader, ticket);
            Ok(closed)
        }
    }
}

// How often a job of Toy polls its probe, and whether it was stopped.
fn polled<R: Threads + Sync>(
    rt: &R,
    alloc: Global,
    epochs: &EpochTable,
    reader: ReaderSeat,
    slot: Slot,
) -> Result<(u32, bool), NoMemory>
    requires { reads_at reader ≡ table_of epochs.now }
{
    let before = Snapshot::of(&reader);
    let mut probe = SlotProbe {
        epochs,
        reader,
        before,
        slot,
        epoch: 0,
        polls: 0,
        raised: false,
    };
    let ran = Toy::run(rt, alloc, &mut Toy::bench(), ToyJob::First(5), &mut probe)?;
    Ok((probe.polls, matches!(ran, Ran::Stopped)))
}

#[test]
fn a_probe_stops_a_job_once_its_slot_has_fallen(rt: HostRuntime) -> Result<(), Fail> {
    let alloc = rt.alloc();
    let (epochs, mut writer, mut reader) = EpochTable::new(alloc)?;
    let slot = Slot::of(98);
    let other = epochs.reader(&mut reader);
    assert_eq!(rt; polled(&rt, alloc, &epochs, other, slot)?, (1, false));
    epochs.bump(&mut writer, slot);
    assert_eq!(rt; polled(&rt, alloc, &epochs, reader, slot)?, (1, true));
    Ok(())
}

#[test]
fn a_worker_publishes_what_its_job_has_made(rt: HostRuntime) -> Result<(), Fail> {
    let alloc = rt.alloc();
    let (epochs, reader, lock, mut first) = opened::<Toy>(alloc)?;
    let worker = of_worker(&lock, &mut first);
    let Some((ticket, job, worker)) = begin(&rt, alloc, &lock, worker) else {
        return Err("nothing was started".into());
    };
    assert_eq!(rt;
        work(&rt, alloc, &epochs, &lock, worker, reader, ticket, job)?,
        Closed::Done
    );
    Ok(())
}

#[test]
fn a_worker_whose_slot_was_cancelled_is_late(rt: HostRuntime) -> Result<(), Fail> {
    let alloc = rt.alloc();
    let (epochs, reader, lock, mut first) = opened::<Toy>(alloc)?;
    let worker = of_worker(&lock, &mut first);
    let Some((ticket, job, worker)) = begin(&rt, alloc, &lock, worker) else {
        return Err("nothing was started".into());
    };
    assert!(rt; cancel_turn(&rt, alloc, &epochs, &lock, first));
    let late = Closed::Late { since: 0, now: 1 };
    assert_eq!(rt;
        work(&rt, alloc, &epochs, &lock, worker, reader, ticket, job)?,
        late
    );
    Ok(())
}

#[test]
fn nothing_is_published_once_the_plant_is_closed_down(rt: HostRuntime) -> Result<(), Fail> {
    let alloc = rt.alloc();
    let (epochs, reader, lock, mut first) = opened::<Toy>(alloc)?;
    let worker = of_worker(&lock, &mut first);
    let Some((ticket, job, worker)) = begin(&rt, alloc, &lock, worker) else {
        return Err("nothing was started".into());
    };
    let _ = closing_down_turn(&rt, &lock, first);
    let closed = work(&rt, alloc, &epochs, &lock, worker, reader, ticket, job)?;
    assert_eq!(rt; closed, Closed::NoMemory);
    Ok(())
}
