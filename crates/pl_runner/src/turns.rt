//! The turns of a runner without work, at the lock of the plant. What a turn tells holds for every schedule.
ghost use Rattle.std.specs.Prelude.{◌≡◌, ◌<◌, ◌≤◌, ◌-◌, ◌^◌, None, [], All, IfSome, length, map, slice_get};
ghost use Rattle.std.specs.Arc.{arc_value};
ghost use mathlib.Core.List.{IsPrefix};
ghost use Rattle.pl_epochs.specs.Words.{table_of};
ghost use Rattle.pl_machine.specs.History.{replay};
ghost use Rattle.pl_machine.specs.Startable.{AllLeft};
ghost use Rattle.pl_machine.specs.Calls.{NamesSession};
ghost use Rattle.pl_machine.specs.Tickets.{number_of};
ghost use Rattle.pl_plant.specs.Tickets.{TicketStands};
ghost use Rattle.pl_turn.specs.Passes.{AreOfOne, Fits, IsOf, joined, number, own, seen, splits};
ghost use Rattle.pl_order.specs.Order.{HasSaidBye, IsInOrder, calls_in};
ghost use Rattle.pl_runner.specs.Closing.{epochs_of};
ghost use Rattle.pl_runner.specs.Looked.{CountsCall, GrewAsWorker, GrewByBye, GrewByNext, IfBegun, IfEnded, IfWaits, work_in};
ghost use Rattle.pl_runner.specs.Causes.{SessionWaits, WorkerWaits};

use crate::Looked;
use crate::looking::{ask, look_for_work, say_bye};
use pl_epochs::EpochTable;
use pl_machine::{Actor, Command};
use pl_plant::Plant;
use pl_tech::Technology;
use pl_turn::{Pass, TurnLock};
use std::alloc::Global;
use std::sync::{Arc, Wait};

/// A turn of a worker, from 1 to 8, that has nothing pending, at a lock whose pass has its number, 16 and the worker's. It ends
/// where each of these sessions has left (bit i - 1 stands for session i); else it begins the least slot that may be started, or
/// waits where there is none. `NoMemory` is the answer where the plant is closed down, and for want of memory, which closes it
/// down; no entry is added then. It waits for its turn, and never returns where the lock has no ticket left.
pub(crate) fn worker_turn<T: Technology, R: Wait>(
    rt: &R,
    alloc: Global,
    lock: &TurnLock<Plant<T>>,
    pass: Pass<Plant<T>>,
    worker: u8,
    sessions: u32,
) -> (Looked<T>, Pass<Plant<T>>)
    requires lock { IsOf lock.now pass }
    requires number { number pass ≡ number_of (Actor.Worker worker) }
    requires order { IsInOrder T.meaning [] (Actor.Worker worker) (seen pass) None }
    ensures lock { AreOfOne pass result.1 }
    ensures number { number result.1 ≡ number pass }
    ensures joined { joined result.1 ≡ joined pass }
    ensures splits { splits result.1 ≡ splits pass }
    ensures seen { IsPrefix (seen pass) (seen result.1) }
    ensures fits { Fits result.1 (seen result.1) }
    ensures own { GrewAsWorker (own pass) (own result.1) worker result.0 }
    ensures order { IsInOrder T.meaning [] (Actor.Worker worker) (seen result.1) (work_in T.job_value result.0) }
    ensures ticket { IfBegun result.0 (λ t job. (t.actor ≡ Actor.Worker worker) × (t.job.value ≡ job)) }
    ensures short { IfBegun result.0 (λ _ _. length (seen result.1) < 2 ^ 64) }
    ensures ticket_stands { IfBegun result.0 (λ t _. TicketStands T.meaning T.job_value (seen result.1) t) }
    ensures ended { IfEnded result.0 (AllLeft (replay T.meaning (seen result.1)) sessions) }
    ensures waits { IfWaits result.0 (WorkerWaits T.meaning (replay T.meaning (seen result.1)) sessions) }
{
    let mut turn = lock.take(rt, pass);
    match look_for_work(turn.value(), alloc, worker, sessions) {
        Looked::Called => unreachable!(),
        Looked::Begun(ticket, job) => (Looked::Begun(ticket, job), turn.end_with()),
        Looked::Ended => (Looked::Ended, turn.end()),
        Looked::Waits => (Looked::Waits, turn.end()),
        Looked::NoMemory => {
            let pass = turn.end();
            lock.tell_change();
            (Looked::NoMemory, pass)
        }
    }
}

/// A turn of a session, from 1 to 16, that has nothing pending and has made the first `made` of its commands, fewer than all; these
/// are at most 2^32 - 1, and a session that one waits for is from 1 to 16. It calls the next command. Where that waits for calls,
/// the session waits; where it is an export that lacks results, the session begins the least slot that may be started, or waits
/// where there is none. `NoMemory` is the answer where the plant is closed down, and for want of memory, which closes it down; no
/// entry is added then. It waits for its turn, and never returns where the lock has no ticket left.
pub(crate) fn session_turn<T: Technology, R: Wait>(
    rt: &R,
    alloc: Global,
    lock: &TurnLock<Plant<T>>,
    epochs: &EpochTable,
    pass: Pass<Plant<T>>,
    session: u8,
    commands: &[Arc<Command<T::Edit>>],
    made: usize,
) -> (Looked<T>, Pass<Plant<T>>)
    requires lock { IsOf lock.now pass }
    requires number { number pass ≡ number_of (Actor.Session session) }
    requires home { epochs_of lock.now ≡ table_of epochs.now }
    requires order { IsInOrder T.meaning (map arc_value commands.now) (Actor.Session session) (seen pass) None }
    requires made { length (calls_in (own pass)) ≡ made }
    requires within { made < length commands.now }
    requires few { length commands.now ≤ 2 ^ 32 - 1 }
    requires names { All NamesSession (map arc_value commands.now) }
    ensures lock { AreOfOne pass result.1 }
    ensures number { number result.1 ≡ number pass }
    ensures joined { joined result.1 ≡ joined pass }
    ensures splits { splits result.1 ≡ splits pass }
    ensures seen { IsPrefix (seen pass) (seen result.1) }
    ensures fits { Fits result.1 (seen result.1) }
    ensures own { GrewByNext (own pass) (own result.1) session (slice_get (map arc_value commands.now) made) result.0 }
    ensures made { CountsCall made (length (calls_in (own result.1))) result.0 }
    ensures order { IsInOrder T.meaning (map arc_value commands.now) (Actor.Session session) (seen result.1) (work_in T.job_value result.0) }
    ensures stays { ¬ HasSaidBye (Actor.Session session) (seen result.1) }
    ensures ticket { IfBegun result.0 (λ t job. (t.actor ≡ Actor.Session session) × (t.job.value ≡ job)) }
    ensures short { IfBegun result.0 (λ _ _. length (seen result.1) < 2 ^ 64) }
    ensures ticket_stands { IfBegun result.0 (λ t _. TicketStands T.meaning T.job_value (seen result.1) t) }
    ensures waits { IfWaits result.0 (IfSome (slice_get (map arc_value commands.now) made) (SessionWaits T.meaning (replay T.meaning (seen result.1)))) }
{
    let mut turn = lock.take(rt, pass);
    match ask(turn.value(), alloc, epochs, session, &commands[made]) {
        Looked::Called => (Looked::Called, turn.end_with()),
        Looked::Begun(ticket, job) => (Looked::Begun(ticket, job), turn.end_with()),
        Looked::Ended => unreachable!(),
        Looked::Waits => (Looked::Waits, turn.end()),
        Looked::NoMemory => {
            let pass = turn.end();
            lock.tell_change();
            (Looked::NoMemory, pass)
        }
    }
}

/// A turn of a session, from 1 to 16, that has nothing pending, has made all of its commands and has not said bye: it says bye. The
/// commands serve the clauses alone. `NoMemory` is the answer where the plant is closed down, and for want of memory, which closes
/// it down; no entry is added then. It waits for its turn, and never returns where the lock has no ticket left.
pub(crate) fn bye_turn<T: Technology, R: Wait>(
    rt: &R,
    lock: &TurnLock<Plant<T>>,
    pass: Pass<Plant<T>>,
    session: u8,
    commands: &[Arc<Command<T::Edit>>],
) -> (Looked<T>, Pass<Plant<T>>)
    requires lock { IsOf lock.now pass }
    requires number { number pass ≡ number_of (Actor.Session session) }
    requires order { IsInOrder T.meaning (map arc_value commands.now) (Actor.Session session) (seen pass) None }
    requires made { length (calls_in (own pass)) ≡ length commands.now }
    requires stays { ¬ HasSaidBye (Actor.Session session) (seen pass) }
    ensures lock { AreOfOne pass result.1 }
    ensures number { number result.1 ≡ number pass }
    ensures joined { joined result.1 ≡ joined pass }
    ensures splits { splits result.1 ≡ splits pass }
    ensures seen { IsPrefix (seen pass) (seen result.1) }
    ensures fits { Fits result.1 (seen result.1) }
    ensures own { GrewByBye (own pass) (own result.1) session result.0 }
    ensures order { IsInOrder T.meaning (map arc_value commands.now) (Actor.Session session) (seen result.1) None }
    ensures said { IfEnded result.0 (HasSaidBye (Actor.Session session) (seen result.1)) }
{
    let mut turn = lock.take(rt, pass);
    match say_bye(turn.value(), session) {
        Looked::Called => unreachable!(),
        Looked::Begun(_, _) => unreachable!(),
        Looked::Ended => (Looked::Ended, turn.end_with()),
        Looked::Waits => unreachable!(),
        Looked::NoMemory => {
            let pass = turn.end();
            lock.tell_change();
            (Looked::NoMemory, pass)
        }
    }
}
