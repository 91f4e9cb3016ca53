//! A whole run.
ghost use Rattle.std.specs.Thread.{IsSync};
ghost use Rattle.std.specs.Prelude.{◌≡◌, ◌≤◌, All, IfOk, length, map};
ghost use Rattle.std.specs.Arc.{arc_value};
ghost use Rattle.pl_epochs.specs.Words.{reads_at, table_of};
ghost use Rattle.pl_order.specs.Ended.{commands_for};
ghost use Rattle.pl_runner.specs.Closing.{epochs_of};
ghost use Rattle.pl_session.specs.Complete.{IsComplete, runs_of};
ghost use Rattle.pl_turn.specs.Passes.{number, splits};
ghost use Rattle.pl_runs.specs.Places.{AreFresh, IsFresh, IsIdle};
ghost use Rattle.pl_runs.specs.Script.{IsCallable, commands_at};
ghost use Rattle.pl_runs.specs.Seats.{AreSeated, HasFirst, IsAccount};
ghost use Rattle.pl_runs.specs.Rows.{HaveEnded, script_of};

use crate::collecting::run_all;
use crate::ending::ended;
use crate::seating::{asked, seat_all};
use crate::splitting::split_all;
use crate::{Account, Desk, Opened, Sent, open_blank};
use pl_epochs::ReaderSeat;
use pl_machine::Command;
use pl_plant::Plant;
use pl_ports::Gate;
use pl_session::Ended;
use pl_turn::Pass;
use pl_units::NoMemory;
use std::alloc::Global;
use std::sync::{Arc, Wait};
use std::thread::Threads;

// Seats all runners and runs them, and gives the accounts of all that took part, with the first pass where session 1 has no command
// and the other passes that nobody had.
fn run_at<T: Sent, R: Threads + Wait + Sync, G: Gate + Sync>(
    rt: &R,
    desk: &Desk<T, G>,
    sessions: Vec<Vec<Arc<Command<T::Edit>>>>,
    first: Pass<Plant<T>>,
    rest: Vec<Pass<Plant<T>>>,
    reader: ReaderSeat,
) -> Result<(Option<Pass<Plant<T>>>, Vec<Account<T>>, Vec<Pass<Plant<T>>>), NoMemory>
    requires shared { IsSync R.row }
    requires home { epochs_of desk.now.lock.now ≡ table_of desk.now.epochs.now }
    requires workers { desk.now.workers ≤ 8 }
    requires few { length sessions.items ≤ 16 }
    requires callable { All IsCallable (map (λ s. map arc_value s.items) sessions.items) }
    requires first { IsFresh desk.now.lock.now 1 first }
    requires splits { splits first ≡ 23 }
    requires rest { AreFresh desk.now.lock.now 2 rest.items }
    requires long { length rest.items ≡ 23 }
    requires reader { reads_at reader ≡ table_of desk.now.epochs.now }
    ensures first { IfOk result (λ r. HasFirst desk.now.lock.now r.0 (map (λ a. a.actor) r.1.items)) }
    ensures accounts { IfOk result (λ r. All (λ a. IsAccount desk.now.lock.now a.actor a.pass) r.1.items) }
    ensures ended { IfOk result (λ r. HaveEnded T.meaning desk.now.lock.now (commands_for (script_of sessions.items)) r.1.items) }
    ensures idle { IfOk result (λ r. All (λ p. IsIdle desk.now.lock.now p) r.2.items) }
    ensures seated { IfOk result (λ r. AreSeated (script_of sessions.items) desk.now.workers 25 (map (λ a. a.actor) r.1.items) (map (λ p. number p) r.2.items)) }
{
    let seats = seat_all(desk, sessions, first, rest, reader)?;
    let (crews, first, idle) = seats;
    let accounts = run_all(rt, desk.alloc, crews)?;
    Ok((first, accounts, idle))
}

/// Runs a script: the commands of at most sixteen sessions, item i - 1 being those of session i, with at most eight workers. Each
/// session with a command and each worker has a thread of its own, where it takes turns at one plant that begins blank. A runner
/// whose thread was refused is run by the caller once all were started, sessions before workers. Each session has at most 2^32 - 1
/// commands, and a wait among them is for a session from 1 to 16. Each runner passes the gate on its way.
///
/// The entries are a complete history of these commands, in whatever order the turns were taken, and as many jobs were run as
/// slots were started. The one refusal is for want of memory, when all threads have ended; then nothing is left of the run. It
/// waits, and never returns where a session waits for calls that are never made.
pub fn run_sessions<T: Sent, R: Threads + Wait + Sync, G: Gate + Sync>(
    rt: &R,
    alloc: Global,
    sessions: Vec<Vec<Arc<Command<T::Edit>>>>,
    workers: u8,
    gate: &G,
) -> Result<Ended<T>, NoMemory>
    requires shared { IsSync R.row }
    requires few { length sessions.items ≤ 16 }
    requires workers { workers ≤ 8 }
    requires callable { All IsCallable (map (λ s. map arc_value s.items) sessions.items) }
    ensures complete { IfOk result (λ ended. IsComplete T.meaning (commands_at (map (λ s. map arc_value s.items) sessions.items)) workers ended.journal.items) }
    ensures runs { IfOk result (λ ended. ended.runs ≡ runs_of ended.journal.items) }
{
    let asked = asked(&sessions);
    let start = open_blank::<T>(alloc)?;
    let Opened {
        epochs,
        reader,
        lock,
        first,
    } = start;
    let passes = split_all(alloc, &lock, first)?;
    let (first, rest) = passes;
    let desk = Desk {
        alloc,
        lock: &lock,
        epochs: &epochs,
        sessions: asked,
        workers,
        gate,
    };
    let done = run_at(rt, &desk, sessions, first, rest, reader)?;
    let (first, accounts, idle) = done;
    Ok(ended(lock, first, accounts, idle))
}
