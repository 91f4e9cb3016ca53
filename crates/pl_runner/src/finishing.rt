//! A runner with a job under way: it runs the job, and closes what it has started.
ghost use Rattle.std.specs.Prelude.{◌≡◌, ◌+◌, ◌-◌, ◌^◌, ◌<◌, if◌then◌else◌, true, IfOk};
ghost use Rattle.std.specs.Thread.{IsSync};
ghost use mathlib.Core.List.{IsPrefix};
ghost use Rattle.pl_epochs.specs.Words.{has_read, reads_at, table_of};
ghost use Rattle.pl_tech.specs.Ran.{MatchRan};
ghost use Rattle.pl_machine.specs.Tickets.{number_of};
ghost use Rattle.pl_turn.specs.Passes.{AreOfOne, Fits, IsOf, joined, number, own, seen, splits};
ghost use Rattle.pl_plant.specs.Tickets.{TicketStands};
ghost use Rattle.pl_runner.specs.Causes.{MayGoOn};
ghost use Rattle.pl_runner.specs.Running.{IsAt, IsBusy, IsReady, actor_of, own_of, seen_by};
ghost use Rattle.pl_runner.specs.Stepping.{CountsStopped, HasMoved, Keeps, MatchStep, UnlessMemory};
ghost use Rattle.pl_runner.specs.Closing.{ClosesInOrderIfClosed, GrewByClosing, IfLate, IsNotDone, epochs_of, is_stopped};

use crate::runner::Hands;
use crate::{Closed, Runner, Step, closing_down_turn, publish_turn, retire_turn, run_job};
use pl_epochs::{EpochTable, ReaderSeat};
use pl_plant::{Plant, Ticket};
use pl_ports::{Gate, Point};
use pl_tech::{Ran, Technology};
use pl_turn::{Pass, TurnLock};
use pl_units::NoMemory;
use std::alloc::Global;
use std::snapshot::Snapshot;
use std::sync::{Arc, Wait};
use std::thread::Threads;

// Whether a run was stopped.
fn was_stopped<O>(ran: &Result<Ran<O>, NoMemory>) -> bool
    ensures { result ≡ is_stopped ran.now }
{
    match ran {
        Ok(Ran::Stopped) => true,
        Ok(Ran::Done(_)) => false,
        Err(_) => false,
    }
}

// Closes what was started, as its job has ended: publishes its result, retires it where it was stopped, or closes the plant down
// where memory was wanting.
pub(crate) fn close_job<T: Technology, R: Wait>(
    rt: &R,
    alloc: Global,
    lock: &TurnLock<Plant<T>>,
    epochs: &EpochTable,
    pass: Pass<Plant<T>>,
    reader: ReaderSeat,
    ticket: Ticket<T>,
    ran: Result<Ran<T::Output>, NoMemory>,
) -> (Closed, Pass<Plant<T>>, ReaderSeat)
    requires lock { IsOf lock.now pass }
    requires number { number pass ≡ number_of ticket.actor }
    requires stands { TicketStands T.meaning T.job_value (seen pass) ticket }
    requires home { epochs_of lock.now ≡ table_of epochs.now }
    requires reader { reads_at reader ≡ table_of epochs.now }
    requires ran { IfOk ran (λ r. MatchRan r (λ o. o ≡ T.job_value ticket.job.value) (ticket.epoch < has_read reader ticket.slot)) }
    ensures lock { AreOfOne pass result.1 }
    ensures number { number result.1 ≡ number pass }
    ensures joined { joined result.1 ≡ joined pass }
    ensures splits { splits result.1 ≡ splits pass }
    ensures seen { IsPrefix (seen pass) (seen result.1) }
    ensures fits { Fits result.1 (seen result.1) }
    ensures own { GrewByClosing result.0 ticket (own pass) (own result.1) }
    ensures late { IfLate result.0 (λ since now. (since ≡ ticket.epoch) × (since < now)) }
    ensures order { ClosesInOrderIfClosed T.meaning T.job_value ticket (seen pass) (seen result.1) result.0 }
    ensures stopped { is_stopped ran ≡ true → IsNotDone result.0 }
    ensures reader { reads_at result.2 ≡ reads_at reader }
{
    match ran {
        Ok(Ran::Done(output)) => match Arc::new(alloc, output) {
            Ok(output) => {
                let (closed, pass) = publish_turn(rt, lock, pass, ticket, output);
                (closed, pass, reader)
            }
            Err(_) => (Closed::NoMemory, closing_down_turn(rt, lock, pass), reader),
        },
        Ok(Ran::Stopped) => retire_turn(rt, lock, epochs, pass, reader, ticket),
        Err(NoMemory) => (Closed::NoMemory, closing_down_turn(rt, lock, pass), reader),
    }
}

impl<T: Technology> Runner<T> {
    // Counts a job that was stopped.
    fn count(&mut self, ran: &Result<Ran<T::Output>, NoMemory>)
        requires { self.old.stopped < 2 ^ 64 - 1 }
        ensures stopped { self.new.stopped ≡ self.old.stopped + (if is_stopped ran.now then 1 else 0) }
        ensures actor { self.new.actor ≡ self.old.actor }
        ensures hands { self.new.hands ≡ self.old.hands }
        ensures bench { self.new.bench ≡ self.old.bench }
        ensures commands { self.new.commands ≡ self.old.commands }
        ensures made { self.new.made ≡ self.old.made }
        ensures started { self.new.started ≡ self.old.started }
    {
        if was_stopped(ran) {
            self.stopped += 1;
        }
    }

    // A step with a job under way: it is run, and closed.
    pub(crate) fn finish<R: Threads + Wait + Sync, G: Gate>(
        &mut self,
        rt: &R,
        alloc: Global,
        lock: &TurnLock<Plant<T>>,
        epochs: &EpochTable,
        gate: &G,
    ) -> Step
        requires shared { IsSync R.row }
        requires home { epochs_of lock.now ≡ table_of epochs.now }
        requires ready { IsReady T.meaning T.job_value T.runs lock.now (table_of epochs.now) self.old }
        requires busy { IsBusy self.old }
        ensures keeps { Keeps self.old self.new }
        ensures at { IsAt lock.now (table_of epochs.now) self.new }
        ensures ready { UnlessMemory result (IsReady T.meaning T.job_value T.runs lock.now (table_of epochs.now) self.new) }
        ensures stays { MatchStep result (MayGoOn (actor_of self.new) (seen_by self.new)) ⊥ ⊥ (Unit {0}) }
        ensures moved { MatchStep result (HasMoved self.old self.new) ⊥ ⊥ (Unit {0}) }
        ensures memory { MatchStep result (Unit {0}) ⊥ ⊥ (own_of self.new ≡ own_of self.old) }
        ensures stopped { CountsStopped result self.old self.new }
    {
        let Some(Hands { pass, reader }) = self.hands.take() else {
            unreachable!()
        };
        let Some(started) = self.started.take() else {
            unreachable!()
        };
        let ticket = Ticket {
            actor: self.actor,
            slot: started.slot,
            epoch: started.epoch,
            job: Snapshot::of(&started.job),
        };
        let number = started.slot.number();
        gate.pass(self.actor, Point::Started(number));
        let (ran, reader) = run_job::<T, R>(
            rt,
            alloc,
            epochs,
            reader,
            &mut self.bench,
            started.slot,
            started.epoch,
            started.job,
        );
        gate.pass(self.actor, Point::Finished(number));
        self.count(&ran);
        let (closed, pass, reader) = close_job(rt, alloc, lock, epochs, pass, reader, ticket, ran);
        self.hands = Some(Hands { pass, reader });
        match closed {
            Closed::Done => Step::Moved,
            Closed::Late { .. } => Step::Moved,
            Closed::NoMemory => Step::NoMemory,
        }
    }
}
