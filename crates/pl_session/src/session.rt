ghost use Rattle.std.specs.Prelude.{◌≡◌, ℕ, ◌+◌, ◌<◌, ◌≤◌, ◌-◌, ◌^◌, Some, [], ◌∷◌, ◌++◌, length, map, slice_get, vec_len, All, IfOk, OnOk};
ghost use Rattle.std.specs.Arc.{arc_value};
ghost use Rattle.std.specs.Thread.{IsSync};
ghost use Rattle.pl_machine.specs.declared.entry.What.{What};
ghost use Rattle.pl_machine.specs.Machine.{epoch_of, finished};
ghost use Rattle.pl_machine.specs.Startable.{HasNone, IsLeast};
ghost use Rattle.pl_epochs.specs.Words.{table_of};
ghost use Rattle.pl_plant.specs.Tickets.{TicketStands};
ghost use Rattle.pl_session.specs.Alone.{first_alone, WaitsForNobody};
ghost use Rattle.pl_session.specs.Complete.{IsComplete, runs_of};
ghost use Rattle.pl_session.specs.UnderWay.{IsOnItsWay, LacksNothing, undone_in};

use crate::probe::SteadyProbe;
use pl_epochs::EpochTable;
use pl_machine::{Actor, Answer, Closing, Command, Entry};
use pl_plant::{Begun, Plant, Ticket};
use pl_tech::{Ran, Slot, Technology};
use pl_units::NoMemory;
use std::alloc::Global;
use std::sync::Arc;
use std::thread::Threads;

// Session 1, which is alone, on its way through its commands.
#[derive(Drop)]
pub(crate) struct Session<T: Technology> {
    epochs: EpochTable,
    plant: Plant<T>,
    bench: T::Bench,
    commands: Vec<Arc<Command<T::Edit>>>,
    // How many of them were made.
    made: usize,
    ghost home: { plant.home ≡ table_of epochs },
}

// Runs a job to its end.
fn work<T: Technology, R: Threads + Sync>(
    rt: &R,
    alloc: Global,
    bench: &mut T::Bench,
    job: T::Job,
) -> Result<Arc<T::Output>, NoMemory>
    requires shared { IsSync R.row }
    requires room { T.runs bench.old < 2 ^ 64 - 1 }
    ensures output { IfOk result (λ output. arc_value output ≡ T.job_value job) }
    ensures counted { T.runs bench.new ≡ T.runs bench.old + 1 }
{
    let mut probe = SteadyProbe::new();
    match T::run(rt, alloc, bench, job, &mut probe)? {
        Ran::Done(output) => Ok(Arc::new(alloc, output)?),
        Ran::Stopped => unreachable!(),
    }
}

impl<T: Technology> Session<T> {
    // None of the commands was made.
    pub(crate) fn new(
        alloc: Global,
        commands: Vec<Arc<Command<T::Edit>>>,
    ) -> Result<Session<T>, NoMemory>
        ensures commands { IfOk result (λ s. s.commands.items ≡ commands.items) }
        ensures made { IfOk result (λ s. s.made ≡ 0) }
        ensures way { IfOk result (λ s. IsOnItsWay T.meaning (map arc_value commands.items) 0 s.plant (T.runs s.bench)) }
    {
        let (epochs, writer, _) = EpochTable::new(alloc)?;
        Ok(Session {
            epochs,
            plant: Plant::new(alloc, writer)?,
            bench: T::bench(),
            commands,
            made: 0,
        })
    }

    // Runs the job of what was just started, and keeps what it made.
    fn finish<R: Threads + Sync>(
        &mut self,
        rt: &R,
        alloc: Global,
        ticket: Ticket<T>,
        job: T::Job,
    ) -> Result<(), NoMemory>
        requires shared { IsSync R.row }
        requires stands { TicketStands T.meaning T.job_value self.old.plant.journal ticket }
        requires job { ticket.job.value ≡ job }
        requires current { epoch_of self.old.plant.state ticket.slot ≡ ticket.epoch }
        requires counted { T.runs self.old.bench < length self.old.plant.journal }
        ensures journal { OnOk result (self.new.plant.journal ≡ self.old.plant.journal ++ record { actor = ticket.actor; what = What.Finish ticket.slot ticket.epoch } ∷ []) }
        ensures state { OnOk result (self.new.plant.state ≡ finished self.old.plant.state ticket.actor ticket.slot) }
        ensures counted { OnOk result (T.runs self.new.bench ≡ T.runs self.old.bench + 1) }
        ensures commands { self.new.commands.items ≡ self.old.commands.items }
        ensures made { self.new.made ≡ self.old.made }
    {
        let runs = T::runs(&self.bench);
        let entries = self.plant.journal().len();
        prove!(runs < entries as u64);
        let output = work::<T, R>(rt, alloc, &mut self.bench, job)?;
        self.plant.reserve()?;
        match self.plant.publish(ticket, output) {
            Closing::Published => Ok(()),
            Closing::Late { .. } => unreachable!(),
        }
    }

    // Makes the result of the least slot that may be started. The next command is an export.
    fn make<R: Threads + Sync>(&mut self, rt: &R, alloc: Global, slot: Slot) -> Result<(), NoMemory>
        requires shared { IsSync R.row }
        requires next { slice_get (map arc_value self.old.commands.items) self.old.made ≡ Some Command.Export }
        requires least { IsLeast T.meaning self.old.plant.state slot }
        requires way { IsOnItsWay T.meaning (map arc_value self.old.commands.items) self.old.made self.old.plant (T.runs self.old.bench) }
        ensures commands { self.new.commands.items ≡ self.old.commands.items }
        ensures made { self.new.made ≡ self.old.made }
        ensures way { OnOk result (IsOnItsWay T.meaning (map arc_value self.new.commands.items) self.new.made self.new.plant (T.runs self.new.bench)) }
        ensures fewer { OnOk result (undone_in self.new.plant.state < undone_in self.old.plant.state) }
    {
        self.plant.reserve()?;
        match self.plant.start(alloc, Actor::Session(1), slot)? {
            Begun::Go(ticket, job) => self.finish(rt, alloc, ticket, job),
            Begun::NotReady => unreachable!(),
        }
    }

    // Makes each result that may be made. The next command is an export.
    fn make_all<R: Threads + Sync>(&mut self, rt: &R, alloc: Global) -> Result<(), NoMemory>
        requires shared { IsSync R.row }
        requires next { slice_get (map arc_value self.old.commands.items) self.old.made ≡ Some Command.Export }
        requires way { IsOnItsWay T.meaning (map arc_value self.old.commands.items) self.old.made self.old.plant (T.runs self.old.bench) }
        ensures commands { self.new.commands.items ≡ self.old.commands.items }
        ensures made { self.new.made ≡ self.old.made }
        ensures way { OnOk result (IsOnItsWay T.meaning (map arc_value self.new.commands.items) self.new.made self.new.plant (T.runs self.new.bench)) }
        ensures none { OnOk result (HasNone T.meaning self.new.plant.state) }
    {
        while let Some(slot) = self.plant.startable() {
            self.make(rt, alloc, slot)?;
        }
        Ok(())
    }

    // Makes what the next command, which is this one, waits for.
    fn prepare<R: Threads + Sync>(
        &mut self,
        rt: &R,
        alloc: Global,
        command: &Command<T::Edit>,
    ) -> Result<(), NoMemory>
        requires shared { IsSync R.row }
        requires next { slice_get (map arc_value self.old.commands.items) self.old.made ≡ Some command.now }
        requires way { IsOnItsWay T.meaning (map arc_value self.old.commands.items) self.old.made self.old.plant (T.runs self.old.bench) }
        ensures commands { self.new.commands.items ≡ self.old.commands.items }
        ensures made { self.new.made ≡ self.old.made }
        ensures way { OnOk result (IsOnItsWay T.meaning (map arc_value self.new.commands.items) self.new.made self.new.plant (T.runs self.new.bench)) }
        ensures ready { OnOk result (LacksNothing T.meaning self.new.plant.state command.now) }
    {
        match command {
            Command::Export => self.make_all(rt, alloc),
            _ => Ok(()),
        }
    }

    // Makes the next command, which is this one and lacks nothing.
    fn call(&mut self, alloc: Global, command: Arc<Command<T::Edit>>) -> Result<(), NoMemory>
        requires next { slice_get (map arc_value self.old.commands.items) self.old.made ≡ Some (arc_value command) }
        requires few { vec_len self.old.commands ≤ 2 ^ 32 - 1 }
        requires own { WaitsForNobody (arc_value command) }
        requires ready { LacksNothing T.meaning self.old.plant.state (arc_value command) }
        requires way { IsOnItsWay T.meaning (map arc_value self.old.commands.items) self.old.made self.old.plant (T.runs self.old.bench) }
        ensures commands { self.new.commands.items ≡ self.old.commands.items }
        ensures made { OnOk result (self.new.made ≡ self.old.made + 1) }
        ensures way { OnOk result (IsOnItsWay T.meaning (map arc_value self.new.commands.items) self.new.made self.new.plant (T.runs self.new.bench)) }
    {
        self.plant.reserve()?;
        match self.plant.call(alloc, &self.epochs, 1, command)? {
            Answer::Now(_) => {
                self.made += 1;
                Ok(())
            }
            Answer::NotYet(_) => unreachable!(),
            Answer::Behind(_) => unreachable!(),
        }
    }

    // The next command.
    fn next(&self) -> Result<Arc<Command<T::Edit>>, NoMemory>
        requires { self.now.made < vec_len self.now.commands }
        ensures { IfOk result (λ command. slice_get (map arc_value self.now.commands.items) self.now.made ≡ Some (arc_value command)) }
    {
        Ok(Arc::try_clone(&self.commands[self.made])?)
    }

    // Makes the next command, and before it what it waits for.
    pub(crate) fn step<R: Threads + Sync>(&mut self, rt: &R, alloc: Global) -> Result<(), NoMemory>
        requires shared { IsSync R.row }
        requires next { self.old.made < vec_len self.old.commands }
        requires few { vec_len self.old.commands ≤ 2 ^ 32 - 1 }
        requires own { All (λ command. WaitsForNobody command) (map arc_value self.old.commands.items) }
        requires way { IsOnItsWay T.meaning (map arc_value self.old.commands.items) self.old.made self.old.plant (T.runs self.old.bench) }
        ensures commands { self.new.commands.items ≡ self.old.commands.items }
        ensures made { OnOk result (self.new.made ≡ self.old.made + 1) }
        ensures way { OnOk result (IsOnItsWay T.meaning (map arc_value self.new.commands.items) self.new.made self.new.plant (T.runs self.new.bench)) }
    {
        let command = self.next()?;
        self.prepare(rt, alloc, &command)?;
        self.call(alloc, command)
    }

    // Says bye, where there was a command. All were made.
    pub(crate) fn leave(&mut self) -> Result<(), NoMemory>
        requires made { self.old.made ≡ vec_len self.old.commands }
        requires way { IsOnItsWay T.meaning (map arc_value self.old.commands.items) self.old.made self.old.plant (T.runs self.old.bench) }
        ensures complete { OnOk result (IsComplete T.meaning (first_alone (map arc_value self.old.commands.items)) 0 self.new.plant.journal) }
        ensures runs { OnOk result (T.runs self.new.bench ≡ runs_of self.new.plant.journal) }
    {
        let silent = self.made == 0;
        if silent {
            return Ok(());
        }
        self.plant.reserve()?;
        self.plant.leave(1);
        Ok(())
    }

    // How many jobs were run, and the entries.
    pub(crate) fn into_parts(self) -> (u64, Vec<Entry<T>>)
        ensures runs { result.0 ≡ T.runs self.bench }
        ensures journal { result.1.items ≡ self.plant.journal }
    {
        (T::runs(&self.bench), self.plant.into_journal())
    }
}
