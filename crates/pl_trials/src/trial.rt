//! A plant with the table of its epochs, call by call.
ghost use Rattle.std.specs.Prelude.{◌≡◌, IfOk, IsTrue};
ghost use Rattle.std.specs.Arc.{arc_value};
ghost use Rattle.std.specs.Thread.{IsSync};
ghost use Rattle.pl_epochs.specs.Words.{table_of};
ghost use Rattle.pl_machine.specs.Calls.{NamesSession};
ghost use Rattle.pl_trials.specs.Standing.{StandOn};

use pl_epochs::EpochTable;
use pl_machine::{Actor, Answer, Closing, Command, Entry, What};
use pl_plant::{Begun, Plant};
use pl_ports::ScriptedProbe;
use pl_tech::{Ran, Slot, Technology};
use pl_units::NoMemory;
use std::alloc::Global;
use std::sync::Arc;
use std::test::Fail;
use std::thread::Threads;

// A plant and the table of its epochs.
#[derive(Drop)]
pub(crate) struct Trial<T: Technology> {
    epochs: EpochTable,
    plant: Plant<T>,
    ghost home: { plant.home ≡ table_of epochs },
}

// What came of a start: what the calls after it were told, the epoch at the start, and the epochs of a late result.
#[derive(Drop)]
pub(crate) struct Outcome<T: Technology> {
    pub(crate) answers: Vec<Answer<T>>,
    pub(crate) epoch: u64,
    pub(crate) late: Option<(u64, u64)>,
}

// Whether the session that a command waits for is from 1 to 16.
fn names_session<E>(command: &Command<E>) -> bool
    ensures { IsTrue result → NamesSession command.now }
{
    match command {
        Command::After(session, _) => 1 <= *session && *session <= 16,
        _ => true,
    }
}

// Runs a job, which nobody stops.
fn result_of<T: Technology, R: Threads + Sync>(
    rt: &R,
    alloc: Global,
    job: T::Job,
) -> Result<Arc<T::Output>, Fail>
    requires { IsSync R.row }
    ensures { IfOk result (λ output. arc_value output ≡ T.job_value job) }
{
    let mut probe = ScriptedProbe::new(Vec::new(alloc));
    match T::run(rt, alloc, &mut T::bench(), job, &mut probe)? {
        Ran::Done(output) => Ok(Arc::new(alloc, output)?),
        Ran::Stopped => Err("stopped".into()),
    }
}

// The slot of a number below 100.
fn slot_at(number: u8) -> Slot {
    if number < 100 {
        return Slot::of(number);
    }
    Slot::of(99)
}

// Whether the last entry is worker 1's late one of a slot.
pub(crate) fn ends_late<T: Technology>(journal: &[Entry<T>], slot: Slot, late: (u64, u64)) -> bool {
    match journal.last() {
        Some(entry) => {
            matches!(entry.actor, Actor::Worker(1))
                && matches!(entry.what, What::Late(at, then, now) if at == slot && (then, now) == late)
        }
        None => false,
    }
}

impl<T: Technology> Trial<T> {
    pub(crate) fn new(alloc: Global) -> Result<Trial<T>, NoMemory> {
        let (epochs, writer, _) = EpochTable::new(alloc)?;
        Ok(Trial {
            epochs,
            plant: Plant::new(alloc, writer)?,
        })
    }

    // How many entries the journal has.
    pub(crate) fn entries(&self) -> usize {
        self.plant.journal().len()
    }

    // Session 1 makes a call. What was started stands on.
    fn call(&mut self, alloc: Global, command: &Arc<Command<T::Edit>>) -> Result<Answer<T>, Fail>
        ensures { IfOk result (λ _. StandOn T.meaning self.old.plant.journal self.new.plant.journal) }
    {
        self.plant.reserve()?;
        if !self.plant.may_call(1) || self.plant.calls(1) == u32::MAX || !names_session(command) {
            return Err("session 1 may not call".into());
        }
        let command = Arc::try_clone(command)?;
        let answer = self.plant.call(alloc, &self.epochs, 1, command)?;
        Ok(answer)
    }

    // Session 1 makes calls: what they are told.
    pub(crate) fn call_all(
        &mut self,
        alloc: Global,
        commands: &[Arc<Command<T::Edit>>],
    ) -> Result<Vec<Answer<T>>, Fail>
        ensures { IfOk result (λ _. StandOn T.meaning self.old.plant.journal self.new.plant.journal) }
    {
        let mut answers = Vec::new(alloc);
        for number in 0..commands.len() {
            let answer = self.call(alloc, &commands[number])?;
            answers.push(answer)?;
        }
        Ok(answers)
    }

    // Worker 1 starts a slot: the epoch at the start; None where the slot is not ready.
    pub(crate) fn start(&mut self, alloc: Global, slot: Slot) -> Result<Option<u64>, Fail> {
        self.plant.reserve()?;
        match self.plant.start(alloc, Actor::Worker(1), slot)? {
            Begun::Go(ticket, _job) => Ok(Some(ticket.epoch)),
            Begun::NotReady => Ok(None),
        }
    }

    // Worker 1 starts a slot, session 1 makes calls, and then the worker makes the slot's result; None where the slot is not
    // ready.
    fn work<R: Threads + Sync>(
        &mut self,
        rt: &R,
        alloc: Global,
        slot: Slot,
        commands: &[Arc<Command<T::Edit>>],
    ) -> Result<Option<Outcome<T>>, Fail>
        requires { IsSync R.row }
    {
        self.plant.reserve()?;
        let Begun::Go(ticket, job) = self.plant.start(alloc, Actor::Worker(1), slot)? else {
            return Ok(None);
        };
        let epoch = ticket.epoch;
        let answers = self.call_all(alloc, commands)?;
        let output = result_of::<T, R>(rt, alloc, job)?;
        self.plant.reserve()?;
        let late = match self.plant.publish(ticket, output) {
            Closing::Published => None,
            Closing::Late { then, now } => Some((then, now)),
        };
        Ok(Some(Outcome {
            answers,
            epoch,
            late,
        }))
    }

    // Worker 1 makes a slot: the epoch at its start, if it is published.
    fn publish<R: Threads + Sync>(
        &mut self,
        rt: &R,
        alloc: Global,
        slot: Slot,
    ) -> Result<Option<u64>, Fail>
        requires { IsSync R.row }
    {
        let none = Vec::new(alloc);
        match self.work(rt, alloc, slot, &none)? {
            Some(outcome) if outcome.late.is_none() => Ok(Some(outcome.epoch)),
            _ => Ok(None),
        }
    }

    // Session 1 makes calls, and worker 1 makes the first slots.
    fn prepared<R: Threads + Sync>(
        rt: &R,
        alloc: Global,
        loads: &[Arc<Command<T::Edit>>],
        done: u8,
    ) -> Result<Trial<T>, Fail>
        requires { IsSync R.row }
    {
        let mut trial = Trial::new(alloc)?;
        trial.call_all(alloc, loads)?;
        for number in 0..done {
            trial.publish(rt, alloc, slot_at(number))?;
        }
        Ok(trial)
    }
}

// What came of a slot's start where the slots below are done and session 1 makes these calls meanwhile, and whether, where the
// result is to be late, the journal says so and the slot can be made once more.
pub(crate) fn made<T: Technology, R: Threads + Sync>(
    rt: &R,
    alloc: Global,
    loads: &[Arc<Command<T::Edit>>],
    number: u8,
    commands: &[Arc<Command<T::Edit>>],
    late: Option<(u64, u64)>,
) -> Result<(Option<Outcome<T>>, bool), Fail>
    requires { IsSync R.row }
{
    let mut trial = Trial::<T>::prepared(rt, alloc, loads, number)?;
    let slot = slot_at(number);
    let outcome = trial.work(rt, alloc, slot, commands)?;
    let Some(late) = late else {
        return Ok((outcome, true));
    };
    let told = ends_late(trial.plant.journal(), slot, late);
    let again = trial.publish(rt, alloc, slot)?;
    Ok((outcome, told && again == Some(late.1)))
}
