//! What a runner without work does to the plant in one turn.
ghost use Rattle.std.specs.Prelude.{◌≡◌, ◌<◌, ◌-◌, ◌^◌, false, true, None, IfOk, OnErr, length};
ghost use Rattle.std.specs.Arc.{arc_value};
ghost use Rattle.pl_epochs.specs.Words.{table_of};
ghost use Rattle.pl_machine.specs.Machine.{is_gone, IsActor, MayCall, calls_of, pending_of};
ghost use Rattle.pl_machine.specs.Startable.{AllLeft, HasNone, IsLeast};
ghost use Rattle.pl_machine.specs.Calls.{NamesSession};
ghost use Rattle.pl_plant.specs.Planted.{Stands};
ghost use Rattle.pl_plant.specs.Tickets.{TicketStands};
ghost use Rattle.pl_runner.specs.Looked.{GrewAsWorker, GrewByAsking, GrewByBye, GrewInTurn, IfBegun, IfEnded, IfWaits, MatchMemory};
ghost use Rattle.pl_runner.specs.Causes.{LacksResults, SessionWaits, WorkerWaits};

use crate::Looked;
use crate::standing::{told, told_closed_down};
use pl_epochs::EpochTable;
use pl_machine::{Actor, Answer, Command};
use pl_plant::{Begun, Plant};
use pl_tech::Technology;
use pl_units::NoMemory;
use std::alloc::Global;
use std::sync::Arc;

// Starts the least slot that may be started, or waits where there is none. The actor has nothing pending.
fn begin<T: Technology>(
    plant: &mut Plant<T>,
    alloc: Global,
    actor: Actor,
) -> Result<Looked<T>, NoMemory>
    requires actor { IsActor actor }
    requires stays { is_gone plant.old.state actor ≡ false }
    requires free { pending_of plant.old.state actor ≡ None }
    ensures journal { IfOk result (GrewInTurn plant.old.journal plant.new.journal actor ⊥ ⊥ ⊥) }
    ensures ticket { IfOk result (λ l. IfBegun l (λ t job. (t.actor ≡ actor) × (t.job.value ≡ job))) }
    ensures stands { IfOk result (λ l. IfBegun l (λ t _. TicketStands T.meaning T.job_value plant.new.journal t)) }
    ensures least { IfOk result (λ l. IfBegun l (λ t _. IsLeast T.meaning plant.old.state t.slot)) }
    ensures value { IfOk result (λ l. IfBegun l (λ t job. T.job_value job ≡ T.meaning.value plant.old.state.applied t.slot)) }
    ensures waits { IfOk result (λ l. IfWaits l (HasNone T.meaning plant.old.state)) }
    ensures err { OnErr result (plant.new.journal ≡ plant.old.journal) }
    ensures home { plant.new.home ≡ plant.old.home }
    ensures closed_down { plant.new.closed_down ≡ plant.old.closed_down }
{
    let Some(slot) = plant.startable() else {
        return Ok(Looked::Waits);
    };
    plant.reserve()?;
    match plant.start(alloc, actor, slot)? {
        Begun::Go(ticket, job) => Ok(Looked::Begun(ticket, job)),
        Begun::NotReady => unreachable!(),
    }
}

// Makes the call, or what it waits for.
fn call_or_begin<T: Technology>(
    plant: &mut Plant<T>,
    alloc: Global,
    epochs: &EpochTable,
    session: u8,
    command: &Arc<Command<T::Edit>>,
) -> Result<Looked<T>, NoMemory>
    requires home { plant.old.home ≡ table_of epochs.now }
    requires may { MayCall plant.old.state session }
    requires calls { calls_of plant.old.state session < 2 ^ 32 - 1 }
    requires names { NamesSession (arc_value command.now) }
    ensures journal { IfOk result (GrewByAsking plant.old.journal plant.new.journal session (arc_value command.now) ⊥) }
    ensures ticket { IfOk result (λ l. IfBegun l (λ t job. (t.actor ≡ Actor.Session session) × (t.job.value ≡ job))) }
    ensures stands { IfOk result (λ l. IfBegun l (λ t _. TicketStands T.meaning T.job_value plant.new.journal t)) }
    ensures least { IfOk result (λ l. IfBegun l (λ t _. IsLeast T.meaning plant.old.state t.slot)) }
    ensures value { IfOk result (λ l. IfBegun l (λ t job. T.job_value job ≡ T.meaning.value plant.old.state.applied t.slot)) }
    ensures lacks { IfOk result (λ l. IfBegun l (λ _ _. LacksResults T.meaning plant.old.state (arc_value command.now))) }
    ensures waits { IfOk result (λ l. IfWaits l (SessionWaits T.meaning plant.old.state (arc_value command.now))) }
    ensures err { OnErr result (plant.new.journal ≡ plant.old.journal) }
    ensures home { plant.new.home ≡ plant.old.home }
    ensures closed_down { plant.new.closed_down ≡ plant.old.closed_down }
{
    let command = Arc::try_clone(command)?;
    plant.reserve()?;
    match plant.call(alloc, epochs, session, command)? {
        Answer::Now(_) => Ok(Looked::Called),
        Answer::NotYet(_) => begin(plant, alloc, Actor::Session(session)),
        Answer::Behind(_) => Ok(Looked::Waits),
    }
}

/// What a worker, from 1 to 8, does in a turn while it has nothing pending. Where the plant is closed down, nothing; where each of
/// these sessions has left (bit i - 1 stands for session i), it ends; else it starts the least slot that may be started, or waits
/// where there is none. For want of memory it closes the plant down, and adds no entry.
pub(crate) fn look_for_work<T: Technology>(
    plant: &mut Plant<T>,
    alloc: Global,
    worker: u8,
    sessions: u32,
) -> Looked<T>
    requires actor { IsActor (Actor.Worker worker) }
    requires free { Stands T.meaning plant.old → pending_of plant.old.state (Actor.Worker worker) ≡ None }
    ensures stood { Stands T.meaning plant.old }
    ensures stands { Stands T.meaning plant.new }
    ensures journal { GrewAsWorker plant.old.journal plant.new.journal worker result }
    ensures ticket { IfBegun result (λ t job. (t.actor ≡ Actor.Worker worker) × (t.job.value ≡ job)) }
    ensures ticket_stands { IfBegun result (λ t _. TicketStands T.meaning T.job_value plant.new.journal t) }
    ensures least { IfBegun result (λ t _. IsLeast T.meaning plant.old.state t.slot) }
    ensures value { IfBegun result (λ t job. T.job_value job ≡ T.meaning.value plant.old.state.applied t.slot) }
    ensures stays { IfBegun result (λ _ _. ¬ AllLeft plant.old.state sessions) }
    ensures short { IfBegun result (λ _ _. length plant.new.journal < 2 ^ 64) }
    ensures ended { IfEnded result (AllLeft plant.old.state sessions) }
    ensures waits { IfWaits result (WorkerWaits T.meaning plant.old.state sessions) }
    ensures home { plant.new.home ≡ plant.old.home }
    ensures open { MatchMemory result (Unit {0}) (plant.old.closed_down ≡ false) }
    ensures closed_down { MatchMemory result (plant.new.closed_down ≡ true) (plant.new.closed_down ≡ false) }
{
    if plant.closed_down() {
        return Looked::NoMemory;
    }
    if plant.all_left(sessions) {
        return Looked::Ended;
    }
    match begin(plant, alloc, Actor::Worker(worker)) {
        Ok(looked) => told(plant, looked),
        Err(NoMemory) => told_closed_down(plant, Looked::NoMemory),
    }
}

/// What a session, from 1 to 16, does in a turn while it has a command and nothing pending. Where the plant is closed down,
/// nothing; else it makes the call. A wait for another session's calls may have to wait; where an export lacks results, the session
/// starts the least slot that may be started in place of the call, or waits where there is none. For want of memory it closes the
/// plant down, and adds no entry.
pub(crate) fn ask<T: Technology>(
    plant: &mut Plant<T>,
    alloc: Global,
    epochs: &EpochTable,
    session: u8,
    command: &Arc<Command<T::Edit>>,
) -> Looked<T>
    requires home { plant.old.home ≡ table_of epochs.now }
    requires may { Stands T.meaning plant.old → MayCall plant.old.state session }
    requires calls { Stands T.meaning plant.old → calls_of plant.old.state session < 2 ^ 32 - 1 }
    requires names { NamesSession (arc_value command.now) }
    ensures stood { Stands T.meaning plant.old }
    ensures stands { Stands T.meaning plant.new }
    ensures journal { GrewByAsking plant.old.journal plant.new.journal session (arc_value command.now) (plant.new.journal ≡ plant.old.journal) result }
    ensures ticket { IfBegun result (λ t job. (t.actor ≡ Actor.Session session) × (t.job.value ≡ job)) }
    ensures ticket_stands { IfBegun result (λ t _. TicketStands T.meaning T.job_value plant.new.journal t) }
    ensures least { IfBegun result (λ t _. IsLeast T.meaning plant.old.state t.slot) }
    ensures value { IfBegun result (λ t job. T.job_value job ≡ T.meaning.value plant.old.state.applied t.slot) }
    ensures short { IfBegun result (λ _ _. length plant.new.journal < 2 ^ 64) }
    ensures lacks { IfBegun result (λ _ _. LacksResults T.meaning plant.old.state (arc_value command.now)) }
    ensures waits { IfWaits result (SessionWaits T.meaning plant.old.state (arc_value command.now)) }
    ensures home { plant.new.home ≡ plant.old.home }
    ensures open { MatchMemory result (Unit {0}) (plant.old.closed_down ≡ false) }
    ensures closed_down { MatchMemory result (plant.new.closed_down ≡ true) (plant.new.closed_down ≡ false) }
{
    if plant.closed_down() {
        return Looked::NoMemory;
    }
    match call_or_begin(plant, alloc, epochs, session, command) {
        Ok(looked) => told(plant, looked),
        Err(NoMemory) => told_closed_down(plant, Looked::NoMemory),
    }
}

/// What a session, from 1 to 16, does in a turn when it has no command left and nothing pending. Where the plant is closed down,
/// nothing; else it says bye. For want of memory it closes the plant down, and adds no entry.
pub(crate) fn say_bye<T: Technology>(plant: &mut Plant<T>, session: u8) -> Looked<T>
    requires may { Stands T.meaning plant.old → MayCall plant.old.state session }
    ensures stood { Stands T.meaning plant.old }
    ensures stands { Stands T.meaning plant.new }
    ensures journal { GrewByBye plant.old.journal plant.new.journal session result }
    ensures home { plant.new.home ≡ plant.old.home }
    ensures open { MatchMemory result (Unit {0}) (plant.old.closed_down ≡ false) }
    ensures closed_down { MatchMemory result (plant.new.closed_down ≡ true) (plant.new.closed_down ≡ false) }
{
    if plant.closed_down() {
        return Looked::NoMemory;
    }
    if plant.reserve().is_err() {
        return told_closed_down(plant, Looked::NoMemory);
    }
    plant.leave(session);
    told(plant, Looked::Ended)
}
