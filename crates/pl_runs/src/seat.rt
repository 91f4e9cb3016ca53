//! Who has a number: a session with a command, a worker, or nobody.
ghost use Rattle.std.specs.Prelude.{◌≡◌, ◌≤◌, ◌+◌, [], IfOk, IfErr, map};
ghost use Rattle.std.specs.Arc.{arc_value};
ghost use Rattle.pl_epochs.specs.Words.{reads_at, table_of};
ghost use Rattle.pl_machine.specs.Tickets.{number_of};
ghost use Rattle.pl_order.specs.Ended.{commands_for};
ghost use Rattle.pl_session.specs.Complete.{TakesPart};
ghost use Rattle.pl_turn.specs.Passes.{splits};
ghost use Rattle.pl_runs.specs.Places.{IsFresh};
ghost use Rattle.pl_runs.specs.Script.{IsCallable};
ghost use Rattle.pl_runs.specs.Seats.{MaySit};
ghost use Rattle.pl_runs.specs.Rows.{HasNobody, IsCrewOf};

use crate::{Crew, Desk};
use pl_epochs::ReaderSeat;
use pl_machine::Command;
use pl_plant::Plant;
use pl_ports::Actor;
use pl_runner::Runner;
use pl_tech::Technology;
use pl_turn::Pass;
use std::sync::Arc;

// The crew of a session.
fn of_session<'a, T: Technology, G>(
    desk: &Desk<'a, T, G>,
    id: u8,
    commands: Vec<Arc<Command<T::Edit>>>,
    pass: Pass<Plant<T>>,
    reader: ReaderSeat,
) -> Crew<'a, T, G>
    requires id { (1 ≤ id) × (id ≤ 16) }
    requires pass { IsFresh desk.now.lock.now id pass }
    requires first { id ≡ 1 → splits pass ≡ 23 }
    requires reader { reads_at reader ≡ table_of desk.now.epochs.now }
    requires callable { IsCallable (map arc_value commands.items) }
    ensures lock { (result.lock.now ≡ desk.now.lock.now) × (result.epochs.now ≡ desk.now.epochs.now) }
    ensures actor { result.actor ≡ Actor.Session id }
    ensures runner { IsCrewOf T.meaning T.job_value T.runs desk.now (λ _. map arc_value commands.items) result }
{
    let runner = Runner::<T>::session(id, commands, pass, reader, T::bench());
    Crew {
        actor: Actor::Session(id),
        runner: Some(runner),
        alloc: desk.alloc,
        lock: desk.lock,
        epochs: desk.epochs,
        sessions: desk.sessions,
        gate: desk.gate,
    }
}

// The crew of a worker.
fn of_worker<'a, T: Technology, G>(
    desk: &Desk<'a, T, G>,
    id: u8,
    pass: Pass<Plant<T>>,
    reader: ReaderSeat,
) -> Crew<'a, T, G>
    requires id { (1 ≤ id) × (id ≤ 8) }
    requires pass { IsFresh desk.now.lock.now (16 + id) pass }
    requires reader { reads_at reader ≡ table_of desk.now.epochs.now }
    ensures lock { (result.lock.now ≡ desk.now.lock.now) × (result.epochs.now ≡ desk.now.epochs.now) }
    ensures actor { result.actor ≡ Actor.Worker id }
    ensures runner { IsCrewOf T.meaning T.job_value T.runs desk.now (λ _. []) result }
{
    let runner = Runner::<T>::worker(desk.alloc, id, pass, reader, T::bench());
    Crew {
        actor: Actor::Worker(id),
        runner: Some(runner),
        alloc: desk.alloc,
        lock: desk.lock,
        epochs: desk.epochs,
        sessions: desk.sessions,
        gate: desk.gate,
    }
}

// The crew of a number, or its pass.
fn crew_of<'a, T: Technology, G>(
    desk: &Desk<'a, T, G>,
    number: u8,
    commands: Vec<Arc<Command<T::Edit>>>,
    pass: Pass<Plant<T>>,
    reader: ReaderSeat,
) -> Result<Crew<'a, T, G>, Pass<Plant<T>>>
    requires number { (1 ≤ number) × (number ≤ 24) }
    requires workers { desk.now.workers ≤ 8 }
    requires pass { IsFresh desk.now.lock.now number pass }
    requires first { number ≡ 1 → splits pass ≡ 23 }
    requires reader { reads_at reader ≡ table_of desk.now.epochs.now }
    requires callable { IsCallable (map arc_value commands.items) }
    ensures lock { IfOk result (λ c. (c.lock.now ≡ desk.now.lock.now) × (c.epochs.now ≡ desk.now.epochs.now)) }
    ensures actor { IfOk result (λ c. number_of c.actor ≡ number) }
    ensures part { IfOk result (λ c. TakesPart (λ _. map arc_value commands.items) desk.now.workers c.actor) }
    ensures runner { IfOk result (IsCrewOf T.meaning T.job_value T.runs desk.now (commands_for (λ _. map arc_value commands.items))) }
    ensures idle { IfErr result (λ p. (p ≡ pass) × HasNobody (map arc_value commands.items) desk.now.workers number) }
{
    if number <= 16 {
        if commands.is_empty() {
            Err(pass)
        } else {
            Ok(of_session(desk, number, commands, pass, reader))
        }
    } else if number - 16 <= desk.workers {
        Ok(of_worker(desk, number - 16, pass, reader))
    } else {
        Err(pass)
    }
}

/// The crew of a number from 1 to 24, i for session i with these commands and 16 + k for worker k of so many, or its pass where a
/// session has no command or there is no such worker.
pub(crate) fn seat<'a, T: Technology, G>(
    desk: &Desk<'a, T, G>,
    number: u8,
    commands: Vec<Arc<Command<T::Edit>>>,
    pass: Pass<Plant<T>>,
    reader: ReaderSeat,
) -> Result<Crew<'a, T, G>, Pass<Plant<T>>>
    requires sits { MaySit desk.now.lock.now (table_of desk.now.epochs.now) desk.now.workers number (map arc_value commands.items) pass (reads_at reader) }
    ensures lock { IfOk result (λ c. (c.lock.now ≡ desk.now.lock.now) × (c.epochs.now ≡ desk.now.epochs.now)) }
    ensures actor { IfOk result (λ c. number_of c.actor ≡ number) }
    ensures part { IfOk result (λ c. TakesPart (λ _. map arc_value commands.items) desk.now.workers c.actor) }
    ensures runner { IfOk result (IsCrewOf T.meaning T.job_value T.runs desk.now (commands_for (λ _. map arc_value commands.items))) }
    ensures idle { IfErr result (λ p. (p ≡ pass) × HasNobody (map arc_value commands.items) desk.now.workers number) }
{
    crew_of(desk, number, commands, pass, reader)
}
