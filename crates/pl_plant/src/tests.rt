ghost use Rattle.std.specs.Prelude.{◌≡◌, ℕ, IfOk};
ghost use Rattle.std.specs.Arc.{arc_value};
ghost use Rattle.pl_tech.specs.Toy.{toy_job_value, toy_meaning};
ghost use Rattle.pl_epochs.specs.Words.{reads_at, table_of};
ghost use Rattle.pl_machine.specs.Calls.{NamesSession};
ghost use Rattle.pl_machine.specs.Tickets.{StandsIn};
ghost use Rattle.pl_ports.specs.declared.gate.Actor.{Actor};
ghost use Rattle.pl_tech.specs.declared.toy.ToyOutput.{ToyOutput};

use crate::{Begun, Plant};
use pl_epochs::{EpochTable, ReaderSeat};
use pl_machine::{Actor, Answer, Closing, Command, Mode, Reply};
use pl_ports::ScriptedProbe;
use pl_tech::{Ran, Slot, Technology, Toy, ToyEdit, ToyJob, ToyOutput};
use pl_units::NoMemory;
use std::alloc::Global;
use std::process::Abort;
use std::sync::Arc;
use std::test::Fail;
use std::thread::Threads;

// The answer as text, as far as the table has it.
fn told(answer: &Answer<Toy>) -> &'static str {
    match answer {
        Answer::Now(Reply::Edited(())) => "edited",
        Answer::Now(Reply::Invalidated(set)) => match (set.len(), set.has(Slot::of(98))) {
            (1, true) => "invalidated 98",
            (1, false) => "invalidated another",
            _ => "invalidated more",
        },
        Answer::Now(Reply::Gcode(output)) if Toy::bytes(output.get()) == b"5 0".as_slice() => "5 0",
        Answer::NotYet(slot) if slot.number() == 98 => "not yet 98",
        Answer::Behind(0) => "behind 0",
        _ => "something else",
    }
}

// A fresh plant, its table, and a reader.
fn opened(alloc: Global) -> Result<(Plant<Toy>, EpochTable, ReaderSeat), NoMemory>
    ensures home { IfOk result (λ r. r.0.home ≡ table_of r.1) }
    ensures reader { IfOk result (λ r. reads_at r.2 ≡ table_of r.1) }
{
    let (epochs, writer, reader) = EpochTable::new(alloc)?;
    Ok((Plant::new(alloc, writer)?, epochs, reader))
}

// Session 1 makes a call.
fn ask(
    plant: &mut Plant<Toy>,
    alloc: Global,
    epochs: &EpochTable,
    command: Command<ToyEdit>,
) -> Result<&'static str, NoMemory>
    requires names { NamesSession command }
    requires home { plant.old.home ≡ table_of epochs.now }
    ensures home { plant.new.home ≡ plant.old.home }
    ensures stands { IfOk result (λ _. (actor : Actor) (slot epoch : ℕ) (value : ToyOutput) → StandsIn toy_meaning plant.old.journal actor slot epoch value → StandsIn toy_meaning plant.new.journal actor slot epoch value) }
{
    plant.reserve()?;
    if !plant.may_call(1) || plant.calls(1) == u32::MAX {
        return Ok("may not call");
    }
    let command = Arc::new(alloc, command)?;
    let answer = plant.call(alloc, epochs, 1, command)?;
    Ok(told(&answer))
}

// Runs a job, which nobody stops.
fn made<R: Threads + Sync>(rt: &R, alloc: Global, job: ToyJob) -> Result<Arc<ToyOutput>, Fail>
    ensures { IfOk result (λ output. arc_value output ≡ toy_job_value job) }
{
    let mut probe = ScriptedProbe::new(Vec::new(alloc));
    match Toy::run(rt, alloc, &mut Toy::bench(), job, &mut probe)? {
        Ran::Done(output) => Ok(Arc::new(alloc, output)?),
        Ran::Stopped => Err("stopped".into()),
    }
}

// Worker 1 makes a slot's result.
fn work<R: Threads + Sync>(
    rt: &R,
    alloc: Global,
    plant: &mut Plant<Toy>,
    slot: Slot,
) -> Result<Closing, Fail>
    ensures { plant.new.home ≡ plant.old.home }
{
    plant.reserve()?;
    let Begun::Go(ticket, job) = plant.start(alloc, Actor::Worker(1), slot)? else {
        return Err("not ready".into());
    };
    let output = made(rt, alloc, job)?;
    plant.reserve()?;
    Ok(plant.publish(ticket, output))
}

// Worker 1 makes the result of slot 98, and meanwhile session 1 changes the plate.
fn work_too_late<R: Abort + Threads + Sync>(
    rt: &R,
    alloc: Global,
    plant: &mut Plant<Toy>,
    epochs: &EpochTable,
) -> Result<Closing, Fail>
    requires { plant.old.home ≡ table_of epochs.now }
    ensures { plant.new.home ≡ plant.old.home }
{
    plant.reserve()?;
    let Begun::Go(ticket, job) = plant.start(alloc, Actor::Worker(1), Slot::of(98))? else {
        return Err("not ready".into());
    };
    assert_eq!(rt; ticket.epoch, 0);
    assert_eq!(rt; ask(plant, alloc, epochs, Command::Export)?, "not yet 98");
    assert_eq!(rt;
        ask(plant, alloc, epochs, Command::After(2, 1))?,
        "behind 0"
    );
    assert_eq!(rt; plant.journal().len(), 1);
    assert_eq!(rt;
        ask(plant, alloc, epochs, Command::Edit(ToyEdit::SetA(5)))?,
        "edited"
    );
    assert_eq!(rt;
        ask(plant, alloc, epochs, Command::Apply)?,
        "invalidated 98"
    );
    let output = made(rt, alloc, job)?;
    plant.reserve()?;
    Ok(plant.publish(ticket, output))
}

// Worker 1 starts slot 99, session 1 cancels it, and the worker reads so.
fn work_in_vain(
    alloc: Global,
    plant: &mut Plant<Toy>,
    epochs: &EpochTable,
    reader: &mut ReaderSeat,
) -> Result<(u64, u64), Fail>
    requires home { plant.old.home ≡ table_of epochs.now }
    requires reader { reads_at reader.old ≡ table_of epochs.now }
    ensures home { plant.new.home ≡ plant.old.home }
    ensures reader { reads_at reader.new ≡ reads_at reader.old }
{
    plant.reserve()?;
    let Begun::Go(ticket, _) = plant.start(alloc, Actor::Worker(1), Slot::of(99))? else {
        return Err("not ready".into());
    };
    ask(plant, alloc, epochs, Command::Cancel)?;
    if epochs.read(reader, ticket.slot) <= ticket.epoch {
        return Err("not cancelled".into());
    }
    plant.reserve()?;
    Ok(plant.retire(epochs, reader, ticket))
}

#[test]
fn a_plant_keeps_what_stands(rt: HostRuntime) -> Result<(), Fail> {
    let alloc = rt.alloc();
    let (mut plant, epochs, mut reader) = opened(alloc)?;
    plant.reserve()?;
    let begun = plant.start(alloc, Actor::Worker(1), Slot::of(99))?;
    assert!(rt; matches!(begun, Begun::NotReady));
    assert!(rt;
        work_too_late(&rt, alloc, &mut plant, &epochs)? == Closing::Late { then: 0, now: 1 }
    );
    assert_eq!(rt; epochs.read(&mut reader, Slot::of(98)), 1);
    assert_eq!(rt; epochs.read(&mut reader, Slot::of(99)), 0);
    for slot in [98u8, 99] {
        assert!(rt; plant.startable() == Some(Slot::of(slot)));
        assert!(rt; work(&rt, alloc, &mut plant, Slot::of(slot))? == Closing::Published);
        assert!(rt; plant.mode(Slot::of(slot)) == Mode::Done);
    }
    assert_eq!(rt; ask(&mut plant, alloc, &epochs, Command::Export)?, "5 0");
    assert_eq!(rt; plant.journal().len(), 9);
    assert_eq!(rt;
        ask(&mut plant, alloc, &epochs, Command::Edit(ToyEdit::SetB(1)))?,
        "edited"
    );
    assert_eq!(rt;
        ask(&mut plant, alloc, &epochs, Command::Apply)?,
        "invalidated another"
    );
    assert!(rt; work_in_vain(alloc, &mut plant, &epochs, &mut reader)? == (1, 2));
    plant.reserve()?;
    if plant.may_call(1) {
        plant.leave(1);
    }
    assert!(rt; plant.all_left(1) && !plant.all_left(3));
    plant.close_down();
    assert!(rt; plant.closed_down() && plant.applied().b == 1);
    assert_eq!(rt; plant.into_journal().len(), 15);
    Ok(())
}
