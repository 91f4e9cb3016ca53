ghost use Rattle.std.specs.Prelude.{None};
ghost use Rattle.pl_tech.specs.declared.toy.ToyPlate.{ToyPlate};
ghost use Rattle.pl_tech.specs.Toy.{toy_meaning};
ghost use Rattle.pl_machine.specs.Machine.{Machine};
ghost use Rattle.pl_machine.specs.Calls.{NamesSession, IsGiven};

use crate::{Actor, Answer, Closing, Command, Mode, Reply, Start, State};
use pl_tech::{Slot, Toy, ToyEdit, ToyOutput};
use pl_units::NoMemory;
use std::alloc::Global;
use std::sync::Arc;
use std::test::Fail;

// The answer as text, as far as the table has it.
fn told(answer: &Answer<Toy>) -> &'static str {
    match answer {
        Answer::Now(Reply::Edited(())) => "edited",
        Answer::Now(Reply::Unchanged) => "unchanged",
        Answer::Now(Reply::Changed) => "changed",
        Answer::Now(Reply::Invalidated(_)) => "invalidated",
        Answer::Now(Reply::Cancelled(0)) => "cancelled 0",
        Answer::Now(Reply::Cancelled(1)) => "cancelled 1",
        Answer::Now(Reply::Cancelled(_)) => "cancelled more",
        Answer::Now(
            Reply::Modes {
                present,
                started,
                finished,
            },
        ) => match (present.len(), started.len(), finished.len()) {
            (2, 0, 0) => "2 present",
            (2, 1, 0) => "2 present, 1 started",
            (2, 0, 2) => "2 present, 2 done",
            _ => "other modes",
        },
        Answer::Now(Reply::Gcode(output)) => match output.get() {
            ToyOutput::Number(_) => "a number",
            ToyOutput::Text(_) => "a text",
        },
        Answer::Now(Reply::Refused(_)) => "refused",
        Answer::Now(Reply::Passed) => "passed",
        Answer::NotYet(slot) if slot.number() == 98 => "not yet 98",
        Answer::NotYet(_) => "not yet 99",
        Answer::Behind(0) => "behind 0",
        Answer::Behind(_) => "behind",
    }
}

// A call that is no export, where the session may make one.
fn ask(
    state: &mut State<Toy>,
    alloc: Global,
    session: u8,
    command: Command<ToyEdit>,
) -> Result<&'static str, NoMemory>
    requires names { NamesSession command }
    requires no_export { (st : Machine ToyPlate) → IsGiven toy_meaning st command None }
{
    if !state.may_call(session) || state.calls(session) == u32::MAX {
        return Ok("may not call");
    }
    let command = Arc::new(alloc, command)?;
    let answer = state.call(alloc, session, &command, None)?;
    Ok(told(&answer))
}

// An export that is not yet to be had.
fn ask_early(state: &mut State<Toy>, alloc: Global, session: u8) -> Result<&'static str, NoMemory> {
    if !state.may_call(session)
        || state.calls(session) == u32::MAX
        || state.mode(Slot::of(99)) == Mode::Done
    {
        return Ok("may not call");
    }
    let command = Arc::new(alloc, Command::Export)?;
    let answer = state.call(alloc, session, &command, None)?;
    Ok(told(&answer))
}

// Closes what worker 1 has pending.
fn close(state: &mut State<Toy>) -> Option<Closing> {
    let worker = Actor::Worker(1);
    match state.pending(worker) {
        None => None,
        Some(_) => Some(state.publish(worker)),
    }
}

#[test]
fn a_machine_goes_its_way(rt: HostRuntime) -> Result<(), Fail> {
    let alloc = rt.alloc();
    let worker = Actor::Worker(1);
    let mut state = State::<Toy>::blank(alloc)?;
    assert_eq!(rt; ask(&mut state, alloc, 1, Command::Status)?, "2 present");
    assert_eq!(rt; ask(&mut state, alloc, 1, Command::Cancel)?, "cancelled 0");
    assert_eq!(rt; ask_early(&mut state, alloc, 1)?, "not yet 98");
    assert_eq!(rt;
        ask(&mut state, alloc, 1, Command::After(2, 1))?,
        "behind 0"
    );
    assert_eq!(rt; state.calls(1), 2);
    assert!(rt; state.start(worker, Slot::of(99)) == Start::NotReady);
    assert!(rt; state.start(worker, Slot::of(98)) == Start::At(0));
    assert!(rt; state.mode(Slot::of(98)) == Mode::Started(worker));
    assert_eq!(rt;
        ask(&mut state, alloc, 1, Command::Status)?,
        "2 present, 1 started"
    );
    let edit = Command::Edit(ToyEdit::SetA(5));
    assert_eq!(rt; ask(&mut state, alloc, 1, edit)?, "edited");
    assert_eq!(rt; ask(&mut state, alloc, 1, Command::Apply)?, "invalidated");
    assert!(rt; close(&mut state) == Some(Closing::Late { then: 0, now: 1 }));
    assert_eq!(rt; ask(&mut state, alloc, 1, Command::Apply)?, "unchanged");
    assert!(rt; state.startable() == Some(Slot::of(98)));
    assert!(rt; state.start(worker, Slot::of(98)) == Start::At(1));
    assert!(rt; close(&mut state) == Some(Closing::Published));
    assert!(rt; state.startable() == Some(Slot::of(99)));
    assert!(rt; state.start(worker, Slot::of(99)) == Start::At(0));
    assert_eq!(rt; ask(&mut state, alloc, 2, Command::After(1, 6))?, "passed");
    assert_eq!(rt; ask(&mut state, alloc, 2, Command::Cancel)?, "cancelled 1");
    assert!(rt; close(&mut state) == Some(Closing::Late { then: 0, now: 1 }));
    assert!(rt; state.applied().a == 5);
    Ok(())
}

#[test]
fn sessions_leave_once(rt: HostRuntime) -> Result<(), Fail> {
    let mut state = State::<Toy>::blank(rt.alloc())?;
    assert!(rt; !state.all_left(1));
    assert!(rt; !state.all_left(1 << 16));
    if state.may_call(1) {
        state.leave(1);
    }
    assert!(rt; !state.may_call(1));
    assert!(rt; state.start(Actor::Session(1), Slot::of(98)) == Start::NotReady);
    assert!(rt; state.start(Actor::Session(2), Slot::of(98)) == Start::At(0));
    assert!(rt; state.all_left(0) && state.all_left(1) && !state.all_left(3));
    Ok(())
}
