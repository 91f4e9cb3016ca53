ghost use Rattle.std.specs.Prelude.{◌≤◌, ◌-◌, ◌^◌, map, vec_len, All, IfOk};
ghost use Rattle.std.specs.Arc.{arc_value};
ghost use Rattle.std.specs.Thread.{IsSync};
ghost use Rattle.pl_session.specs.Alone.{first_alone, WaitsForNobody};
ghost use Rattle.pl_session.specs.Complete.{IsComplete};

use crate::{Ended, one_complete_history, run_session};
use pl_machine::{Command, Entry, Reply, What};
use pl_tech::{Technology, Toy, ToyEdit};
use pl_units::NoMemory;
use std::alloc::Global;
use std::sync::Arc;
use std::test::Fail;
use std::thread::Threads;

// An entry's kind.
fn kind(entry: &Entry<Toy>) -> &'static str {
    match &entry.what {
        What::Call(_, Reply::Edited(())) => "edited",
        What::Call(_, Reply::Invalidated(_)) => "invalidated",
        What::Call(_, Reply::Changed) => "changed",
        What::Call(_, Reply::Gcode(output)) if Toy::bytes(output.get()) == b"5 0".as_slice() =>
            "5 0",
        What::Call(_, _) => "another call",
        What::Start(slot, 0) if slot.number() == 98 => "start 98",
        What::Start(slot, 0) if slot.number() == 99 => "start 99",
        What::Start(_, _) => "another start",
        What::Finish(slot, 0) if slot.number() == 98 => "finish 98",
        What::Finish(slot, 0) if slot.number() == 99 => "finish 99",
        What::Finish(_, _) => "another finish",
        What::Late(_, _, _) => "late",
        What::Bye => "bye",
    }
}

// The run of a technology that has the toy's edits.
fn run_any<T: Technology<Edit = ToyEdit, Reply = ()>, R: Threads + Sync>(
    rt: &R,
    alloc: Global,
    commands: Vec<Arc<Command<ToyEdit>>>,
) -> Result<Ended<T>, NoMemory>
    requires shared { IsSync R.row }
    requires few { vec_len commands ≤ 2 ^ 32 - 1 }
    requires own { All (λ command. WaitsForNobody command) (map arc_value commands.items) }
    ensures { IfOk result (λ ended. IsComplete T.meaning (first_alone (map arc_value commands.items)) 0 ended.journal.items) }
{
    run_session::<T, R>(rt, alloc, commands)
}

#[test]
fn results_are_made_once(rt: HostRuntime) -> Result<(), Fail> {
    let alloc = rt.alloc();
    let commands = vec![in alloc;
        Arc::new(alloc, Command::Edit(ToyEdit::SetA(5)))?,
        Arc::new(alloc, Command::Apply)?,
        Arc::new(alloc, Command::Export)?,
        Arc::new(alloc, Command::Export)?,
    ]?;
    let ended = run_any::<Toy, _>(&rt, alloc, commands)?;
    let kinds = [
        "edited",
        "changed",
        "start 98",
        "finish 98",
        "start 99",
        "finish 99",
        "5 0",
        "5 0",
        "bye",
    ];
    assert_eq!(rt; ended.journal.len(), kinds.len());
    for (entry, wanted) in ended.journal.iter().zip(kinds.iter()) {
        assert_eq!(rt; kind(entry), *wanted);
    }
    assert_eq!(rt; ended.runs, 2);
    Ok(())
}

#[test]
fn without_a_command_nothing_happens(rt: HostRuntime) -> Result<(), Fail> {
    let alloc = rt.alloc();
    let ended = run_session::<Toy, _>(&rt, alloc, Vec::new(alloc))?;
    assert_eq!(rt; ended.journal.len(), 0);
    assert_eq!(rt; ended.runs, 0);
    Ok(())
}

#[test]
fn the_toy_has_one_complete_history(_rt: HostRuntime) {
    one_complete_history::<Toy>();
}
