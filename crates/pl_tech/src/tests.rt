use crate::{Kept, Problem, Ran, Slot, SlotSet, Technology, Toy, ToyEdit, ToyOutput, ToyPlate};
use pl_ports::ScriptedProbe;
use pl_units::NoMemory;
use std::alloc::Global;
use std::sync::Arc;
use std::test::Fail;
use std::thread::Threads;

#[test]
fn problems_say_where(rt: HostRuntime) -> Result<(), Fail> {
    let table = [
        (Problem::Empty, "Empty"),
        (Problem::OutOfBed(3, 14), "OutOfBed 3 14"),
        (Problem::TooManyCells(15), "TooManyCells 15"),
    ];
    for (problem, text) in &table {
        assert_eq!(rt; format!(in rt.alloc(); "{problem}")?.as_str(), *text);
    }
    Ok(())
}

#[test]
fn sets_hold_slots(rt: HostRuntime) {
    let low = SlotSet::empty().with(Slot::of(3)).with(Slot::of(64));
    let high = SlotSet::empty().with(Slot::of(64)).with(Slot::of(99));
    let table = [
        ("empty", SlotSet::empty(), 0, None),
        ("low", low, 2, Some(3)),
        ("again", low.with(Slot::of(3)), 2, Some(3)),
        ("union", low.union(high), 3, Some(3)),
        ("minus", high.minus(low), 1, Some(99)),
        ("itself", low.minus(low), 0, None),
    ];
    for (name, set, len, least) in &table {
        assert_eq!(rt; set.len(), *len, "{name}");
        assert!(rt; set.least().map(|slot| slot.number()) == *least, "{name}");
        assert_eq!(rt;
            set.has(Slot::of(99)),
            *name == "union" || *name == "minus",
            "{name}"
        );
    }
}

// Makes a plate, changes it, and makes the result of its first slot.
fn first_result<T: Technology<Edit = ToyEdit, Reply = ()>, R: Threads + Sync>(
    rt: &R,
    alloc: Global,
) -> Result<Option<T::Output>, NoMemory> {
    let blank = T::blank(alloc)?;
    let mut plate = T::copy(alloc, &blank)?;
    T::edit(alloc, &mut plate, &ToyEdit::SetA(7))?;
    let Some(slot) = T::present(&plate).least() else {
        return Ok(None);
    };
    if T::problem(&plate).is_some() {
        return Ok(None);
    }
    let kept = Kept::new(alloc)?;
    let job = T::job(alloc, &plate, slot, &kept)?;
    let mut probe = ScriptedProbe::new(Vec::new(alloc));
    match T::run(rt, alloc, &mut T::bench(), job, &mut probe)? {
        Ran::Done(output) => Ok(Some(output)),
        Ran::Stopped => Ok(None),
    }
}

#[test]
fn the_first_slot_of_the_toy_is_a_number(rt: HostRuntime) -> Result<(), Fail> {
    let output = first_result::<Toy, _>(&rt, rt.alloc())?;
    assert!(rt; matches!(output, Some(ToyOutput::Number(7))));
    Ok(())
}

#[test]
fn the_last_slot_of_the_toy_is_a_text(rt: HostRuntime) -> Result<(), Fail> {
    let alloc = rt.alloc();
    let plate = ToyPlate { a: 7, b: 10 };
    let mut kept = Kept::new(alloc)?;
    kept.put(Slot::of(98), Arc::new(alloc, ToyOutput::Number(7))?);
    let job = Toy::job(alloc, &plate, Slot::of(99), &kept)?;
    let mut bench = Toy::bench();
    let mut probe = ScriptedProbe::new(Vec::from_slice(alloc, &[true])?);
    let stopped = Toy::run(&rt, alloc, &mut bench, job, &mut probe)?;
    assert!(rt; matches!(stopped, Ran::Stopped));
    let mut probe = ScriptedProbe::new(Vec::new(alloc));
    let Ran::Done(output) = Toy::run(&rt, alloc, &mut bench, job, &mut probe)? else {
        return Err("stopped".into());
    };
    assert!(rt; Toy::bytes(&output) == b"7 10".as_slice());
    assert_eq!(rt; Toy::runs(&bench), 2);
    assert_eq!(rt; probe.polls(), 1);
    Ok(())
}
