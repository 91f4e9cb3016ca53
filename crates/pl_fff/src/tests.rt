//! A box of thirty layers, slot by slot.
ghost use Rattle.std.specs.Prelude.{◌≡◌, ◌<◌, ◌+◌, ℕ, true, None, Some, IfOk};
ghost use Rattle.pl_tech.specs.Kept.{kept_at};

use crate::Fff;
use pl_edit::{Block, Edit};
use pl_model::Plate;
use pl_ports::ScriptedProbe;
use pl_slots::FffOutput;
use pl_tech::{Kept, Ran, Slot, Technology};
use pl_units::{NoMemory, Shared, Text};
use std::alloc::Global;
use std::sync::Arc;
use std::test::Fail;
use std::thread::Threads;

// The facets of a box by its corners: bit 0 of a corner's number is set at the far side in x, bit 1 in y, bit 2 in z.
const FACETS: [[u8; 3]; 12] = [
    [0, 2, 1],
    [1, 2, 3],
    [4, 5, 6],
    [5, 7, 6],
    [0, 1, 4],
    [1, 5, 4],
    [2, 6, 3],
    [3, 6, 7],
    [0, 4, 2],
    [2, 4, 6],
    [1, 3, 5],
    [3, 7, 5],
];

fn put_corner(text: &mut Vec<u8>, number: u8) -> Result<(), NoMemory> {
    text.extend_from_slice(b"vertex ")?;
    text.extend_from_slice(if number & 1 == 1 { b"4.0 " } else { b"0.0 " })?;
    text.extend_from_slice(if number & 2 == 2 { b"4.0 " } else { b"0.0 " })?;
    text.extend_from_slice(if number & 4 == 4 { b"6" } else { b"0" })?;
    text.extend_from_slice(b"\n")?;
    Ok(())
}

fn put_facet(text: &mut Vec<u8>, corners: &[u8; 3]) -> Result<(), NoMemory> {
    text.extend_from_slice(b"facet normal 0 0 0\nouter loop\n")?;
    put_corner(text, corners[0])?;
    put_corner(text, corners[1])?;
    put_corner(text, corners[2])?;
    text.extend_from_slice(b"endloop\nendfacet\n")?;
    Ok(())
}

// A box of 4 by 4 by 6 mm.
fn box_text(alloc: Global) -> Result<Vec<u8>, NoMemory> {
    let mut text = Vec::new(alloc);
    text.extend_from_slice(b"solid box\n")?;
    for corners in &FACETS {
        put_facet(&mut text, corners)?;
    }
    text.extend_from_slice(b"endsolid box\n")?;
    Ok(text)
}

fn load(alloc: Global, plate: &mut Plate) -> Result<(), NoMemory> {
    let text = box_text(alloc)?;
    if text.len() > 1 << 28 {
        return Err(NoMemory);
    }
    let block = Block::of(Text::copy_of(alloc, b"b")?, Text::copy_of(alloc, &text)?);
    let edit = Edit::Load {
        name: Text::copy_of(alloc, b"a")?,
        block: Shared::of(Arc::new(alloc, block)?),
    };
    let _ = plate.edit(alloc, &edit)?;
    Ok(())
}

// The box, in layers of 0.2 mm.
fn boxed(alloc: Global) -> Result<Plate, NoMemory> {
    let mut plate = Plate::blank(alloc)?;
    load(alloc, &mut plate)?;
    Ok(plate)
}

// How a run ended.
#[derive(Drop)]
struct Ended<O> {
    output: Option<O>,
    polls: u32,
    runs: u64,
}

// Runs the job of the first slot of a plate that has no problem, by a probe with these answers.
fn first_run<T: Technology, R: Threads + Sync>(
    rt: &R,
    alloc: Global,
    plate: &T::Plate,
    answers: &[bool],
) -> Result<Option<Ended<T::Output>>, NoMemory> {
    let Some(slot) = T::present(plate).least() else {
        return Ok(None);
    };
    if T::problem(plate).is_some() {
        return Ok(None);
    }
    let kept = Kept::new(alloc)?;
    let job = T::job(alloc, plate, slot, &kept)?;
    let mut bench = T::bench();
    let mut probe = ScriptedProbe::new(Vec::from_slice(alloc, answers)?);
    let output = match T::run(rt, alloc, &mut bench, job, &mut probe)? {
        Ran::Done(output) => Some(output),
        Ran::Stopped => None,
    };
    Ok(Some(Ended {
        output,
        polls: probe.polls(),
        runs: T::runs(&bench),
    }))
}

// How many layers of the box are sliced, if the work was not stopped, after how many polls, and how many runs are counted.
fn sliced<R: Threads + Sync>(
    rt: &R,
    alloc: Global,
    answers: &[bool],
) -> Result<Option<(Option<usize>, u32, u64)>, NoMemory> {
    let plate = boxed(alloc)?;
    match first_run::<Fff, R>(rt, alloc, &plate, answers)? {
        Some(ended) => Ok(Some((layers_in(&ended.output), ended.polls, ended.runs))),
        None => Ok(None),
    }
}

// How many layers a result has, where there is one and it has slices.
fn layers_in(output: &Option<FffOutput>) -> Option<usize> {
    match output {
        Some(FffOutput::Slices(sliced)) => Some(sliced.planes.planes().len()),
        _ => None,
    }
}

#[test]
fn thirty_layers_are_sliced_in_four_batches(rt: HostRuntime) -> Result<(), Fail> {
    let cases: [(&[bool], Option<usize>, u32); 3] = [
        (&[false, false, true], None, 3),
        (&[true], None, 1),
        (&[], Some(30), 4),
    ];
    for (answers, layers, polls) in &cases {
        let found = sliced(&rt, rt.alloc(), answers)?;
        assert_eq!(rt; found, Some((*layers, *polls, 1)), "{answers:?}");
    }
    Ok(())
}

// Runs the job of a slot, and keeps its result. The slots before it are done.
fn run_slot<T: Technology, R: Threads + Sync>(
    rt: &R,
    alloc: Global,
    plate: &T::Plate,
    slot: Slot,
    kept: &mut Kept<T::Output>,
) -> Result<bool, NoMemory>
    requires no_problem { T.meaning.problem plate.now ≡ None }
    requires present { T.meaning.present plate.now slot ≡ true }
    requires before { (n : ℕ) → n < slot → T.meaning.present plate.now n ≡ true → kept_at kept.old n ≡ Some (T.meaning.value plate.now n) }
    ensures { IfOk result (λ done. done ≡ true → (n : ℕ) → n < slot + 1 → T.meaning.present plate.now n ≡ true → kept_at kept.new n ≡ Some (T.meaning.value plate.now n)) }
{
    let job = T::job(alloc, plate, slot, kept)?;
    let mut probe = ScriptedProbe::new(Vec::new(alloc));
    match T::run(rt, alloc, &mut T::bench(), job, &mut probe)? {
        Ran::Done(output) => {
            kept.put(slot, Arc::new(alloc, output)?);
            Ok(true)
        }
        Ran::Stopped => Ok(false),
    }
}

// The same, where the plate has the slot.
fn run_next<T: Technology, R: Threads + Sync>(
    rt: &R,
    alloc: Global,
    plate: &T::Plate,
    slot: Slot,
    kept: &mut Kept<T::Output>,
) -> Result<bool, NoMemory>
    requires no_problem { T.meaning.problem plate.now ≡ None }
    requires before { (n : ℕ) → n < slot → T.meaning.present plate.now n ≡ true → kept_at kept.old n ≡ Some (T.meaning.value plate.now n) }
    ensures { IfOk result (λ done. done ≡ true → (n : ℕ) → n < slot + 1 → T.meaning.present plate.now n ≡ true → kept_at kept.new n ≡ Some (T.meaning.value plate.now n)) }
{
    if T::present(plate).has(slot) {
        return run_slot::<T, R>(rt, alloc, plate, slot, kept);
    }
    Ok(true)
}

// The results of all slots of a plate that has no problem.
fn run_all<T: Technology, R: Threads + Sync>(
    rt: &R,
    alloc: Global,
    plate: &T::Plate,
) -> Result<Option<Kept<T::Output>>, NoMemory>
    requires { T.meaning.problem plate.now ≡ None }
{
    let mut kept = Kept::new(alloc)?;
    for number in 0..100u8 {
        if !run_next::<T, R>(rt, alloc, plate, Slot::of(number), &mut kept)? {
            return Ok(None);
        }
    }
    Ok(Some(kept))
}

#[test]
fn the_last_slot_has_the_gcode(rt: HostRuntime) -> Result<(), Fail> {
    let alloc = rt.alloc();
    let plate = boxed(alloc)?;
    if Fff::problem(&plate).is_some() {
        return Err("a problem".into());
    }
    let Some(kept) = run_all::<Fff, _>(&rt, alloc, &plate)? else {
        return Err("stopped".into());
    };
    let Some(export) = kept.get(Slot::of(99)) else {
        return Err("no export".into());
    };
    let text = Fff::bytes(export);
    assert!(rt; text.starts_with(b"; headless plater\n"));
    assert_eq!(rt;
        text.windows(3)
            .filter(|part| *part == b";Z ".as_slice())
            .count(),
        30
    );
    Ok(())
}
