ghost use Rattle.std.specs.Prelude.{◌≡◌, ℕ, IfOk, ⊤};
ghost use Rattle.pl_tech.specs.Toy.{both_text};

use crate::{Kept, Problem, Ran, Slot, SlotSet, Technology, put_front};
use pl_ports::Probe;
use pl_units::{Digits, NoMemory, Text};
use std::alloc::Global;
use std::thread::Threads;

/// Two numbers.
#[derive(Clone, Copy, Debug, PartialEq, Eq)]
pub struct ToyPlate {
    pub a: u32,
    pub b: u32,
}

/// A new value for one of them.
#[derive(Clone, Copy, Debug, PartialEq, Eq)]
pub enum ToyEdit {
    SetA(u32),
    SetB(u32),
}

/// The value of a, or the text of both.
#[derive(Drop)]
pub enum ToyOutput {
    Number(u32),
    Text(Text),
}

/// What is to be shown: a, or both.
#[derive(Clone, Copy, Debug, PartialEq, Eq)]
pub enum ToyJob {
    First(u32),
    Both(u32, u32),
}

/// Counts its runs.
#[derive(Debug, Drop)]
pub struct ToyBench {
    runs: u64,
}

/// A technology for tests: a plate of two numbers, both 0 at first. Slot 98 is the number a, slot 99 the decimal texts of
/// a and b with a space between. It never has a problem, and a run asks its probe once.
#[derive(Debug, Drop)]
pub struct Toy;

impl Technology for Toy {
    ghost use Rattle.pl_tech.specs.Toy.{toy_meaning, toy_job_value};
    ghost use Rattle.pl_tech.specs.ToyLaws.{toy_laws};

    type Plate = ToyPlate;

    type Edit = ToyEdit;

    type Reply = ();

    type Output = ToyOutput;

    type Job = ToyJob;

    type Bench = ToyBench;

    ghost meaning = { toy_meaning };

    ghost shares = { λ _ _ _. ⊤ };

    ghost runs = { λ b. b.runs };

    ghost job_value = { toy_job_value };

    ghost job_polls = { λ _. 1 };

    ghost sharing = { record { itself = λ _ _. tt; onwards = λ _ _ _ _ _ _. tt } };

    ghost laws = { toy_laws };

    fn changes(_edit: &ToyEdit, _reply: &()) -> SlotSet {
        SlotSet::empty()
    }

    fn blank(_alloc: Global) -> Result<ToyPlate, NoMemory> {
        Ok(ToyPlate { a: 0, b: 0 })
    }

    fn copy(_alloc: Global, plate: &ToyPlate) -> Result<ToyPlate, NoMemory> {
        Ok(*plate)
    }

    fn same(a: &ToyPlate, b: &ToyPlate) -> bool {
        a.a == b.a && a.b == b.b
    }

    fn edit(_alloc: Global, plate: &mut ToyPlate, edit: &ToyEdit) -> Result<(), NoMemory> {
        match edit {
            ToyEdit::SetA(n) => plate.a = *n,
            ToyEdit::SetB(n) => plate.b = *n,
        }
        Ok(())
    }

    fn problem(_plate: &ToyPlate) -> Option<Problem> {
        None
    }

    fn present(_plate: &ToyPlate) -> SlotSet {
        SlotSet::empty().with(Slot::of(98)).with(Slot::of(99))
    }

    fn needs(_plate: &ToyPlate, slot: Slot) -> SlotSet {
        if slot.number() == 99 {
            SlotSet::empty().with(Slot::of(98))
        } else {
            SlotSet::empty()
        }
    }

    fn touched(old: &ToyPlate, new: &ToyPlate) -> SlotSet {
        let last = SlotSet::empty().with(Slot::of(99));
        if old.a != new.a {
            last.with(Slot::of(98))
        } else if old.b != new.b {
            last
        } else {
            SlotSet::empty()
        }
    }

    fn bench() -> ToyBench {
        ToyBench { runs: 0 }
    }

    fn runs(bench: &ToyBench) -> u64 {
        bench.runs
    }

    fn job(
        _alloc: Global,
        plate: &ToyPlate,
        slot: Slot,
        _kept: &Kept<ToyOutput>,
    ) -> Result<ToyJob, NoMemory> {
        if slot.number() == 98 {
            return Ok(ToyJob::First(plate.a));
        }
        Ok(ToyJob::Both(plate.a, plate.b))
    }

    fn run<R: Threads + Sync, P: Probe>(
        _rt: &R,
        alloc: Global,
        bench: &mut ToyBench,
        job: ToyJob,
        probe: &mut P,
    ) -> Result<Ran<ToyOutput>, NoMemory> {
        bench.runs += 1;
        if probe.poll() {
            return Ok(Ran::Stopped);
        }
        Ok(Ran::Done(job.output(alloc)?))
    }

    fn bytes(output: &ToyOutput) -> &[u8] {
        match output {
            ToyOutput::Number(_) => &[],
            ToyOutput::Text(text) => text.bytes(),
        }
    }

    fn put_name(slot: Slot, out: &mut [u8; 16]) -> usize {
        if slot.number() == 98 {
            return put_front(out, b"a");
        }
        if slot.number() == 99 {
            return put_front(out, b"export");
        }
        0
    }
}

impl ToyJob {
    ghost use Rattle.pl_tech.specs.Toy.{toy_job_value};

    // What the job makes.
    fn output(self, alloc: Global) -> Result<ToyOutput, NoMemory>
        ensures { IfOk result (λ o. o ≡ toy_job_value self) }
    {
        match self {
            ToyJob::First(a) => Ok(ToyOutput::Number(a)),
            ToyJob::Both(a, b) => Ok(ToyOutput::Text(both(alloc, a, b)?)),
        }
    }
}

// The decimal texts of two numbers with a space between.
fn both(alloc: Global, a: u32, b: u32) -> Result<Text, NoMemory>
    ensures { IfOk result (λ text. text ≡ both_text a b) }
{
    let mut text = Text::copy_of(alloc, Digits::whole(u64::from(a)).bytes())?;
    text.append(b" ")?;
    text.append(Digits::whole(u64::from(b)).bytes())?;
    Ok(text)
}
