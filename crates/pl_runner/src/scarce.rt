//! A technology whose jobs lack memory.
ghost use Rattle.std.specs.Prelude.{⊤};
ghost use Rattle.pl_tech.specs.Toy.{toy_job_value, toy_meaning};
ghost use Rattle.pl_tech.specs.ToyLaws.{toy_laws};

use pl_ports::Probe;
use pl_tech::{
    Kept, Problem, Ran, Slot, SlotSet, Technology, Toy, ToyEdit, ToyJob, ToyOutput, ToyPlate,
};
use pl_units::NoMemory;
use std::alloc::Global;
use std::thread::Threads;

// Counts its runs.
#[derive(Drop)]
pub(crate) struct ScarceBench {
    runs: u64,
}

// As Toy, but memory is wanting to each job that runs.
#[derive(Drop)]
pub(crate) struct Scarce;

impl Technology for Scarce {
    type Plate = ToyPlate;

    type Edit = ToyEdit;

    type Reply = ();

    type Output = ToyOutput;

    type Job = ToyJob;

    type Bench = ScarceBench;

    ghost meaning = { toy_meaning };

    ghost shares = { λ _ _ _. ⊤ };

    ghost runs = { λ b. b.runs };

    ghost job_value = { toy_job_value };

    ghost job_polls = { λ _. 1 };

    ghost sharing = { record { itself = λ _ _. tt; onwards = λ _ _ _ _ _ _. tt } };

    ghost laws = { toy_laws };

    fn changes(edit: &ToyEdit, reply: &()) -> SlotSet {
        Toy::changes(edit, reply)
    }

    fn blank(alloc: Global) -> Result<ToyPlate, NoMemory> {
        Toy::blank(alloc)
    }

    fn copy(alloc: Global, plate: &ToyPlate) -> Result<ToyPlate, NoMemory> {
        Toy::copy(alloc, plate)
    }

    fn same(a: &ToyPlate, b: &ToyPlate) -> bool {
        Toy::same(a, b)
    }

    fn edit(alloc: Global, plate: &mut ToyPlate, edit: &ToyEdit) -> Result<(), NoMemory> {
        Toy::edit(alloc, plate, edit)
    }

    fn problem(plate: &ToyPlate) -> Option<Problem> {
        Toy::problem(plate)
    }

    fn present(plate: &ToyPlate) -> SlotSet {
        Toy::present(plate)
    }

    fn needs(plate: &ToyPlate, slot: Slot) -> SlotSet {
        Toy::needs(plate, slot)
    }

    fn touched(old: &ToyPlate, new: &ToyPlate) -> SlotSet {
        Toy::touched(old, new)
    }

    fn bench() -> ScarceBench {
        ScarceBench { runs: 0 }
    }

    fn runs(bench: &ScarceBench) -> u64 {
        bench.runs
    }

    fn job(
        alloc: Global,
        plate: &ToyPlate,
        slot: Slot,
        kept: &Kept<ToyOutput>,
    ) -> Result<ToyJob, NoMemory> {
        Toy::job(alloc, plate, slot, kept)
    }

    fn run<R: Threads + Sync, P: Probe>(
        _rt: &R,
        _alloc: Global,
        bench: &mut ScarceBench,
        _job: ToyJob,
        _probe: &mut P,
    ) -> Result<Ran<ToyOutput>, NoMemory> {
        bench.runs += 1;
        Err(NoMemory)
    }

    fn bytes(output: &ToyOutput) -> &[u8] {
        Toy::bytes(output)
    }

    fn put_name(slot: Slot, out: &mut [u8; 16]) -> usize {
        Toy::put_name(slot, out)
    }
}
