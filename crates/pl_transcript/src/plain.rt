//! A technology for tests: the toy, which no edit of a plate changes.
use pl_edit::{Edit, EditReply};
use pl_ports::Probe;
use pl_tech::{
    Kept, Problem, Ran, Slot, SlotSet, Technology, Toy, ToyBench, ToyJob, ToyOutput, ToyPlate,
};
use pl_units::NoMemory;
use std::alloc::Global;
use std::thread::Threads;

#[derive(Drop)]
pub struct Plain;

impl Technology for Plain {
    ghost use Rattle.std.specs.Prelude.{⊤};
    ghost use Rattle.pl_tech.specs.Toy.{toy_job_value};
    ghost use Rattle.pl_transcript.specs.Plain.{plain_meaning, plain_laws};

    type Plate = ToyPlate;

    type Edit = Edit;

    type Reply = EditReply;

    type Output = ToyOutput;

    type Job = ToyJob;

    type Bench = ToyBench;

    ghost meaning = { plain_meaning };

    ghost shares = { λ _ _ _. ⊤ };

    ghost runs = { λ b. b.runs };

    ghost job_value = { toy_job_value };

    ghost job_polls = { λ _. 1 };

    ghost sharing = { record { itself = λ _ _. tt; onwards = λ _ _ _ _ _ _. tt } };

    ghost laws = { plain_laws };

    fn blank(alloc: Global) -> Result<ToyPlate, NoMemory> {
        Toy::blank(alloc)
    }

    fn copy(alloc: Global, plate: &ToyPlate) -> Result<ToyPlate, NoMemory> {
        Toy::copy(alloc, plate)
    }

    fn same(a: &ToyPlate, b: &ToyPlate) -> bool {
        Toy::same(a, b)
    }

    fn edit(_alloc: Global, _plate: &mut ToyPlate, _edit: &Edit) -> Result<EditReply, NoMemory> {
        Ok(EditReply::Done)
    }

    fn problem(plate: &ToyPlate) -> Option<Problem> {
        Toy::problem(plate)
    }

    fn present(plate: &ToyPlate) -> SlotSet {
        Toy::present(plate)
    }

    fn needs(plate: &ToyPlate, slot: Slot) -> SlotSet {
        Toy::needs(plate, slot)
    }

    fn touched(old: &ToyPlate, new: &ToyPlate) -> SlotSet {
        Toy::touched(old, new)
    }

    fn changes(_edit: &Edit, _reply: &EditReply) -> SlotSet {
        SlotSet::empty()
    }

    fn bench() -> ToyBench {
        Toy::bench()
    }

    fn runs(bench: &ToyBench) -> u64 {
        Toy::runs(bench)
    }

    fn job(
        alloc: Global,
        plate: &ToyPlate,
        slot: Slot,
        kept: &Kept<ToyOutput>,
    ) -> Result<ToyJob, NoMemory> {
        Toy::job(alloc, plate, slot, kept)
    }

    fn run<R: Threads + Sync, P: Probe>(
        rt: &R,
        alloc: Global,
        bench: &mut ToyBench,
        job: ToyJob,
        probe: &mut P,
    ) -> Result<Ran<ToyOutput>, NoMemory> {
        Toy::run(rt, alloc, bench, job, probe)
    }

    fn bytes(output: &ToyOutput) -> &[u8] {
        Toy::bytes(output)
    }

    fn put_name(slot: Slot, out: &mut [u8; 16]) -> usize {
        Toy::put_name(slot, out)
    }
}
