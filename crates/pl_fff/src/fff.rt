//! Prints of molten plastic as a technology.
ghost use Rattle.std.specs.Prelude.{◌≡◌};

use crate::job::FffJob;
use crate::slot_jobs::slot_job;
use pl_cascade::{needs, present, touched, touched_but};
use pl_model::{Edit, EditReply, Plate, changed_meshes};
use pl_ports::Probe;
use pl_slots::{FffOutput, put_name};
use pl_tech::{Kept, Problem, Ran, Slot, SlotSet, Technology};
use pl_units::NoMemory;
use std::alloc::Global;
use std::thread::Threads;

/// Counts its runs.
#[derive(Debug, Drop)]
pub struct FffBench {
    runs: u64,
}

/// Objects printed layer by layer of molten plastic. Each object of a plate has six slots, its slices, perimeters, surfaces,
/// infill, ironing and support, and the plate has four, tower, skirt, brim and export; slot 99, the export, has the G-code. The parts
/// that plates may have alike are the meshes of their sixteen places.
#[derive(Debug, Drop)]
pub struct Fff;

impl Technology for Fff {
    ghost use Rattle.pl_model.specs.Meshes.{SharesMesh};
    ghost use Rattle.pl_model.proofs.Sharing.{shares_meshes};
    ghost use Rattle.pl_slots.specs.Fff.{fff_meaning};
    ghost use Rattle.pl_slots.proofs.FffLaws.{fff_laws};
    ghost use Rattle.pl_fff.specs.Jobs.{job_value, job_polls};

    type Plate = Plate;

    type Edit = Edit;

    type Reply = EditReply;

    type Output = FffOutput;

    type Job = FffJob;

    type Bench = FffBench;

    ghost meaning = { fff_meaning };

    ghost shares = { SharesMesh };

    ghost runs = { λ b. b.runs };

    ghost job_value = { job_value };

    ghost job_polls = { job_polls };

    ghost sharing = { shares_meshes };

    ghost laws = { fff_laws };

    fn blank(alloc: Global) -> Result<Plate, NoMemory> {
        Plate::blank(alloc)
    }

    fn copy(alloc: Global, plate: &Plate) -> Result<Plate, NoMemory> {
        plate.copied(alloc)
    }

    fn same(a: &Plate, b: &Plate) -> bool {
        a.same(b)
    }

    fn edit(alloc: Global, plate: &mut Plate, edit: &Edit) -> Result<EditReply, NoMemory> {
        plate.edit(alloc, edit)
    }

    fn problem(plate: &Plate) -> Option<Problem> {
        plate.problem()
    }

    fn present(plate: &Plate) -> SlotSet {
        present(plate)
    }

    fn needs(plate: &Plate, slot: Slot) -> SlotSet {
        needs(plate, slot)
    }

    fn touched(old: &Plate, new: &Plate) -> SlotSet {
        touched(old, new)
    }

    fn changes(edit: &Edit, reply: &EditReply) -> SlotSet {
        changed_meshes(edit, reply)
    }

    fn same_but(a: &Plate, b: &Plate, apart: SlotSet) -> bool {
        a.same_but(b, apart)
    }

    fn touched_but(old: &Plate, new: &Plate, apart: SlotSet) -> SlotSet {
        touched_but(old, new, apart)
    }

    fn bench() -> FffBench {
        FffBench { runs: 0 }
    }

    fn runs(bench: &FffBench) -> u64 {
        bench.runs
    }

    fn job(
        alloc: Global,
        plate: &Plate,
        slot: Slot,
        kept: &Kept<FffOutput>,
    ) -> Result<FffJob, NoMemory> {
        slot_job(alloc, plate, slot, kept)
    }

    fn run<R: Threads + Sync, P: Probe>(
        _rt: &R,
        alloc: Global,
        bench: &mut FffBench,
        job: FffJob,
        probe: &mut P,
    ) -> Result<Ran<FffOutput>, NoMemory> {
        bench.runs += 1;
        job.run(alloc, probe)
    }

    fn bytes(output: &FffOutput) -> &[u8] {
        output.bytes()
    }

    fn put_name(slot: Slot, out: &mut [u8; 16]) -> usize {
        put_name(slot, out)
    }
}
