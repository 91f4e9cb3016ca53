//! The job of a slot.
ghost use Rattle.std.specs.Prelude.{◌≡◌, ◌≤◌, ◌<◌, ◌+◌, ℕ, None, Some, true, IfOk};
ghost use Rattle.pl_keys.specs.Steps as steps;
ghost use Rattle.pl_tech.specs.Kept.{kept_at};
ghost use Rattle.pl_model.specs.Problem.{problem_of};
ghost use Rattle.pl_cascade.specs.Slots.{is_object_slot, is_present, needs_slot, place_of, step_of};
ghost use Rattle.pl_slots.specs.Values.{slot_value};
ghost use Rattle.pl_slots.specs.Batches.{batches};
ghost use Rattle.pl_fff.specs.Jobs.{job_value, job_polls, HoldsMesh};

use crate::job::FffJob;
use crate::kept_object::KeptObject;
use crate::object_jobs::object_job;
use crate::print_jobs::{brim_job, export_job, skirt_job, tower_job};
use pl_model::Plate;
use pl_slots::FffOutput;
use pl_tech::{Kept, Slot};
use pl_units::NoMemory;
use std::alloc::Global;

// The job of a slot of an object.
fn job_of_object(plate: &Plate, slot: Slot, kept: &Kept<FffOutput>) -> Result<FffJob, NoMemory>
    requires object { is_object_slot slot ≡ true }
    requires present { is_present plate.now slot ≡ true }
    requires needed { (n : ℕ) → needs_slot plate.now slot n ≡ true → kept_at kept.now n ≡ Some (slot_value plate.now n) }
    ensures value { IfOk result (λ j. job_value j ≡ slot_value plate.now slot) }
    ensures polls { IfOk result (λ j. job_polls j ≡ batches plate.now slot) }
    ensures mesh { IfOk result (λ j. HoldsMesh j → step_of slot ≡ steps.slice) }
{
    let place = slot.number() / 6;
    match plate.object(place) {
        Some(object) => {
            let one = KeptObject {
                config: plate.config(),
                object,
                place,
                kept,
            };
            object_job(&one, slot.number() % 6)
        }
        None => unreachable!(),
    }
}

// The job of a slot of the print.
fn job_of_print(
    alloc: Global,
    plate: &Plate,
    slot: Slot,
    kept: &Kept<FffOutput>,
) -> Result<FffJob, NoMemory>
    requires print { 96 ≤ slot }
    requires no_problem { problem_of plate.now ≡ None }
    requires needed { (n : ℕ) → needs_slot plate.now slot n ≡ true → kept_at kept.now n ≡ Some (slot_value plate.now n) }
    ensures value { IfOk result (λ j. job_value j ≡ slot_value plate.now slot) }
    ensures polls { IfOk result (λ j. job_polls j ≡ batches plate.now slot) }
    ensures mesh { IfOk result (λ j. HoldsMesh j → ⊥) }
{
    let _sixteen = plate.places();
    match slot.number() {
        96 => tower_job(alloc, plate),
        97 => skirt_job(alloc, plate, kept),
        98 => brim_job(alloc, plate, kept),
        _ => export_job(alloc, plate, kept),
    }
}

/// The job of a slot of a plate that has no problem. The slot is present, and each slot that it needs is kept with its result.
/// The job takes further handles of these results and no copies, and only the job of an object's slice holds its mesh. Refused
/// only for want of memory.
pub fn slot_job(
    alloc: Global,
    plate: &Plate,
    slot: Slot,
    kept: &Kept<FffOutput>,
) -> Result<FffJob, NoMemory>
    requires no_problem { problem_of plate.now ≡ None }
    requires present { is_present plate.now slot ≡ true }
    requires needed { (n : ℕ) → needs_slot plate.now slot n ≡ true → kept_at kept.now n ≡ Some (slot_value plate.now n) }
    ensures value { IfOk result (λ j. job_value j ≡ slot_value plate.now slot) }
    ensures polls { IfOk result (λ j. job_polls j ≡ batches plate.now slot) }
    ensures mesh { IfOk result (λ j. HoldsMesh j → step_of slot ≡ steps.slice) }
{
    if slot.number() < 96 {
        return job_of_object(plate, slot, kept);
    }
    job_of_print(alloc, plate, slot, kept)
}
