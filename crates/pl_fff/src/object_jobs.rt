//! The jobs of the slots of an object.
ghost use Rattle.std.specs.Prelude.{◌≡◌, ◌<◌, ℕ, true, IfOk};
ghost use Rattle.pl_keys.specs.Steps as steps;
ghost use Rattle.pl_cascade.specs.Slots.{is_one_of, needs_here};
ghost use Rattle.pl_values.specs.ObjectValues.{layers_for};
ghost use Rattle.pl_batches.specs.Batches.{batches_of};
ghost use Rattle.pl_slots.specs.ObjectSteps.{object_value};
ghost use Rattle.pl_fff.specs.Kept.{IsKept};
ghost use Rattle.pl_fff.specs.Jobs.{job_value, job_polls, HoldsMesh};

use crate::job::{FffJob, InfillJob, IroningJob, PerimetersJob, PrepareJob, SliceJob, SupportJob};
use crate::kept_object::{INFILL, IRONING, KeptObject, PERIMETERS, PREPARE, SLICE};
use pl_units::NoMemory;

fn slice_job(one: &KeptObject) -> Result<FffJob, NoMemory>
    requires turned { one.now.object.now.quarter < 4 }
    ensures value { IfOk result (λ j. job_value j ≡ object_value one.now.config.now one.now.object.now steps.slice) }
    ensures polls { IfOk result (λ j. job_polls j ≡ batches_of (layers_for one.now.config.now one.now.object.now)) }
{
    let options = one.options();
    Ok(FffJob::Slice(SliceJob {
        mesh: one.object.mesh.copied()?,
        quarter: one.object.quarter,
        heights: options.heights,
    }))
}

fn perimeters_job(one: &KeptObject) -> Result<FffJob, NoMemory>
    requires slices { IsKept one.now.kept.now one.now.config.now one.now.object.now one.now.place steps.slice }
    ensures value { IfOk result (λ j. job_value j ≡ object_value one.now.config.now one.now.object.now steps.perimeters) }
    ensures polls { IfOk result (λ j. job_polls j ≡ batches_of (layers_for one.now.config.now one.now.object.now)) }
    ensures mesh { IfOk result (λ j. HoldsMesh j → ⊥) }
{
    let options = one.options();
    Ok(FffJob::Perimeters(PerimetersJob {
        slices: one.slices()?,
        count: options.perimeters,
    }))
}

fn prepare_job(one: &KeptObject) -> Result<FffJob, NoMemory>
    requires slices { IsKept one.now.kept.now one.now.config.now one.now.object.now one.now.place steps.slice }
    requires perimeters { IsKept one.now.kept.now one.now.config.now one.now.object.now one.now.place steps.perimeters }
    ensures value { IfOk result (λ j. job_value j ≡ object_value one.now.config.now one.now.object.now steps.prepare) }
    ensures polls { IfOk result (λ j. job_polls j ≡ batches_of (layers_for one.now.config.now one.now.object.now)) }
    ensures mesh { IfOk result (λ j. HoldsMesh j → ⊥) }
{
    let options = one.options();
    let slices = one.slices()?;
    let perimeters = one.perimeters()?;
    Ok(FffJob::Prepare(PrepareJob {
        slices,
        perimeters,
        top: options.top,
        bottom: options.bottom,
    }))
}

fn infill_job(one: &KeptObject) -> Result<FffJob, NoMemory>
    requires surfaces { IsKept one.now.kept.now one.now.config.now one.now.object.now one.now.place steps.prepare }
    ensures value { IfOk result (λ j. job_value j ≡ object_value one.now.config.now one.now.object.now steps.infill) }
    ensures polls { IfOk result (λ j. job_polls j ≡ batches_of (layers_for one.now.config.now one.now.object.now)) }
    ensures mesh { IfOk result (λ j. HoldsMesh j → ⊥) }
{
    let options = one.options();
    Ok(FffJob::Infill(InfillJob {
        surfaces: one.surfaces()?,
        density: options.density,
    }))
}

fn ironing_job(one: &KeptObject) -> Result<FffJob, NoMemory>
    requires surfaces { IsKept one.now.kept.now one.now.config.now one.now.object.now one.now.place steps.prepare }
    ensures value { IfOk result (λ j. job_value j ≡ object_value one.now.config.now one.now.object.now steps.ironing) }
    ensures polls { IfOk result (λ j. job_polls j ≡ batches_of (layers_for one.now.config.now one.now.object.now)) }
    ensures mesh { IfOk result (λ j. HoldsMesh j → ⊥) }
{
    let options = one.options();
    Ok(FffJob::Ironing(IroningJob {
        surfaces: one.surfaces()?,
        on: options.ironing,
    }))
}

fn support_job(one: &KeptObject) -> Result<FffJob, NoMemory>
    requires slices { IsKept one.now.kept.now one.now.config.now one.now.object.now one.now.place steps.slice }
    ensures value { IfOk result (λ j. job_value j ≡ object_value one.now.config.now one.now.object.now steps.support) }
    ensures polls { IfOk result (λ j. job_polls j ≡ batches_of (layers_for one.now.config.now one.now.object.now)) }
    ensures mesh { IfOk result (λ j. HoldsMesh j → ⊥) }
{
    let options = one.options();
    Ok(FffJob::Support(SupportJob {
        slices: one.slices()?,
        on: options.support,
        plate_only: options.plate_only,
    }))
}

/// The job of a step, from 0 to 5, of an object; the results that it needs are kept.
pub(crate) fn object_job(one: &KeptObject, step: u8) -> Result<FffJob, NoMemory>
    requires turned { one.now.object.now.quarter < 4 }
    requires step { step < 6 }
    requires needed { (need : ℕ) → is_one_of (needs_here step) need ≡ true → IsKept one.now.kept.now one.now.config.now one.now.object.now one.now.place need }
    ensures value { IfOk result (λ j. job_value j ≡ object_value one.now.config.now one.now.object.now step) }
    ensures polls { IfOk result (λ j. job_polls j ≡ batches_of (layers_for one.now.config.now one.now.object.now)) }
    ensures mesh { IfOk result (λ j. HoldsMesh j → step ≡ steps.slice) }
{
    match step {
        SLICE => slice_job(one),
        PERIMETERS => perimeters_job(one),
        PREPARE => prepare_job(one),
        INFILL => infill_job(one),
        IRONING => ironing_job(one),
        _ => support_job(one),
    }
}
