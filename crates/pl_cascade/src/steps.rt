//! Sets of steps.
ghost use Rattle.std.specs.Prelude.{◌≡◌, ℕ, ◌||◌, IsTrue, nat_lt};
ghost use Rattle.std.specs.List.{list_all};
ghost use Rattle.pl_keys.specs.Steps.{has};
ghost use Rattle.pl_cascade.specs.Slots.{is_one_of, needs_here};
ghost use Rattle.pl_cascade.specs.Cascade.{takes_here, takes_in_print};

use pl_keys::StepMask;

pub(crate) const SLICE: u8 = 0;

pub(crate) const PERIMETERS: u8 = 1;

pub(crate) const PREPARE: u8 = 2;

pub(crate) const INFILL: u8 = 3;

pub(crate) const IRONING: u8 = 4;

pub(crate) const SUPPORT: u8 = 5;

pub(crate) const TOWER: u8 = 6;

pub(crate) const SKIRT: u8 = 7;

pub(crate) const BRIM: u8 = 8;

pub(crate) const EXPORT: u8 = 9;

// The steps of a list.
fn steps_of(steps: &[u8]) -> StepMask
    requires { IsTrue (list_all (λ step. nat_lt step 10) steps.now) }
    ensures { (step : ℕ) → has result step ≡ is_one_of steps.now step }
{
    let mut set = StepMask::empty();
    for step in steps {
        set = set.with(*step);
    }
    set
}

/// All ten steps.
pub(crate) fn all_steps() -> StepMask
    ensures { (step : ℕ) → has result step ≡ nat_lt step 10 }
{
    let mut set = StepMask::empty();
    for step in 0..10u8 {
        set = set.with(step);
    }
    set
}

/// What is in one of the sets, or in both.
pub(crate) fn both(one: StepMask, other: StepMask) -> StepMask
    ensures { (step : ℕ) → has result step ≡ (has one step || has other step) }
{
    let mut set = one;
    for step in 0..10u8 {
        if other.has(step) {
            set = set.with(step);
        }
    }
    set
}

/// The steps of the same object that a step takes.
pub(crate) fn takes_here(step: u8) -> StepMask
    ensures { (taken : ℕ) → has result taken ≡ is_one_of (takes_here step) taken }
{
    match step {
        SLICE => steps_of(&[PERIMETERS, PREPARE, INFILL, IRONING, SUPPORT]),
        PERIMETERS => steps_of(&[PREPARE, INFILL, IRONING]),
        PREPARE => steps_of(&[INFILL, IRONING]),
        INFILL => steps_of(&[IRONING]),
        _ => steps_of(&[]),
    }
}

/// The steps of the print that a step takes.
pub(crate) fn takes_in_print(step: u8) -> StepMask
    ensures { (taken : ℕ) → has result taken ≡ is_one_of (takes_in_print step) taken }
{
    match step {
        SLICE | PERIMETERS | INFILL | SUPPORT => steps_of(&[TOWER, SKIRT, BRIM, EXPORT]),
        PREPARE | IRONING => steps_of(&[TOWER, EXPORT]),
        TOWER | BRIM => steps_of(&[EXPORT]),
        SKIRT => steps_of(&[BRIM, EXPORT]),
        _ => steps_of(&[]),
    }
}

/// The steps of the same object that a step needs.
pub(crate) fn needs_here(step: u8) -> StepMask
    ensures { (need : ℕ) → has result need ≡ is_one_of (needs_here step) need }
{
    match step {
        PERIMETERS | SUPPORT => steps_of(&[SLICE]),
        PREPARE => steps_of(&[SLICE, PERIMETERS]),
        INFILL => steps_of(&[PREPARE]),
        IRONING => steps_of(&[SLICE, PREPARE]),
        _ => steps_of(&[]),
    }
}
