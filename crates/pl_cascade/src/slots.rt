//! Sets of slots by steps.
ghost use Rattle.std.specs.Prelude.{◌≡◌, ℕ, ◌<◌, ◌≤◌, ◌==◌, ◌&&◌, false, not};
ghost use Rattle.pl_keys.specs.Steps as steps;
ghost use Rattle.pl_tech.specs.Slots.{has};
ghost use Rattle.pl_cascade.specs.Slots.{is_object_slot, place_of, step_of};

use pl_keys::StepMask;
use pl_tech::{Slot, SlotSet};

/// The slots of these steps of the object at a place, from 0 to 15.
pub(crate) fn object_slots(place: u8, chosen: StepMask) -> SlotSet
    requires { place < 16 }
    ensures { (k : ℕ) → has result k ≡ (is_object_slot k && ((place == place_of k) && steps.has chosen (step_of k))) }
{
    let mut slots = SlotSet::empty();
    for step in 0..6u8 {
        if chosen.has(step) {
            slots = slots.with(Slot::of(6 * place + step));
        }
    }
    slots
}

/// The slots of these steps of the print.
pub(crate) fn print_slots(chosen: StepMask) -> SlotSet
    ensures slots { (k : ℕ) → has result k ≡ (not (is_object_slot k) && steps.has chosen (step_of k)) }
    ensures below { (k : ℕ) → 100 ≤ k → has result k ≡ false }
{
    let mut slots = SlotSet::empty();
    for step in 6..10u8 {
        if chosen.has(step) {
            slots = slots.with(Slot::of(90 + step));
        }
    }
    slots
}
