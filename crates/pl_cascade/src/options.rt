//! The steps that other values of options touch directly.
ghost use Rattle.std.specs.Prelude.{◌≡◌, ℕ, IsSome};
ghost use Rattle.std.specs.FinMap.{get};
ghost use Rattle.pl_keys.specs.Steps.{has};
ghost use Rattle.pl_model.specs.Places.{place_in};
ghost use Rattle.pl_model.specs.Effective.{effective};
ghost use Rattle.pl_cascade.specs.Direct.{option_touches, options_touch, settings_touch};

use crate::steps::both;
use pl_keys::{Key, StepMask, all_keys, direct_steps, is_object_key};
use pl_model::Plate;
use pl_options::Config;

// The steps that an option of the object at a place touches.
fn option_steps(old: &Plate, new: &Plate, place: u8, key: Key) -> StepMask
    requires before { IsSome (place_in old.now.places place) }
    requires after { IsSome (place_in new.now.places place) }
    ensures { (step : ℕ) → has result step ≡ option_touches (effective old.now place) (effective new.now place) step key }
{
    if old.effective(place, key).same(new.effective(place, key)) {
        StepMask::empty()
    } else {
        direct_steps(key)
    }
}

/// The steps that the options of the object at a place touch, where the place is filled in both plates.
pub(crate) fn options_steps(old: &Plate, new: &Plate, place: u8) -> StepMask
    requires before { IsSome (place_in old.now.places place) }
    requires after { IsSome (place_in new.now.places place) }
    ensures { (step : ℕ) → has result step ≡ options_touch (effective old.now place) (effective new.now place) step }
{
    let mut steps = StepMask::empty();
    for key in all_keys() {
        if is_object_key(*key) {
            steps = both(steps, option_steps(old, new, place, *key));
        }
    }
    steps
}

// The steps that an option of the configuration touches.
fn setting_steps(old: &Config, new: &Config, key: Key) -> StepMask
    ensures { (step : ℕ) → has result step ≡ option_touches (get old.now) (get new.now) step key }
{
    if old.get(key).same(new.get(key)) {
        StepMask::empty()
    } else {
        direct_steps(key)
    }
}

/// The steps that the options of the print touch.
pub(crate) fn settings_steps(old: &Config, new: &Config) -> StepMask
    ensures { (step : ℕ) → has result step ≡ settings_touch (get old.now) (get new.now) step }
{
    let mut steps = StepMask::empty();
    for key in all_keys() {
        if !is_object_key(*key) {
            steps = both(steps, setting_steps(old, new, *key));
        }
    }
    steps
}
