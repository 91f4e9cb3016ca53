//! An object whose jobs are made, with the results that are kept of its slots.
ghost use Rattle.std.specs.Prelude.{◌≡◌, ◌≤◌, ◌<◌, ◌∷◌, [], length, IfOk};
ghost use Rattle.pl_keys.specs.Steps as steps;
ghost use Rattle.pl_fill.specs.Surfaces.{HaveEqualBoxes};
ghost use Rattle.pl_values.specs.ObjectValues.{layers_for};
ghost use Rattle.pl_steps.specs.Options.{options_for, InRange};
ghost use Rattle.pl_slots.specs.declared.output.FffOutput.TheVariants.{Slices, Perimeters, Surfaces};
ghost use Rattle.pl_slots.specs.ObjectSteps.{sliced_for, perimeters_for, surface_sets_for, object_value};
ghost use Rattle.pl_fff.specs.Held.{planes_in, inner_in, surfaces_in};
ghost use Rattle.pl_fff.specs.Kept.{IsKept};

use pl_model::Object;
use pl_options::Config;
use pl_prints::few_layers;
use pl_slots::FffOutput;
use pl_steps::ObjectOptions;
use pl_tech::{Kept, Slot};
use pl_units::{NoMemory, Shared};
use std::sync::Arc;

pub(crate) const SLICE: u8 = 0;

pub(crate) const PERIMETERS: u8 = 1;

pub(crate) const PREPARE: u8 = 2;

pub(crate) const INFILL: u8 = 3;

pub(crate) const IRONING: u8 = 4;

pub(crate) const SUPPORT: u8 = 5;

/// An object at its place, from 0 to 15, and what is kept of its steps.
#[derive(Drop)]
pub(crate) struct KeptObject<'a> {
    pub(crate) config: &'a Config,
    pub(crate) object: &'a Object,
    pub(crate) place: u8,
    pub(crate) kept: &'a Kept<FffOutput>,
    ghost low: { place < 16 },
}

impl<'a> KeptObject<'a> {
    /// One more owner of the kept result of a step, from 0 to 5.
    pub(crate) fn result(&self, step: u8) -> Result<Shared<FffOutput>, NoMemory>
        requires step { step < 6 }
        requires kept { IsKept self.now.kept.now self.now.config.now self.now.object.now self.now.place step }
        ensures { IfOk result (λ output. output ≡ object_value self.now.config.now self.now.object.now step) }
    {
        match self.kept.get(Slot::of(6 * self.place + step)) {
            Some(output) => Ok(Shared::of(Arc::try_clone(output)?)),
            None => unreachable!(),
        }
    }

    /// Its options.
    pub(crate) fn options(&self) -> ObjectOptions
        ensures options { result ≡ options_for self.now.config.now self.now.object.now }
        ensures ranges { InRange result }
        ensures few { layers_for self.now.config.now self.now.object.now ≤ 100000 }
    {
        few_layers(self.config, self.object);
        ObjectOptions::of(self.config, self.object)
    }

    /// The kept result of its slice.
    pub(crate) fn slices(&self) -> Result<Shared<FffOutput>, NoMemory>
        requires kept { IsKept self.now.kept.now self.now.config.now self.now.object.now self.now.place steps.slice }
        ensures value { IfOk result (λ output. output ≡ Slices (sliced_for self.now.config.now self.now.object.now)) }
        ensures layers { IfOk result (λ output. length (planes_in output) ≡ layers_for self.now.config.now self.now.object.now) }
        ensures boxes { IfOk result (λ output. HaveEqualBoxes (planes_in output) (planes_in output)) }
    {
        self.result(SLICE)
    }

    /// The kept result of its perimeters.
    pub(crate) fn perimeters(&self) -> Result<Shared<FffOutput>, NoMemory>
        requires kept { IsKept self.now.kept.now self.now.config.now self.now.object.now self.now.place steps.perimeters }
        ensures value { IfOk result (λ output. output ≡ Perimeters (perimeters_for self.now.config.now self.now.object.now)) }
        ensures layers { IfOk result (λ output. length (inner_in output) ≡ layers_for self.now.config.now self.now.object.now) }
    {
        self.result(PERIMETERS)
    }

    /// The kept result of its surfaces.
    pub(crate) fn surfaces(&self) -> Result<Shared<FffOutput>, NoMemory>
        requires kept { IsKept self.now.kept.now self.now.config.now self.now.object.now self.now.place steps.prepare }
        ensures value { IfOk result (λ output. output ≡ Surfaces (surface_sets_for self.now.config.now self.now.object.now)) }
        ensures layers { IfOk result (λ output. length (surfaces_in output) ≡ layers_for self.now.config.now self.now.object.now) }
    {
        self.result(PREPARE)
    }
}
