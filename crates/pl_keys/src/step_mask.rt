//! Sets of kinds of step, and the steps that an option touches.
ghost use Rattle.std.specs.Prelude.{◌≡◌, ℕ, ◌<◌, ◌≤◌, ◌^◌, ◌==◌, ◌||◌, false};
ghost use Rattle.pl_keys.specs.declared.key.Key.{Key};
ghost use Rattle.pl_keys.specs.Steps.{has};
ghost use Rattle.pl_keys.specs.Table.{touches};

use crate::key::Key;
use std::marker::Model;

const SLICE: u8 = 0;

const PERIMETERS: u8 = 1;

const PREPARE: u8 = 2;

const INFILL: u8 = 3;

const IRONING: u8 = 4;

const SUPPORT: u8 = 5;

const TOWER: u8 = 6;

const SKIRT: u8 = 7;

const BRIM: u8 = 8;

const EXPORT: u8 = 9;

/// A set of the ten kinds of step: 0 slice, 1 perimeters, 2 prepare, 3 infill, 4 ironing, 5 support, 6 tower, 7 skirt,
/// 8 brim, 9 export.
#[derive(Clone, Copy, PartialEq, Eq, Debug)]
pub struct StepMask {
    bits: u16,
}

impl Model for StepMask {
    ghost Value = { ℕ };

    ghost view = { λ m. m.bits };

    ghost invariant = { λ m. m.bits < 2 ^ 10 };

    ghost inverse = { λ n. record { bits = n } };
}

impl StepMask {
    /// No step.
    pub fn empty() -> StepMask
        ensures { (step : ℕ) → has result step ≡ false }
    {
        StepMask { bits: 0 }
    }

    /// The set and this step.
    pub fn with(self, kind: u8) -> StepMask
        requires { kind < 10 }
        ensures { (step : ℕ) → has result step ≡ ((kind == step) || has self step) }
    {
        StepMask {
            bits: self.bits | (1u16 << kind),
        }
    }

    /// Whether a kind of step is in the set: of the numbers from 10 on none is.
    pub fn has(&self, kind: u8) -> bool
        ensures value { result ≡ has self.now kind }
        ensures kinds { (step : ℕ) → 10 ≤ step → has self.now step ≡ false }
    {
        kind < 10 && (self.bits >> kind) & 1 == 1
    }
}

/// The steps that a change of an option touches directly.
pub fn direct_steps(key: Key) -> StepMask
    ensures { (step : ℕ) → has result step ≡ touches key step }
{
    match key {
        Key::LayerHeight | Key::FirstLayerHeight => StepMask::empty().with(SLICE),
        Key::Perimeters => StepMask::empty().with(PERIMETERS),
        Key::TopSolidLayers | Key::BottomSolidLayers => StepMask::empty().with(PREPARE),
        Key::FillDensity => StepMask::empty().with(INFILL),
        Key::Ironing => StepMask::empty().with(IRONING),
        Key::SupportMaterial | Key::SupportMaterialBuildplateOnly => {
            StepMask::empty().with(SUPPORT)
        }
        Key::Extruder | Key::WipeTower | Key::WipeTowerX | Key::WipeTowerY | Key::WipeTowerWidth =>
            StepMask::empty().with(TOWER),
        Key::Skirts | Key::SkirtDistance | Key::SkirtHeight => StepMask::empty().with(SKIRT),
        Key::BrimWidth => StepMask::empty().with(BRIM).with(SKIRT),
        Key::PerimeterSpeed
        | Key::InfillSpeed
        | Key::TravelSpeed
        | Key::Temperature
        | Key::FirstLayerTemperature
        | Key::BedTemperature
        | Key::FirstLayerBedTemperature
        | Key::FilamentDiameter
        | Key::ExtrusionMultiplier
        | Key::StartGcode
        | Key::EndGcode => StepMask::empty().with(EXPORT),
        Key::Notes => StepMask::empty(),
    }
}
