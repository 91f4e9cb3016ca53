//! The ranges and defaults of the options.
ghost use Rattle.std.specs.Prelude.{◌≡◌};
ghost use Rattle.pl_keys.specs.Limits.{limits};
ghost use Rattle.pl_keys.specs.Table.{row};

use crate::key::Key;

/// The least and the greatest number of an option's values, and its default.
#[derive(Clone, Copy)]
pub(crate) struct Limits {
    pub least: u32,
    pub greatest: u32,
    pub default: u32,
}

// Limits by their numbers.
fn between(least: u32, greatest: u32, default: u32) -> Limits
    ensures { result ≡ record { least = least; greatest = greatest; default = default } }
{
    Limits {
        least,
        greatest,
        default,
    }
}

/// The numbers of an option's values: of a length in nanometres, of a factor in hundredths, 1 for yes, and the length of a text.
pub(crate) fn limits_of(key: Key) -> Limits
    ensures { result ≡ limits (row key) }
{
    match key {
        Key::LayerHeight | Key::FirstLayerHeight => between(20_000, 1_000_000, 200_000),
        Key::Perimeters => between(0, 32, 2),
        Key::TopSolidLayers => between(0, 100, 4),
        Key::BottomSolidLayers => between(0, 100, 3),
        Key::FillDensity => between(0, 100, 20),
        Key::Ironing | Key::SupportMaterial | Key::SupportMaterialBuildplateOnly | Key::WipeTower =>
            between(0, 1, 0),
        Key::Extruder => between(0, 4, 1),
        Key::Skirts => between(0, 32, 1),
        Key::SkirtDistance => between(0, 100_000_000, 6_000_000),
        Key::SkirtHeight => between(0, 1_000, 1),
        Key::BrimWidth => between(0, 40_000_000, 0),
        Key::WipeTowerX => between(0, 1_000_000_000, 180_000_000),
        Key::WipeTowerY => between(0, 1_000_000_000, 140_000_000),
        Key::WipeTowerWidth => between(400_000, 1_000_000_000, 60_000_000),
        Key::PerimeterSpeed => between(1, 1_000, 45),
        Key::InfillSpeed => between(1, 1_000, 80),
        Key::TravelSpeed => between(1, 1_000, 130),
        Key::Temperature => between(0, 500, 210),
        Key::FirstLayerTemperature => between(0, 500, 215),
        Key::BedTemperature | Key::FirstLayerBedTemperature => between(0, 200, 60),
        Key::FilamentDiameter => between(500_000, 5_000_000, 1_750_000),
        Key::ExtrusionMultiplier => between(1, 200, 100),
        Key::StartGcode | Key::EndGcode | Key::Notes => between(0, 65_536, 0),
    }
}
