//! Options and their names.
ghost use Rattle.std.specs.Prelude.{◌≡◌, ◌≢◌, ◌<◌, ℕ, Some, IfSome, IfNone, slice_get};
ghost use Rattle.pl_keys.specs.declared.key.Key.{Key};
ghost use Rattle.pl_keys.specs.Keys.{keys, place, is_object_key};
ghost use Rattle.pl_keys.specs.Table.{row, named};

/// An option, in the order of the table.
#[derive(Clone, Copy, Debug, PartialEq, Eq, PartialOrd, Ord, Hash)]
pub enum Key {
    /// The height of each layer but the first.
    LayerHeight,
    /// The height of the first layer.
    FirstLayerHeight,
    /// How many rings follow the outline.
    Perimeters,
    /// How many layers below a top are solid.
    TopSolidLayers,
    /// How many layers above a bottom are solid.
    BottomSolidLayers,
    /// How much of the inside is filled, in percent.
    FillDensity,
    /// Whether tops are ironed.
    Ironing,
    /// Whether overhangs are supported.
    SupportMaterial,
    /// Whether support stands on the bed alone.
    SupportMaterialBuildplateOnly,
    /// The tool of an object, from 1; 0 stands for 1.
    Extruder,
    /// How many loops the skirt has.
    Skirts,
    /// The distance of the skirt.
    SkirtDistance,
    /// How many layers the skirt has.
    SkirtHeight,
    /// The width of the brim.
    BrimWidth,
    /// Whether there is a wipe tower.
    WipeTower,
    /// Where the wipe tower stands, to the right.
    WipeTowerX,
    /// Where the wipe tower stands, upwards.
    WipeTowerY,
    /// The width of the wipe tower.
    WipeTowerWidth,
    /// The speed along perimeters, in millimetres a second.
    PerimeterSpeed,
    /// The speed of infill, in millimetres a second.
    InfillSpeed,
    /// The speed where nothing is extruded, in millimetres a second.
    TravelSpeed,
    /// The nozzle's temperature.
    Temperature,
    /// The nozzle's temperature at the first layer.
    FirstLayerTemperature,
    /// The bed's temperature.
    BedTemperature,
    /// The bed's temperature at the first layer.
    FirstLayerBedTemperature,
    /// The diameter of the filament.
    FilamentDiameter,
    /// How much is extruded, in hundredths.
    ExtrusionMultiplier,
    /// Commands before the print.
    StartGcode,
    /// Commands after the print.
    EndGcode,
    /// Words that nothing reads.
    Notes,
}

/// What an option's values are.
#[derive(Clone, Copy, Debug, PartialEq, Eq)]
pub enum Kind {
    /// A length in nanometres, written in millimetres.
    Length,
    /// A whole number.
    Whole,
    /// A whole number, perhaps written with a percent sign.
    Percent,
    /// A whole number of hundredths, written as a decimal.
    Factor,
    /// Yes or no, written `1` or `0`.
    Flag,
    /// Bytes.
    Text,
}

// All options, in the order of the table.
static KEYS: [Key; 30] = [
    Key::LayerHeight,
    Key::FirstLayerHeight,
    Key::Perimeters,
    Key::TopSolidLayers,
    Key::BottomSolidLayers,
    Key::FillDensity,
    Key::Ironing,
    Key::SupportMaterial,
    Key::SupportMaterialBuildplateOnly,
    Key::Extruder,
    Key::Skirts,
    Key::SkirtDistance,
    Key::SkirtHeight,
    Key::BrimWidth,
    Key::WipeTower,
    Key::WipeTowerX,
    Key::WipeTowerY,
    Key::WipeTowerWidth,
    Key::PerimeterSpeed,
    Key::InfillSpeed,
    Key::TravelSpeed,
    Key::Temperature,
    Key::FirstLayerTemperature,
    Key::BedTemperature,
    Key::FirstLayerBedTemperature,
    Key::FilamentDiameter,
    Key::ExtrusionMultiplier,
    Key::StartGcode,
    Key::EndGcode,
    Key::Notes,
];

/// All thirty options, in the order of the table.
pub fn all_keys() -> &'static [Key]
    ensures { result.now ≡ keys }
{
    &KEYS
}

/// The place of an option in the table, from 0 to 29.
pub fn place_of(key: Key) -> usize
    ensures place { result ≡ place key }
    ensures below { result < 30 }
    ensures there { slice_get keys result ≡ Some key }
{
    key as usize
}

/// Whether objects may have values of this option of their own: the first ten of the table.
pub fn is_object_key(key: Key) -> bool
    ensures { result ≡ is_object_key key }
{
    place_of(key) < 10
}

/// The name of an option, as settings texts and scripts write it.
pub fn name_of(key: Key) -> &'static [u8]
    ensures { result.now ≡ (row key).name }
{
    match key {
        Key::LayerHeight => b"layer_height",
        Key::FirstLayerHeight => b"first_layer_height",
        Key::Perimeters => b"perimeters",
        Key::TopSolidLayers => b"top_solid_layers",
        Key::BottomSolidLayers => b"bottom_solid_layers",
        Key::FillDensity => b"fill_density",
        Key::Ironing => b"ironing",
        Key::SupportMaterial => b"support_material",
        Key::SupportMaterialBuildplateOnly => b"support_material_buildplate_only",
        Key::Extruder => b"extruder",
        Key::Skirts => b"skirts",
        Key::SkirtDistance => b"skirt_distance",
        Key::SkirtHeight => b"skirt_height",
        Key::BrimWidth => b"brim_width",
        Key::WipeTower => b"wipe_tower",
        Key::WipeTowerX => b"wipe_tower_x",
        Key::WipeTowerY => b"wipe_tower_y",
        Key::WipeTowerWidth => b"wipe_tower_width",
        Key::PerimeterSpeed => b"perimeter_speed",
        Key::InfillSpeed => b"infill_speed",
        Key::TravelSpeed => b"travel_speed",
        Key::Temperature => b"temperature",
        Key::FirstLayerTemperature => b"first_layer_temperature",
        Key::BedTemperature => b"bed_temperature",
        Key::FirstLayerBedTemperature => b"first_layer_bed_temperature",
        Key::FilamentDiameter => b"filament_diameter",
        Key::ExtrusionMultiplier => b"extrusion_multiplier",
        Key::StartGcode => b"start_gcode",
        Key::EndGcode => b"end_gcode",
        Key::Notes => b"notes",
    }
}

// The first option of a name.
fn first_named(name: &[u8]) -> Option<Key>
    ensures { result ≡ named name.now }
{
    KEYS.iter().copied().find(|key| name_of(*key) == name)
}

/// The option of a name: the only one that has it. `None` exactly where no option has this name.
pub fn key_of(name: &[u8]) -> Option<Key>
    ensures some { IfSome result (λ key. (row key).name ≡ name.now) }
    ensures only { (key : Key) → (row key).name ≡ name.now → result ≡ Some key }
    ensures none { IfNone result ((key : Key) → (row key).name ≢ name.now) }
    ensures same { result ≡ named name.now }
{
    first_named(name)
}

/// What an option's values are.
pub fn kind_of(key: Key) -> Kind
    ensures { result ≡ (row key).kind }
{
    match key {
        Key::LayerHeight
        | Key::FirstLayerHeight
        | Key::SkirtDistance
        | Key::BrimWidth
        | Key::WipeTowerX
        | Key::WipeTowerY
        | Key::WipeTowerWidth
        | Key::FilamentDiameter => Kind::Length,
        Key::FillDensity => Kind::Percent,
        Key::ExtrusionMultiplier => Kind::Factor,
        Key::Ironing | Key::SupportMaterial | Key::SupportMaterialBuildplateOnly | Key::WipeTower =>
            Kind::Flag,
        Key::StartGcode | Key::EndGcode | Key::Notes => Kind::Text,
        _ => Kind::Whole,
    }
}
