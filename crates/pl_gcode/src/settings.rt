//! The settings that the text speaks of.
ghost use Rattle.std.specs.Prelude.{◌≡◌, ◌≤◌, ◌+◌, ◌*◌, ◌++◌, length, ◌≤ℤ◌, pos, true, IsTrue};
ghost use Rattle.std.specs.FinMap as map;
ghost use Rattle.std.specs.Fmt.{decimal};
ghost use Rattle.pl_keys.specs.declared.key.Kind.TheVariants as kinds;
ghost use Rattle.pl_keys.specs.Table.{row};
ghost use Rattle.pl_keys.specs.Values.{is_whole};
ghost use Rattle.pl_gcode.specs.Gcode.{perimeter_pace, infill_pace, ironing_pace};
ghost use Rattle.pl_gcode.specs.IsPrint.{IsTrack};
ghost use Rattle.pl_gcode.specs.SettingsOf.{settings_of, whole_in, length_in, words_in};

use crate::pace::Pace;
use pl_options::{Config, Key, Value};
use pl_units::{Digits, Line, Nm};
use std::marker::Model;

/// Speeds in mm per second, temperatures in degrees, the multiplier in hundredths, each in the range of its option.
#[derive(Drop)]
pub(crate) struct Settings<'a> {
    perimeter_speed: u32,
    infill_speed: u32,
    travel_speed: u32,
    temperature: u32,
    first_layer_temperature: u32,
    bed_temperature: u32,
    first_layer_bed_temperature: u32,
    filament_diameter: Nm,
    extrusion_multiplier: u32,
    skirt_height: u32,
    start_gcode: &'a [u8],
    end_gcode: &'a [u8],
}

impl<'a> Model for Settings<'a> {
    ghost use Rattle.pl_gcode.specs.Print.{Settings};
    ghost use Rattle.pl_gcode.specs.SettingsOf.{InRange};

    ghost Value = { Settings };

    ghost view = { λ s. record { perimeter_speed = s.perimeter_speed; infill_speed = s.infill_speed; travel_speed = s.travel_speed; temperature = s.temperature; first_layer_temperature = s.first_layer_temperature; bed_temperature = s.bed_temperature; first_layer_bed_temperature = s.first_layer_bed_temperature; filament_diameter = s.filament_diameter; extrusion_multiplier = s.extrusion_multiplier; skirt_height = s.skirt_height; start_gcode = s.start_gcode.now; end_gcode = s.end_gcode.now } };

    ghost invariant = { λ s. InRange (record { perimeter_speed = s.perimeter_speed; infill_speed = s.infill_speed; travel_speed = s.travel_speed; temperature = s.temperature; first_layer_temperature = s.first_layer_temperature; bed_temperature = s.bed_temperature; first_layer_bed_temperature = s.first_layer_bed_temperature; filament_diameter = s.filament_diameter; extrusion_multiplier = s.extrusion_multiplier; skirt_height = s.skirt_height; start_gcode = s.start_gcode.now; end_gcode = s.end_gcode.now }) };
}

// The number that an option has.
fn whole_of(config: &Config, key: Key) -> u32
    requires kind { is_whole (row key).kind ≡ true }
    requires small { (row key).greatest ≤ 1000 }
    ensures value { result ≡ whole_in (map.get config.now key) }
    ensures high { result ≤ (row key).greatest }
{
    match config.get(key) {
        Value::Whole(number) => *number as u32,
        _ => 0,
    }
}

// The length that an option has.
fn length_of(config: &Config, key: Key) -> Nm
    requires kind { (row key).kind ≡ kinds.Length }
    ensures value { result ≡ length_in (map.get config.now key) }
    ensures low { pos (row key).least ≤ℤ result.0 }
    ensures high { result.0 ≤ℤ pos (row key).greatest }
{
    match config.get(key) {
        Value::Length(length) => *length,
        _ => Nm(0),
    }
}

// The bytes that an option has.
fn words_of(config: &Config, key: Key) -> &[u8]
    ensures { result.now ≡ words_in (map.get config.now key) }
{
    match config.get(key) {
        Value::Words(words) => words.bytes(),
        _ => &[],
    }
}

impl<'a> Settings<'a> {
    /// The settings of a configuration.
    pub(crate) fn of(config: &'a Config) -> Settings<'a>
        ensures { result ≡ settings_of config.now }
    {
        Settings {
            perimeter_speed: whole_of(config, Key::PerimeterSpeed),
            infill_speed: whole_of(config, Key::InfillSpeed),
            travel_speed: whole_of(config, Key::TravelSpeed),
            temperature: whole_of(config, Key::Temperature),
            first_layer_temperature: whole_of(config, Key::FirstLayerTemperature),
            bed_temperature: whole_of(config, Key::BedTemperature),
            first_layer_bed_temperature: whole_of(config, Key::FirstLayerBedTemperature),
            filament_diameter: length_of(config, Key::FilamentDiameter),
            extrusion_multiplier: whole_of(config, Key::ExtrusionMultiplier),
            skirt_height: whole_of(config, Key::SkirtHeight),
            start_gcode: words_of(config, Key::StartGcode),
            end_gcode: words_of(config, Key::EndGcode),
        }
    }

    /// The feed of moves without extrusion, in mm per minute.
    pub(crate) fn travel_feed(&self) -> Digits
        ensures { result ≡ decimal (self.now.travel_speed * 60) }
    {
        Digits::whole(u64::from(self.travel_speed) * 60)
    }

    /// Puts the feed of moves without extrusion, in mm per minute, in front of the rest of its line.
    pub(crate) fn put_travel_feed(&self, line: &mut Line)
        requires { length line.old ≤ 108 }
        ensures text { line.new ≡ decimal (self.now.travel_speed * 60) ++ line.old }
        ensures size { length line.new ≤ length line.old + 20 }
    {
        line.put_whole(u64::from(self.travel_speed) * 60);
    }

    /// The pace of perimeters in a track of a height.
    pub(crate) fn perimeter_pace(&self, height: &Nm) -> Pace
        requires { IsTrack height.now }
        ensures { result ≡ perimeter_pace self.now height.now }
    {
        Pace::of(self.perimeter_speed, height, self.extrusion_multiplier)
    }

    /// The pace of infill, support and tower in a track of a height.
    pub(crate) fn infill_pace(&self, height: &Nm) -> Pace
        requires { IsTrack height.now }
        ensures { result ≡ infill_pace self.now height.now }
    {
        Pace::of(self.infill_speed, height, self.extrusion_multiplier)
    }

    /// The pace of ironing in a track of a height.
    pub(crate) fn ironing_pace(&self, height: &Nm) -> Pace
        requires { IsTrack height.now }
        ensures { result ≡ ironing_pace self.now height.now }
    {
        Pace::of(
            self.infill_speed,
            height,
            self.extrusion_multiplier * 15 / 100,
        )
    }

    /// The diameter of the filament.
    pub(crate) fn filament_diameter(&self) -> Nm
        ensures value { result ≡ self.now.filament_diameter }
        ensures low { pos 500000 ≤ℤ result.0 }
        ensures high { result.0 ≤ℤ pos 5000000 }
    {
        self.filament_diameter
    }

    /// How many heights have the skirt.
    pub(crate) fn skirt_height(&self) -> u32
        ensures { result ≡ self.now.skirt_height }
    {
        self.skirt_height
    }

    /// The nozzle's temperature at the first layer.
    pub(crate) fn first_nozzle(&self) -> Digits
        ensures { result ≡ decimal self.now.first_layer_temperature }
    {
        Digits::whole(u64::from(self.first_layer_temperature))
    }

    /// The bed's temperature at the first layer.
    pub(crate) fn first_bed(&self) -> Digits
        ensures { result ≡ decimal self.now.first_layer_bed_temperature }
    {
        Digits::whole(u64::from(self.first_layer_bed_temperature))
    }

    /// The nozzle's temperature at the other layers.
    pub(crate) fn nozzle(&self) -> Digits
        ensures { result ≡ decimal self.now.temperature }
    {
        Digits::whole(u64::from(self.temperature))
    }

    /// The bed's temperature at the other layers.
    pub(crate) fn bed(&self) -> Digits
        ensures { result ≡ decimal self.now.bed_temperature }
    {
        Digits::whole(u64::from(self.bed_temperature))
    }

    /// The commands before the print.
    pub(crate) fn start_gcode(&self) -> &[u8]
        ensures { result.now ≡ self.now.start_gcode }
    {
        self.start_gcode
    }

    /// The commands after the print.
    pub(crate) fn end_gcode(&self) -> &[u8]
        ensures { result.now ≡ self.now.end_gcode }
    {
        self.end_gcode
    }
}
