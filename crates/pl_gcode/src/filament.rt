//! How much filament a move takes.
ghost use Rattle.std.specs.Prelude.{◌≡◌, ◌<◌, ◌≤◌, ◌*◌, ◌^◌, ◌≤ℤ◌, pos, unsigned_abs};
ghost use Rattle.pl_gcode.specs.Extrusion.{area_of, extrusion_of};

use pl_units::Nm;

/// The filament that a move takes, in 0.00001 mm, rounded down: `len` from 0 to 2^53 nm, `height` from 1 to
/// 1,000,000 nm, `diameter` from 500,000 to 5,000,000 nm, `percent` from 0 to 200.
pub fn extrusion(len: Nm, height: Nm, diameter: Nm, percent: u16) -> i64
    requires len_low { pos 0 ≤ℤ len.0 }
    requires len_high { len.0 ≤ℤ pos 9007199254740992 }
    requires height_low { pos 1 ≤ℤ height.0 }
    requires height_high { height.0 ≤ℤ pos 1000000 }
    requires diameter_low { pos 500000 ≤ℤ diameter.0 }
    requires diameter_high { diameter.0 ≤ℤ pos 5000000 }
    requires percent { percent ≤ 200 }
    ensures { result ≡ pos (extrusion_of (unsigned_abs len.0) (unsigned_abs height.0) (unsigned_abs diameter.0) percent) }
{
    extruded(
        len.0.unsigned_abs(),
        height.0.unsigned_abs(),
        diameter.0.unsigned_abs(),
        percent,
    ) as i64
}

// The same over sizes.
fn extruded(len: u64, height: u64, diameter: u64, percent: u16) -> u64
    requires len { len ≤ 9007199254740992 }
    requires height { height ≤ 1000000 }
    requires diameter_low { 500000 ≤ diameter }
    requires diameter_high { diameter ≤ 5000000 }
    requires percent { percent ≤ 200 }
    ensures value { result ≡ extrusion_of len height diameter percent }
    ensures small { result < 2 ^ 63 }
{
    let area = area(diameter);
    if len <= 230_000_000 {
        return short_volume(len, height, percent) / area;
    }
    (volume(len, height, percent) / u128::from(area)) as u64
}

// The volume of the track of a short move, in percent of a thousand cubic nanometres.
fn short_volume(len: u64, height: u64, percent: u16) -> u64
    requires len { len ≤ 230000000 }
    requires height { height ≤ 1000000 }
    requires percent { percent ≤ 200 }
    ensures { result ≡ len * 400 * height * percent }
{
    len * 400 * height * u64::from(percent)
}

// The volume of the track, in percent of a thousand cubic nanometres.
fn volume(len: u64, height: u64, percent: u16) -> u128
    requires len { len ≤ 9007199254740992 }
    requires height { height ≤ 1000000 }
    requires percent { percent ≤ 200 }
    ensures value { result ≡ len * 400 * height * percent }
    ensures small { result ≤ 720575940379279360000000000 }
{
    u128::from(len) * 400 * u128::from(height) * u128::from(percent)
}

// The area of the filament's section.
fn area(diameter: u64) -> u64
    requires low { 500000 ≤ diameter }
    requires high { diameter ≤ 5000000 }
    ensures value { result ≡ area_of diameter }
    ensures low { 190000000000 ≤ result }
{
    355 * diameter * diameter / 452
}
