//! How a path is printed.
ghost use Rattle.std.specs.Prelude.{◌≡◌, ◌≤◌, ◌+◌, ◌*◌, ◌++◌, length, pos, unsigned_abs};
ghost use Rattle.std.specs.Fmt.{decimal};
ghost use Rattle.pl_gcode.specs.Gcode.{perimeter_pace, infill_pace, ironing_pace};
ghost use Rattle.pl_gcode.specs.IsPrint.{IsTrack};
ghost use Rattle.pl_gcode.specs.Paths.{amount};

use crate::filament::extrusion;
use crate::settings::Settings;
use crate::spot::Spot;
use pl_units::{Line, Nm};
use std::marker::Model;

/// The feed in mm per second, the height of the track, and the percent of the extrusion.
#[derive(Drop)]
pub(crate) struct Pace {
    speed: u32,
    height: Nm,
    percent: u16,
}

impl Model for Pace {
    ghost use Rattle.pl_gcode.specs.Paths.{Pace};
    ghost use Rattle.pl_gcode.specs.Ranges.{IsPace};

    ghost Value = { Pace };

    ghost view = { λ p. record { speed = p.speed; height = p.height; percent = p.percent } };

    ghost invariant = { λ p. IsPace (record { speed = p.speed; height = p.height; percent = p.percent }) };
}

impl Pace {
    /// The pace of a speed up to 1,000 mm per second at the height of a track, with up to 200 percent of the extrusion.
    pub(crate) fn of(speed: u32, height: &Nm, percent: u32) -> Pace
        requires speed { speed ≤ 1000 }
        requires track { IsTrack height.now }
        requires percent { percent ≤ 200 }
        ensures { result ≡ record { speed = speed; height = height.now; percent = percent } }
    {
        Pace {
            speed,
            height: *height,
            percent: percent as u16,
        }
    }

    /// Puts the feed, in mm per minute, in front of the rest of its line.
    pub(crate) fn put_feed(&self, line: &mut Line)
        requires { length line.old ≤ 108 }
        ensures text { line.new ≡ decimal (self.now.speed * 60) ++ line.old }
        ensures size { length line.new ≤ length line.old + 20 }
    {
        line.put_whole(u64::from(self.speed) * 60);
    }

    // The filament of a way of up to 2^53 nm, in 0.00001 mm.
    pub(crate) fn amount(&self, settings: &Settings, from: &Spot, to: &Spot) -> i64
        ensures { result ≡ pos (amount settings.now self.now from.now to.now) }
    {
        extrusion(
            Nm(from.distance(to) as i64),
            self.height,
            settings.filament_diameter(),
            self.percent,
        )
    }
}
