//! Points of the bed.
ghost use Rattle.std.specs.Prelude.{◌≡◌, ◌≤◌, ◌^◌, ◌++◌, length, ◌+ℤ◌, ◌*ℤ◌, ◌-ℤ◌, pos, unsigned_abs};
ghost use Rattle.pl_units.specs.Within.{Within};
ghost use Rattle.pl_gcode.specs.Paths.{shifted, shifted_corner, spot_of, start_of, end_of, distance, spot_text};

use pl_grid::{Corner, Stroke};
use pl_units::Line;
use std::marker::Model;

/// A point of the bed, in half cells of 200,000 nm: a corner or an end of a stroke, moved by whole cells.
#[derive(Drop)]
pub(crate) struct Spot {
    x: i64,
    y: i64,
}

impl Model for Spot {
    ghost use Rattle.pl_gcode.specs.Paths.{Spot};
    ghost use Rattle.pl_gcode.specs.Ranges.{IsSpot};

    ghost Value = { Spot };

    ghost view = { λ p. record { x = p.x; y = p.y } };

    ghost invariant = { λ p. IsSpot (record { x = p.x; y = p.y }) };
}

// A coordinate in half cells, moved by whole cells.
fn moved(at: i32, by: i32) -> i64
    ensures value { result ≡ at +ℤ pos 2 *ℤ by }
    ensures near { Within (2 ^ 33) (at +ℤ pos 2 *ℤ by) }
{
    i64::from(at) + 2 * i64::from(by)
}

// A coordinate in whole cells, moved by whole cells, in half cells.
fn moved_cell(at: i32, by: i32) -> i64
    ensures value { result ≡ pos 2 *ℤ at +ℤ pos 2 *ℤ by }
    ensures near { Within (2 ^ 33) (pos 2 *ℤ at +ℤ pos 2 *ℤ by) }
{
    2 * i64::from(at) + 2 * i64::from(by)
}

// How far two coordinates are apart.
fn apart(from: &i64, to: &i64) -> u64
    requires from { Within (2 ^ 33) from.now }
    requires to { Within (2 ^ 33) to.now }
    ensures value { result ≡ unsigned_abs (to.now -ℤ from.now) }
    ensures near { result ≤ 2 ^ 34 }
{
    (*to - *from).unsigned_abs()
}

// A coordinate in micrometres.
fn micrometres(at: &i64) -> i64
    requires { Within (2 ^ 33) at.now }
    ensures { result ≡ pos 200 *ℤ at.now }
{
    200 * *at
}

impl Spot {
    /// A corner, moved by whole cells.
    pub(crate) fn of_corner(corner: &Corner, by: &Corner) -> Spot
        ensures { result ≡ shifted_corner by.now corner.now }
    {
        Spot {
            x: moved_cell(corner.x, by.x),
            y: moved_cell(corner.y, by.y),
        }
    }

    /// The start of a stroke, moved by whole cells.
    pub(crate) fn start(stroke: &Stroke, by: &Corner) -> Spot
        ensures { result ≡ shifted by.now (start_of stroke.now) }
    {
        Spot {
            x: moved(stroke.x0, by.x),
            y: moved(stroke.y0, by.y),
        }
    }

    /// The end of a stroke, moved by whole cells.
    pub(crate) fn end(stroke: &Stroke, by: &Corner) -> Spot
        ensures { result ≡ shifted by.now (end_of stroke.now) }
    {
        Spot {
            x: moved(stroke.x1, by.x),
            y: moved(stroke.y1, by.y),
        }
    }

    /// Puts the words of a move to the point in front of the rest of its line.
    pub(crate) fn put(&self, line: &mut Line)
        requires { length line.old ≤ 60 }
        ensures { line.new ≡ spot_text self.now ++ line.old }
    {
        line.put_fixed(micrometres(&self.y), 3);
        line.put(b" Y");
        line.put_fixed(micrometres(&self.x), 3);
        line.put(b"G1 X");
    }

    /// How far the other point is, along x and along y together, in nanometres.
    pub(crate) fn distance(&self, to: &Spot) -> u64
        ensures value { result ≡ distance self.now to.now }
        ensures near { result ≤ 9007199254740992 }
    {
        (apart(&self.x, &to.x) + apart(&self.y, &to.y)) * 200_000
    }
}
