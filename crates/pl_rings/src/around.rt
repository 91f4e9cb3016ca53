//! The cells round a point, and the sides that meet there.
ghost use Rattle.std.specs.Prelude.{◌≡◌, ◌≤ℤ◌, neg_ℤ, pos, false};
ghost use Rattle.pl_grid.specs.Extent.{IsNear};
ghost use Rattle.pl_rings.specs.Headings.{leaves, turn};
ghost use Rattle.pl_rings.specs.Sides.{around};
ghost use Rattle.pl_rings.specs.Starts.{start_heading};

use crate::side::Heading;
use pl_grid::Plane;

/// Whether the cell above and to the right of a point is filled.
fn northeast(plane: &Plane, x: i32, y: i32) -> bool
    requires { IsNear x y }
    ensures { result ≡ (around plane.now x y).northeast }
{
    plane.get(x, y)
}

/// Whether the cell above and to the left of a point is filled.
fn northwest(plane: &Plane, x: i32, y: i32) -> bool
    requires { neg_ℤ (pos 100000) ≤ℤ x }
    ensures { result ≡ (around plane.now x y).northwest }
{
    plane.get(x - 1, y)
}

/// Whether the cell below and to the left of a point is filled.
fn southwest(plane: &Plane, x: i32, y: i32) -> bool
    requires { IsNear x y }
    ensures { result ≡ (around plane.now x y).southwest }
{
    northwest(plane, x, y - 1)
}

/// Whether the cell below and to the right of a point is filled.
fn southeast(plane: &Plane, x: i32, y: i32) -> bool
    requires { IsNear x y }
    ensures { result ≡ (around plane.now x y).southeast }
{
    plane.get(x, y - 1)
}

/// Whether a side leaves the point with this heading.
pub(crate) fn leaves(plane: &Plane, x: i32, y: i32, heading: Heading) -> bool
    requires { IsNear x y }
    ensures { result ≡ leaves (around plane.now x y) heading }
{
    match heading {
        Heading::East => northeast(plane, x, y) && !southeast(plane, x, y),
        Heading::North => northwest(plane, x, y) && !northeast(plane, x, y),
        Heading::West => southwest(plane, x, y) && !northwest(plane, x, y),
        Heading::South => southeast(plane, x, y) && !southwest(plane, x, y),
    }
}

/// The heading of the side that follows one that arrives with this heading and does not go on straight.
pub(crate) fn turn(plane: &Plane, x: i32, y: i32, heading: Heading) -> Heading
    requires near { IsNear x y }
    requires corner { leaves (around plane.now x y) heading ≡ false }
    ensures { result ≡ turn (around plane.now x y) heading }
{
    let right = heading.to_the_right();
    if leaves(plane, x, y, right) {
        return right;
    }
    heading.to_the_left()
}

/// The heading of the side that leaves the point and may be the least of its loop.
pub(crate) fn start_heading(plane: &Plane, x: i32, y: i32) -> Option<Heading>
    requires { IsNear x y }
    ensures { result ≡ start_heading (around plane.now x y) }
{
    let northwest = northwest(plane, x, y);
    let northeast = northeast(plane, x, y);
    if northwest == northeast {
        return None;
    }
    let southeast = southeast(plane, x, y);
    if northwest && southeast {
        return Some(Heading::North);
    }
    if northwest || southeast || southwest(plane, x, y) {
        return None;
    }
    Some(Heading::East)
}
