//! The sides of a plane's cells.
ghost use Rattle.std.specs.Prelude.{◌≡◌, ◌<◌, ◌≤ℤ◌, neg_ℤ, pos};
ghost use Rattle.pl_rings.specs.Headings.{rises, to_the_right, to_the_left};
ghost use Rattle.pl_rings.specs.Sides.{rank_of, end_x, end_y};

/// Where a side goes.
#[derive(Clone, Copy, Debug, PartialEq, Eq)]
pub enum Heading {
    East,
    North,
    West,
    South,
}

/// A side of a cell, from its start; the cell is on its left.
#[derive(Clone, Copy, Debug, PartialEq, Eq)]
pub struct Side {
    pub x: i32,
    pub y: i32,
    pub heading: Heading,
}

impl Heading {
    /// This heading after a turn to the right.
    pub(crate) fn to_the_right(self) -> Heading
        ensures { result ≡ to_the_right self }
    {
        match self {
            Heading::East => Heading::South,
            Heading::North => Heading::East,
            Heading::West => Heading::North,
            Heading::South => Heading::West,
        }
    }

    /// This heading after a turn to the left.
    pub(crate) fn to_the_left(self) -> Heading
        ensures { result ≡ to_the_left self }
    {
        match self {
            Heading::East => Heading::North,
            Heading::North => Heading::West,
            Heading::West => Heading::South,
            Heading::South => Heading::East,
        }
    }

    /// Whether the end of a side with this heading is a later point than its start: a point of a higher row, or
    /// one to the right in the same row.
    pub(crate) fn rises(self) -> bool
        ensures { result ≡ rises self }
    {
        match self {
            Heading::East | Heading::North => true,
            Heading::West | Heading::South => false,
        }
    }

    /// The place of this heading in the order of east, north, west, south.
    pub(crate) fn rank(self) -> usize
        ensures value { result ≡ rank_of self }
        ensures small { result < 4 }
    {
        match self {
            Heading::East => 0,
            Heading::North => 1,
            Heading::West => 2,
            Heading::South => 3,
        }
    }
}

/// The column of the point where a side with this heading ends that starts at column `x`.
pub(crate) fn end_x(x: i32, heading: Heading) -> i32
    requires low { neg_ℤ (pos 90000) ≤ℤ x }
    requires high { x ≤ℤ pos 90000 }
    ensures value { result ≡ end_x x heading }
    ensures low { neg_ℤ (pos 100000) ≤ℤ result }
    ensures high { result ≤ℤ pos 100000 }
{
    match heading {
        Heading::East => x + 1,
        Heading::West => x - 1,
        _ => x,
    }
}

/// The row of the point where a side with this heading ends that starts at row `y`.
pub(crate) fn end_y(y: i32, heading: Heading) -> i32
    requires low { neg_ℤ (pos 90000) ≤ℤ y }
    requires high { y ≤ℤ pos 90000 }
    ensures value { result ≡ end_y y heading }
    ensures low { neg_ℤ (pos 100000) ≤ℤ result }
    ensures high { result ≤ℤ pos 100000 }
{
    match heading {
        Heading::North => y + 1,
        Heading::South => y - 1,
        _ => y,
    }
}
