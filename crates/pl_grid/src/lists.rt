//! Lists of corners and of planes.
ghost use Rattle.std.specs.Prelude.{◌≡◌};

use crate::plane::Plane;
use crate::stroke::Corner;
use std::marker::Model;

/// A closed way along the sides of cells, as its corners in order, in cells; the last joins the first.
#[derive(Debug, Drop)]
pub struct Loop {
    corners: Vec<Corner>,
}

impl Model for Loop {
    ghost use Rattle.std.specs.Prelude.{List};
    ghost use Rattle.pl_grid.specs.declared.stroke.Corner.{Corner};

    ghost Value = { List Corner };

    ghost view = { λ l. l.corners.items };
}

impl Loop {
    /// The loop of these corners. It takes no memory.
    pub fn of(corners: Vec<Corner>) -> Loop
        ensures { result ≡ corners.items }
    {
        Loop { corners }
    }

    /// The corners in order.
    pub fn corners(&self) -> &[Corner]
        ensures { result.now ≡ self.now }
    {
        self.corners.as_slice()
    }

    /// The corners in order, given back. It takes no memory.
    pub fn into_corners(self) -> Vec<Corner>
        ensures { result.items ≡ self }
    {
        self.corners
    }
}

/// Planes in order, each of any box.
#[derive(Debug, Drop)]
pub struct Planes {
    planes: Vec<Plane>,
}

impl Model for Planes {
    ghost use Rattle.std.specs.Prelude.{List};
    ghost use Rattle.pl_grid.specs.Planes.{Cells};

    ghost Value = { List Cells };

    ghost view = { λ l. l.planes.items };
}

impl Planes {
    /// The list of these planes. It takes no memory.
    pub fn of(planes: Vec<Plane>) -> Planes
        ensures { result ≡ planes.items }
    {
        Planes { planes }
    }

    /// The planes in order.
    pub fn planes(&self) -> &[Plane]
        ensures { result.now ≡ self.now }
    {
        self.planes.as_slice()
    }

    /// The planes in order, given back. It takes no memory.
    pub fn into_planes(self) -> Vec<Plane>
        ensures { result.items ≡ self }
    {
        self.planes
    }
}
