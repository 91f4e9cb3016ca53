//! Points, facets and meshes.
ghost use Rattle.std.specs.Prelude.{◌≡◌, ℕ, ◌≤◌, length, IfOk};

use crate::span::{Part, Span, span_of};
use pl_units::Nm;
use std::marker::Model;

/// A point, each coordinate in nanometres.
#[derive(Clone, Copy, Debug, PartialEq, Eq)]
pub struct Point3 {
    pub x: Nm,
    pub y: Nm,
    pub z: Nm,
}

/// A triangle by its three corners, in the order in which the text has them.
#[derive(Clone, Copy, Debug, PartialEq, Eq)]
pub struct Facet {
    pub a: Point3,
    pub b: Point3,
    pub c: Point3,
}

/// A list of 1 to 300,000 facets, each coordinate at most 1,000,000,000 nm in size, and how far they reach.
#[derive(Debug, Drop)]
pub struct Mesh {
    facets: Vec<Facet>,
    x: Span,
    y: Span,
    z: Span,
}

impl Model for Mesh {
    ghost use Rattle.std.specs.Prelude.{List};
    ghost use Rattle.pl_stl.specs.Mesh.{IsMesh};
    ghost use Rattle.pl_stl.specs.Spans.{KnowsSpans};
    ghost use Rattle.pl_stl.specs.declared.mesh.Facet.{Facet};

    ghost Value = { List Facet };

    ghost view = { λ m. m.facets.items };

    ghost invariant = { λ m. KnowsSpans m.facets.items m.x m.y m.z };
}

impl Mesh {
    ghost use Rattle.pl_stl.specs.Mesh.{IsMesh};
    ghost use Rattle.pl_stl.specs.Spans.{part_of, IsSpan};

    /// A mesh of these facets.
    pub fn of(facets: Vec<Facet>) -> Mesh
        requires { IsMesh facets.items }
        ensures { result ≡ facets.items }
    {
        let x = span_of(&facets, Part::X);
        let y = span_of(&facets, Part::Y);
        let z = span_of(&facets, Part::Z);
        Mesh { facets, x, y, z }
    }

    /// The facets, in order.
    pub fn facets(&self) -> &[Facet]
        ensures facets { result.now ≡ self.now }
        ensures mesh { IsMesh self.now }
    {
        &self.facets
    }

    /// From the least to the greatest of one coordinate of all corners. No facet is looked at: a mesh keeps it.
    pub fn span(&self, which: Part) -> Span
        ensures { IsSpan (part_of which) self.now result }
    {
        match which {
            Part::X => self.x,
            Part::Y => self.y,
            Part::Z => self.z,
        }
    }
}
