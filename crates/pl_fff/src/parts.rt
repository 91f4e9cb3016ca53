//! What the jobs of the print hold of one object.
ghost use Rattle.std.specs.Prelude.{◌≡◌};

use crate::held::{loops_in, planes_in, strokes_in, support_cells_in, support_strokes_in};
use pl_grid::Corner;
use pl_model::Instances;
use pl_parts::PlaceParts;
use pl_prints::{Footprint, ObjectLayers};
use pl_slots::FffOutput;
use pl_units::Shared;
use std::marker::Model;

/// What an object puts on the bed, by the results of its slice and its support, and where its instances stand.
#[derive(Drop)]
pub struct Foot {
    pub(crate) slices: Shared<FffOutput>,
    pub(crate) support: Shared<FffOutput>,
    pub(crate) instances: Instances,
}

impl Model for Foot {
    ghost use Rattle.pl_fill.specs.Surfaces.{layer_at};
    ghost use Rattle.pl_prints.specs.Footprints.{Footprint};
    ghost use Rattle.pl_fff.specs.Held.{planes_in, support_cells_in};

    ghost Value = { Footprint };

    ghost view = { λ f. record { slice = layer_at (planes_in f.slices) 0; support = layer_at (support_cells_in f.support) 0; instances = f.instances } };
}

impl Foot {
    // The same, as the bed sees it.
    pub(crate) fn footprint(&self) -> Footprint
        ensures { result ≡ self.now }
    {
        Footprint::of(
            planes_in(self.slices.get()),
            support_cells_in(self.support.get()),
            self.instances.shifts(),
        )
    }
}

/// What an object is printed as: where its instances stand, its layers, and the results of its perimeters, infill, ironing
/// and support.
#[derive(Drop)]
pub struct ExportPlace {
    pub(crate) corners: Vec<Corner>,
    pub(crate) layers: ObjectLayers,
    pub(crate) perimeters: Shared<FffOutput>,
    pub(crate) infill: Shared<FffOutput>,
    pub(crate) ironing: Shared<FffOutput>,
    pub(crate) support: Shared<FffOutput>,
}

impl Model for ExportPlace {
    ghost use Rattle.pl_parts.specs.Parts.{ObjectData};
    ghost use Rattle.pl_fff.specs.Held.{loops_in, strokes_in, support_strokes_in};

    ghost Value = { ObjectData };

    ghost view = { λ p. record { corners = p.corners.items; layers = p.layers; loops = loops_in p.perimeters; infill = strokes_in p.infill; ironing = strokes_in p.ironing; support = support_strokes_in p.support } };
}

impl ExportPlace {
    // The same, as the writer of G-code sees it.
    pub(crate) fn parts(&self) -> PlaceParts
        ensures { result ≡ self.now }
    {
        PlaceParts {
            corners: &self.corners,
            layers: &self.layers,
            loops: loops_in(self.perimeters.get()),
            infill: strokes_in(self.infill.get()),
            ironing: strokes_in(self.ironing.get()),
            support: support_strokes_in(self.support.get()),
        }
    }
}
