//! All that one object is printed as.
ghost use Rattle.std.specs.Prelude.{◌≡◌, ◌<◌, ◌≤◌, length, map, slice_get, IfOk};
ghost use Rattle.std.specs.Option.{option_copied};
ghost use Rattle.pl_fill.specs.Surfaces.{HaveEqualBoxes};
ghost use Rattle.pl_model.specs.Problem.{heights_for};
ghost use Rattle.pl_model.specs.Printable.{AreInBed};
ghost use Rattle.pl_values.specs.ObjectValues.{layers_for, slices_for, loop_lists_for, infill_lists_for, ironing_lists_for, supports_for, support_lists_for, tool_for, corners_for};
ghost use Rattle.pl_steps.specs.Options.{InRange};
ghost use Rattle.pl_steps.specs.Layers.{each, loops_in, infill_in, ironing_in, surfaces_of};

use crate::filling::{infill, ironing, support_strokes};
use crate::lists::{LoopLists, Loops, StrokeLists, Strokes};
use crate::options::ObjectOptions;
use crate::outlines::{PerimeterSet, perimeters};
use crate::preparing::prepare;
use crate::slicing::slices;
use crate::standing::corners;
use pl_grid::{Corner, Plane, Planes};
use pl_layers::Heights;
use pl_model::Object;
use pl_options::Config;
use pl_support::support;
use pl_units::NoMemory;
use std::alloc::Global;
use std::marker::Model;

/// All that one object is printed as: its tool, where its instances stand, its layers' heights, how many layers there are,
/// the loops and strokes of each, and for the ground the slice and the support cells of the first, where there is one.
#[derive(Drop)]
pub struct ObjectParts {
    tool: u8,
    corners: Vec<Corner>,
    heights: Heights,
    layers: u32,
    loops: LoopLists,
    infill: StrokeLists,
    ironing: StrokeLists,
    support: StrokeLists,
    first_slice: Option<Plane>,
    first_support: Option<Plane>,
}

impl Model for ObjectParts {
    ghost use Rattle.pl_steps.specs.Parts.{Parts};

    ghost Value = { Parts };

    ghost view = { λ p. record { tool = p.tool; corners = p.corners.items; heights = p.heights; layers = p.layers; loops = p.loops; infill = p.infill; ironing = p.ironing; support = p.support; first_slice = p.first_slice; first_support = p.first_support } };
}

/// What fills the layers of an object.
#[derive(Drop)]
struct Filled {
    loops: LoopLists,
    infill: StrokeLists,
    ironing: StrokeLists,
}

/// The loops and strokes of all layers by their slices, which must have one box.
fn filled_layers(
    alloc: Global,
    slices: &Planes,
    options: &ObjectOptions,
) -> Result<Filled, NoMemory>
    requires boxes { HaveEqualBoxes slices.now slices.now }
    requires few { length slices.now ≤ 100000 }
    requires options { InRange options.now }
    ensures loops { IfOk result (λ layers. layers.loops ≡ map (loops_in options.now.perimeters) slices.now) }
    ensures infill { IfOk result (λ layers. layers.infill ≡ each (length slices.now) (λ k. infill_in options.now.density (surfaces_of options.now.perimeters options.now.top options.now.bottom slices.now k) k)) }
    ensures ironing { IfOk result (λ layers. layers.ironing ≡ each (length slices.now) (λ k. ironing_in options.now.ironing (surfaces_of options.now.perimeters options.now.top options.now.bottom slices.now k).top k)) }
{
    let PerimeterSet { loops, inner } = perimeters(alloc, slices, options.perimeters)?;
    let sets = prepare(alloc, slices, &inner, options.top, options.bottom)?;
    let infill = infill(alloc, &sets, options.density)?;
    let ironing = ironing(alloc, &sets, options.ironing)?;
    Ok(Filled {
        loops,
        infill,
        ironing,
    })
}

/// The first of some planes, where there is one.
fn first_plane(planes: Planes) -> Option<Plane>
    ensures { result ≡ slice_get planes 0 }
{
    planes.into_planes().into_iter().next()
}

/// All that an object of a plate is printed as, from the configuration. Its mesh is turned by fewer than four quarters, and
/// each instance is on the bed with all its cells, as where a plate has no problem. Refused only for want of memory.
pub fn object_parts(
    alloc: Global,
    config: &Config,
    object: &Object,
) -> Result<ObjectParts, NoMemory>
    requires turned { object.now.quarter < 4 }
    requires inside { AreInBed object.now (length object.now.instances) }
    ensures tool { IfOk result (λ parts. parts.tool ≡ tool_for config.now object.now) }
    ensures corners { IfOk result (λ parts. parts.corners ≡ corners_for object.now) }
    ensures heights { IfOk result (λ parts. parts.heights ≡ heights_for config.now object.now) }
    ensures layers { IfOk result (λ parts. parts.layers ≡ layers_for config.now object.now) }
    ensures loops { IfOk result (λ parts. parts.loops ≡ loop_lists_for config.now object.now) }
    ensures infill { IfOk result (λ parts. parts.infill ≡ infill_lists_for config.now object.now) }
    ensures ironing { IfOk result (λ parts. parts.ironing ≡ ironing_lists_for config.now object.now) }
    ensures support { IfOk result (λ parts. parts.support ≡ support_lists_for config.now object.now) }
    ensures first_slice { IfOk result (λ parts. parts.first_slice ≡ slice_get (slices_for config.now object.now) 0) }
    ensures first_support { IfOk result (λ parts. parts.first_support ≡ slice_get (supports_for config.now object.now) 0) }
{
    let options = ObjectOptions::of(config, object);
    let corners = corners(alloc, object)?;
    let slices = slices(alloc, object.mesh.get(), object.quarter, options.heights)?;
    let layers = slices.planes().len() as u32;
    let Filled {
        loops,
        infill,
        ironing,
    } = filled_layers(alloc, &slices, &options)?;
    let cells = support(alloc, &slices, options.support, options.plate_only)?;
    let support = support_strokes(alloc, &cells)?;
    Ok(ObjectParts {
        tool: options.tool,
        corners,
        heights: options.heights,
        layers,
        loops,
        infill,
        ironing,
        support,
        first_slice: first_plane(slices),
        first_support: first_plane(cells),
    })
}

impl ObjectParts {
    /// The tool, from 0 to 3.
    pub fn tool(&self) -> u8
        ensures { result ≡ self.now.tool }
    {
        self.tool
    }

    /// The bed cell of each instance, in order.
    pub fn corners(&self) -> &[Corner]
        ensures { result.now ≡ self.now.corners }
    {
        self.corners.as_slice()
    }

    /// The heights of the layers.
    pub fn heights(&self) -> Heights
        ensures { result ≡ self.now.heights }
    {
        self.heights
    }

    /// How many layers there are.
    pub fn layers(&self) -> u32
        ensures { result ≡ self.now.layers }
    {
        self.layers
    }

    /// The loops of each layer, from the lowest on, in cells.
    pub fn loops(&self) -> &[Loops]
        ensures { result.now ≡ self.now.loops }
    {
        self.loops.lists()
    }

    /// The strokes that fill each layer, in half cells.
    pub fn infill(&self) -> &[Strokes]
        ensures { result.now ≡ self.now.infill }
    {
        self.infill.lists()
    }

    /// The strokes that iron each layer, in half cells.
    pub fn ironing(&self) -> &[Strokes]
        ensures { result.now ≡ self.now.ironing }
    {
        self.ironing.lists()
    }

    /// The strokes that support each layer, in half cells.
    pub fn support(&self) -> &[Strokes]
        ensures { result.now ≡ self.now.support }
    {
        self.support.lists()
    }

    /// The slice of the first layer, where there is one.
    pub fn first_slice(&self) -> Option<&Plane>
        ensures { option_copied result ≡ self.now.first_slice }
    {
        self.first_slice.as_ref()
    }

    /// The support cells of the first layer, where there is one.
    pub fn first_support(&self) -> Option<&Plane>
        ensures { option_copied result ≡ self.now.first_support }
    {
        self.first_support.as_ref()
    }
}
