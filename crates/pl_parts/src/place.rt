//! What the object of a place is printed as.
ghost use Rattle.std.specs.Prelude.{◌≡◌, [], slice_index_or};
ghost use Rattle.pl_layers.specs.Heights.{layer_height_of};
ghost use Rattle.pl_prints.specs.Layers.{layer_in};

use pl_grid::{Corner, Loop, Stroke};
use pl_layers::layer_height;
use pl_prints::ObjectLayers;
use pl_steps::{Loops, Strokes};
use pl_units::Nm;
use std::marker::Model;

/// What the object of a place is printed as; the layers from the lowest on.
#[derive(Drop)]
pub struct PlaceParts<'a> {
    /// The bed cell of each instance, in order.
    pub corners: &'a [Corner],
    /// The tool, and the heights and number of the layers.
    pub layers: &'a ObjectLayers,
    /// The loops of each layer's perimeters, in cells of the object.
    pub loops: &'a [Loops],
    /// The strokes that fill each layer, in half cells of the object.
    pub infill: &'a [Strokes],
    /// The strokes that iron each layer, in half cells of the object.
    pub ironing: &'a [Strokes],
    /// The strokes that support each layer, in half cells of the object.
    pub support: &'a [Strokes],
}

impl<'a> Model for PlaceParts<'a> {
    ghost use Rattle.pl_parts.specs.Parts.{ObjectData};

    ghost Value = { ObjectData };

    ghost view = { λ p. record { corners = p.corners.now; layers = p.layers.now; loops = p.loops.now; infill = p.infill.now; ironing = p.ironing.now; support = p.support.now } };
}

// The loops of a layer, and none where there is no such layer.
fn loops_at(lists: &[Loops], k: u32) -> &[Loop]
    ensures { result.now ≡ slice_index_or lists.now k [] }
{
    match lists.get(k as usize) {
        Some(loops) => loops.loops(),
        None => &[],
    }
}

/// The strokes of a number in a list, and none where the list is shorter.
pub(crate) fn strokes_at(lists: &[Strokes], k: u32) -> &[Stroke]
    ensures { result.now ≡ slice_index_or lists.now k [] }
{
    match lists.get(k as usize) {
        Some(strokes) => strokes.strokes(),
        None => &[],
    }
}

impl<'a> PlaceParts<'a> {
    // The tool, from 0 to 3.
    pub(crate) fn tool(&self) -> u8
        ensures { result ≡ self.now.layers.tool }
    {
        self.layers.tool()
    }

    // The bed cell of each instance, in order.
    pub(crate) fn instances(&self) -> &[Corner]
        ensures { result.now ≡ self.now.corners }
    {
        self.corners
    }

    // The layer with this top.
    pub(crate) fn layer_with_top(&self, top: &Nm) -> Option<u32>
        ensures { result ≡ layer_in self.now.layers top.now.0 }
    {
        self.layers.layer_with_top(top)
    }

    // The height of a layer.
    pub(crate) fn layer_height(&self, k: u32) -> Nm
        ensures { result ≡ layer_height_of self.now.layers.heights k }
    {
        layer_height(self.layers.heights(), k)
    }

    // The loops of a layer.
    pub(crate) fn loops(&self, k: u32) -> &[Loop]
        ensures { result.now ≡ slice_index_or self.now.loops k [] }
    {
        loops_at(self.loops, k)
    }

    // The strokes that fill a layer.
    pub(crate) fn infill(&self, k: u32) -> &[Stroke]
        ensures { result.now ≡ slice_index_or self.now.infill k [] }
    {
        strokes_at(self.infill, k)
    }

    // The strokes that iron a layer.
    pub(crate) fn ironing(&self, k: u32) -> &[Stroke]
        ensures { result.now ≡ slice_index_or self.now.ironing k [] }
    {
        strokes_at(self.ironing, k)
    }

    // The strokes that support a layer.
    pub(crate) fn support(&self, k: u32) -> &[Stroke]
        ensures { result.now ≡ slice_index_or self.now.support k [] }
    {
        strokes_at(self.support, k)
    }
}
