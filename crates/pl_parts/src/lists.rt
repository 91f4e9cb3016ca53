//! The lists that a print consists of.
ghost use Rattle.std.specs.Prelude.{◌≡◌, ◌<◌, None, length};
ghost use Rattle.std.specs.Option.{option_copied};
ghost use Rattle.pl_prints.specs.Layers.{layer_in};
ghost use Rattle.pl_parts.specs.Parts.{object_at, at_place, height_of};

use crate::place::PlaceParts;
use pl_grid::Loop;
use pl_options::Config;
use pl_steps::Strokes;
use pl_tower::Tools;
use pl_units::Nm;
use std::marker::Model;

/// What a print consists of, in lists that stand elsewhere.
#[derive(Drop)]
pub struct PrintLists<'a> {
    /// The configuration, of which the G-code speaks.
    pub config: &'a Config,
    /// The heights, ascending, in nanometres above the plate.
    pub heights: &'a [Nm],
    /// The tools of each height, in order.
    pub tools: &'a [Tools],
    /// The tower's strokes of each change of tools that a height may have, in half cells of the bed.
    pub blocks: &'a [Strokes],
    /// The loops of the skirt, in cells of the bed.
    pub skirt: &'a [Loop],
    /// The loops of the brim, in cells of the bed.
    pub brim: &'a [Loop],
    /// What the object of each place is printed as, where there is one.
    pub objects: Vec<Option<PlaceParts<'a>>>,
}

impl<'a> Model for PrintLists<'a> {
    ghost use Rattle.pl_gcode.specs.SettingsOf.{settings_of};
    ghost use Rattle.pl_parts.specs.Parts.{PrintData};

    ghost Value = { PrintData };

    ghost view = { λ p. record { settings = settings_of p.config.now; heights = p.heights.now; tools = p.tools.now; blocks = p.blocks.now; skirt = p.skirt.now; brim = p.brim.now; objects = p.objects.items } };
}

impl<'a> PrintLists<'a> {
    // What the object of a place is printed as, where there is one.
    pub(crate) fn object(&self, place: u8) -> Option<&PlaceParts<'a>>
        ensures { option_copied result ≡ object_at self.now place }
    {
        match self.objects.get(usize::from(place)) {
            Some(Some(object)) => Some(object),
            _ => None,
        }
    }

    // The layer of the object of a place at height `i`, where it has one there.
    pub(crate) fn layer_at(&self, place: u8, i: u32) -> Option<u32>
        requires { i < length self.now.heights }
        ensures { result ≡ at_place self.now place None (λ object. layer_in object.layers (height_of self.now i)) }
    {
        let height = &self.heights[i as usize];
        match self.object(place) {
            Some(object) => object.layer_with_top(height),
            None => None,
        }
    }
}
