//! The parts of a print, as the writer of G-code asks for them.
ghost use Rattle.std.specs.Prelude.{◌≡◌, ◌<◌, ◌^◌, length};
ghost use Rattle.pl_parts.specs.Parts.{IsPrintData, filled_places};

use crate::lists::PrintLists;
use crate::place::strokes_at;
use pl_gcode::Parts;
use pl_grid::{Corner, Loop, Stroke};
use pl_options::Config;
use pl_units::Nm;
use std::marker::Model;

/// The lists of a print of which G-code is written, and its filled places.
#[derive(Drop)]
pub struct PrintParts<'a> {
    lists: PrintLists<'a>,
    places: Vec<u8>,
}

impl<'a> Model for PrintParts<'a> {
    ghost use Rattle.std.specs.Prelude.{◌≡◌};
    ghost use Rattle.pl_parts.specs.Parts.{PrintData, IsPrintData, filled_places};

    ghost Value = { PrintData };

    ghost view = { λ p. p.lists };

    ghost invariant = { λ p. IsPrintData p.lists × (p.places.items ≡ filled_places p.lists) };
}

impl<'a> PrintParts<'a> {
    /// Those of lists that are a print's: a height has one to four tools, heights rise by 1 to 1,000,000 nm and are fewer
    /// than 2^32, and there are at most sixteen places. `places` are the filled ones, ascending. It takes no memory.
    pub fn of(lists: PrintLists<'a>, places: Vec<u8>) -> PrintParts<'a>
        requires print { IsPrintData lists }
        requires places { places.items ≡ filled_places lists }
        ensures { result ≡ lists.entry }
    {
        PrintParts { lists, places }
    }

    /// How many heights there are.
    pub(crate) fn height_count(&self) -> u32
        ensures { result ≡ length self.now.heights }
    {
        self.lists.heights.len() as u32
    }
}

impl<'a> Parts for PrintParts<'a> {
    ghost use Rattle.pl_parts.specs.Parts.{print_from};

    ghost print = { print_from };

    fn config(&self) -> &Config {
        self.lists.config
    }

    fn heights(&self) -> &[Nm] {
        self.lists.heights
    }

    fn tools(&self, i: u32) -> &[u8] {
        match self.lists.tools.get(i as usize) {
            Some(tools) => tools.tools(),
            None => &[],
        }
    }

    fn block(&self, _: u32, change: u8) -> &[Stroke] {
        strokes_at(self.lists.blocks, u32::from(change))
    }

    fn skirt(&self) -> &[Loop] {
        self.lists.skirt
    }

    fn brim(&self) -> &[Loop] {
        self.lists.brim
    }

    fn places(&self) -> &[u8] {
        &self.places
    }

    fn tool(&self, place: u8) -> u8 {
        match self.lists.object(place) {
            Some(object) => object.tool(),
            None => 0,
        }
    }

    fn instances(&self, place: u8) -> &[Corner] {
        match self.lists.object(place) {
            Some(object) => object.instances(),
            None => &[],
        }
    }

    fn layer_at(&self, place: u8, i: u32) -> Option<u32> {
        self.lists.layer_at(place, i)
    }

    fn layer_height(&self, place: u8, k: u32) -> Nm {
        match self.lists.object(place) {
            Some(object) => object.layer_height(k),
            None => Nm(0),
        }
    }

    fn loops(&self, place: u8, k: u32) -> &[Loop] {
        match self.lists.object(place) {
            Some(object) => object.loops(k),
            None => &[],
        }
    }

    fn infill(&self, place: u8, k: u32) -> &[Stroke] {
        match self.lists.object(place) {
            Some(object) => object.infill(k),
            None => &[],
        }
    }

    fn ironing(&self, place: u8, k: u32) -> &[Stroke] {
        match self.lists.object(place) {
            Some(object) => object.ironing(k),
            None => &[],
        }
    }

    fn support(&self, place: u8, k: u32) -> &[Stroke] {
        match self.lists.object(place) {
            Some(object) => object.support(k),
            None => &[],
        }
    }
}
