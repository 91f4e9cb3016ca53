//! The results of slots.
ghost use Rattle.std.specs.Prelude.{◌≡◌};
ghost use Rattle.pl_slots.specs.Outputs.{output_bytes};

use pl_grid::Planes;
use pl_layers::Heights;
use pl_steps::{Loops, PerimeterSet, StrokeLists, SupportSet, Surfaces};
use pl_tower::Tools;
use pl_units::{Nm, Text};
use std::marker::Model;

/// Lengths in order, in nanometres.
#[derive(Debug, Drop)]
pub struct Lengths {
    lengths: Vec<Nm>,
}

impl Model for Lengths {
    ghost use Rattle.std.specs.Prelude.{List};
    ghost use Rattle.pl_units.specs.declared.Nm.{Nm};

    ghost Value = { List Nm };

    ghost view = { λ l. l.lengths.items };
}

impl Lengths {
    /// The list of these lengths. It takes no memory.
    pub fn of(lengths: Vec<Nm>) -> Lengths
        ensures { result ≡ lengths.items }
    {
        Lengths { lengths }
    }

    /// The lengths in order.
    pub fn lengths(&self) -> &[Nm]
        ensures { result.now ≡ self.now }
    {
        self.lengths.as_slice()
    }
}

/// The tools of each height of a print, from the lowest on.
#[derive(Debug, Drop)]
pub struct ToolLists {
    lists: Vec<Tools>,
}

impl Model for ToolLists {
    ghost use Rattle.std.specs.Prelude.{ℕ, List};

    ghost Value = { List (List ℕ) };

    ghost view = { λ l. l.lists.items };
}

impl ToolLists {
    /// The list of the heights' tools. It takes no memory.
    pub fn of(lists: Vec<Tools>) -> ToolLists
        ensures { result ≡ lists.items }
    {
        ToolLists { lists }
    }

    /// The heights' tools in order.
    pub fn lists(&self) -> &[Tools]
        ensures { result.now ≡ self.now }
    {
        self.lists.as_slice()
    }
}

/// The layers of an object.
#[derive(Debug, Drop)]
pub struct Sliced {
    /// The heights of its layers.
    pub heights: Heights,
    /// The cells of each layer, from the lowest on.
    pub planes: Planes,
}

/// The heights of a print, and what the wipe tower has to change there.
#[derive(Debug, Drop)]
pub struct TowerSet {
    /// The heights, ascending and each once.
    pub heights: Lengths,
    /// The tools of each height in order.
    pub tools: ToolLists,
    /// The tower's strokes of the first, second, third and fourth change of a height.
    pub blocks: StrokeLists,
}

/// The result of a slot.
#[derive(Drop)]
pub enum FffOutput {
    /// Of an object: the heights of its layers, and their slices.
    Slices(Sliced),
    /// Of an object: the loops of each layer's perimeters, and the planes inside them.
    Perimeters(PerimeterSet),
    /// Of an object: the cells of each layer that are solid, sparse and on top.
    Surfaces(Surfaces),
    /// Of an object: the strokes of each layer's infill or ironing.
    Strokes(StrokeLists),
    /// Of an object: the support cells of each layer and their strokes.
    Support(SupportSet),
    /// Of the print: its heights and tools, and the strokes of the wipe tower.
    Tower(TowerSet),
    /// Of the print: the loops of its skirt or brim.
    Loops(Loops),
    /// Of the print: its G-code.
    Gcode(Text),
}

impl FffOutput {
    /// The bytes of a result: those of the G-code, and none of any other.
    pub fn bytes(&self) -> &[u8]
        ensures { result.now ≡ output_bytes self.now }
    {
        match self {
            FffOutput::Gcode(text) => text.bytes(),
            _ => &[],
        }
    }
}
