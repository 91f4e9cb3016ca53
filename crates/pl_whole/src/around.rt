//! What goes round all objects of a plate.
ghost use Rattle.std.specs.Prelude.{◌≡◌, ◌≤◌, IfOk, length, map};
ghost use Rattle.std.specs.List.{range_with_len};
ghost use Rattle.pl_model.specs.Printable.{CanBePrinted};
ghost use Rattle.pl_values.specs.PrintValues.{ground_of};
ghost use Rattle.pl_prints.specs.Rounds.{block_in};
ghost use Rattle.pl_whole.specs.Printed.{around_of, objects_for};

use crate::objects::{PrintedObject, footprints};
use pl_grid::{Loop, Plane};
use pl_model::Plate;
use pl_options::Config;
use pl_prints::{brim, ground_plane, skirt, tools, tops, tower};
use pl_steps::Strokes;
use pl_tower::Tools;
use pl_units::{Nm, NoMemory};
use std::alloc::Global;
use std::marker::Model;

/// What goes round all objects of a plate: the heights of its print, the tools of each, the tower's strokes of each change of
/// tools, skirt and brim.
#[derive(Drop)]
pub(crate) struct Around {
    pub(crate) heights: Vec<Nm>,
    pub(crate) tools: Vec<Tools>,
    pub(crate) blocks: Vec<Strokes>,
    pub(crate) skirt: Vec<Loop>,
    pub(crate) brim: Vec<Loop>,
}

impl Model for Around {
    ghost use Rattle.pl_whole.specs.Printed.{AroundData};

    ghost Value = { AroundData };

    ghost view = { λ a. record { heights = a.heights.items; tools = a.tools.items; blocks = a.blocks.items; skirt = a.skirt.items; brim = a.brim.items } };
}

// The tower's strokes of each of the four changes of tools that a height may have.
fn blocks(alloc: Global, config: &Config) -> Result<Vec<Strokes>, NoMemory>
    ensures { IfOk result (λ blocks. blocks.items ≡ map (block_in config.now) (range_with_len 0 4)) }
{
    let mut blocks = Vec::new(alloc);
    for change in 0..4u8 {
        blocks.push(Strokes::of(tower(alloc, config, change)?))?;
    }
    Ok(blocks)
}

/// The cells of the bed on which the objects stand. Refused only for want of memory.
pub(crate) fn ground(
    alloc: Global,
    plate: &Plate,
    objects: &[Option<PrintedObject>],
) -> Result<Plane, NoMemory>
    requires printable { CanBePrinted plate.now }
    requires objects { objects.now ≡ objects_for plate.now }
    ensures { IfOk result (λ plane. plane ≡ ground_of plate.now) }
{
    let footprints = footprints(alloc, objects)?;
    ground_plane(alloc, plate, &footprints)
}

impl Around {
    /// What goes round the objects of a plate without a problem. Refused only for want of memory.
    #[tactic(auto, unfolding(crate::specs::Printed::around_of))]
    pub(crate) fn of(
        alloc: Global,
        plate: &Plate,
        objects: &[Option<PrintedObject>],
    ) -> Result<Around, NoMemory>
        requires printable { CanBePrinted plate.now }
        requires objects { objects.now ≡ objects_for plate.now }
        ensures around { IfOk result (λ around. around ≡ around_of plate.now) }
        ensures few { IfOk result (λ around. length around.heights ≤ 1600000) }
    {
        let ground = ground(alloc, plate, objects)?;
        let heights = tops(alloc, plate)?;
        let tools = tools(alloc, plate, &heights)?;
        Ok(Around {
            heights,
            tools,
            blocks: blocks(alloc, plate.config())?,
            skirt: skirt(alloc, plate.config(), &ground)?,
            brim: brim(alloc, plate.config(), &ground)?,
        })
    }
}
