//! Skirt, brim and wipe tower.
ghost use Rattle.std.specs.Prelude.{◌≡◌, ◌<◌, ◌≤◌, IfOk};
ghost use Rattle.std.specs.List.{All};
ghost use Rattle.pl_grid.specs.NearStrokes.{IsNearStroke};
ghost use Rattle.pl_adhesion.specs.NearLoops.{IsNearLoop};
ghost use Rattle.pl_model.specs.Problem.{cell_of};
ghost use Rattle.std.specs.Prelude.{◌≤ℤ◌, pos};
ghost use Rattle.pl_values.specs.PrintValues.{bed, farther};
ghost use Rattle.pl_prints.specs.Rounds.{skirt_distance, skirt_count, brim_width, skirt_round, brim_round, block_in};

use crate::options::{cells_in, flag_option, length_option, whole_option};
use pl_adhesion::{brim as brim_of, skirt as skirt_of};
use pl_grid::{Loop, Plane, Stroke};
use pl_options::{Config, Key};
use pl_tower::tower_block;
use pl_units::{Nm, NoMemory};
use std::alloc::Global;

// The longer of two lengths.
fn farther(one: &Nm, other: &Nm) -> Nm
    ensures { result ≡ farther one.now other.now }
{
    Nm(one.0.max(other.0))
}

/// How many cells the skirt is away from what stands on the bed: its distance, or the width of the brim, where that is
/// more; at most 250.
pub fn skirt_distance(config: &Config) -> u32
    ensures value { result ≡ skirt_distance config.now }
    ensures high { result ≤ 250 }
{
    let distance = length_option(config, Key::SkirtDistance);
    let width = length_option(config, Key::BrimWidth);
    cells_in(&farther(&distance, &width))
}

/// How many loops the skirt has, at most 32.
pub fn skirt_count(config: &Config) -> u8
    ensures value { result ≡ skirt_count config.now }
    ensures high { result ≤ 32 }
{
    whole_option(config, Key::Skirts) as u8
}

/// How many cells the brim is wide, at most 100.
pub fn brim_width(config: &Config) -> u8
    ensures value { result ≡ brim_width config.now }
    ensures high { result ≤ 100 }
{
    let width = length_option(config, Key::BrimWidth);
    cells_in(&width) as u8
}

/// The skirt round the cells of the bed on which something stands, outermost loop first, in cells: as many loops as the
/// option says, beyond its distance and beyond the brim. Refused only for want of memory.
pub fn skirt(alloc: Global, config: &Config, footing: &Plane) -> Result<Vec<Loop>, NoMemory>
    requires { footing.now.bounds ≡ bed }
    ensures value { IfOk result (λ loops. loops.items ≡ skirt_round config.now footing.now) }
    ensures near { IfOk result (λ loops. All IsNearLoop loops.items) }
{
    let distance = skirt_distance(config);
    let count = skirt_count(config);
    skirt_of(alloc, footing, distance, count)
}

/// The brim round the cells of the bed on which something stands, outermost loops first, in cells. Refused only for want
/// of memory.
pub fn brim(alloc: Global, config: &Config, footing: &Plane) -> Result<Vec<Loop>, NoMemory>
    requires { footing.now.bounds ≡ bed }
    ensures value { IfOk result (λ loops. loops.items ≡ brim_round config.now footing.now) }
    ensures near { IfOk result (λ loops. All IsNearLoop loops.items) }
{
    let width = brim_width(config);
    brim_of(alloc, footing, width)
}

// The column or row of cells that a length falls into that is not below 0, and at most 1,000,000,000 nm.
fn cell_of(length: &Nm) -> i32
    requires low { pos 0 ≤ℤ length.now.0 }
    requires high { length.now.0 ≤ℤ pos 1000000000 }
    ensures value { result ≡ cell_of length.now }
    ensures low { pos 0 ≤ℤ result }
    ensures high { result ≤ℤ pos 2500 }
{
    cells_in(length) as i32
}

/// The strokes of the wipe tower at a change of tools, in half cells; none where there is no tower. The changes of a height
/// are counted from 0 to 3. Refused only for want of memory.
pub fn tower(alloc: Global, config: &Config, change: u8) -> Result<Vec<Stroke>, NoMemory>
    requires { change < 4 }
    ensures value { IfOk result (λ strokes. strokes.items ≡ block_in config.now change) }
    ensures near { IfOk result (λ strokes. All IsNearStroke strokes.items) }
{
    if !flag_option(config, Key::WipeTower) {
        return Ok(Vec::new(alloc));
    }
    let x = length_option(config, Key::WipeTowerX);
    let y = length_option(config, Key::WipeTowerY);
    let width = length_option(config, Key::WipeTowerWidth);
    tower_block(alloc, cell_of(&x), cell_of(&y), cells_in(&width), change)
}
