//! The slices, batch by batch.
ghost use Rattle.std.specs.Prelude.{◌≡◌, ◌<◌, ◌≤◌, true, false, length, IfOk};
ghost use Rattle.pl_tech.specs.Ran.{MatchRan};
ghost use Rattle.pl_layers.specs.Heights.{AreHeights, layer_count_of};
ghost use Rattle.pl_steps.specs.Layers.{slices_of};
ghost use Rattle.pl_batches.specs.Batches.{batches_of};

use crate::layered::{Layered, in_batches};
use pl_grid::{Plane, Planes};
use pl_layers::{Heights, Sweep, layer_count};
use pl_ports::Probe;
use pl_stl::Mesh;
use pl_tech::Ran;
use pl_units::NoMemory;
use std::alloc::Global;

// A mesh after so many quarter turns, and the heights of its layers.
#[derive(Drop)]
struct Slicing<'a> {
    mesh: &'a Mesh,
    quarter: u8,
    heights: Heights,
}

// The sweep over a mesh, and the slices of the layers that it has left below.
#[derive(Drop)]
struct Sliced<'a> {
    sweep: Sweep<'a>,
    slices: Vec<Plane>,
}

impl<'a> Layered for Slicing<'a> {
    ghost use Rattle.pl_layers.specs.Slices.{slice_of};
    ghost use Rattle.pl_steps.specs.Layers.{each};
    ghost use Rattle.pl_steps.specs.Sweeps.{standing};

    type Made = Sliced<'a>;

    ghost layers = { λ w. layer_count_of w.heights w.mesh.now };

    ghost reaches = { λ w n made. (made.sweep ≡ standing w.mesh.now w.quarter w.heights n) × (made.slices.items ≡ each n (slice_of w.mesh.now w.quarter w.heights)) };

    fn put_layer(
        &self,
        alloc: Global,
        _number: u32,
        made: &mut Sliced<'a>,
    ) -> Result<(), NoMemory> {
        let slice = made.sweep.next_layer(alloc)?;
        made.slices.push(slice)?;
        Ok(())
    }
}

/// The slices of all layers of a mesh after `quarter` quarter turns counterclockwise, from the lowest on. `quarter` is
/// below 4, and the heights are in their ranges. Before each batch of eight layers the probe is asked once, and not at
/// other times; after an answer true the work stops. The probe was not asked before. Refused only for want of memory.
pub fn slice_batches<P: Probe>(
    alloc: Global,
    mesh: &Mesh,
    quarter: u8,
    heights: Heights,
    probe: &mut P,
) -> Result<Ran<Planes>, NoMemory>
    requires quarter { quarter < 4 }
    requires heights { AreHeights heights }
    requires unasked { P.polls probe.old ≡ 0 }
    requires quiet { P.raised probe.old ≡ false }
    ensures same_aim { P.aim probe.new ≡ P.aim probe.old }
    ensures ran { IfOk result (λ r. MatchRan r (λ o. o ≡ slices_of mesh.now quarter heights) (P.raised probe.new ≡ true)) }
    ensures few { IfOk result (λ r. MatchRan r (λ o. length o ≤ 100000) (P.raised probe.new ≡ true)) }
    ensures polls { IfOk result (λ r. MatchRan r (λ _. (P.raised probe.new ≡ false) × (P.polls probe.new ≡ batches_of (layer_count_of heights mesh.now))) (P.polls probe.new ≤ batches_of (layer_count_of heights mesh.now))) }
{
    let layers = layer_count(mesh, heights);
    let work = Slicing {
        mesh,
        quarter,
        heights,
    };
    let start = Sliced {
        sweep: Sweep::of(alloc, mesh, quarter, heights)?,
        slices: Vec::new(alloc),
    };
    match in_batches(alloc, &work, layers, start, probe)? {
        Ran::Done(made) => Ok(Ran::Done(Planes::of(made.slices))),
        Ran::Stopped => Ok(Ran::Stopped),
    }
}
