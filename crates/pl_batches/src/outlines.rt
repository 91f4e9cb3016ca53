//! The perimeters, batch by batch.
ghost use Rattle.std.specs.Prelude.{◌≡◌, ◌≤◌, true, false, length, map, IfOk};
ghost use Rattle.pl_tech.specs.Ran.{MatchRan};
ghost use Rattle.pl_steps.specs.Layers.{loops_in, inner_of};
ghost use Rattle.pl_batches.specs.Batches.{batches_of};

use crate::layered::{Layered, in_batches};
use pl_grid::{Plane, Planes};
use pl_ports::Probe;
use pl_steps::{LayerPerimeters, LoopLists, Loops, PerimeterSet, layer_perimeters};
use pl_tech::Ran;
use pl_units::NoMemory;
use std::alloc::Global;

// The slices, and how many perimeters each has.
#[derive(Clone, Copy)]
struct Outlining<'a> {
    slices: &'a Planes,
    count: u8,
}

// The loops of the layers that are done, and the planes that they leave.
#[derive(Drop)]
struct Outlines {
    loops: Vec<Loops>,
    inner: Vec<Plane>,
}

impl Layered for Outlining<'_> {
    ghost use Rattle.std.specs.Prelude.{take};

    type Made = Outlines;

    ghost layers = { λ w. length w.slices.now };

    ghost reaches = { λ w n made. (made.loops.items ≡ map (loops_in w.count) (take n w.slices.now)) × (made.inner.items ≡ inner_of w.count (take n w.slices.now)) };

    fn put_layer(&self, alloc: Global, number: u32, made: &mut Outlines) -> Result<(), NoMemory> {
        let slice = &self.slices.planes()[number as usize];
        let LayerPerimeters { loops, inner } = layer_perimeters(alloc, slice, self.count)?;
        made.loops.push(loops)?;
        made.inner.push(inner)?;
        Ok(())
    }
}

/// The perimeters of all layers, `count` of each, from their slices, at most 100,000: the loops, and the planes that
/// they leave. Before each batch of eight layers the probe is asked once, and not at other times; after an answer true
/// the work stops. The probe was not asked before. Refused only for want of memory.
pub fn perimeter_batches<P: Probe>(
    alloc: Global,
    slices: &Planes,
    count: u8,
    probe: &mut P,
) -> Result<Ran<PerimeterSet>, NoMemory>
    requires few { length slices.now ≤ 100000 }
    requires unasked { P.polls probe.old ≡ 0 }
    requires quiet { P.raised probe.old ≡ false }
    ensures same_aim { P.aim probe.new ≡ P.aim probe.old }
    ensures loops { IfOk result (λ r. MatchRan r (λ o. o.loops ≡ map (loops_in count) slices.now) (P.raised probe.new ≡ true)) }
    ensures inner { IfOk result (λ r. MatchRan r (λ o. o.inner ≡ inner_of count slices.now) (P.raised probe.new ≡ true)) }
    ensures polls { IfOk result (λ r. MatchRan r (λ _. (P.raised probe.new ≡ false) × (P.polls probe.new ≡ batches_of (length slices.now))) (P.polls probe.new ≤ batches_of (length slices.now))) }
{
    let layers = slices.planes().len() as u32;
    let start = Outlines {
        loops: Vec::new(alloc),
        inner: Vec::new(alloc),
    };
    match in_batches(alloc, &Outlining { slices, count }, layers, start, probe)? {
        Ran::Done(Outlines { loops, inner }) => Ok(Ran::Done(PerimeterSet {
            loops: LoopLists::of(loops),
            inner: Planes::of(inner),
        })),
        Ran::Stopped => Ok(Ran::Stopped),
    }
}
