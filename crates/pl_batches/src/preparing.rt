//! The surfaces, batch by batch.
ghost use Rattle.std.specs.Prelude.{◌≡◌, ◌≤◌, true, false, length, IfOk};
ghost use Rattle.pl_tech.specs.Ran.{MatchRan};
ghost use Rattle.pl_fill.specs.Surfaces.{HaveEqualBoxes};
ghost use Rattle.pl_steps.specs.Layers.{each, surfaces_at};
ghost use Rattle.pl_batches.specs.Batches.{batches_of};

use crate::layered::{Layered, in_batches};
use pl_fill::SurfaceSet;
use pl_grid::Planes;
use pl_ports::Probe;
use pl_steps::{Surfaces, layer_surfaces};
use pl_tech::Ran;
use pl_units::NoMemory;
use std::alloc::Global;

// The slices and the inner planes, and how many slices above and below a cell are to have it.
#[derive(Drop)]
struct Preparing<'a> {
    slices: &'a Planes,
    inner: &'a Planes,
    top: u8,
    bottom: u8,
    ghost boxes: { HaveEqualBoxes slices.now inner.now },
    ghost lengths: { length slices.now ≡ length inner.now },
}

impl Layered for Preparing<'_> {
    type Made = Vec<SurfaceSet>;

    ghost layers = { λ w. length w.inner.now };

    ghost reaches = { λ w n sets. sets.items ≡ each n (surfaces_at w.slices.now w.inner.now w.top w.bottom) };

    fn put_layer(
        &self,
        alloc: Global,
        number: u32,
        sets: &mut Vec<SurfaceSet>,
    ) -> Result<(), NoMemory> {
        let Preparing {
            slices,
            inner,
            top,
            bottom,
        } = self;
        let set = layer_surfaces(alloc, slices, inner, number, *top, *bottom)?;
        sets.push(set)?;
        Ok(())
    }
}

/// The surfaces of all layers, at most 100,000, from their slices and their inner planes, which must be as many and
/// have one box: cells are solid where one of the `bottom` slices below or the `top` slices above lacks them. Before
/// each batch of eight layers the probe is asked once, and not at other times; after an answer true the work stops. The
/// probe was not asked before. Refused only for want of memory.
pub fn surface_batches<P: Probe>(
    alloc: Global,
    slices: &Planes,
    inner: &Planes,
    top: u8,
    bottom: u8,
    probe: &mut P,
) -> Result<Ran<Surfaces>, NoMemory>
    requires boxes { HaveEqualBoxes slices.now inner.now }
    requires lengths { length slices.now ≡ length inner.now }
    requires few { length inner.now ≤ 100000 }
    requires unasked { P.polls probe.old ≡ 0 }
    requires quiet { P.raised probe.old ≡ false }
    ensures same_aim { P.aim probe.new ≡ P.aim probe.old }
    ensures ran { IfOk result (λ r. MatchRan r (λ o. o ≡ each (length inner.now) (surfaces_at slices.now inner.now top bottom)) (P.raised probe.new ≡ true)) }
    ensures polls { IfOk result (λ r. MatchRan r (λ _. (P.raised probe.new ≡ false) × (P.polls probe.new ≡ batches_of (length inner.now))) (P.polls probe.new ≤ batches_of (length inner.now))) }
{
    let layers = inner.planes().len() as u32;
    let work = Preparing {
        slices,
        inner,
        top,
        bottom,
    };
    match in_batches(alloc, &work, layers, Vec::new(alloc), probe)? {
        Ran::Done(sets) => Ok(Ran::Done(Surfaces::of(sets))),
        Ran::Stopped => Ok(Ran::Stopped),
    }
}
