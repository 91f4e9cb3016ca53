//! The infill and the ironing, batch by batch.
ghost use Rattle.std.specs.Prelude.{◌≡◌, ◌≤◌, true, false, length, IfOk};
ghost use Rattle.pl_tech.specs.Ran.{MatchRan};
ghost use Rattle.pl_steps.specs.Layers.{each, infill_at, ironing_at};
ghost use Rattle.pl_batches.specs.Batches.{batches_of};

use crate::layered::{Layered, in_batches};
use pl_ports::Probe;
use pl_steps::{StrokeLists, Strokes, Surfaces, layer_infill, layer_ironing};
use pl_tech::Ran;
use pl_units::NoMemory;
use std::alloc::Global;

// The surfaces of the layers, and how dense their sparse cells are filled, as a percentage.
#[derive(Drop)]
struct Filling<'a> {
    sets: &'a Surfaces,
    density: u8,
    ghost percentage: { density ≤ 100 },
}

impl Layered for Filling<'_> {
    type Made = Vec<Strokes>;

    ghost layers = { λ w. length w.sets.now };

    ghost reaches = { λ w n lists. lists.items ≡ each n (infill_at w.sets.now w.density) };

    fn put_layer(
        &self,
        alloc: Global,
        number: u32,
        lists: &mut Vec<Strokes>,
    ) -> Result<(), NoMemory> {
        let set = &self.sets.sets()[number as usize];
        lists.push(layer_infill(alloc, set, number, self.density)?)?;
        Ok(())
    }
}

// The surfaces of the layers, and whether they are to be ironed.
#[derive(Clone, Copy)]
struct Ironing<'a> {
    sets: &'a Surfaces,
    on: bool,
}

impl Layered for Ironing<'_> {
    type Made = Vec<Strokes>;

    ghost layers = { λ w. length w.sets.now };

    ghost reaches = { λ w n lists. lists.items ≡ each n (ironing_at w.on w.sets.now) };

    fn put_layer(
        &self,
        alloc: Global,
        number: u32,
        lists: &mut Vec<Strokes>,
    ) -> Result<(), NoMemory> {
        let set = &self.sets.sets()[number as usize];
        lists.push(layer_ironing(alloc, &set.top, number, self.on)?)?;
        Ok(())
    }
}

/// The strokes that fill each layer, at most 100,000, by their surfaces, in half cells; sparse cells as dense as the
/// percentage says, 0 to 100. Before each batch of eight layers the probe is asked once, and not at other times; after
/// an answer true the work stops. The probe was not asked before. Refused only for want of memory.
pub fn infill_batches<P: Probe>(
    alloc: Global,
    sets: &Surfaces,
    density: u8,
    probe: &mut P,
) -> Result<Ran<StrokeLists>, NoMemory>
    requires few { length sets.now ≤ 100000 }
    requires density { density ≤ 100 }
    requires unasked { P.polls probe.old ≡ 0 }
    requires quiet { P.raised probe.old ≡ false }
    ensures same_aim { P.aim probe.new ≡ P.aim probe.old }
    ensures ran { IfOk result (λ r. MatchRan r (λ o. o ≡ each (length sets.now) (infill_at sets.now density)) (P.raised probe.new ≡ true)) }
    ensures polls { IfOk result (λ r. MatchRan r (λ _. (P.raised probe.new ≡ false) × (P.polls probe.new ≡ batches_of (length sets.now))) (P.polls probe.new ≤ batches_of (length sets.now))) }
{
    let layers = sets.sets().len() as u32;
    let work = Filling { sets, density };
    match in_batches(alloc, &work, layers, Vec::new(alloc), probe)? {
        Ran::Done(lists) => Ok(Ran::Done(StrokeLists::of(lists))),
        Ran::Stopped => Ok(Ran::Stopped),
    }
}

/// The strokes that iron each layer, at most 100,000, by its top cells, where it is to be ironed, in half cells. Before
/// each batch of eight layers the probe is asked once, and not at other times; after an answer true the work stops. The
/// probe was not asked before. Refused only for want of memory.
pub fn ironing_batches<P: Probe>(
    alloc: Global,
    sets: &Surfaces,
    on: bool,
    probe: &mut P,
) -> Result<Ran<StrokeLists>, NoMemory>
    requires few { length sets.now ≤ 100000 }
    requires unasked { P.polls probe.old ≡ 0 }
    requires quiet { P.raised probe.old ≡ false }
    ensures same_aim { P.aim probe.new ≡ P.aim probe.old }
    ensures ran { IfOk result (λ r. MatchRan r (λ o. o ≡ each (length sets.now) (ironing_at on sets.now)) (P.raised probe.new ≡ true)) }
    ensures polls { IfOk result (λ r. MatchRan r (λ _. (P.raised probe.new ≡ false) × (P.polls probe.new ≡ batches_of (length sets.now))) (P.polls probe.new ≤ batches_of (length sets.now))) }
{
    let layers = sets.sets().len() as u32;
    match in_batches(alloc, &Ironing { sets, on }, layers, Vec::new(alloc), probe)? {
        Ran::Done(lists) => Ok(Ran::Done(StrokeLists::of(lists))),
        Ran::Stopped => Ok(Ran::Stopped),
    }
}
