//! The support, batch by batch.
ghost use Rattle.std.specs.Prelude.{◌≡◌, ◌≤◌, ◌<◌, ◌+◌, ◌*◌, ◌++◌, ◌∷◌, [], true, false, length, reverse, IfOk, AllPairs};
ghost use Rattle.pl_grid.specs.Strokes.{strokes_of};
ghost use Rattle.pl_fill.specs.Layers.{layer_axis};
ghost use Rattle.pl_tech.specs.Ran.{MatchRan};
ghost use Rattle.pl_support.specs.Support.{support_at, support_of};
ghost use Rattle.pl_steps.specs.Layers.{each, support_in};
ghost use Rattle.pl_batches.specs.Batches.{batches_of};
ghost use Rattle.pl_batches.specs.Passes.{AfterSteps, from_top, strokes_at};

use crate::layered::{Layered, in_batches};
use pl_grid::{Plane, Planes};
use pl_ports::Probe;
use pl_steps::{StrokeLists, Strokes, SupportSet, layer_support};
use pl_support::{
    cells_below, cells_over_plate, covered_with, highest_cells, no_cells, nothing_covered,
};
use pl_tech::Ran;
use pl_units::NoMemory;
use std::alloc::Global;

// The support of the layers that are done.
#[derive(Drop)]
struct Supports {
    cells: Vec<Plane>,
    strokes: Vec<Strokes>,
}

impl Supports {
    // That of no layer.
    fn new(alloc: Global) -> Supports
        ensures cells { result.cells.items ≡ [] }
        ensures strokes { result.strokes.items ≡ [] }
    {
        Supports {
            cells: Vec::new(alloc),
            strokes: Vec::new(alloc),
        }
    }

    // Puts the cells of the layer `k` behind the others, and their strokes.
    fn put(&mut self, alloc: Global, cells: Plane, k: u32) -> Result<(), NoMemory>
        ensures cells { IfOk result (λ _. self.new.cells.items ≡ self.old.cells.items ++ cells ∷ []) }
        ensures strokes { IfOk result (λ _. self.new.strokes.items ≡ self.old.strokes.items ++ strokes_of (layer_axis k) 2 cells ∷ []) }
    {
        let strokes = layer_support(alloc, &cells, k)?;
        self.cells.push(cells)?;
        self.strokes.push(strokes)?;
        Ok(())
    }

    // The same layers the other way round.
    fn turned(self) -> Supports
        ensures cells { result.cells.items ≡ reverse self.cells.items }
        ensures strokes { result.strokes.items ≡ reverse self.strokes.items }
    {
        let Supports {
            mut cells,
            mut strokes,
        } = self;
        cells.reverse();
        strokes.reverse();
        Supports { cells, strokes }
    }

    // The lists of all layers.
    fn into_set(self) -> SupportSet
        ensures cells { result.cells ≡ self.cells.items }
        ensures strokes { result.strokes ≡ self.strokes.items }
    {
        let Supports { cells, strokes } = self;
        SupportSet {
            cells: Planes::of(cells),
            strokes: StrokeLists::of(strokes),
        }
    }
}

// No support, from the lowest layer up.
#[derive(Clone, Copy)]
struct Nowhere<'a> {
    slices: &'a [Plane],
}

impl Layered for Nowhere<'_> {
    type Made = Supports;

    ghost layers = { λ w. length w.slices.now };

    ghost reaches = { λ w n made. (made.cells.items ≡ each n (support_at false false w.slices.now)) × (made.strokes.items ≡ each n (strokes_at (support_at false false w.slices.now))) };

    fn put_layer(&self, alloc: Global, number: u32, made: &mut Supports) -> Result<(), NoMemory> {
        let cells = no_cells(alloc, self.slices, number as usize)?;
        made.put(alloc, cells, number)?;
        Ok(())
    }
}

// No support of any layer.
fn unsupported<P: Probe>(
    alloc: Global,
    slices: &[Plane],
    probe: &mut P,
) -> Result<Ran<SupportSet>, NoMemory>
    requires few { length slices.now ≤ 100000 }
    requires unasked { P.polls probe.old ≡ 0 }
    requires quiet { P.raised probe.old ≡ false }
    ensures same_aim { P.aim probe.new ≡ P.aim probe.old }
    ensures cells { IfOk result (λ r. MatchRan r (λ o. o.cells ≡ support_of false false slices.now) (P.raised probe.new ≡ true)) }
    ensures strokes { IfOk result (λ r. MatchRan r (λ o. o.strokes ≡ each (length o.cells) (support_in o.cells)) (P.raised probe.new ≡ true)) }
    ensures polls { IfOk result (λ r. MatchRan r (λ _. (P.raised probe.new ≡ false) × (P.polls probe.new ≡ batches_of (length slices.now))) (P.polls probe.new ≤ batches_of (length slices.now))) }
{
    let layers = slices.len() as u32;
    let start = Supports::new(alloc);
    match in_batches(alloc, &Nowhere { slices }, layers, start, probe)? {
        Ran::Done(made) => Ok(Ran::Done(made.into_set())),
        Ran::Stopped => Ok(Ran::Stopped),
    }
}

// The support cells of the next layer down, from those of the layers above it, the highest first.
fn next_down(alloc: Global, slices: &[Plane], found: &[Plane]) -> Result<Plane, NoMemory>
    requires boxes { AllPairs (λ p q. p.bounds ≡ q.bounds) slices.now }
    requires found { found.now ≡ each (length found.now) (from_top (length slices.now) (support_at true false slices.now)) }
    requires more { length found.now < length slices.now }
    ensures { IfOk result (λ p. p ≡ from_top (length slices.now) (support_at true false slices.now) (length found.now)) }
{
    if found.is_empty() {
        return highest_cells(alloc, slices);
    }
    let above = &found[found.len() - 1];
    cells_below(alloc, slices, above, slices.len() - 1 - found.len())
}

// The support below all overhangs, from the highest layer down.
#[derive(Drop)]
struct Everywhere<'a> {
    slices: &'a [Plane],
    ghost boxes: { AllPairs (λ p q. p.bounds ≡ q.bounds) slices.now },
    ghost few: { length slices.now ≤ 100000 },
}

impl Layered for Everywhere<'_> {
    type Made = Supports;

    ghost layers = { λ w. length w.slices.now };

    ghost reaches = { λ w n made. (made.cells.items ≡ each n (from_top (length w.slices.now) (support_at true false w.slices.now))) × (made.strokes.items ≡ each n (from_top (length w.slices.now) (strokes_at (support_at true false w.slices.now)))) };

    fn put_layer(&self, alloc: Global, number: u32, made: &mut Supports) -> Result<(), NoMemory> {
        let cells = next_down(alloc, self.slices, &made.cells)?;
        let k = self.slices.len() - 1 - number as usize;
        made.put(alloc, cells, k as u32)?;
        Ok(())
    }
}

// The support below all overhangs.
fn below_overhangs<P: Probe>(
    alloc: Global,
    slices: &[Plane],
    probe: &mut P,
) -> Result<Ran<SupportSet>, NoMemory>
    requires boxes { AllPairs (λ p q. p.bounds ≡ q.bounds) slices.now }
    requires few { length slices.now ≤ 100000 }
    requires unasked { P.polls probe.old ≡ 0 }
    requires quiet { P.raised probe.old ≡ false }
    ensures same_aim { P.aim probe.new ≡ P.aim probe.old }
    ensures cells { IfOk result (λ r. MatchRan r (λ o. o.cells ≡ support_of true false slices.now) (P.raised probe.new ≡ true)) }
    ensures strokes { IfOk result (λ r. MatchRan r (λ o. o.strokes ≡ each (length o.cells) (support_in o.cells)) (P.raised probe.new ≡ true)) }
    ensures polls { IfOk result (λ r. MatchRan r (λ _. (P.raised probe.new ≡ false) × (P.polls probe.new ≡ batches_of (length slices.now))) (P.polls probe.new ≤ batches_of (length slices.now))) }
{
    let layers = slices.len() as u32;
    let start = Supports::new(alloc);
    match in_batches(alloc, &Everywhere { slices }, layers, start, probe)? {
        Ran::Done(made) => Ok(Ran::Done(made.turned().into_set())),
        Ran::Stopped => Ok(Ran::Stopped),
    }
}

// What the two passes have made: the cells below all overhangs, the highest layer's first, those that are kept and their
// strokes, from the lowest layer on, and what the slices have that were passed on the way up.
#[derive(Drop)]
struct Passes {
    found: Vec<Plane>,
    kept: Supports,
    covered: Plane,
}

// The support below the overhangs with nothing of the object below them, from the highest layer down and up again.
#[derive(Drop)]
struct OverPlate<'a> {
    slices: &'a [Plane],
    ghost boxes: { AllPairs (λ p q. p.bounds ≡ q.bounds) slices.now },
    ghost few: { length slices.now ≤ 100000 },
}

impl OverPlate<'_> {
    // Takes a step of the two passes: one layer down, or one up.
    fn step(&self, alloc: Global, step: usize, made: &mut Passes) -> Result<(), NoMemory>
        requires there { step < 2 * length self.now.slices.now }
        requires before { AfterSteps self.now.slices.now step made.old.found.items made.old.kept.cells.items made.old.kept.strokes.items made.old.covered }
        ensures { IfOk result (λ _. AfterSteps self.now.slices.now (step + 1) made.new.found.items made.new.kept.cells.items made.new.kept.strokes.items made.new.covered) }
    {
        if step >= self.slices.len() {
            self.step_up(alloc, step - self.slices.len(), made)?;
            return Ok(());
        }
        let cells = next_down(alloc, self.slices, &made.found)?;
        made.found.push(cells)?;
        Ok(())
    }

    // Keeps the cells of the layer `k` that no slice below has, and passes its slice.
    fn step_up(&self, alloc: Global, k: usize, made: &mut Passes) -> Result<(), NoMemory>
        requires there { k < length self.now.slices.now }
        requires before { AfterSteps self.now.slices.now (length self.now.slices.now + k) made.old.found.items made.old.kept.cells.items made.old.kept.strokes.items made.old.covered }
        ensures { IfOk result (λ _. AfterSteps self.now.slices.now (length self.now.slices.now + k + 1) made.new.found.items made.new.kept.cells.items made.new.kept.strokes.items made.new.covered) }
    {
        let found = &made.found[self.slices.len() - 1 - k];
        let cells = cells_over_plate(alloc, self.slices, found, &made.covered, k)?;
        made.covered = covered_with(alloc, self.slices, &made.covered, k)?;
        made.kept.put(alloc, cells, k as u32)?;
        Ok(())
    }
}

impl Layered for OverPlate<'_> {
    type Made = Passes;

    ghost layers = { λ w. length w.slices.now };

    ghost reaches = { λ w n made. AfterSteps w.slices.now (2 * n) made.found.items made.kept.cells.items made.kept.strokes.items made.covered };

    fn put_layer(&self, alloc: Global, number: u32, made: &mut Passes) -> Result<(), NoMemory> {
        let step = 2 * number as usize;
        self.step(alloc, step, made)?;
        self.step(alloc, step + 1, made)?;
        Ok(())
    }
}

// The support below the overhangs with nothing of the object below them.
fn above_plate<P: Probe>(
    alloc: Global,
    slices: &[Plane],
    probe: &mut P,
) -> Result<Ran<SupportSet>, NoMemory>
    requires boxes { AllPairs (λ p q. p.bounds ≡ q.bounds) slices.now }
    requires few { length slices.now ≤ 100000 }
    requires unasked { P.polls probe.old ≡ 0 }
    requires quiet { P.raised probe.old ≡ false }
    ensures same_aim { P.aim probe.new ≡ P.aim probe.old }
    ensures cells { IfOk result (λ r. MatchRan r (λ o. o.cells ≡ support_of true true slices.now) (P.raised probe.new ≡ true)) }
    ensures strokes { IfOk result (λ r. MatchRan r (λ o. o.strokes ≡ each (length o.cells) (support_in o.cells)) (P.raised probe.new ≡ true)) }
    ensures polls { IfOk result (λ r. MatchRan r (λ _. (P.raised probe.new ≡ false) × (P.polls probe.new ≡ batches_of (length slices.now))) (P.polls probe.new ≤ batches_of (length slices.now))) }
{
    if slices.is_empty() {
        return Ok(Ran::Done(Supports::new(alloc).into_set()));
    }
    let layers = slices.len() as u32;
    let start = Passes {
        found: Vec::new(alloc),
        kept: Supports::new(alloc),
        covered: nothing_covered(alloc, slices)?,
    };
    match in_batches(alloc, &OverPlate { slices }, layers, start, probe)? {
        Ran::Done(
            Passes {
                found: _,
                kept,
                covered: _,
            },
        ) => Ok(Ran::Done(kept.into_set())),
        Ran::Stopped => Ok(Ran::Stopped),
    }
}

/// The support of all layers, at most 100,000, from their slices, which must have one box: the cells of each as
/// `pl_support::support` says, and the strokes along them, in half cells. Cells are found from the highest layer down,
/// so the first batch has the eight highest layers. With `plate_only` a second pass goes up again, and takes away what
/// the slices below have: then a layer of a batch takes two steps of the two passes, one after the other, and no batch
/// takes more than sixteen. Before each batch of eight layers the probe is asked once, and not at other times; after an
/// answer true the work stops. The probe was not asked before. Refused only for want of memory.
pub fn support_batches<P: Probe>(
    alloc: Global,
    slices: &Planes,
    on: bool,
    plate_only: bool,
    probe: &mut P,
) -> Result<Ran<SupportSet>, NoMemory>
    requires boxes { AllPairs (λ p q. p.bounds ≡ q.bounds) slices.now }
    requires few { length slices.now ≤ 100000 }
    requires unasked { P.polls probe.old ≡ 0 }
    requires quiet { P.raised probe.old ≡ false }
    ensures same_aim { P.aim probe.new ≡ P.aim probe.old }
    ensures cells { IfOk result (λ r. MatchRan r (λ o. o.cells ≡ support_of on plate_only slices.now) (P.raised probe.new ≡ true)) }
    ensures strokes { IfOk result (λ r. MatchRan r (λ o. o.strokes ≡ each (length o.cells) (support_in o.cells)) (P.raised probe.new ≡ true)) }
    ensures polls { IfOk result (λ r. MatchRan r (λ _. (P.raised probe.new ≡ false) × (P.polls probe.new ≡ batches_of (length slices.now))) (P.polls probe.new ≤ batches_of (length slices.now))) }
{
    let slices = slices.planes();
    if !on {
        return unsupported(alloc, slices, probe);
    }
    if plate_only {
        return above_plate(alloc, slices, probe);
    }
    below_overhangs(alloc, slices, probe)
}
