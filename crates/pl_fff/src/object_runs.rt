//! The runs of the jobs of an object.
ghost use Rattle.std.specs.Prelude.{◌≡◌, ◌≤◌, true, false, length, IfOk};
ghost use Rattle.pl_tech.specs.Ran.{MatchRan};
ghost use Rattle.pl_layers.specs.Heights.{layer_count_of};
ghost use Rattle.pl_batches.specs.Batches.{batches_of};
ghost use Rattle.pl_fff.specs.Held.{planes_in, inner_in, surfaces_in};
ghost use Rattle.pl_fff.specs.Jobs.{slice_value, perimeters_value, prepare_value, infill_value, ironing_value, support_value};

use crate::held::{inner_or, slices_or, surfaces_or};
use crate::job::{InfillJob, IroningJob, PerimetersJob, PrepareJob, SliceJob, SupportJob};
use pl_batches::{
    infill_batches, ironing_batches, perimeter_batches, slice_batches, support_batches,
    surface_batches,
};
use pl_grid::Planes;
use pl_ports::Probe;
use pl_slots::{FffOutput, Sliced};
use pl_steps::Surfaces;
use pl_tech::Ran;
use pl_units::NoMemory;
use std::alloc::Global;

impl SliceJob {
    // Slices eight layers at a time.
    pub(crate) fn run<P: Probe>(
        &self,
        alloc: Global,
        probe: &mut P,
    ) -> Result<Ran<FffOutput>, NoMemory>
        requires unasked { P.polls probe.old ≡ 0 }
        requires quiet { P.raised probe.old ≡ false }
        ensures same_aim { P.aim probe.new ≡ P.aim probe.old }
        ensures ran { IfOk result (λ r. MatchRan r (λ o. o ≡ slice_value self.now) (P.raised probe.new ≡ true)) }
        ensures polls { IfOk result (λ r. MatchRan r (λ _. (P.raised probe.new ≡ false) × (P.polls probe.new ≡ batches_of (layer_count_of self.now.heights self.now.mesh))) (P.polls probe.new ≤ batches_of (layer_count_of self.now.heights self.now.mesh))) }
    {
        let mesh = self.mesh.get();
        match slice_batches(alloc, mesh, self.quarter, self.heights, probe)? {
            Ran::Done(planes) => Ok(Ran::Done(FffOutput::Slices(Sliced {
                heights: self.heights,
                planes,
            }))),
            Ran::Stopped => Ok(Ran::Stopped),
        }
    }
}

impl PerimetersJob {
    // Finds the perimeters of eight layers at a time.
    pub(crate) fn run<P: Probe>(
        &self,
        alloc: Global,
        probe: &mut P,
    ) -> Result<Ran<FffOutput>, NoMemory>
        requires unasked { P.polls probe.old ≡ 0 }
        requires quiet { P.raised probe.old ≡ false }
        ensures same_aim { P.aim probe.new ≡ P.aim probe.old }
        ensures ran { IfOk result (λ r. MatchRan r (λ o. o ≡ perimeters_value self.now) (P.raised probe.new ≡ true)) }
        ensures polls { IfOk result (λ r. MatchRan r (λ _. (P.raised probe.new ≡ false) × (P.polls probe.new ≡ batches_of (length (planes_in self.now.slices)))) (P.polls probe.new ≤ batches_of (length (planes_in self.now.slices)))) }
    {
        let none = Planes::of(Vec::new(alloc));
        let slices = slices_or(self.slices.get(), &none);
        match perimeter_batches(alloc, slices, self.count, probe)? {
            Ran::Done(set) => Ok(Ran::Done(FffOutput::Perimeters(set))),
            Ran::Stopped => Ok(Ran::Stopped),
        }
    }
}

impl PrepareJob {
    // Finds the surfaces of eight layers at a time.
    pub(crate) fn run<P: Probe>(
        &self,
        alloc: Global,
        probe: &mut P,
    ) -> Result<Ran<FffOutput>, NoMemory>
        requires unasked { P.polls probe.old ≡ 0 }
        requires quiet { P.raised probe.old ≡ false }
        ensures same_aim { P.aim probe.new ≡ P.aim probe.old }
        ensures ran { IfOk result (λ r. MatchRan r (λ o. o ≡ prepare_value self.now) (P.raised probe.new ≡ true)) }
        ensures polls { IfOk result (λ r. MatchRan r (λ _. (P.raised probe.new ≡ false) × (P.polls probe.new ≡ batches_of (length (inner_in self.now.perimeters)))) (P.polls probe.new ≤ batches_of (length (inner_in self.now.perimeters)))) }
    {
        let none = Planes::of(Vec::new(alloc));
        let slices = slices_or(self.slices.get(), &none);
        let inner = inner_or(self.perimeters.get(), &none);
        match surface_batches(alloc, slices, inner, self.top, self.bottom, probe)? {
            Ran::Done(sets) => Ok(Ran::Done(FffOutput::Surfaces(sets))),
            Ran::Stopped => Ok(Ran::Stopped),
        }
    }
}

impl InfillJob {
    // Fills eight layers at a time.
    pub(crate) fn run<P: Probe>(
        &self,
        alloc: Global,
        probe: &mut P,
    ) -> Result<Ran<FffOutput>, NoMemory>
        requires unasked { P.polls probe.old ≡ 0 }
        requires quiet { P.raised probe.old ≡ false }
        ensures same_aim { P.aim probe.new ≡ P.aim probe.old }
        ensures ran { IfOk result (λ r. MatchRan r (λ o. o ≡ infill_value self.now) (P.raised probe.new ≡ true)) }
        ensures polls { IfOk result (λ r. MatchRan r (λ _. (P.raised probe.new ≡ false) × (P.polls probe.new ≡ batches_of (length (surfaces_in self.now.surfaces)))) (P.polls probe.new ≤ batches_of (length (surfaces_in self.now.surfaces)))) }
    {
        let none = Surfaces::of(Vec::new(alloc));
        let sets = surfaces_or(self.surfaces.get(), &none);
        match infill_batches(alloc, sets, self.density, probe)? {
            Ran::Done(lists) => Ok(Ran::Done(FffOutput::Strokes(lists))),
            Ran::Stopped => Ok(Ran::Stopped),
        }
    }
}

impl IroningJob {
    // Irons eight layers at a time.
    pub(crate) fn run<P: Probe>(
        &self,
        alloc: Global,
        probe: &mut P,
    ) -> Result<Ran<FffOutput>, NoMemory>
        requires unasked { P.polls probe.old ≡ 0 }
        requires quiet { P.raised probe.old ≡ false }
        ensures same_aim { P.aim probe.new ≡ P.aim probe.old }
        ensures ran { IfOk result (λ r. MatchRan r (λ o. o ≡ ironing_value self.now) (P.raised probe.new ≡ true)) }
        ensures polls { IfOk result (λ r. MatchRan r (λ _. (P.raised probe.new ≡ false) × (P.polls probe.new ≡ batches_of (length (surfaces_in self.now.surfaces)))) (P.polls probe.new ≤ batches_of (length (surfaces_in self.now.surfaces)))) }
    {
        let none = Surfaces::of(Vec::new(alloc));
        let sets = surfaces_or(self.surfaces.get(), &none);
        match ironing_batches(alloc, sets, self.on, probe)? {
            Ran::Done(lists) => Ok(Ran::Done(FffOutput::Strokes(lists))),
            Ran::Stopped => Ok(Ran::Stopped),
        }
    }
}

impl SupportJob {
    // Supports eight layers at a time.
    pub(crate) fn run<P: Probe>(
        &self,
        alloc: Global,
        probe: &mut P,
    ) -> Result<Ran<FffOutput>, NoMemory>
        requires unasked { P.polls probe.old ≡ 0 }
        requires quiet { P.raised probe.old ≡ false }
        ensures same_aim { P.aim probe.new ≡ P.aim probe.old }
        ensures ran { IfOk result (λ r. MatchRan r (λ o. o ≡ support_value self.now) (P.raised probe.new ≡ true)) }
        ensures polls { IfOk result (λ r. MatchRan r (λ _. (P.raised probe.new ≡ false) × (P.polls probe.new ≡ batches_of (length (planes_in self.now.slices)))) (P.polls probe.new ≤ batches_of (length (planes_in self.now.slices)))) }
    {
        let none = Planes::of(Vec::new(alloc));
        let slices = slices_or(self.slices.get(), &none);
        match support_batches(alloc, slices, self.on, self.plate_only, probe)? {
            Ran::Done(set) => Ok(Ran::Done(FffOutput::Support(set))),
            Ran::Stopped => Ok(Ran::Stopped),
        }
    }
}
