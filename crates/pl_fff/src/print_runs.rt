//! The runs of the jobs of the print.
ghost use Rattle.std.specs.Prelude.{◌≡◌, ◌≤◌, ◌∷◌, [], true, false, length, map, IfOk};
ghost use Rattle.std.specs.List.{All};
ghost use Rattle.std.specs.Option.{option_copied};
ghost use Rattle.pl_tech.specs.Ran.{MatchRan};
ghost use Rattle.pl_prints.specs.Footprints.{IsPlaced, footing_of};
ghost use Rattle.pl_prints.specs.Heights.{heights_in};
ghost use Rattle.pl_batches.specs.Batches.{batches_of};
ghost use Rattle.pl_fff.specs.Jobs.{tower_value, skirt_value, brim_value, export_value, exported};

use crate::held::{blocks_in, heights_in, rounds_in, tools_in};
use crate::job::{BrimJob, ExportJob, SkirtJob, TowerJob};
use crate::parts::{ExportPlace, Foot};
use pl_adhesion::{brim, skirt};
use pl_batches::{gcode_batches, tool_batches};
use pl_grid::Plane;
use pl_parts::{PlaceParts, PrintLists, PrintParts};
use pl_ports::Probe;
use pl_prints::{footing_plane, heights_of_layers};
use pl_slots::{FffOutput, Lengths, ToolLists, TowerSet};
use pl_steps::Loops;
use pl_tech::Ran;
use pl_units::NoMemory;
use std::alloc::Global;

impl TowerJob {
    // Finds the tools of eight heights at a time.
    pub(crate) fn run<P: Probe>(
        self,
        alloc: Global,
        probe: &mut P,
    ) -> Result<Ran<FffOutput>, NoMemory>
        requires unasked { P.polls probe.old ≡ 0 }
        requires quiet { P.raised probe.old ≡ false }
        ensures same_aim { P.aim probe.new ≡ P.aim probe.old }
        ensures ran { IfOk result (λ r. MatchRan r (λ o. o ≡ tower_value self) (P.raised probe.new ≡ true)) }
        ensures polls { IfOk result (λ r. MatchRan r (λ _. (P.raised probe.new ≡ false) × (P.polls probe.new ≡ batches_of (length (heights_in self.objects.items)))) (P.polls probe.new ≤ batches_of (length (heights_in self.objects.items)))) }
    {
        let TowerJob { objects, blocks } = self;
        let heights = heights_of_layers(alloc, &objects)?;
        match tool_batches(alloc, &objects, &heights, probe)? {
            Ran::Done(tools) => Ok(Ran::Done(FffOutput::Tower(TowerSet {
                heights: Lengths::of(heights),
                tools: ToolLists::of(tools),
                blocks,
            }))),
            Ran::Stopped => Ok(Ran::Stopped),
        }
    }
}

// The cells of the bed on which objects stand.
fn ground(alloc: Global, feet: &[Foot]) -> Result<Plane, NoMemory>
    requires { All (λ f. All (IsPlaced f) f.instances) feet.now }
    ensures { IfOk result (λ plane. plane ≡ footing_of feet.now) }
{
    let mut footprints = Vec::with_capacity(alloc, feet.len())?;
    for foot in feet {
        footprints.push(foot.footprint())?;
    }
    footing_plane(alloc, &footprints)
}

impl SkirtJob {
    // Finds all loops at once.
    pub(crate) fn run<P: Probe>(
        &self,
        alloc: Global,
        probe: &mut P,
    ) -> Result<Ran<FffOutput>, NoMemory>
        requires unasked { P.polls probe.old ≡ 0 }
        requires quiet { P.raised probe.old ≡ false }
        ensures same_aim { P.aim probe.new ≡ P.aim probe.old }
        ensures ran { IfOk result (λ r. MatchRan r (λ o. o ≡ skirt_value self.now) (P.raised probe.new ≡ true)) }
        ensures polls { IfOk result (λ r. MatchRan r (λ _. (P.raised probe.new ≡ false) × (P.polls probe.new ≡ 1)) (P.polls probe.new ≤ 1)) }
    {
        if probe.poll() {
            return Ok(Ran::Stopped);
        }
        let ground = ground(alloc, &self.feet)?;
        let loops = skirt(alloc, &ground, self.distance, self.count)?;
        Ok(Ran::Done(FffOutput::Loops(Loops::of(loops))))
    }
}

impl BrimJob {
    // Finds all loops at once.
    pub(crate) fn run<P: Probe>(
        &self,
        alloc: Global,
        probe: &mut P,
    ) -> Result<Ran<FffOutput>, NoMemory>
        requires unasked { P.polls probe.old ≡ 0 }
        requires quiet { P.raised probe.old ≡ false }
        ensures same_aim { P.aim probe.new ≡ P.aim probe.old }
        ensures ran { IfOk result (λ r. MatchRan r (λ o. o ≡ brim_value self.now) (P.raised probe.new ≡ true)) }
        ensures polls { IfOk result (λ r. MatchRan r (λ _. (P.raised probe.new ≡ false) × (P.polls probe.new ≡ 1)) (P.polls probe.new ≤ 1)) }
    {
        if probe.poll() {
            return Ok(Ran::Stopped);
        }
        let ground = ground(alloc, &self.feet)?;
        let loops = brim(alloc, &ground, self.width)?;
        Ok(Ran::Done(FffOutput::Loops(Loops::of(loops))))
    }
}

// What stands at a place, as the writer of G-code sees it.
fn parts_at(place: &Option<ExportPlace>) -> Option<PlaceParts>
    ensures { result ≡ place.now }
{
    match place {
        Some(object) => Some(object.parts()),
        None => None,
    }
}

// What stands at each place.
fn all_parts(
    alloc: Global,
    objects: &[Option<ExportPlace>],
) -> Result<Vec<Option<PlaceParts>>, NoMemory>
    ensures { IfOk result (λ parts. parts.items ≡ objects.now) }
{
    let mut parts = Vec::with_capacity(alloc, objects.len())?;
    for place in objects {
        parts.push(parts_at(place))?;
    }
    Ok(parts)
}

impl ExportJob {
    // Writes eight heights at a time.
    pub(crate) fn run<P: Probe>(
        &self,
        alloc: Global,
        probe: &mut P,
    ) -> Result<Ran<FffOutput>, NoMemory>
        requires unasked { P.polls probe.old ≡ 0 }
        requires quiet { P.raised probe.old ≡ false }
        ensures same_aim { P.aim probe.new ≡ P.aim probe.old }
        ensures ran { IfOk result (λ r. MatchRan r (λ o. o ≡ export_value self.now) (P.raised probe.new ≡ true)) }
        ensures polls { IfOk result (λ r. MatchRan r (λ _. (P.raised probe.new ≡ false) × (P.polls probe.new ≡ batches_of (length (exported self.now).heights))) (P.polls probe.new ≤ batches_of (length (exported self.now).heights))) }
    {
        let lists = PrintLists {
            config: &self.config,
            heights: heights_in(self.tower.get()),
            tools: tools_in(self.tower.get()),
            blocks: blocks_in(self.tower.get()),
            skirt: rounds_in(self.skirt.get()),
            brim: rounds_in(self.brim.get()),
            objects: all_parts(alloc, &self.objects)?,
        };
        let parts = PrintParts::of(lists, Vec::from_slice(alloc, &self.places)?);
        match gcode_batches(alloc, &parts, probe)? {
            Ran::Done(text) => Ok(Ran::Done(FffOutput::Gcode(text))),
            Ran::Stopped => Ok(Ran::Stopped),
        }
    }
}
