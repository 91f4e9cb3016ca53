//! The tools of the heights, batch by batch.
ghost use Rattle.std.specs.Prelude.{◌≡◌, ◌<◌, ◌≤◌, ◌+◌, ◌^◌, true, false, length, map, IfOk};
ghost use Rattle.pl_tech.specs.Ran.{MatchRan};
ghost use Rattle.pl_tower.specs.Heights.{tools_along};
ghost use Rattle.pl_values.specs.PrintValues.{tool_set_of};
ghost use Rattle.pl_prints.specs.Layers.{has_printed};
ghost use Rattle.pl_batches.specs.Batches.{batches_of};

use crate::layered::{Layered, in_batches};
use pl_ports::Probe;
use pl_prints::{ObjectLayers, used_at};
use pl_tech::Ran;
use pl_tower::{Tools, tool_after, tool_order};
use pl_units::{Nm, NoMemory};
use std::alloc::Global;

// The layers of the objects, and the heights of the print.
#[derive(Clone, Copy)]
struct Using<'a> {
    objects: &'a [ObjectLayers],
    tops: &'a [Nm],
}

// The tools of the heights that are done, and the current tool after them.
#[derive(Drop)]
struct Along {
    heights: Vec<Tools>,
    current: u8,
}

impl Layered for Using<'_> {
    ghost use Rattle.std.specs.Prelude.{take};
    ghost use Rattle.pl_tower.specs.Heights.{tool_before};

    type Made = Along;

    ghost layers = { λ w. length w.tops.now };

    ghost reaches = { λ w n made. let all = tools_along 0 (map (λ top. tool_set_of (has_printed w.objects.now top.0)) w.tops.now) in (made.heights.items ≡ take n all) × (made.current ≡ tool_before all n) };

    fn put_layer(&self, alloc: Global, number: u32, made: &mut Along) -> Result<(), NoMemory> {
        let used = used_at(self.objects, &self.tops[number as usize]);
        let tools = tool_order(alloc, made.current, used)?;
        made.current = tool_after(made.current, &tools);
        made.heights.push(tools)?;
        Ok(())
    }
}

/// The tools of each height in order, from the layers of all objects and the heights of the print, fewer than 2^32 - 8.
/// Before the first height the current tool is 0, and after a height it is the last of its tools; a height without
/// tools keeps it. Before each batch of eight heights the probe is asked once, and not at other times; after an answer
/// true the work stops. The probe was not asked before. Refused only for want of memory.
pub fn tool_batches<P: Probe>(
    alloc: Global,
    objects: &[ObjectLayers],
    tops: &[Nm],
    probe: &mut P,
) -> Result<Ran<Vec<Tools>>, NoMemory>
    requires few { length tops.now + 8 < 2 ^ 32 }
    requires unasked { P.polls probe.old ≡ 0 }
    requires quiet { P.raised probe.old ≡ false }
    ensures same_aim { P.aim probe.new ≡ P.aim probe.old }
    ensures ran { IfOk result (λ r. MatchRan r (λ o. o.items ≡ tools_along 0 (map (λ top. tool_set_of (has_printed objects.now top.0)) tops.now)) (P.raised probe.new ≡ true)) }
    ensures polls { IfOk result (λ r. MatchRan r (λ _. (P.raised probe.new ≡ false) × (P.polls probe.new ≡ batches_of (length tops.now))) (P.polls probe.new ≤ batches_of (length tops.now))) }
{
    let start = Along {
        heights: Vec::new(alloc),
        current: 0,
    };
    let work = Using { objects, tops };
    match in_batches(alloc, &work, tops.len() as u32, start, probe)? {
        Ran::Done(
            Along {
                heights,
                current: _,
            },
        ) => Ok(Ran::Done(heights)),
        Ran::Stopped => Ok(Ran::Stopped),
    }
}
