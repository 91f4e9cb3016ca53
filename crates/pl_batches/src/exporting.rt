//! The G-code, batch by batch.
ghost use Rattle.std.specs.Prelude.{◌≡◌, ◌<◌, ◌≤◌, ◌+◌, ◌^◌, true, false, ◌++◌, length, IfOk};
ghost use Rattle.pl_tech.specs.Ran.{MatchRan};
ghost use Rattle.pl_gcode.specs.Gcode.{gcode_of, tail_text};
ghost use Rattle.pl_batches.specs.Batches.{batches_of};

use crate::layered::{Layered, in_batches};
use pl_gcode::{Parts, put_head, put_height, put_tail};
use pl_ports::Probe;
use pl_tech::Ran;
use pl_units::{NoMemory, Text};
use std::alloc::Global;

// The parts of a print, whose heights are written.
#[derive(Clone, Copy)]
struct Exporting<'a, Q> {
    parts: &'a Q,
}

impl<Q: Parts> Layered for Exporting<'_, Q> {
    ghost use Rattle.std.specs.List.{range_with_len, flat_map};
    ghost use Rattle.pl_gcode.specs.Gcode.{head_text, height_text};

    type Made = Text;

    ghost layers = { λ w. length (Q.print w.parts.now).heights };

    ghost reaches = { λ w n text. text ≡ head_text (Q.print w.parts.now).settings ++ flat_map (height_text (Q.print w.parts.now)) (range_with_len 0 n) };

    fn put_layer(&self, _alloc: Global, number: u32, text: &mut Text) -> Result<(), NoMemory> {
        put_height(text, self.parts, number)?;
        Ok(())
    }
}

/// The G-code of a print of fewer than 2^32 - 8 heights: the head is written before the first batch, and the tail after
/// the last. Before each batch of eight heights the probe is asked once, and not at other times; after an answer true
/// the work stops. The probe was not asked before. Refused only for want of memory.
pub fn gcode_batches<Q: Parts, P: Probe>(
    alloc: Global,
    parts: &Q,
    probe: &mut P,
) -> Result<Ran<Text>, NoMemory>
    requires few { length (Q.print parts.now).heights + 8 < 2 ^ 32 }
    requires unasked { P.polls probe.old ≡ 0 }
    requires quiet { P.raised probe.old ≡ false }
    ensures same_aim { P.aim probe.new ≡ P.aim probe.old }
    ensures ran { IfOk result (λ r. MatchRan r (λ o. o ≡ gcode_of (Q.print parts.now)) (P.raised probe.new ≡ true)) }
    ensures polls { IfOk result (λ r. MatchRan r (λ _. (P.raised probe.new ≡ false) × (P.polls probe.new ≡ batches_of (length (Q.print parts.now).heights))) (P.polls probe.new ≤ batches_of (length (Q.print parts.now).heights))) }
{
    let mut text = Text::copy_of(alloc, b"")?;
    put_head(&mut text, parts)?;
    let heights = parts.heights().len() as u32;
    match in_batches(alloc, &Exporting { parts }, heights, text, probe)? {
        Ran::Done(text) => Ok(Ran::Done(ended(text, parts)?)),
        Ran::Stopped => Ok(Ran::Stopped),
    }
}

// The text with what stands behind the last height.
fn ended<Q: Parts>(mut text: Text, parts: &Q) -> Result<Text, NoMemory>
    ensures { IfOk result (λ whole. whole ≡ text ++ tail_text (Q.print parts.now).settings) }
{
    put_tail(&mut text, parts)?;
    Ok(text)
}
