//! Writing slots.
ghost use Rattle.std.specs.Prelude.{◌≡◌, [], ◌∷◌, codes, if◌then◌else◌};
ghost use Rattle.std.specs.Fmt.{decimal};
ghost use Rattle.pl_tech.specs.Slots.{has};
ghost use Rattle.pl_transcript.specs.Words.{spaced};
ghost use Rattle.pl_transcript.specs.Replies.{mode_text, slot_word, names, modes};
ghost use Rattle.pl_transcript.specs.Growth.{Writes, Counts};

use crate::line::LineBuffer;
use pl_edit::{Edit, EditReply};
use pl_ports::{Sink, SinkStop};
use pl_tech::{Slot, SlotSet, Technology};
use pl_units::Digits;

// Writes a word, a slot and a number.
pub(crate) fn put_step<T: Technology, K: Sink>(
    line: &mut LineBuffer,
    sink: &mut K,
    word: &[u8],
    slot: Slot,
    epoch: u64,
) -> Result<(), SinkStop>
    ensures written { Writes result (K.held sink.old) line.old (K.held sink.new) line.new (spaced (word.now ∷ T.meaning.name slot ∷ decimal epoch ∷ [])) }
    ensures faults { Counts result (K.faults sink.old) (K.faults sink.new) }
{
    let mut name = [0; 16];
    let len = T::put_name(slot, &mut name);
    line.put_words(sink, &[word, &name[..len], Digits::whole(epoch).bytes()])
}

// Writes that a start was late: the slot, the epoch at its start, and the one that the slot has now.
pub(crate) fn put_late<T: Technology, K: Sink>(
    line: &mut LineBuffer,
    sink: &mut K,
    slot: Slot,
    since: u64,
    now: u64,
) -> Result<(), SinkStop>
    ensures written { Writes result (K.held sink.old) line.old (K.held sink.new) line.new (spaced (codes "late" ∷ T.meaning.name slot ∷ decimal since ∷ decimal now ∷ [])) }
    ensures faults { Counts result (K.faults sink.old) (K.faults sink.new) }
{
    put_step::<T, K>(line, sink, b"late", slot, since)?;
    line.put_word(sink, Digits::whole(now).bytes())
}

// Writes a slot.
fn put_name<T: Technology, K: Sink>(
    line: &mut LineBuffer,
    sink: &mut K,
    slot: Slot,
) -> Result<(), SinkStop>
    ensures written { Writes result (K.held sink.old) line.old (K.held sink.new) line.new (32 ∷ T.meaning.name slot) }
    ensures faults { Counts result (K.faults sink.old) (K.faults sink.new) }
{
    let mut name = [0; 16];
    let len = T::put_name(slot, &mut name);
    line.put_word(sink, &name[..len])
}

// Writes a slot that the set has.
fn put_member<T: Technology, K: Sink>(
    line: &mut LineBuffer,
    sink: &mut K,
    set: SlotSet,
    slot: Slot,
) -> Result<(), SinkStop>
    ensures written { Writes result (K.held sink.old) line.old (K.held sink.new) line.new (if has set slot then 32 ∷ T.meaning.name slot else []) }
    ensures faults { Counts result (K.faults sink.old) (K.faults sink.new) }
{
    if set.has(slot) {
        return put_name::<T, K>(line, sink, slot);
    }
    Ok(())
}

// Writes the slots of a set, in order.
fn put_names<T: Technology<Edit = Edit, Reply = EditReply>, K: Sink>(
    line: &mut LineBuffer,
    sink: &mut K,
    set: SlotSet,
) -> Result<(), SinkStop>
    ensures written { Writes result (K.held sink.old) line.old (K.held sink.new) line.new (spaced (names T.meaning set)) }
    ensures faults { Counts result (K.faults sink.old) (K.faults sink.new) }
{
    for n in 0..100u8 {
        put_member::<T, K>(line, sink, set, Slot::of(n))?;
    }
    Ok(())
}

// Writes which slots an apply made invalid.
pub(crate) fn put_invalidated<T: Technology<Edit = Edit, Reply = EditReply>, K: Sink>(
    line: &mut LineBuffer,
    sink: &mut K,
    set: SlotSet,
) -> Result<(), SinkStop>
    ensures written { Writes result (K.held sink.old) line.old (K.held sink.new) line.new (spaced (codes "invalidated" ∷ names T.meaning set)) }
    ensures faults { Counts result (K.faults sink.old) (K.faults sink.new) }
{
    line.put_word(sink, b"invalidated")?;
    put_names::<T, K>(line, sink, set)
}

// How a slot stands.
fn mode(started: SlotSet, finished: SlotSet, slot: Slot) -> &'static [u8]
    ensures { result.now ≡ mode_text started finished slot }
{
    if finished.has(slot) {
        b"=done"
    } else if started.has(slot) {
        b"=started"
    } else {
        b"=invalid"
    }
}

// Writes a slot and how it stands.
fn put_standing<T: Technology<Edit = Edit, Reply = EditReply>, K: Sink>(
    line: &mut LineBuffer,
    sink: &mut K,
    started: SlotSet,
    finished: SlotSet,
    slot: Slot,
) -> Result<(), SinkStop>
    ensures written { Writes result (K.held sink.old) line.old (K.held sink.new) line.new (32 ∷ slot_word T.meaning started finished slot) }
    ensures faults { Counts result (K.faults sink.old) (K.faults sink.new) }
{
    put_name::<T, K>(line, sink, slot)?;
    line.put(sink, mode(started, finished, slot))
}

// Writes a slot that is present, and how it stands.
fn put_present<T: Technology<Edit = Edit, Reply = EditReply>, K: Sink>(
    line: &mut LineBuffer,
    sink: &mut K,
    present: SlotSet,
    started: SlotSet,
    finished: SlotSet,
    slot: Slot,
) -> Result<(), SinkStop>
    ensures written { Writes result (K.held sink.old) line.old (K.held sink.new) line.new (if has present slot then 32 ∷ slot_word T.meaning started finished slot else []) }
    ensures faults { Counts result (K.faults sink.old) (K.faults sink.new) }
{
    if present.has(slot) {
        return put_standing::<T, K>(line, sink, started, finished, slot);
    }
    Ok(())
}

// Writes the present slots, in order, and how they stand.
pub(crate) fn put_modes<T: Technology<Edit = Edit, Reply = EditReply>, K: Sink>(
    line: &mut LineBuffer,
    sink: &mut K,
    present: SlotSet,
    started: SlotSet,
    finished: SlotSet,
) -> Result<(), SinkStop>
    ensures written { Writes result (K.held sink.old) line.old (K.held sink.new) line.new (spaced (modes T.meaning present started finished)) }
    ensures faults { Counts result (K.faults sink.old) (K.faults sink.new) }
{
    for n in 0..100u8 {
        put_present::<T, K>(line, sink, present, started, finished, Slot::of(n))?;
    }
    Ok(())
}
