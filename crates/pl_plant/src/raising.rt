ghost use Rattle.std.specs.Prelude.{◌≡◌, ℕ, ◌+◌, ◌-◌, ◌^◌, ◌<◌, if◌then◌else◌};
ghost use Rattle.pl_epochs.specs.Words.{count_of, counts, table_of, writes_at};
ghost use Rattle.pl_machine.specs.Each.{each_slot};
ghost use Rattle.pl_plant.specs.Falling.{HasFallen};
ghost use Rattle.pl_tech.specs.Slots.{has};

use pl_epochs::{EpochTable, WriterSeat};
use pl_machine::Reply;
use pl_tech::{Slot, SlotSet, Technology};

// The slots that fell by a call that had this reply. Before it these were started.
pub(crate) fn fallen<T: Technology>(reply: &Reply<T>, stopped: SlotSet) -> SlotSet
    ensures { HasFallen reply.now stopped result }
{
    match reply {
        Reply::Invalidated(set) => *set,
        Reply::Cancelled(_) => stopped,
        _ => SlotSet::empty(),
    }
}

// Raises the word of each slot of the set by one.
pub(crate) fn bump_all(epochs: &EpochTable, writer: &mut WriterSeat, set: SlotSet)
    requires table { writes_at writer.old ≡ table_of epochs.now }
    requires room { (k : ℕ) → count_of writer.old k < 2 ^ 64 - 1 }
    ensures table { writes_at writer.new ≡ writes_at writer.old }
    ensures counts { counts writer.new ≡ each_slot (λ k. if has set k then count_of writer.old k + 1 else count_of writer.old k) }
{
    for n in 0..100u8 {
        let slot = Slot::of(n);
        if set.has(slot) {
            epochs.bump(writer, slot);
        }
    }
}
