ghost use Rattle.std.specs.Prelude.{◌≡◌, ℕ, ◌<◌, IfOk, OnErr, None, if◌then◌else◌};
ghost use Rattle.std.specs.Option.{option_map};
ghost use Rattle.std.specs.Arc.{arc_value};
ghost use Rattle.pl_tech.specs.Slots.{has};
ghost use Rattle.pl_tech.specs.Kept.{kept_at};
ghost use Rattle.pl_machine.specs.Calls.{TakesMemory};
ghost use Rattle.pl_plant.specs.Keeping.{IsLastGiven, Forgets};

use pl_machine::{Command, Reply};
use pl_tech::{Kept, Slot, SlotSet, Technology};
use pl_units::NoMemory;
use std::sync::Arc;

// What is kept for slot 99.
fn last<O: Drop>(kept: &Kept<O>) -> Result<Option<Arc<O>>, NoMemory>
    ensures { IfOk result (λ o. option_map arc_value o ≡ kept_at kept.now 99) }
{
    match kept.get(Slot::of(99)) {
        Some(output) => Ok(Some(Arc::try_clone(output)?)),
        None => Ok(None),
    }
}

// What an export is given: what is kept for slot 99. The other commands are given nothing.
pub(crate) fn given<T: Technology>(
    kept: &Kept<T::Output>,
    command: &Command<T::Edit>,
) -> Result<Option<Arc<T::Output>>, NoMemory>
    ensures given { IfOk result (λ o. IsLastGiven command.now kept.now (option_map arc_value o)) }
    ensures memory { OnErr result (TakesMemory command.now) }
{
    match command {
        Command::Export => Ok(last(kept)?),
        _ => Ok(None),
    }
}

// Keeps nothing for the slots of the set.
fn clear_all<O: Drop>(kept: &mut Kept<O>, set: SlotSet)
    ensures { (k : ℕ) → k < 100 → kept_at kept.new k ≡ (if has set k then None else kept_at kept.old k) }
{
    for n in 0..100u8 {
        let slot = Slot::of(n);
        if set.has(slot) {
            kept.clear(slot);
        }
    }
}

// Keeps nothing for the slots that a reply names as fallen.
pub(crate) fn forget<T: Technology>(kept: &mut Kept<T::Output>, reply: &Reply<T>)
    ensures { Forgets reply.now kept.old kept.new }
{
    match reply {
        Reply::Invalidated(set) => clear_all(kept, *set),
        _ => (),
    }
}
