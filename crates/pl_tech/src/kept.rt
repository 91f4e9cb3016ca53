ghost use Rattle.std.specs.Prelude.{◌≡◌, ℕ, ◌<◌, IfOk, length, slice_set, replicate, None, Some};
ghost use Rattle.std.specs.Option.{option_map};
ghost use Rattle.std.specs.Arc.{arc_value};
ghost use Rattle.pl_tech.specs.Kept.{kept_at};

use crate::Slot;
use pl_units::NoMemory;
use std::alloc::Global;
use std::marker::Model;
use std::sync::Arc;

/// The results that are kept, at most one for each slot. Contracts see the list of them by slots.
#[derive(Drop)]
pub struct Kept<O> {
    slots: Vec<Option<Arc<O>>>,
}

impl<O> Model for Kept<O> {
    ghost use Rattle.std.specs.Prelude.{List, ◌≡◌, length};
    ghost use Rattle.std.specs.Prelude.{Option};
    ghost use Rattle.std.specs.Coded.{coded_list, coded_option};
    ghost use Rattle.pl_tech.specs.Kept.{values_of};

    ghost Value = { List (Option O) };

    ghost coded = { coded_list (coded_option O.code) };

    ghost view = { λ k. values_of k.slots.items };

    ghost invariant = { λ k. length k.slots.items ≡ 100 };
}

impl<O> Kept<O> {
    /// Nothing is kept.
    pub fn new(alloc: Global) -> Result<Kept<O>, NoMemory>
    where
        O: Drop,
        ensures { IfOk result (λ k. k ≡ replicate 100 None) }
    {
        let mut slots = Vec::new(alloc);
        for _place in 0..100u8 {
            slots.push(None)?;
        }
        Ok(Kept { slots })
    }

    /// What is kept for the slot.
    pub fn get(&self, slot: Slot) -> Option<&Arc<O>>
        ensures { option_map (λ x. arc_value x.now) result ≡ kept_at self.now slot }
    {
        let at = slot.number() as usize;
        self.slots[at].as_ref()
    }

    /// Keeps this result for the slot, in place of what was kept.
    pub fn put(&mut self, slot: Slot, output: Arc<O>)
    where
        O: Drop,
        ensures stored { self.new ≡ slice_set self.old slot (Some (arc_value output)) }
        ensures places { length self.old ≡ 100 }
        ensures in_range { slot < 100 }
    {
        let at = slot.number() as usize;
        self.slots[at] = Some(output);
    }

    /// Keeps nothing for the slot.
    pub fn clear(&mut self, slot: Slot)
    where
        O: Drop,
        ensures { self.new ≡ slice_set self.old slot None }
    {
        let at = slot.number() as usize;
        self.slots[at] = None;
    }
}
