ghost use Rattle.std.specs.Prelude.{◌≡◌, ℕ, IfOk, OnOk, OnErr};
ghost use Rattle.pl_tech.specs.Slots.{has};

use pl_tech::{SlotSet, Technology};
use pl_units::NoMemory;
use std::alloc::Global;
use std::marker::Model;

/// The plate that is edited and the one that was applied, and which of their parts may differ.
#[derive(Drop)]
pub struct Plates<T: Technology> {
    edited: T::Plate,
    applied: T::Plate,
    apart: SlotSet,
}

impl<T: Technology> Model for Plates<T> {
    ghost use Rattle.pl_tech.specs.Sharing.{AllShare};
    ghost use Rattle.pl_machine.specs.Plates.{Both};

    ghost Value = { Both T.Plate };

    ghost view = { λ s. record { edited = s.edited; applied = s.applied } };

    ghost invariant = { λ s. AllShare T.shares s.apart s.applied s.edited };
}

impl<T: Technology> Plates<T> {
    /// Both plates blank.
    pub fn blank(alloc: Global) -> Result<Plates<T>, NoMemory>
        ensures { IfOk result (λ s. (s.edited ≡ T.meaning.blank) × (s.applied ≡ T.meaning.blank)) }
    {
        let edited = T::blank(alloc)?;
        let applied = T::blank(alloc)?;
        Ok(Plates {
            edited,
            applied,
            apart: SlotSet::empty(),
        })
    }

    /// The applied plate.
    pub fn applied(&self) -> &T::Plate
        ensures { result.now ≡ self.now.applied }
    {
        &self.applied
    }

    /// Changes the edited plate.
    pub fn edit(&mut self, alloc: Global, edit: &T::Edit) -> Result<T::Reply, NoMemory>
        ensures reply { IfOk result (λ r. r ≡ T.meaning.reply self.old.edited edit.now) }
        ensures state { OnOk result (self.new ≡ record self.old { edited = T.meaning.edited self.old.edited edit.now }) }
        ensures err { OnErr result (self.new ≡ self.old) }
    {
        let reply = T::edit(alloc, &mut self.edited, edit)?;
        self.apart = self.apart.union(T::changes(edit, &reply));
        Ok(reply)
    }

    /// An equal plate to the edited one.
    pub fn copied(&self, alloc: Global) -> Result<T::Plate, NoMemory>
        ensures { IfOk result (λ p. p ≡ self.now.edited) }
    {
        T::copy(alloc, &self.edited)
    }

    /// Whether the plates are equal.
    pub fn same(&self) -> bool
        ensures { result ≡ T.meaning.same self.now.applied self.now.edited }
    {
        T::same_but(&self.applied, &self.edited, self.apart)
    }

    /// The slots whose results may differ between the plates.
    pub fn touched(&self) -> SlotSet
        ensures { (k : ℕ) → has result k ≡ T.meaning.touched self.now.applied self.now.edited k }
    {
        T::touched_but(&self.applied, &self.edited, self.apart)
    }

    /// Makes a copy of the edited plate the applied one.
    pub fn settle(&mut self, copy: T::Plate)
        requires { copy ≡ self.old.edited }
        ensures { self.new ≡ record self.old { applied = copy } }
    {
        self.applied = copy;
        self.apart = SlotSet::empty();
    }
}
