ghost use Rattle.std.specs.Prelude.{◌≡◌, ℕ, ◌<◌, ◌≤◌, ◌^◌, ◌==◌, ◌||◌, ◌&&◌, not, false, true, MatchOption, length};
ghost use Rattle.pl_tech.specs.Slots.{has, members};

use crate::Slot;
use std::marker::Model;

/// A set of slots. Bit k of its number says whether slot k is in the set.
#[derive(Clone, Copy, PartialEq, Eq, Debug)]
pub struct SlotSet {
    bits: u128,
}

impl Model for SlotSet {
    ghost Value = { ℕ };

    ghost view = { λ s. s.bits };

    ghost invariant = { λ s. s.bits < 2 ^ 100 };

    ghost inverse = { λ n. record { bits = n } };
}

impl SlotSet {
    /// No slot.
    pub fn empty() -> SlotSet
        ensures { (k : ℕ) → has result k ≡ false }
    {
        SlotSet { bits: 0 }
    }

    /// The member with the smallest number.
    pub fn least(self) -> Option<Slot>
        ensures { MatchOption result ((k : ℕ) → has self k ≡ false) (λ s. (has self s ≡ true) × ((k : ℕ) → k < s → has self k ≡ false)) }
    {
        if self.bits == 0 {
            return None;
        }
        Some(Slot::of(self.bits.trailing_zeros() as u8))
    }

    /// Whether the slot is in the set.
    pub fn has(self, slot: Slot) -> bool
        ensures { result ≡ has self slot }
    {
        (self.bits >> slot.number()) & 1 == 1
    }

    /// The set and this slot.
    pub fn with(self, slot: Slot) -> SlotSet
        ensures { (k : ℕ) → has result k ≡ ((k == slot) || has self k) }
    {
        SlotSet {
            bits: self.bits | (1u128 << slot.number()),
        }
    }

    /// What is in one of the sets, or in both.
    pub fn union(self, other: SlotSet) -> SlotSet
        ensures { (k : ℕ) → has result k ≡ (has self k || has other k) }
    {
        SlotSet {
            bits: self.bits | other.bits,
        }
    }

    /// What is in this set, and not in the other.
    pub fn minus(self, other: SlotSet) -> SlotSet
        ensures { (k : ℕ) → has result k ≡ (has self k && not (has other k)) }
    {
        SlotSet {
            bits: self.bits ^ (self.bits & other.bits),
        }
    }

    /// How many slots are in the set.
    pub fn len(self) -> u8
        ensures count { result ≡ length (members self) }
        ensures few { result ≤ 100 }
    {
        self.bits.count_ones() as u8
    }
}
