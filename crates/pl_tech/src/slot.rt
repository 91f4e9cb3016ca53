ghost use Rattle.std.specs.Prelude.{◌≡◌, ℕ, ◌<◌};

use std::marker::Model;

/// One step of one object, or one print step, by its number from 0 to 99.
#[derive(Clone, Copy, PartialEq, Eq, PartialOrd, Ord, Debug)]
pub struct Slot {
    number: u8,
}

impl Model for Slot {
    ghost Value = { ℕ };

    ghost view = { λ s. s.number };

    ghost invariant = { λ s. s.number < 100 };

    ghost inverse = { λ n. record { number = n } };
}

impl Slot {
    /// The slot of a number from 0 to 99.
    pub fn of(number: u8) -> Slot
        requires { number < 100 }
        ensures { result ≡ number }
    {
        Slot { number }
    }

    /// Its number, from 0 to 99.
    pub fn number(self) -> u8
        ensures value { result ≡ self }
        ensures in_range { result < 100 }
    {
        self.number
    }
}
