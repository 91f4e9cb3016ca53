//! Texts that are appended piece by piece.
ghost use Rattle.std.specs.Prelude.{◌≡◌, ◌≤◌, ℕ, List, drop, take, map};
ghost use Rattle.std.specs.List.{concat};
ghost use Rattle.std.specs.Fmt.{decimal};
ghost use Rattle.pl_units.specs.Decimal.{fixed};
ghost use Rattle.pl_units.specs.Writes.{Writes};

use crate::decimal::{put_before, put_number_before};
use crate::{NoMemory, Text};
use std::marker::Model;

/// Appends pieces one after another. After an error a front of them was appended.
pub fn append_pieces(out: &mut Text, pieces: &[&[u8]]) -> Result<(), NoMemory>
    ensures text { Writes out.old out.new result (concat (map (λ piece. piece.now) pieces.now)) }
{
    for piece in pieces {
        out.append(piece)?;
    }
    Ok(())
}

/// The decimal text of a number.
#[derive(Drop)]
pub struct Digits {
    bytes: [u8; 40],
    start: usize,
}

impl Model for Digits {
    ghost Value = { List ℕ };

    ghost view = { λ d. drop d.start d.bytes };

    ghost invariant = { λ d. d.start ≤ 40 };
}

impl Digits {
    /// The text of `value / 10^places` with exactly that many decimals; `places` is from 1 to 9.
    pub fn fixed(value: i64, places: u8) -> Digits
        requires low { 1 ≤ places }
        requires high { places ≤ 9 }
        ensures { result ≡ fixed value places }
    {
        let mut bytes = [0; 40];
        let start = put_before(value, places, &mut bytes, 40);
        Digits { bytes, start }
    }

    /// The text of a whole number.
    pub fn whole(value: u64) -> Digits
        ensures { result ≡ decimal value }
    {
        let mut bytes = [0; 40];
        let start = put_number_before(value, &mut bytes, 40);
        Digits { bytes, start }
    }

    /// The digits, with their sign and their point.
    pub fn bytes(&self) -> &[u8]
        ensures { result.now ≡ self.now }
    {
        &self.bytes[self.start..]
    }
}
