//! Short texts that are put together from the back to the front.
ghost use Rattle.std.specs.Prelude.{◌≡◌, ◌≤◌, ◌+◌, ◌++◌, ℕ, List, [], length, drop};
ghost use Rattle.std.specs.Fmt.{decimal};
ghost use Rattle.pl_units.specs.Decimal.{fixed};

use crate::decimal::{put_before, put_number_before};
use std::marker::Model;

/// A text of up to 128 bytes, to which pieces are put in front.
#[derive(Drop)]
pub struct Line {
    bytes: [u8; 128],
    start: usize,
}

impl Model for Line {
    ghost Value = { List ℕ };

    ghost view = { λ l. drop l.start l.bytes };

    ghost invariant = { λ l. l.start ≤ 128 };
}

impl Line {
    /// An empty text.
    pub fn empty() -> Line
        ensures { result ≡ [] }
    {
        Line {
            bytes: [0; 128],
            start: 128,
        }
    }

    /// Puts bytes in front.
    pub fn put(&mut self, piece: &[u8])
        requires { length piece.now + length self.old ≤ 128 }
        ensures { self.new ≡ piece.now ++ self.old }
    {
        let end = self.start;
        self.start -= piece.len();
        self.bytes[self.start..end].copy_from_slice(piece);
    }

    /// Puts the text of `value / 10^places` in front, with exactly that many decimals; `places` is from 1 to 9.
    pub fn put_fixed(&mut self, value: i64, places: u8)
        requires low { 1 ≤ places }
        requires high { places ≤ 9 }
        requires room { length self.old ≤ 97 }
        ensures text { self.new ≡ fixed value places ++ self.old }
        ensures size { length self.new ≤ length self.old + 31 }
    {
        self.start = put_before(value, places, &mut self.bytes, self.start);
    }

    /// Puts the text of a whole number in front.
    pub fn put_whole(&mut self, value: u64)
        requires room { length self.old ≤ 108 }
        ensures text { self.new ≡ decimal value ++ self.old }
        ensures size { length self.new ≤ length self.old + 20 }
    {
        self.start = put_number_before(value, &mut self.bytes, self.start);
    }

    /// The bytes, in order.
    pub fn bytes(&self) -> &[u8]
        ensures { result.now ≡ self.now }
    {
        &self.bytes[self.start..]
    }
}
