//! Lengths, byte texts, decimal texts, and the answer for want of memory.
#![tactic(auto)]

pub mod decimal;
pub mod line;
pub mod numeral;
pub mod pieces;
mod scaled;
pub mod shared;
#[cfg(test)]
mod tests;
pub mod text;

pub use decimal::{floor_div, put_fixed, put_number, to_micro};
pub use line::Line;
pub use numeral::{NumberFault, read_mm};
pub use pieces::{Digits, append_pieces};
pub use shared::Shared;
use std::alloc::{AllocError, AllocFailed};
pub use text::Text;

/// Memory was wanted and not had.
#[derive(Clone, Copy, Debug, PartialEq, Eq)]
pub struct NoMemory;

impl From<AllocError> for NoMemory {
    fn from(_: AllocError) -> Self {
        NoMemory
    }
}

impl<T: Drop> From<AllocFailed<T>> for NoMemory {
    fn from(_: AllocFailed<T>) -> Self {
        NoMemory
    }
}

/// A length in nanometres.
#[derive(Clone, Copy, Debug, PartialEq, Eq, PartialOrd, Ord)]
pub struct Nm(pub i64);

/// Why a text was refused: by a fault at a line, counted from 1, or for want of memory.
#[derive(Clone, Copy, Debug, PartialEq, Eq)]
pub enum Refusal<F> {
    Fault { line: u32, fault: F },
    NoMemory,
}
