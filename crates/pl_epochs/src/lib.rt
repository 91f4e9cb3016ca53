//! A table of a word for each slot. One writer raises the words, and any number of readers load them. A reader never reads a
//! lower number of a slot than it has read before, and where it meets the writer, no number that it has read is above the
//! writer's count of that slot.
//!
//! Nothing is said of when a reader sees a word that was raised.
#![tactic(auto)]

mod plays;
mod seats;
mod table;
#[cfg(test)]
mod tests;
mod view;

pub use seats::{ReaderSeat, TableName, WriterSeat};
pub use table::EpochTable;
