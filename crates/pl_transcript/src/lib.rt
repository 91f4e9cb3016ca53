//! The transcript of a history, written into a sink.
#![tactic(auto)]

mod commands;
pub mod entries;
pub mod laws;
mod line;
#[cfg(test)]
mod plain;
mod replies;
mod slots;
#[cfg(test)]
mod tests;

pub use entries::{put_entry, put_transcript};
pub use laws::transcripts_are_lines;
