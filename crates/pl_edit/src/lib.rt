//! The edits of a plate, and what they answer.
#![tactic(auto)]

pub mod block;
pub mod edit;
pub mod reply;
#[cfg(test)]
mod tests;

pub use block::{Block, ValueText};
pub use edit::Edit;
pub use reply::{EditRefusal, EditReply};
