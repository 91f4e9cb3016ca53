//! A lock whose threads take turns in the order of the tickets that they drew, round a value that keeps a history. Each thread
//! has a pass with a number, and knows of the history what its own pass has seen, and that of its number it has just its own entries.
//!
//! Nothing is said of waiting: not that a turn comes, and not when.
#![tactic(auto)]

mod changes;
mod lock;
mod make;
mod plays;
#[cfg(test)]
mod tests;
mod tickets;
mod turn;
mod turned;
mod view;

pub use lock::{Pass, TurnLock};
pub use turn::{Out, Turn};
pub use turned::Turned;
pub use view::Joined;
