//! The step machine: what sessions and workers may do to a plate and its slots, and the state after it.
#![tactic(auto)]

pub mod entry;
pub mod keeping;
mod look;
mod plates;
pub mod stability;
pub mod state;
#[cfg(test)]
mod tests;

pub use entry::{Answer, Command, Entry, Mode, Pending, Reply, What};
pub use keeping::histories_keep_pending;
pub use pl_ports::Actor;
pub use stability::results_last;
pub use state::{Closing, Start, State};
