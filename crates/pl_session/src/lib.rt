//! One session on the calling thread, without workers: its commands become a complete history.
#![tactic(auto)]

mod laws;
mod probe;
mod run;
mod session;
#[cfg(test)]
mod tests;

pub use laws::one_complete_history;
pub use run::{Ended, run_session};
