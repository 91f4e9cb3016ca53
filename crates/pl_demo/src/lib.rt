//! A demo: a script of a few sessions, in which each waits for the whole session before it, and the summary of its history.
#![tactic(auto)]

mod commands;
mod numbers;
mod run;
mod script;
mod solid;
mod summary;

pub use commands::{demo_sessions, demos_are_relays};
pub use run::run_demo;
pub use script::demo_script;
