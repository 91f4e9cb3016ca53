//! The run of a script: the commands of each of its sessions, and the runners that make them.
#![tactic(auto)]

mod commands;
mod run;

pub use run::run_script;
