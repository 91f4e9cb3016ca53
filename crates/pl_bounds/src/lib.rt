//! Laws of legal histories: how often slots are started, how high their epochs get, and why work is stopped.
#![tactic(auto)]

mod laws;

pub use laws::{
    calls_are_the_commands, epochs_count_applies_and_cancels, histories_are_short,
    histories_of_scripts_are_short, late_results_were_invalidated, slots_start_once_an_epoch,
};
