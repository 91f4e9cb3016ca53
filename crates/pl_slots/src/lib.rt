//! What the slots of a plate are: their results, in how many batches these are computed, and their names.
#![tactic(auto)]

mod laws;
mod names;
pub mod output;
#[cfg(test)]
mod tests;

pub use laws::{
    results_of_objects_are_printed, slots_are_lawful, slots_have_the_batches_of_their_steps,
    slots_have_the_results_of_their_steps,
};
pub use names::put_name;
pub use output::{FffOutput, Lengths, Sliced, ToolLists, TowerSet};
