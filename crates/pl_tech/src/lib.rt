//! Slots, kept results, and what the machine needs of a kind of print.
#![tactic(auto)]

pub mod kept;
pub mod names;
pub mod problem;
pub mod slot;
pub mod slot_set;
pub mod technology;
#[cfg(test)]
mod tests;
pub mod toy;

pub use kept::Kept;
pub use names::put_front;
pub use problem::Problem;
pub use slot::Slot;
pub use slot_set::SlotSet;
pub use technology::{Ran, Technology};
pub use toy::{Toy, ToyBench, ToyEdit, ToyJob, ToyOutput, ToyPlate};
