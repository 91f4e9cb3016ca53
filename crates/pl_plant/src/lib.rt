//! The plant: the machine of steps with its journal and the results that are kept.
#![tactic(auto)]

mod entries;
mod keeping;
pub mod plant;
mod raising;
#[cfg(test)]
mod tests;
pub mod ticket;
#[cfg(test)]
mod turn_tests;
mod turned;

pub use plant::Plant;
pub use ticket::{Begun, Ticket};
