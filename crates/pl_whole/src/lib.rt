//! The G-code of a plate, on one thread.
#![tactic(auto)]

mod around;
pub mod fault;
mod objects;
mod slicing;
#[cfg(test)]
mod tests;

pub use fault::WholeFault;
pub use slicing::slice_whole;
