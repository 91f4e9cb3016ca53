//! The input of the command `slice`: a text with a mesh and perhaps settings, and the plate that it means.
#![tactic(auto)]

pub mod fault;
mod laws;
mod plate;
mod read;
#[cfg(test)]
mod tests;
mod text;

pub use fault::SliceFault;
pub use laws::{slice_texts_have_one_reading, slice_texts_mean_one_plate};
pub use plate::read_sliced;
