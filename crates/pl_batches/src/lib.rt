//! The steps of a print, computed in batches of eight layers, with one poll of a probe before each batch.
#![tactic(auto)]

mod exporting;
mod filling;
mod layered;
mod outlines;
mod preparing;
mod slicing;
mod supporting;
#[cfg(test)]
mod tests;
mod tools;

pub use exporting::gcode_batches;
pub use filling::{infill_batches, ironing_batches};
pub use outlines::perimeter_batches;
pub use preparing::surface_batches;
pub use slicing::slice_batches;
pub use supporting::support_batches;
pub use tools::tool_batches;
