//! Which cells of a layer are filled how, and the strokes that fill them.
#![tactic(auto)]

mod filling;
mod layers;
mod lines;
pub mod surface;
#[cfg(test)]
mod tests;

pub use filling::strokes;
pub use layers::{infill_lines, ironing_lines, support_lines};
pub use surface::{SurfaceSet, surfaces};
