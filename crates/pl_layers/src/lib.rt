//! The layers of a mesh: their heights, and the cells of each.
#![tactic(auto)]

pub mod arrow;
pub mod columns;
pub mod heights;
pub mod hits;
pub mod rows;
pub mod slices;
pub mod sweep;
#[cfg(test)]
mod tests;
pub mod turned;

pub use heights::{Heights, layer_count, layer_height, z_of};
pub use slices::slice_layer;
pub use sweep::Sweep;
pub use turned::cells;
