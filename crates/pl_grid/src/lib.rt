//! Planes of cells, and the runs and strokes on them.
#![tactic(auto)]

pub mod extent;
pub mod lists;
pub mod plane;
mod rows;
mod runs;
pub mod sets;
pub mod stroke;
#[cfg(test)]
mod tests;
mod turn;
mod words;

pub use extent::Box2;
pub use lists::{Loop, Planes};
pub use plane::Plane;
pub use stroke::{Axis, Corner, Run, Stroke};
