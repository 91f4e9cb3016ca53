//! What one object is printed as, computed layer by layer.
#![tactic(auto)]

pub mod filling;
pub mod lists;
pub mod options;
pub mod outlines;
pub mod parts;
mod preparing;
mod slicing;
mod standing;
#[cfg(test)]
mod tests;

pub use filling::{
    SupportSet, infill, ironing, layer_infill, layer_ironing, layer_support, support_strokes,
};
pub use lists::{LoopLists, Loops, StrokeLists, Strokes, Surfaces};
pub use options::ObjectOptions;
pub use outlines::{LayerPerimeters, PerimeterSet, layer_perimeters, perimeters};
pub use parts::{ObjectParts, object_parts};
pub use pl_support::support;
pub use preparing::{layer_surfaces, prepare};
pub use slicing::slices;
pub use standing::corners;
