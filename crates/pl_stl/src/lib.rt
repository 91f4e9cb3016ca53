//! Meshes, and how they are read from ASCII STL.
#![tactic(auto)]

mod fault;
mod form;
mod laws;
pub mod mesh;
mod plain;
mod read;
pub mod span;

pub use fault::StlFault;
pub use laws::mesh_texts_have_one_reading;
pub use mesh::{Facet, Mesh, Point3};
pub use read::read_stl;
pub use span::{Part, Span};

#[cfg(test)]
mod tests;
