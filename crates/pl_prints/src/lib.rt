//! What goes round all objects of a plate: the heights of its print and their tools, the cells on which it stands, skirt,
//! brim and wipe tower.
#![tactic(auto)]

mod footing;
mod heights;
mod laws;
pub mod layers;
mod options;
mod ranges;
mod rounds;
#[cfg(test)]
mod tests;
mod used;

pub use footing::{Footprint, footing_plane, ground_plane};
pub use heights::{heights_of_layers, places, tops};
pub use laws::rounds_are_those_of_the_plate;
pub use layers::{ObjectLayers, layer_with_top};
pub use ranges::{few_heights, few_layers, in_range};
pub use rounds::{brim, brim_width, skirt, skirt_count, skirt_distance, tower};
pub use used::{all_layers, tools, used_at};
