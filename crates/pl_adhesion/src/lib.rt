//! What keeps a print on the bed: the cells on which it stands, and the skirt and the brim round them.
#![tactic(auto)]

mod bed;
mod cells;
mod laws;
mod reach;
mod rectangles;
mod spreading;
#[cfg(test)]
mod tests;

pub use bed::put_on_bed;
pub use laws::brim_cells_are_within_steps;
pub use rectangles::skirt;
pub use spreading::brim;
