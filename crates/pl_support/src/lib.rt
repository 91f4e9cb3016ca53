//! The cells that hold up what hangs over.
#![tactic(auto)]

mod passes;
mod planes;
mod steps;
#[cfg(test)]
mod tests;

pub use planes::support;
pub use steps::{
    cells_below, cells_over_plate, covered_with, highest_cells, no_cells, nothing_covered,
};
