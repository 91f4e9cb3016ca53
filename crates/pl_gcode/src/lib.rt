//! The G-code of a print.
#![tactic(auto)]

mod filament;
mod gcode;
mod object;
mod pace;
mod parts;
mod path;
mod settings;
mod spot;
#[cfg(test)]
mod tests;
mod tools;

pub use filament::extrusion;
pub use gcode::{put_head, put_height, put_tail};
pub use parts::Parts;
