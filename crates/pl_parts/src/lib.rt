//! What a print consists of, from lists that stand elsewhere, and its G-code.
#![tactic(auto)]

mod laws;
pub mod lists;
pub mod parts;
pub mod place;
mod writing;

pub use laws::lists_are_the_print;
pub use lists::PrintLists;
pub use parts::PrintParts;
pub use place::PlaceParts;
pub use writing::gcode;
