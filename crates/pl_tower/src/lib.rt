//! The tools of each height in order, and the strokes of the wipe tower.
#![tactic(auto)]

mod heights;
pub mod laws;
mod order;
#[cfg(test)]
mod tests;
pub mod tool_set;
pub mod tools;
mod tower;

pub use heights::{tool_after, tools_of_heights};
pub use order::tool_order;
pub use tool_set::ToolSet;
pub use tools::Tools;
pub use tower::tower_block;
