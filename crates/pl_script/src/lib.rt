//! The text of a script: workers, blocks of data, and the command lines of sessions.
#![tactic(auto)]

pub mod fault;
mod forms;
pub mod laws;
mod line;
mod lines;
mod numbers;
mod read;
pub mod script;
mod stuck;
#[cfg(test)]
mod tests;
mod verb;
mod words;

pub use fault::{LineStop, ScriptFault};
pub use laws::{command_lines_have_one_reading, script_texts_have_one_reading};
pub use lines::LinesLeft;
pub use numbers::whole_of;
pub use read::{block_after, data_name, is_data, is_head, read_script};
pub use script::{Blocks, Line, Lines, Script, SharedCommand};
pub use stuck::stuck_line;
pub use words::{is_passed_over, line_text};
