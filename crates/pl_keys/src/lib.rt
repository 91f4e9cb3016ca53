//! The thirty options: their table, their values, and how a value is read.
#![tactic(auto)]

pub mod key;
pub mod read;
pub mod step_mask;
mod table;
#[cfg(test)]
mod tests;
pub mod value;
pub mod white;

pub use key::{Key, Kind, all_keys, is_object_key, key_of, kind_of, name_of, place_of};
pub use read::read_value;
pub use step_mask::{StepMask, direct_steps};
pub use value::{Value, ValueFault, ValueStop, default_value};
pub use white::{trim, trim_end, trim_start};
