//! The configuration of a plate, what an object overrides of it, and settings texts.
#![tactic(auto)]

pub mod config;
pub mod fault;
mod line;
pub mod overrides;
pub mod settings;
#[cfg(test)]
mod tests;
mod values;

pub use config::Config;
pub use fault::IniFault;
pub use overrides::Overrides;
pub use pl_keys::{
    Key, Kind, StepMask, Value, ValueFault, ValueStop, all_keys, default_value, direct_steps,
    is_object_key, key_of, kind_of, name_of, place_of, read_value, trim, trim_end, trim_start,
};
pub use settings::{IniSet, read_ini};
