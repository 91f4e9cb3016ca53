//! The plate: its configuration, its objects, its edits, and why it can't be printed.
#![tactic(auto)]

mod changes;
mod effective;
mod finding;
pub mod instances;
mod laws;
mod meshes;
pub mod object;
pub mod plate;
mod problem;
mod stop;
#[cfg(test)]
mod tests;
mod ways;

pub use instances::{Instances, Shift};
pub use laws::{
    a_drop_moves_the_later_ones_down, edits_are_what_they_say, edits_keep_other_meshes,
    settings_go_over_the_configuration, settings_texts_have_one_reading,
    the_least_place_has_the_problem,
};
pub use meshes::{all_places, changed_meshes};
pub use object::Object;
pub use pl_edit::{Block, Edit, EditRefusal, EditReply, ValueText};
pub use plate::Plate;
