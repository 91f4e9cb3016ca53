//! The slots of a plate, what each needs, and what an apply touches.
#![tactic(auto)]

mod closing;
mod direct;
mod laws;
mod needing;
mod options;
mod slots;
mod steps;
#[cfg(test)]
mod tests;
mod touching;

pub use closing::closure;
pub use laws::{
    needs_are_present_and_earlier, needs_of_untouched_slots_stay, touched_slots_follow_the_plates,
    two_rounds_are_the_closure, what_is_touched_takes,
};
pub use needing::{needs, present};
pub use touching::{touched, touched_but};
