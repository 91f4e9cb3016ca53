//! Laws of sessions that run one after another: their calls have one order, and what their exports answer follows from it.
#![tactic(auto)]

mod laws;

pub use laws::{a_relay_exports_in_turn, a_relay_has_one_order, exports_answer_for_their_plate};
