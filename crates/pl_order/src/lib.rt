//! Laws of runners in order: what keeps a session or a worker in order, and that runners in order, all ended, make a history complete.
#![tactic(auto)]

mod calling;
mod ending;
mod keeping;

pub use calling::sessions_may_call;
pub use ending::ended_runners_complete_a_history;
pub use keeping::{
    a_bye_keeps_order, a_call_keeps_order, a_closing_keeps_order, a_start_keeps_order,
    newcomers_are_in_order, others_keep_order,
};
