//! All runners of a script, each on a thread of its own: the call that starts them, joins them, and gives the history that they
//! made. It is complete, in whatever order the threads took their turns.
//!
//! Nothing is said of waiting: not that a run ends.
#![tactic(auto)]

mod collecting;
mod crew;
mod ending;
mod joining;
mod opened;
mod run;
mod seat;
mod seating;
mod sent;
mod splitting;

pub(crate) use crew::{Account, Crew, Desk};
pub(crate) use opened::{Opened, open_blank};
pub use run::run_sessions;
pub use sent::Sent;
