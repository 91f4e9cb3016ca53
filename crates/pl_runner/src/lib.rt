//! Runners: a session or a worker that takes turns at the lock of the plant, and between them runs the job that it has started.
#![tactic(auto)]

mod closed;
mod closing;
#[cfg(test)]
mod closing_tests;
mod closing_turns;
mod finishing;
#[cfg(test)]
mod gate_tests;
mod idle;
mod job;
mod look;
mod looked;
mod looking;
mod probe;
mod run;
mod runner;
#[cfg(test)]
mod runner_tests;
#[cfg(test)]
mod scarce;
#[cfg(test)]
mod scarce_tests;
mod standing;
mod step;
mod turns;

pub(crate) use closed::Closed;
pub(crate) use closing::{publish, retire};
pub(crate) use closing_turns::{closing_down_turn, publish_turn, retire_turn};
pub(crate) use job::run_job;
pub(crate) use looked::Looked;
pub(crate) use looking::{ask, look_for_work, say_bye};
pub(crate) use probe::{Aim, SlotProbe};
pub use run::{session, worker};
pub use runner::Runner;
pub use step::Step;
pub(crate) use turns::{bye_turn, session_turn, worker_turn};
