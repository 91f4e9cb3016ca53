//! Trials of the whole program: sessions and workers whose turns come in any order, gates that hold them, and demos. It has tests alone.
#![tactic(auto)]

#[cfg(test)]
mod demo_tests;
#[cfg(test)]
mod gates;
#[cfg(test)]
mod program;
#[cfg(test)]
mod session_tests;
#[cfg(test)]
mod worker_tests;
