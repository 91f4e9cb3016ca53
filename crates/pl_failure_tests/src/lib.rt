//! Trials of failures: a sink or a source that fails at each call in turn, a script that is cut after each byte, and want of memory in a
//! job. It has tests alone.
#![tactic(auto)]

#[cfg(test)]
mod cut_tests;
#[cfg(test)]
mod end_tests;
#[cfg(test)]
mod memory_tests;
#[cfg(test)]
mod script;
