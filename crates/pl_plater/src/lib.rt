//! The whole program as one call.
#![tactic(auto)]

#[cfg(test)]
mod bodies;
mod demo;
#[cfg(test)]
mod edit_tests;
#[cfg(test)]
mod examples;
mod run;
mod slice;
#[cfg(test)]
mod slice_tests;
pub mod status;
#[cfg(test)]
mod tests;
mod top;
mod words;

// Why an input is refused: a script by `Script` alone, and an input that is too long by `Script(TooLong)`.
pub use pl_scripted::run_script;
pub use pl_sliced::SliceFault as TopFault;
pub use slice::slice_once;
pub use status::Status;
pub use top::{LIMIT, plater};
