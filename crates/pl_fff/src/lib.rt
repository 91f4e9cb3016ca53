//! Prints of molten plastic, layer by layer, as a technology: the jobs of the slots and their runs.
#![tactic(auto)]

pub mod fff;
mod held;
pub mod job;
mod kept_object;
mod object_jobs;
mod object_runs;
pub mod parts;
mod print_jobs;
mod print_runs;
mod run;
mod slot_jobs;
#[cfg(test)]
mod tests;

pub use fff::{Fff, FffBench};
pub use job::{
    BrimJob, ExportJob, FffJob, InfillJob, IroningJob, PerimetersJob, PrepareJob, SkirtJob,
    SliceJob, SupportJob, TowerJob,
};
pub use parts::{ExportPlace, Foot};
pub use slot_jobs::slot_job;
