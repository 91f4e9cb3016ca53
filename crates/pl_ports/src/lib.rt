//! The ends of a program: sources and sinks that count their faults, the gate that runners pass, and the probe that jobs ask.
#![tactic(auto)]

pub mod edge;
pub mod ends;
pub mod gate;
pub mod memory;
pub mod probe;
pub mod steady;
#[cfg(test)]
mod tests;
pub mod whole;

pub use edge::{StdinSource, StdoutSink};
pub use ends::{Failed, ReadStop, Sink, SinkStop, Source};
pub use gate::{Actor, Gate, HoldGate, OpenGate, Point};
pub use memory::{MemorySink, MemorySource};
pub use probe::{Probe, ScriptedProbe};
pub use steady::{SteadySink, SteadySource};
pub use whole::{put_all, put_pieces, read_all};
