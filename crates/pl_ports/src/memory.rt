ghost use Rattle.std.specs.Prelude.{◌≡◌, ◌≢◌, ◌<◌, ◌≤◌, ◌+◌, ◌^◌, ◌-◌, min, if◌then◌else◌, ℕ, List, [], ◌++◌, drop, length, take, Some, IsTrue, ◌↔◌, IfOk, is_err, OnErr, OnOk};
ghost use Rattle.std.specs.Io.KnownBytes.{Consumes, Appends, Keeps, IsAtEnd};
ghost use Rattle.pl_ports.specs.Causes.{Rose, one_more};
ghost use Rattle.pl_ports.specs.Failing.{fails_at};

use crate::{Failed, Sink, SinkStop, Source};
use pl_units::Text;
use std::alloc::Global;
use std::marker::Model;

// Which calls fail, by their numbers from 0.
#[derive(Drop)]
struct Plan {
    piece: usize,
    failing: Vec<u32>,
    calls: u64,
    faults: u64,
}

impl Plan {
    // Counts a call, and tells whether it fails.
    fn call(&mut self) -> bool
        ensures fails { result ≡ fails_at self.old.failing.items self.old.calls }
        ensures same { self.new.piece ≡ self.old.piece }
        ensures list { self.new.failing ≡ self.old.failing }
        ensures calls { self.new.calls ≡ min (self.old.calls + 1) (2 ^ 64 - 1) }
        ensures later { self.old.faults ≤ self.new.faults }
        ensures faults { self.new.faults ≡ (if result then min (self.old.faults + 1) (2 ^ 64 - 1) else self.old.faults) }
    {
        let fails = self
            .failing
            .iter()
            .any(|call| u64::from(*call) == self.calls);
        self.calls = self.calls.saturating_add(1);
        if fails {
            self.faults = self.faults.saturating_add(1);
        }
        fails
    }
}

/// Bytes in memory, given at most `piece` at a time; the calls whose numbers, counted from 0, are in `failing` fail.
#[derive(Drop)]
pub struct MemorySource {
    bytes: Text,
    at: usize,
    plan: Plan,
    ghost within: { at ≤ length bytes },
    ghost piece: { 0 < plan.piece },
}

impl MemorySource {
    ghost use Rattle.pl_ports.specs.MemoryEnds.{source_left, source_calls, source_failing, source_faults, source_piece};

    /// All the bytes are still to come. `piece` is at least 1.
    pub fn new(bytes: Text, piece: usize, failing: Vec<u32>) -> MemorySource
        requires { 0 < piece }
        ensures bytes { source_left result ≡ bytes }
        ensures piece { source_piece result ≡ piece }
        ensures failing { source_failing result ≡ failing.items }
        ensures calls { source_calls result ≡ 0 }
        ensures faults { source_faults result ≡ 0 }
    {
        MemorySource {
            bytes,
            at: 0,
            plan: Plan {
                piece,
                failing,
                calls: 0,
                faults: 0,
            },
        }
    }
}

impl Source for MemorySource {
    ghost use Rattle.pl_ports.specs.MemoryEnds.{source_left, source_calls, source_failing, source_faults, source_piece};

    ghost left = { λ s. Some (source_left s) };

    ghost faults = { source_faults };

    fn read(&mut self, buffer: &mut [u8]) -> Result<usize, Failed>
        requires { 0 < length buffer.old }
        ensures count { IfOk result (λ n. n ≤ length buffer.new) }
        ensures bytes { IfOk result (λ n. Consumes (Some (source_left self.old)) (Some (source_left self.new)) (take n buffer.new)) }
        ensures end { IfOk result (λ n. n ≡ 0 → IsAtEnd (Some (source_left self.new))) }
        ensures nothing_taken { OnErr result (Keeps (Some (source_left self.old)) (Some (source_left self.new))) }
        ensures kept { OnOk result (source_faults self.new ≡ source_faults self.old) }
        ensures rose { OnErr result (Rose (source_faults self.old) (source_faults self.new)) }
        ensures later { source_faults self.old ≤ source_faults self.new }
        // Each failure counts once, and nothing else does.
        ensures counted { OnErr result (source_faults self.new ≡ one_more (source_faults self.old)) }
        // Exactly the calls in the list fail.
        ensures fails { is_err result ≡ fails_at (source_failing self.old) (source_calls self.old) }
        ensures piece { IfOk result (λ n. n ≤ source_piece self.old) }
        ensures calls { source_calls self.new ≡ min (source_calls self.old + 1) (2 ^ 64 - 1) }
        ensures same { (source_failing self.new ≡ source_failing self.old) × (source_piece self.new ≡ source_piece self.old) }
    {
        if self.plan.call() {
            return Err(Failed);
        }
        let rest = &self.bytes.bytes()[self.at..];
        let count = rest.len().min(buffer.len()).min(self.plan.piece);
        buffer[..count].copy_from_slice(&rest[..count]);
        self.at += count;
        Ok(count)
    }
}

/// Bytes in memory, taken at most `piece` at a time; the calls whose numbers, counted from 0, are in `failing` fail.
#[derive(Drop)]
pub struct MemorySink {
    bytes: Vec<u8>,
    plan: Plan,
    ghost piece: { 0 < plan.piece },
}

impl MemorySink {
    ghost use Rattle.pl_ports.specs.MemoryEnds.{sink_held, sink_calls, sink_failing, sink_faults, sink_piece};

    /// Nothing is held. `piece` is at least 1.
    pub fn new(alloc: Global, piece: usize, failing: Vec<u32>) -> MemorySink
        requires { 0 < piece }
        ensures held { sink_held result ≡ [] }
        ensures piece { sink_piece result ≡ piece }
        ensures failing { sink_failing result ≡ failing.items }
        ensures calls { sink_calls result ≡ 0 }
        ensures faults { sink_faults result ≡ 0 }
    {
        MemorySink {
            bytes: Vec::new(alloc),
            plan: Plan {
                piece,
                failing,
                calls: 0,
                faults: 0,
            },
        }
    }

    /// The bytes that it was given.
    pub fn held(&self) -> &[u8]
        ensures { result.now ≡ sink_held self.now }
    {
        &self.bytes
    }
}

impl Sink for MemorySink {
    ghost use Rattle.pl_ports.specs.MemoryEnds.{sink_held, sink_calls, sink_failing, sink_faults, sink_piece};

    ghost held = { λ s. Some (sink_held s) };

    ghost faults = { sink_faults };

    fn write(&mut self, piece: &[u8]) -> Result<usize, SinkStop>
        requires { 0 < length piece.now }
        ensures at_least { IfOk result (λ n. 0 < n) }
        ensures count { IfOk result (λ n. n ≤ length piece.now) }
        ensures bytes { IfOk result (λ n. Appends (Some (sink_held self.old)) (Some (sink_held self.new)) (take n piece.now)) }
        ensures nothing_put { OnErr result (Keeps (Some (sink_held self.old)) (Some (sink_held self.new))) }
        ensures kept { OnOk result (sink_faults self.new ≡ sink_faults self.old) }
        ensures rose { result ≡ Err SinkStop.Failed → Rose (sink_faults self.old) (sink_faults self.new) }
        ensures later { sink_faults self.old ≤ sink_faults self.new }
        // Each failure counts once, and nothing else does.
        ensures counted { result ≡ Err SinkStop.Failed → sink_faults self.new ≡ one_more (sink_faults self.old) }
        ensures uncounted { result ≢ Err SinkStop.Failed → sink_faults self.new ≡ sink_faults self.old }
        // Exactly the calls in the list fail; another may want memory.
        ensures fails { (result ≡ Err SinkStop.Failed) ↔ IsTrue (fails_at (sink_failing self.old) (sink_calls self.old)) }
        ensures piece { IfOk result (λ n. n ≡ min (sink_piece self.old) (length piece.now)) }
        ensures calls { sink_calls self.new ≡ min (sink_calls self.old + 1) (2 ^ 64 - 1) }
        ensures same { (sink_failing self.new ≡ sink_failing self.old) × (sink_piece self.new ≡ sink_piece self.old) }
    {
        if self.plan.call() {
            return Err(SinkStop::Failed);
        }
        let count = piece.len().min(self.plan.piece);
        match self.bytes.extend_from_slice(&piece[..count]) {
            Ok(()) => Ok(count),
            Err(_) => Err(SinkStop::NoMemory),
        }
    }
}
