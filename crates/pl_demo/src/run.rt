//! A demo that is run.
ghost use Rattle.std.specs.Prelude.{◌≡◌, ◌≤◌, IfOk};
ghost use Rattle.pl_demo.specs.Summary.{summary};

use crate::commands::{demo_sessions, demos_are_relays};
use crate::summary::summary_of;
use pl_edit::Edit;
use pl_ports::Gate;
use pl_relay::a_relay_exports_in_turn;
use pl_runs::{Sent, run_sessions};
use pl_tech::Technology;
use pl_units::{NoMemory, Text};
use std::alloc::Global;
use std::sync::Wait;
use std::thread::Threads;

/// How many workers slice beside the sessions of a demo.
const WORKERS: u8 = 2;

/// Runs demo n, from 0 to 999: its sessions and two workers, each on a thread of its own where one is to be had, which pass the gate on
/// their way; and gives its summary. Whatever order they take their turns in, that is the same text. The one refusal is for want of
/// memory. It waits for its threads.
pub fn run_demo<T: Sent + Technology<Edit = Edit>, R: Threads + Wait + Sync, G: Gate + Sync>(
    rt: &R,
    alloc: Global,
    n: u16,
    gate: &G,
) -> Result<Text, NoMemory>
    requires { n ≤ 999 }
    ensures { IfOk result (λ text. text ≡ summary T.meaning n) }
{
    demos_are_relays();
    a_relay_exports_in_turn::<T>();
    let sessions = demo_sessions(alloc, n)?;
    let ended = run_sessions::<T, R, G>(rt, alloc, sessions, WORKERS, gate)?;
    summary_of::<T>(alloc, n, &ended.journal)
}
