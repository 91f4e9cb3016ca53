//! The numbers of a demo: its own number is at most 999, and its sessions are counted from 1.
ghost use Rattle.std.specs.Prelude.{◌≡◌, ◌≤◌, IfOk};
ghost use Rattle.pl_demo.specs.Numbers as numbers;
ghost use Rattle.pl_demo.specs.Script as script;

use crate::solid::Size;
use pl_units::{Digits, NoMemory, Text};
use std::alloc::Global;

// How many sessions a demo has.
pub(crate) fn sessions_of(n: u64) -> u64
    ensures value { result ≡ numbers.sessions_of n }
    ensures few { result ≤ 4 }
{
    2 + n % 3
}

// How many commands a session has.
pub(crate) fn calls_of(i: u64) -> u64
    ensures { result ≡ numbers.calls_of i }
{
    if i == 1 { 5 } else { 6 }
}

// The box of a session.
pub(crate) fn size_of(n: u64, i: u64) -> Size
    requires demo { n ≤ 999 }
    requires session { i ≤ 4 }
    ensures { result ≡ script.size_of n i }
{
    Size {
        x: 4 + (n + 3 * i) % 9,
        y: 4 + (n + 5 * i) % 7,
        z: 2 + (n + i) % 4,
    }
}

// Where the object of a session is moved to, to the right, in millimetres.
pub(crate) fn right_of(i: u64) -> u64
    requires { i ≤ 4 }
    ensures { result ≡ numbers.right_of i }
{
    30 * i
}

// And upwards.
pub(crate) fn back_of(n: u64, i: u64) -> u64
    requires demo { n ≤ 999 }
    requires session { i ≤ 4 }
    ensures { result ≡ numbers.back_of n i }
{
    20 + 10 * ((n + i) % 5)
}

// How dense the inside of a session's object is, in percent.
pub(crate) fn density_of(n: u64, i: u64) -> u64
    requires demo { n ≤ 999 }
    requires session { i ≤ 4 }
    ensures { result ≡ numbers.density_of n i }
{
    10 + 10 * ((n + i) % 4)
}

// A number of percent.
pub(crate) fn percent_of(alloc: Global, k: u64) -> Result<Text, NoMemory>
    ensures { IfOk result (λ text. text ≡ script.percent_of k) }
{
    let mut text = Text::copy_of(alloc, Digits::whole(k).bytes())?;
    text.append(b"%")?;
    Ok(text)
}
