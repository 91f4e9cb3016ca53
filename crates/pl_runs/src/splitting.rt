//! The passes of all numbers.
ghost use Rattle.std.specs.Prelude.{◌≡◌, IfOk, length};
ghost use Rattle.pl_turn.specs.Passes.{splits};
ghost use Rattle.pl_runs.specs.Places.{AreFresh, IsFresh};

use pl_turn::{Pass, TurnLock, Turned};
use pl_units::NoMemory;
use std::alloc::Global;

/// Splits 23 passes off the first one, of numbers 2 to 24.
pub(crate) fn split_all<V: Turned>(
    alloc: Global,
    lock: &TurnLock<V>,
    mut first: Pass<V>,
) -> Result<(Pass<V>, Vec<Pass<V>>), NoMemory>
    requires fresh { IsFresh lock.now 1 first }
    requires splits { splits first ≡ 0 }
    ensures first { IfOk result (λ r. IsFresh lock.now 1 r.0 × (splits r.0 ≡ 23)) }
    ensures rest { IfOk result (λ r. AreFresh lock.now 2 r.1.items × (length r.1.items ≡ 23)) }
{
    let mut rest = Vec::with_capacity(alloc, 23)?;
    for k in 0..23u8 {
        let pass = lock.split(&mut first);
        rest.push_reserved(pass);
    }
    Ok((first, rest))
}
