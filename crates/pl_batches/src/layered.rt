//! The loop over the batches of a step.
ghost use Rattle.std.specs.Prelude.{◌≡◌, ℕ, ◌<◌, ◌≤◌, ◌+◌, ◌^◌, true, false, IfOk};
ghost use Rattle.pl_tech.specs.Ran.{MatchRan};
ghost use Rattle.pl_batches.specs.Batches.{batches_of};

use pl_ports::Probe;
use pl_tech::Ran;
use pl_units::NoMemory;
use std::alloc::Global;

/// The work of a step, layer by layer.
pub(crate) trait Layered {
    /// What is made of the layers.
    type Made: Drop;

    /// How many layers there are.
    ghost layers: { Self → ℕ };

    /// What is made when so many layers are done.
    ghost reaches: { Self → ℕ → Self.Made → Type 0 };

    /// Does the next layer: that of the number, counted from 0.
    fn put_layer(&self, alloc: Global, number: u32, made: &mut Self::Made) -> Result<(), NoMemory>
        requires there { number < layers self.now }
        requires before { reaches self.now number made.old }
        ensures { IfOk result (λ _. reaches self.now (number + 1) made.new) };
}

// Does the layers from one number up to another.
fn batch<W: Layered>(
    alloc: Global,
    work: &W,
    first: u32,
    end: u32,
    made: &mut W::Made,
) -> Result<(), NoMemory>
    requires order { first ≤ end }
    requires there { end ≤ W.layers work.now }
    requires before { W.reaches work.now first made.old }
    ensures { IfOk result (λ _. W.reaches work.now end made.new) }
{
    for number in first..end {
        work.put_layer(alloc, number, made)?;
    }
    Ok(())
}

/// All layers in batches of eight, with one poll before each batch and no other. The last batch may have fewer.
pub(crate) fn in_batches<W: Layered, P: Probe>(
    alloc: Global,
    work: &W,
    layers: u32,
    start: W::Made,
    probe: &mut P,
) -> Result<Ran<W::Made>, NoMemory>
    requires few { layers + 8 < 2 ^ 32 }
    requires layers { layers ≡ W.layers work.now }
    requires start { W.reaches work.now 0 start }
    requires unasked { P.polls probe.old ≡ 0 }
    requires quiet { P.raised probe.old ≡ false }
    ensures same_aim { P.aim probe.new ≡ P.aim probe.old }
    ensures ran { IfOk result (λ r. MatchRan r (λ made. W.reaches work.now layers made) (P.raised probe.new ≡ true)) }
    ensures polls { IfOk result (λ r. MatchRan r (λ _. (P.raised probe.new ≡ false) × (P.polls probe.new ≡ batches_of layers)) (P.polls probe.new ≤ batches_of layers)) }
{
    let mut made = start;
    for number in 0..(layers + 7) / 8 {
        if probe.poll() {
            return Ok(Ran::Stopped);
        }
        let end = layers.min(8 * number + 8);
        batch(alloc, work, 8 * number, end, &mut made)?;
    }
    Ok(Ran::Done(made))
}
