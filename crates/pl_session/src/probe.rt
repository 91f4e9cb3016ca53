ghost use Rattle.std.specs.Prelude.{◌≡◌, false};

use pl_ports::Probe;

/// Lets every job run to its end.
#[derive(Drop)]
pub(crate) struct SteadyProbe {
    polls: u32,
}

impl SteadyProbe {
    /// It has not been asked.
    pub(crate) fn new() -> SteadyProbe
        ensures { result.polls ≡ 0 }
    {
        SteadyProbe { polls: 0 }
    }
}

impl Probe for SteadyProbe {
    type Aim = ();

    ghost polls = { λ p. p.polls };

    ghost raised = { λ _. false };

    ghost aim = { λ _. tt };

    fn poll(&mut self) -> bool {
        self.polls += 1;
        false
    }
}
