ghost use Rattle.std.specs.Prelude.{◌≡◌, ℕ, ◌<◌, ◌+◌, ◌-◌, ◌^◌, Bool, false, slice_index_or};

use std::marker::Model;

/// Asked by a running job whether to stop. After an answer true it is not asked again.
pub trait Probe {
    /// What it watches.
    type Aim;

    /// How many answers it has given.
    ghost polls: { Self → ℕ };

    /// Whether its last answer was true.
    ghost raised: { Self → Bool };

    /// What it watches, which no poll changes.
    ghost aim: { Self → Self.Aim };

    /// Whether to stop. It has given fewer than 2^32 - 1 answers, and none was true.
    fn poll(&mut self) -> bool
        requires quiet { raised self.old ≡ false }
        requires room { polls self.old < 2 ^ 32 - 1 }
        ensures counted { polls self.new ≡ polls self.old + 1 }
        ensures answered { raised self.new ≡ result }
        ensures same_aim { aim self.new ≡ aim self.old };
}

/// Gives the answers that it was made with, and then false.
#[derive(Drop)]
pub struct ScriptedProbe {
    answers: Vec<bool>,
    polls: u32,
    raised: bool,
}

impl ScriptedProbe {
    ghost use Rattle.pl_ports.specs.Scripted.{probe_answers, probe_polls, probe_raised};

    /// No answer has been given.
    pub fn new(answers: Vec<bool>) -> ScriptedProbe
        ensures answers { probe_answers result ≡ answers.items }
        ensures polls { probe_polls result ≡ 0 }
        ensures raised { probe_raised result ≡ false }
    {
        ScriptedProbe {
            answers,
            polls: 0,
            raised: false,
        }
    }

    /// How many answers it has given.
    pub fn polls(&self) -> u32
        ensures { result ≡ probe_polls self.now }
    {
        self.polls
    }
}

impl Probe for ScriptedProbe {
    ghost use Rattle.pl_ports.specs.Scripted.{probe_answers, probe_polls, probe_raised};

    type Aim = ();

    ghost polls = { probe_polls };

    ghost raised = { probe_raised };

    ghost aim = { λ _. tt };

    fn poll(&mut self) -> bool
        requires quiet { probe_raised self.old ≡ false }
        requires room { probe_polls self.old < 2 ^ 32 - 1 }
        ensures counted { probe_polls self.new ≡ probe_polls self.old + 1 }
        ensures answered { probe_raised self.new ≡ result }
        // The answer of that number, and false where there are no more.
        ensures answer { result ≡ slice_index_or (probe_answers self.old) (probe_polls self.old) false }
        ensures same { probe_answers self.new ≡ probe_answers self.old }
    {
        let answer = self
            .answers
            .get(self.polls as usize)
            .copied()
            .unwrap_or(false);
        self.polls += 1;
        self.raised = answer;
        answer
    }
}
