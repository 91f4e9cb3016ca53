//! The run of a job.
ghost use Rattle.std.specs.Prelude.{◌≡◌, ◌≤◌, true, false, IfOk};
ghost use Rattle.pl_tech.specs.Ran.{MatchRan};
ghost use Rattle.pl_fff.specs.Jobs.{job_value, job_polls};

use crate::job::FffJob;
use pl_ports::Probe;
use pl_slots::FffOutput;
use pl_tech::Ran;
use pl_units::NoMemory;
use std::alloc::Global;

impl FffJob {
    /// Makes the result of a slot, in batches of eight layers or heights, with one poll before each batch; skirt and brim poll
    /// once, before their work. After an answer true the work stops. The probe was not asked before. Refused only for want of
    /// memory.
    pub fn run<P: Probe>(self, alloc: Global, probe: &mut P) -> Result<Ran<FffOutput>, NoMemory>
        requires unasked { P.polls probe.old ≡ 0 }
        requires quiet { P.raised probe.old ≡ false }
        ensures same_aim { P.aim probe.new ≡ P.aim probe.old }
        ensures ran { IfOk result (λ r. MatchRan r (λ o. o ≡ job_value self) (P.raised probe.new ≡ true)) }
        ensures polls { IfOk result (λ r. MatchRan r (λ _. (P.raised probe.new ≡ false) × (P.polls probe.new ≡ job_polls self)) (P.polls probe.new ≤ job_polls self)) }
    {
        match self {
            FffJob::Slice(job) => job.run(alloc, probe),
            FffJob::Perimeters(job) => job.run(alloc, probe),
            FffJob::Prepare(job) => job.run(alloc, probe),
            FffJob::Infill(job) => job.run(alloc, probe),
            FffJob::Ironing(job) => job.run(alloc, probe),
            FffJob::Support(job) => job.run(alloc, probe),
            FffJob::Tower(job) => job.run(alloc, probe),
            FffJob::Skirt(job) => job.run(alloc, probe),
            FffJob::Brim(job) => job.run(alloc, probe),
            FffJob::Export(job) => job.run(alloc, probe),
        }
    }
}
