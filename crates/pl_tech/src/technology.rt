ghost use Rattle.std.specs.Thread.{IsSync};
ghost use Rattle.std.specs.Prelude.{◌≡◌, ℕ, ◌<◌, ◌≤◌, ◌+◌, ◌-◌, ◌^◌, true, false, IfOk, OnErr, Some, None, take};
ghost use Rattle.pl_tech.specs.Technology.{Meaning, IsLawful};
ghost use Rattle.pl_tech.specs.Slots.{has};
ghost use Rattle.pl_tech.specs.Kept.{kept_at};
ghost use Rattle.pl_tech.specs.Ran.{MatchRan};
ghost use Rattle.pl_tech.specs.Sharing.{IsSharing, AllShare, KeepsOthers};

use crate::{Kept, Problem, Slot, SlotSet};
use pl_ports::Probe;
use pl_units::NoMemory;
use std::alloc::Global;
use std::thread::Threads;

/// How a job ended.
#[derive(Drop)]
pub enum Ran<O> {
    /// With its result.
    Done(O),
    /// Its probe answered true.
    Stopped,
}

/// A kind of print, as the machine needs it. Results are made by `run` alone, and `run` alone raises a bench's `runs`.
pub trait Technology: Drop {
    /// What is printed.
    type Plate: Drop;

    /// One change of a plate.
    type Edit: Drop;

    /// What an edit answers.
    type Reply: Copy + Drop;

    /// The result of a slot.
    type Output: Drop;

    /// The work that makes a slot's result, with all that it needs.
    type Job: Drop;

    /// What a runner works at, from job to job.
    type Bench: Drop;

    /// What plates, edits and results mean.
    ghost meaning: { Meaning Self.Plate Self.Edit Self.Reply Self.Output };

    /// That two plates have the part of a number alike. What a part is, the technology says.
    ghost shares: { Self.Plate → Self.Plate → ℕ → Type 0 };

    /// How many runs were made at a bench.
    ghost runs: { Self.Bench → ℕ };

    /// The result that a job makes.
    ghost job_value: { Self.Job → Self.Output };

    /// How often a job asks its probe before it is done.
    ghost job_polls: { Self.Job → ℕ };

    /// The plate at the start.
    fn blank(alloc: Global) -> Result<Self::Plate, NoMemory>
        ensures { IfOk result (λ p. p ≡ meaning.blank) };

    /// An equal plate of its own.
    fn copy(alloc: Global, plate: &Self::Plate) -> Result<Self::Plate, NoMemory>
        ensures { IfOk result (λ p. p ≡ plate.now) };

    /// Whether the plates are equal, as far as their results go.
    fn same(a: &Self::Plate, b: &Self::Plate) -> bool
        ensures { result ≡ meaning.same a.now b.now };

    /// Changes the plate, and answers. For want of memory the plate is as before.
    fn edit(
        alloc: Global,
        plate: &mut Self::Plate,
        edit: &Self::Edit,
    ) -> Result<Self::Reply, NoMemory>
        ensures reply { IfOk result (λ r. r ≡ meaning.reply plate.old edit.now) }
        ensures plate { IfOk result (λ _. plate.new ≡ meaning.edited plate.old edit.now) }
        ensures err { OnErr result (plate.new ≡ plate.old) };

    /// Why the plate can't be printed, if it can't.
    fn problem(plate: &Self::Plate) -> Option<Problem>
        ensures { result ≡ meaning.problem plate.now };

    /// The slots that the plate has.
    fn present(plate: &Self::Plate) -> SlotSet
        ensures { (k : ℕ) → has result k ≡ meaning.present plate.now k };

    /// The slots whose results this slot needs.
    fn needs(plate: &Self::Plate, slot: Slot) -> SlotSet
        ensures { (k : ℕ) → has result k ≡ meaning.needs plate.now slot k };

    /// The slots whose results may differ between the plates.
    fn touched(old: &Self::Plate, new: &Self::Plate) -> SlotSet
        ensures { (k : ℕ) → has result k ≡ meaning.touched old.now new.now k };

    /// The parts that an edit with this reply may have changed.
    fn changes(edit: &Self::Edit, reply: &Self::Reply) -> SlotSet
        ensures { KeepsOthers meaning shares edit.now reply.now result };

    /// What `same` answers, where all parts but these are alike.
    fn same_but(a: &Self::Plate, b: &Self::Plate, apart: SlotSet) -> bool
        requires { AllShare shares apart a.now b.now }
        ensures { result ≡ meaning.same a.now b.now }
    {
        let _ = apart;
        Self::same(a, b)
    }

    /// What `touched` answers, where all parts but these are alike.
    fn touched_but(old: &Self::Plate, new: &Self::Plate, apart: SlotSet) -> SlotSet
        requires { AllShare shares apart old.now new.now }
        ensures { (k : ℕ) → has result k ≡ meaning.touched old.now new.now k }
    {
        let _ = apart;
        Self::touched(old, new)
    }

    /// A bench with no runs yet.
    fn bench() -> Self::Bench
        ensures { runs result ≡ 0 };

    /// How many runs were made at the bench.
    fn runs(bench: &Self::Bench) -> u64
        ensures { result ≡ runs bench.now };

    /// The job of a slot of a plate that has no problem. The slot is present, and each slot that it needs is kept with its
    /// result.
    fn job(
        alloc: Global,
        plate: &Self::Plate,
        slot: Slot,
        kept: &Kept<Self::Output>,
    ) -> Result<Self::Job, NoMemory>
        requires no_problem { meaning.problem plate.now ≡ None }
        requires present { meaning.present plate.now slot ≡ true }
        requires needed { (n : ℕ) → meaning.needs plate.now slot n ≡ true → kept_at kept.now n ≡ Some (meaning.value plate.now n) }
        ensures value { IfOk result (λ j. job_value j ≡ meaning.value plate.now slot) }
        ensures polls { IfOk result (λ j. job_polls j ≡ meaning.batches plate.now slot) };

    /// Runs a job, asking its probe before each batch, until it is done or the probe answers true. It is counted whatever it
    /// answers. The probe has not been asked before, and fewer than 2^64 - 1 runs were made at the bench.
    fn run<R: Threads + Sync, P: Probe>(
        rt: &R,
        alloc: Global,
        bench: &mut Self::Bench,
        job: Self::Job,
        probe: &mut P,
    ) -> Result<Ran<Self::Output>, NoMemory>
        requires shared { IsSync R.row }
        requires room { runs bench.old < 2 ^ 64 - 1 }
        requires unasked { P.polls probe.old ≡ 0 }
        requires quiet { P.raised probe.old ≡ false }
        ensures counted { runs bench.new ≡ runs bench.old + 1 }
        ensures same_aim { P.aim probe.new ≡ P.aim probe.old }
        ensures ran { IfOk result (λ r. MatchRan r (λ o. o ≡ job_value job) (P.raised probe.new ≡ true)) }
        ensures polls { IfOk result (λ r. MatchRan r (λ _. (P.raised probe.new ≡ false) × (P.polls probe.new ≡ job_polls job)) (P.polls probe.new ≤ job_polls job)) };

    /// The bytes of a result: the G-code of slot 99, empty for others.
    fn bytes(output: &Self::Output) -> &[u8]
        ensures { result.now ≡ meaning.bytes output.now };

    /// Puts a slot's name at the front of `out`, and answers its length, at most 16. It is empty where no plate has the slot.
    fn put_name(slot: Slot, out: &mut [u8; 16]) -> usize
        ensures short { result ≤ 16 }
        ensures name { take result out.new ≡ meaning.name slot };

    /// To have a part alike goes onwards from plate to plate.
    ghost sharing: { IsSharing shares };

    /// What the machine knows of every technology.
    ghost laws: { IsLawful meaning };
}
