//! A job that was claimed, and what is brought back of it.

ghost use Rattle.std.specs.Prelude.{◌≡◌, ℕ, true};
ghost use Rattle.vc_work.specs.Runs.{Fits};

use std::marker::Model;
use vc_work::{Engine, EngineFault, Outcome, Work};

/// A work that has all that its run needs.
#[derive(Drop)]
pub(crate) struct FitWork {
    work: Work,
}

impl Model for FitWork {
    ghost use Rattle.vc_work.specs.declared.work.Work.{Work};
    ghost use Rattle.vc_work.specs.Runs.{Fits};

    ghost Value = { Work };

    ghost view = { λ f. f.work };

    ghost invariant = { λ f. Fits f.work };
}

/// A job: the buffers and all else that its run needs. It is used up by its run, or by being given up.
#[derive(Drop)]
pub struct Job {
    pub(crate) slot: u32,
    pub(crate) work: FitWork,
}

/// What is brought back of a job: its buffers and all else that it took, and what the run came to, or that the
/// engine gave up.
#[derive(Drop)]
pub struct Finished {
    pub(crate) slot: u32,
    pub(crate) work: Work,
    pub(crate) outcome: Result<Outcome, EngineFault>,
}

impl Job {
    ghost use Rattle.vc_model.specs.Coder.{the_coder};
    ghost use Rattle.vc_model.specs.Runs.{JobData};
    ghost use Rattle.vc_model.specs.Core.{brought_back};
    ghost use Rattle.vc_core.specs.Jobs.{IsJobOf, Brings, Tells, is_fault};

    /// The job of the slot with this work.
    pub(crate) fn new(slot: u32, work: Work) -> Job
        requires { Fits work }
        ensures slot { result.slot ≡ slot }
        ensures work { result.work ≡ work }
    {
        Job {
            slot,
            work: FitWork { work },
        }
    }

    /// The slot that was claimed.
    pub fn slot(&self) -> u32
        ensures { (k : ℕ) (j : JobData) → IsJobOf k j self.now → result ≡ k }
    {
        self.slot
    }

    /// Runs the job on an engine. Where the engine gives up, the job is finished with a fault.
    pub fn run<E: Engine>(self, engine: &mut E) -> Finished
        ensures done { (k : ℕ) (j : JobData) → IsJobOf k j self → Brings k (brought_back the_coder j (is_fault result)) result }
        ensures counts { Tells (is_fault result) (E.run_count engine.old) (E.run_count engine.new) (E.fault_count engine.old) (E.fault_count engine.new) }
    {
        let Job { slot, work } = self;
        let FitWork { mut work } = work;
        let used = work.source.used;
        let stamp = work.source.stamp;
        let outcome = engine.run(&mut work);
        work.source.used = used;
        work.source.stamp = stamp;
        Finished {
            slot,
            work,
            outcome,
        }
    }

    /// Gives the job up: it is finished with a fault.
    pub fn give_up(self) -> Finished
        ensures { (k : ℕ) (j : JobData) → IsJobOf k j self → Brings k (brought_back the_coder j true) result }
    {
        let Job { slot, work } = self;
        let FitWork { work } = work;
        Finished {
            slot,
            work,
            outcome: Err(EngineFault),
        }
    }
}

impl Finished {
    ghost use Rattle.vc_model.specs.Core.{BroughtBack, word_of};
    ghost use Rattle.vc_core.specs.Jobs.{Brings, is_fault};

    /// How the job ended: `copied`, `encoded`, `picture`, `damaged`, `changed` or `spent`, after the outcome of its
    /// run, or `fault` where the engine gave up.
    pub fn word(&self) -> &'static str
        ensures { (k : ℕ) (back : BroughtBack) → Brings k back self.now → result.now ≡ word_of back }
    {
        match self.outcome {
            Ok(Outcome::Copied { .. }) => "copied",
            Ok(Outcome::Encoded { .. }) => "encoded",
            Ok(Outcome::Picture { .. }) => "picture",
            Ok(Outcome::Damaged { .. }) => "damaged",
            Ok(Outcome::Changed { .. }) => "changed",
            Ok(Outcome::Spent) => "spent",
            Err(EngineFault) => "fault",
        }
    }

    /// Whether the engine gave up.
    pub fn is_fault(&self) -> bool
        ensures { result ≡ is_fault self.now }
    {
        self.outcome.is_err()
    }
}
