//! An engine that fails at chosen runs.

ghost use Rattle.std.specs.Prelude.{◌≡◌, ◌≤◌, ◌↔◌, IfOk, IfErr, IsErr, IsTrue};
ghost use Rattle.vc_base.specs.Counts.{OneMore};
ghost use Rattle.vc_work.specs.Runs.{Fits, IsRun, KeepsLengths};
ghost use Rattle.vc_fault.specs.Failing.{FailsAt, all_faults};

use std::marker::Model;
use vc_work::{Engine, EngineFault, Outcome, Work};

/// An engine that fails at the runs whose numbers are listed, counted from 0 over all calls of `run`, and
/// else runs as the inner engine. Its faults are its own and those of the inner engine. Contracts see it as
/// the list, the number of calls and of its own faults so far, and the inner engine.
#[derive(Drop)]
pub struct FailingEngine<E: Engine> {
    fails: Vec<u64>,
    calls: u64,
    own: u64,
    inner: E,
}

impl<E: Engine> Model for FailingEngine<E> {
    ghost use Rattle.vc_fault.specs.Failing.{Failing};

    ghost Value = { Failing E };

    ghost view = { λ e. record { fails = e.fails.items; calls = e.calls; own = e.own; inner = e.inner } };
}

/// Whether the list has the number.
fn is_listed(fails: &[u64], run: u64) -> bool
    ensures { IsTrue result ↔ FailsAt fails.now run }
{
    fails.iter().any(|at| *at == run)
}

impl<E: Engine> FailingEngine<E> {
    /// The engine round `inner`, before its first run. It takes no memory.
    pub fn make(fails: Vec<u64>, inner: E) -> FailingEngine<E>
        ensures { result ≡ record { fails = fails.items; calls = 0; own = 0; inner = inner } }
    {
        FailingEngine {
            fails,
            calls: 0,
            own: 0,
            inner,
        }
    }
}

impl<E: Engine> Engine for FailingEngine<E> {
    ghost use Rattle.vc_fault.specs.Failing.{all_faults};

    ghost run_count = { λ e. E.run_count e.inner };

    ghost fault_count = { λ e. all_faults e.own (E.fault_count e.inner) };

    fn run(&mut self, work: &mut Work) -> Result<Outcome, EngineFault>
        requires fits { Fits work.old }
        ensures outcome { IfOk result (IsRun work.old work.new) }
        ensures ran { IfOk result (λ _. OneMore (E.run_count self.old.inner) (E.run_count self.new.inner)) }
        ensures failed { IfErr result (λ _. OneMore (all_faults self.old.own (E.fault_count self.old.inner)) (all_faults self.new.own (E.fault_count self.new.inner))) }
        ensures runs_stay { E.run_count self.old.inner ≤ E.run_count self.new.inner }
        ensures faults_stay { all_faults self.old.own (E.fault_count self.old.inner) ≤ all_faults self.new.own (E.fault_count self.new.inner) }
        ensures lengths { KeepsLengths work.old work.new }
        ensures listed { FailsAt self.old.fails self.old.calls → IsErr result }
        ensures untouched { FailsAt self.old.fails self.old.calls → self.new.inner ≡ self.old.inner }
        ensures other { ¬ FailsAt self.old.fails self.old.calls → IfErr result (λ _. OneMore (E.fault_count self.old.inner) (E.fault_count self.new.inner)) }
        ensures own { ¬ FailsAt self.old.fails self.old.calls → self.new.own ≡ self.old.own }
        ensures calls { OneMore self.old.calls self.new.calls }
        ensures list_stays { self.new.fails ≡ self.old.fails }
    {
        let listed = is_listed(&self.fails, self.calls);
        self.calls = self.calls.saturating_add(1);
        if listed {
            self.own = self.own.saturating_add(1);
            return Err(EngineFault);
        }
        self.inner.run(work)
    }

    fn runs(&self) -> u64 {
        self.inner.runs()
    }

    fn faults(&self) -> u64 {
        self.own.saturating_add(self.inner.faults())
    }
}
