//! An engine that waits at a gate.

ghost use Rattle.std.specs.Prelude.{◌≡◌};

use std::marker::Model;
use vc_work::{Engine, EngineFault, Outcome, Work};

/// What a run waits for. `look` says whether the run may go on; another thread may change that meanwhile.
pub trait Gate: Drop {
    fn look(&self) -> bool;
}

/// How often a run looks at the gate before it goes on all the same.
const MOST_LOOKS: u32 = 100_000_000;

/// An engine whose run looks at the gate until it may go on, at most 100,000,000 times, and then runs the
/// inner engine. Contracts see it as the inner engine: it runs as that one does, and has its counts.
#[derive(Drop)]
pub struct GatedEngine<G: Gate, E: Engine> {
    gate: G,
    inner: E,
}

impl<G: Gate, E: Engine> Model for GatedEngine<G, E> {
    ghost Value = { E };

    ghost view = { λ e. e.inner };
}

impl<G: Gate, E: Engine> GatedEngine<G, E> {
    /// The engine behind the gate. It takes no memory.
    pub fn make(gate: G, inner: E) -> GatedEngine<G, E>
        ensures { result ≡ inner }
    {
        GatedEngine { gate, inner }
    }

    /// Looks at the gate until it may go on, or often enough.
    fn wait(&self) {
        for _look in 0..MOST_LOOKS {
            if self.gate.look() {
                return;
            }
        }
    }
}

impl<G: Gate, E: Engine> Engine for GatedEngine<G, E> {
    ghost run_count = { λ e. E.run_count e };

    ghost fault_count = { λ e. E.fault_count e };

    fn run(&mut self, work: &mut Work) -> Result<Outcome, EngineFault> {
        self.wait();
        self.inner.run(work)
    }

    fn runs(&self) -> u64 {
        self.inner.runs()
    }

    fn faults(&self) -> u64 {
        self.inner.faults()
    }
}
