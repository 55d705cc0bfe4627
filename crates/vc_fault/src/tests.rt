//! What no clause says: how often a gate is looked at.

ghost use Rattle.vc_work.specs.Runs.{Fits};

use super::*;
use std::alloc::Global;
use std::sync::atomic::{AtomicU64, Ordering};
use std::test::Fail;
use vc_base::{Format, Fourcc, Stamp};
use vc_work::{Engine, EngineFault, Outcome, Piece, Rates, Sort, Work};

/// An engine that always gives up.
#[derive(Drop)]
struct Broken {
    faults: u64,
}

impl Engine for Broken {
    ghost run_count = { λ _. 0 };

    ghost fault_count = { λ e. e.faults };

    fn run(&mut self, _work: &mut Work) -> Result<Outcome, EngineFault> {
        self.faults = self.faults.saturating_add(1);
        Err(EngineFault)
    }

    fn runs(&self) -> u64 {
        0
    }

    fn faults(&self) -> u64 {
        self.faults
    }
}

/// A gate that counts the looks, and opens at one of them.
#[derive(Drop)]
struct Door<'a> {
    looks: &'a AtomicU64,
    opens_at: u64,
}

impl<'a> Gate for Door<'a> {
    fn look(&self) -> bool {
        self.looks.fetch_add(1, Ordering::SeqCst) == self.opens_at
    }
}

/// A copy run of no bytes.
fn no_bytes(alloc: Global) -> Work
    ensures { Fits result }
{
    Work {
        sort: Sort::Copy,
        source: Piece {
            payload: Vec::new(alloc),
            used: 0,
            cursor: 0,
            stamp: Stamp(0),
        },
        dest: Some(Vec::new(alloc)),
        reference: None,
        geometry: None,
        assembly: None,
        format: Format {
            fourcc: Fourcc(*b"DATA"),
            width: 0,
            height: 0,
            size: 1,
        },
        limit: 1,
        rates: Rates {
            gop: 10,
            iqp: 20,
            pqp: 20,
        },
    }
}

#[test]
fn a_gate_is_looked_at_until_it_opens(rt: HostRuntime) -> Result<(), Fail> {
    for (opens_at, looks) in [(0, 1), (2, 3), (u64::MAX, 100_000_000)] {
        let looked = AtomicU64::new(0);
        let door = Door {
            looks: &looked,
            opens_at,
        };
        let mut engine = GatedEngine::make(door, Broken { faults: 0 });
        let mut work = no_bytes(rt.alloc());
        assert!(rt; engine.run(&mut work).is_err());
        assert_eq!(rt; (engine.runs(), engine.faults()), (0, 1));
        assert_eq!(rt; looked.load(Ordering::SeqCst), looks);
    }
    Ok(())
}

#[test]
fn a_listed_run_is_not_passed_on(rt: HostRuntime) -> Result<(), Fail> {
    let fails = vec![in rt.alloc(); 0]?;
    let mut engine = FailingEngine::make(fails, Broken { faults: 5 });
    let mut work = no_bytes(rt.alloc());
    assert!(rt; engine.run(&mut work).is_err());
    assert_eq!(rt; (engine.runs(), engine.faults()), (0, 6));
    Ok(())
}
