//! Who runs jobs.

ghost use Rattle.std.specs.Prelude.{◌≡◌, Bool, List, Option, None, ◌∷◌, [], ◌++◌};
ghost use Rattle.vc_core.specs.Jobs.{is_fault};
ghost use Rattle.vc_port.specs.declared.station.Claimed.{Claimed};
ghost use Rattle.vc_port.specs.Stations.{StationJob, Worked, gave_back, IsClaim, IsOf};

use vc_core::{Finished, Job};

/// What a claim gives.
#[derive(Drop)]
pub enum Claimed {
    /// The job of the slot that waited longest. It is to be run, and then finished.
    Job(Job),
    /// No slot waits for a worker.
    Empty,
    /// No slot waits for a worker, and the device is shut.
    Over,
}

/// One worker of the device. It remembers its claims, each with its job, and its finishes, with a fault or
/// without; the job that it has, or that it has none; and whether its last claim answered `Over`.
///
/// `claim` takes a job, `finish` brings it back. `pause` waits until something may have changed.
pub trait Station {
    /// The claims and finishes, the first one first.
    ghost worked: { Self → List Worked };
    /// The job that the station has, or none.
    ghost job: { Self → Option StationJob };
    /// Whether the last claim answered Over.
    ghost over: { Self → Bool };
    /// The station before and after: it is the same station, and what it knows only grew.
    ghost follows: { Self → Self → Type 0 };
    /// What a claim that gives this does to the station.
    ghost claims: { Self → Claimed → Self → Type 0 };

    fn claim(&mut self) -> Claimed
        requires { job self.old ≡ None }
        ensures claimed { IsClaim result (worked self.old) (worked self.new) (job self.new) (over self.new) }
        ensures follows { follows self.old self.new }
        ensures claims { claims self.old result self.new };

    fn finish(&mut self, finished: Finished)
        requires { IsOf (job self.old) finished }
        ensures listed { worked self.new ≡ worked self.old ++ gave_back (is_fault finished) ∷ [] }
        ensures job { job self.new ≡ None }
        ensures over { over self.new ≡ over self.old }
        ensures follows { follows self.old self.new };

    fn pause(&mut self)
        ensures worked { worked self.new ≡ worked self.old }
        ensures job { job self.new ≡ job self.old }
        ensures over { over self.new ≡ over self.old }
        ensures follows { follows self.old self.new };

    ghost follows_self: { (s : Self) → follows s s };

    ghost follows_on: { (s t u : Self) → follows s t → follows t u → follows s u };
}
