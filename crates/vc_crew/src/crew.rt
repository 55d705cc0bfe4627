//! The crew: one worker after another is started, the caller does its part, and then all are joined.

ghost use Rattle.std.specs.Prelude.{◌≡◌, ◌≤◌, ◌<◌, ◌+◌, ◌++◌, ◌∷◌, [], ℕ, None, Some, IfNone, IfSome, All, vec_len, vec_capacity};
ghost use Rattle.vc_shared.specs.Handles.{DeviceId};
ghost use Rattle.vc_shared.specs.Workers.{new_worker};
ghost use Rattle.vc_shared.specs.AsStation.{station_job};
ghost use Rattle.vc_shared.specs.Making.{AreNewWorkers};
ghost use Rattle.vc_worker.specs.Both.{Both, IfThere};
ghost use Rattle.vc_crew.specs.Workers.{HasWorked, HaveWorked};
ghost use Rattle.vc_crew.specs.Flowing.{ArePaired, MayFlow, HasFlowed};
ghost use Rattle.vc_crew.specs.Sites.{device_of};

use crate::caller::{Called, Caller, run_caller};
use crate::flow::Flow;
use crate::site::Site;
use crate::worker::{Worker, start};
use std::alloc::Global;
use std::sync::Wait;
use std::thread::{Scope, Threads};
use vc_core::Engine;
use vc_shared::JobSeat;

/// The seats of the workers, and the engines: one for each worker, and more behind them, which are not used.
#[derive(Drop)]
pub(crate) struct Crew<E: Engine> {
    pub(crate) jobs: Vec<JobSeat>,
    pub(crate) engines: Vec<E>,
}

/// The crew and the caller behind their work.
#[derive(Drop)]
pub(crate) struct Run<E: Engine, F: Flow> {
    pub(crate) crew: Crew<E>,
    pub(crate) called: Called<E, F>,
}

/// The seat of the last worker.
fn last_seat(jobs: &mut Vec<JobSeat>) -> Option<JobSeat>
    ensures none { IfNone result ((vec_len jobs.old ≡ 0) × (vec_len jobs.new ≡ 0)) }
    ensures some { IfSome result (λ seat. vec_len jobs.old ≡ vec_len jobs.new + 1) }
    ensures seat { (device : DeviceId) → AreNewWorkers device (vec_len jobs.old) jobs.old.items → IfSome result (λ seat. seat ≡ new_worker device (vec_len jobs.new)) }
    ensures others { (device : DeviceId) → AreNewWorkers device (vec_len jobs.old) jobs.old.items → AreNewWorkers device (vec_len jobs.new) jobs.new.items }
    ensures capacity { vec_capacity jobs.new ≡ vec_capacity jobs.old }
{
    jobs.pop()
}

impl<E: Engine, F: Flow> Run<E, F> {
    /// Puts a worker behind the others.
    fn with_worker(self, worker: Worker<E>) -> Run<E, F>
        requires jobs { vec_len self.crew.jobs < vec_capacity self.crew.jobs }
        requires engines { vec_len self.crew.engines < vec_capacity self.crew.engines }
        ensures jobs { result.crew.jobs.items ≡ self.crew.jobs.items ++ worker.seat ∷ [] }
        ensures engines { result.crew.engines.items ≡ self.crew.engines.items ++ worker.engine ∷ [] }
        ensures jobs_room { vec_capacity result.crew.jobs ≡ vec_capacity self.crew.jobs }
        ensures engines_room { vec_capacity result.crew.engines ≡ vec_capacity self.crew.engines }
        ensures called { result.called ≡ self.called }
    {
        let Run { crew, called } = self;
        let Crew { jobs, engines } = crew;
        let mut jobs = jobs;
        let mut engines = engines;
        jobs.push_reserved(worker.seat);
        engines.push_reserved(worker.engine);
        let crew = Crew { jobs, engines };
        Run { crew, called }
    }

    /// Puts an engine behind the others.
    fn with_engine(self, engine: E) -> Run<E, F>
        requires { vec_len self.crew.engines < vec_capacity self.crew.engines }
        ensures jobs { result.crew.jobs ≡ self.crew.jobs }
        ensures seats { result.crew.jobs.items ≡ self.crew.jobs.items }
        ensures engines { result.crew.engines.items ≡ self.crew.engines.items ++ engine ∷ [] }
        ensures engines_room { vec_capacity result.crew.engines ≡ vec_capacity self.crew.engines }
        ensures called { result.called ≡ self.called }
    {
        let Run { crew, called } = self;
        let Crew { jobs, engines } = crew;
        let mut engines = engines;
        engines.push_reserved(engine);
        let crew = Crew { jobs, engines };
        Run { crew, called }
    }

    /// Puts the caller's help behind the other workers.
    fn with_help(self) -> Run<E, F>
        requires jobs { vec_len self.crew.jobs < vec_capacity self.crew.jobs }
        requires engines { vec_len self.crew.engines < vec_capacity self.crew.engines }
        ensures workers { IfSome self.called.help (λ w. (result.crew.jobs.items ≡ self.crew.jobs.items ++ w.seat ∷ []) × (result.crew.engines.items ≡ self.crew.engines.items ++ w.engine ∷ [])) }
        ensures one_more { IfSome self.called.help (λ w. (vec_len result.crew.jobs ≡ vec_len self.crew.jobs + 1) × (vec_len result.crew.engines ≡ vec_len self.crew.engines + 1)) }
        ensures jobs_room { vec_capacity result.crew.jobs ≡ vec_capacity self.crew.jobs }
        ensures engines_room { vec_capacity result.crew.engines ≡ vec_capacity self.crew.engines }
        ensures called { result.called ≡ record self.called { help = None } }
        ensures done { result.called.done ≡ self.called.done }
    {
        let Run { crew, called } = self;
        let Called { done, help } = called;
        let called = Called { done, help: None };
        let run = Run { crew, called };
        match help {
            Some(worker) => run.with_worker(worker),
            None => run,
        }
    }
}

/// Starts the workers, the last one first, lets the caller do its part, and joins all. Where a worker's thread can't be
/// started, the first such worker helps the caller. Engines behind those of the workers are kept apart.
pub(crate) fn run_crew<'s, C, R: Threads + Wait + Sync, E: Engine + Send + 's, F: Flow>(
    scope: &Scope<'s, C>,
    rt: &'s R,
    alloc: Global,
    site: &'s Site,
    crew: Crew<E>,
    caller: Caller<E, F>,
) -> Run<E, F>
    requires new { AreNewWorkers (device_of site.now) (vec_len crew.jobs) crew.jobs.items }
    requires engines { vec_len crew.jobs ≤ vec_len crew.engines }
    requires refused { vec_len crew.jobs ≤ vec_len site.now.refused_workers }
    requires may { All (λ c. MayFlow F.may (device_of site.now) c.handle c.flow) caller.seated_flows.items }
    requires none { caller.done.items ≡ [] }
    requires room { vec_len caller.seated_flows ≤ vec_capacity caller.done }
    requires help { IfThere (λ w. (w.seat.device.lock ≡ site.now.shared) × (station_job w.seat ≡ None)) caller.help }
    ensures worked { HaveWorked E.run_count E.fault_count (device_of site.now) 0 result.crew.jobs.items crew.engines.items result.crew.engines.items }
    ensures jobs { vec_len result.crew.jobs ≡ vec_len crew.jobs }
    ensures engines { vec_len result.crew.engines ≡ vec_len crew.engines }
    ensures jobs_room { vec_capacity result.crew.jobs ≡ vec_capacity crew.jobs }
    ensures engines_room { vec_capacity result.crew.engines ≡ vec_capacity crew.engines }
    ensures helped { Both (λ x y. HasWorked x.seat y.seat (E.run_count x.engine) (E.run_count y.engine) (E.fault_count x.engine) (E.fault_count y.engine)) caller.help result.called.help }
    ensures flowed { ArePaired (λ c d. HasFlowed F.does c.flow d.flow d.end c.handle d.handle) caller.seated_flows.items result.called.done.items }
    ensures all { vec_len result.called.done ≡ vec_len caller.seated_flows }
    ensures room { vec_capacity result.called.done ≡ vec_capacity caller.done }
{
    let Crew { jobs, engines } = crew;
    let mut jobs = jobs;
    let mut engines = engines;
    let is_spare = engines.len() > jobs.len();
    let Some(engine) = engines.pop() else {
        let called = run_caller(rt, alloc, site, caller);
        let crew = Crew { jobs, engines };
        return Run { crew, called };
    };
    if is_spare {
        let crew = Crew { jobs, engines };
        let run = run_crew(scope, rt, alloc, site, crew, caller);
        return run.with_engine(engine);
    }
    let Some(seat) = last_seat(&mut jobs) else {
        unreachable!()
    };
    let is_refused = &site.refused_workers[jobs.len()];
    let crew = Crew { jobs, engines };
    match start(scope, rt, &site.shared, is_refused, seat, engine) {
        Ok(started) => {
            let run = run_crew(scope, rt, alloc, site, crew, caller);
            run.with_worker(started.join(rt))
        }
        Err(idle) if caller.help.is_some() => {
            let run = run_crew(scope, rt, alloc, site, crew, caller);
            run.with_worker(idle)
        }
        Err(idle) => {
            let caller = caller.with_help(idle);
            let run = run_crew(scope, rt, alloc, site, crew, caller);
            run.with_help()
        }
    }
}
