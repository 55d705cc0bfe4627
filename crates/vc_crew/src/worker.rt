//! A worker in a thread of its own.

ghost use Rattle.std.specs.Prelude.{◌≡◌, None, IfOk, IfErr};
ghost use Rattle.vc_shared.specs.AsStation.{station_job};
ghost use Rattle.vc_shared.specs.Workers.{IsWorker};
ghost use Rattle.vc_crew.specs.Workers.{HasWorked};

use std::snapshot::Snapshot;
use std::sync::Wait;
use std::sync::atomic::{AtomicBool, Ordering};
use std::thread::{Promise, PromisedHandle, Scope, Threads};
use vc_core::Engine;
use vc_shared::{JobSeat, Shared, WorkerSeat};
use vc_worker::{Served, serve};

/// The seat of a worker, and its engine.
#[derive(Drop)]
pub(crate) struct Worker<E: Engine> {
    pub(crate) seat: JobSeat,
    pub(crate) engine: E,
}

/// What a worker was when its thread was started: its seat, and the counts of its engine.
#[derive(Drop)]
pub(crate) struct AtStart {
    pub(crate) seat: Snapshot<JobSeat>,
    pub(crate) runs: u64,
    pub(crate) faults: u64,
}

impl<E: Engine> Promise<Worker<E>> for AtStart {
    ghost use Rattle.vc_crew.specs.Workers.{HasWorked};

    ghost kept_by = { λ start w. HasWorked start.seat.value w.seat start.runs (E.run_count w.engine) start.faults (E.fault_count w.engine) };
}

/// The seat as it is. What is known of every seat of a worker is known of it then.
pub(crate) fn steady<R>(rt: &R, shared: &Shared, seat: JobSeat) -> JobSeat
    requires { seat.device.lock ≡ shared.now }
    ensures same { result ≡ seat }
    ensures steady { IsWorker result }
{
    WorkerSeat::new(rt, shared, seat).into_seat()
}

/// Serves the device until it is shut.
pub(crate) fn serve_on<R: Wait + Sync, E: Engine>(
    rt: &R,
    shared: &Shared,
    worker: Worker<E>,
) -> Worker<E>
    requires own { worker.seat.device.lock ≡ shared.now }
    requires idle { station_job worker.seat ≡ None }
    ensures { HasWorked worker.seat result.seat (E.run_count worker.engine) (E.run_count result.engine) (E.fault_count worker.engine) (E.fault_count result.engine) }
{
    let Worker { seat, engine } = worker;
    let station = WorkerSeat::new(rt, shared, seat);
    let Served { station, engine } = serve(rt, station, engine);
    let seat = steady(rt, shared, station.into_seat());
    Worker { seat, engine }
}

/// Serves the device until it is shut. Where the start of the worker's thread was refused, it gives everything back
/// at once.
fn work<R: Wait + Sync, E: Engine>(
    rt: &R,
    shared: &Shared,
    is_refused: &AtomicBool,
    seat: JobSeat,
    engine: E,
) -> Worker<E>
    requires own { seat.device.lock ≡ shared.now }
    requires idle { station_job seat ≡ None }
    ensures { HasWorked seat result.seat (E.run_count engine) (E.run_count result.engine) (E.fault_count engine) (E.fault_count result.engine) }
{
    if is_refused.load(Ordering::SeqCst) {
        let seat = steady(rt, shared, seat);
        return Worker { seat, engine };
    }
    serve_on(rt, shared, Worker { seat, engine })
}

/// Starts the thread of a worker. Where no thread can be started, the worker comes back as it was.
pub(crate) fn start<'s, C, R: Threads + Wait + Sync, E: Engine + Send + 's>(
    scope: &Scope<'s, C>,
    rt: &'s R,
    shared: &'s Shared,
    is_refused: &'s AtomicBool,
    seat: JobSeat,
    engine: E,
) -> Result<PromisedHandle<Worker<E>, AtStart>, Worker<E>>
    requires own { seat.device.lock ≡ shared.now }
    requires idle { station_job seat ≡ None }
    ensures seat { IfOk result (λ started. started.promise.seat.value ≡ seat) }
    ensures runs { IfOk result (λ started. started.promise.runs ≡ E.run_count engine) }
    ensures faults { IfOk result (λ started. started.promise.faults ≡ E.fault_count engine) }
    ensures refused { IfErr result (λ w. HasWorked seat w.seat (E.run_count engine) (E.run_count w.engine) (E.fault_count engine) (E.fault_count w.engine)) }
{
    let at_start = AtStart {
        seat: Snapshot::of(&seat),
        runs: engine.runs(),
        faults: engine.faults(),
    };
    let served = move || -> Worker<E>
        requires { (seat.device.lock ≡ shared.now) × (station_job seat ≡ None) }
        ensures { HasWorked seat result.seat (E.run_count engine) (E.run_count result.engine) (E.fault_count engine) (E.fault_count result.engine) }
    { work(rt, shared, is_refused, seat, engine) };
    match scope.spawn_with(at_start, served) {
        Ok(started) => Ok(started),
        Err(refused) => {
            is_refused.store(true, Ordering::SeqCst);
            Err((refused.value)())
        }
    }
}
