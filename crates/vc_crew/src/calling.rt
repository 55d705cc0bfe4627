//! How a flow is run on its slot.

ghost use Rattle.std.specs.Prelude.{◌≡◌, None, Some, MatchOption};
ghost use Rattle.vc_shared.specs.Handles.{IsHandle};
ghost use Rattle.vc_shared.specs.Following.{HandleFollows};
ghost use Rattle.vc_shared.specs.Workers.{IsWorker};
ghost use Rattle.vc_shared.specs.AsStation.{station_job};
ghost use Rattle.vc_worker.specs.Both.{Both, IfThere};
ghost use Rattle.vc_crew.specs.Workers.{HasWorked};
ghost use Rattle.vc_crew.specs.Flowing.{MayFlow, HasFlowed};
ghost use Rattle.vc_crew.specs.Sites.{device_of};

use crate::flow::Flow;
use crate::site::Site;
use crate::worker::{Worker, steady};
use std::alloc::Global;
use std::sync::Wait;
use std::sync::atomic::{AtomicU32, Ordering};
use vc_core::Engine;
use vc_shared::{Handle, HandleSeat, Shared, WorkerSeat};
use vc_worker::{Help, Helping};

/// A flow that has not been run, with the seat of its slot.
#[derive(Drop)]
pub(crate) struct SeatedFlow<F: Flow> {
    pub(crate) handle: HandleSeat,
    pub(crate) flow: F,
}

/// A flow that was run, with the seat of its slot.
#[derive(Drop)]
pub(crate) struct Done<F: Flow> {
    pub(crate) handle: HandleSeat,
    pub(crate) flow: F,
    pub(crate) end: F::End,
}

/// A flow that the caller ran, and the worker that helped it.
#[derive(Drop)]
pub(crate) struct Helped<E: Engine, F: Flow> {
    pub(crate) done: Done<F>,
    pub(crate) help: Option<Worker<E>>,
}

/// The port of the caller, which runs jobs by the idle worker while it waits.
fn port_of<'a, R: Wait + Sync, E: Engine>(
    rt: &'a R,
    shared: &'a Shared,
    handle: HandleSeat,
    help: Option<Worker<E>>,
) -> Helping<Handle<'a, R>, WorkerSeat<'a, R>, E>
    requires handle { handle.device.lock ≡ shared.now }
    requires help { IfThere (λ w. w.seat.device.lock ≡ shared.now) help }
    ensures port { result.port ≡ handle }
    ensures ready { IsHandle result.port }
    ensures help { MatchOption help (result.help ≡ None) (λ w. result.help ≡ Some (record { station = w.seat; engine = w.engine })) }
{
    let port = Handle::new(rt, shared, handle);
    let help = match help {
        Some(Worker { seat, engine }) => {
            let station = WorkerSeat::new(rt, shared, seat);
            Some(Help { station, engine })
        }
        None => None,
    };
    Helping { port, help }
}

/// The worker behind the help.
fn worker_of<'a, R: Wait + Sync, E: Engine>(
    rt: &'a R,
    shared: &'a Shared,
    help: Option<Help<WorkerSeat<'a, R>, E>>,
) -> Option<Worker<E>>
    requires { IfThere (λ h. h.station.device.lock ≡ shared.now) help }
    ensures { MatchOption help.entry (result ≡ None) (λ h. (result ≡ Some (record { seat = h.station; engine = h.engine })) × IsWorker h.station) }
{
    match help {
        Some(Help { station, engine }) => {
            let seat = steady(rt, shared, station.into_seat());
            Some(Worker { seat, engine })
        }
        None => None,
    }
}

/// Leaves the device behind a flow. The last one shuts it.
fn leave<'a, R: Wait + Sync>(port: Handle<'a, R>, left: &AtomicU32) -> HandleSeat
    ensures { HandleFollows port.entry result }
{
    let mut port = port;
    if left.fetch_sub(1, Ordering::SeqCst) == 1 {
        port.shut();
    }
    port.into_seat()
}

/// Runs the flow on its slot, without help.
pub(crate) fn run_alone<R: Wait + Sync, F: Flow>(
    rt: &R,
    alloc: Global,
    site: &Site,
    seated: SeatedFlow<F>,
) -> Done<F>
    requires { MayFlow F.may (device_of site.now) seated.handle seated.flow }
    ensures { HasFlowed F.does seated.flow result.flow result.end seated.handle result.handle }
{
    let SeatedFlow { handle, flow } = seated;
    let mut flow = flow;
    let mut port = Handle::new(rt, &site.shared, handle);
    let end = flow.run(rt, alloc, &mut port);
    let handle = leave(port, &site.left);
    Done { handle, flow, end }
}

/// Runs the flow on its slot, with the help of the worker if there is one.
pub(crate) fn run_helped<R: Wait + Sync, E: Engine, F: Flow>(
    rt: &R,
    alloc: Global,
    site: &Site,
    seated: SeatedFlow<F>,
    help: Option<Worker<E>>,
) -> Helped<E, F>
    requires may { MayFlow F.may (device_of site.now) seated.handle seated.flow }
    requires help { IfThere (λ w. (w.seat.device.lock ≡ site.now.shared) × (station_job w.seat ≡ None)) help }
    ensures flowed { HasFlowed F.does seated.flow result.done.flow result.done.end seated.handle result.done.handle }
    ensures helped { Both (λ x y. HasWorked x.seat y.seat (E.run_count x.engine) (E.run_count y.engine) (E.fault_count x.engine) (E.fault_count y.engine)) help result.help }
{
    let SeatedFlow { handle, flow } = seated;
    let mut flow = flow;
    let mut helping = port_of(rt, &site.shared, handle, help);
    let end = flow.run(rt, alloc, &mut helping);
    let Helping { port, help } = helping;
    let help = worker_of(rt, &site.shared, help);
    let handle = leave(port, &site.left);
    let done = Done { handle, flow, end };
    Helped { done, help }
}
