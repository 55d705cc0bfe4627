//! The caller's part.

ghost use Rattle.std.specs.Prelude.{◌≡◌, ◌≤◌, ◌<◌, ◌+◌, ◌++◌, ◌∷◌, [], None, Some, IfOk, All, vec_len, vec_capacity};
ghost use Rattle.vc_shared.specs.AsStation.{station_job};
ghost use Rattle.vc_worker.specs.Both.{Both, IfThere};
ghost use Rattle.vc_crew.specs.Workers.{HasWorked};
ghost use Rattle.vc_crew.specs.Flowing.{ArePaired, MayFlow, HasFlowed};
ghost use Rattle.vc_crew.specs.Sites.{device_of};

use crate::calling::{Done, Helped, SeatedFlow, run_helped};
use crate::flow::Flow;
use crate::site::Site;
use crate::worker::{Worker, serve_on};
use std::alloc::Global;
use std::sync::Wait;
use vc_base::NoMemory;
use vc_core::Engine;

/// The flows that the caller runs itself, room for what becomes of them, and a worker whose thread could not be
/// started, if there is one.
#[derive(Drop)]
pub(crate) struct Caller<E: Engine, F: Flow> {
    pub(crate) seated_flows: Vec<SeatedFlow<F>>,
    pub(crate) done: Vec<Done<F>>,
    pub(crate) help: Option<Worker<E>>,
}

/// The caller behind its flows.
#[derive(Drop)]
pub(crate) struct Called<E: Engine, F: Flow> {
    pub(crate) done: Vec<Done<F>>,
    pub(crate) help: Option<Worker<E>>,
}

impl<E: Engine, F: Flow> Caller<E, F> {
    /// A caller with no flows yet, and room for so many.
    pub(crate) fn make(alloc: Global, number: usize) -> Result<Caller<E, F>, NoMemory>
        ensures seated_flows { IfOk result (λ caller. (caller.seated_flows.items ≡ []) × (vec_capacity caller.seated_flows ≡ number)) }
        ensures done { IfOk result (λ caller. (caller.done.items ≡ []) × (vec_capacity caller.done ≡ number)) }
        ensures help { IfOk result (λ caller. caller.help ≡ None) }
    {
        let Ok(seated_flows) = Vec::with_capacity(alloc, number) else {
            return Err(NoMemory);
        };
        let Ok(done) = Vec::with_capacity(alloc, number) else {
            return Err(NoMemory);
        };
        Ok(Caller {
            seated_flows,
            done,
            help: None,
        })
    }

    /// Puts a flow behind the others.
    pub(crate) fn with_flow(self, seated: SeatedFlow<F>) -> Caller<E, F>
        requires { vec_len self.seated_flows < vec_capacity self.seated_flows }
        ensures seated_flows { result.seated_flows.items ≡ self.seated_flows.items ++ seated ∷ [] }
        ensures more { vec_len result.seated_flows ≡ vec_len self.seated_flows + 1 }
        ensures room { vec_capacity result.seated_flows ≡ vec_capacity self.seated_flows }
        ensures done { result.done ≡ self.done }
        ensures help { result.help ≡ self.help }
    {
        let Caller {
            seated_flows,
            done,
            help,
        } = self;
        let mut seated_flows = seated_flows;
        seated_flows.push_reserved(seated);
        Caller {
            seated_flows,
            done,
            help,
        }
    }

    /// The caller with an idle worker in place of its help.
    pub(crate) fn with_help(self, worker: Worker<E>) -> Caller<E, F>
        ensures same { result ≡ record self { help = Some worker } }
        ensures seated_flows { result.seated_flows ≡ self.seated_flows }
        ensures done { result.done ≡ self.done }
        ensures help { result.help ≡ Some worker }
    {
        let Caller {
            seated_flows,
            done,
            help: _,
        } = self;
        Caller {
            seated_flows,
            done,
            help: Some(worker),
        }
    }
}

impl<E: Engine, F: Flow> Called<E, F> {
    /// Puts a flow behind the others.
    fn with_done(self, last: Done<F>) -> Called<E, F>
        requires { vec_len self.done < vec_capacity self.done }
        ensures done { result.done.items ≡ self.done.items ++ last ∷ [] }
        ensures room { vec_capacity result.done ≡ vec_capacity self.done }
        ensures help { result.help ≡ self.help }
    {
        let Called { done, help } = self;
        let mut done = done;
        done.push_reserved(last);
        Called { done, help }
    }
}

/// Serves the device by the worker, if there is one, until it is shut.
fn serve_by<R: Wait + Sync, E: Engine>(
    rt: &R,
    site: &Site,
    help: Option<Worker<E>>,
) -> Option<Worker<E>>
    requires { IfThere (λ w. (w.seat.device.lock ≡ site.now.shared) × (station_job w.seat ≡ None)) help }
    ensures { Both (λ x y. HasWorked x.seat y.seat (E.run_count x.engine) (E.run_count y.engine) (E.fault_count x.engine) (E.fault_count y.engine)) help result }
{
    match help {
        Some(worker) => Some(serve_on(rt, &site.shared, worker)),
        None => None,
    }
}

/// Runs the flows of the caller one after another, the last one first, and then serves the device by its help until the
/// last of all flows has ended.
pub(crate) fn run_caller<R: Wait + Sync, E: Engine, F: Flow>(
    rt: &R,
    alloc: Global,
    site: &Site,
    caller: Caller<E, F>,
) -> Called<E, F>
    requires may { All (λ c. MayFlow F.may (device_of site.now) c.handle c.flow) caller.seated_flows.items }
    requires none { caller.done.items ≡ [] }
    requires room { vec_len caller.seated_flows ≤ vec_capacity caller.done }
    requires help { IfThere (λ w. (w.seat.device.lock ≡ site.now.shared) × (station_job w.seat ≡ None)) caller.help }
    ensures flowed { ArePaired (λ c d. HasFlowed F.does c.flow d.flow d.end c.handle d.handle) caller.seated_flows.items result.done.items }
    ensures all { vec_len result.done ≡ vec_len caller.seated_flows }
    ensures room { vec_capacity result.done ≡ vec_capacity caller.done }
    ensures helped { Both (λ x y. HasWorked x.seat y.seat (E.run_count x.engine) (E.run_count y.engine) (E.fault_count x.engine) (E.fault_count y.engine)) caller.help result.help }
{
    let Caller {
        seated_flows,
        done,
        help,
    } = caller;
    let mut seated_flows = seated_flows;
    let Some(seated) = seated_flows.pop() else {
        let help = serve_by(rt, site, help);
        return Called { done, help };
    };
    let helped = run_helped(rt, alloc, site, seated, help);
    let Helped { done: last, help } = helped;
    let caller = Caller {
        seated_flows,
        done,
        help,
    };
    let called = run_caller(rt, alloc, site, caller);
    called.with_done(last)
}
