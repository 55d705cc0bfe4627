//! Flows in threads of their own: one after another is started, the crew and the caller do their part, and then all
//! are joined.

ghost use Rattle.std.specs.Prelude.{◌≡◌, ◌≤◌, ◌<◌, ◌+◌, ◌++◌, ◌∷◌, [], ℕ, None, All, IfOk, IfErr, IfSome, IfNone, MatchResult, vec_len, vec_capacity};
ghost use Rattle.vc_shared.specs.Handles.{DeviceId, new_handle};
ghost use Rattle.vc_shared.specs.Making.{AreNewHandles, AreNewWorkers};
ghost use Rattle.vc_crew.specs.Workers.{HaveWorked};
ghost use Rattle.vc_crew.specs.Flowing.{ArePaired, MayFlow, HasFlowed, HaveFlowed};
ghost use Rattle.vc_crew.specs.Sites.{device_of};

use crate::caller::{Called, Caller};
use crate::calling::{Done, SeatedFlow, run_alone};
use crate::crew::{Crew, Run, run_crew};
use crate::flow::Flow;
use crate::site::Site;
use std::alloc::Global;
use std::snapshot::Snapshot;
use std::sync::Wait;
use std::sync::atomic::{AtomicBool, Ordering};
use std::thread::{Promise, PromisedHandle, Scope, Threads};
use vc_core::Engine;
use vc_shared::HandleSeat;

/// Flows and the seats of their slots, each at its place, and room for their ends.
#[derive(Drop)]
pub(crate) struct Team<F: Flow> {
    pub(crate) handles: Vec<HandleSeat>,
    pub(crate) flows: Vec<F>,
    pub(crate) ends: Vec<F::End>,
}

/// The flows, the crew and the caller behind their work.
#[derive(Drop)]
pub(crate) struct Ran<E: Engine, F: Flow> {
    pub(crate) team: Team<F>,
    pub(crate) run: Run<E, F>,
}

/// A flow as it was when its thread was started.
#[derive(Drop)]
pub(crate) struct AtBegin<F: Flow> {
    pub(crate) handle: Snapshot<HandleSeat>,
    pub(crate) flow: Snapshot<F>,
}

impl<F: Flow> Promise<Result<Done<F>, SeatedFlow<F>>> for AtBegin<F> {
    ghost use Rattle.std.specs.Prelude.{◌≡◌, MatchResult};
    ghost use Rattle.vc_crew.specs.Flowing.{HasFlowed};

    ghost kept_by = { λ begin r. MatchResult r (λ d. HasFlowed F.does begin.flow.value d.flow d.end begin.handle.value d.handle) (λ c. (c.handle ≡ begin.handle.value) × (c.flow ≡ begin.flow.value)) };
}

/// Runs the flow. Where the start of its thread was refused, it gives the flow back at once.
fn run_started<R: Wait + Sync, F: Flow>(
    rt: &R,
    alloc: Global,
    site: &Site,
    is_refused: &AtomicBool,
    seated: SeatedFlow<F>,
) -> Result<Done<F>, SeatedFlow<F>>
    requires { MayFlow F.may (device_of site.now) seated.handle seated.flow }
    ensures { MatchResult result (λ d. HasFlowed F.does seated.flow d.flow d.end seated.handle d.handle) (λ c. (c.handle ≡ seated.handle) × (c.flow ≡ seated.flow)) }
{
    if is_refused.load(Ordering::SeqCst) {
        return Err(seated);
    }
    Ok(run_alone(rt, alloc, site, seated))
}

/// Starts the thread of a flow. Where no thread can be started, the flow comes back.
fn begin<'s, C, R: Threads + Wait + Sync, F: Flow + Send + 's>(
    scope: &Scope<'s, C>,
    rt: &'s R,
    alloc: Global,
    site: &'s Site,
    is_refused: &'s AtomicBool,
    seated: SeatedFlow<F>,
) -> Result<
    PromisedHandle<Result<Done<F>, SeatedFlow<F>>, AtBegin<F>>,
    Result<Done<F>, SeatedFlow<F>>,
>
    requires { MayFlow F.may (device_of site.now) seated.handle seated.flow }
    ensures handle { IfOk result (λ started. started.promise.handle.value ≡ seated.handle) }
    ensures flow { IfOk result (λ started. started.promise.flow.value ≡ seated.flow) }
    ensures refused { IfErr result (λ r. MatchResult r (λ d. HasFlowed F.does seated.flow d.flow d.end seated.handle d.handle) (λ c. (c.handle ≡ seated.handle) × (c.flow ≡ seated.flow))) }
{
    let at_begin = AtBegin {
        handle: Snapshot::of(&seated.handle),
        flow: Snapshot::of(&seated.flow),
    };
    let running = move || -> Result<Done<F>, SeatedFlow<F>>
        requires { MayFlow F.may (device_of site.now) seated.handle seated.flow }
        ensures { MatchResult result (λ d. HasFlowed F.does seated.flow d.flow d.end seated.handle d.handle) (λ c. (c.handle ≡ seated.handle) × (c.flow ≡ seated.flow)) }
    { run_started(rt, alloc, site, is_refused, seated) };
    match scope.spawn_with(at_begin, running) {
        Ok(started) => Ok(started),
        Err(refused) => {
            is_refused.store(true, Ordering::SeqCst);
            Err((refused.value)())
        }
    }
}

/// The flow behind its thread. Only where the start of a thread was refused does a flow come back that was not run.
fn behind<R: Wait + Sync, F: Flow>(
    rt: &R,
    alloc: Global,
    site: &Site,
    ended: Result<Done<F>, SeatedFlow<F>>,
) -> Done<F>
    requires { IfErr ended (λ c. MayFlow F.may (device_of site.now) c.handle c.flow) }
    ensures { MatchResult ended (λ d. result ≡ d) (λ c. HasFlowed F.does c.flow result.flow result.end c.handle result.handle) }
{
    match ended {
        Ok(done) => done,
        Err(seated) => run_alone(rt, alloc, site, seated),
    }
}

impl<E: Engine, F: Flow> Ran<E, F> {
    /// Puts a flow behind the others.
    fn with_done(self, done: Done<F>) -> Ran<E, F>
        requires handles { vec_len self.team.handles < vec_capacity self.team.handles }
        requires flows { vec_len self.team.flows < vec_capacity self.team.flows }
        requires ends { vec_len self.team.ends < vec_capacity self.team.ends }
        ensures handles { result.team.handles.items ≡ self.team.handles.items ++ done.handle ∷ [] }
        ensures flows { result.team.flows.items ≡ self.team.flows.items ++ done.flow ∷ [] }
        ensures ends { result.team.ends.items ≡ self.team.ends.items ++ done.end ∷ [] }
        ensures rooms { (vec_capacity result.team.handles ≡ vec_capacity self.team.handles) ×
            (vec_capacity result.team.flows ≡ vec_capacity self.team.flows) ×
            (vec_capacity result.team.ends ≡ vec_capacity self.team.ends) }
        ensures run { result.run ≡ self.run }
        ensures own { result.run.called.done.items ≡ self.run.called.done.items }
    {
        let Ran { team, run } = self;
        let Team {
            handles,
            flows,
            ends,
        } = team;
        let mut handles = handles;
        let mut flows = flows;
        let mut ends = ends;
        handles.push_reserved(done.handle);
        flows.push_reserved(done.flow);
        ends.push_reserved(done.end);
        let team = Team {
            handles,
            flows,
            ends,
        };
        Ran { team, run }
    }

    /// The last flow that the caller ran, and all else.
    fn without_own(self) -> (Ran<E, F>, Done<F>)
        requires { 0 < vec_len self.run.called.done }
        ensures own { self.run.called.done.items ≡ result.0.run.called.done.items ++ result.1 ∷ [] }
        ensures fewer { vec_len self.run.called.done ≡ vec_len result.0.run.called.done + 1 }
        ensures team { result.0.team ≡ self.team }
        ensures handles { result.0.team.handles.items ≡ self.team.handles.items }
        ensures flows { result.0.team.flows.items ≡ self.team.flows.items }
        ensures ends { result.0.team.ends.items ≡ self.team.ends.items }
        ensures crew { result.0.run.crew ≡ self.run.crew }
    {
        let Ran { team, run } = self;
        let Run { crew, called } = run;
        let Called { done, help } = called;
        let mut done = done;
        let Some(own) = done.pop() else {
            unreachable!()
        };
        let called = Called { done, help };
        let run = Run { crew, called };
        (Ran { team, run }, own)
    }
}

/// The seat of the last slot.
fn last_handle(handles: &mut Vec<HandleSeat>) -> Option<HandleSeat>
    ensures none { IfNone result ((vec_len handles.old ≡ 0) × (vec_len handles.new ≡ 0)) }
    ensures some { IfSome result (λ h. vec_len handles.old ≡ vec_len handles.new + 1) }
    ensures handle { (device : DeviceId) → AreNewHandles device (vec_len handles.old) handles.old.items → IfSome result (λ h. h ≡ new_handle device (vec_len handles.new)) }
    ensures others { (device : DeviceId) → AreNewHandles device (vec_len handles.old) handles.old.items → AreNewHandles device (vec_len handles.new) handles.new.items }
    ensures capacity { vec_capacity handles.new ≡ vec_capacity handles.old }
{
    handles.pop()
}

/// Starts the flows, the last one first, lets the crew and the caller do their part, and joins all. A flow whose thread
/// can't be started is run by the caller, behind the flows that it has already.
pub(crate) fn run_team<'s, C, R: Threads + Wait + Sync, E: Engine + Send + 's, F: Flow + Send + 's>(
    scope: &Scope<'s, C>,
    rt: &'s R,
    alloc: Global,
    site: &'s Site,
    team: Team<F>,
    crew: Crew<E>,
    caller: Caller<E, F>,
) -> Ran<E, F>
    requires handles { AreNewHandles (device_of site.now) (vec_len team.handles) team.handles.items }
    requires flows { vec_len team.handles ≡ vec_len team.flows }
    requires may { All (λ f. F.may f) team.flows.items }
    requires ends { (team.ends.items ≡ []) × (vec_len team.flows ≤ vec_capacity team.ends) }
    requires refused { vec_len team.flows ≤ vec_len site.now.refused_flows }
    requires jobs { AreNewWorkers (device_of site.now) (vec_len crew.jobs) crew.jobs.items }
    requires engines { vec_len crew.jobs ≤ vec_len crew.engines }
    requires refused_jobs { vec_len crew.jobs ≤ vec_len site.now.refused_workers }
    requires own { All (λ c. MayFlow F.may (device_of site.now) c.handle c.flow) caller.seated_flows.items }
    requires own_room { vec_len team.flows + vec_len caller.seated_flows ≤ vec_capacity caller.seated_flows }
    requires done { (caller.done.items ≡ []) × (vec_len team.flows + vec_len caller.seated_flows ≤ vec_capacity caller.done) }
    requires help { caller.help ≡ None }
    ensures flowed { HaveFlowed F.does (device_of site.now) 0 team.flows.items result.team.flows.items result.team.ends.items result.team.handles.items }
    ensures handles { vec_len result.team.handles ≡ vec_len team.handles }
    ensures flows { vec_len result.team.flows ≡ vec_len team.flows }
    ensures ends { vec_len result.team.ends ≡ vec_len team.flows }
    ensures handles_room { vec_capacity result.team.handles ≡ vec_capacity team.handles }
    ensures flows_room { vec_capacity result.team.flows ≡ vec_capacity team.flows }
    ensures ends_room { vec_capacity result.team.ends ≡ vec_capacity team.ends }
    ensures worked { HaveWorked E.run_count E.fault_count (device_of site.now) 0 result.run.crew.jobs.items crew.engines.items result.run.crew.engines.items }
    ensures jobs { vec_len result.run.crew.jobs ≡ vec_len crew.jobs }
    ensures engines { vec_len result.run.crew.engines ≡ vec_len crew.engines }
    ensures own { ArePaired (λ c d. HasFlowed F.does c.flow d.flow d.end c.handle d.handle) caller.seated_flows.items result.run.called.done.items }
    ensures own_all { vec_len result.run.called.done ≡ vec_len caller.seated_flows }
{
    let Team {
        handles,
        flows,
        ends,
    } = team;
    let mut handles = handles;
    let mut flows = flows;
    let Some(handle) = last_handle(&mut handles) else {
        let run = run_crew(scope, rt, alloc, site, crew, caller);
        let team = Team {
            handles,
            flows,
            ends,
        };
        return Ran { team, run };
    };
    let Some(flow) = flows.pop() else {
        unreachable!()
    };
    let is_refused = &site.refused_flows[handles.len()];
    let team = Team {
        handles,
        flows,
        ends,
    };
    match begin(
        scope,
        rt,
        alloc,
        site,
        is_refused,
        SeatedFlow { handle, flow },
    ) {
        Ok(started) => {
            let ran = run_team(scope, rt, alloc, site, team, crew, caller);
            ran.with_done(behind(rt, alloc, site, started.join(rt)))
        }
        Err(Ok(done)) => {
            let ran = run_team(scope, rt, alloc, site, team, crew, caller);
            ran.with_done(done)
        }
        Err(Err(seated)) => {
            let caller = caller.with_flow(seated);
            let ran = run_team(scope, rt, alloc, site, team, crew, caller);
            let (ran, own) = ran.without_own();
            ran.with_done(own)
        }
    }
}
