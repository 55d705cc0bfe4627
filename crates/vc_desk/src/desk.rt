//! A device, with what its users and its workers keep.

ghost use Rattle.std.specs.Prelude.{◌≡◌, ◌<◌, ◌≤◌, ◌^◌, ◌+◌, ℕ, List, [], length, get_or, set, replicate, is_some, true, false, None, IfOk};
ghost use Rattle.vc_base.specs.declared.Side.TheVariants.{Out, Cap};
ghost use Rattle.vc_base.specs.Device.{DeviceEvent};
ghost use Rattle.vc_model.specs.Script.{HasUsedBytes};
ghost use Rattle.vc_queue.specs.Cells.{bytes_or_none};
ghost use Rattle.vc_queue.specs.Holds.{held_payload};
ghost use Rattle.vc_context.specs.Payloads.{empty_hold};
ghost use Rattle.vc_base.specs.Limits.{most_slots, script_workers};
ghost use Rattle.vc_desk.specs.Desks.{IsDesk, IsSomeDesk, CallDone, has_room, filled, taken_payload};
ghost use Rattle.vc_desk.specs.Workers.{ClaimDone, FinishDone, GivenUp};
ghost use Rattle.vc_desk.specs.Skips.{seeks_memory, refused_beside, IsAlike, FoundNone};
ghost use Rattle.vc_model.specs.Devices.{slot_of};

use crate::ends::{ClaimEnd, FinishEnd};
use std::alloc::Global;
use vc_base::{Call, Kind, NoMemory, Reply, Side};
use vc_core::{Core, Engine, Job};
use vc_queue::hold::Hold;

/// The workers that a script may name.
const WORKERS: u32 = 16;

/// A device, the payloads that the user of each slot holds, and the job of each worker.
#[derive(Drop)]
pub struct Desk {
    /// The device.
    pub core: Core,
    /// What the user of each slot holds.
    pub holds: Vec<Hold>,
    /// The job of each worker that has one.
    pub jobs: Vec<Option<Job>>,
}

/// So many users, who hold nothing.
fn empty_holds(alloc: Global, number: u32) -> Result<Vec<Hold>, NoMemory>
    ensures { IfOk result (λ holds. holds.items ≡ replicate number empty_hold) }
{
    let mut holds = Vec::new(alloc);
    for _hold in 0..number {
        let Ok(()) = holds.push(Hold::new()) else {
            return Err(NoMemory);
        };
    }
    Ok(holds)
}

/// So many workers without a job.
fn no_jobs(alloc: Global, number: u32) -> Result<Vec<Option<Job>>, NoMemory>
    ensures { IfOk result (λ jobs. jobs.items ≡ replicate number None) }
{
    let mut jobs = Vec::new(alloc);
    for _job in 0..number {
        let Ok(()) = jobs.push(None) else {
            return Err(NoMemory);
        };
    }
    Ok(jobs)
}

/// Whether the user holds the payload of an OUTPUT buffer with room for the bytes.
fn has_room(hold: &Hold, index: u32, bytes: &[u8]) -> bool
    ensures { result ≡ has_room (held_payload hold.now Out index) bytes.now }
{
    match hold.payload(Side::Out, index) {
        Some(payload) => bytes.len() <= payload.len(),
        None => false,
    }
}

/// Copies what a call queues on OUTPUT to the front of the held payload, where it has room.
fn fill(hold: &mut Hold, call: &Call, bytes: &[u8])
    ensures { hold.new ≡ filled call.now bytes.now hold.old }
{
    if let Call::QBuf {
        side: Side::Out,
        index,
        ..
    } = *call
    {
        if has_room(hold, index, bytes) {
            hold.write(Side::Out, index, bytes);
        }
    }
}

/// The payload of a CAPTURE buffer, and no bytes where it isn't held.
fn payload_or_none(hold: &Hold, index: u32) -> &[u8]
    ensures { result.now ≡ bytes_or_none (held_payload hold.now Cap index) }
{
    match hold.payload(Side::Cap, index) {
        Some(payload) => payload,
        None => &[],
    }
}

/// A call that is refused where this one takes memory: a closed slot refuses all but Open, and an open one refuses that.
fn refused_beside(call: &Call) -> Call
    ensures { result ≡ refused_beside call.now }
{
    match call {
        Call::Open { .. } => Call::Poll,
        _ => Call::Open { kind: Kind::Copy },
    }
}

impl Desk {
    /// A device of closed slots, whose users hold nothing and whose workers have no job.
    pub fn make(alloc: Global, slots: u32) -> Result<Desk, NoMemory>
        requires { (0 < slots) × (slots ≤ most_slots) }
        ensures desk { IfOk result (λ desk. IsDesk slots [] desk) }
        ensures steps { IfOk result (λ desk. desk.core.steps ≡ 0) }
    {
        let core = Core::make(alloc, slots, WORKERS)?;
        let holds = empty_holds(alloc, slots)?;
        let jobs = no_jobs(alloc, WORKERS)?;
        Ok(Desk { core, holds, jobs })
    }

    /// Makes a call on a slot. What it queues on OUTPUT is put into the payload first.
    pub fn call(&mut self, slot: u32, call: &Call, bytes: &[u8]) -> Reply
        requires desk { IsSomeDesk self.old }
        requires slot { slot < length self.old.core.slots }
        requires counts { self.old.core.steps < 2 ^ 62 }
        ensures done { (n : ℕ) (history : List DeviceEvent) → IsDesk n history self.old → HasUsedBytes call.now bytes.now → CallDone n history slot call.now bytes.now result self.new }
        ensures steps { self.new.core.steps ≤ self.old.core.steps + 1 }
        ensures users { length self.new.holds.items ≡ length self.old.holds.items }
    {
        let hold = &mut self.holds[slot as usize];
        fill(hold, call, bytes);
        self.core.call(slot, call, hold)
    }

    /// The payload of a buffer that was taken from CAPTURE, and nothing after any other reply.
    pub fn taken(&self, slot: u32, call: &Call, reply: &Reply) -> &[u8]
        requires slot { slot < length self.now.holds.items }
        ensures { result.now ≡ taken_payload call.now reply.now (get_or self.now.holds.items slot empty_hold) }
    {
        match (call, reply) {
            (
                Call::DqBuf {
                    side: Side::Cap,
                    ..
                },
                Reply::Taken { index, .. },
            ) => payload_or_none(&self.holds[slot as usize], *index),
            _ => &[],
        }
    }

    /// Whether the worker has a job.
    fn is_busy(&self, worker: u32) -> bool
        requires { worker < length self.now.jobs.items }
        ensures { result ≡ is_some (get_or self.now.jobs.items worker None) }
    {
        self.jobs[worker as usize].is_some()
    }

    /// Takes the job of the worker out of the table.
    fn take_job(&mut self, worker: u32) -> Option<Job>
        requires { worker < length self.old.jobs.items }
        ensures job { result ≡ get_or self.old.jobs.items worker None }
        ensures jobs { self.new.jobs.items ≡ set self.old.jobs.items worker None }
        ensures core { self.new.core ≡ self.old.core }
        ensures holds { self.new.holds ≡ self.old.holds }
    {
        self.jobs[worker as usize].take()
    }

    /// Lets the worker claim the job of the slot that waits longest.
    pub fn claim(&mut self, worker: u32) -> ClaimEnd
        requires desk { IsSomeDesk self.old }
        requires worker { worker < script_workers }
        requires counts { self.old.core.steps < 2 ^ 62 }
        ensures done { (n : ℕ) (history : List DeviceEvent) → IsDesk n history self.old → ClaimDone n history worker self.new result }
        ensures steps { self.new.core.steps ≤ self.old.core.steps + 1 }
    {
        if self.is_busy(worker) {
            return ClaimEnd::Busy;
        }
        match self.core.claim(worker) {
            None => ClaimEnd::Empty,
            Some(job) => {
                let slot = job.slot();
                self.jobs[worker as usize] = Some(job);
                ClaimEnd::Took { slot }
            }
        }
    }

    /// Runs the job of the worker on the engine, and takes it back.
    pub fn finish<E: Engine>(&mut self, worker: u32, engine: &mut E) -> FinishEnd
        requires desk { IsSomeDesk self.old }
        requires worker { worker < script_workers }
        requires counts { self.old.core.steps < 2 ^ 62 }
        ensures done { (n : ℕ) (history : List DeviceEvent) → IsDesk n history self.old → FinishDone n history worker self.new
            (E.run_count engine.old) (E.run_count engine.new) (E.fault_count engine.old) (E.fault_count engine.new) result }
        ensures steps { self.new.core.steps ≤ self.old.core.steps + 1 }
        ensures runs_stay { E.run_count engine.old ≤ E.run_count engine.new }
        ensures faults_stay { E.fault_count engine.old ≤ E.fault_count engine.new }
    {
        let Some(job) = self.take_job(worker) else {
            return FinishEnd::Idle;
        };
        let slot = job.slot();
        let finished = job.run(engine);
        let word = finished.word();
        let fault = finished.is_fault();
        self.core.finish(worker, finished);
        FinishEnd::Ended { slot, word, fault }
    }

    /// Gives the job of the worker up, and takes it back with a fault. No engine runs.
    pub fn give_up(&mut self, worker: u32) -> FinishEnd
        requires desk { IsSomeDesk self.old }
        requires worker { worker < script_workers }
        requires counts { self.old.core.steps < 2 ^ 62 }
        ensures done { (n : ℕ) (history : List DeviceEvent) → IsDesk n history self.old → GivenUp n history worker self.new result }
        ensures steps { self.new.core.steps ≤ self.old.core.steps + 1 }
    {
        let Some(job) = self.take_job(worker) else {
            return FinishEnd::Idle;
        };
        let slot = job.slot();
        let finished = job.give_up();
        let word = finished.word();
        self.core.finish(worker, finished);
        FinishEnd::Ended {
            slot,
            word,
            fault: true,
        }
    }

    /// Whether a call takes memory, and passes every test before that.
    fn passes_to_memory(&self, slot: u32, call: &Call) -> bool
        requires slot { slot < length self.now.core.slots }
        ensures { result ≡ seeks_memory (slot_of self.now.core slot) call.now }
    {
        match call {
            Call::Open { .. } | Call::ReqBufs { .. } | Call::CreateBufs { .. } => {
                self.core.refusal(slot, call).is_none()
            }
            _ => false,
        }
    }

    /// Whether a call seeks memory: whether it is Open, ReqBufs or CreateBufs, and passes every test before memory. To any other
    /// call memory makes no difference.
    pub fn seeks_memory(&self, slot: u32, call: &Call) -> bool
        requires slot { slot < length self.now.core.slots }
        ensures seeks { result ≡ seeks_memory (slot_of self.now.core slot) call.now }
        ensures alike { (n : ℕ) (history : List DeviceEvent) (bytes : List ℕ) → IsDesk n history self.now → result ≡ false → IsAlike n history slot call.now bytes }
    {
        self.passes_to_memory(slot, call)
    }

    /// Makes a call that seeks memory, and finds none: it is refused with ENOMEM, and but for the count of steps nothing changes.
    pub fn skip(&mut self, slot: u32, call: &Call)
        requires desk { IsSomeDesk self.old }
        requires slot { slot < length self.old.core.slots }
        requires seeks { seeks_memory (slot_of self.old.core slot) call.now ≡ true }
        requires counts { self.old.core.steps < 2 ^ 62 }
        ensures done { (n : ℕ) (history : List DeviceEvent) (bytes : List ℕ) → IsDesk n history self.old → FoundNone n history slot call.now bytes self.new }
        ensures steps { self.new.core.steps ≤ self.old.core.steps + 1 }
    {
        // The core has no memory to lack. Another call that it refuses is the same step.
        let refused = refused_beside(call);
        let _reply = self.call(slot, &refused, &[]);
    }
}
