//! Answers the body of a message on a device.

ghost use Rattle.std.specs.Prelude.{◌≡◌, ◌<◌, ◌≤◌, ◌+◌, ◌^◌, ℕ, List, Some, None, false, length, OnOk, OnErr, IfOk};
ghost use Rattle.vc_base.specs.Device.{DeviceEvent};
ghost use Rattle.vc_base.specs.Limits.{script_workers};
ghost use Rattle.vc_model.specs.Messages.{asked_in};
ghost use Rattle.vc_model.specs.Script.{HasUsedBytes, AsksCall, AsksClaim, AsksFinish};
ghost use Rattle.vc_desk.specs.Desks.{IsDesk, IsSomeDesk};
ghost use Rattle.vc_wire.specs.Answers.{IsAnswered, IsUntold};

use crate::replies::{put_called, put_claimed, put_finished, put_short};
use crate::requests::{Request, payload_in, request_in};
use std::alloc::Global;
use vc_base::{Call, NoMemory};
use vc_core::Engine;
use vc_desk::{ClaimEnd, Desk, FinishEnd};

/// The reply to a body that is out of the table, or has a slot or a worker out of range.
const BAD_MESSAGE: u8 = 0x7f;

/// The reply to a claim where no slot waits.
const CLAIM_NONE: u8 = 0x51;

/// The reply to a claim by a worker that has a job.
const CLAIM_BUSY: u8 = 0x52;

/// The reply to a finish by a worker that has no job.
const FINISH_IDLE: u8 = 0x54;

/// Makes a call, and appends the reply to it.
fn answer_call(
    alloc: Global,
    desk: &mut Desk,
    slot: u32,
    call: &Call,
    bytes: &[u8],
    out: &mut Vec<u8>,
) -> Result<(), NoMemory>
    requires desk { IsSomeDesk desk.old }
    requires slot { slot < length desk.old.core.slots }
    requires counts { desk.old.core.steps < 2 ^ 62 }
    requires used { HasUsedBytes call.now bytes.now }
    ensures answered { (n : ℕ) (history : List DeviceEvent) (runs faults : ℕ) → IsDesk n history desk.old →
        OnOk result (IsAnswered n history (Some (AsksCall slot call.now bytes.now)) out.old.items out.new.items false runs runs faults faults desk.new) }
    ensures untold { (n : ℕ) (history : List DeviceEvent) (runs faults : ℕ) → IsDesk n history desk.old →
        OnErr result (IsUntold n history (Some (AsksCall slot call.now bytes.now)) out.old.items out.new.items runs runs faults faults desk.new) }
    ensures steps { desk.new.core.steps ≤ desk.old.core.steps + 1 }
{
    let reply = desk.call(slot, call, bytes);
    let payload = desk.taken(slot, call, &reply);
    put_called(alloc, out, call, &reply, payload)
}

/// Lets a worker claim, and appends the reply to it.
fn answer_claim(
    alloc: Global,
    desk: &mut Desk,
    worker: u32,
    out: &mut Vec<u8>,
) -> Result<(), NoMemory>
    requires desk { IsSomeDesk desk.old }
    requires worker { worker < script_workers }
    requires counts { desk.old.core.steps < 2 ^ 62 }
    ensures answered { (n : ℕ) (history : List DeviceEvent) (runs faults : ℕ) → IsDesk n history desk.old →
        OnOk result (IsAnswered n history (Some (AsksClaim worker)) out.old.items out.new.items false runs runs faults faults desk.new) }
    ensures untold { (n : ℕ) (history : List DeviceEvent) (runs faults : ℕ) → IsDesk n history desk.old →
        OnErr result (IsUntold n history (Some (AsksClaim worker)) out.old.items out.new.items runs runs faults faults desk.new) }
    ensures steps { desk.new.core.steps ≤ desk.old.core.steps + 1 }
{
    match desk.claim(worker) {
        ClaimEnd::Busy => put_short(out, CLAIM_BUSY),
        ClaimEnd::Empty => put_short(out, CLAIM_NONE),
        ClaimEnd::Took { slot } => put_claimed(alloc, out, slot),
    }
}

/// Runs the job of a worker, and appends the reply to its finish. Tells whether the engine gave up.
fn answer_finish<E: Engine>(
    alloc: Global,
    desk: &mut Desk,
    worker: u32,
    engine: &mut E,
    out: &mut Vec<u8>,
) -> Result<bool, NoMemory>
    requires desk { IsSomeDesk desk.old }
    requires worker { worker < script_workers }
    requires counts { desk.old.core.steps < 2 ^ 62 }
    ensures answered { (n : ℕ) (history : List DeviceEvent) → IsDesk n history desk.old →
        IfOk result (λ fault. IsAnswered n history (Some (AsksFinish worker)) out.old.items out.new.items fault
        (E.run_count engine.old) (E.run_count engine.new) (E.fault_count engine.old) (E.fault_count engine.new) desk.new) }
    ensures untold { (n : ℕ) (history : List DeviceEvent) → IsDesk n history desk.old →
        OnErr result (IsUntold n history (Some (AsksFinish worker)) out.old.items out.new.items
        (E.run_count engine.old) (E.run_count engine.new) (E.fault_count engine.old) (E.fault_count engine.new) desk.new) }
    ensures steps { desk.new.core.steps ≤ desk.old.core.steps + 1 }
    ensures runs_stay { E.run_count engine.old ≤ E.run_count engine.new }
    ensures faults_stay { E.fault_count engine.old ≤ E.fault_count engine.new }
{
    match desk.finish(worker, engine) {
        FinishEnd::Idle => {
            put_short(out, FINISH_IDLE)?;
            Ok(false)
        }
        FinishEnd::Ended { slot, word, fault } => {
            put_finished(alloc, out, slot, word)?;
            Ok(fault)
        }
    }
}

/// Answers the body of a message: does what it asks for on the device, and appends the reply with its length. Tells whether
/// the engine gave up in it. A body that is out of the table, or has a slot or a worker out of range, changes nothing.
///
/// # Errors
/// `NoMemory` where no memory is found for the reply. What the body asks for was done, and nothing was appended.
pub fn answer_body<E: Engine>(
    alloc: Global,
    desk: &mut Desk,
    body: &[u8],
    engine: &mut E,
    out: &mut Vec<u8>,
) -> Result<bool, NoMemory>
    requires desk { IsSomeDesk desk.old }
    requires body { length body.now < 2 ^ 32 }
    requires counts { desk.old.core.steps < 2 ^ 62 }
    ensures answered { (n : ℕ) (history : List DeviceEvent) → IsDesk n history desk.old →
        IfOk result (λ fault. IsAnswered n history (asked_in n body.now) out.old.items out.new.items fault
        (E.run_count engine.old) (E.run_count engine.new) (E.fault_count engine.old) (E.fault_count engine.new) desk.new) }
    ensures untold { (n : ℕ) (history : List DeviceEvent) → IsDesk n history desk.old →
        OnErr result (IsUntold n history (asked_in n body.now) out.old.items out.new.items
        (E.run_count engine.old) (E.run_count engine.new) (E.fault_count engine.old) (E.fault_count engine.new) desk.new) }
    ensures steps { desk.new.core.steps ≤ desk.old.core.steps + 1 }
    ensures runs_stay { E.run_count engine.old ≤ E.run_count engine.new }
    ensures faults_stay { E.fault_count engine.old ≤ E.fault_count engine.new }
{
    match request_in(desk.holds.len() as u32, body) {
        None => {
            put_short(out, BAD_MESSAGE)?;
            Ok(false)
        }
        Some(Request::Call { slot, call }) => {
            answer_call(alloc, desk, slot, &call, payload_in(&call, body), out)?;
            Ok(false)
        }
        Some(Request::Claim { worker }) => {
            answer_claim(alloc, desk, worker, out)?;
            Ok(false)
        }
        Some(Request::Finish { worker }) => answer_finish(alloc, desk, worker, engine, out),
    }
}
