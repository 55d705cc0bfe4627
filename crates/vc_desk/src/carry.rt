//! Carries out what a line asks for.

ghost use Rattle.std.specs.Prelude.{◌≡◌, ◌<◌, ◌≤◌, ◌+◌, ◌^◌, ℕ, List, [], length, IfOk};
ghost use Rattle.vc_base.specs.Device.{DeviceEvent};
ghost use Rattle.vc_model.specs.Script.{HasUsedBytes, AsksCall, AsksClaim, AsksFinish, AsksRun};
ghost use Rattle.vc_desk.specs.Asking.{asked_of, IsAskedLine};
ghost use Rattle.vc_desk.specs.Desks.{IsDesk, IsSomeDesk};
ghost use Rattle.vc_desk.specs.Told.{ClaimsWith, FinishesWith};
ghost use Rattle.vc_desk.specs.Carries.{LineMade};

use crate::desk::Desk;
use crate::ends::{ClaimEnd, FinishEnd};
use std::alloc::Global;
use vc_base::{Call, NoMemory};
use vc_core::Engine;
use vc_script::{Line, put_busy, put_claim, put_finish, put_idle, put_no_claim, put_reply};

/// What a line printed, and whether the engine gave up in it.
#[derive(Drop)]
pub struct Printed {
    /// The lines, each with its line feed.
    pub text: Vec<u8>,
    /// Whether the engine gave up.
    pub fault: bool,
}

fn carry_call(
    alloc: Global,
    desk: &mut Desk,
    slot: u32,
    call: &Call,
    bytes: &[u8],
) -> Result<Printed, NoMemory>
    requires desk { IsSomeDesk desk.old }
    requires slot { slot < length desk.old.core.slots }
    requires counts { desk.old.core.steps < 2 ^ 62 }
    ensures made { (n : ℕ) (history : List DeviceEvent) (runs faults : ℕ) → IsDesk n history desk.old → HasUsedBytes call.now bytes.now →
        IfOk result (λ p. LineMade n history (AsksCall slot call.now bytes.now) p.text.items p.fault runs runs faults faults desk.new) }
    ensures steps { IfOk result (λ p. desk.new.core.steps ≤ desk.old.core.steps + 1) }
{
    let reply = desk.call(slot, call, bytes);
    let payload = desk.taken(slot, call, &reply);
    let mut text = Vec::new(alloc);
    put_reply(alloc, &mut text, slot, call, &reply, payload)?;
    Ok(Printed { text, fault: false })
}

/// Lets the worker claim, and appends the line of the claim. Tells whether it took a slot.
pub fn carry_claim(
    alloc: Global,
    desk: &mut Desk,
    worker: u32,
    text: &mut Vec<u8>,
) -> Result<bool, NoMemory>
    requires desk { IsSomeDesk desk.old }
    requires worker { worker < 16 }
    requires counts { desk.old.core.steps < 2 ^ 62 }
    ensures done { IfOk result (λ claimed. ClaimsWith desk.old worker text.old.items text.new.items desk.new claimed) }
    ensures steps { IfOk result (λ claimed. desk.new.core.steps ≤ desk.old.core.steps + 1) }
{
    match desk.claim(worker) {
        ClaimEnd::Busy => {
            put_busy(text)?;
            Ok(false)
        }
        ClaimEnd::Empty => {
            put_no_claim(text)?;
            Ok(false)
        }
        ClaimEnd::Took { slot } => {
            put_claim(alloc, text, slot)?;
            Ok(true)
        }
    }
}

// Tells whether the engine gave up.
fn carry_finish<E: Engine>(
    alloc: Global,
    desk: &mut Desk,
    worker: u32,
    engine: &mut E,
    text: &mut Vec<u8>,
) -> Result<bool, NoMemory>
    requires desk { IsSomeDesk desk.old }
    requires worker { worker < 16 }
    requires counts { desk.old.core.steps < 2 ^ 62 }
    ensures done { IfOk result (λ fault. FinishesWith desk.old worker text.old.items text.new.items desk.new
        (E.run_count engine.old) (E.run_count engine.new) (E.fault_count engine.old) (E.fault_count engine.new) fault) }
    ensures steps { IfOk result (λ fault. desk.new.core.steps ≤ desk.old.core.steps + 1) }
    ensures runs_stay { E.run_count engine.old ≤ E.run_count engine.new }
    ensures faults_stay { E.fault_count engine.old ≤ E.fault_count engine.new }
{
    match desk.finish(worker, engine) {
        FinishEnd::Idle => {
            put_idle(text)?;
            Ok(false)
        }
        FinishEnd::Ended { slot, word, fault } => {
            put_finish(alloc, text, slot, word)?;
            Ok(fault)
        }
    }
}

fn carry_run<E: Engine>(
    alloc: Global,
    desk: &mut Desk,
    worker: u32,
    engine: &mut E,
    text: &mut Vec<u8>,
) -> Result<bool, NoMemory>
    requires desk { IsSomeDesk desk.old }
    requires worker { worker < 16 }
    requires counts { desk.old.core.steps + 1 < 2 ^ 62 }
    requires first { text.old.items ≡ [] }
    ensures made { (n : ℕ) (history : List DeviceEvent) → IsDesk n history desk.old →
        IfOk result (λ fault. LineMade n history (AsksRun worker) text.new.items fault
        (E.run_count engine.old) (E.run_count engine.new) (E.fault_count engine.old) (E.fault_count engine.new) desk.new) }
    ensures steps { IfOk result (λ fault. desk.new.core.steps ≤ desk.old.core.steps + 2) }
    ensures runs_stay { E.run_count engine.old ≤ E.run_count engine.new }
    ensures faults_stay { E.fault_count engine.old ≤ E.fault_count engine.new }
{
    if carry_claim(alloc, desk, worker, text)? {
        carry_finish(alloc, desk, worker, engine, text)
    } else {
        Ok(false)
    }
}

// The line of a claim alone.
fn claim_line(alloc: Global, desk: &mut Desk, worker: u32) -> Result<Printed, NoMemory>
    requires desk { IsSomeDesk desk.old }
    requires worker { worker < 16 }
    requires counts { desk.old.core.steps < 2 ^ 62 }
    ensures made { (n : ℕ) (history : List DeviceEvent) (runs faults : ℕ) → IsDesk n history desk.old →
        IfOk result (λ p. LineMade n history (AsksClaim worker) p.text.items p.fault runs runs faults faults desk.new) }
    ensures steps { IfOk result (λ p. desk.new.core.steps ≤ desk.old.core.steps + 1) }
{
    let mut text = Vec::new(alloc);
    let _claimed = carry_claim(alloc, desk, worker, &mut text)?;
    Ok(Printed { text, fault: false })
}

// The line of a finish alone.
fn finish_line<E: Engine>(
    alloc: Global,
    desk: &mut Desk,
    worker: u32,
    engine: &mut E,
) -> Result<Printed, NoMemory>
    requires desk { IsSomeDesk desk.old }
    requires worker { worker < 16 }
    requires counts { desk.old.core.steps < 2 ^ 62 }
    ensures made { (n : ℕ) (history : List DeviceEvent) → IsDesk n history desk.old →
        IfOk result (λ p. LineMade n history (AsksFinish worker) p.text.items p.fault
        (E.run_count engine.old) (E.run_count engine.new) (E.fault_count engine.old) (E.fault_count engine.new) desk.new) }
    ensures steps { IfOk result (λ p. desk.new.core.steps ≤ desk.old.core.steps + 1) }
    ensures runs_stay { E.run_count engine.old ≤ E.run_count engine.new }
    ensures faults_stay { E.fault_count engine.old ≤ E.fault_count engine.new }
{
    let mut text = Vec::new(alloc);
    let fault = carry_finish(alloc, desk, worker, engine, &mut text)?;
    Ok(Printed { text, fault })
}

// The line of a run.
fn run_line<E: Engine>(
    alloc: Global,
    desk: &mut Desk,
    worker: u32,
    engine: &mut E,
) -> Result<Printed, NoMemory>
    requires desk { IsSomeDesk desk.old }
    requires worker { worker < 16 }
    requires counts { desk.old.core.steps + 1 < 2 ^ 62 }
    ensures made { (n : ℕ) (history : List DeviceEvent) → IsDesk n history desk.old →
        IfOk result (λ p. LineMade n history (AsksRun worker) p.text.items p.fault
        (E.run_count engine.old) (E.run_count engine.new) (E.fault_count engine.old) (E.fault_count engine.new) desk.new) }
    ensures steps { IfOk result (λ p. desk.new.core.steps ≤ desk.old.core.steps + 2) }
    ensures runs_stay { E.run_count engine.old ≤ E.run_count engine.new }
    ensures faults_stay { E.fault_count engine.old ≤ E.fault_count engine.new }
{
    let mut text = Vec::new(alloc);
    let fault = carry_run(alloc, desk, worker, engine, &mut text)?;
    Ok(Printed { text, fault })
}

/// Carries out what a line asks for.
pub fn carry_out<E: Engine>(
    alloc: Global,
    desk: &mut Desk,
    asked: Option<Line>,
    engine: &mut E,
) -> Result<Printed, NoMemory>
    requires desk { IsSomeDesk desk.old }
    requires asked { IsAskedLine (length desk.old.core.slots) asked }
    requires counts { desk.old.core.steps + 1 < 2 ^ 62 }
    ensures made { (n : ℕ) (history : List DeviceEvent) → IsDesk n history desk.old →
        IfOk result (λ p. LineMade n history (asked_of asked) p.text.items p.fault
        (E.run_count engine.old) (E.run_count engine.new) (E.fault_count engine.old) (E.fault_count engine.new) desk.new) }
    ensures steps { IfOk result (λ p. desk.new.core.steps ≤ desk.old.core.steps + 2) }
    ensures runs_stay { E.run_count engine.old ≤ E.run_count engine.new }
    ensures faults_stay { E.fault_count engine.old ≤ E.fault_count engine.new }
{
    match asked {
        None => Ok(Printed {
            text: Vec::new(alloc),
            fault: false,
        }),
        Some(Line::Call { slot, call, bytes }) => {
            carry_call(alloc, desk, slot, &call, bytes.as_slice())
        }
        Some(Line::Claim { worker }) => claim_line(alloc, desk, worker),
        Some(Line::Finish { worker }) => finish_line(alloc, desk, worker, engine),
        Some(Line::Run { worker }) => run_line(alloc, desk, worker, engine),
    }
}
