//! Replays one line of a script, as the report says of memory and of faults.

ghost use Rattle.std.specs.Prelude.{◌≡◌, ◌<◌, ◌≤◌, ◌+◌, ◌^◌, ◌++◌, ◌&&◌, ℕ, List, [], length, IfOk};
ghost use Rattle.vc_base.specs.Device.{DeviceEvent};
ghost use Rattle.vc_base.specs.Limits.{script_workers};
ghost use Rattle.vc_model.specs.Devices.{slot_of};
ghost use Rattle.vc_model.specs.Script.{HasUsedBytes, AsksCall, AsksClaim, AsksFinish, AsksRun};
ghost use Rattle.vc_desk.specs.Asking.{asked_of, IsAskedLine};
ghost use Rattle.vc_desk.specs.Desks.{IsDesk, IsSomeDesk};
ghost use Rattle.vc_desk.specs.Skips.{seeks_memory};
ghost use Rattle.vc_audit.specs.Replays.{LineReplayed, Replayed, EndedAs, FinishesAs, is_want, tells_lack};

use crate::pieces::{LineEnd, first_line, judge, tells_fault, two_lines};
use std::alloc::Global;
use vc_base::{Call, Errno, NoMemory, Reply};
use vc_core::Engine;
use vc_desk::{Desk, FinishEnd, carry_claim};
use vc_script::{Line, put_finish, put_idle, put_reply};

// Whether the text tells that no memory was found for the call.
fn is_want(alloc: Global, slot: u32, call: &Call, text: &[u8]) -> Result<bool, NoMemory>
    ensures { IfOk result (λ is. is ≡ is_want slot call.now text.now) }
{
    let mut want = Vec::new(alloc);
    let reply = Reply::Refused {
        errno: Errno::NoMem,
    };
    put_reply(alloc, &mut want, slot, call, &reply, &[])?;
    Ok(text == want.as_slice())
}

// Whether the call seeks memory, and the text tells that none was found.
fn lacks_memory(
    alloc: Global,
    desk: &Desk,
    slot: u32,
    call: &Call,
    text: &[u8],
) -> Result<bool, NoMemory>
    requires slot { slot < length desk.now.core.slots }
    ensures { IfOk result (λ lacks. lacks ≡ (seeks_memory (slot_of desk.now.core slot) call.now && is_want slot call.now text.now)) }
{
    if desk.seeks_memory(slot, call) {
        is_want(alloc, slot, call, text)
    } else {
        Ok(false)
    }
}

// Whether a call was refused for want of memory.
fn tells_lack(reply: &Reply) -> bool
    ensures { result ≡ tells_lack reply.now }
{
    matches!(
        reply,
        Reply::Refused {
            errno: Errno::NoMem
        }
    )
}

fn replay_call(
    alloc: Global,
    desk: &mut Desk,
    slot: u32,
    call: &Call,
    bytes: &[u8],
    report: &[u8],
) -> Result<LineEnd, NoMemory>
    requires desk { IsSomeDesk desk.old }
    requires slot { slot < length desk.old.core.slots }
    requires counts { desk.old.core.steps < 2 ^ 62 }
    ensures done { (n : ℕ) (history : List DeviceEvent) → IsDesk n history desk.old → HasUsedBytes call.now bytes.now →
        IfOk result (λ end. LineReplayed n history (AsksCall slot call.now bytes.now) report.now end desk.new) }
    ensures steps { IfOk result (λ end. desk.new.core.steps ≤ desk.old.core.steps + 1) }
{
    let text = first_line(report);
    if lacks_memory(alloc, desk, slot, call, text)? {
        desk.skip(slot, call);
        return Ok(LineEnd::Same {
            length: text.len(),
            lines: 1,
        });
    }
    let reply = desk.call(slot, call, bytes);
    if tells_lack(&reply) {
        return Err(NoMemory);
    }
    let payload = desk.taken(slot, call, &reply);
    let mut wanted = Vec::new(alloc);
    put_reply(alloc, &mut wanted, slot, call, &reply, payload)?;
    Ok(judge(text, wanted.as_slice(), 1))
}

fn replay_claim(
    alloc: Global,
    desk: &mut Desk,
    worker: u32,
    report: &[u8],
) -> Result<LineEnd, NoMemory>
    requires desk { IsSomeDesk desk.old }
    requires worker { worker < script_workers }
    requires counts { desk.old.core.steps < 2 ^ 62 }
    ensures done { (n : ℕ) (history : List DeviceEvent) → IsDesk n history desk.old →
        IfOk result (λ end. LineReplayed n history (AsksClaim worker) report.now end desk.new) }
    ensures steps { IfOk result (λ end. desk.new.core.steps ≤ desk.old.core.steps + 1) }
{
    let mut wanted = Vec::new(alloc);
    let _claimed = carry_claim(alloc, desk, worker, &mut wanted)?;
    Ok(judge(first_line(report), wanted.as_slice(), 1))
}

// Ends the job of the worker, with a fault where the report tells one.
fn end_job<E: Engine>(desk: &mut Desk, worker: u32, gives_up: bool, engine: &mut E) -> FinishEnd
    requires desk { IsSomeDesk desk.old }
    requires worker { worker < script_workers }
    requires counts { desk.old.core.steps < 2 ^ 62 }
    ensures done { (n : ℕ) (history : List DeviceEvent) → IsDesk n history desk.old →
        EndedAs n history worker gives_up (E.fault_count engine.old) (E.fault_count engine.new) desk.new result }
    ensures steps { desk.new.core.steps ≤ desk.old.core.steps + 1 }
    ensures runs_stay { E.run_count engine.old ≤ E.run_count engine.new }
    ensures faults_stay { E.fault_count engine.old ≤ E.fault_count engine.new }
{
    if gives_up {
        desk.give_up(worker)
    } else {
        desk.finish(worker, engine)
    }
}

// Appends the line of the finish. Tells whether it ended as the report says.
fn replay_end<E: Engine>(
    alloc: Global,
    desk: &mut Desk,
    worker: u32,
    gives_up: bool,
    engine: &mut E,
    wanted: &mut Vec<u8>,
) -> Result<bool, NoMemory>
    requires desk { IsSomeDesk desk.old }
    requires worker { worker < script_workers }
    requires counts { desk.old.core.steps < 2 ^ 62 }
    ensures done { IfOk result (λ kept. FinishesAs desk.old worker gives_up wanted.old.items wanted.new.items
        (E.fault_count engine.old) (E.fault_count engine.new) desk.new kept) }
    ensures steps { IfOk result (λ kept. desk.new.core.steps ≤ desk.old.core.steps + 1) }
    ensures runs_stay { E.run_count engine.old ≤ E.run_count engine.new }
    ensures faults_stay { E.fault_count engine.old ≤ E.fault_count engine.new }
{
    match end_job(desk, worker, gives_up, engine) {
        FinishEnd::Idle => {
            put_idle(wanted)?;
            Ok(true)
        }
        FinishEnd::Ended { slot, word, fault } => {
            if fault != gives_up {
                return Ok(false);
            }
            put_finish(alloc, wanted, slot, word)?;
            Ok(true)
        }
    }
}

fn replay_finish<E: Engine>(
    alloc: Global,
    desk: &mut Desk,
    worker: u32,
    report: &[u8],
    engine: &mut E,
) -> Result<LineEnd, NoMemory>
    requires desk { IsSomeDesk desk.old }
    requires worker { worker < script_workers }
    requires counts { desk.old.core.steps < 2 ^ 62 }
    ensures done { (n : ℕ) (history : List DeviceEvent) → IsDesk n history desk.old → IfOk result (λ end. Replayed n history (AsksFinish worker) report.now
        (E.fault_count engine.old) (E.fault_count engine.new) desk.new end) }
    ensures steps { IfOk result (λ end. desk.new.core.steps ≤ desk.old.core.steps + 1) }
    ensures runs_stay { E.run_count engine.old ≤ E.run_count engine.new }
    ensures faults_stay { E.fault_count engine.old ≤ E.fault_count engine.new }
{
    let text = first_line(report);
    let mut wanted = Vec::new(alloc);
    if replay_end(alloc, desk, worker, tells_fault(text), engine, &mut wanted)? {
        Ok(judge(text, wanted.as_slice(), 1))
    } else {
        Ok(LineEnd::Fault)
    }
}

fn replay_run<E: Engine>(
    alloc: Global,
    desk: &mut Desk,
    worker: u32,
    report: &[u8],
    engine: &mut E,
) -> Result<LineEnd, NoMemory>
    requires desk { IsSomeDesk desk.old }
    requires worker { worker < script_workers }
    requires counts { desk.old.core.steps + 1 < 2 ^ 62 }
    ensures done { (n : ℕ) (history : List DeviceEvent) → IsDesk n history desk.old → IfOk result (λ end. Replayed n history (AsksRun worker) report.now
        (E.fault_count engine.old) (E.fault_count engine.new) desk.new end) }
    ensures steps { IfOk result (λ end. desk.new.core.steps ≤ desk.old.core.steps + 2) }
    ensures runs_stay { E.run_count engine.old ≤ E.run_count engine.new }
    ensures faults_stay { E.fault_count engine.old ≤ E.fault_count engine.new }
{
    let mut wanted = Vec::new(alloc);
    if !carry_claim(alloc, desk, worker, &mut wanted)? {
        return Ok(judge(first_line(report), wanted.as_slice(), 1));
    }
    let text = two_lines(report);
    if replay_end(alloc, desk, worker, tells_fault(text), engine, &mut wanted)? {
        Ok(judge(text, wanted.as_slice(), 2))
    } else {
        Ok(LineEnd::Fault)
    }
}

/// Replays what a line asks for, and compares the lines of the report that it prints.
pub(crate) fn replay_line<E: Engine>(
    alloc: Global,
    desk: &mut Desk,
    asked: Option<Line>,
    report: &[u8],
    engine: &mut E,
) -> Result<LineEnd, NoMemory>
    requires desk { IsSomeDesk desk.old }
    requires asked { IsAskedLine (length desk.old.core.slots) asked }
    requires counts { desk.old.core.steps + 1 < 2 ^ 62 }
    ensures done { (n : ℕ) (history : List DeviceEvent) → IsDesk n history desk.old → IfOk result (λ end. Replayed n history (asked_of asked) report.now
        (E.fault_count engine.old) (E.fault_count engine.new) desk.new end) }
    ensures steps { IfOk result (λ end. desk.new.core.steps ≤ desk.old.core.steps + 2) }
    ensures runs_stay { E.run_count engine.old ≤ E.run_count engine.new }
    ensures faults_stay { E.fault_count engine.old ≤ E.fault_count engine.new }
{
    match asked {
        None => Ok(LineEnd::Same {
            length: 0,
            lines: 0,
        }),
        Some(Line::Call { slot, call, bytes }) => {
            replay_call(alloc, desk, slot, &call, bytes.as_slice(), report)
        }
        Some(Line::Claim { worker }) => replay_claim(alloc, desk, worker, report),
        Some(Line::Finish { worker }) => replay_finish(alloc, desk, worker, report, engine),
        Some(Line::Run { worker }) => replay_run(alloc, desk, worker, report, engine),
    }
}
