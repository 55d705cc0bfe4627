//! Replays a script line by line against a report.

ghost use Rattle.std.specs.Prelude.{◌≡◌, ◌<◌, ◌≤◌, ◌+◌, ◌^◌, List, [], length, None, IfOk, OnOk, IfErr};
ghost use Rattle.std.specs.Str.Lines.{lines};
ghost use Rattle.vc_base.specs.Limits.{longest_script, most_slots};
ghost use Rattle.vc_desk.specs.Desks.{IsDesk};
ghost use Rattle.vc_audit.specs.Verdicts.{Judged, Unjudged, BadFrom, LineRead, LineUnread, first_bad, first_bad_line, verdict_at_end};

use crate::pieces::{LineEnd, rest_of};
use crate::replay::replay_line;
use crate::verdict::{AuditFault, Verdict};
use std::alloc::Global;
use vc_core::Engine;
use vc_desk::Desk;
use vc_script::{Line, LineFault, next_line, read_line};

// Reads the line with this number, counted from 1.
fn read(alloc: Global, slots: u32, line: &[u8], number: u64) -> Result<Option<Line>, AuditFault>
    ensures read { IfOk result (LineRead slots line.now) }
    ensures unread { IfErr result (LineUnread slots line.now number) }
{
    match read_line(alloc, line, slots) {
        Ok(asked) => Ok(asked),
        Err(LineFault::Bad) => Err(AuditFault::BadLine { line: number }),
        Err(LineFault::NoMemory) => Err(AuditFault::NoMemory),
    }
}

// Looks for a bad line in the rest of a script, before which so many lines stand.
fn read_rest(alloc: Global, slots: u32, script: &[u8], before: u64) -> Result<(), AuditFault>
    requires short { length script.now + before ≤ longest_script }
    ensures good { IfOk result (λ unit. first_bad slots (lines script.now) (before + 1) ≡ None) }
    ensures bad { IfErr result (BadFrom slots (lines script.now) (before + 1)) }
{
    let mut rest = script;
    let mut number = before;
    'reading: while !rest.is_empty() {
        let (line, after) = next_line(rest);
        number += 1;
        let _asked = read(alloc, slots, line, number)?;
        rest = after;
    }
    Ok(())
}

// How many lines a script has.
fn count_lines(script: &[u8]) -> u64
    requires short { length script.now ≤ longest_script }
    ensures count { result ≡ length (lines script.now) }
    ensures few { result ≤ length script.now }
{
    let mut rest = script;
    let mut count = 0;
    'counting: while !rest.is_empty() {
        let (_line, after) = next_line(rest);
        count += 1;
        rest = after;
    }
    count
}

/// Checks that each line of a script of at most 1,048,576 bytes is in the grammar, for a device of so many slots, and counts the
/// lines.
///
/// # Errors
/// `BadLine` with the first line that isn't, counted from 1; `NoMemory` where a growth of memory was refused.
pub fn check_lines(alloc: Global, slots: u32, script: &[u8]) -> Result<u64, AuditFault>
    requires short { length script.now ≤ longest_script }
    ensures good { OnOk result (first_bad_line slots script.now ≡ None) }
    ensures count { IfOk result (λ count. count ≡ length (lines script.now)) }
    ensures few { IfOk result (λ count. count ≤ longest_script) }
    ensures bad { IfErr result (BadFrom slots (lines script.now) 1) }
{
    read_rest(alloc, slots, script, 0)?;
    Ok(count_lines(script))
}

// The verdict where each line was as the report says, and this is the number of the next line of the report.
fn verdict_at_end(left: &[u8], at: u64) -> Verdict
    ensures { result ≡ verdict_at_end left.now at }
{
    if left.is_empty() {
        Verdict::Yes
    } else {
        Verdict::No { line: at }
    }
}

// Replays the lines of a script on a new device.
fn replay_lines<E: Engine>(
    alloc: Global,
    slots: u32,
    script: &[u8],
    report: &[u8],
    desk: &mut Desk,
    engine: &mut E,
) -> Result<Verdict, AuditFault>
    requires slots { slots ≤ most_slots }
    requires desk { IsDesk slots [] desk.old }
    requires steps { desk.old.core.steps ≡ 0 }
    requires short { length script.now ≤ longest_script }
    ensures judged { IfOk result (Judged slots script.now report.now) }
    ensures unjudged { IfErr result (Unjudged slots script.now (E.fault_count engine.old) (E.fault_count engine.new)) }
    ensures runs_stay { E.run_count engine.old ≤ E.run_count engine.new }
    ensures faults_stay { E.fault_count engine.old ≤ E.fault_count engine.new }
{
    let mut rest = script;
    let mut left = report;
    let mut number = 0;
    let mut at = 1;
    'replaying: while !rest.is_empty() {
        let (line, after) = next_line(rest);
        number += 1;
        let asked = read(alloc, slots, line, number)?;
        match replay_line(alloc, desk, asked, left, engine) {
            Ok(LineEnd::Same { length, lines }) => {
                left = rest_of(left, length);
                at += lines;
            }
            Ok(LineEnd::Wrong { lines }) => {
                read_rest(alloc, slots, after, number)?;
                return Ok(Verdict::No { line: at + lines });
            }
            Ok(LineEnd::Fault) => {
                read_rest(alloc, slots, after, number)?;
                return Err(AuditFault::EngineFault);
            }
            Err(_) => return Err(AuditFault::NoMemory),
        }
        rest = after;
    }
    Ok(verdict_at_end(left, at))
}

/// Audits a report: whether it is what a device of so many slots may print for a script of at most 1,048,576 bytes, which is
/// replayed on a device of its own. The engine runs the jobs but those that the report ends with a fault, and memory lacks
/// where the report says so. A bad line of the script goes before every other answer.
///
/// # Errors
/// `BadLine` where a line of the script isn't in the grammar; `EngineFault` where the engine gave up in a job of which the report
/// tells no fault; `NoMemory` where a growth of memory was refused.
pub fn audit<E: Engine>(
    alloc: Global,
    slots: u32,
    script: &[u8],
    report: &[u8],
    engine: &mut E,
) -> Result<Verdict, AuditFault>
    requires slots { (0 < slots) × (slots ≤ most_slots) }
    requires short { length script.now ≤ longest_script }
    ensures judged { IfOk result (Judged slots script.now report.now) }
    ensures unjudged { IfErr result (Unjudged slots script.now (E.fault_count engine.old) (E.fault_count engine.new)) }
    ensures runs_stay { E.run_count engine.old ≤ E.run_count engine.new }
    ensures faults_stay { E.fault_count engine.old ≤ E.fault_count engine.new }
{
    match Desk::make(alloc, slots) {
        Ok(mut desk) => replay_lines(alloc, slots, script, report, &mut desk, engine),
        Err(_) => Err(AuditFault::NoMemory),
    }
}
