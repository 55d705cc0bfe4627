//! The program that measures: it hands one kind of engine to the commands of the program, or to the codec alone.
//!
//!     vc_bench KIND COMMAND [WORD ..]
//!     vc_bench KIND codec-encode | codec-decode
//!
//! KIND is `plain`, `fast` or `lane`. The words behind it are those of vicodec_run; `codec-encode` and `codec-decode` do
//! without a device what `encode` and `decode` do without options.
#![tactic(auto)]

mod alone;
mod reading;
#[cfg(test)]
mod tests;

use crate::alone::run_alone;
use crate::reading::{Asked, read_asked};
use std::alloc::Global;
use std::process::ExitCode;
use std::rt::Env;
use std::sync::Wait;
use std::thread::Threads;
use vc_engines::{EngineKind, engines_of_kind};
use vc_host::{report, run_standard, words};
use vc_top::Status;

/// How many engines are handed in.
const ENGINES: u32 = 16;

/// A command of the program, on engines of one kind.
fn run_command<R: Threads + Wait + Sync + Input + Print + Alloc<A = Global>>(
    rt: &R,
    kind: EngineKind,
    words: &[String],
) -> Status {
    match engines_of_kind(rt.alloc(), kind, ENGINES) {
        Ok(mut engines) => run_standard(rt, words, &mut engines),
        Err(_) => Status::NoMemory,
    }
}

fn run<R: Threads + Wait + Sync + Env + Input + Print + Alloc<A = Global>>(rt: &R) -> Status {
    let words = match words(rt) {
        Ok(words) => words,
        Err(status) => return status,
    };
    match read_asked(&words) {
        Some(Asked::Command { kind }) => run_command(rt, kind, &words[1..]),
        Some(Asked::Alone { kind, way }) => run_alone(rt, kind, way),
        None => Status::Usage,
    }
}

fn main(rt: HostRuntime) -> ExitCode {
    let status = run(&rt);
    // Where standard error can't be written, the exit status alone tells the end.
    let _ = report(&rt, "vc_bench", status);
    ExitCode::from(status.number())
}
