//! The program: a stateful video codec device, driven by a script on standard input, or by the commands for video files.
#![tactic(auto)]

#[cfg(test)]
mod tests;

use std::alloc::Global;
use std::process::ExitCode;
use std::rt::Env;
use std::sync::Wait;
use std::thread::Threads;
use vc_engines::program_engines;
use vc_host::{report, run_standard, words};
use vc_top::Status;

/// How many engines are handed in.
const ENGINES: u32 = 16;

fn run<R: Threads + Wait + Sync + Env + Input + Print + Alloc<A = Global>>(rt: &R) -> Status {
    let words = match words(rt) {
        Ok(words) => words,
        Err(status) => return status,
    };
    match program_engines(rt.alloc(), ENGINES) {
        Ok(mut engines) => run_standard(rt, &words, &mut engines),
        Err(_) => Status::NoMemory,
    }
}

fn main(rt: HostRuntime) -> ExitCode {
    let status = run(&rt);
    // Where standard error can't be written, the exit status alone tells the end.
    let _ = report(&rt, "vicodec_run", status);
    ExitCode::from(status.number())
}
