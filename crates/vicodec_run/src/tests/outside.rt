//! What a command is given that may fail.

use crate::tests::run_between;
use std::alloc::Global;
use std::sync::Wait;
use std::thread::Threads;
use vc_base::NoMemory;
use vc_io::{MemSink, MemSource};
use vc_top::Status;

/// What is handed in to a command: how many bytes a read gives and a write takes at most, where 0 counts as 1; the number
/// of the read, of the write or of the run that fails; and the place of the engine of that run among the program's.
#[derive(Clone, Copy)]
pub(crate) struct Outside {
    pub(crate) read_step: usize,
    pub(crate) failing_read: Option<u64>,
    pub(crate) write_step: usize,
    pub(crate) failing_write: Option<u64>,
    pub(crate) failing_run: Option<u64>,
    pub(crate) engine: u32,
}

/// Nothing fails.
pub(crate) const SOUND: Outside = Outside {
    read_step: 4096,
    failing_read: None,
    write_step: 4096,
    failing_write: None,
    failing_run: None,
    engine: 0,
};

/// The list of the number, and an empty list where there is none.
fn listed(alloc: Global, number: Option<u64>) -> Result<Vec<u64>, NoMemory> {
    let mut numbers = Vec::new(alloc);
    if let Some(number) = number {
        let Ok(()) = numbers.push(number) else {
            return Err(NoMemory);
        };
    }
    Ok(numbers)
}

/// Runs a command line on an input with such an outside, by engines of which the first may fail: how it ended,
/// and what was written.
pub(crate) fn run_with<R: Threads + Wait + Sync>(
    rt: &R,
    alloc: Global,
    line: &[&str],
    input: Vec<u8>,
    outside: &Outside,
) -> Result<(Status, Vec<u8>), NoMemory> {
    let mut source = MemSource::make(
        input,
        outside.read_step.max(1),
        listed(alloc, outside.failing_read)?,
    );
    let mut sink = MemSink::make(
        alloc,
        4096,
        outside.write_step.max(1),
        listed(alloc, outside.failing_write)?,
    )?;
    let failing = outside.failing_run.map(|run| (run, outside.engine));
    let status = run_between(rt, alloc, line, &mut source, &mut sink, failing)?;
    Ok((status, sink.into_bytes()))
}
