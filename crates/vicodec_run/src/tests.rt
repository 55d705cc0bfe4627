//! Command lines through `top`, with sources and sinks in memory.

mod audit;
mod beside;
mod copying;
mod decode;
mod decoders;
mod encode;
mod encoders;
mod faults;
mod hostile;
mod make;
mod meeting;
mod outside;
mod share;
mod turns;
mod wire;

use std::alloc::Global;
use std::sync::Wait;
use std::test::Fail;
use std::thread::Threads;
use vc_base::NoMemory;
use vc_core::Engine;
use vc_engine::PlainEngine;
use vc_engines::{ProgramEngine, program_engines};
use vc_fault::FailingEngine;
use vc_io::{MemSink, MemSource, Source};
use vc_top::{Status, top};

/// What fails: nothing, the first read, the first write, or one run of the engine, counted from 0.
#[derive(Clone, Copy, PartialEq, Eq)]
enum Failing {
    Nothing,
    Source,
    Sink,
    Engine { run: u64 },
}

/// The numbers of the calls that fail: the first, or none.
fn failing_calls(alloc: Global, fails: bool) -> Result<Vec<u64>, NoMemory> {
    let mut numbers = Vec::new(alloc);
    if fails {
        let Ok(()) = numbers.push(0) else {
            return Err(NoMemory);
        };
    }
    Ok(numbers)
}

/// The words of a command line.
fn words(alloc: Global, line: &[&str]) -> Result<Vec<String>, NoMemory> {
    let mut words = Vec::new(alloc);
    for word in line {
        let copy = String::from_str(alloc, word)?;
        let Ok(()) = words.push(copy) else {
            return Err(NoMemory);
        };
    }
    Ok(words)
}

/// An engine that fails at one run, counted from 0, and else runs as the program's engine at this place does: 0 for a lane
/// engine, 1 for a plain one, 2 for a fast one.
fn failing_engine(
    alloc: Global,
    run: u64,
    place: u32,
) -> Result<FailingEngine<ProgramEngine>, NoMemory> {
    let mut engines = program_engines(alloc, place.saturating_add(1))?;
    let Some(inner) = engines.pop() else {
        return Err(NoMemory);
    };
    let Ok(runs) = vec![in alloc; run] else {
        return Err(NoMemory);
    };
    Ok(FailingEngine::make(runs, inner))
}

/// Runs a command line from a source to a sink, with plain engines. In the place of the first there may be one that fails
/// at a run, by the number of the run and the place that says which engine it is. Tells how it ended.
fn run_between<R: Threads + Wait + Sync>(
    rt: &R,
    alloc: Global,
    line: &[&str],
    source: &mut MemSource,
    sink: &mut MemSink,
    failing: Option<(u64, u32)>,
) -> Result<Status, NoMemory> {
    let words = words(alloc, line)?;
    let mut engines: Vec<Box<dyn Engine + Send>> = Vec::new(alloc);
    for _engine in 0..16u32 {
        let Ok(engine) = Box::new(alloc, PlainEngine::new()) else {
            return Err(NoMemory);
        };
        let Ok(()) = engines.push(engine) else {
            return Err(NoMemory);
        };
    }
    if let Some((run, place)) = failing {
        let Ok(engine) = Box::new(alloc, failing_engine(alloc, run, place)?) else {
            return Err(NoMemory);
        };
        engines[0] = engine;
    }
    Ok(top(rt, alloc, &words, source, sink, &mut engines))
}

/// Runs a command line on an input: how it ended, and what it printed.
fn run<R: Threads + Wait + Sync>(
    rt: &R,
    alloc: Global,
    line: &[&str],
    input: Vec<u8>,
    fails: Failing,
) -> Result<(Status, Vec<u8>), NoMemory> {
    let mut source = MemSource::make(input, 4096, failing_calls(alloc, fails == Failing::Source)?);
    let mut sink = MemSink::make(
        alloc,
        4096,
        5,
        failing_calls(alloc, fails == Failing::Sink)?,
    )?;
    let failing = match fails {
        Failing::Engine { run } => Some((run, 1)),
        _ => None,
    };
    let status = run_between(rt, alloc, line, &mut source, &mut sink, failing)?;
    Ok((status, sink.into_bytes()))
}

/// The calls that make one copying context ready for a run, and their answers.
const READY: &str =
    "0 open copy\n0 req out 1\n0 req cap 1\n0 q out 0 7 00ff\n0 q cap 0\n0 on out\n0 on cap\n";

const READY_TEXT: &str = "0 open ok\n0 req ok 1\n0 req ok 1\n0 q ok\n0 q ok\n0 on ok\n0 on ok\n";

/// Two texts, one after the other.
fn joined(alloc: Global, first: &str, second: &str) -> Result<Vec<u8>, NoMemory> {
    let mut bytes = Vec::new(alloc);
    bytes.extend_from_slice(first.as_bytes())?;
    bytes.extend_from_slice(second.as_bytes())?;
    Ok(bytes)
}

/// Scripts after those calls, what they print, what fails, and how they end.
const AFTER_READY: [(&str, &str, Failing, Status); 3] = [
    (
        "run 0\n0 dq cap\n0 dq out\n",
        "0 claim\n0 finish copied\n0 dq ok 0 2 0 0 7 00ff\n0 dq ok 0 2 0 0 7 -\n",
        Failing::Nothing,
        Status::Fine,
    ),
    (
        "claim 0\n0 off out\n0 off cap\n0 close\nclaim 0\nfinish 0\n0 off out\n0 dq out\n0 query out 0\n0 dq cap\nfinish 0\n",
        "0 claim\n0 off blocked\n0 off blocked\n0 close blocked\n- claim busy\n0 finish copied\n0 off ok\n0 dq EINVAL\n0 query ok 0 4096 0\n0 dq ok 0 2 0 0 7 00ff\n- finish idle\n",
        Failing::Nothing,
        Status::Fine,
    ),
    (
        "run 0\n0 dq cap\n0 dq out\n",
        "0 claim\n0 finish fault\n0 dq ok 0 0 40 0 7 -\n0 dq ok 0 2 40 0 7 -\n",
        Failing::Engine { run: 0 },
        Status::EngineFault,
    ),
];

#[test]
fn scripts_of_one_slot(rt: HostRuntime) -> Result<(), Fail> {
    for (script, text, fails, status) in AFTER_READY {
        let input = joined(rt.alloc(), READY, script)?;
        let wanted = joined(rt.alloc(), READY_TEXT, text)?;
        let (ended, printed) = run(&rt, rt.alloc(), &["script"], input, fails)?;
        assert_eq!(rt; printed.as_slice(), wanted.as_slice());
        assert_eq!(rt; ended, status);
    }
    Ok(())
}

/// Scripts, what they print, and how they end.
const SCRIPTS: [(&str, &str, Status); 6] = [
    ("", "", Status::Fine),
    (
        "0 open copy\n0 open copy\n0 req out 33\n0 q out 31 1 aa\n0 q out 31 1 aa\n\
            0 q out 32 1 aa\n0 q out 0 1 aa*4097\n0 query out 31\n0 query out 32\n0 req out 0\n\
            0 on out\n1 poll\n0 gctl 1\n0 sub 5\n",
        "0 open ok\n0 open EBUSY\n0 req ok 32\n0 q ok\n0 q EINVAL\n0 q EINVAL\n0 q EINVAL\n0 query ok 31 4096 2\n0 query EINVAL\n0 req ok 0\n0 on EINVAL\n1 poll ENOTTY\n0 gctl EINVAL\n0 sub EINVAL\n",
        Status::Fine,
    ),
    (
        "0 open copy\n0 req out 1\n0 req cap 1\n0 q out 0 7 00ff\n0 q cap 0\n0 on out\n0 on cap\n\
            1 open copy\n1 req out 1\n1 req cap 1\n1 q out 0 8 a1\n1 q cap 0\n1 on out\n1 on cap\n\
            run 0\nrun 0\nrun 0\n",
        "0 open ok\n0 req ok 1\n0 req ok 1\n0 q ok\n0 q ok\n0 on ok\n0 on ok\n1 open ok\n\
            1 req ok 1\n1 req ok 1\n1 q ok\n1 q ok\n1 on ok\n1 on ok\n0 claim\n0 finish copied\n\
            1 claim\n1 finish copied\n- claim none\n",
        Status::Fine,
    ),
    (
        "1 open copy\n1 req out 1\n1 req cap 1\n1 q out 0 8 a1\n1 q cap 0\n1 on out\n1 on cap\n0 open copy\n0 req out 1\n0 req cap 1\n0 q out 0 7 00ff\n0 q cap 0\n0 on out\n0 on cap\nrun 0\nrun 0\n",
        "1 open ok\n1 req ok 1\n1 req ok 1\n1 q ok\n1 q ok\n1 on ok\n1 on ok\n0 open ok\n\
            0 req ok 1\n0 req ok 1\n0 q ok\n0 q ok\n0 on ok\n0 on ok\n1 claim\n1 finish copied\n\
            0 claim\n0 finish copied\n",
        Status::Fine,
    ),
    (
        "0 open copy\n0 frob\n",
        "0 open ok\n",
        Status::BadLine { line: 2 },
    ),
    ("16 open copy\n", "", Status::BadLine { line: 1 }),
];

#[test]
fn whole_scripts(rt: HostRuntime) -> Result<(), Fail> {
    for (script, text, status) in SCRIPTS {
        let mut input = Vec::new(rt.alloc());
        input.extend_from_slice(script.as_bytes())?;
        let (ended, printed) = run(&rt, rt.alloc(), &["script"], input, Failing::Nothing)?;
        assert_eq!(rt; printed.as_slice(), text.as_bytes());
        assert_eq!(rt; ended, status);
    }
    Ok(())
}

#[test]
fn command_lines_and_faults(rt: HostRuntime) -> Result<(), Fail> {
    let lines: [&[&str]; 4] = [
        &["play"],
        &["script", "--slots", "0"],
        &["script", "--slots=4"],
        &[],
    ];
    for line in lines {
        let (ended, _) = run(
            &rt,
            rt.alloc(),
            line,
            Vec::new(rt.alloc()),
            Failing::Nothing,
        )?;
        assert_eq!(rt; ended, Status::Usage);
    }
    let causes = [
        (Failing::Source, Status::ReadFault),
        (Failing::Sink, Status::WriteFault),
    ];
    for (fails, status) in causes {
        let mut input = Vec::new(rt.alloc());
        input.extend_from_slice(READY.as_bytes())?;
        let (ended, printed) = run(
            &rt,
            rt.alloc(),
            &["script", "--slots", "1024"],
            input,
            fails,
        )?;
        assert_eq!(rt; ended, status);
        assert!(rt; printed.is_empty());
    }
    let long = vec![in rt.alloc(); b'#'; 1_048_577]?;
    let (ended, printed) = run(&rt, rt.alloc(), &["script"], long, Failing::Nothing)?;
    assert_eq!(rt; ended, Status::TooLong);
    assert!(rt; printed.is_empty());
    Ok(())
}

/// Of a script that is too long one byte more is read than a script may have, and nothing behind that.
#[test]
fn a_long_script_is_read_no_further(rt: HostRuntime) -> Result<(), Fail> {
    let long = vec![in rt.alloc(); b'#'; 1_048_600]?;
    let mut source = MemSource::make(long, 4096, Vec::new(rt.alloc()));
    let mut sink = MemSink::make(rt.alloc(), 4096, 5, Vec::new(rt.alloc()))?;
    let ended = run_between(&rt, rt.alloc(), &["script"], &mut source, &mut sink, None)?;
    assert_eq!(rt; ended, Status::TooLong);
    let mut rest = [0u8; 64];
    let Ok(count) = source.read(&mut rest) else {
        return Err(Fail::new("the source failed"));
    };
    assert_eq!(rt; count, 23);
    Ok(())
}
