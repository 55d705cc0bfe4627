//! Jobs run beside the caller.

ghost use Rattle.std.specs.Prelude.{◌≡◌, ◌<◌, vec_len};

use crate::tests::decode::{KEY, NEXT, stream};
use crate::tests::{Failing, run, words};
use std::alloc::Global;
use std::sync::atomic::{AtomicBool, AtomicU64, Ordering};
use std::sync::{Arc, Wait};
use std::test::Fail;
use std::thread;
use std::thread::Threads;
use vc_core::Engine;
use vc_engine::PlainEngine;
use vc_fault::{Gate, GatedEngine};
use vc_io::{MemSink, MemSource, ReadFailed, Source};
use vc_top::{Status, top};

/// How often each side looks for the other one at most.
const MOST_LOOKS: u64 = 100_000_000;

/// What the source and the gate share: whether the read that waits has come, how often it looked for the gate, and how
/// often the gate was looked at.
#[derive(Drop)]
struct Door {
    has_come: AtomicBool,
    reader_looks: AtomicU64,
    gate_looks: AtomicU64,
}

/// The gate of the engine, which is open once that read has come.
#[derive(Drop)]
struct Watch {
    door: Arc<Door, Global>,
}

impl Gate for Watch {
    fn look(&self) -> bool {
        self.door.gate_looks.fetch_add(1, Ordering::SeqCst);
        self.door.has_come.load(Ordering::SeqCst)
    }
}

/// A source of which one read, counted from 0, waits until a run has begun.
#[derive(Drop)]
struct WatchedSource {
    bytes: MemSource,
    reads: u64,
    waits_at: u64,
    door: Arc<Door, Global>,
}

impl WatchedSource {
    /// Opens the gate, and waits until it was looked at.
    fn wait_for_run(&self) {
        self.door.has_come.store(true, Ordering::SeqCst);
        for _look in 0..MOST_LOOKS {
            if self.door.gate_looks.load(Ordering::SeqCst) > 0 {
                return;
            }
            self.door.reader_looks.fetch_add(1, Ordering::SeqCst);
            thread::yield_now();
        }
    }
}

impl Source for WatchedSource {
    ghost left = { λ s. ⟦<MemSource as Source>⟧.left s.bytes };

    ghost faults = { λ s. ⟦<MemSource as Source>⟧.faults s.bytes };

    fn read(&mut self, buf: &mut [u8]) -> Result<usize, ReadFailed> {
        if self.reads == self.waits_at {
            self.wait_for_run();
        }
        self.reads = self.reads.saturating_add(1);
        self.bytes.read(buf)
    }
}

/// The door, before anybody looked.
fn shut_door() -> Door {
    Door {
        has_come: AtomicBool::new(false),
        reader_looks: AtomicU64::new(0),
        gate_looks: AtomicU64::new(0),
    }
}

/// How a command ended whose first engine has the gate, and what it wrote. Each read of its input gives so many bytes at
/// most, and the read with the number waits until a run has begun.
fn run_watched<R: Threads + Wait + Sync>(
    rt: &R,
    alloc: Global,
    door: &Arc<Door, Global>,
    line: &[&str],
    input: Vec<u8>,
    step: usize,
    waits_at: u64,
) -> Result<(Status, Vec<u8>), Fail>
    requires { 0 < step }
{
    let words = words(alloc, line)?;
    let mut source = WatchedSource {
        bytes: MemSource::make(input, step, Vec::new(alloc)),
        reads: 0,
        waits_at,
        door: Arc::try_clone(door)?,
    };
    let mut sink = MemSink::make(alloc, 4096, 4096, Vec::new(alloc))?;
    let watch = Watch {
        door: Arc::try_clone(door)?,
    };
    let mut engines: Vec<Box<dyn Engine + Send>> = Vec::new(alloc);
    engines.push(Box::new(alloc, GatedEngine::make(watch, PlainEngine::new()))?)?;
    for _engine in 1..16u32 {
        engines.push(Box::new(alloc, PlainEngine::new())?)?;
    }
    let status = top(rt, alloc, &words, &mut source, &mut sink, &mut engines);
    Ok((status, sink.into_bytes()))
}

/// A worker's run begins while the caller reads on: neither side could go on without the other.
#[test]
fn pictures_are_encoded_beside_the_caller(rt: HostRuntime) -> Result<(), Fail> {
    let line: &[&str] = &[
        "encode",
        "--format",
        "GREY",
        "--width",
        "16",
        "--height",
        "16",
        "--workers",
        "1",
    ];
    let alloc = rt.alloc();
    let door = Arc::new(alloc, shut_door())?;
    let input = vec![in alloc; 128; 768]?;
    let (status, written) = run_watched(&rt, alloc, &door, line, input, 256, 2)?;
    assert_eq!(rt; status, Status::Fine);
    assert!(rt; door.gate_looks.load(Ordering::SeqCst) < MOST_LOOKS);
    assert!(rt; door.reader_looks.load(Ordering::SeqCst) < MOST_LOOKS);
    let again = vec![in alloc; 128; 768]?;
    let (_, wanted) = run(&rt, alloc, line, again, Failing::Nothing)?;
    assert_eq!(rt; written.as_slice(), wanted.as_slice());
    Ok(())
}

/// The same of a decoder: a run begins while the caller reads the second frame.
#[test]
fn streams_are_decoded_beside_the_caller(rt: HostRuntime) -> Result<(), Fail> {
    let alloc = rt.alloc();
    let door = Arc::new(alloc, shut_door())?;
    let input = stream(alloc, &[(KEY, 48), (NEXT, 48)])?;
    let line: &[&str] = &["decode", "--workers", "1"];
    let (status, written) = run_watched(&rt, alloc, &door, line, input, 48, 1)?;
    assert_eq!(rt; status, Status::Fine);
    assert!(rt; door.gate_looks.load(Ordering::SeqCst) < MOST_LOOKS);
    assert!(rt; door.reader_looks.load(Ordering::SeqCst) < MOST_LOOKS);
    let pictures = vec![in alloc; 128; 512]?;
    assert_eq!(rt; written.as_slice(), pictures.as_slice());
    Ok(())
}
