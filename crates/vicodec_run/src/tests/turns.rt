//! Jobs of one context are run by as many workers as are asked for, in turn.

ghost use Rattle.std.specs.Prelude.{◌≡◌, None, vec_len};

use crate::tests::decode::KEY;
use crate::tests::words;
use std::alloc::Global;
use std::sync::atomic::{AtomicBool, Ordering};
use std::sync::{Arc, Wait};
use std::test::Fail;
use std::thread;
use std::thread::Threads;
use vc_engine::PlainEngine;
use vc_fault::{Gate, GatedEngine};
use vc_io::{MemSink, ReadFailed, Source};
use vc_top::{Status, top};

/// How many pictures or frames the source gives at most.
const MOST_UNITS: u64 = 20_000;

/// How often the source lets other threads run before it gives one.
const YIELDS: u32 = 200;

/// What the source and the gates share: which of the first engines have run.
#[derive(Drop)]
struct Rota {
    first: AtomicBool,
    second: AtomicBool,
    third: AtomicBool,
}

impl Rota {
    /// The mark of the engine at a place, where it has one.
    fn mark(&self, place: usize) -> Option<&AtomicBool> {
        match place {
            0 => Some(&self.first),
            1 => Some(&self.second),
            2 => Some(&self.third),
            _ => None,
        }
    }

    /// Whether all three have run.
    fn is_through(&self) -> bool {
        let first = self.first.load(Ordering::SeqCst);
        let second = self.second.load(Ordering::SeqCst);
        let third = self.third.load(Ordering::SeqCst);
        first && second && third
    }
}

/// The rota, before any run.
fn new_rota() -> Rota {
    Rota {
        first: AtomicBool::new(false),
        second: AtomicBool::new(false),
        third: AtomicBool::new(false),
    }
}

/// The gate of the engine at a place, which marks it. It is open.
#[derive(Drop)]
struct Marker {
    rota: Arc<Rota, Global>,
    place: usize,
}

impl Gate for Marker {
    fn look(&self) -> bool {
        if let Some(mark) = self.rota.mark(self.place) {
            mark.store(true, Ordering::SeqCst);
        }
        true
    }
}

/// A source that gives the same unit again and again, until all three engines have run or it gave the most units.
#[derive(Drop)]
struct PatientSource {
    unit: &'static [u8],
    given: u64,
    rota: Arc<Rota, Global>,
}

/// Lets other threads run.
fn stand_back() {
    for _yield in 0..YIELDS {
        thread::yield_now();
    }
}

impl Source for PatientSource {
    ghost left = { λ _. None };

    ghost faults = { λ _. 0 };

    fn read(&mut self, buf: &mut [u8]) -> Result<usize, ReadFailed> {
        let length = self.unit.len();
        if length > buf.len() || self.given >= MOST_UNITS || self.rota.is_through() {
            return Ok(0);
        }
        stand_back();
        self.given = self.given.saturating_add(1);
        buf[..length].copy_from_slice(self.unit);
        Ok(length)
    }
}

/// How a command line ended whose first three engines are marked, and how many bytes it wrote.
fn run_marked<R: Threads + Wait + Sync>(
    rt: &R,
    alloc: Global,
    line: &[&str],
    source: &mut PatientSource,
) -> Result<(Status, usize), Fail> {
    let words = words(alloc, line)?;
    let mut sink = MemSink::make(alloc, 6_000_000, 65_536, Vec::new(alloc))?;
    let mut engines = Vec::new(alloc);
    for place in 0..16usize {
        let rota = Arc::try_clone(&source.rota)?;
        let marker = Marker { rota, place };
        engines.push(GatedEngine::make(marker, PlainEngine::new()))?;
    }
    let status = top(rt, alloc, &words, source, &mut sink, &mut engines);
    Ok((status, sink.into_bytes().len()))
}

const ENCODE: &[&str] = &[
    "encode",
    "--format",
    "GREY",
    "--width",
    "16",
    "--height",
    "16",
    "--workers",
    "3",
];

const DECODE: &[&str] = &["decode", "--workers", "3"];

/// A picture of 16 by 16 samples of 128.
const PICTURE: &[u8] = &[128; 256];

/// Lines, the picture or the frame that they get again and again, and how many bytes each of them becomes.
const TURNS: [(&[&str], &[u8], u64); 2] = [(ENCODE, PICTURE, 48), (DECODE, KEY, 256)];

/// Each of three workers runs a job before the source has given the most units. Where one ran them all it would give them.
#[test]
fn three_workers_take_turns_at_one_context(rt: HostRuntime) -> Result<(), Fail> {
    let alloc = rt.alloc();
    for (line, unit, bytes) in TURNS {
        let rota = Arc::new(alloc, new_rota())?;
        let mut source = PatientSource {
            unit,
            given: 0,
            rota,
        };
        let (status, written) = run_marked(&rt, alloc, line, &mut source)?;
        assert_eq!(rt; status, Status::Fine);
        assert!(rt; source.rota.is_through());
        assert_eq!(rt; written as u64, source.given.saturating_mul(bytes));
    }
    Ok(())
}
