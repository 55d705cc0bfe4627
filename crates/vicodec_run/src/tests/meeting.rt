//! Jobs of several contexts run at once, by as many workers as are asked for.

ghost use Rattle.std.specs.Prelude.{◌≡◌, vec_len};

use crate::tests::share::lines_alone;
use crate::tests::words;
use std::alloc::Global;
use std::sync::atomic::{AtomicBool, AtomicU64, Ordering};
use std::sync::{Arc, Wait};
use std::test::Fail;
use std::thread::Threads;
use vc_engine::PlainEngine;
use vc_fault::{Gate, GatedEngine};
use vc_io::{MemSink, MemSource};
use vc_top::{Status, top};

/// How often each gate looks for the others at most.
const MOST_LOOKS: u64 = 100_000_000;

/// What one of several gates shows the others, and how often it was looked at.
#[derive(Drop)]
struct Side {
    is_reached: AtomicBool,
    looks: AtomicU64,
}

/// What the gates of the first engines share: a side of each.
#[derive(Drop)]
struct Meeting {
    sides: Vec<Side>,
}

/// A meeting of so many, at which nobody has looked.
fn new_meeting(alloc: Global, count: u32) -> Result<Meeting, Fail> {
    let mut sides = Vec::new(alloc);
    for _side in 0..count {
        sides.push(Side {
            is_reached: AtomicBool::new(false),
            looks: AtomicU64::new(0),
        })?;
    }
    Ok(Meeting { sides })
}

/// The gate of the engine at this place, which is open once runs of all engines of the meeting have begun. An engine
/// behind them has no run that ends in time.
#[derive(Drop)]
struct Visitor {
    meeting: Arc<Meeting, Global>,
    place: usize,
}

impl Gate for Visitor {
    fn look(&self) -> bool {
        let Some(mine) = self.meeting.sides.get(self.place) else {
            return false;
        };
        mine.looks.fetch_add(1, Ordering::SeqCst);
        mine.is_reached.store(true, Ordering::SeqCst);
        self.meeting
            .sides
            .iter()
            .all(|side| side.is_reached.load(Ordering::SeqCst))
    }
}

/// How a command line ended whose first engines have the gates of the meeting, and what it wrote.
fn run_meeting<R: Threads + Wait + Sync>(
    rt: &R,
    alloc: Global,
    meeting: &Arc<Meeting, Global>,
    line: &[&str],
) -> Result<(Status, Vec<u8>), Fail> {
    let words = words(alloc, line)?;
    let mut source = MemSource::make(Vec::new(alloc), 1, Vec::new(alloc));
    let mut sink = MemSink::make(alloc, 4096, 4096, Vec::new(alloc))?;
    let mut engines = Vec::new(alloc);
    for place in 0..16usize {
        let meeting = Arc::try_clone(meeting)?;
        let gate = Visitor { meeting, place };
        engines.push(GatedEngine::make(gate, PlainEngine::new()))?;
    }
    let status = top(rt, alloc, &words, &mut source, &mut sink, &mut engines);
    Ok((status, sink.into_bytes()))
}

/// How many contexts and workers there are, and the numbers of the contexts.
const MEETINGS: [(&str, u32, &[&str]); 3] = [
    ("2", 2, &["0", "1"]),
    ("3", 3, &["0", "1", "2"]),
    ("4", 4, &["0", "1", "2", "3"]),
];

/// As many workers as are asked for run jobs at once: none of their runs could go on without all others.
#[test]
fn so_many_contexts_are_coded_at_once(rt: HostRuntime) -> Result<(), Fail> {
    let alloc = rt.alloc();
    for (count, sides, numbers) in MEETINGS {
        let meeting = Arc::new(alloc, new_meeting(alloc, sides)?)?;
        let line: &[&str] = &[
            "share",
            "--contexts",
            count,
            "--pictures",
            "1",
            "--width",
            "32",
            "--height",
            "16",
            "--workers",
            count,
        ];
        let (status, text) = run_meeting(&rt, alloc, &meeting, line)?;
        assert_eq!(rt; status, Status::Fine);
        for side in &meeting.sides {
            assert!(rt;
                side.looks.load(Ordering::SeqCst) < MOST_LOOKS,
                "{count} workers"
            );
        }
        let wanted = lines_alone(&rt, alloc, "1", numbers)?;
        assert_eq!(rt; text.as_slice(), wanted.as_slice());
    }
    Ok(())
}
