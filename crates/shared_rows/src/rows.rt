//! Two threads make the calls of two slots, one worker runs their jobs, and the device is closed.

ghost use Rattle.std.specs.Prelude.{◌≡◌, None};
ghost use Rattle.std.specs.Thread.{IsSync};
ghost use Rattle.vc_shared.specs.Workers.{slot_had};
ghost use Rattle.vc_shared.specs.Following.{HandleFollows, WorkerFollows};

use crate::calls::{TAKEN, begin, begins_with, replies};
use crate::seats::{count_at_end, two_and_one};
use std::sync::Wait;
use std::test::Fail;
use std::thread::{Threads, join};
use vc_base::{Call, Reply, Side};
use vc_core::Engine;
use vc_engine::PlainEngine;
use vc_port::Claimed;
use vc_shared::{Handle, HandleSeat, Shared, WorkerSeat};

const TAKES: [(Call, Reply); 2] = [
    (
        Call::DqBuf {
            side: Side::Cap,
            block: false,
        },
        TAKEN,
    ),
    (
        Call::DqBuf {
            side: Side::Out,
            block: false,
        },
        TAKEN,
    ),
];

/// Takes the buffers of the slot back, and says whether these bytes came out on CAPTURE.
fn end<R: Wait + Sync>(
    rt: &R,
    shared: &Shared,
    seat: HandleSeat,
    bytes: [u8; 2],
) -> (HandleSeat, bool)
    requires { seat.device.lock ≡ shared.now }
    ensures { HandleFollows seat result.0 }
{
    let mut handle = Handle::new(rt, shared, seat);
    let taken = replies(&mut handle, &TAKES);
    let right = begins_with(&handle, bytes);
    (handle.into_seat(), taken && right)
}

/// Claims the next job, runs it and finishes it, and says how it ended.
fn run_next<'a, R: Wait + Sync, E: Engine>(
    worker: &mut WorkerSeat<'a, R>,
    engine: &mut E,
) -> &'static str
    requires { slot_had worker.old ≡ None }
    ensures same { WorkerFollows worker.old worker.new }
    ensures free { slot_had worker.new ≡ None }
{
    match worker.claim() {
        Claimed::Job(job) => {
            let finished = job.run(engine);
            let word = finished.word();
            worker.finish(finished);
            word
        }
        Claimed::Empty => "empty",
        Claimed::Over => "over",
    }
}

/// Both threads begin at once.
fn begin_both<R: Wait + Threads + Sync>(
    rt: &R,
    shared: &Shared,
    first: HandleSeat,
    second: HandleSeat,
) -> ((HandleSeat, bool), (HandleSeat, bool))
    requires first { first.device.lock ≡ shared.now }
    requires second { second.device.lock ≡ shared.now }
    ensures first { HandleFollows first result.0.0 }
    ensures second { HandleFollows second result.1.0 }
{
    join(
        rt,
        || -> (HandleSeat, bool)
            requires { IsSync R.row × (first.device.lock ≡ shared.now) }
            ensures { HandleFollows first result.0 }
        { begin(rt, shared, first, [0, 255]) },
        || -> (HandleSeat, bool)
            requires { IsSync R.row × (second.device.lock ≡ shared.now) }
            ensures { HandleFollows second result.0 }
        { begin(rt, shared, second, [9, 8]) },
    )
}

#[test]
fn two_threads_and_a_worker_make_one_history(rt: HostRuntime) -> Result<(), Fail> {
    let (shared, first, second, seat) = two_and_one(&rt, rt.alloc());
    let ((first, right), (second, too)) = begin_both(&rt, &shared, first, second);
    assert!(rt; right && too);
    let mut engine = PlainEngine::new();
    let mut worker = WorkerSeat::new(&rt, &shared, seat);
    assert_eq!(rt; run_next(&mut worker, &mut engine), "copied");
    assert_eq!(rt; run_next(&mut worker, &mut engine), "copied");
    let (first, right) = end(&rt, &shared, first, [0, 255]);
    let (second, too) = end(&rt, &shared, second, [9, 8]);
    assert!(rt; right && too);
    assert_eq!(rt; run_next(&mut worker, &mut engine), "empty");
    let mut handle = Handle::new(&rt, &shared, first);
    handle.shut();
    assert_eq!(rt; run_next(&mut worker, &mut engine), "over");
    let first = handle.into_seat();
    let seat = worker.into_seat();
    let count = count_at_end(rt.alloc(), shared, first, second, seat)?;
    assert_eq!(rt; count, 23);
    Ok(())
}
