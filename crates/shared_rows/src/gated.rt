//! A job of one slot runs while the other slot is called.

ghost use Rattle.std.specs.Prelude.{◌≡◌, None};
ghost use Rattle.std.specs.Thread.{IsSync};
ghost use Rattle.vc_shared.specs.Workers.{slot_had};
ghost use Rattle.vc_shared.specs.Following.{HandleFollows, WorkerFollows};

use crate::calls::{TAKEN, begin, begins_with};
use crate::seats::{count_at_end, two_and_one};
use std::sync::Wait;
use std::sync::atomic::{AtomicBool, AtomicU64, Ordering};
use std::test::Fail;
use std::thread;
use std::thread::{Threads, join};
use vc_base::Side;
use vc_core::Engine;
use vc_engine::PlainEngine;
use vc_fault::{Gate, GatedEngine};
use vc_shared::{Handle, HandleSeat, JobSeat, Shared, WorkerSeat};
use vc_wait::dq_wait;
use vc_worker::{Served, serve};

/// What the gate and the other thread share: how often the gate was looked at, and whether it is open.
#[derive(Drop)]
struct Door {
    looks: AtomicU64,
    is_open: AtomicBool,
}

#[derive(Drop)]
struct Watch<'a> {
    door: &'a Door,
}

impl<'a> Gate for Watch<'a> {
    fn look(&self) -> bool {
        self.door.looks.fetch_add(1, Ordering::SeqCst);
        self.door.is_open.load(Ordering::SeqCst)
    }
}

/// Serves the device as its worker until it is shut, and tells how often its engine ran.
fn work<R: Wait + Sync>(rt: &R, shared: &Shared, seat: JobSeat, door: &Door) -> (JobSeat, u64)
    requires own { seat.device.lock ≡ shared.now }
    requires idle { slot_had seat ≡ None }
    ensures { WorkerFollows seat result.0 }
{
    let station = WorkerSeat::new(rt, shared, seat);
    let engine = GatedEngine::make(Watch { door }, PlainEngine::new());
    let Served { station, engine } = serve(rt, station, engine);
    let runs = engine.runs();
    (station.into_seat(), runs)
}

/// Waits until a run has looked at the gate.
fn has_begun(door: &Door) -> bool {
    for _ in 0..10_000_000u32 {
        if door.looks.load(Ordering::SeqCst) > 0 {
            return true;
        }
        thread::yield_now();
    }
    false
}

/// Waits for the buffers of the slot, and says whether these bytes came out on CAPTURE.
fn wait_for_both<R: Wait + Sync>(
    rt: &R,
    shared: &Shared,
    seat: HandleSeat,
    bytes: [u8; 2],
) -> (HandleSeat, bool)
    requires { seat.device.lock ≡ shared.now }
    ensures { HandleFollows seat result.0 }
{
    let mut handle = Handle::new(rt, shared, seat);
    let came = dq_wait(rt, &mut handle, Side::Cap) == TAKEN;
    let back = dq_wait(rt, &mut handle, Side::Out) == TAKEN;
    let right = begins_with(&handle, bytes);
    (handle.into_seat(), came && back && right)
}

/// Shuts the device through the handle of a slot.
fn shut<R: Wait + Sync>(rt: &R, shared: &Shared, seat: HandleSeat) -> HandleSeat
    requires { seat.device.lock ≡ shared.now }
    ensures { HandleFollows seat result }
{
    let mut handle = Handle::new(rt, shared, seat);
    handle.shut();
    handle.into_seat()
}

/// The seats of both slots behind the calls beside a run, and whether all replies were right.
#[derive(Drop)]
struct Called {
    first: HandleSeat,
    second: HandleSeat,
    right: bool,
}

/// While a job of the first slot runs, queues the buffers of the second one, and then opens the gate. Takes all
/// buffers back, and shuts the device.
fn call_beside<R: Wait + Sync>(
    rt: &R,
    shared: &Shared,
    first: HandleSeat,
    second: HandleSeat,
    door: &Door,
) -> Called
    requires first { first.device.lock ≡ shared.now }
    requires second { second.device.lock ≡ shared.now }
    ensures first { HandleFollows first result.first }
    ensures second { HandleFollows second result.second }
{
    let begun = has_begun(door);
    let (second, queued) = begin(rt, shared, second, [9, 8]);
    door.is_open.store(true, Ordering::SeqCst);
    let (first, came) = wait_for_both(rt, shared, first, [0, 255]);
    let (second, too) = wait_for_both(rt, shared, second, [9, 8]);
    Called {
        first: shut(rt, shared, first),
        second,
        right: begun && queued && came && too,
    }
}

/// The worker in one thread, the calls in another.
fn work_and_call<R: Wait + Threads + Sync>(
    rt: &R,
    shared: &Shared,
    seat: JobSeat,
    first: HandleSeat,
    second: HandleSeat,
    door: &Door,
) -> ((JobSeat, u64), Called)
    requires own { (seat.device.lock ≡ shared.now) × (slot_had seat ≡ None) }
    requires first { first.device.lock ≡ shared.now }
    requires second { second.device.lock ≡ shared.now }
    ensures worker { WorkerFollows seat result.0.0 }
    ensures first { HandleFollows first result.1.first }
    ensures second { HandleFollows second result.1.second }
{
    join(
        rt,
        || -> (JobSeat, u64)
            requires { IsSync R.row × (seat.device.lock ≡ shared.now) × (slot_had seat ≡ None) }
            ensures { WorkerFollows seat result.0 }
        { work(rt, shared, seat, door) },
        || -> Called
            requires { IsSync R.row × (first.device.lock ≡ shared.now) × (second.device.lock ≡ shared.now) }
            ensures { HandleFollows first result.first × HandleFollows second result.second }
        { call_beside(rt, shared, first, second, door) },
    )
}

// A device that is locked while a job runs answers no call then. So the run ends at its limit of looks.
#[test]
fn a_job_runs_while_another_slot_is_called(rt: HostRuntime) -> Result<(), Fail> {
    let (shared, first, second, seat) = two_and_one(&rt, rt.alloc());
    let (first, queued) = begin(&rt, &shared, first, [0, 255]);
    assert!(rt; queued);
    let door = Door {
        looks: AtomicU64::new(0),
        is_open: AtomicBool::new(false),
    };
    let ((seat, runs), called) = work_and_call(&rt, &shared, seat, first, second, &door);
    assert!(rt; called.right);
    assert_eq!(rt; runs, 2);
    assert!(rt; door.looks.load(Ordering::SeqCst) < 100_000_000);
    let Called { first, second, .. } = called;
    let count = count_at_end(rt.alloc(), shared, first, second, seat)?;
    assert_eq!(rt; count, 23);
    Ok(())
}
