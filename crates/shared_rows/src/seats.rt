//! A device of two slots and one worker, from its making to its end.

ghost use Rattle.std.specs.Prelude.{◌≡◌, IfSome};
ghost use Rattle.vc_shared.specs.Handles.{DeviceId, device_at, new_handle};
ghost use Rattle.vc_shared.specs.Workers.{new_worker};
ghost use Rattle.vc_shared.specs.Making.{AreNewHandles, AreNewWorkers};

use std::alloc::{AllocError, Global};
use std::process::Abort;
use vc_shared::{HandleSeat, JobSeat, Shared};

/// The two handles of a device of two slots.
fn both(mut handles: Vec<HandleSeat>) -> Option<(HandleSeat, HandleSeat)>
    ensures { (device : DeviceId) → AreNewHandles device 2 handles.items → IfSome result (λ two. (two.0 ≡ new_handle device 0) × (two.1 ≡ new_handle device 1)) }
{
    let second = handles.pop()?;
    let first = handles.pop()?;
    Some((first, second))
}

/// The seat of the only worker of a device.
fn only(mut jobs: Vec<JobSeat>) -> Option<JobSeat>
    ensures { (device : DeviceId) → AreNewWorkers device 1 jobs.items → IfSome result (λ seat. seat ≡ new_worker device 0) }
{
    jobs.pop()
}

/// A device of two slots and one worker, with its seats.
pub(crate) fn two_and_one(
    rt: &impl Abort,
    alloc: Global,
) -> (Shared, HandleSeat, HandleSeat, JobSeat)
    ensures first { result.1 ≡ new_handle (device_at result.0 2 1) 0 }
    ensures second { result.2 ≡ new_handle (device_at result.0 2 1) 1 }
    ensures worker { result.3 ≡ new_worker (device_at result.0 2 1) 0 }
{
    let (shared, handles, jobs) = Shared::make(alloc, 2, 1).expect(rt, "memory");
    let (first, second) = both(handles).expect(rt, "two handles");
    let seat = only(jobs).expect(rt, "a worker");
    (shared, first, second, seat)
}

/// Closes the device of two slots and one worker, and tells the count of its core.
pub(crate) fn count_at_end(
    alloc: Global,
    shared: Shared,
    first: HandleSeat,
    second: HandleSeat,
    seat: JobSeat,
) -> Result<u64, AllocError>
    requires first { (first.device ≡ device_at shared 2 1) × (first.slot ≡ 0) }
    requires second { (second.device ≡ device_at shared 2 1) × (second.slot ≡ 1) }
    requires worker { (seat.device ≡ device_at shared 2 1) × (seat.worker ≡ 0) }
{
    let seats = vec![in alloc; first, second]?;
    let workers = vec![in alloc; seat]?;
    let core = shared.close(seats, workers);
    Ok(core.count())
}
