//! A device of one slot and one worker.

ghost use Rattle.std.specs.Prelude.{◌≡◌, IfSome};
ghost use Rattle.vc_shared.specs.Handles.{DeviceId, device_at, new_handle};
ghost use Rattle.vc_shared.specs.Workers.{new_worker};
ghost use Rattle.vc_shared.specs.Making.{AreNewHandles, AreNewWorkers};

use std::alloc::Global;
use std::process::Abort;
use vc_shared::{HandleSeat, JobSeat, Shared};

/// The only handle of a device.
fn only_handle(mut handles: Vec<HandleSeat>) -> Option<HandleSeat>
    ensures { (device : DeviceId) → AreNewHandles device 1 handles.items → IfSome result (λ seat. seat ≡ new_handle device 0) }
{
    handles.pop()
}

/// The seat of the only worker of a device.
fn only_worker(mut jobs: Vec<JobSeat>) -> Option<JobSeat>
    ensures { (device : DeviceId) → AreNewWorkers device 1 jobs.items → IfSome result (λ seat. seat ≡ new_worker device 0) }
{
    jobs.pop()
}

/// A device of one slot and one worker, with its seats.
pub(crate) fn one_and_one(rt: &impl Abort, alloc: Global) -> (Shared, HandleSeat, JobSeat)
    ensures handle { result.1 ≡ new_handle (device_at result.0 1 1) 0 }
    ensures worker { result.2 ≡ new_worker (device_at result.0 1 1) 0 }
{
    let (shared, handles, jobs) = Shared::make(alloc, 1, 1).expect(rt, "memory");
    let handle = only_handle(handles).expect(rt, "a handle");
    let worker = only_worker(jobs).expect(rt, "a worker");
    (shared, handle, worker)
}
