//! Where flows and workers meet: the device, and what their threads tell each other.

ghost use Rattle.std.specs.Prelude.{◌≡◌, ◌≤◌, ◌<◌, ℕ, IfOk, vec_len};
ghost use Rattle.vc_shared.specs.Making.{AreNewHandles, AreNewWorkers};
ghost use Rattle.vc_shared.specs.Closing.{AreHandlesOf, AreWorkersOf, IsClosed};
ghost use Rattle.vc_crew.specs.Sites.{device_of};

use std::alloc::Global;
use std::sync::atomic::{AtomicBool, AtomicU32};
use vc_base::NoMemory;
use vc_core::Core;
use vc_shared::{HandleSeat, JobSeat, Shared};

/// A device, and what the threads that use it tell each other.
#[derive(Drop)]
pub(crate) struct Site {
    pub(crate) shared: Shared,
    /// How many slots the device has.
    pub(crate) slots: u32,
    /// How many workers it has.
    pub(crate) workers: u32,
    /// How many flows have not ended yet.
    pub(crate) left: AtomicU32,
    /// For each slot, whether the start of a thread for its flow was refused.
    pub(crate) refused_flows: Vec<AtomicBool>,
    /// For each worker, whether the start of its thread was refused.
    pub(crate) refused_workers: Vec<AtomicBool>,
}

/// A site as it is made, with the seats of the slots and of the workers.
#[derive(Drop)]
pub(crate) struct Opened {
    pub(crate) site: Site,
    pub(crate) handles: Vec<HandleSeat>,
    pub(crate) jobs: Vec<JobSeat>,
}

/// So many flags.
fn make_flags(alloc: Global, number: u32) -> Result<Vec<AtomicBool>, NoMemory>
    ensures { IfOk result (λ flags. vec_len flags ≡ number) }
{
    let mut flags = Vec::new(alloc);
    for _flag in 0..number {
        if flags.push(AtomicBool::new(false)).is_err() {
            return Err(NoMemory);
        }
    }
    Ok(flags)
}

/// A site with a flow for each slot.
pub(crate) fn open_site(alloc: Global, slots: u32, workers: u32) -> Result<Opened, NoMemory>
    requires slots { (1 ≤ slots) × (slots ≤ 1024) }
    requires workers { (1 ≤ workers) × (workers ≤ 16) }
    ensures sizes { IfOk result (λ opened. (opened.site.slots ≡ slots) × (opened.site.workers ≡ workers)) }
    ensures handles { IfOk result (λ opened. AreNewHandles (device_of opened.site) slots opened.handles.items) }
    ensures jobs { IfOk result (λ opened. AreNewWorkers (device_of opened.site) workers opened.jobs.items) }
    ensures refused { IfOk result (λ opened. (vec_len opened.site.refused_flows ≡ slots) × (vec_len opened.site.refused_workers ≡ workers)) }
{
    let (shared, handles, jobs) = Shared::make(alloc, slots, workers)?;
    let refused_flows = make_flags(alloc, slots)?;
    let refused_workers = make_flags(alloc, workers)?;
    let site = Site {
        shared,
        slots,
        workers,
        left: AtomicU32::new(slots),
        refused_flows,
        refused_workers,
    };
    Ok(Opened {
        site,
        handles,
        jobs,
    })
}

/// Gives the core back, where all seats came back in their order.
pub(crate) fn close_site(site: Site, handles: Vec<HandleSeat>, jobs: Vec<JobSeat>) -> Core
    requires some { 0 < vec_len handles }
    requires handles { AreHandlesOf (device_of site) handles.items }
    requires workers { AreWorkersOf (device_of site) jobs.items }
    ensures { IsClosed result handles.items jobs.items }
{
    let Site {
        shared,
        slots: _,
        workers: _,
        left: _,
        refused_flows: _,
        refused_workers: _,
    } = site;
    shared.close(handles, jobs)
}
