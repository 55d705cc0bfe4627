//! The lock and the bell.
ghost use Rattle.std.specs.Prelude.{◌≡◌, ℕ, ◌<◌, ◌≤◌, ◌+◌, IfOk, Some, [], vec_len, vec_capacity, slice_get};
ghost use Rattle.vc_turn.specs.Place.{fresh_place};
ghost use Rattle.vc_shared.specs.Handles.{device_at};
ghost use Rattle.vc_shared.specs.Closing.{AreHandlesOf, AreWorkersOf, IsClosed};
ghost use Rattle.vc_shared.specs.Making.{AreNewHandles, AreNewWorkers};

use crate::handle_seat::HandleSeat;
use crate::held::{Held, Sizes};
use crate::job_seat::JobSeat;
use crate::joining::{join_handles, join_workers};
use std::alloc::Global;
use std::marker::Model;
use vc_base::NoMemory;
use vc_bell::Bell;
use vc_core::Core;
use vc_turn::{Turn, TurnSeat};

/// The running device: a core under a turn lock, and a bell. A contract sees which one it is.
#[derive(Drop)]
pub struct Shared {
    pub(crate) turn: Turn<Held>,
    pub(crate) bell: Bell,
}

impl Model for Shared {
    ghost use Rattle.atomic_table.specs.Seated.{TableId, table_id_coded};

    ghost Value = { TableId };

    ghost coded = { table_id_coded };

    ghost view = { λ s. s.turn };
}

/// The seats of the slots, and those of the workers.
#[derive(Drop)]
struct Seats {
    handles: Vec<HandleSeat>,
    jobs: Vec<JobSeat>,
}

/// Deals the seats at the lock out: the first ones to the slots, the others to the workers.
fn deal(
    turn: &Turn<Held>,
    all: Vec<TurnSeat<Held>>,
    sizes: Sizes,
    mut handles: Vec<HandleSeat>,
    mut jobs: Vec<JobSeat>,
) -> Seats
    requires fresh { (vec_len all ≡ sizes.slots + sizes.workers) × ((k : ℕ) → k < vec_len all → slice_get all.items k ≡ Some (fresh_place turn.now k (sizes.slots + sizes.workers))) }
    requires few { (sizes.slots ≤ 1024) × (sizes.workers ≤ 64) }
    requires handles { (handles.items ≡ []) × (vec_capacity handles ≡ sizes.slots) }
    requires jobs { (jobs.items ≡ []) × (vec_capacity jobs ≡ sizes.workers) }
    ensures handles { AreNewHandles (device_at turn.now sizes.slots sizes.workers) sizes.slots result.handles.items }
    ensures jobs { AreNewWorkers (device_at turn.now sizes.slots sizes.workers) sizes.workers result.jobs.items }
{
    for seat in all {
        let number = handles.len() as u32;
        if number < sizes.slots {
            handles.push_reserved(HandleSeat::new(seat, sizes, number));
        } else {
            let worker = jobs.len() as u32;
            jobs.push_reserved(JobSeat::new(seat, sizes, worker));
        }
    }
    Seats { handles, jobs }
}

impl Shared {
    /// A device of 1 to 1,024 slots and 1 to 64 workers, all slots closed, with the seats of both. The seat at place k
    /// of the first list is the one seat of slot k, and that at place w of the second list is the one of worker w.
    ///
    /// # Errors
    /// `NoMemory` where no memory is found.
    pub fn make(
        alloc: Global,
        slots: u32,
        workers: u32,
    ) -> Result<(Shared, Vec<HandleSeat>, Vec<JobSeat>), NoMemory>
        requires slots { (1 ≤ slots) × (slots ≤ 1024) }
        requires workers { (1 ≤ workers) × (workers ≤ 64) }
        ensures handles { IfOk result (λ made. AreNewHandles (device_at made.0 slots workers) slots made.1.items) }
        ensures workers { IfOk result (λ made. AreNewWorkers (device_at made.0 slots workers) workers made.2.items) }
    {
        let sizes = Sizes { slots, workers };
        let core = Core::make(alloc, slots, workers)?;
        let Ok(handles) = Vec::with_capacity(alloc, slots as usize) else {
            return Err(NoMemory);
        };
        let Ok(jobs) = Vec::with_capacity(alloc, workers as usize) else {
            return Err(NoMemory);
        };
        let (turn, all) = Turn::make(alloc, slots + workers, Held { core, sizes })?;
        let Seats { handles, jobs } = deal(&turn, all, sizes, handles, jobs);
        let bell = Bell::new();
        Ok((Shared { turn, bell }, handles, jobs))
    }

    /// Gives the core back, where all seats of the device come back in the order in which they were made. The core
    /// stands for the one history, which all that any seat has seen begins, and each entry of it is one entry of one
    /// seat. The payloads that users hold are dropped.
    pub fn close(self, handles: Vec<HandleSeat>, workers: Vec<JobSeat>) -> Core
        requires some { 0 < vec_len handles }
        requires handles { AreHandlesOf (device_at self (vec_len handles) (vec_len workers)) handles.items }
        requires workers { AreWorkersOf (device_at self (vec_len handles) (vec_len workers)) workers.items }
        ensures { IsClosed result handles.items workers.items }
    {
        let Shared { turn, bell: _ } = self;
        let mut first = join_handles(&turn, handles);
        join_workers(&turn, &mut first, workers);
        let Held { core, sizes: _ } = turn.close(first);
        core
    }
}
