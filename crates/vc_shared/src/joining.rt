//! Joining all seats into the one of slot 0.
ghost use Rattle.std.specs.Prelude.{◌≡◌, ℕ, ◌<◌, ◌+◌, false, Some, slice_get, map, vec_len};
ghost use Rattle.vc_shared.specs.Handles.{DeviceId, HandleState};
ghost use Rattle.vc_shared.specs.Workers.{WorkerState};
ghost use Rattle.vc_shared.specs.Closing.{AreHandlesOf};
ghost use Rattle.vc_shared.specs.Joining.{HasJoined, JoinsWorkers};

use crate::handle_seat::HandleSeat;
use crate::held::Held;
use crate::job_seat::JobSeat;
use vc_turn::{Turn, TurnSeat};

/// Joins the seats of the slots into that of slot 0.
pub(crate) fn join_handles(turn: &Turn<Held>, handles: Vec<HandleSeat>) -> TurnSeat<Held>
    requires some { 0 < vec_len handles }
    requires own { (k : ℕ) (h : HandleState) → slice_get handles.items k ≡ Some h → (h.device.lock ≡ turn.now) × (h.slot ≡ k) }
    ensures lock { (result.turn ≡ turn.now) × (result.number ≡ 0) × (result.serving ≡ false) }
    ensures joined { (device : DeviceId) → AreHandlesOf device handles.items → HasJoined device result (map (λ h. h.seat) handles.items) }
{
    let mut seats = handles.into_iter();
    let Some(first) = seats.next() else {
        unreachable!()
    };
    let mut first = first.into_turn_seat();
    for handle in seats {
        turn.join(&mut first, handle.into_turn_seat());
    }
    first
}

/// Joins the seats of the workers too.
pub(crate) fn join_workers(turn: &Turn<Held>, first: &mut TurnSeat<Held>, workers: Vec<JobSeat>)
    requires lock { (first.old.turn ≡ turn.now) × (first.old.number ≡ 0) × (first.old.serving ≡ false) }
    requires own { (k : ℕ) (w : WorkerState) → slice_get workers.items k ≡ Some w → w.device.lock ≡ turn.now }
    ensures lock { (first.new.turn ≡ turn.now) × (first.new.number ≡ 0) × (first.new.serving ≡ false) }
    ensures joined { JoinsWorkers first.old workers.items first.new }
{
    for worker in workers {
        turn.join(first, worker.into_turn_seat());
    }
}
