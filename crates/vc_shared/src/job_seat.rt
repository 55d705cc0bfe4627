//! The one seat of a worker.
ghost use Rattle.std.specs.Prelude.{◌≡◌, ◌<◌, ◌≤◌, ◌+◌, None};
ghost use Rattle.vc_core.specs.Jobs.{is_fault};
ghost use Rattle.vc_turn.specs.Place.{fresh_place};
ghost use Rattle.vc_shared.specs.Claiming.{is_over, nothing_claimed};

use crate::held::{Held, Sizes};
use crate::notes::{note_claim, note_finish};
use crate::turns::enter;
use std::marker::{Brand, Model};
use std::sync::Wait;
use vc_core::Finished;
use vc_port::Claimed;
use vc_turn::{Turn, TurnSeat};

/// The one seat of a worker. A contract sees of which worker of which device it is, what it knows of the history, and
/// whether its last claim answered Over.
#[derive(Drop)]
pub struct JobSeat {
    seat: TurnSeat<Held>,
    sizes: Sizes,
    worker: u32,
    over: bool,
}

impl Model for JobSeat {
    ghost use Rattle.vc_shared.specs.Workers.{WorkerState, worker_at, IsWorkerSeat};

    ghost Value = { WorkerState };

    ghost view = { λ w. worker_at w.seat w.sizes w.worker w.over };

    ghost invariant = { λ w. IsWorkerSeat w.seat w.sizes w.worker };
}

/// What a claim gives that finds nothing.
fn nothing(shut: bool) -> Claimed
    ensures { result ≡ nothing_claimed shut }
{
    if shut { Claimed::Over } else { Claimed::Empty }
}

impl JobSeat {
    ghost use Rattle.vc_shared.specs.Handles.{device_of};
    ghost use Rattle.vc_shared.specs.Joining.{IsSeatAt};
    ghost use Rattle.vc_shared.specs.Workers.{new_worker, slot_had, IsWorker};
    ghost use Rattle.vc_shared.specs.Following.{WorkerFollows};
    ghost use Rattle.vc_shared.specs.Claims.{IsClaim, IsOfItsJob, FinishesJob};

    /// The seat of a worker, with the seat at the lock whose number comes so many behind the slots'.
    pub(crate) fn new(seat: TurnSeat<Held>, sizes: Sizes, worker: u32) -> JobSeat
        requires worker { worker < sizes.workers }
        requires few { sizes.workers ≤ 64 }
        requires seat { seat ≡ fresh_place seat.turn (sizes.slots + worker) (sizes.slots + sizes.workers) }
        ensures { result ≡ new_worker (device_of seat sizes) worker }
    {
        JobSeat {
            seat,
            sizes,
            worker,
            over: false,
        }
    }

    /// The seat at the lock alone.
    pub(crate) fn into_turn_seat(self) -> TurnSeat<Held>
        ensures { IsSeatAt self.device (self.device.slots + self.worker) self.seat result }
    {
        let JobSeat {
            seat,
            sizes: _,
            worker: _,
            over: _,
        } = self;
        seat
    }

    /// What is known of every seat of a worker.
    pub(crate) fn known(&self)
        ensures { IsWorker self.now }
    {
        let _ = &self.worker;
    }

    /// Claims a job in a turn of its own. Where there is none, nothing is noted.
    pub(crate) fn claim<R: Wait>(&mut self, rt: &R, turn: &Turn<Held>) -> Claimed
        requires lock { self.old.device.lock ≡ turn.now }
        requires free { slot_had self.old ≡ None }
        ensures follows { WorkerFollows self.old self.new }
        ensures claimed { IsClaim self.old self.new result }
        ensures over { self.new.over ≡ is_over result }
    {
        let sizes = self.sizes;
        let mut core = enter(rt, turn, &mut self.seat, sizes);
        match core.claim(self.worker) {
            Some(job) => {
                note_claim::<Brand>(turn, &mut self.seat, self.worker);
                turn.put(&mut self.seat, Held { core, sizes });
                self.over = false;
                Claimed::Job(job)
            }
            None => {
                let shut = core.is_shut();
                turn.put(&mut self.seat, Held { core, sizes });
                self.over = shut;
                nothing(shut)
            }
        }
    }

    /// Finishes the job of the worker in a turn of its own.
    pub(crate) fn finish<R: Wait>(&mut self, rt: &R, turn: &Turn<Held>, finished: Finished)
        requires lock { self.old.device.lock ≡ turn.now }
        requires job { IsOfItsJob self.old finished }
        ensures follows { WorkerFollows self.old self.new }
        ensures finished { FinishesJob self.old self.new (is_fault finished) }
        ensures over { self.new.over ≡ self.old.over }
    {
        let sizes = self.sizes;
        let mut core = enter(rt, turn, &mut self.seat, sizes);
        let fault = finished.is_fault();
        core.finish(self.worker, finished);
        note_finish::<Brand>(turn, &mut self.seat, self.worker, fault);
        turn.put(&mut self.seat, Held { core, sizes });
    }
}
