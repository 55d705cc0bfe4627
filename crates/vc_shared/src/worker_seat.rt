//! Who runs the jobs.
ghost use Rattle.std.specs.Prelude.{◌≡◌, None};
ghost use Rattle.vc_core.specs.Jobs.{is_fault};
ghost use Rattle.vc_shared.specs.Claiming.{is_over};

use crate::job_seat::JobSeat;
use crate::shared::Shared;
use std::marker::Model;
use std::sync::Wait;
use vc_core::Finished;
use vc_port::Claimed;

/// The seat of a worker, at the device that it was made with. A contract sees of which worker of which device it is,
/// what it knows of the history, and whether its last claim answered Over.
#[derive(Drop)]
pub struct WorkerSeat<'a, R> {
    rt: &'a R,
    shared: &'a Shared,
    seat: JobSeat,
    /// What the bell told before the last claim.
    heard: u64,
}

impl<'a, R> Model for WorkerSeat<'a, R> {
    ghost use Rattle.std.specs.Prelude.{◌≡◌};
    ghost use Rattle.vc_shared.specs.Workers.{WorkerState};

    ghost Value = { WorkerState };

    ghost view = { λ w. w.seat };

    ghost invariant = { λ w. w.seat.device.lock ≡ w.shared.now };
}

impl<'a, R> WorkerSeat<'a, R> {
    ghost use Rattle.vc_shared.specs.Workers.{IsWorker};

    /// A seat of the worker whose seat it is. The seat was made with this device.
    pub fn new(rt: &'a R, shared: &'a Shared, seat: JobSeat) -> WorkerSeat<'a, R>
        requires { seat.device.lock ≡ shared.now }
        ensures same { result ≡ seat }
        ensures ready { IsWorker result }
    {
        let heard = shared.bell.now();
        seat.known();
        WorkerSeat {
            rt,
            shared,
            seat,
            heard,
        }
    }

    /// What is known of every worker's seat.
    pub(crate) fn known(&self)
        ensures { IsWorker self.now }
    {
        self.seat.known();
    }

    /// The seat at the device, with all that it knows.
    pub fn into_seat(self) -> JobSeat
        ensures { result ≡ self.entry }
    {
        let WorkerSeat {
            rt: _,
            shared: _,
            seat,
            heard: _,
        } = self;
        seat
    }
}

impl<'a, R: Wait> WorkerSeat<'a, R> {
    ghost use Rattle.vc_shared.specs.Workers.{slot_had, IsWorker};
    ghost use Rattle.vc_shared.specs.Following.{WorkerFollows};
    ghost use Rattle.vc_shared.specs.Claims.{IsClaim, IsOfItsJob, FinishesJob};

    /// Claims the job of the slot that waits longest, in a turn of its own: it is one entry of the history. Where no slot
    /// waits it is none, and the answer is Empty, or Over where the device is shut. The worker has no job. It waits for
    /// its turn, and may wait for ever.
    pub fn claim(&mut self) -> Claimed
        requires { slot_had self.old ≡ None }
        ensures follows { WorkerFollows self.old self.new }
        ensures claimed { IsClaim self.old self.new result }
        ensures over { self.new.over ≡ is_over result }
        ensures ready { IsWorker self.new }
    {
        let rt = self.rt;
        let shared = self.shared;
        self.heard = shared.bell.now();
        let claimed = self.seat.claim(rt, &shared.turn);
        self.seat.known();
        claimed
    }

    /// Brings back the job of the worker, run or given up: it is one entry of the history. It waits for its turn, and
    /// may wait for ever.
    pub fn finish(&mut self, finished: Finished)
        requires { IsOfItsJob self.old finished }
        ensures follows { WorkerFollows self.old self.new }
        ensures finished { FinishesJob self.old self.new (is_fault finished) }
        ensures over { self.new.over ≡ self.old.over }
        ensures ready { IsWorker self.new }
    {
        let rt = self.rt;
        let shared = self.shared;
        self.seat.finish(rt, &shared.turn, finished);
        self.seat.known();
        shared.bell.ring();
    }

    /// Waits until the bell was rung since before the last claim, so that nothing is missed.
    pub(crate) fn wait(&mut self)
        ensures { self.new ≡ self.old }
    {
        let rt = self.rt;
        let shared = self.shared;
        shared.bell.wait_past(rt, self.heard);
    }
}
