//! A worker's seat is a station.
use crate::worker_seat::WorkerSeat;
use std::sync::Wait;
use vc_core::Finished;
use vc_port::{Claimed, Station};

impl<'a, R: Wait + Sync> Station for WorkerSeat<'a, R> {
    ghost use Rattle.vc_shared.specs.Claims.{IsClaim};
    ghost use Rattle.vc_shared.specs.Following.{WorkerFollows, worker_follows_self, worker_follows_on};
    ghost use Rattle.vc_shared.specs.AsStation.{station_job, worked};

    ghost worked = { λ w. worked w };

    ghost job = { λ w. station_job w };

    ghost over = { λ w. w.over };

    ghost follows = { λ s t. WorkerFollows s t };

    ghost claims = { λ s claimed t. IsClaim s t claimed };

    fn claim(&mut self) -> Claimed {
        self.known();
        WorkerSeat::claim(self)
    }

    fn finish(&mut self, finished: Finished) {
        self.known();
        WorkerSeat::finish(self, finished);
    }

    fn pause(&mut self) {
        self.wait();
    }

    ghost follows_self = { λ s. worker_follows_self s };

    ghost follows_on = { λ s t u f g. worker_follows_on s t u f g };
}
