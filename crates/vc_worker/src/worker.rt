//! A worker by itself.

ghost use Rattle.std.specs.Prelude.{◌≡◌, true, None};
ghost use Rattle.vc_worker.specs.Turns.{GainsBy};

use std::sync::Wait;
use vc_core::Engine;
use vc_port::{Claimed, Station};

/// What a worker hands back: its station, and its engine.
#[derive(Drop)]
pub struct Served<T: Station, E: Engine = Box<dyn Engine + Send>> {
    pub station: T,
    pub engine: E,
}

/// Claims jobs, runs each on the engine and finishes it, until a claim answers that all is over. Where
/// there is nothing to claim it pauses the station. It may wait, and for ever where the device is never
/// shut.
pub fn serve<R: Wait, T: Station, E: Engine>(rt: &R, station: T, engine: E) -> Served<T, E>
    requires { T.job station ≡ None }
    ensures over { T.over result.station ≡ true }
    ensures idle { T.job result.station ≡ None }
    ensures follows { T.follows station result.station }
    ensures gained { GainsBy T.worked E.run_count E.fault_count station engine result.station result.engine }
{
    let mut station = station;
    let mut engine = engine;
    for _ in rt.forever() {
        match station.claim() {
            Claimed::Job(job) => {
                let finished = job.run(&mut engine);
                station.finish(finished);
            }
            Claimed::Empty => station.pause(),
            Claimed::Over => {
                return Served { station, engine };
            }
        }
    }
    unreachable!()
}
