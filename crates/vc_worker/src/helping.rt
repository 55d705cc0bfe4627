//! A caller that runs jobs while it waits.

ghost use Rattle.std.specs.Prelude.{◌≡◌, None, false};
ghost use Rattle.vc_worker.specs.Turns.{GainsBy, IsTurn, FindsNone};

use vc_base::{Call, Reply, Side};
use vc_core::Engine;
use vc_port::{Claimed, PayloadPort, Port, Station};

/// A station and an engine, for a caller to run jobs with.
#[derive(Drop)]
pub struct Help<T: Station, E: Engine = Box<dyn Engine + Send>> {
    pub station: T,
    pub engine: E,
}

impl<T: Station, E: Engine> Help<T, E> {
    /// Claims a job, runs it and finishes it. It answers whether there was one.
    pub fn turn(&mut self) -> bool
        requires { T.job self.old.station ≡ None }
        ensures idle { T.job self.new.station ≡ None }
        ensures follows { T.follows self.old.station self.new.station }
        ensures gained { GainsBy T.worked E.run_count E.fault_count self.old.station self.old.engine self.new.station self.new.engine }
        ensures turn { IsTurn result (T.worked self.old.station) (T.worked self.new.station) }
        ensures none { result ≡ false → FindsNone T.claims self.old.station self.new.station }
    {
        match self.station.claim() {
            Claimed::Job(job) => {
                let finished = job.run(&mut self.engine);
                self.station.finish(finished);
                true
            }
            Claimed::Empty | Claimed::Over => false,
        }
    }
}

/// A port that runs jobs while it waits, where it has help. Its calls are those of the port. Its pause
/// claims a job, runs it and finishes it; without help, and where there is no job, it pauses the port.
/// Between its calls the station of its help has no job.
#[derive(Drop)]
pub struct Helping<P: Port, T: Station, E: Engine = Box<dyn Engine + Send>> {
    pub port: P,
    pub help: Option<Help<T, E>>,
}

impl<P: Port, T: Station, E: Engine> Port for Helping<P, T, E> {
    ghost use Rattle.std.specs.Prelude.{◌≡◌, None, false};
    ghost use Rattle.vc_worker.specs.Both.{Both, IfThere};
    ghost use Rattle.vc_worker.specs.Pauses.{IsPause};
    ghost use Rattle.vc_worker.specs.Turns.{GainsBy, IsTurn, FindsNone};

    ghost answered = { λ h. P.answered h.port };

    ghost ready = { λ h. P.ready h.port × IfThere (λ x. T.job x.station ≡ None) h.help };

    ghost follows = { λ a b. P.follows a.port b.port × Both (λ x y. T.follows x.station y.station × GainsBy T.worked E.run_count E.fault_count x.station x.engine y.station y.engine) a.help b.help };

    ghost calls = { λ a request told b. P.calls a.port request told b.port × (b.help ≡ a.help) };

    ghost pauses = { λ a b. IsPause P.pauses (λ was_job x y. IsTurn was_job (T.worked x.station) (T.worked y.station) × (was_job ≡ false → FindsNone T.claims x.station y.station)) a.port b.port a.help b.help };

    fn call(&mut self, call: &Call) -> Reply {
        self.port.call(call)
    }

    fn pause(&mut self) {
        if let Some(help) = &mut self.help {
            if help.turn() {
                return;
            }
        }
        self.port.pause();
    }

    ghost use Rattle.vc_worker.specs.Both.{both_self, both_on};
    ghost use Rattle.vc_worker.specs.Gains.{gained_none, gained_on};

    ghost follows_self = { λ p. (P.follows_self p.port, both_self _ (λ x. (T.follows_self x.station, gained_none _ _ _)) p.help) };

    ghost follows_on = { λ p q r f g. (P.follows_on p.port q.port r.port f.0 g.0, both_on _ (λ x y z a b. (T.follows_on x.station y.station z.station a.0 b.0, gained_on _ _ _ _ _ _ _ _ _ a.1 b.1)) p.help q.help r.help f.1 g.1) };
}

impl<P: PayloadPort, T: Station, E: Engine> PayloadPort for Helping<P, T, E> {
    ghost use Rattle.vc_worker.specs.Pauses.{kept_by_pause};

    ghost events = { λ h. P.events h.port };

    ghost hold = { λ h. P.hold h.port };

    fn payload(&self, side: Side, index: u32) -> Option<&[u8]> {
        self.port.payload(side, index)
    }

    fn fill(&mut self, side: Side, index: u32, bytes: &[u8]) {
        self.port.fill(side, index, bytes);
    }

    fn exchange(
        &mut self,
        side: Side,
        index: u32,
        other: &mut Self,
        other_side: Side,
        other_index: u32,
    ) {
        self.port
            .exchange(side, index, &mut other.port, other_side, other_index);
    }

    ghost calls_are = { λ p q request told f. P.calls_are p.port q.port request told f.0 };

    ghost pauses_are = { λ p q f. kept_by_pause P.events P.hold P.pauses P.pauses_are p.port q.port f.was_job f.port };

    ghost fits = { λ p r. P.fits p.port r.0 };
}
