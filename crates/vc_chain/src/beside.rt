//! A port that waits as another port does.

use vc_base::{Call, Reply, Side};
use vc_port::{PayloadPort, Port};

/// The port of a slot beside the port of another. Its calls and payloads are those of the first, and where it pauses,
/// the second one does, of which the events and payloads stay.
#[derive(Drop)]
pub struct Beside<'a, P: PayloadPort> {
    pub port: &'a mut P,
    pub other: &'a mut P,
}

impl<P: PayloadPort> Port for Beside<'_, P> {
    ghost use Rattle.std.specs.Prelude.{◌≡◌};
    ghost use Rattle.vc_port.specs.Payloads.{AreKept};

    ghost answered = { λ b. P.answered b.port.now };

    ghost ready = { λ b. P.ready b.port.now × P.ready b.other.now };

    ghost follows = { λ a b. P.follows a.port.now b.port.now × P.follows a.other.now b.other.now × AreKept (P.events a.other.now) (P.hold a.other.now) (P.events b.other.now) (P.hold b.other.now) × (b.port.ghost_name ≡ a.port.ghost_name) × (b.other.ghost_name ≡ a.other.ghost_name) };

    ghost calls = { λ a request told b. P.calls a.port.now request told b.port.now × (b.other.now ≡ a.other.now) };

    ghost pauses = { λ a b. P.pauses a.other.now b.other.now × (b.port.now ≡ a.port.now) };

    fn call(&mut self, call: &Call) -> Reply {
        self.port.call(call)
    }

    fn pause(&mut self) {
        self.other.pause();
    }

    ghost use Rattle.std.proofs.Common.{refl, ◌∙◌};
    ghost use Rattle.vc_chain.specs.Beside.{kept_self, kept_on};

    ghost follows_self = { λ b. (P.follows_self b.port.now, P.follows_self b.other.now, kept_self (P.events b.other.now) (P.hold b.other.now), refl, refl) };

    ghost follows_on = { λ a b c f g. (P.follows_on a.port.now b.port.now c.port.now f.0 g.0, P.follows_on a.other.now b.other.now c.other.now f.1 g.1, kept_on _ _ _ _ _ _ f.2 g.2, g.3 ∙ f.3, g.4 ∙ f.4) };
}

impl<P: PayloadPort> PayloadPort for Beside<'_, P> {
    ghost use Rattle.vc_chain.specs.Beside.{kept_by_other};

    ghost events = { λ b. P.events b.port.now };

    ghost hold = { λ b. P.hold b.port.now };

    fn payload(&self, side: Side, index: u32) -> Option<&[u8]> {
        self.port.payload(side, index)
    }

    fn fill(&mut self, side: Side, index: u32, bytes: &[u8]) {
        self.port.fill(side, index, bytes);
    }

    fn exchange(
        &mut self,
        side: Side,
        index: u32,
        other: &mut Self,
        other_side: Side,
        other_index: u32,
    ) {
        self.port
            .exchange(side, index, other.port, other_side, other_index);
    }

    ghost calls_are = { λ p q request told f. P.calls_are p.port.now q.port.now request told f.0 };

    ghost pauses_are = { λ p q f. kept_by_other P.events P.hold p.port.now q.port.now f.1 };

    ghost fits = { λ p r. P.fits p.port.now r.0 };
}
