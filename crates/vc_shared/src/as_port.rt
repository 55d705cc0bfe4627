//! A handle is a port with payloads.
use crate::handle::Handle;
use std::sync::Wait;
use vc_base::{Call, Reply, Side};
use vc_port::{PayloadPort, Port};

impl<'a, R: Wait + Sync> Port for Handle<'a, R> {
    ghost use Rattle.vc_port.specs.Payloads.{IsCallOn};
    ghost use Rattle.vc_shared.specs.Handles.{slot_events, IsHandle};
    ghost use Rattle.vc_shared.specs.Following.{HandleFollows, handle_follows_self, handle_follows_on};
    ghost use Rattle.vc_shared.specs.AsPort.{answered_calls, StaysHandle};

    ghost answered = { λ h. answered_calls h };

    ghost ready = { λ h. IsHandle h };

    ghost follows = { λ p q. HandleFollows p q };

    ghost calls = { λ p request told q. IsCallOn (slot_events p) p.hold request told (slot_events q) q.hold };

    ghost pauses = { λ p q. StaysHandle p q };

    fn call(&mut self, call: &Call) -> Reply {
        Handle::call(self, call)
    }

    fn pause(&mut self) {
        self.wait();
    }

    ghost follows_self = { λ p. handle_follows_self p };

    ghost follows_on = { λ p q r f g. handle_follows_on p q r f g };
}

impl<'a, R: Wait + Sync> PayloadPort for Handle<'a, R> {
    ghost use Rattle.vc_shared.specs.Handles.{slot_events};
    ghost use Rattle.vc_shared.specs.AsPort.{fits_events};

    ghost events = { λ h. slot_events h };

    ghost hold = { λ h. h.hold };

    fn payload(&self, side: Side, index: u32) -> Option<&[u8]> {
        Handle::payload(self, side, index)
    }

    fn fill(&mut self, side: Side, index: u32, bytes: &[u8]) {
        Handle::fill(self, side, index, bytes);
        self.known();
    }

    fn exchange(
        &mut self,
        side: Side,
        index: u32,
        other: &mut Self,
        other_side: Side,
        other_index: u32,
    ) {
        Handle::exchange(self, side, index, other, other_side, other_index);
        self.known();
        other.known();
    }

    ghost calls_are = { λ p q request told c. c };

    ghost pauses_are = { λ p q k. k };

    ghost fits = { λ p r. fits_events p r };
}
