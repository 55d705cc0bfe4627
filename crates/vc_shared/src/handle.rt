//! Who makes the calls of one slot.
ghost use Rattle.std.specs.Prelude.{◌≡◌, ◌≢◌};
ghost use Rattle.std.specs.Option.{option_map};
ghost use Rattle.vc_base.specs.declared.Reply.TheVariants.{Blocked};
ghost use Rattle.vc_queue.specs.Holds.{held_payload, with_payload, written_over, HasRoom, HaveOneLength};
ghost use Rattle.vc_port.specs.Payloads.{IsCallOn};
ghost use Rattle.vc_shared.specs.Following.{HandleFollows};
ghost use Rattle.vc_shared.specs.Calls.{AnswersCall, BlocksCall, ShutsDevice};

use crate::handle_seat::HandleSeat;
use crate::shared::Shared;
use std::marker::Model;
use std::sync::Wait;
use vc_base::{Call, Reply, Side};

/// The seat of a slot, at the device that it was made with. A contract sees of which slot of which device it is,
/// what it knows of the history, and the payloads that the slot's user holds.
#[derive(Drop)]
pub struct Handle<'a, R> {
    rt: &'a R,
    shared: &'a Shared,
    seat: HandleSeat,
    /// What the bell told before the last attempt.
    heard: u64,
}

impl<'a, R> Model for Handle<'a, R> {
    ghost use Rattle.std.specs.Prelude.{◌≡◌};
    ghost use Rattle.vc_shared.specs.Handles.{HandleState};

    ghost Value = { HandleState };

    ghost view = { λ h. h.seat };

    ghost invariant = { λ h. h.seat.device.lock ≡ h.shared.now };
}

/// Whether a call with this reply may have let another go on: it was not refused, and is none of those that only
/// look.
fn may_help(call: &Call, reply: &Reply) -> bool {
    if let Reply::Refused { .. } | Reply::Blocked = reply {
        return false;
    }
    !matches!(
        call,
        Call::EnumFmt { .. }
            | Call::GetFmt { .. }
            | Call::TryFmt { .. }
            | Call::QueryBuf { .. }
            | Call::GetCtrl { .. }
            | Call::Poll
    )
}

impl<'a, R> Handle<'a, R> {
    ghost use Rattle.vc_shared.specs.Handles.{slot_events, IsHandle};

    /// A handle of the slot whose seat it is. The seat was made with this device.
    pub fn new(rt: &'a R, shared: &'a Shared, seat: HandleSeat) -> Handle<'a, R>
        requires { seat.device.lock ≡ shared.now }
        ensures same { result ≡ seat }
        ensures ready { IsHandle result }
    {
        let heard = shared.bell.now();
        seat.known();
        Handle {
            rt,
            shared,
            seat,
            heard,
        }
    }

    /// The seat, with all that it knows and holds.
    pub fn into_seat(self) -> HandleSeat
        ensures { result ≡ self.entry }
    {
        let Handle {
            rt: _,
            shared: _,
            seat,
            heard: _,
        } = self;
        seat
    }

    /// What is known of every handle.
    pub(crate) fn known(&self)
        ensures { IsHandle self.now }
    {
        self.seat.known();
    }

    /// The payload of a buffer, and None exactly where the user does not hold it. It takes no lock.
    pub fn payload(&self, side: Side, index: u32) -> Option<&[u8]>
        ensures { option_map (λ s. s.now) result ≡ held_payload self.now.hold side index }
    {
        self.seat.payload(side, index)
    }

    /// Writes bytes over the front of a held payload that is not shorter. What it holds behind them stays. It takes
    /// no lock.
    pub fn fill(&mut self, side: Side, index: u32, bytes: &[u8])
        requires held { HasRoom (held_payload self.old.hold side index) bytes.now }
        ensures { self.new ≡ record self.old { hold = with_payload self.old.hold side index (written_over (held_payload self.old.hold side index) bytes.now) } }
    {
        self.seat.fill(side, index, bytes);
    }

    /// Exchanges two held payloads of one length, of this handle and of another, without copying a byte. It takes no
    /// lock.
    pub fn exchange(
        &mut self,
        side: Side,
        index: u32,
        other: &mut Handle<'a, R>,
        other_side: Side,
        other_index: u32,
    )
        requires held { HaveOneLength (held_payload self.old.hold side index) (held_payload other.old.hold other_side other_index) }
        ensures mine { self.new ≡ record self.old { hold = with_payload self.old.hold side index (held_payload other.old.hold other_side other_index) } }
        ensures others { other.new ≡ record other.old { hold = with_payload other.old.hold other_side other_index (held_payload self.old.hold side index) } }
    {
        self.seat
            .exchange(side, index, &mut other.seat, other_side, other_index);
    }
}

impl<'a, R: Wait> Handle<'a, R> {
    ghost use Rattle.vc_shared.specs.Handles.{slot_events, IsHandle};

    /// Makes a call on the slot, in a turn of its own. An answered call is one entry of the history. Where the answer is
    /// Blocked nothing is noted, and neither the slot nor a payload changes; the handle may have seen more of the
    /// history. It waits for its turn, and may wait for ever.
    pub fn call(&mut self, call: &Call) -> Reply
        ensures follows { HandleFollows self.old self.new }
        ensures solo { IsCallOn (slot_events self.old) self.old.hold call.now result (slot_events self.new) self.new.hold }
        ensures blocked { result ≡ Blocked → BlocksCall self.old self.new call.now }
        ensures answered { result ≢ Blocked → AnswersCall self.old self.new call.now result }
        ensures ready { IsHandle self.new }
    {
        let rt = self.rt;
        let shared = self.shared;
        self.heard = shared.bell.now();
        let reply = self.seat.call(rt, &shared.turn, call);
        if may_help(call, &reply) {
            shared.bell.ring();
        }
        reply
    }

    /// Waits until the bell was rung since before the last attempt, so that nothing is missed.
    pub(crate) fn wait(&mut self)
        ensures { self.new ≡ self.old }
    {
        let rt = self.rt;
        let shared = self.shared;
        shared.bell.wait_past(rt, self.heard);
    }

    /// Marks the device as shut, which is one entry of the history. It waits for its turn, and may wait for ever.
    pub fn shut(&mut self)
        ensures follows { HandleFollows self.old self.new }
        ensures shut { ShutsDevice self.old self.new }
        ensures ready { IsHandle self.new }
    {
        let rt = self.rt;
        let shared = self.shared;
        self.seat.shut(rt, &shared.turn);
        shared.bell.ring();
    }
}
