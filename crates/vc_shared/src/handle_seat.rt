//! The one seat of a slot.
ghost use Rattle.std.specs.Prelude.{◌≡◌, ◌≢◌, ◌<◌, ◌≤◌, ◌+◌, ℕ};
ghost use Rattle.std.specs.Option.{option_map};
ghost use Rattle.vc_base.specs.declared.Reply.TheVariants.{Blocked};
ghost use Rattle.vc_turn.specs.Place.{fresh_place};
ghost use Rattle.vc_queue.specs.Holds.{held_payload, with_payload, written_over, HasRoom, HaveOneLength};
ghost use Rattle.vc_port.specs.Payloads.{IsCallOn};
ghost use Rattle.vc_shared.specs.Following.{HandleFollows};
ghost use Rattle.vc_shared.specs.Calls.{AnswersCall, BlocksCall, ShutsDevice};

use crate::calls::make_call;
use crate::held::{Held, Sizes};
use crate::notes::note_shut;
use crate::turns::enter;
use std::marker::{Brand, Model};
use std::sync::Wait;
use vc_base::{Call, Reply, Side};
use vc_queue::hold::Hold;
use vc_turn::{Turn, TurnSeat};

/// The one seat of a slot, with the payloads that the slot's user holds. A contract sees of which slot of which
/// device it is, what it knows of the history, and the payloads.
#[derive(Drop)]
pub struct HandleSeat {
    seat: TurnSeat<Held>,
    sizes: Sizes,
    slot: u32,
    hold: Hold,
}

impl Model for HandleSeat {
    ghost use Rattle.vc_shared.specs.Handles.{HandleState, handle_at, IsSlotSeat};

    ghost Value = { HandleState };

    ghost view = { λ h. handle_at h.seat h.sizes h.slot h.hold };

    ghost invariant = { λ h. IsSlotSeat h.seat h.sizes h.slot h.hold };
}

impl HandleSeat {
    ghost use Rattle.vc_shared.specs.Handles.{device_of, new_handle, slot_events, IsHandle};
    ghost use Rattle.vc_shared.specs.Joining.{IsSeatAt};

    /// The seat of a slot, with the seat at the lock that has the slot's number.
    pub(crate) fn new(seat: TurnSeat<Held>, sizes: Sizes, slot: u32) -> HandleSeat
        requires slot { slot < sizes.slots }
        requires seat { seat ≡ fresh_place seat.turn slot (sizes.slots + sizes.workers) }
        ensures { result ≡ new_handle (device_of seat sizes) slot }
    {
        HandleSeat {
            seat,
            sizes,
            slot,
            hold: Hold::new(),
        }
    }

    /// The seat at the lock alone. The payloads are dropped.
    pub(crate) fn into_turn_seat(self) -> TurnSeat<Held>
        ensures { IsSeatAt self.device self.slot self.seat result }
    {
        let HandleSeat {
            seat,
            sizes: _,
            slot: _,
            hold: _,
        } = self;
        seat
    }

    /// What is known of every seat of a slot.
    pub(crate) fn known(&self)
        ensures { IsHandle self.now }
    {
        let _ = &self.slot;
    }

    /// Makes a call in a turn of its own.
    pub(crate) fn call<R: Wait>(&mut self, rt: &R, turn: &Turn<Held>, call: &Call) -> Reply
        requires { self.old.device.lock ≡ turn.now }
        ensures follows { HandleFollows self.old self.new }
        ensures solo { IsCallOn (slot_events self.old) self.old.hold call.now result (slot_events self.new) self.new.hold }
        ensures blocked { result ≡ Blocked → BlocksCall self.old self.new call.now }
        ensures answered { result ≢ Blocked → AnswersCall self.old self.new call.now result }
        ensures ready { IsHandle self.new }
    {
        make_call::<Brand, R>(
            rt,
            turn,
            &mut self.seat,
            self.sizes,
            self.slot,
            call,
            &mut self.hold,
        )
    }

    /// Marks the device as shut, in a turn of its own.
    pub(crate) fn shut<R: Wait>(&mut self, rt: &R, turn: &Turn<Held>)
        requires { self.old.device.lock ≡ turn.now }
        ensures follows { HandleFollows self.old self.new }
        ensures shut { ShutsDevice self.old self.new }
        ensures ready { IsHandle self.new }
    {
        let sizes = self.sizes;
        let mut core = enter(rt, turn, &mut self.seat, sizes);
        core.shut();
        note_shut::<Brand>(turn, &mut self.seat);
        turn.put(&mut self.seat, Held { core, sizes });
    }

    /// The payload of a buffer, where the user holds it.
    pub(crate) fn payload(&self, side: Side, index: u32) -> Option<&[u8]>
        ensures { option_map (λ s. s.now) result ≡ held_payload self.now.hold side index }
    {
        self.hold.payload(side, index)
    }

    /// Writes bytes over the front of a held payload that is not shorter.
    pub(crate) fn fill(&mut self, side: Side, index: u32, bytes: &[u8])
        requires held { HasRoom (held_payload self.old.hold side index) bytes.now }
        ensures { self.new ≡ record self.old { hold = with_payload self.old.hold side index (written_over (held_payload self.old.hold side index) bytes.now) } }
    {
        self.hold.write(side, index, bytes);
    }

    /// Exchanges two held payloads of one length.
    pub(crate) fn exchange(
        &mut self,
        side: Side,
        index: u32,
        other: &mut HandleSeat,
        other_side: Side,
        other_index: u32,
    )
        requires held { HaveOneLength (held_payload self.old.hold side index) (held_payload other.old.hold other_side other_index) }
        ensures mine { self.new ≡ record self.old { hold = with_payload self.old.hold side index (held_payload other.old.hold other_side other_index) } }
        ensures others { other.new ≡ record other.old { hold = with_payload other.old.hold other_side other_index (held_payload self.old.hold side index) } }
    {
        self.hold
            .exchange(side, index, &mut other.hold, other_side, other_index);
    }
}
