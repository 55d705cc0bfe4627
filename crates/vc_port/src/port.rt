//! Who makes calls.

ghost use Rattle.std.specs.Prelude.{◌≡◌, ℕ, List, is_some, IsTrue};
ghost use Rattle.std.specs.Option.{option_map};
ghost use Rattle.vc_base.specs.declared.Call.{Call};
ghost use Rattle.vc_base.specs.declared.Reply.{Reply};
ghost use Rattle.vc_model.specs.Solo.{SoloEvent};
ghost use Rattle.vc_queue.specs.Holds.{HoldState, held_payload, with_payload, HaveOneLength, HasRoom, written_over};
ghost use Rattle.vc_context.specs.Payloads.{FitsSlot};
ghost use Rattle.vc_port.specs.Ports.{AnsweredCall, answered_after};
ghost use Rattle.vc_port.specs.Payloads.{slot_after, IsCallOn, AreKept};

use vc_base::{Call, Reply, Side};

/// One caller of the device: it makes the calls of one slot. It remembers its answered calls with their
/// replies; `Blocked` is no answer.
///
/// `call` makes a call. Where it answers `Blocked`, the call changed nothing, and may be made again.
/// `pause` waits until something may have changed, or does something in the meantime.
pub trait Port {
    /// The answered calls with their replies, the first one first.
    ghost answered: { Self → List AnsweredCall };
    /// What holds of the port between its calls.
    ghost ready: { Self → Type 0 };
    /// The port before and after: it is the same port, and what it knows only grew.
    ghost follows: { Self → Self → Type 0 };
    /// What a call with this reply does to the port.
    ghost calls: { Self → Call → Reply → Self → Type 0 };
    /// What a pause does to the port.
    ghost pauses: { Self → Self → Type 0 };

    fn call(&mut self, call: &Call) -> Reply
        requires { ready self.old }
        ensures ready { ready self.new }
        ensures answered { answered self.new ≡ answered_after (answered self.old) call.now result }
        ensures follows { follows self.old self.new }
        ensures calls { calls self.old call.now result self.new };

    fn pause(&mut self)
        requires { ready self.old }
        ensures ready { ready self.new }
        ensures answered { answered self.new ≡ answered self.old }
        ensures follows { follows self.old self.new }
        ensures pauses { pauses self.old self.new };

    ghost follows_self: { (p : Self) → follows p p };

    ghost follows_on: { (p q r : Self) → follows p q → follows q r → follows p r };
}

/// A port whose user holds the payloads of the slot's held buffers. It remembers the events of its slot:
/// its own answered calls, and the claims and finishes of the slot's jobs that came before them.
pub trait PayloadPort: Port {
    /// The events of the slot, from the time when it was closed.
    ghost events: { Self → List SoloEvent };
    /// The payloads that the user holds.
    ghost hold: { Self → HoldState };

    /// The payload of a buffer, where the user holds it.
    fn payload(&self, side: Side, index: u32) -> Option<&[u8]>
        ensures { option_map (λ s. s.now) result ≡ held_payload (hold self.now) side index };

    /// Writes bytes over the first bytes of a held payload that is not shorter. It takes no memory.
    fn fill(&mut self, side: Side, index: u32, bytes: &[u8])
        requires ready { Self.ready self.old }
        requires held { HasRoom (held_payload (hold self.old) side index) bytes.now }
        ensures ready { Self.ready self.new }
        ensures answered { Self.answered self.new ≡ Self.answered self.old }
        ensures follows { Self.follows self.old self.new }
        ensures events { events self.new ≡ events self.old }
        ensures payloads { hold self.new ≡ with_payload (hold self.old) side index (written_over (held_payload (hold self.old) side index) bytes.now) };

    /// Exchanges two held payloads of one length with another port. It takes no memory, and copies no byte.
    fn exchange(
        &mut self,
        side: Side,
        index: u32,
        other: &mut Self,
        other_side: Side,
        other_index: u32,
    )
        requires ready { Self.ready self.old × Self.ready other.old }
        requires held { HaveOneLength (held_payload (hold self.old) side index) (held_payload (hold other.old) other_side other_index) }
        ensures ready { Self.ready self.new × Self.ready other.new }
        ensures answered { (Self.answered self.new ≡ Self.answered self.old) × (Self.answered other.new ≡ Self.answered other.old) }
        ensures follows { Self.follows self.old self.new × Self.follows other.old other.new }
        ensures events { (events self.new ≡ events self.old) × (events other.new ≡ events other.old) }
        ensures mine { hold self.new ≡ with_payload (hold self.old) side index (held_payload (hold other.old) other_side other_index) }
        ensures others { hold other.new ≡ with_payload (hold other.old) other_side other_index (held_payload (hold self.old) side index) };

    /// A call adds claims and finishes to the events and then, unless it is answered by Blocked, the call.
    ghost calls_are: { (p q : Self) (request : Call) (told : Reply) → Self.calls p request told q → IsCallOn (events p) (hold p) request told (events q) (hold q) };

    /// A pause changes neither the events nor a payload.
    ghost pauses_are: { (p q : Self) → Self.pauses p q → AreKept (events p) (hold p) (events q) (hold q) };

    /// The payloads are those of the held buffers of the slot, each of its buffer's length.
    ghost fits: { (p : Self) → Self.ready p → FitsSlot (slot_after (events p)) (hold p) };
}
