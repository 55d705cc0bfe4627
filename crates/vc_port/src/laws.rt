//! Laws of ports with payloads.

ghost use Rattle.vc_base.specs.declared.Call.{Call};
ghost use Rattle.vc_base.specs.declared.Reply.{Reply};
ghost use Rattle.vc_port.specs.Laws.{CallsHandOut, TakenIsHandedOut, HeldIsThere, CallsAreHonest};
ghost use Rattle.vc_port.specs.Ports.{IsWaitedFor};
ghost use Rattle.vc_port.specs.Payloads.{IsCallOn};

use crate::port::PayloadPort;

/// Where a port waits and then its call is answered, its events and payloads change as by one call: what
/// happened to the slot's jobs in the meantime stands before it.
pub fn waiting_is_one_call<P: PayloadPort>()
    ensures { (p q : P) (request : Call) (told : Reply) → IsWaitedFor P.calls P.pauses p request told q → IsCallOn (P.events p) (P.hold p) request told (P.events q) (P.hold q) }
{}

/// A call adds what it hands out to the bytes that were handed out, and the number of finishes without a
/// fault never falls.
pub fn calls_hand_out()
    ensures { CallsHandOut }
{}

/// After DqBuf took a CAPTURE buffer its payload begins with the bytes handed out.
pub fn taken_is_handed_out()
    ensures { TakenIsHandedOut }
{}

/// The payloads are there exactly for the held buffers, each of its buffer's length.
pub fn held_is_there()
    ensures { HeldIsThere }
{}

/// The events stay honest over a call: what a QBuf hands over is as long as it says.
pub fn calls_are_honest()
    ensures { CallsAreHonest }
{}
