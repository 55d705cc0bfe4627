//! Calls that wait, over any port.

ghost use Rattle.std.specs.Prelude.{◌≡◌, ◌≢◌, ◌++◌, ◌∷◌, [], true};
ghost use Rattle.vc_base.specs.declared.Call.TheVariants.{DqBuf, DqEvent, StreamOff, Close};
ghost use Rattle.vc_base.specs.declared.Reply.TheVariants.{Blocked};
ghost use Rattle.vc_port.specs.Ports.{IsWaitedFor};

use std::sync::Wait;
use vc_base::{Call, Reply, Side};
use vc_port::Port;

/// Makes the call until it is answered otherwise than by `Blocked`.
pub(crate) fn answer_wait<R: Wait, P: Port>(rt: &R, port: &mut P, call: &Call) -> Reply
    requires { P.ready port.old }
    ensures ready { P.ready port.new }
    ensures answers { result ≢ Blocked }
    ensures answered { P.answered port.new ≡ P.answered port.old ++ record { request = call.now; reply = result } ∷ [] }
    ensures follows { P.follows port.old port.new }
    ensures waited { IsWaitedFor P.calls P.pauses port.old call.now result port.new }
{
    for _ in rt.forever() {
        match port.call(call) {
            Reply::Blocked => port.pause(),
            reply => return reply,
        }
    }
    unreachable!()
}

/// Takes a buffer that is done, and waits for one where there is none: DqBuf of that side with `block`.
pub fn dq_wait<R: Wait, P: Port>(rt: &R, port: &mut P, side: Side) -> Reply
    requires { P.ready port.old }
    ensures ready { P.ready port.new }
    ensures answers { result ≢ Blocked }
    ensures answered { P.answered port.new ≡ P.answered port.old ++ record { request = DqBuf side true; reply = result } ∷ [] }
    ensures follows { P.follows port.old port.new }
    ensures waited { IsWaitedFor P.calls P.pauses port.old (DqBuf side true) result port.new }
{
    answer_wait(rt, port, &Call::DqBuf { side, block: true })
}

/// Takes an event, and waits for one where none is pending: DqEvent with `block`.
pub fn event_wait<R: Wait, P: Port>(rt: &R, port: &mut P) -> Reply
    requires { P.ready port.old }
    ensures ready { P.ready port.new }
    ensures answers { result ≢ Blocked }
    ensures answered { P.answered port.new ≡ P.answered port.old ++ record { request = DqEvent true; reply = result } ∷ [] }
    ensures follows { P.follows port.old port.new }
    ensures waited { IsWaitedFor P.calls P.pauses port.old (DqEvent true) result port.new }
{
    answer_wait(rt, port, &Call::DqEvent { block: true })
}

/// Stops a queue, and waits for the running job of the slot to end: StreamOff of that side.
pub fn off_wait<R: Wait, P: Port>(rt: &R, port: &mut P, side: Side) -> Reply
    requires { P.ready port.old }
    ensures ready { P.ready port.new }
    ensures answers { result ≢ Blocked }
    ensures answered { P.answered port.new ≡ P.answered port.old ++ record { request = StreamOff side; reply = result } ∷ [] }
    ensures follows { P.follows port.old port.new }
    ensures waited { IsWaitedFor P.calls P.pauses port.old (StreamOff side) result port.new }
{
    answer_wait(rt, port, &Call::StreamOff { side })
}

/// Closes the slot, and waits for its running job to end: Close.
pub fn close_wait<R: Wait, P: Port>(rt: &R, port: &mut P) -> Reply
    requires { P.ready port.old }
    ensures ready { P.ready port.new }
    ensures answers { result ≢ Blocked }
    ensures answered { P.answered port.new ≡ P.answered port.old ++ record { request = Close; reply = result } ∷ [] }
    ensures follows { P.follows port.old port.new }
    ensures waited { IsWaitedFor P.calls P.pauses port.old Close result port.new }
{
    answer_wait(rt, port, &Call::Close)
}
