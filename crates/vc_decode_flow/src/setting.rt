//! Sets CAPTURE up, and restarts it.

ghost use Rattle.std.specs.Prelude.{◌≡◌, IfErr};
ghost use Rattle.vc_port.specs.Payloads.{bytes_out};
ghost use Rattle.vc_decode_flow.specs.Steps.{with_captures, without_captures, restarted};
ghost use Rattle.vc_decode_flow.specs.Promises.{StreamMoves, ChangedMoves};

use std::sync::Wait;
use vc_base::{Call, Errno, Reply, Side, Stamp};
use vc_flow::{Stop, call_done, request_buffers};
use vc_port::PayloadPort;
use vc_wait::{call_on, wait_on};

/// The buffers of CAPTURE.
const CAP_BUFFERS: u32 = 4;

fn request_captures<P: PayloadPort>(port: &mut P) -> Result<(), Stop>
    requires ready { P.ready port.old }
    ensures ready { P.ready port.new }
    ensures follows { P.follows port.old port.new }
    ensures stream { StreamMoves (λ f. f) result (P.events port.old) (P.events port.new) }
    ensures bytes { bytes_out (P.events port.new) ≡ bytes_out (P.events port.old) }
    ensures memory { IfErr result (λ stop. stop ≡ Stop.NoMemory) }
{
    request_buffers(port, Side::Cap, CAP_BUFFERS)
}

/// Queues a CAPTURE buffer, and tells whether it was long enough. It stays with the user where it is too short.
pub(crate) fn queue_capture<P: PayloadPort>(port: &mut P, index: u32) -> Result<bool, Stop>
    requires ready { P.ready port.old }
    ensures ready { P.ready port.new }
    ensures follows { P.follows port.old port.new }
    ensures stream { StreamMoves (λ f. f) result (P.events port.old) (P.events port.new) }
    ensures bytes { bytes_out (P.events port.new) ≡ bytes_out (P.events port.old) }
    ensures memory { IfErr result (λ stop. stop ≡ Stop.NoMemory) }
{
    let call = Call::QBuf {
        side: Side::Cap,
        index,
        used: 0,
        stamp: Stamp(0),
    };
    match call_on(port, &call) {
        Reply::Done => Ok(true),
        Reply::Refused {
            errno: Errno::Inval,
        } => Ok(false),
        _ => Err(Stop::NoMemory),
    }
}

/// Queues all CAPTURE buffers.
fn queue_captures<P: PayloadPort>(port: &mut P) -> Result<(), Stop>
    requires ready { P.ready port.old }
    ensures ready { P.ready port.new }
    ensures follows { P.follows port.old port.new }
    ensures stream { StreamMoves (λ f. f) result (P.events port.old) (P.events port.new) }
    ensures bytes { bytes_out (P.events port.new) ≡ bytes_out (P.events port.old) }
    ensures memory { IfErr result (λ stop. stop ≡ Stop.NoMemory) }
{
    for index in 0..CAP_BUFFERS {
        if !queue_capture(port, index)? {
            return Err(Stop::NoMemory);
        }
    }
    Ok(())
}

fn stream_captures<P: PayloadPort>(port: &mut P) -> Result<(), Stop>
    requires ready { P.ready port.old }
    ensures ready { P.ready port.new }
    ensures follows { P.follows port.old port.new }
    ensures stream { StreamMoves with_captures result (P.events port.old) (P.events port.new) }
    ensures bytes { bytes_out (P.events port.new) ≡ bytes_out (P.events port.old) }
    ensures memory { IfErr result (λ stop. stop ≡ Stop.NoMemory) }
{
    call_done(port, &Call::StreamOn { side: Side::Cap })
}

/// Gives CAPTURE buffers of the present format, queues them and makes it stream.
pub(crate) fn set_up<P: PayloadPort>(port: &mut P) -> Result<(), Stop>
    requires ready { P.ready port.old }
    ensures ready { P.ready port.new }
    ensures follows { P.follows port.old port.new }
    ensures stream { StreamMoves with_captures result (P.events port.old) (P.events port.new) }
    ensures bytes { bytes_out (P.events port.new) ≡ bytes_out (P.events port.old) }
    ensures memory { IfErr result (λ stop. stop ≡ Stop.NoMemory) }
{
    request_captures(port)?;
    queue_captures(port)?;
    stream_captures(port)
}

fn stop_captures<R: Wait, P: PayloadPort>(rt: &R, port: &mut P) -> Result<(), Stop>
    requires ready { P.ready port.old }
    ensures ready { P.ready port.new }
    ensures follows { P.follows port.old port.new }
    ensures stream { ChangedMoves without_captures result (P.events port.old) (P.events port.new) }
    ensures bytes { bytes_out (P.events port.new) ≡ bytes_out (P.events port.old) }
    ensures memory { IfErr result (λ stop. stop ≡ Stop.NoMemory) }
{
    match wait_on(rt, port, &Call::StreamOff { side: Side::Cap }) {
        Reply::Done => Ok(()),
        _ => Err(Stop::NoMemory),
    }
}

/// Restarts CAPTURE after a change of geometry, with buffers of the new format. A drain goes on.
pub(crate) fn restart<R: Wait, P: PayloadPort>(rt: &R, port: &mut P) -> Result<(), Stop>
    requires ready { P.ready port.old }
    ensures ready { P.ready port.new }
    ensures follows { P.follows port.old port.new }
    ensures stream { ChangedMoves restarted result (P.events port.old) (P.events port.new) }
    ensures bytes { bytes_out (P.events port.new) ≡ bytes_out (P.events port.old) }
    ensures memory { IfErr result (λ stop. stop ≡ Stop.NoMemory) }
{
    stop_captures(rt, port)?;
    set_up(port)
}
