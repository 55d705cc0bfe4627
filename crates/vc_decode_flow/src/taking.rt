//! Takes what the slot of a flow has.

ghost use Rattle.std.specs.Prelude.{◌≡◌, ◌≢◌, List, OnOk, IfOk, IfErr, IfSome};
ghost use Rattle.vc_base.specs.declared.Side.TheVariants.{Cap};
ghost use Rattle.vc_model.specs.Solo.{SoloEvent};
ghost use Rattle.vc_queue.specs.Holds.{held_payload};
ghost use Rattle.vc_port.specs.Payloads.{bytes_out};
ghost use Rattle.vc_flow.specs.Buffers.{IsThere};
ghost use Rattle.vc_stream_laws.specs.Streams.{StreamSoFar, IsStream};
ghost use Rattle.vc_decode_flow.specs.Steps.{KeepsCaptures, with_stop};
ghost use Rattle.vc_flow.specs.Calls.{KeepsHanded};
ghost use Rattle.vc_decode_flow.specs.Promises.{StreamMoves, TellsFault, TakesCapture, TakesSource, NoSourceIsLeft, NoJobFailed};

use crate::opening::OUT_BUFFERS;
use bitflags::Flags;
use std::sync::Wait;
use vc_base::flags::BufFlags;
use vc_base::{Call, Errno, Reply, Side};
use vc_flow::{Stop, is_failed};
use vc_port::PayloadPort;
use vc_wait::call_on;

/// A CAPTURE buffer that was taken: how many of its bytes are used, whether it is of a damaged frame, and whether it is
/// the last one before a stop.
#[derive(Clone, Copy, Debug)]
pub(crate) struct Taken {
    pub(crate) index: u32,
    pub(crate) used: u32,
    pub(crate) damaged: bool,
    pub(crate) last: bool,
}

/// Waits until the slot has an event, a CAPTURE buffer or an OUTPUT buffer to take.
fn wait_ready<R: Wait, P: PayloadPort>(rt: &R, port: &mut P)
    requires ready { P.ready port.old }
    ensures ready { P.ready port.new }
    ensures follows { P.follows port.old port.new }
    ensures stream { (start : List SoloEvent) (f : StreamSoFar) → IsStream start f (P.events port.old) → IsStream start f (P.events port.new) }
    ensures bytes { bytes_out (P.events port.new) ≡ bytes_out (P.events port.old) }
{
    for _ in rt.forever() {
        match call_on(port, &Call::Poll) {
            Reply::Ready {
                read: false,
                write: false,
                urgent: false,
            } => port.pause(),
            _ => return,
        }
    }
}

/// Waits until the slot has something to take. Where it is an event, it is taken, and its type is told.
pub(crate) fn next_event<R: Wait, P: PayloadPort>(rt: &R, port: &mut P) -> Option<u32>
    requires ready { P.ready port.old }
    ensures ready { P.ready port.new }
    ensures follows { P.follows port.old port.new }
    ensures stream { (start : List SoloEvent) (f : StreamSoFar) → IsStream start f (P.events port.old) → IsStream start f (P.events port.new) }
    ensures bytes { bytes_out (P.events port.new) ≡ bytes_out (P.events port.old) }
{
    wait_ready(rt, port);
    match call_on(port, &Call::DqEvent { block: false }) {
        Reply::Happened { event, .. } => Some(event),
        _ => None,
    }
}

/// Finds that the slot has stopped: there is no CAPTURE buffer behind the LAST one.
fn find_stopped<P: PayloadPort>(port: &mut P) -> Result<(), Stop>
    requires ready { P.ready port.old }
    ensures ready { P.ready port.new }
    ensures follows { P.follows port.old port.new }
    ensures stream { StreamMoves with_stop result (P.events port.old) (P.events port.new) }
    ensures payloads { OnOk result (KeepsCaptures (P.hold port.old) (P.hold port.new)) }
    ensures bytes { OnOk result (bytes_out (P.events port.new) ≡ bytes_out (P.events port.old)) }
    ensures hands { KeepsHanded (P.events port.old) (P.events port.new) }
    ensures memory { IfErr result (λ stop. stop ≡ Stop.NoMemory) }
{
    let call = Call::DqBuf {
        side: Side::Cap,
        block: false,
    };
    match call_on(port, &call) {
        Reply::Refused { errno: Errno::Pipe } => Ok(()),
        _ => Err(Stop::NoMemory),
    }
}

/// Takes a CAPTURE buffer, where one is done. Behind the last one before a stop the slot has stopped.
pub(crate) fn take_capture<P: PayloadPort>(port: &mut P) -> Result<Option<Taken>, Stop>
    requires ready { P.ready port.old }
    ensures ready { P.ready port.new }
    ensures follows { P.follows port.old port.new }
    ensures there { IfOk result (λ taken. IfSome taken (λ t. IsThere (held_payload (P.hold port.new) Cap t.index) t.used)) }
    ensures taken { TakesCapture result (P.hold port.new) (P.events port.old) (P.events port.new) }
    ensures hands { KeepsHanded (P.events port.old) (P.events port.new) }
    ensures memory { IfErr result (λ stop. stop ≡ Stop.NoMemory) }
{
    let call = Call::DqBuf {
        side: Side::Cap,
        block: false,
    };
    match call_on(port, &call) {
        Reply::Taken {
            index,
            used,
            flags,
            ..
        } => {
            let last = BufFlags::LAST.bits();
            let taken = Taken {
                index,
                used,
                damaged: is_failed(flags),
                last: flags & last == last,
            };
            if !taken.last {
                return Ok(Some(taken));
            }
            find_stopped(port)?;
            Ok(Some(taken))
        }
        Reply::Refused { .. } => Ok(None),
        _ => Err(Stop::NoMemory),
    }
}

/// Takes an OUTPUT buffer, and tells whether one was done.
fn take_source<P: PayloadPort>(port: &mut P) -> Result<bool, Stop>
    requires ready { P.ready port.old }
    ensures ready { P.ready port.new }
    ensures follows { P.follows port.old port.new }
    ensures goes_on { TakesSource result (P.events port.old) (P.events port.new) }
    ensures none { NoSourceIsLeft result (P.events port.old) (P.events port.new) }
    ensures engine { TellsFault result (P.events port.old) (P.events port.new) }
    ensures payloads { OnOk result (KeepsCaptures (P.hold port.old) (P.hold port.new)) }
    ensures bytes { bytes_out (P.events port.new) ≡ bytes_out (P.events port.old) }
    ensures stops { IfErr result (λ stop. (stop ≢ Stop.ReadFault) × (stop ≢ Stop.WriteFault) × (stop ≢ Stop.TooLong)) }
{
    let call = Call::DqBuf {
        side: Side::Out,
        block: false,
    };
    match call_on(port, &call) {
        Reply::Taken { flags, .. } => {
            if is_failed(flags) {
                Err(Stop::EngineFault)
            } else {
                Ok(true)
            }
        }
        Reply::Refused {
            errno: Errno::Again,
        } => Ok(false),
        _ => Err(Stop::NoMemory),
    }
}

/// Takes all OUTPUT buffers that are done. No engine failed at one of them, or before.
pub(crate) fn take_sources<P: PayloadPort>(port: &mut P) -> Result<(), Stop>
    requires ready { P.ready port.old }
    ensures ready { P.ready port.new }
    ensures follows { P.follows port.old port.new }
    ensures unspoilt { NoJobFailed result (P.events port.old) (P.events port.new) }
    ensures engine { TellsFault result (P.events port.old) (P.events port.new) }
    ensures payloads { OnOk result (KeepsCaptures (P.hold port.old) (P.hold port.new)) }
    ensures bytes { bytes_out (P.events port.new) ≡ bytes_out (P.events port.old) }
    ensures stops { IfErr result (λ stop. (stop ≢ Stop.ReadFault) × (stop ≢ Stop.WriteFault) × (stop ≢ Stop.TooLong)) }
{
    for _source in 0..OUT_BUFFERS + 1 {
        match take_source(port) {
            Ok(true) => {}
            Ok(false) => return Ok(()),
            Err(stop) => return Err(stop),
        }
    }
    Err(Stop::NoMemory)
}
