//! Buffers that a flow fills and queues, and those that it takes and writes.

ghost use Rattle.std.specs.Prelude.{◌≡◌, ◌<◌, ◌≤◌, ◌^◌, true, length, OnOk, IfErr, IsErrOf};
ghost use Rattle.vc_base.specs.declared.Side.TheVariants.{Out, Cap};
ghost use Rattle.vc_base.specs.Counts.{Rose};
ghost use Rattle.vc_model.specs.Places.{has_error};
ghost use Rattle.vc_queue.specs.Holds.{held_payload, HasRoom};
ghost use Rattle.vc_port.specs.Payloads.{bytes_out};
ghost use Rattle.vc_flow.specs.Buffers.{IsThere, WritesUsed, WritesPrefix};
ghost use Rattle.vc_flow.specs.Calls.{QueuesSource};

use crate::calls::call_done;
use crate::ends::Stop;
use bitflags::Flags;
use vc_base::flags::BufFlags;
use vc_base::{Call, Side, Stamp};
use vc_io::{Sink, write_whole};
use vc_port::PayloadPort;

/// Whether the flags of a buffer have ERROR.
pub fn is_failed(flags: u32) -> bool
    ensures { result ≡ has_error flags }
{
    let error = BufFlags::ERROR.bits();
    flags & error == error
}

/// Whether the user has the OUTPUT buffer, with room for the bytes.
fn has_room<P: PayloadPort>(port: &P, index: u32, bytes: &[u8]) -> bool
    ensures { result ≡ true → HasRoom (held_payload (P.hold port.now) Out index) bytes.now }
{
    match port.payload(Side::Out, index) {
        Some(payload) => bytes.len() <= payload.len(),
        None => false,
    }
}

/// Fills a held OUTPUT buffer with the bytes, and queues it.
pub fn queue_source<P: PayloadPort>(port: &mut P, index: u32, bytes: &[u8]) -> Result<(), Stop>
    requires ready { P.ready port.old }
    requires short { length bytes.now < 2 ^ 32 }
    ensures ready { P.ready port.new }
    ensures follows { P.follows port.old port.new }
    ensures queues { OnOk result (QueuesSource (P.events port.old) index bytes.now (P.events port.new) (P.hold port.new)) }
    ensures bytes { bytes_out (P.events port.new) ≡ bytes_out (P.events port.old) }
    ensures memory { IfErr result (λ stop. stop ≡ Stop.NoMemory) }
{
    if !has_room(port, index, bytes) {
        return Err(Stop::NoMemory);
    }
    port.fill(Side::Out, index, bytes);
    let call = Call::QBuf {
        side: Side::Out,
        index,
        used: bytes.len() as u32,
        stamp: Stamp(0),
    };
    call_done(port, &call)
}

/// Writes the used bytes of a CAPTURE buffer that was taken.
pub fn write_taken<P: PayloadPort, K: Sink>(
    port: &P,
    sink: &mut K,
    index: u32,
    used: u32,
) -> Result<(), Stop>
    requires there { IsThere (held_payload (P.hold port.now) Cap index) used }
    ensures whole { WritesUsed result (held_payload (P.hold port.now) Cap index) used (K.written sink.old) (K.written sink.new) }
    ensures front { WritesPrefix result (held_payload (P.hold port.now) Cap index) used (K.written sink.old) (K.written sink.new) }
    ensures later { K.faults sink.old ≤ K.faults sink.new }
    ensures quiet { OnOk result (K.faults sink.new ≡ K.faults sink.old) }
    ensures write { IsErrOf result Stop.WriteFault → Rose (K.faults sink.old) (K.faults sink.new) }
    ensures stops { IfErr result (λ stop. stop ≡ Stop.WriteFault) }
{
    let Some(payload) = port.payload(Side::Cap, index) else {
        unreachable!();
    };
    match write_whole(sink, &payload[..used as usize]) {
        Ok(()) => Ok(()),
        Err(_) => Err(Stop::WriteFault),
    }
}
