//! Feeds pictures to a flow.

ghost use Rattle.std.specs.Prelude.{◌≡◌, ◌≢◌, ◌<◌, ◌≤◌, ◌^◌, length, take, IfOk, OnOk, IfErr, IsErrOf, ◌⊎◌};
ghost use Rattle.std.specs.Io.KnownBytes.{Consumes, IsAtEnd};
ghost use Rattle.vc_base.specs.Counts.{Rose};
ghost use Rattle.vc_encode_flow.specs.Flows.{with_picture};
ghost use Rattle.vc_encode_flow.specs.Steps.{ReadsBelow, ReadsBeyond};
ghost use Rattle.vc_flow.specs.Calls.{KeepsHanded};
ghost use Rattle.vc_encode_flow.specs.Promises.{FlowMoves, TellsFault};

use std::sync::Wait;
use vc_base::{Call, Reply, Side};
use vc_flow::{Stop, is_failed, queue_source};
use vc_io::Source;
use vc_port::PayloadPort;
use vc_wait::wait_on;

/// Fills the picture from the source, as far as the input goes, and tells with how many bytes. An input of which as many
/// bytes are read as there is room for is too long.
pub(crate) fn read_picture<S: Source>(
    source: &mut S,
    picture: &mut [u8],
    room: u64,
) -> Result<usize, Stop>
    requires { 0 < room }
    ensures size { length picture.new ≡ length picture.old }
    ensures bound { IfOk result (λ count. count ≤ length picture.new) }
    ensures bytes { IfOk result (λ count. Consumes (S.left source.old) (S.left source.new) (take count picture.new)) }
    ensures end { IfOk result (λ count. count < length picture.new → IsAtEnd (S.left source.new)) }
    ensures room { IfOk result (λ count. count < room) }
    ensures below { IsErrOf result Stop.ReadFault → ReadsBelow room (S.left source.old) (S.left source.new) }
    ensures long { IsErrOf result Stop.TooLong → ReadsBeyond room (length picture.new) (S.left source.old) (S.left source.new) }
    ensures later { S.faults source.old ≤ S.faults source.new }
    ensures quiet { OnOk result (S.faults source.new ≡ S.faults source.old) }
    ensures read { IsErrOf result Stop.ReadFault → Rose (S.faults source.old) (S.faults source.new) }
    ensures stops { IfErr result (λ stop. (stop ≡ Stop.ReadFault) ⊎ (stop ≡ Stop.TooLong)) }
{
    let mut at = 0;
    'reading: while at < picture.len() {
        match source.read(&mut picture[at..]) {
            Ok(0) => return Ok(at),
            Ok(count) => at += count,
            Err(_) => return Err(Stop::ReadFault),
        }
        if at as u64 >= room {
            return Err(Stop::TooLong);
        }
    }
    Ok(at)
}

/// Waits for an OUTPUT buffer that is done, and takes it. One with ERROR shows that an engine failed.
pub(crate) fn take_source<R: Wait, P: PayloadPort>(rt: &R, port: &mut P) -> Result<u32, Stop>
    requires ready { P.ready port.old }
    ensures ready { P.ready port.new }
    ensures follows { P.follows port.old port.new }
    ensures flow { FlowMoves (λ f. f) result (P.events port.old) (P.events port.new) }
    ensures engine { TellsFault result (P.events port.old) (P.events port.new) }
    ensures hands { KeepsHanded (P.events port.old) (P.events port.new) }
    ensures stops { IfErr result (λ stop. (stop ≢ Stop.ReadFault) × (stop ≢ Stop.WriteFault) × (stop ≢ Stop.TooLong)) }
{
    let call = Call::DqBuf {
        side: Side::Out,
        block: true,
    };
    match wait_on(rt, port, &call) {
        Reply::Taken { index, flags, .. } => {
            if is_failed(flags) {
                Err(Stop::EngineFault)
            } else {
                Ok(index)
            }
        }
        _ => Err(Stop::NoMemory),
    }
}

/// Queues a picture.
pub(crate) fn feed<P: PayloadPort>(port: &mut P, index: u32, picture: &[u8]) -> Result<(), Stop>
    requires ready { P.ready port.old }
    requires short { length picture.now < 2 ^ 32 }
    ensures ready { P.ready port.new }
    ensures follows { P.follows port.old port.new }
    ensures flow { FlowMoves (λ f. with_picture f picture.now) result (P.events port.old) (P.events port.new) }
    ensures hands { KeepsHanded (P.events port.old) (P.events port.new) }
    ensures memory { IfErr result (λ stop. stop ≡ Stop.NoMemory) }
{
    queue_source(port, index, picture)
}
