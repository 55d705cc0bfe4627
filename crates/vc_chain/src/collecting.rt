//! Takes the frames of a flow, and writes them.

ghost use Rattle.std.specs.Prelude.{◌≡◌, ◌≢◌, ◌≤◌, IfOk, OnOk, IfErr, IsErrOf};
ghost use Rattle.vc_base.specs.declared.Side.TheVariants.{Cap};
ghost use Rattle.vc_base.specs.Counts.{Rose};
ghost use Rattle.vc_queue.specs.Holds.{held_payload};
ghost use Rattle.vc_flow.specs.Buffers.{IsThere};
ghost use Rattle.vc_flow.specs.Calls.{KeepsHanded};
ghost use Rattle.vc_flow.specs.Faults.{GoesOn, ShowsFault};
ghost use Rattle.vc_encode_flow.specs.Flows.{HasFlow, HasBadSource};
ghost use Rattle.vc_encode_flow.specs.Promises.{FlowMoves, TellsFault, WritesFrames, LeavesPrefix, WritingTellsFault};
ghost use Rattle.vc_chain.specs.Segments.{TakesFrame};

use crate::opening::queue_capture;
use std::sync::Wait;
use vc_base::{Call, Reply, Side};
use vc_flow::{Stop, is_failed, write_taken};
use vc_io::Sink;
use vc_port::PayloadPort;
use vc_wait::wait_on;

/// A CAPTURE buffer that was taken, and how many of its bytes are used.
#[derive(Clone, Copy, Debug)]
pub(crate) struct Frame {
    pub index: u32,
    pub used: u32,
}

/// Takes OUTPUT buffers until the one with ERROR comes back, which shows that an engine failed.
fn take_fault<R: Wait, P: PayloadPort>(rt: &R, port: &mut P)
    requires ready { P.ready port.old }
    requires bad { HasBadSource (P.events port.old) }
    ensures ready { P.ready port.new }
    ensures follows { P.follows port.old port.new }
    ensures shows { ShowsFault (P.events port.old) (P.events port.new) }
    ensures goes_on { GoesOn (P.events port.old) (P.events port.new) }
    ensures hands { KeepsHanded (P.events port.old) (P.events port.new) }
{
    let call = Call::DqBuf {
        side: Side::Out,
        block: true,
    };
    for _ in rt.forever() {
        let Reply::Taken { flags, .. } = wait_on(rt, port, &call) else {
            unreachable!();
        };
        if is_failed(flags) {
            return;
        }
    }
    unreachable!()
}

/// Waits for a frame and takes it. Where it has ERROR, the OUTPUT buffer of its picture is taken too, which shows the fault.
pub(crate) fn take_frame<R: Wait, P: PayloadPort>(rt: &R, port: &mut P) -> Result<Frame, Stop>
    requires ready { P.ready port.old }
    requires flow { HasFlow (P.events port.old) }
    ensures ready { P.ready port.new }
    ensures follows { P.follows port.old port.new }
    ensures there { IfOk result (λ frame. IsThere (held_payload (P.hold port.new) Cap frame.index) frame.used) }
    ensures flow { TakesFrame result (P.hold port.new) (P.events port.old) (P.events port.new) }
    ensures engine { TellsFault result (P.events port.old) (P.events port.new) }
    ensures hands { KeepsHanded (P.events port.old) (P.events port.new) }
    ensures stops { IfErr result (λ stop. (stop ≢ Stop.ReadFault) × (stop ≢ Stop.WriteFault) × (stop ≢ Stop.TooLong)) }
{
    let call = Call::DqBuf {
        side: Side::Cap,
        block: true,
    };
    match wait_on(rt, port, &call) {
        Reply::Taken {
            index,
            used,
            flags,
            ..
        } => {
            if is_failed(flags) {
                take_fault(rt, port);
                Err(Stop::EngineFault)
            } else {
                Ok(Frame { index, used })
            }
        }
        _ => Err(Stop::NoMemory),
    }
}

/// Waits for a frame, writes it, and queues its buffer again.
pub(crate) fn collect<R: Wait, P: PayloadPort, K: Sink>(
    rt: &R,
    port: &mut P,
    sink: &mut K,
) -> Result<(), Stop>
    requires ready { P.ready port.old }
    requires flow { HasFlow (P.events port.old) }
    ensures ready { P.ready port.new }
    ensures follows { P.follows port.old port.new }
    ensures flow { OnOk result (HasFlow (P.events port.new)) }
    ensures taken { WritesFrames 1 result (K.written sink.old) (K.written sink.new) (P.events port.old) (P.events port.new) }
    ensures stopped { LeavesPrefix result (K.written sink.old) (K.written sink.new) (P.events port.old) (P.events port.new) }
    ensures engine { TellsFault result (P.events port.old) (P.events port.new) }
    ensures later { K.faults sink.old ≤ K.faults sink.new }
    ensures quiet { OnOk result (K.faults sink.new ≡ K.faults sink.old) }
    ensures write { IsErrOf result Stop.WriteFault → Rose (K.faults sink.old) (K.faults sink.new) }
    ensures stops { IfErr result (λ stop. (stop ≢ Stop.ReadFault) × (stop ≢ Stop.TooLong)) }
{
    let frame = match take_frame(rt, port) {
        Ok(frame) => frame,
        Err(stop) => return Err(stop),
    };
    write_taken(port, sink, frame.index, frame.used)?;
    queue_capture(port, frame.index)
}

/// Collects so many frames.
pub(crate) fn collect_all<R: Wait, P: PayloadPort, K: Sink>(
    rt: &R,
    port: &mut P,
    sink: &mut K,
    count: u32,
) -> Result<(), Stop>
    requires ready { P.ready port.old }
    requires flow { HasFlow (P.events port.old) }
    ensures ready { P.ready port.new }
    ensures follows { P.follows port.old port.new }
    ensures flow { OnOk result (HasFlow (P.events port.new)) }
    ensures taken { WritesFrames count result (K.written sink.old) (K.written sink.new) (P.events port.old) (P.events port.new) }
    ensures stopped { LeavesPrefix result (K.written sink.old) (K.written sink.new) (P.events port.old) (P.events port.new) }
    ensures engine { WritingTellsFault result (K.written sink.old) (P.events port.old) (P.events port.new) }
    ensures later { K.faults sink.old ≤ K.faults sink.new }
    ensures quiet { OnOk result (K.faults sink.new ≡ K.faults sink.old) }
    ensures write { IsErrOf result Stop.WriteFault → Rose (K.faults sink.old) (K.faults sink.new) }
    ensures stops { IfErr result (λ stop. (stop ≢ Stop.ReadFault) × (stop ≢ Stop.TooLong)) }
{
    for _frame in 0..count {
        match collect(rt, port, sink) {
            Ok(()) => {}
            Err(stop) => return Err(stop),
        }
    }
    Ok(())
}

/// Waits for an OUTPUT buffer that is done, and takes it. One with ERROR shows that an engine failed.
pub(crate) fn take_source<R: Wait, P: PayloadPort>(rt: &R, port: &mut P) -> Result<u32, Stop>
    requires ready { P.ready port.old }
    ensures ready { P.ready port.new }
    ensures follows { P.follows port.old port.new }
    ensures flow { FlowMoves (λ f. f) result (P.events port.old) (P.events port.new) }
    ensures engine { TellsFault result (P.events port.old) (P.events port.new) }
    ensures hands { KeepsHanded (P.events port.old) (P.events port.new) }
    ensures stops { IfErr result (λ stop. (stop ≢ Stop.ReadFault) × (stop ≢ Stop.WriteFault) × (stop ≢ Stop.TooLong)) }
{
    let call = Call::DqBuf {
        side: Side::Out,
        block: true,
    };
    match wait_on(rt, port, &call) {
        Reply::Taken { index, flags, .. } => {
            if is_failed(flags) {
                Err(Stop::EngineFault)
            } else {
                Ok(index)
            }
        }
        _ => Err(Stop::NoMemory),
    }
}
