//! Opens a slot for a flow.

ghost use Rattle.std.specs.Prelude.{◌≡◌, None, OnOk, IfErr};
ghost use Rattle.vc_defs.specs.Laws.{AreRates};
ghost use Rattle.vc_port.specs.Payloads.{slot_after};
ghost use Rattle.vc_encode_flow.specs.Flows.{flow_at_open, flow_of, with_format, with_rates, IsKept, IsFlow, HasNewFlow, IsSettable, rates_of};
ghost use Rattle.vc_flow.specs.Calls.{KeepsHanded};
ghost use Rattle.vc_encode_flow.specs.Promises.{FlowMoves, NewFlowMoves, SetsControl};

use vc_base::limits::{GOP_CONTROL, IQP_CONTROL, PQP_CONTROL};
use vc_base::{Call, Format, Kind, Side, Stamp};
use vc_core::Rates;
use vc_flow::{Stop, call_done, call_granted};
use vc_port::PayloadPort;

/// The buffers of each queue.
pub(crate) const BUFFERS: u32 = 4;

fn open_slot<P: PayloadPort>(port: &mut P) -> Result<(), Stop>
    requires ready { P.ready port.old }
    requires closed { slot_after (P.events port.old) ≡ None }
    ensures ready { P.ready port.new }
    ensures follows { P.follows port.old port.new }
    ensures flow { OnOk result (IsFlow (P.events port.old) flow_at_open (P.events port.new)) }
    ensures hands { KeepsHanded (P.events port.old) (P.events port.new) }
    ensures memory { IfErr result (λ stop. stop ≡ Stop.NoMemory) }
{
    call_granted(port, &Call::Open { kind: Kind::Enc })
}

fn set_format<P: PayloadPort>(port: &mut P, format: &Format) -> Result<(), Stop>
    requires ready { P.ready port.old }
    requires kept { IsKept format.now }
    ensures ready { P.ready port.new }
    ensures follows { P.follows port.old port.new }
    ensures flow { NewFlowMoves (λ f. with_format f format.now) result (P.events port.old) (P.events port.new) }
    ensures hands { KeepsHanded (P.events port.old) (P.events port.new) }
    ensures memory { IfErr result (λ stop. stop ≡ Stop.NoMemory) }
{
    vc_flow::set_format(port, format)
}

fn set_control<P: PayloadPort>(port: &mut P, id: u32, value: u32) -> Result<(), Stop>
    requires ready { P.ready port.old }
    requires flow { HasNewFlow (P.events port.old) }
    requires settable { IsSettable id value }
    ensures ready { P.ready port.new }
    ensures follows { P.follows port.old port.new }
    ensures goes_on { OnOk result (HasNewFlow (P.events port.new)) }
    ensures flow { SetsControl id value result (P.events port.old) (P.events port.new) }
    ensures hands { KeepsHanded (P.events port.old) (P.events port.new) }
    ensures memory { IfErr result (λ stop. stop ≡ Stop.NoMemory) }
{
    call_granted(port, &Call::SetCtrl { id, value })
}

fn request_buffers<P: PayloadPort>(port: &mut P, side: Side) -> Result<(), Stop>
    requires ready { P.ready port.old }
    ensures ready { P.ready port.new }
    ensures follows { P.follows port.old port.new }
    ensures flow { NewFlowMoves (λ f. f) result (P.events port.old) (P.events port.new) }
    ensures hands { KeepsHanded (P.events port.old) (P.events port.new) }
    ensures memory { IfErr result (λ stop. stop ≡ Stop.NoMemory) }
{
    vc_flow::request_buffers(port, side, BUFFERS)
}

/// Queues a CAPTURE buffer.
pub(crate) fn queue_capture<P: PayloadPort>(port: &mut P, index: u32) -> Result<(), Stop>
    requires ready { P.ready port.old }
    ensures ready { P.ready port.new }
    ensures follows { P.follows port.old port.new }
    ensures flow { FlowMoves (λ f. f) result (P.events port.old) (P.events port.new) }
    ensures hands { KeepsHanded (P.events port.old) (P.events port.new) }
    ensures memory { IfErr result (λ stop. stop ≡ Stop.NoMemory) }
{
    let call = Call::QBuf {
        side: Side::Cap,
        index,
        used: 0,
        stamp: Stamp(0),
    };
    call_done(port, &call)
}

fn stream<P: PayloadPort>(port: &mut P, side: Side) -> Result<(), Stop>
    requires ready { P.ready port.old }
    ensures ready { P.ready port.new }
    ensures follows { P.follows port.old port.new }
    ensures flow { FlowMoves (λ f. f) result (P.events port.old) (P.events port.new) }
    ensures hands { KeepsHanded (P.events port.old) (P.events port.new) }
    ensures memory { IfErr result (λ stop. stop ≡ Stop.NoMemory) }
{
    call_done(port, &Call::StreamOn { side })
}

/// Queues all CAPTURE buffers.
fn queue_captures<P: PayloadPort>(port: &mut P) -> Result<(), Stop>
    requires ready { P.ready port.old }
    ensures ready { P.ready port.new }
    ensures follows { P.follows port.old port.new }
    ensures flow { FlowMoves (λ f. f) result (P.events port.old) (P.events port.new) }
    ensures hands { KeepsHanded (P.events port.old) (P.events port.new) }
    ensures memory { IfErr result (λ stop. stop ≡ Stop.NoMemory) }
{
    for index in 0..BUFFERS {
        queue_capture(port, index)?;
    }
    Ok(())
}

fn set_rates<P: PayloadPort>(port: &mut P, rates: &Rates) -> Result<(), Stop>
    requires ready { P.ready port.old }
    requires flow { HasNewFlow (P.events port.old) }
    requires rates { AreRates (rates_of rates.now.gop rates.now.iqp rates.now.pqp) }
    ensures ready { P.ready port.new }
    ensures follows { P.follows port.old port.new }
    ensures flow { NewFlowMoves (λ f. with_rates f (rates_of rates.now.gop rates.now.iqp rates.now.pqp)) result (P.events port.old) (P.events port.new) }
    ensures hands { KeepsHanded (P.events port.old) (P.events port.new) }
    ensures memory { IfErr result (λ stop. stop ≡ Stop.NoMemory) }
{
    set_control(port, GOP_CONTROL, rates.gop)?;
    set_control(port, IQP_CONTROL, rates.iqp)?;
    set_control(port, PQP_CONTROL, rates.pqp)
}

/// Makes both queues stream, with all CAPTURE buffers queued.
fn start<P: PayloadPort>(port: &mut P) -> Result<(), Stop>
    requires ready { P.ready port.old }
    ensures ready { P.ready port.new }
    ensures follows { P.follows port.old port.new }
    ensures flow { NewFlowMoves (λ f. f) result (P.events port.old) (P.events port.new) }
    ensures hands { KeepsHanded (P.events port.old) (P.events port.new) }
    ensures memory { IfErr result (λ stop. stop ≡ Stop.NoMemory) }
{
    request_buffers(port, Side::Out)?;
    request_buffers(port, Side::Cap)?;
    queue_captures(port)?;
    stream(port, Side::Out)?;
    stream(port, Side::Cap)
}

/// Opens the slot as an encoder of pictures of the format at the rates. Both its queues stream, and its CAPTURE
/// buffers are queued.
pub(crate) fn open_encoder<P: PayloadPort>(
    port: &mut P,
    format: &Format,
    rates: &Rates,
) -> Result<(), Stop>
    requires ready { P.ready port.old }
    requires closed { slot_after (P.events port.old) ≡ None }
    requires kept { IsKept format.now }
    requires rates { AreRates (rates_of rates.now.gop rates.now.iqp rates.now.pqp) }
    ensures ready { P.ready port.new }
    ensures follows { P.follows port.old port.new }
    ensures flow { OnOk result (IsFlow (P.events port.old) (flow_of format.now (rates_of rates.now.gop rates.now.iqp rates.now.pqp)) (P.events port.new)) }
    ensures hands { KeepsHanded (P.events port.old) (P.events port.new) }
    ensures memory { IfErr result (λ stop. stop ≡ Stop.NoMemory) }
{
    open_slot(port)?;
    set_format(port, format)?;
    set_rates(port, rates)?;
    start(port)
}
