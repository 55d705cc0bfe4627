//! Opens a slot for a flow.

ghost use Rattle.std.specs.Prelude.{◌≡◌, true, false, None, List, OnOk, IfErr};
ghost use Rattle.vc_base.specs.declared.Kind.TheVariants.{Dec};
ghost use Rattle.vc_base.specs.Events.{has_event};
ghost use Rattle.vc_model.specs.Solo.{SoloEvent};
ghost use Rattle.vc_port.specs.Payloads.{slot_after, bytes_out};
ghost use Rattle.vc_stream_laws.specs.Streams.{stream_at_start, IsStream, IsOpened};
ghost use Rattle.vc_decode_flow.specs.Promises.{StaysOpened, HasOpened, IsLimited};

use vc_base::limits::{EOS_EVENT, MOST_BYTES, SOURCE_CHANGE_EVENT};
use vc_base::{Call, Format, Fourcc, Kind, Side};
use vc_flow::{Stop, call_done, call_granted, request_buffers};
use vc_port::PayloadPort;

/// The buffers of OUTPUT.
pub(crate) const OUT_BUFFERS: u32 = 2;

/// The coded format, with buffers that hold the longest frame. A decoder finds the size of the pictures in
/// the stream.
const CODED: Format = Format {
    fourcc: Fourcc(*b"FWHT"),
    width: 16,
    height: 16,
    size: MOST_BYTES,
};

fn open_slot<P: PayloadPort>(port: &mut P) -> Result<(), Stop>
    requires ready { P.ready port.old }
    requires closed { slot_after (P.events port.old) ≡ None }
    ensures ready { P.ready port.new }
    ensures follows { P.follows port.old port.new }
    ensures opened { OnOk result (IsOpened (P.events port.old) false (P.events port.new)) }
    ensures bytes { bytes_out (P.events port.new) ≡ bytes_out (P.events port.old) }
    ensures memory { IfErr result (λ stop. stop ≡ Stop.NoMemory) }
{
    call_granted(port, &Call::Open { kind: Kind::Dec })
}

fn subscribe<P: PayloadPort>(port: &mut P, event: u32) -> Result<(), Stop>
    requires ready { P.ready port.old }
    requires opened { HasOpened (P.events port.old) }
    requires event { has_event Dec event ≡ true }
    ensures ready { P.ready port.new }
    ensures follows { P.follows port.old port.new }
    ensures opened { StaysOpened result (P.events port.old) (P.events port.new) }
    ensures bytes { bytes_out (P.events port.new) ≡ bytes_out (P.events port.old) }
    ensures memory { IfErr result (λ stop. stop ≡ Stop.NoMemory) }
{
    call_granted(port, &Call::Subscribe { event })
}

fn set_format<P: PayloadPort>(port: &mut P) -> Result<(), Stop>
    requires ready { P.ready port.old }
    ensures ready { P.ready port.new }
    ensures follows { P.follows port.old port.new }
    ensures opened { IsLimited result (P.events port.old) (P.events port.new) }
    ensures bytes { bytes_out (P.events port.new) ≡ bytes_out (P.events port.old) }
    ensures memory { IfErr result (λ stop. stop ≡ Stop.NoMemory) }
{
    vc_flow::set_format(port, &CODED)
}

fn request_sources<P: PayloadPort>(port: &mut P) -> Result<(), Stop>
    requires ready { P.ready port.old }
    ensures ready { P.ready port.new }
    ensures follows { P.follows port.old port.new }
    ensures opened { StaysOpened result (P.events port.old) (P.events port.new) }
    ensures bytes { bytes_out (P.events port.new) ≡ bytes_out (P.events port.old) }
    ensures memory { IfErr result (λ stop. stop ≡ Stop.NoMemory) }
{
    request_buffers(port, Side::Out, OUT_BUFFERS)
}

fn stream_sources<P: PayloadPort>(port: &mut P) -> Result<(), Stop>
    requires ready { P.ready port.old }
    ensures ready { P.ready port.new }
    ensures follows { P.follows port.old port.new }
    ensures stream { (start : List SoloEvent) → IsOpened start true (P.events port.old) → OnOk result (IsStream start stream_at_start (P.events port.new)) }
    ensures bytes { bytes_out (P.events port.new) ≡ bytes_out (P.events port.old) }
    ensures memory { IfErr result (λ stop. stop ≡ Stop.NoMemory) }
{
    call_done(port, &Call::StreamOn { side: Side::Out })
}

/// Opens the slot as a decoder whose OUTPUT streams. Nothing of CAPTURE is set up.
pub(crate) fn open_decoder<P: PayloadPort>(port: &mut P) -> Result<(), Stop>
    requires ready { P.ready port.old }
    requires closed { slot_after (P.events port.old) ≡ None }
    ensures ready { P.ready port.new }
    ensures follows { P.follows port.old port.new }
    ensures stream { OnOk result (IsStream (P.events port.old) stream_at_start (P.events port.new)) }
    ensures bytes { bytes_out (P.events port.new) ≡ bytes_out (P.events port.old) }
    ensures memory { IfErr result (λ stop. stop ≡ Stop.NoMemory) }
{
    open_slot(port)?;
    subscribe(port, EOS_EVENT)?;
    subscribe(port, SOURCE_CHANGE_EVENT)?;
    set_format(port)?;
    request_sources(port)?;
    stream_sources(port)
}
