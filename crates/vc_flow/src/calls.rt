//! Calls whose refusal stops a flow.

ghost use Rattle.std.specs.Prelude.{◌≡◌, OnOk, OnErr, IfErr};
ghost use Rattle.vc_base.specs.declared.Call.TheVariants.{SetFmt, ReqBufs};
ghost use Rattle.vc_base.specs.declared.Reply.TheVariants.{Done};
ghost use Rattle.vc_base.specs.declared.Side.TheVariants.{Out};
ghost use Rattle.vc_port.specs.Payloads.{IsCallOn};
ghost use Rattle.vc_flow.specs.Calls.{IsMade, IsGranted, LacksMemory, SetsFormat, GivesBuffers};

use crate::ends::Stop;
use vc_base::{Call, Format, Reply, Side};
use vc_port::PayloadPort;
use vc_wait::call_on;

/// Makes a call that is to be answered by `Done`.
pub fn call_done<P: PayloadPort>(port: &mut P, call: &Call) -> Result<(), Stop>
    requires { P.ready port.old }
    ensures ready { P.ready port.new }
    ensures follows { P.follows port.old port.new }
    ensures does { OnOk result (IsCallOn (P.events port.old) (P.hold port.old) call.now Done (P.events port.new) (P.hold port.new)) }
    ensures made { IsMade (P.events port.old) (P.hold port.old) call.now (P.events port.new) (P.hold port.new) }
    ensures memory { IfErr result (λ stop. stop ≡ Stop.NoMemory) }
{
    match call_on(port, call) {
        Reply::Done => Ok(()),
        _ => Err(Stop::NoMemory),
    }
}

/// Makes a call that is to be answered by `Done`, where it can be refused for want of memory alone.
pub fn call_granted<P: PayloadPort>(port: &mut P, call: &Call) -> Result<(), Stop>
    requires ready { P.ready port.old }
    requires granted { IsGranted (P.events port.old) (P.hold port.old) call.now }
    ensures ready { P.ready port.new }
    ensures follows { P.follows port.old port.new }
    ensures does { OnOk result (IsCallOn (P.events port.old) (P.hold port.old) call.now Done (P.events port.new) (P.hold port.new)) }
    ensures lacks { OnErr result (LacksMemory (P.events port.old) (P.hold port.old) call.now (P.events port.new) (P.hold port.new)) }
    ensures made { IsMade (P.events port.old) (P.hold port.old) call.now (P.events port.new) (P.hold port.new) }
    ensures memory { IfErr result (λ stop. stop ≡ Stop.NoMemory) }
{
    let told = call_on(port, call);
    if let Reply::Done = told {
        return Ok(());
    }
    // No other refusal can come.
    Err(Stop::NoMemory)
}

/// Asks for a format of OUTPUT. The slot may set a format beside it.
pub fn set_format<P: PayloadPort>(port: &mut P, want: &Format) -> Result<(), Stop>
    requires { P.ready port.old }
    ensures ready { P.ready port.new }
    ensures follows { P.follows port.old port.new }
    ensures does { OnOk result (SetsFormat (P.events port.old) (P.hold port.old) want.now (P.events port.new) (P.hold port.new)) }
    ensures made { IsMade (P.events port.old) (P.hold port.old) (SetFmt Out want.now) (P.events port.new) (P.hold port.new) }
    ensures memory { IfErr result (λ stop. stop ≡ Stop.NoMemory) }
{
    let call = Call::SetFmt {
        side: Side::Out,
        want: *want,
    };
    match call_on(port, &call) {
        Reply::Fmt { .. } => Ok(()),
        _ => Err(Stop::NoMemory),
    }
}

/// Asks for buffers of a queue.
pub fn request_buffers<P: PayloadPort>(port: &mut P, side: Side, count: u32) -> Result<(), Stop>
    requires { P.ready port.old }
    ensures ready { P.ready port.new }
    ensures follows { P.follows port.old port.new }
    ensures does { OnOk result (GivesBuffers (P.events port.old) (P.hold port.old) side count (P.events port.new) (P.hold port.new)) }
    ensures made { IsMade (P.events port.old) (P.hold port.old) (ReqBufs side count) (P.events port.new) (P.hold port.new) }
    ensures memory { IfErr result (λ stop. stop ≡ Stop.NoMemory) }
{
    match call_on(port, &Call::ReqBufs { side, count }) {
        Reply::Count { .. } => Ok(()),
        _ => Err(Stop::NoMemory),
    }
}
