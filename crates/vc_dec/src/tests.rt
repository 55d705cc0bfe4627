//! Calls on one context, by tables of calls and replies.

ghost use Rattle.std.specs.Prelude.{◌<◌, ◌+◌, length, IfOk};
ghost use Rattle.vc_context.specs.Contexts.{IsKept, IsCounted};
ghost use Rattle.vc_context.specs.Payloads.{FitsContext};

mod ends;

use super::*;
use std::process::Abort;
use std::test::Fail;
use vc_base::{Side, Stamp};
use vc_work::{Sort, Work};

/// Makes a call after so many other ones. Close is not for the context itself.
fn ask(alloc: Global, decoder: &mut Decoder, hold: &mut Hold, before: usize, call: &Call) -> Reply
    requires few { before < 1000 }
    requires kept { IsKept decoder.old }
    requires fits { FitsContext decoder.old hold.old }
    requires counted { IsCounted before decoder.old }
    ensures kept { IsKept decoder.new }
    ensures fits { FitsContext decoder.new hold.new }
    ensures counted { IsCounted (before + 1) decoder.new }
{
    match *call {
        Call::Close => Reply::Blocked,
        _ => decoder.answer(alloc, call, hold),
    }
}

/// Makes the calls of a table on a fresh context, and looks at each reply.
fn replies(rt: &impl Abort, alloc: Global, table: &[(Call, Reply)]) -> Result<Decoder, NoMemory>
    requires { length table.now < 1000 }
    ensures { IfOk result (λ d. IsKept d) }
{
    let mut decoder = Decoder::make(alloc)?;
    let mut hold = Hold::new();
    for (before, (call, reply)) in table.iter().enumerate() {
        let told = ask(alloc, &mut decoder, &mut hold, before, call);
        assert_eq!(rt; told, *reply, "call {before}");
    }
    Ok(decoder)
}

/// The work of the job that is due.
fn claimed(rt: &impl Abort, decoder: &mut Decoder) -> Work
    requires { IsKept decoder.old }
{
    let ready = decoder.ready();
    assert!(rt; ready);
    decoder.claim()
}

const DONE: Reply = Reply::Done;

#[test]
fn a_probe_takes_the_front_of_output(rt: HostRuntime) -> Result<(), Fail> {
    let side = Side::Out;
    let queued = Call::QBuf {
        side,
        index: 1,
        used: 44,
        stamp: Stamp(7),
    };
    let table = [
        (Call::ReqBufs { side, count: 2 }, Reply::Count { count: 2 }),
        (queued, DONE),
        (Call::StreamOn { side }, DONE),
    ];
    let mut decoder = replies(&rt, rt.alloc(), &table)?;
    let work = claimed(&rt, &mut decoder);
    assert!(rt; work.sort == Sort::Probe && work.dest.is_none() && work.reference.is_none());
    assert!(rt; work.source.used == 44 && work.source.stamp == Stamp(7));
    assert!(rt; work.assembly.is_some() && work.limit == 202_796);
    assert!(rt; decoder.is_running() && !decoder.ready());
    Ok(())
}

#[test]
fn memory_is_asked_for_last(rt: HostRuntime) -> Result<(), Fail> {
    let decoder = Decoder::make(rt.alloc())?;
    let asked = Call::ReqBufs {
        side: Side::Cap,
        count: 1,
    };
    assert_eq!(rt; decoder.refusal(&asked), None);
    assert!(rt; !decoder.is_running() && !decoder.ready());
    Ok(())
}
