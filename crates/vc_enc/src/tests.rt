//! Calls and runs of one context, by rows. The runs are made by hand: what stands in the destination is
//! taken for a frame of eight bytes.

ghost use Rattle.std.specs.Prelude.{◌≡◌, ◌<◌, ◌≤◌, ◌+◌, ◌*◌, length};
ghost use Rattle.vc_context.specs.Contexts.{IsKept, IsCounted, is_close};
ghost use Rattle.vc_context.specs.Payloads.{FitsContext};

use super::*;
use std::process::Abort;
use std::test::Fail;
use vc_base::{Errno, Format, Fourcc, Side, Stamp};
use vc_work::{EngineFault, Outcome};

/// A step of a context: a call with its reply, a run that gives a frame, or one that the engine gives up.
#[derive(Clone, Copy, Debug)]
enum Step {
    Call(Call, Reply),
    Frame { key: bool },
    Fault,
}

fn is_close(call: &Call) -> bool
    ensures { result ≡ is_close call.now }
{
    match *call {
        Call::Close => true,
        _ => false,
    }
}

/// Makes a call, and compares the reply.
fn answer(
    rt: &impl Abort,
    alloc: Global,
    encoder: &mut Encoder,
    hold: &mut Hold,
    step: (Call, Reply),
    count: u64,
)
    requires few { count < 1000 }
    requires kept { IsKept encoder.old }
    requires fits { FitsContext encoder.old hold.old }
    requires counted { IsCounted count encoder.old }
    ensures kept { IsKept encoder.new }
    ensures fits { FitsContext encoder.new hold.new }
    ensures counted { IsCounted (count + 1) encoder.new }
{
    let (call, reply) = step;
    let closes = is_close(&call);
    assert!(rt; !closes);
    let told = encoder.answer(alloc, &call, hold);
    assert_eq!(rt; told, reply, "step {count}");
}

/// Runs a job to its end.
fn frame(rt: &impl Abort, encoder: &mut Encoder, hold: &Hold, key: bool, count: u64)
    requires few { count < 1000 }
    requires kept { IsKept encoder.old }
    requires fits { FitsContext encoder.old hold.now }
    requires counted { IsCounted count encoder.old }
    ensures kept { IsKept encoder.new }
    ensures fits { FitsContext encoder.new hold.now }
    ensures counted { IsCounted (count + 2) encoder.new }
{
    let ready = encoder.ready();
    assert!(rt; ready);
    let work = encoder.claim();
    let _ = &encoder.m2m;
    encoder.finish(work, Ok(Outcome::Encoded { used: 8, key }));
}

/// Gives a job up.
fn fault(rt: &impl Abort, encoder: &mut Encoder, hold: &Hold, count: u64)
    requires few { count < 1000 }
    requires kept { IsKept encoder.old }
    requires fits { FitsContext encoder.old hold.now }
    requires counted { IsCounted count encoder.old }
    ensures kept { IsKept encoder.new }
    ensures fits { FitsContext encoder.new hold.now }
    ensures counted { IsCounted (count + 2) encoder.new }
{
    let ready = encoder.ready();
    assert!(rt; ready);
    let work = encoder.claim();
    encoder.finish(work, Err(EngineFault));
}

/// Goes through steps with a new context.
fn play(rt: &impl Abort, alloc: Global, steps: &[Step]) -> Result<(), NoMemory>
    requires { length steps.now ≤ 100 }
{
    let mut encoder = Encoder::make(alloc)?;
    let mut hold = Hold::new();
    let mut count = 0;
    for step in steps {
        match *step {
            Step::Call(call, reply) => {
                answer(rt, alloc, &mut encoder, &mut hold, (call, reply), count);
            }
            Step::Frame { key } => frame(rt, &mut encoder, &hold, key, count),
            Step::Fault => fault(rt, &mut encoder, &hold, count),
        }
        count += 2;
    }
    Ok(())
}

/// A format, asked for or told.
fn format(fourcc: &[u8; 4], width: u32, height: u32, size: u32) -> Format {
    Format {
        fourcc: Fourcc(*fourcc),
        width,
        height,
        size,
    }
}

/// A call on a side, that is done.
fn done(call: Call) -> Step {
    Step::Call(call, Reply::Done)
}

fn refuses(call: Call, errno: Errno) -> Step {
    Step::Call(call, Reply::Refused { errno })
}

/// Makes `count` buffers.
fn req(side: Side, count: u32) -> Step {
    Step::Call(Call::ReqBufs { side, count }, Reply::Count { count })
}

/// The command START, which is 0, or STOP, which is 1.
fn command(cmd: u32) -> Call {
    Call::EncCmd { cmd }
}

fn queue(side: Side, index: u32, used: u32, stamp: u64) -> Call {
    Call::QBuf {
        side,
        index,
        used,
        stamp: Stamp(stamp),
    }
}

fn take(side: Side) -> Call {
    Call::DqBuf { side, block: false }
}

/// Takes buffer 0.
fn takes(side: Side, used: u32, flags: u32, seq: u64, stamp: u64) -> Step {
    let reply = Reply::Taken {
        index: 0,
        used,
        flags,
        seq,
        stamp: Stamp(stamp),
    };
    Step::Call(take(side), reply)
}

#[test]
fn runs_bring_frames_and_faults(rt: HostRuntime) -> Result<(), Fail> {
    let out = Side::Out;
    let cap = Side::Cap;
    let rows = [
        Step::Call(
            Call::SetFmt {
                side: out,
                want: format(b"GREY", 16, 16, 0),
            },
            Reply::Fmt {
                format: format(b"GREY", 16, 16, 256),
            },
        ),
        req(out, 1),
        req(cap, 1),
        refuses(queue(out, 0, 255, 5), Errno::Inval),
        done(queue(out, 0, 256, 5)),
        done(queue(cap, 0, 0, 0)),
        done(Call::StreamOn { side: out }),
        done(Call::StreamOn { side: cap }),
        Step::Frame { key: true },
        takes(cap, 8, 0x8, 0, 5),
        takes(out, 256, 0, 0, 5),
        done(queue(out, 0, 256, 6)),
        done(queue(cap, 0, 0, 0)),
        done(command(1)),
        Step::Frame { key: false },
        takes(out, 256, 0, 1, 6),
        takes(cap, 8, 0x10_0010, 1, 6),
        done(command(0)),
        done(queue(out, 0, 256, 7)),
        done(queue(cap, 0, 0, 0)),
        Step::Fault,
        takes(out, 256, 0x40, 2, 7),
        takes(cap, 0, 0x40, 2, 7),
        done(Call::StreamOff { side: cap }),
        done(Call::StreamOff { side: out }),
    ];
    play(&rt, rt.alloc(), &rows)?;
    Ok(())
}

#[test]
fn memory_is_asked_for_last(rt: HostRuntime) -> Result<(), Fail> {
    let encoder = Encoder::make(rt.alloc())?;
    let asked = Call::ReqBufs {
        side: Side::Cap,
        count: 1,
    };
    assert_eq!(rt; encoder.refusal(&asked), None);
    assert!(rt; !encoder.is_running() && !encoder.ready());
    Ok(())
}
