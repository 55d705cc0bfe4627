//! A table of calls and replies is gone through on slot 0 of a device with one worker.

ghost use Rattle.std.specs.Prelude.{◌≡◌, ◌<◌, length, IsTrue, None, IsSome};
ghost use Rattle.vc_base.specs.declared.Side.TheVariants.{Out};
ghost use Rattle.vc_model.specs.Devices.{slot_of, job_of};
ghost use Rattle.vc_queue.specs.Holds.{HoldState, held_payload, HasRoom};
ghost use Rattle.vc_context.specs.Payloads.{FitsSlot};

use std::alloc::Global;
use std::process::Abort;
use std::test::Fail;
use vc_base::{Call, Format, Fourcc, Kind, Reply, Side, Stamp};
use vc_core::{Core, Engine};
use vc_engine::PlainEngine;
use vc_fault::FailingEngine;
use vc_queue::hold::Hold;

/// Makes the calls of a table, and looks at each reply.
fn replies(rt: &impl Abort, device: &mut Core, hold: &mut Hold, table: &[(Call, Reply)])
    requires there { 0 < length device.old.slots }
    requires fits { FitsSlot (slot_of device.old 0) hold.old }
    ensures there { 0 < length device.new.slots }
    ensures workers { device.new.workers ≡ device.old.workers }
    ensures fits { FitsSlot (slot_of device.new 0) hold.new }
{
    for (call, reply) in table {
        assert!(rt; device.count() < 1 << 62);
        let told = device.call(0, call, hold);
        assert_eq!(rt; told, *reply);
    }
}

/// Whether the payload of the first OUTPUT buffer is held and has room for the bytes.
fn has_room(hold: &Hold, bytes: &[u8]) -> bool
    ensures { IsTrue result → HasRoom (held_payload hold.now Out 0) bytes.now }
{
    match hold.payload(Side::Out, 0) {
        Some(payload) => bytes.len() <= payload.len(),
        None => false,
    }
}

/// Puts bytes into the first OUTPUT buffer, where it is held and has room for them.
fn fill(device: &Core, hold: &mut Hold, bytes: &[u8]) -> bool
    requires fits { FitsSlot (slot_of device.now 0) hold.old }
    ensures fits { FitsSlot (slot_of device.now 0) hold.new }
{
    if has_room(hold, bytes) {
        hold.write(Side::Out, 0, bytes);
        return true;
    }
    false
}

/// Whether the payload of the first CAPTURE buffer is held and begins with the two bytes.
fn begins_with(hold: &Hold, first: u8, second: u8) -> bool {
    match hold.payload(Side::Cap, 0) {
        Some(payload) => payload.len() >= 2 && payload[0] == first && payload[1] == second,
        None => false,
    }
}

/// Runs the next job by worker 0, and says how it ended. The worker has no job then.
fn run<E: Engine>(rt: &impl Abort, device: &mut Core, engine: &mut E) -> Option<&'static str>
    requires worker { 0 < length device.old.workers }
    requires free { job_of device.old 0 ≡ None }
    ensures slots { length device.new.slots ≡ length device.old.slots }
    ensures workers { length device.new.workers ≡ length device.old.workers }
    ensures free { IsSome result → job_of device.new 0 ≡ None }
    ensures fits { (hold : HoldState) → FitsSlot (slot_of device.old 0) hold → FitsSlot (slot_of device.new 0) hold }
{
    assert!(rt; device.count() < 1 << 61);
    let job = device.claim(0)?;
    let finished = job.run(engine);
    let word = finished.word();
    device.finish(0, finished);
    Some(word)
}

const QUEUED: [(Call, Reply); 4] = [
    (
        Call::QBuf {
            side: Side::Out,
            index: 0,
            used: 2,
            stamp: Stamp(7),
        },
        Reply::Done,
    ),
    (
        Call::QBuf {
            side: Side::Cap,
            index: 0,
            used: 0,
            stamp: Stamp(0),
        },
        Reply::Done,
    ),
    (Call::StreamOn { side: Side::Out }, Reply::Done),
    (Call::StreamOn { side: Side::Cap }, Reply::Done),
];

const OPENED: [(Call, Reply); 3] = [
    (Call::Open { kind: Kind::Copy }, Reply::Done),
    (
        Call::ReqBufs {
            side: Side::Out,
            count: 1,
        },
        Reply::Count { count: 1 },
    ),
    (
        Call::ReqBufs {
            side: Side::Cap,
            count: 1,
        },
        Reply::Count { count: 1 },
    ),
];

/// A device of one closed slot and one worker, and a user who holds nothing.
fn fresh(rt: &impl Abort, alloc: Global) -> (Core, Hold)
    ensures there { 0 < length result.0.slots }
    ensures worker { 0 < length result.0.workers }
    ensures free { job_of result.0 0 ≡ None }
    ensures fits { FitsSlot (slot_of result.0 0) result.1 }
{
    let device = Core::make(alloc, 1, 1).expect(rt, "memory");
    let hold = Hold::new();
    (device, hold)
}

/// A device of one slot and one worker, with a copying context whose only buffers are queued: two bytes on
/// OUTPUT, with the stamp 7.
fn streaming(rt: &impl Abort, alloc: Global) -> (Core, Hold)
    ensures there { 0 < length result.0.slots }
    ensures worker { 0 < length result.0.workers }
    ensures free { job_of result.0 0 ≡ None }
    ensures fits { FitsSlot (slot_of result.0 0) result.1 }
{
    let (mut device, mut hold) = fresh(rt, alloc);
    replies(rt, &mut device, &mut hold, &OPENED);
    assert!(rt; fill(&device, &mut hold, &[0, 255]));
    replies(rt, &mut device, &mut hold, &QUEUED);
    (device, hold)
}

/// The reply of DqBuf with the only buffer of a queue.
fn taken(used: u32, flags: u32) -> Reply {
    Reply::Taken {
        index: 0,
        used,
        flags,
        seq: 0,
        stamp: Stamp(7),
    }
}

/// DqBuf without waiting.
fn take(side: Side) -> Call {
    Call::DqBuf { side, block: false }
}

#[test]
fn what_is_queued_comes_out(rt: HostRuntime) -> Result<(), Fail> {
    let (mut device, mut hold) = streaming(&rt, rt.alloc());
    let mut engine = PlainEngine::new();
    assert_eq!(rt; run(&rt, &mut device, &mut engine), Some("copied"));
    let table = [
        (take(Side::Cap), taken(2, 0)),
        (take(Side::Out), taken(2, 0)),
    ];
    replies(&rt, &mut device, &mut hold, &table);
    assert!(rt; begins_with(&hold, 0, 255));
    Ok(())
}

#[test]
fn a_fault_comes_out_as_an_error(rt: HostRuntime) -> Result<(), Fail> {
    let (mut device, mut hold) = streaming(&rt, rt.alloc());
    let mut engine = FailingEngine::make(vec![in rt.alloc(); 0]?, PlainEngine::new());
    assert_eq!(rt; run(&rt, &mut device, &mut engine), Some("fault"));
    assert_eq!(rt; engine.faults(), 1);
    let table = [
        (take(Side::Cap), taken(0, 64)),
        (take(Side::Out), taken(2, 64)),
    ];
    replies(&rt, &mut device, &mut hold, &table);
    Ok(())
}

/// A grey I frame of 16 times 16 samples 128.
const FRAME: [u8; 48] = [
    0x4f, 0x4f, 0x4f, 0x4f, 0xff, 0xff, 0xff, 0xff, 0, 0, 0, 3, 0, 0, 0, 16, 0, 0, 0, 16, 0, 8, 4,
    0, //
    0, 0, 0, 0, 0, 0, 0, 0, 0, 0, 0, 0, 0, 0, 0, 0, 0, 0, 0, 4, 0, 6, 0, 15,
];

/// A format of 16 by 16 samples.
fn small(fourcc: [u8; 4], size: u32) -> Format {
    Format {
        fourcc: Fourcc(fourcc),
        width: 16,
        height: 16,
        size,
    }
}

/// A decoder's OUTPUT gets one buffer of 600 bytes.
fn fed() -> [(Call, Reply); 3] {
    [
        (Call::Open { kind: Kind::Dec }, Reply::Done),
        (
            Call::SetFmt {
                side: Side::Out,
                want: small(*b"FWHT", 600),
            },
            Reply::Fmt {
                format: small(*b"FWHT", 600),
            },
        ),
        (
            Call::ReqBufs {
                side: Side::Out,
                count: 1,
            },
            Reply::Count { count: 1 },
        ),
    ]
}

/// The frame is queued there.
const PROBED: [(Call, Reply); 2] = [
    (
        Call::QBuf {
            side: Side::Out,
            index: 0,
            used: 48,
            stamp: Stamp(7),
        },
        Reply::Done,
    ),
    (Call::StreamOn { side: Side::Out }, Reply::Done),
];

/// The geometry is known, and CAPTURE gets a buffer.
fn found() -> [(Call, Reply); 4] {
    [
        (
            Call::GetFmt { side: Side::Cap },
            Reply::Fmt {
                format: small(*b"GREY", 256),
            },
        ),
        (
            Call::ReqBufs {
                side: Side::Cap,
                count: 1,
            },
            Reply::Count { count: 1 },
        ),
        (
            Call::QBuf {
                side: Side::Cap,
                index: 0,
                used: 0,
                stamp: Stamp(0),
            },
            Reply::Done,
        ),
        (Call::StreamOn { side: Side::Cap }, Reply::Done),
    ]
}

#[test]
fn a_frame_becomes_its_picture(rt: HostRuntime) -> Result<(), Fail> {
    let (mut device, mut hold) = fresh(&rt, rt.alloc());
    let mut engine = PlainEngine::new();
    replies(&rt, &mut device, &mut hold, &fed());
    assert!(rt; fill(&device, &mut hold, &FRAME));
    replies(&rt, &mut device, &mut hold, &PROBED);
    let Some(word) = run(&rt, &mut device, &mut engine) else {
        return Err(Fail::new("no probe"));
    };
    assert_eq!(rt; word, "changed");
    replies(&rt, &mut device, &mut hold, &found());
    assert_eq!(rt; run(&rt, &mut device, &mut engine), Some("picture"));
    let table = [
        (take(Side::Cap), taken(256, 8)),
        (take(Side::Out), taken(48, 0)),
    ];
    replies(&rt, &mut device, &mut hold, &table);
    assert!(rt; begins_with(&hold, 128, 128));
    Ok(())
}
