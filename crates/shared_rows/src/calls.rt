//! The calls of a copying context with one buffer on each queue, through a handle.

ghost use Rattle.std.specs.Prelude.{◌≡◌, ◌≤◌, IsTrue};
ghost use Rattle.vc_base.specs.declared.Side.TheVariants.{Out};
ghost use Rattle.vc_queue.specs.Holds.{held_payload, HasRoom};
ghost use Rattle.vc_shared.specs.Following.{HandleFollows};

use std::sync::Wait;
use vc_base::{Call, Kind, Reply, Side, Stamp};
use vc_port::PayloadPort;
use vc_shared::{Handle, HandleSeat, Shared};

/// Makes the calls of a table, and says whether each was replied to as the table has it.
pub(crate) fn replies<'a, R: Wait + Sync>(
    handle: &mut Handle<'a, R>,
    table: &[(Call, Reply)],
) -> bool
    ensures { HandleFollows handle.old handle.new }
{
    let mut right = true;
    for (call, reply) in table {
        let told = handle.call(call);
        right = right && told == *reply;
    }
    right
}

/// Whether the payload of the first OUTPUT buffer is held and has room for the bytes.
fn has_room<'a, R>(handle: &Handle<'a, R>, bytes: &[u8]) -> bool
    ensures { IsTrue result → HasRoom (held_payload handle.now.hold Out 0) bytes.now }
{
    match handle.payload(Side::Out, 0) {
        Some(payload) => bytes.len() <= payload.len(),
        None => false,
    }
}

/// Puts bytes into the first OUTPUT buffer, where it is held and has room for them.
fn fill<'a, R>(handle: &mut Handle<'a, R>, bytes: &[u8]) -> bool
    ensures { HandleFollows handle.old handle.new }
{
    if has_room(handle, bytes) {
        handle.fill(Side::Out, 0, bytes);
        return true;
    }
    false
}

/// Whether the payload of the first CAPTURE buffer is held and begins with the two bytes.
pub(crate) fn begins_with<P: PayloadPort>(port: &P, bytes: [u8; 2]) -> bool {
    match port.payload(Side::Cap, 0) {
        Some(payload) => { payload.len() >= 2 && payload[0] == bytes[0] && payload[1] == bytes[1] }
        None => false,
    }
}

const OPENED: [(Call, Reply); 3] = [
    (Call::Open { kind: Kind::Copy }, Reply::Done),
    (
        Call::ReqBufs {
            side: Side::Out,
            count: 1,
        },
        Reply::Count { count: 1 },
    ),
    (
        Call::ReqBufs {
            side: Side::Cap,
            count: 1,
        },
        Reply::Count { count: 1 },
    ),
];

const QUEUED: [(Call, Reply); 4] = [
    (
        Call::QBuf {
            side: Side::Out,
            index: 0,
            used: 2,
            stamp: Stamp(7),
        },
        Reply::Done,
    ),
    (
        Call::QBuf {
            side: Side::Cap,
            index: 0,
            used: 0,
            stamp: Stamp(0),
        },
        Reply::Done,
    ),
    (Call::StreamOn { side: Side::Out }, Reply::Done),
    (Call::StreamOn { side: Side::Cap }, Reply::Done),
];

/// The reply of DqBuf with the only buffer of a queue, of which two bytes are used.
pub(crate) const TAKEN: Reply = Reply::Taken {
    index: 0,
    used: 2,
    flags: 0,
    seq: 0,
    stamp: Stamp(7),
};

/// Opens a copying context in the slot and queues its only buffers, with these bytes and the stamp 7: seven calls.
pub(crate) fn begin<R: Wait + Sync>(
    rt: &R,
    shared: &Shared,
    seat: HandleSeat,
    bytes: [u8; 2],
) -> (HandleSeat, bool)
    requires { seat.device.lock ≡ shared.now }
    ensures { HandleFollows seat result.0 }
{
    let mut handle = Handle::new(rt, shared, seat);
    let opened = replies(&mut handle, &OPENED);
    let filled = fill(&mut handle, &bytes);
    let queued = replies(&mut handle, &QUEUED);
    (handle.into_seat(), opened && filled && queued)
}
