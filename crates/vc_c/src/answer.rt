//! Answers one message into the room that C gives.

ghost use Rattle.std.specs.Prelude.{◌≡◌, ◌<◌, ◌≤◌, ◌^◌, ◌++◌, ℕ, List, length, drop};
ghost use Rattle.vc_base.specs.Device.{DeviceEvent};
ghost use Rattle.vc_model.specs.Messages.{asked_in};
ghost use Rattle.vc_desk.specs.Desks.{IsDesk, IsSomeDesk};
ghost use Rattle.vc_c.specs.Calls.{AnswersOn, room_for};

use crate::status::Status;
use std::alloc::Global;
use vc_base::limits::{LONGEST_BUFFER, LONGEST_MESSAGE};
use vc_base::{Call, Side};
use vc_desk::Desk;
use vc_lanes::LaneEngine;
use vc_wire::answer_body;
use vc_wire::requests::{Request, request_in};

/// The bytes of a reply at most, without those that a call took from CAPTURE.
const SHORT_ROOM: usize = 29;

/// The bytes of any reply at most.
const ROOM: usize = SHORT_ROOM + LONGEST_BUFFER as usize;

/// The bytes of the length that a reply begins with.
const LENGTH_SIZE: usize = 4;

/// The steps that a device makes at most.
const MOST_STEPS: u64 = 1 << 62;

/// The room that the reply to a body may need.
fn room_for(desk: &Desk, body: &[u8]) -> usize
    requires desk { IsSomeDesk desk.now }
    requires body { length body.now < 2 ^ 32 }
    ensures { (n : ℕ) (history : List DeviceEvent) → IsDesk n history desk.now → result ≡ room_for (asked_in n body.now) }
{
    match request_in(desk.holds.len() as u32, body) {
        Some(
            Request::Call {
                call: Call::DqBuf {
                    side: Side::Cap,
                    ..
                },
                ..
            },
        ) => ROOM,
        _ => SHORT_ROOM,
    }
}

/// What stands behind the length of a reply.
fn behind_length(reply: &[u8]) -> &[u8]
    ensures { result.now ≡ drop 4 reply.now }
{
    reply.get(LENGTH_SIZE..).unwrap_or(&[])
}

/// Copies bytes to the front of the room.
fn put_front(bytes: &[u8], room: &mut [u8])
    requires { length bytes.now ≤ length room.old }
    ensures { room.new ≡ bytes.now ++ drop (length bytes.now) room.old }
{
    room[..bytes.len()].copy_from_slice(bytes);
}

/// Answers the body of a message on a desk, and writes the reply to the front of the room. Tells its size, or the room that it
/// wants.
pub fn answer_on(
    alloc: Global,
    desk: &mut Desk,
    body: &[u8],
    room: &mut [u8],
    size: &mut usize,
) -> Status
    requires desk { IsSomeDesk desk.old }
    ensures answers { AnswersOn body.now (record { before = room.old; now = room.new; size = size.new }) desk.old desk.new result }
    ensures desk { IsSomeDesk desk.new }
{
    *size = 0;
    if body.is_empty() || (LONGEST_MESSAGE as usize) < body.len() {
        return Status::BadLength;
    }
    if MOST_STEPS <= desk.core.count() {
        return Status::TooManySteps;
    }
    let wanted = room_for(desk, body);
    if room.len() < wanted {
        *size = wanted;
        return Status::WantsRoom;
    }
    let mut engine = LaneEngine::new();
    let mut out = Vec::new(alloc);
    let Ok(_) = answer_body(alloc, desk, body, &mut engine, &mut out) else {
        return Status::NoMemory;
    };
    let reply = behind_length(&out);
    if room.len() < reply.len() {
        return Status::NoMemory;
    }
    put_front(reply, room);
    *size = reply.len();
    Status::Done
}
