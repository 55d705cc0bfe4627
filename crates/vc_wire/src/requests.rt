//! What the body of a message asks for.

ghost use Rattle.std.specs.Prelude.{◌≡◌, ◌≤◌, ◌<◌, ◌==◌, ◌≢◌, ◌⊎◌, ◌^◌, length, is_some, IfSome, Some, if◌then◌else◌, None};
ghost use Rattle.std.specs.List.{list_all};
ghost use Rattle.vc_base.specs.declared.Call.TheVariants.{CreateBufs, EnumFmt, GetFmt, QueryBuf, ReqBufs, SetCtrl, SetFmt, StreamOff, StreamOn, TryFmt, DqBuf, QBuf};
ghost use Rattle.vc_base.specs.declared.Side.TheVariants.{Cap};
ghost use Rattle.vc_base.specs.Buffers.{zero_stamp};
ghost use Rattle.vc_model.specs.Messages.{asked_in, call_in, format_at, is_fourcc, kind_of, number_at, on_format, on_side, payload_in, queue_output, side_of, sized, with_kind};
ghost use Rattle.vc_wire.specs.Requests.{asked_by_request, IsInRange};

use crate::numbers::{number_at, wide_at};
use vc_base::limits::SCRIPT_WORKERS;
use vc_base::{Call, Format, Fourcc, Kind, Side, Stamp};

/// The bytes of an operation and a slot, before the fields of a call.
const HEAD_SIZE: usize = 5;

/// The bytes before the payload of a QBuf on OUTPUT: the head, an index and a stamp.
const QUEUE_SIZE: usize = 17;

/// A side by its number.
fn side(number: u32) -> Option<Side>
    ensures { result ≡ side_of number }
{
    match number {
        0 => Some(Side::Out),
        1 => Some(Side::Cap),
        _ => None,
    }
}

/// A kind by its number.
fn kind(number: u32) -> Option<Kind>
    ensures { result ≡ kind_of number }
{
    match number {
        0 => Some(Kind::Copy),
        1 => Some(Kind::Enc),
        2 => Some(Kind::Dec),
        _ => None,
    }
}

/// Whether all bytes may stand in the name of a format: from `!` to `~`.
fn is_fourcc(bytes: &[u8]) -> bool
    ensures { result ≡ is_fourcc bytes.now }
{
    bytes.iter().all(|byte| 33 <= *byte && *byte <= 126)
}

/// The format that begins at byte 9 of a body.
fn format(body: &[u8]) -> Option<Format>
    requires { 25 ≤ length body.now }
    ensures { result ≡ format_at body.now 9 }
{
    let mut name = [0u8; 4];
    name.copy_from_slice(&body[9..13]);
    if !is_fourcc(&name) {
        return None;
    }
    Some(Format {
        fourcc: Fourcc(name),
        width: number_at(body, 13),
        height: number_at(body, 17),
        size: number_at(body, 21),
    })
}

/// A call without fields.
fn plain(body: &[u8], call: Call) -> Option<Call>
    ensures { result ≡ sized 5 body.now (Some call) }
{
    if body.len() == HEAD_SIZE {
        Some(call)
    } else {
        None
    }
}

/// The one field of a body that has one.
fn one_field(body: &[u8]) -> Option<u32>
    ensures size { is_some result ≡ (length body.now == 9) }
    ensures value { IfSome result (λ n. n ≡ number_at body.now 5) }
{
    if body.len() == 9 {
        Some(number_at(body, 5))
    } else {
        None
    }
}

/// The side of a body of this size, which it names in its first field.
fn side_in(body: &[u8], size: usize) -> Option<Side>
    requires { 9 ≤ size }
    ensures size { IfSome result (λ side. length body.now ≡ size) }
    ensures side { result ≡ (if length body.now == size then side_of (number_at body.now 5) else None) }
{
    if body.len() == size {
        side(number_at(body, 5))
    } else {
        None
    }
}

fn open(body: &[u8]) -> Option<Call>
    ensures { result ≡ sized 9 body.now (with_kind body.now) }
{
    if body.len() != 9 {
        return None;
    }
    let kind = kind(number_at(body, 5))?;
    Some(Call::Open { kind })
}

fn enum_format(body: &[u8]) -> Option<Call>
    ensures { result ≡ sized 13 body.now (on_side body.now (λ side. EnumFmt side (number_at body.now 9))) }
{
    let side = side_in(body, 13)?;
    let index = number_at(body, 9);
    Some(Call::EnumFmt { side, index })
}

fn get_format(body: &[u8]) -> Option<Call>
    ensures { result ≡ sized 9 body.now (on_side body.now (λ side. GetFmt side)) }
{
    let side = side_in(body, 9)?;
    Some(Call::GetFmt { side })
}

fn try_format(body: &[u8]) -> Option<Call>
    ensures { result ≡ sized 25 body.now (on_format body.now (λ side format. TryFmt side format)) }
{
    let side = side_in(body, 25)?;
    let want = format(body)?;
    Some(Call::TryFmt { side, want })
}

fn set_format(body: &[u8]) -> Option<Call>
    ensures { result ≡ sized 25 body.now (on_format body.now (λ side format. SetFmt side format)) }
{
    let side = side_in(body, 25)?;
    let want = format(body)?;
    Some(Call::SetFmt { side, want })
}

fn request_buffers(body: &[u8]) -> Option<Call>
    ensures { result ≡ sized 13 body.now (on_side body.now (λ side. ReqBufs side (number_at body.now 9))) }
{
    let side = side_in(body, 13)?;
    let count = number_at(body, 9);
    Some(Call::ReqBufs { side, count })
}

fn create_buffers(body: &[u8]) -> Option<Call>
    ensures { result ≡ sized 17 body.now (on_side body.now (λ side. CreateBufs side (number_at body.now 9) (number_at body.now 13))) }
{
    let side = side_in(body, 17)?;
    let count = number_at(body, 9);
    let length = number_at(body, 13);
    Some(Call::CreateBufs {
        side,
        count,
        length,
    })
}

fn query_buffer(body: &[u8]) -> Option<Call>
    ensures { result ≡ sized 13 body.now (on_side body.now (λ side. QueryBuf side (number_at body.now 9))) }
{
    let side = side_in(body, 13)?;
    let index = number_at(body, 9);
    Some(Call::QueryBuf { side, index })
}

fn queue_output(body: &[u8]) -> Option<Call>
    requires { length body.now < 2 ^ 32 }
    ensures { result ≡ queue_output body.now }
{
    if body.len() < QUEUE_SIZE {
        return None;
    }
    Some(Call::QBuf {
        side: Side::Out,
        index: number_at(body, 5),
        used: (body.len() - QUEUE_SIZE) as u32,
        stamp: Stamp(wide_at(body, 9)),
    })
}

fn dequeue(body: &[u8], block: bool) -> Option<Call>
    ensures { result ≡ sized 9 body.now (on_side body.now (λ side. DqBuf side block)) }
{
    let side = side_in(body, 9)?;
    Some(Call::DqBuf { side, block })
}

fn stream_on(body: &[u8]) -> Option<Call>
    ensures { result ≡ sized 9 body.now (on_side body.now (λ side. StreamOn side)) }
{
    let side = side_in(body, 9)?;
    Some(Call::StreamOn { side })
}

fn stream_off(body: &[u8]) -> Option<Call>
    ensures { result ≡ sized 9 body.now (on_side body.now (λ side. StreamOff side)) }
{
    let side = side_in(body, 9)?;
    Some(Call::StreamOff { side })
}

fn set_control(body: &[u8]) -> Option<Call>
    ensures { result ≡ sized 13 body.now (Some (SetCtrl (number_at body.now 5) (number_at body.now 9))) }
{
    if body.len() != 13 {
        return None;
    }
    Some(Call::SetCtrl {
        id: number_at(body, 5),
        value: number_at(body, 9),
    })
}

/// What a message asks for: a call on a slot, or what a worker does.
#[derive(Clone, Copy, Debug, PartialEq, Eq)]
pub enum Request {
    Call { slot: u32, call: Call },
    Claim { worker: u32 },
    Finish { worker: u32 },
}

fn queue_capture(body: &[u8]) -> Option<Call>
    ensures { result ≡ sized 9 body.now (Some (QBuf Cap (number_at body.now 5) 0 zero_stamp)) }
{
    let index = one_field(body)?;
    Some(Call::QBuf {
        side: Side::Cap,
        index,
        used: 0,
        stamp: Stamp(0),
    })
}

/// The call of an operation with one number.
fn numbered(code: u8, body: &[u8]) -> Option<Call>
    requires { (code < 1 ⊎ 14 < code) × (code ≢ 0x11) × (code ≢ 0x12) × (code ≢ 0x16) × (code ≢ 0x17) × (code ≢ 0x18) }
    ensures { result ≡ call_in code body.now }
{
    let number = one_field(body)?;
    match code {
        0x0f => Some(Call::Subscribe { event: number }),
        0x10 => Some(Call::Unsubscribe { event: number }),
        0x13 => Some(Call::DecCmd { cmd: number }),
        0x14 => Some(Call::EncCmd { cmd: number }),
        0x15 => Some(Call::GetCtrl { id: number }),
        _ => None,
    }
}

/// The call that a body with this operation asks for.
fn call_in(code: u8, body: &[u8]) -> Option<Call>
    requires { length body.now < 2 ^ 32 }
    ensures { result ≡ call_in code body.now }
{
    match code {
        0x01 => open(body),
        0x02 => plain(body, Call::Close),
        0x03 => enum_format(body),
        0x04 => get_format(body),
        0x05 => try_format(body),
        0x06 => set_format(body),
        0x07 => request_buffers(body),
        0x08 => query_buffer(body),
        0x09 => queue_output(body),
        0x0a => queue_capture(body),
        0x0b => dequeue(body, false),
        0x0c => dequeue(body, true),
        0x0d => stream_on(body),
        0x0e => stream_off(body),
        0x11 => plain(body, Call::DqEvent { block: false }),
        0x12 => plain(body, Call::DqEvent { block: true }),
        0x16 => set_control(body),
        0x17 => plain(body, Call::Poll),
        0x18 => create_buffers(body),
        _ => numbered(code, body),
    }
}

/// What the body of a message asks of a device of so many slots; nothing where it is out of the table, or its slot or
/// worker out of range.
pub fn request_in(slots: u32, body: &[u8]) -> Option<Request>
    requires { length body.now < 2 ^ 32 }
    ensures asked { asked_by_request result body.now ≡ asked_in slots body.now }
    ensures range { IfSome result (λ request. IsInRange slots request) }
{
    if body.len() < HEAD_SIZE {
        return None;
    }
    let number = number_at(body, 1);
    match body[0] {
        0x20 => {
            if body.len() == HEAD_SIZE && number < SCRIPT_WORKERS {
                Some(Request::Claim { worker: number })
            } else {
                None
            }
        }
        0x21 => {
            if body.len() == HEAD_SIZE && number < SCRIPT_WORKERS {
                Some(Request::Finish { worker: number })
            } else {
                None
            }
        }
        code => {
            if number >= slots {
                return None;
            }
            let call = call_in(code, body)?;
            Some(Request::Call { slot: number, call })
        }
    }
}

/// The bytes that a call queues, which lie behind its fields.
pub fn payload_in<'a>(call: &Call, body: &'a [u8]) -> &'a [u8]
    ensures { result.now ≡ payload_in call.now body.now }
{
    match call {
        Call::QBuf {
            side: Side::Out,
            ..
        } => body.get(QUEUE_SIZE..).unwrap_or(&[]),
        _ => &[],
    }
}
