ghost use Rattle.std.specs.Prelude.{◌≡◌, ◌≤◌, ◌++◌, ◌∷◌, [], length, codes, decimal, OnOk, OnErr, IsTrue};
ghost use Rattle.vc_script.specs.Texts.{call_verb, takes_capture, fourcc_text, flag_text, payload_text, bit_text, answer_words, spaced, reply_text, HasUsedBytes};

use crate::fields::are_printable;
use crate::verb::Verb;
use std::alloc::Global;
use vc_base::{Call, Format, Fourcc, NoMemory, Reply, Side};

fn verb_of_call(call: &Call) -> Verb
    ensures { result ≡ call_verb call.now }
{
    match call {
        Call::Open { .. } => Verb::Open,
        Call::Close => Verb::Close,
        Call::EnumFmt { .. } => Verb::EnumFormat,
        Call::GetFmt { .. } => Verb::GetFormat,
        Call::TryFmt { .. } => Verb::TryFormat,
        Call::SetFmt { .. } => Verb::SetFormat,
        Call::ReqBufs { .. } => Verb::Request,
        Call::CreateBufs { .. } => Verb::Create,
        Call::QueryBuf { .. } => Verb::Query,
        Call::QBuf { .. } => Verb::Queue,
        Call::DqBuf { block: false, .. } => Verb::Dequeue,
        Call::DqBuf { block: true, .. } => Verb::DequeueWait,
        Call::StreamOn { .. } => Verb::On,
        Call::StreamOff { .. } => Verb::Off,
        Call::Subscribe { .. } => Verb::Subscribe,
        Call::Unsubscribe { .. } => Verb::Unsubscribe,
        Call::DqEvent { block: false } => Verb::Event,
        Call::DqEvent { block: true } => Verb::EventWait,
        Call::DecCmd { .. } => Verb::DecoderCommand,
        Call::EncCmd { .. } => Verb::EncoderCommand,
        Call::GetCtrl { .. } => Verb::GetControl,
        Call::SetCtrl { .. } => Verb::SetControl,
        Call::Poll => Verb::Poll,
    }
}

fn is_capture_taken(call: &Call) -> bool
    ensures { result ≡ takes_capture call.now }
{
    match call {
        Call::DqBuf {
            side: Side::Cap,
            ..
        } => true,
        _ => false,
    }
}

fn put_word(line: &mut Vec<u8>, word: &[u8]) -> Result<(), NoMemory>
    ensures { OnOk result (line.new.items ≡ line.old.items ++ (32 ∷ word.now)) }
{
    line.extend_from_slice(b" ")?;
    line.extend_from_slice(word)?;
    Ok(())
}

fn put_number(alloc: Global, line: &mut Vec<u8>, number: u64) -> Result<(), NoMemory>
    ensures { OnOk result (line.new.items ≡ line.old.items ++ (32 ∷ decimal number)) }
{
    let text = number.to_string(alloc)?;
    put_word(line, text.as_bytes())
}

fn put_flags(alloc: Global, line: &mut Vec<u8>, flags: u32) -> Result<(), NoMemory>
    ensures { OnOk result (line.new.items ≡ line.old.items ++ (32 ∷ flag_text flags)) }
{
    let text = format!(in alloc; "{flags:x}")?;
    put_word(line, text.as_bytes())
}

fn fourcc_word(fourcc: &Fourcc) -> &[u8]
    ensures { result.now ≡ fourcc_text fourcc.now }
{
    if are_printable(&fourcc.0) {
        &fourcc.0
    } else {
        b"????"
    }
}

fn put_bit(line: &mut Vec<u8>, bit: bool) -> Result<(), NoMemory>
    ensures { OnOk result (line.new.items ≡ line.old.items ++ (32 ∷ bit_text bit)) }
{
    put_word(line, if bit { b"1" } else { b"0" })
}

fn put_payload(
    alloc: Global,
    line: &mut Vec<u8>,
    from_capture: bool,
    used: u32,
    payload: &[u8],
) -> Result<(), NoMemory>
    requires { IsTrue from_capture → used ≤ length payload.now }
    ensures { OnOk result (line.new.items ≡ line.old.items ++ (32 ∷ payload_text from_capture used payload.now)) }
{
    if from_capture && used > 0 {
        let text = hex::encode(alloc, &payload[..used as usize])?;
        put_word(line, text.as_bytes())
    } else {
        put_word(line, b"-")
    }
}

// The word `ok` and a buffer: its index, used bytes, flags, number and stamp, and the bytes.
fn put_taken(
    alloc: Global,
    line: &mut Vec<u8>,
    from_capture: bool,
    buffer: (u32, u32, u32, u64, u64),
    payload: &[u8],
) -> Result<(), NoMemory>
    requires { IsTrue from_capture → buffer.1 ≤ length payload.now }
    ensures { OnOk result (line.new.items ≡ line.old.items ++
        spaced (codes "ok" ∷ decimal buffer.0 ∷ decimal buffer.1
        ∷ flag_text buffer.2 ∷ decimal buffer.3 ∷ decimal buffer.4
        ∷ payload_text from_capture buffer.1 payload.now ∷ [])) }
{
    let (index, used, flags, seq, stamp) = buffer;
    put_value(alloc, line, index)?;
    put_number(alloc, line, u64::from(used))?;
    put_flags(alloc, line, flags)?;
    put_number(alloc, line, seq)?;
    put_number(alloc, line, stamp)?;
    put_payload(alloc, line, from_capture, used, payload)
}

// The words `ok` and the name of a format.
fn put_name(line: &mut Vec<u8>, fourcc: &Fourcc) -> Result<(), NoMemory>
    ensures { OnOk result (line.new.items ≡ line.old.items ++ spaced (codes "ok" ∷ fourcc_text fourcc.now ∷ [])) }
{
    put_word(line, b"ok")?;
    put_word(line, fourcc_word(fourcc))
}

fn put_format(alloc: Global, line: &mut Vec<u8>, format: &Format) -> Result<(), NoMemory>
    ensures { OnOk result (line.new.items ≡ line.old.items ++
        spaced (codes "ok" ∷ fourcc_text format.now.fourcc ∷ decimal format.now.width ∷ decimal format.now.height ∷ decimal format.now.size ∷ [])) }
{
    put_name(line, &format.fourcc)?;
    put_number(alloc, line, u64::from(format.width))?;
    put_number(alloc, line, u64::from(format.height))?;
    put_number(alloc, line, u64::from(format.size))
}

// The word `ok` and a number: how many buffers there are, or the value of a control.
fn put_value(alloc: Global, line: &mut Vec<u8>, value: u32) -> Result<(), NoMemory>
    ensures { OnOk result (line.new.items ≡ line.old.items ++ spaced (codes "ok" ∷ decimal value ∷ [])) }
{
    put_word(line, b"ok")?;
    put_number(alloc, line, u64::from(value))
}

fn put_created(alloc: Global, line: &mut Vec<u8>, index: u32, count: u32) -> Result<(), NoMemory>
    ensures { OnOk result (line.new.items ≡ line.old.items ++ spaced (codes "ok" ∷ decimal index ∷ decimal count ∷ [])) }
{
    put_value(alloc, line, index)?;
    put_number(alloc, line, u64::from(count))
}

fn put_info(
    alloc: Global,
    line: &mut Vec<u8>,
    index: u32,
    size: u32,
    flags: u32,
) -> Result<(), NoMemory>
    ensures { OnOk result (line.new.items ≡ line.old.items ++ spaced (codes "ok" ∷ decimal index ∷ decimal size ∷ flag_text flags ∷ [])) }
{
    put_value(alloc, line, index)?;
    put_number(alloc, line, u64::from(size))?;
    put_flags(alloc, line, flags)
}

fn put_happened(
    alloc: Global,
    line: &mut Vec<u8>,
    event: u32,
    seq: u64,
    changes: u32,
    pending: u32,
) -> Result<(), NoMemory>
    ensures { OnOk result (line.new.items ≡ line.old.items ++ spaced (codes "ok" ∷ decimal event ∷ decimal seq ∷ decimal changes ∷ decimal pending ∷ [])) }
{
    put_value(alloc, line, event)?;
    put_number(alloc, line, seq)?;
    put_number(alloc, line, u64::from(changes))?;
    put_number(alloc, line, u64::from(pending))
}

fn put_ready(line: &mut Vec<u8>, read: bool, write: bool, urgent: bool) -> Result<(), NoMemory>
    ensures { OnOk result (line.new.items ≡ line.old.items ++ spaced (codes "ok" ∷ bit_text read ∷ bit_text write ∷ bit_text urgent ∷ [])) }
{
    put_word(line, b"ok")?;
    put_bit(line, read)?;
    put_bit(line, write)?;
    put_bit(line, urgent)
}

fn put_answer(
    alloc: Global,
    line: &mut Vec<u8>,
    call: &Call,
    reply: &Reply,
    payload: &[u8],
) -> Result<(), NoMemory>
    requires { HasUsedBytes call.now reply.now payload.now }
    ensures { OnOk result (line.new.items ≡ line.old.items ++ spaced (answer_words call.now reply.now payload.now)) }
{
    match reply {
        Reply::Done => put_word(line, b"ok"),
        Reply::Desc { fourcc } => put_name(line, fourcc),
        Reply::Fmt { format } => put_format(alloc, line, format),
        Reply::Count { count } => put_value(alloc, line, *count),
        Reply::Created { index, count } => put_created(alloc, line, *index, *count),
        Reply::Info {
            index,
            length,
            flags,
        } => put_info(alloc, line, *index, *length, *flags),
        Reply::Taken {
            index,
            used,
            flags,
            seq,
            stamp,
        } => {
            let buffer = (*index, *used, *flags, *seq, stamp.0);
            put_taken(alloc, line, is_capture_taken(call), buffer, payload)
        }
        Reply::Happened {
            event,
            seq,
            changes,
            pending,
        } => put_happened(alloc, line, *event, *seq, *changes, *pending),
        Reply::Value { value } => put_value(alloc, line, *value),
        Reply::Ready {
            read,
            write,
            urgent,
        } => put_ready(line, *read, *write, *urgent),
        Reply::Refused { errno } => put_word(line, errno.name().as_bytes()),
        Reply::Blocked => put_word(line, b"blocked"),
    }
}

/// Appends the line that answers a call: the slot, the verb of the call's line, and `ok` with what the
/// reply tells, the name of an errno, or `blocked`. Of a buffer taken from CAPTURE the used bytes follow,
/// which are the first of the payload; otherwise the payload isn't looked at. Without memory nothing is
/// appended.
#[tactic(auto, unfolding(crate::specs::Texts::reply_text))]
pub fn put_reply(
    alloc: Global,
    out: &mut Vec<u8>,
    slot: u32,
    call: &Call,
    reply: &Reply,
    payload: &[u8],
) -> Result<(), NoMemory>
    requires { HasUsedBytes call.now reply.now payload.now }
    ensures ok { OnOk result (out.new.items ≡ out.old.items ++ reply_text slot call.now reply.now payload.now) }
    ensures err { OnErr result (out.new.items ≡ out.old.items) }
{
    let number = slot.to_string(alloc)?;
    let mut line = number.into_bytes();
    put_word(&mut line, verb_of_call(call).name().as_bytes())?;
    put_answer(alloc, &mut line, call, reply, payload)?;
    line.extend_from_slice(b"\n")?;
    out.extend_from_slice(&line)?;
    Ok(())
}
