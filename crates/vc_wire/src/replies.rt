//! Replies as bytes.

ghost use Rattle.std.specs.Prelude.{◌≡◌, ◌<◌, ◌+◌, ◌^◌, ◌++◌, ◌∷◌, [], length, take, OnOk, OnErr};
ghost use Rattle.vc_model.specs.Messages.{number_bytes, wide_bytes};
ghost use Rattle.vc_base.specs.declared.Reply.TheVariants.{Created, Desc, Fmt, Happened, Ready, Taken};
ghost use Rattle.vc_model.specs.Wire.{claimed_reply, finished_reply, framed, reply_body, truth_byte, word_byte};
ghost use Rattle.vc_wire.specs.Replies.{HasUsed, handed_part, reply_fields, used_bytes};

use std::alloc::Global;
use vc_base::{Call, Format, Fourcc, NoMemory, Reply, Side, Stamp};

/// The most bytes that the fields of a reply have: those of a buffer that was taken.
const MOST_FIELDS: usize = 29;

/// Appends a byte.
fn put_byte(out: &mut Vec<u8>, byte: u8) -> Result<(), NoMemory>
    ensures { OnOk result (out.new.items ≡ out.old.items ++ (byte ∷ [])) }
{
    out.extend_from_slice(&[byte])?;
    Ok(())
}

/// Appends a number of 32 bits.
fn put_number(out: &mut Vec<u8>, number: u32) -> Result<(), NoMemory>
    ensures { OnOk result (out.new.items ≡ out.old.items ++ number_bytes number) }
{
    out.extend_from_slice(&number.to_be_bytes())?;
    Ok(())
}

/// Appends a number of 64 bits.
fn put_wide(out: &mut Vec<u8>, number: u64) -> Result<(), NoMemory>
    ensures { OnOk result (out.new.items ≡ out.old.items ++ wide_bytes number) }
{
    out.extend_from_slice(&number.to_be_bytes())?;
    Ok(())
}

/// Appends a truth value, which is one byte.
fn put_truth(out: &mut Vec<u8>, truth: bool) -> Result<(), NoMemory>
    ensures { OnOk result (out.new.items ≡ out.old.items ++ truth_byte truth) }
{
    put_byte(out, if truth { 1 } else { 0 })
}

// Appends the parts of a reply. Where there is no memory for one of them, those before it stay.
fn put_parts(out: &mut Vec<u8>, size: u32, fields: &[u8], payload: &[u8]) -> Result<(), NoMemory>
    ensures parts { OnOk result (out.new.items ≡ out.old.items ++ (number_bytes size ++ (fields.now ++ payload.now))) }
    ensures front { take (length out.old.items) out.new.items ≡ out.old.items }
{
    out.extend_from_slice(&size.to_be_bytes())?;
    out.extend_from_slice(fields)?;
    out.extend_from_slice(payload)?;
    Ok(())
}

/// Appends a reply from its fields and the bytes of a buffer behind them, with the length before it.
fn put_framed(out: &mut Vec<u8>, fields: &[u8], payload: &[u8]) -> Result<(), NoMemory>
    ensures reply { OnOk result (out.new.items ≡ out.old.items ++ framed (fields.now ++ payload.now)) }
    ensures short { OnOk result (length fields.now + length payload.now < 2 ^ 32) }
    ensures untold { OnErr result (out.new.items ≡ out.old.items) }
{
    let Ok(length) = u32::try_from(fields.len() + payload.len()) else {
        return Err(NoMemory);
    };
    let begin = out.len();
    if put_parts(out, length, fields, payload).is_err() {
        out.truncate(begin);
        return Err(NoMemory);
    }
    Ok(())
}

/// Appends the byte of a reply and one number.
fn put_one(out: &mut Vec<u8>, code: u8, number: u32) -> Result<(), NoMemory>
    ensures { OnOk result (out.new.items ≡ out.old.items ++ (code ∷ number_bytes number)) }
{
    put_byte(out, code)?;
    put_number(out, number)
}

/// Appends the byte of a reply and three numbers.
fn put_three(
    out: &mut Vec<u8>,
    code: u8,
    first: u32,
    second: u32,
    third: u32,
) -> Result<(), NoMemory>
    ensures { OnOk result (out.new.items ≡ out.old.items ++
        (code ∷ (number_bytes first ++ (number_bytes second ++ number_bytes third)))) }
{
    put_one(out, code, first)?;
    put_number(out, second)?;
    put_number(out, third)?;
    Ok(())
}

/// Appends the reply with a format.
fn put_format(out: &mut Vec<u8>, format: &Format) -> Result<(), NoMemory>
    ensures { OnOk result (out.new.items ≡ out.old.items ++ reply_fields (Fmt format.now)) }
{
    put_byte(out, 0x02)?;
    out.extend_from_slice(&format.fourcc.0)?;
    put_number(out, format.width)?;
    put_number(out, format.height)?;
    put_number(out, format.size)?;
    Ok(())
}

/// Appends the three truth values of a poll.
fn put_ready(out: &mut Vec<u8>, read: bool, write: bool, urgent: bool) -> Result<(), NoMemory>
    ensures { OnOk result (out.new.items ≡ out.old.items ++ reply_fields (Ready read write urgent)) }
{
    put_byte(out, 0x08)?;
    put_truth(out, read)?;
    put_truth(out, write)?;
    put_truth(out, urgent)
}

/// Appends the reply with the name of a format.
fn put_name(out: &mut Vec<u8>, fourcc: &Fourcc) -> Result<(), NoMemory>
    ensures { OnOk result (out.new.items ≡ out.old.items ++ reply_fields (Desc fourcc.now)) }
{
    put_byte(out, 0x01)?;
    out.extend_from_slice(&fourcc.0)?;
    Ok(())
}

/// Appends the reply with added buffers.
fn put_created(out: &mut Vec<u8>, index: u32, count: u32) -> Result<(), NoMemory>
    ensures { OnOk result (out.new.items ≡ out.old.items ++ reply_fields (Created index count)) }
{
    put_one(out, 0x09, index)?;
    put_number(out, count)
}

/// Appends the fields of a buffer that was taken.
fn put_taken(
    out: &mut Vec<u8>,
    index: u32,
    used: u32,
    flags: u32,
    seq: u64,
    stamp: Stamp,
) -> Result<(), NoMemory>
    ensures { OnOk result (out.new.items ≡ out.old.items ++ reply_fields (Taken index used flags seq stamp)) }
{
    put_three(out, 0x05, index, used, flags)?;
    put_wide(out, seq)?;
    put_wide(out, stamp.0)?;
    Ok(())
}

/// Appends the reply with an event.
fn put_happened(
    out: &mut Vec<u8>,
    event: u32,
    seq: u64,
    changes: u32,
    pending: u32,
) -> Result<(), NoMemory>
    ensures { OnOk result (out.new.items ≡ out.old.items ++ reply_fields (Happened event seq changes pending)) }
{
    put_one(out, 0x06, event)?;
    put_wide(out, seq)?;
    put_number(out, changes)?;
    put_number(out, pending)?;
    Ok(())
}

/// Appends the fields of a reply, without the bytes of a buffer that was taken.
fn put_fields(out: &mut Vec<u8>, reply: &Reply) -> Result<(), NoMemory>
    ensures { OnOk result (out.new.items ≡ out.old.items ++ reply_fields reply.now) }
{
    match *reply {
        Reply::Done => put_byte(out, 0x00),
        Reply::Desc { fourcc } => put_name(out, &fourcc),
        Reply::Fmt { format } => put_format(out, &format),
        Reply::Count { count } => put_one(out, 0x03, count),
        Reply::Created { index, count } => put_created(out, index, count),
        Reply::Info {
            index,
            length,
            flags,
        } => put_three(out, 0x04, index, length, flags),
        Reply::Taken {
            index,
            used,
            flags,
            seq,
            stamp,
        } => put_taken(out, index, used, flags, seq, stamp),
        Reply::Happened {
            event,
            seq,
            changes,
            pending,
        } => put_happened(out, event, seq, changes, pending),
        Reply::Value { value } => put_one(out, 0x07, value),
        Reply::Ready {
            read,
            write,
            urgent,
        } => put_ready(out, read, write, urgent),
        Reply::Refused { errno } => put_one(out, 0x40, errno.number()),
        Reply::Blocked => put_byte(out, 0x41),
    }
}

/// The bytes of the payload that a reply carries: those in use, of a buffer that was taken from CAPTURE.
fn carried<'a>(call: &Call, reply: &Reply, payload: &'a [u8]) -> &'a [u8]
    requires { HasUsed call.now reply.now payload.now }
    ensures { result.now ≡ handed_part call.now reply.now (used_bytes reply.now payload.now) }
{
    match (call, reply) {
        (
            Call::DqBuf {
                side: Side::Cap,
                ..
            },
            Reply::Taken { used, .. },
        ) => &payload[..*used as usize],
        _ => &[],
    }
}

/// Appends the reply to a call. Its payload is that of the buffer that was taken from CAPTURE, if one was.
///
/// # Errors
/// `NoMemory` where no memory is found for the reply. Then nothing was appended.
pub fn put_called(
    alloc: Global,
    out: &mut Vec<u8>,
    call: &Call,
    reply: &Reply,
    payload: &[u8],
) -> Result<(), NoMemory>
    requires { HasUsed call.now reply.now payload.now }
    ensures reply { OnOk result (out.new.items ≡ out.old.items ++ framed (reply_body call.now reply.now (used_bytes reply.now payload.now))) }
    ensures short { OnOk result (length (reply_body call.now reply.now (used_bytes reply.now payload.now)) < 2 ^ 32) }
    ensures untold { OnErr result (out.new.items ≡ out.old.items) }
{
    let mut fields = Vec::with_capacity(alloc, MOST_FIELDS)?;
    put_fields(&mut fields, reply)?;
    put_framed(out, fields.as_slice(), carried(call, reply, payload))
}

/// Appends a reply of one byte.
///
/// # Errors
/// `NoMemory` where no memory is found for the reply. Then nothing was appended.
pub fn put_short(out: &mut Vec<u8>, code: u8) -> Result<(), NoMemory>
    ensures reply { OnOk result (out.new.items ≡ out.old.items ++ framed (code ∷ [])) }
    ensures untold { OnErr result (out.new.items ≡ out.old.items) }
{
    put_framed(out, &[code], &[])
}

/// Appends the reply to a claim that took a slot.
///
/// # Errors
/// `NoMemory` where no memory is found for the reply. Then nothing was appended.
pub fn put_claimed(alloc: Global, out: &mut Vec<u8>, slot: u32) -> Result<(), NoMemory>
    ensures reply { OnOk result (out.new.items ≡ out.old.items ++ claimed_reply slot) }
    ensures untold { OnErr result (out.new.items ≡ out.old.items) }
{
    let mut fields = Vec::with_capacity(alloc, MOST_FIELDS)?;
    put_one(&mut fields, 0x50, slot)?;
    put_framed(out, fields.as_slice(), &[])
}

/// The byte of the word that says how a job ended.
fn word_byte(word: &str) -> u8
    ensures { result ≡ word_byte word.now }
{
    match word {
        "copied" => 0,
        "encoded" => 1,
        "picture" => 2,
        "damaged" => 3,
        "changed" => 4,
        "spent" => 5,
        "fault" => 6,
        _ => 7,
    }
}

/// Appends the reply to a finish, with the word that says how the job ended.
///
/// # Errors
/// `NoMemory` where no memory is found for the reply. Then nothing was appended.
pub fn put_finished(alloc: Global, out: &mut Vec<u8>, slot: u32, word: &str) -> Result<(), NoMemory>
    ensures reply { OnOk result (out.new.items ≡ out.old.items ++ finished_reply slot word.now) }
    ensures untold { OnErr result (out.new.items ≡ out.old.items) }
{
    let mut fields = Vec::with_capacity(alloc, MOST_FIELDS)?;
    put_one(&mut fields, 0x53, slot)?;
    put_byte(&mut fields, word_byte(word))?;
    put_framed(out, fields.as_slice(), &[])
}
