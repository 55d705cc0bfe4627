ghost use Rattle.std.specs.Prelude.{◌≡◌, []};
ghost use Rattle.vc_base.specs.declared.Call.TheVariants.{EnumFmt, ReqBufs, CreateBufs, DqBuf};
ghost use Rattle.vc_script.specs.Texts.{HasUsedBytes};

use crate::{
    Line, LineFault, next_line, number, put_busy, put_claim, put_finish, put_idle, put_no_claim,
    put_reply, read_line,
};
use std::alloc::Global;
use std::test::Fail;
use vc_base::{Call, Errno, Format, Fourcc, Kind, NoMemory, Reply, Side, Stamp};

// The call of a line among sixteen slots, and how many bytes it queues.
fn call(alloc: Global, text: &[u8]) -> Option<(u32, Call, usize)> {
    match read_line(alloc, text, 16) {
        Ok(Some(Line::Call { slot, call, bytes })) => Some((slot, call, bytes.as_slice().len())),
        _ => None,
    }
}

fn is_bad(alloc: Global, text: &[u8]) -> bool {
    match read_line(alloc, text, 16) {
        Err(LineFault::Bad) => true,
        _ => false,
    }
}

fn enumerate(side: Side, index: u32) -> Call
    ensures { result ≡ EnumFmt side index }
{
    Call::EnumFmt { side, index }
}

fn request(side: Side, count: u32) -> Call
    ensures { result ≡ ReqBufs side count }
{
    Call::ReqBufs { side, count }
}

fn create(side: Side, count: u32, length: u32) -> Call
    ensures { result ≡ CreateBufs side count length }
{
    Call::CreateBufs {
        side,
        count,
        length,
    }
}

fn queue(side: Side, index: u32, used: u32, stamp: u64) -> Call {
    Call::QBuf {
        side,
        index,
        used,
        stamp: Stamp(stamp),
    }
}

fn dequeue(side: Side, block: bool) -> Call
    ensures { result ≡ DqBuf side block }
{
    Call::DqBuf { side, block }
}

#[test]
fn good_lines_have_their_calls(rt: HostRuntime) {
    let (out, cap) = (Side::Out, Side::Cap);
    let want = Format {
        fourcc: Fourcc(*b"YU12"),
        width: 352,
        height: 288,
        size: 152_064,
    };
    let set = Call::SetFmt { side: out, want };
    let rows: [(&[u8], Call); 9] = [
        (b"3 open enc", Call::Open { kind: Kind::Enc }),
        (b"\t3  close ", Call::Close),
        (b"3 enum cap 1", enumerate(cap, 1)),
        (b"3 sfmt out YU12 00000000000000000352 288 152064", set),
        (b"3 req out 4294967295", request(out, u32::MAX)),
        (b"3 create cap 2 8192", create(cap, 2, 8192)),
        (b"3 dqw cap", dequeue(cap, true)),
        (b"3 sctl 1 17", Call::SetCtrl { id: 1, value: 17 }),
        (b"3 poll", Call::Poll),
    ];
    for (text, want) in rows {
        assert_eq!(rt; call(rt.alloc(), text), Some((3, want, 0)));
    }
}

#[test]
fn payloads_are_queued(rt: HostRuntime) {
    let (out, cap) = (Side::Out, Side::Cap);
    let rows: [(&[u8], Call, usize); 5] = [
        (
            b"3 q out 0 18446744073709551615 aa",
            queue(out, 0, 1, u64::MAX),
            1,
        ),
        (
            b"3 q out 0 1 aa*17694720",
            queue(out, 0, 17_694_720, 1),
            17_694_720,
        ),
        (b"3 q out 7 1 aA*2+0b", queue(out, 7, 3, 1), 3),
        (b"3 q out 7 1 -", queue(out, 7, 0, 1), 0),
        (b"3 q cap 2", queue(cap, 2, 0, 0), 0),
    ];
    for (text, want, used) in rows {
        assert_eq!(rt; call(rt.alloc(), text), Some((3, want, used)));
    }
}

#[test]
fn bad_lines_have_no_meaning(rt: HostRuntime) {
    let rows: [&[u8]; 16] = [
        b"0 q out 0 1 a",
        b"0 q out 0 1 aa*0",
        b"0 q out 0 1 aa*17694721",
        b"0 q out 0 1 aa+",
        b"0 q out 0 1 aa*17694720+aa",
        b"0 q out 0 18446744073709551616 aa",
        b"0 query out 4294967296",
        b"0 query out 000000000000000000001",
        b"16 poll",
        b"claim 16",
        b"0 poll 1",
        b"0 on both",
        b"0 poll\r",
        b"0 tryfmt out YU 1 1 1",
        b"0",
        b"-",
    ];
    for text in rows {
        assert!(rt; is_bad(rt.alloc(), text));
    }
    assert_eq!(rt; number(b"0010", 10), Some(10));
    assert_eq!(rt; number(b"11", 10), None);
}

// What a line without a call asks for, in short.
fn asked(alloc: Global, text: &[u8]) -> Option<(&'static str, u32)> {
    match read_line(alloc, text, 16) {
        Ok(Some(Line::Claim { worker })) => Some(("claim", worker)),
        Ok(Some(Line::Finish { worker })) => Some(("finish", worker)),
        Ok(Some(Line::Run { worker })) => Some(("run", worker)),
        Ok(None) => Some(("nothing", 0)),
        _ => None,
    }
}

#[test]
fn lines_without_a_call(rt: HostRuntime) {
    let wanted = [
        ("claim", 15),
        ("nothing", 0),
        ("nothing", 0),
        ("finish", 0),
        ("run", 7),
    ];
    let mut rest = b"claim 15\r\n# run\n \t\nfinish 0\nrun 007".as_slice();
    for line in wanted {
        assert!(rt; !rest.is_empty());
        let (first, others) = next_line(rest);
        assert_eq!(rt; asked(rt.alloc(), first), Some(line));
        rest = others;
    }
    assert!(rt; rest.is_empty());
}

// Appends the answer of slot 10 to a call that takes nothing from CAPTURE.
fn put(alloc: Global, text: &mut Vec<u8>, call: Call, reply: Reply) -> Result<(), NoMemory>
    requires { HasUsedBytes call reply [] }
{
    put_reply(alloc, text, 10, &call, &reply, b"")
}

#[test]
fn formats_are_printed(rt: HostRuntime) -> Result<(), Fail> {
    let fourcc = Fourcc(*b"FWHT");
    let format = Format {
        fourcc,
        width: 18,
        height: 17,
        size: 1388,
    };
    let open = Call::Open { kind: Kind::Copy };
    let name = Reply::Desc { fourcc };
    let get = Call::GetFmt { side: Side::Cap };
    let told = Reply::Fmt { format };
    let mut text = Vec::new(rt.alloc());
    put(rt.alloc(), &mut text, open, Reply::Done)?;
    put(rt.alloc(), &mut text, enumerate(Side::Cap, 0), name)?;
    put(rt.alloc(), &mut text, get, told)?;
    assert_eq!(rt;
        text.as_slice(),
        b"10 open ok\n10 enum ok FWHT\n10 gfmt ok FWHT 18 17 1388\n".as_slice()
    );
    Ok(())
}

#[test]
fn numbers_of_buffers_are_printed(rt: HostRuntime) -> Result<(), Fail> {
    let query = Call::QueryBuf {
        side: Side::Out,
        index: 1,
    };
    let info = Reply::Info {
        index: 1,
        length: 8192,
        flags: 2,
    };
    let count = Reply::Count { count: 32 };
    let created = Reply::Created { index: 2, count: 1 };
    let mut text = Vec::new(rt.alloc());
    put(rt.alloc(), &mut text, request(Side::Out, 40), count)?;
    put(rt.alloc(), &mut text, create(Side::Out, 1, 100), created)?;
    put(rt.alloc(), &mut text, query, info)?;
    assert_eq!(rt;
        text.as_slice(),
        b"10 req ok 32\n10 create ok 2 1\n10 query ok 1 8192 2\n".as_slice()
    );
    Ok(())
}

#[test]
fn readiness_and_refusals_are_printed(rt: HostRuntime) -> Result<(), Fail> {
    let happened = Reply::Happened {
        event: 5,
        seq: 0,
        changes: 1,
        pending: 2,
    };
    let ready = Reply::Ready {
        read: true,
        write: false,
        urgent: true,
    };
    let refused = Reply::Refused {
        errno: Errno::Inval,
    };
    let event = Call::DqEvent { block: false };
    let off = Call::StreamOff { side: Side::Cap };
    let mut text = Vec::new(rt.alloc());
    put(rt.alloc(), &mut text, event, happened)?;
    put(
        rt.alloc(),
        &mut text,
        Call::GetCtrl { id: 1 },
        Reply::Value { value: 10 },
    )?;
    put(rt.alloc(), &mut text, Call::Poll, ready)?;
    put(rt.alloc(), &mut text, Call::Subscribe { event: 2 }, refused)?;
    put(rt.alloc(), &mut text, off, Reply::Blocked)?;
    assert_eq!(rt;
        text.as_slice(),
        b"10 ev ok 5 0 1 2\n10 gctl ok 10\n10 poll ok 1 0 1\n10 sub EINVAL\n10 off blocked\n".as_slice()
    );
    Ok(())
}

#[test]
fn what_is_taken_is_printed(rt: HostRuntime) -> Result<(), Fail> {
    let taken = Reply::Taken {
        index: 5,
        used: 2,
        flags: 0x10_0008,
        seq: 7,
        stamp: Stamp(u64::MAX),
    };
    let mut text = Vec::new(rt.alloc());
    let from_capture = dequeue(Side::Cap, false);
    put_reply(
        rt.alloc(),
        &mut text,
        10,
        &from_capture,
        &taken,
        b"\xab\x01\xff",
    )?;
    put_reply(
        rt.alloc(),
        &mut text,
        10,
        &dequeue(Side::Out, true),
        &taken,
        b"",
    )?;
    assert_eq!(rt;
        text.as_slice(),
        b"10 dq ok 5 2 100008 7 18446744073709551615 ab01\n10 dqw ok 5 2 100008 7 18446744073709551615 -\n".as_slice()
    );
    Ok(())
}

#[test]
fn claims_and_finishes_are_printed(rt: HostRuntime) -> Result<(), Fail> {
    let mut text = Vec::new(rt.alloc());
    put_claim(rt.alloc(), &mut text, 3)?;
    put_no_claim(&mut text)?;
    put_busy(&mut text)?;
    put_finish(rt.alloc(), &mut text, 3, "copied")?;
    put_idle(&mut text)?;
    assert_eq!(rt;
        text.as_slice(),
        b"3 claim\n- claim none\n- claim busy\n3 finish copied\n- finish idle\n".as_slice()
    );
    Ok(())
}
