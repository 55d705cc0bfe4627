//! Scripts over encoder contexts.

use crate::tests::{Failing, joined, run};
use std::test::Fail;
use vc_base::NoMemory;
use vc_top::Status;

/// Scripts without a run, and what they print: formats and controls; a drain of an encoder with nothing
/// queued, what comes after its end, and START; a drain that waits for CAPTURE.
const QUIET: [(&str, &str); 3] = [
    (
        "0 open enc\n0 gfmt out\n0 gfmt cap\n0 enum out 3\n0 enum out 4\n0 enum cap 1\n\
            0 sfmt out YUYV 17 17 0\n0 gfmt cap\n0 tryfmt out ZZZZ 1 1 0\n\
            0 tryfmt out GREY 5000 5000 0\n0 gctl 1\n0 sctl 1 17\n0 sctl 5 1\n0 gctl 5\n0 gctl 4\n\
            0 sctl 2 31\n0 gctl 2\n0 create cap 1 2000\n0 sfmt out GREY 16 16 0\n",
        "0 open ok\n0 gfmt ok YU12 352 288 152064\n0 gfmt ok FWHT 352 288 152108\n0 enum ok YUYV\n\
            0 enum EINVAL\n0 enum EINVAL\n0 sfmt ok YUYV 18 17 612\n0 gfmt ok FWHT 18 17 1388\n\
            0 tryfmt ok YU12 16 16 384\n0 tryfmt ok GREY 4096 2160 8847360\n0 gctl ok 10\n\
            0 sctl EINVAL\n0 sctl EINVAL\n0 gctl ok 1\n0 gctl EINVAL\n0 sctl ok\n0 gctl ok 31\n\
            0 create ok 0 1\n0 sfmt EBUSY\n",
    ),
    (
        "0 open enc\n0 req out 1\n0 req cap 1\n0 on out\n0 on cap\n0 sub 2\n0 ecmd 1\n0 ecmd 1\n\
            0 ecmd 0\n0 dq cap\n0 q cap 0\n0 dq cap\n0 ev\n0 ev\n0 dq cap\n0 poll\n0 ecmd 1\n\
            0 ecmd 0\n0 q cap 0\n0 dq cap\n0 dqw cap\n0 ecmd 7\n0 dcmd 0\n",
        "0 open ok\n0 req ok 1\n0 req ok 1\n0 on ok\n0 on ok\n0 sub ok\n0 ecmd ok\n0 ecmd EBUSY\n\
            0 ecmd EBUSY\n0 dq EAGAIN\n0 q ok\n0 dq ok 0 0 100000 0 0 -\n0 ev ok 2 0 0 0\n\
            0 ev ENOENT\n0 dq EPIPE\n0 poll ok 1 0 0\n0 ecmd ok\n0 ecmd ok\n0 q ok\n0 dq EAGAIN\n\
            0 dqw blocked\n0 ecmd EINVAL\n0 dcmd ENOTTY\n",
    ),
    (
        "0 open enc\n0 req out 1\n0 req cap 1\n0 on out\n0 ecmd 1\n0 on cap\n0 q cap 0\n0 dq cap\n0 req out 1\n",
        "0 open ok\n0 req ok 1\n0 req ok 1\n0 on ok\n0 ecmd ok\n0 on ok\n0 q ok\n0 dq EAGAIN\n0 req EBUSY\n",
    ),
];

/// The calls that make one encoder of 16 by 16 samples ready for pictures, and their answers.
const READY: &str =
    "0 open enc\n0 sfmt out GREY 16 16 0\n0 gfmt cap\n0 req out 1\n0 req cap 1\n0 on out\n0 on cap\n";

const READY_TEXT: &str =
    "0 open ok\n0 sfmt ok GREY 16 16 256\n0 gfmt ok FWHT 16 16 300\n0 req ok 1\n0 req ok 1\n0 on ok\n0 on ok\n";

/// Scripts after those calls, what they print, what fails, and how they end: a picture of one colour and
/// the P frame that follows it; the brightest and the darkest picture; an encoder that begins anew after a
/// fault.
const CODED: [(&str, &str, Failing, Status); 4] = [
    (
        "0 q out 0 5 80*256\n0 q cap 0\nrun 0\n0 dq cap\n0 dq out\n0 q out 0 6 80*256\n0 q cap 0\nrun 0\n0 dq cap\n",
        "0 q ok\n0 q ok\n0 claim\n0 finish encoded\n\
            0 dq ok 0 48 8 0 5 4f4f4f4fffffffff0000000400000010000000100008040000000000000000000000000000000000000000040006000f\n\
            0 dq ok 0 256 0 0 5 -\n0 q ok\n0 q ok\n0 claim\n0 finish encoded\n\
            0 dq ok 0 48 10 1 6 4f4f4f4fffffffff0000000400000010000000100028000000000000000000000000000000000000000000040006000f\n",
        Failing::Nothing,
        Status::Fine,
    ),
    (
        "0 q out 0 5 ff*256\n0 q cap 0\nrun 0\n0 dq cap\n",
        "0 q ok\n0 q ok\n0 claim\n0 finish encoded\n0 dq ok 0 50 8 0 5 4f4f4f4fffffffff00000004000000100000001000080400000000000000000000000000000000000000000600067f00000f\n",
        Failing::Nothing,
        Status::Fine,
    ),
    (
        "0 q out 0 5 00*256\n0 q cap 0\nrun 0\n0 dq cap\n",
        "0 q ok\n0 q ok\n0 claim\n0 finish encoded\n0 dq ok 0 50 8 0 5 4f4f4f4fffffffff00000004000000100000001000080400000000000000000000000000000000000000000600068000000f\n",
        Failing::Nothing,
        Status::Fine,
    ),
    (
        "0 q out 0 5 80*256\n0 q cap 0\nrun 0\n0 dq cap\n0 dq out\n0 q out 0 6 80*256\n0 q cap 0\nrun 0\n0 dq cap\n",
        "0 q ok\n0 q ok\n0 claim\n0 finish fault\n0 dq ok 0 0 40 0 5 -\n0 dq ok 0 256 40 0 5 -\n\
            0 q ok\n0 q ok\n0 claim\n0 finish encoded\n\
            0 dq ok 0 48 8 1 6 4f4f4f4fffffffff0000000400000010000000100008040000000000000000000000000000000000000000040006000f\n",
        Failing::Engine { run: 0 },
        Status::EngineFault,
    ),
];

#[test]
fn encoders_without_a_run(rt: HostRuntime) -> Result<(), Fail> {
    for (script, text) in QUIET {
        let input = joined(rt.alloc(), script, "")?;
        let (ended, printed) = run(&rt, rt.alloc(), &["script"], input, Failing::Nothing)?;
        assert_eq!(rt; printed.as_slice(), text.as_bytes());
        assert_eq!(rt; ended, Status::Fine);
    }
    Ok(())
}

#[test]
fn pictures_become_frames(rt: HostRuntime) -> Result<(), Fail> {
    for (script, text, fails, status) in CODED {
        let input = joined(rt.alloc(), READY, script)?;
        let wanted = joined(rt.alloc(), READY_TEXT, text)?;
        let (ended, printed) = run(&rt, rt.alloc(), &["script"], input, fails)?;
        assert_eq!(rt; printed.as_slice(), wanted.as_slice());
        assert_eq!(rt; ended, status);
    }
    Ok(())
}

/// A picture whose words would take more room than its samples, and the calls over it.
const SHARP: &str =
    "0 sctl 2 1\n0 q out 0 5 ff+80*7+00+80*119+ff+80*7+00+80*119\n0 q cap 0\nrun 0\n0 dq cap\n";

/// What these calls print, in pieces that are repeated: the samples are stored as they are, but 254 for 255.
const SHARP_TEXT: [(&str, u32); 11] = [
    ("0 sctl ok\n0 q ok\n0 q ok\n0 claim\n0 finish encoded\n", 1),
    (
        "0 dq ok 0 300 8 0 5 4f4f4f4fffffffff00000004000000100000001000080410",
        1,
    ),
    ("00000000", 4),
    ("00000100fe", 1),
    ("80", 7),
    ("00", 1),
    ("80", 119),
    ("fe", 1),
    ("80", 7),
    ("00", 1),
    ("80", 119),
];

/// Appends a piece so many times.
fn repeat(text: &mut Vec<u8>, piece: &str, times: u32) -> Result<(), NoMemory> {
    for _time in 0..times {
        text.extend_from_slice(piece.as_bytes())?;
    }
    Ok(())
}

#[test]
fn sharp_pictures_are_stored(rt: HostRuntime) -> Result<(), Fail> {
    let mut wanted = joined(rt.alloc(), READY_TEXT, "")?;
    for (piece, times) in SHARP_TEXT {
        repeat(&mut wanted, piece, times)?;
    }
    repeat(&mut wanted, "\n", 1)?;
    let input = joined(rt.alloc(), READY, SHARP)?;
    let (ended, printed) = run(&rt, rt.alloc(), &["script"], input, Failing::Nothing)?;
    assert_eq!(rt; printed.as_slice(), wanted.as_slice());
    assert_eq!(rt; ended, Status::Fine);
    Ok(())
}
