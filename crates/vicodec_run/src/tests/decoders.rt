//! Scripts over decoder contexts.
//!
//! In these scripts and texts `$` stands for an I frame of 16 by 16 samples of 128, `%` for the P frame that follows it,
//! `&` for an I frame of 32 by 16 such samples, and `#`, `~` and `_` for 256 bytes `80`, `ff` and `00`.

use crate::tests::{Failing, run};
use std::alloc::Global;
use std::process::Abort;
use std::sync::Wait;
use std::test::Fail;
use std::thread::Threads;
use vc_base::NoMemory;
use vc_top::Status;

const KEY_FRAME: &str =
    "4f4f4f4fffffffff0000000300000010000000100008040000000000000000000000000000000000000000040006000f";

const NEXT_FRAME: &str =
    "4f4f4f4fffffffff0000000300000010000000100008000000000000000000000000000000000000000000040006000f";

const WIDE_FRAME: &str =
    "4f4f4f4fffffffff000000030000002000000010000804000000000000000000000000000000000000000004000e000f";

/// Streams of whole and broken frames: two frames in one buffer; a frame that is cut by the next one's magic, by its end
/// or by its size field; a P frame that is passed over after a seek; a size above the limit; the brightest and the darkest
/// picture.
const STREAMS: [(&str, &str); 6] = [
    (
        "0 open dec\n0 sfmt out FWHT 16 16 0\n0 sub 5\n0 req out 2\n0 q out 0 9 $$\n0 on out\n\
            run 0\n0 ev\n0 gfmt cap\n0 req cap 2\n0 q cap 0\n0 q cap 1\n0 on cap\nrun 0\n0 dq out\n\
            run 0\n0 dq out\n0 dq cap\n0 dq cap\n",
        "0 open ok\n0 sfmt ok FWHT 16 16 556\n0 sub ok\n0 req ok 2\n0 q ok\n0 on ok\n0 claim\n\
            0 finish changed\n0 ev ok 5 0 1 0\n0 gfmt ok GREY 16 16 256\n0 req ok 2\n0 q ok\n0 q ok\n\
            0 on ok\n0 claim\n0 finish picture\n0 dq EAGAIN\n0 claim\n0 finish picture\n\
            0 dq ok 0 96 0 0 9 -\n0 dq ok 0 256 8 0 9 #\n0 dq ok 1 256 8 1 9 #\n",
    ),
    (
        "0 open dec\n0 sfmt out FWHT 16 16 0\n0 sub 5\n0 req out 1\n\
            0 q out 0 3 4f4f4f4fffffffff0000000300000010000000100008040000000000000000000000000000000000000000040006$\n\
            0 on out\nrun 0\n0 req cap 2\n0 q cap 0\n0 q cap 1\n0 on cap\nrun 0\nrun 0\n0 dq cap\n\
            0 dq cap\n",
        "0 open ok\n0 sfmt ok FWHT 16 16 556\n0 sub ok\n0 req ok 1\n0 q ok\n0 on ok\n0 claim\n\
            0 finish changed\n0 req ok 2\n0 q ok\n0 q ok\n0 on ok\n0 claim\n0 finish damaged\n\
            0 claim\n0 finish picture\n0 dq ok 0 0 40 0 3 -\n0 dq ok 1 256 8 1 3 #\n",
    ),
    (
        "0 open dec\n0 sfmt out FWHT 16 16 0\n0 sub 5\n0 req out 1\n\
            0 q out 0 3 4f4f4f4fffffffff0000000300000010000000100008040000000000000000000000000000000000000000200006000f$\n\
            0 on out\nrun 0\n0 req cap 2\n0 q cap 0\n0 q cap 1\n0 on cap\nrun 0\nrun 0\n0 dq cap\n\
            0 dq cap\n",
        "0 open ok\n0 sfmt ok FWHT 16 16 556\n0 sub ok\n0 req ok 1\n0 q ok\n0 on ok\n0 claim\n\
            0 finish changed\n0 req ok 2\n0 q ok\n0 q ok\n0 on ok\n0 claim\n0 finish damaged\n\
            0 claim\n0 finish picture\n0 dq ok 0 0 40 0 3 -\n0 dq ok 1 256 8 1 3 #\n",
    ),
    (
        "0 open dec\n0 sfmt out FWHT 16 16 0\n0 sub 5\n0 req out 2\n0 q out 0 9 $$\n0 on out\n\
            run 0\n0 ev\n0 gfmt cap\n0 req cap 2\n0 q cap 0\n0 q cap 1\n0 on cap\nrun 0\n0 dq out\n\
            run 0\n0 dq out\n0 dq cap\n0 dq cap\n0 off out\n0 q cap 0\n0 q out 0 20 %\n\
            0 q out 1 21 $\n0 on out\nrun 0\nrun 0\n0 dq cap\n",
        "0 open ok\n0 sfmt ok FWHT 16 16 556\n0 sub ok\n0 req ok 2\n0 q ok\n0 on ok\n0 claim\n\
            0 finish changed\n0 ev ok 5 0 1 0\n0 gfmt ok GREY 16 16 256\n0 req ok 2\n0 q ok\n0 q ok\n\
            0 on ok\n0 claim\n0 finish picture\n0 dq EAGAIN\n0 claim\n0 finish picture\n\
            0 dq ok 0 96 0 0 9 -\n0 dq ok 0 256 8 0 9 #\n0 dq ok 1 256 8 1 9 #\n0 off ok\n0 q ok\n\
            0 q ok\n0 q ok\n0 on ok\n0 claim\n0 finish spent\n0 claim\n0 finish picture\n\
            0 dq ok 0 256 8 2 21 #\n",
    ),
    (
        "0 open dec\n0 sfmt out FWHT 16 16 1\n0 req out 2\n\
            0 q out 0 1 4f4f4f4fffffffff0000000300000010000000100008040000000000000000000000000000000000000000410006000f\n\
            0 q out 1 2 $\n0 on out\nrun 0\nrun 0\n",
        "0 open ok\n0 sfmt ok FWHT 16 16 64\n0 req ok 2\n0 q ok\n0 q ok\n0 on ok\n0 claim\n0 finish spent\n0 claim\n0 finish changed\n",
    ),
    (
        "0 open dec\n0 sfmt out FWHT 16 16 0\n0 req out 2\n\
            0 q out 0 1 4f4f4f4fffffffff00000004000000100000001000080400000000000000000000000000000000000000000600067f00000f\n\
            0 q out 1 2 4f4f4f4fffffffff00000004000000100000001000080400000000000000000000000000000000000000000600068000000f\n\
            0 on out\nrun 0\n0 req cap 2\n0 q cap 0\n0 q cap 1\n0 on cap\nrun 0\nrun 0\n0 dq cap\n\
            0 dq cap\n",
        "0 open ok\n0 sfmt ok FWHT 16 16 556\n0 req ok 2\n0 q ok\n0 q ok\n0 on ok\n0 claim\n\
            0 finish changed\n0 req ok 2\n0 q ok\n0 q ok\n0 on ok\n0 claim\n0 finish picture\n\
            0 claim\n0 finish picture\n0 dq ok 0 256 8 0 1 ~\n0 dq ok 1 256 8 1 2 _\n",
    ),
];

/// Changes of geometry: a stop by a change and a restart of CAPTURE; a longer buffer that is created in
/// its place; a drain that meets a change; a stop that a buffer of the right size alone ends; short
/// buffers that stay queued.
const CHANGES: [(&str, &str); 5] = [
    (
        "0 open dec\n0 sfmt out FWHT 16 16 0\n0 sub 5\n0 req out 2\n0 q out 0 1 $\n0 q out 1 2 &\n\
            0 on out\nrun 0\n0 ev\n0 req cap 2\n0 q cap 0\n0 q cap 1\n0 on cap\nrun 0\nrun 0\n0 ev\n\
            0 dq cap\n0 dq cap\n0 dq cap\n0 gfmt cap\n0 dcmd 0\n0 sfmt cap GREY 0 0 0\n0 off cap\n\
            0 req cap 1\n0 q cap 0\n0 on cap\nrun 0\n0 dq cap\n",
        "0 open ok\n0 sfmt ok FWHT 16 16 556\n0 sub ok\n0 req ok 2\n0 q ok\n0 q ok\n0 on ok\n\
            0 claim\n0 finish changed\n0 ev ok 5 0 1 0\n0 req ok 2\n0 q ok\n0 q ok\n0 on ok\n0 claim\n\
            0 finish picture\n0 claim\n0 finish changed\n0 ev ok 5 1 1 0\n0 dq ok 0 256 8 0 1 #\n\
            0 dq ok 1 0 100000 1 0 -\n0 dq EPIPE\n0 gfmt ok GREY 32 16 512\n0 dcmd EINVAL\n\
            0 sfmt EBUSY\n0 off ok\n0 req ok 1\n0 q ok\n0 on ok\n0 claim\n0 finish picture\n\
            0 dq ok 0 512 8 0 2 ##\n",
    ),
    (
        "0 open dec\n0 sfmt out FWHT 16 16 0\n0 sub 5\n0 req out 2\n0 q out 0 1 $\n0 q out 1 2 &\n\
            0 on out\nrun 0\n0 ev\n0 req cap 2\n0 q cap 0\n0 q cap 1\n0 on cap\nrun 0\nrun 0\n0 ev\n\
            0 dq cap\n0 dq cap\n0 dq cap\n0 gfmt cap\n0 dcmd 0\n0 create cap 1 512\n0 dcmd 0\n\
            0 q cap 0\n0 q cap 2\nrun 0\n0 dq cap\n",
        "0 open ok\n0 sfmt ok FWHT 16 16 556\n0 sub ok\n0 req ok 2\n0 q ok\n0 q ok\n0 on ok\n\
            0 claim\n0 finish changed\n0 ev ok 5 0 1 0\n0 req ok 2\n0 q ok\n0 q ok\n0 on ok\n0 claim\n\
            0 finish picture\n0 claim\n0 finish changed\n0 ev ok 5 1 1 0\n0 dq ok 0 256 8 0 1 #\n\
            0 dq ok 1 0 100000 1 0 -\n0 dq EPIPE\n0 gfmt ok GREY 32 16 512\n0 dcmd EINVAL\n\
            0 create ok 2 1\n0 dcmd ok\n0 q EINVAL\n0 q ok\n0 claim\n0 finish picture\n\
            0 dq ok 2 512 8 2 2 ##\n",
    ),
    (
        "0 open dec\n0 sfmt out FWHT 16 16 0\n0 sub 5\n0 sub 2\n0 req out 2\n0 q out 0 1 $\n\
            0 q out 1 2 &\n0 on out\nrun 0\n0 req cap 2\n0 q cap 0\n0 q cap 1\n0 on cap\n0 dcmd 1\n\
            run 0\nrun 0\n0 dq cap\n0 dq cap\n0 dcmd 1\n0 off cap\n0 req cap 1\n0 q cap 0\n0 on cap\n\
            run 0\n0 dq cap\n0 dq cap\n0 ev\n0 ev\n0 ev\n",
        "0 open ok\n0 sfmt ok FWHT 16 16 556\n0 sub ok\n0 sub ok\n0 req ok 2\n0 q ok\n0 q ok\n\
            0 on ok\n0 claim\n0 finish changed\n0 req ok 2\n0 q ok\n0 q ok\n0 on ok\n0 dcmd ok\n\
            0 claim\n0 finish picture\n0 claim\n0 finish changed\n0 dq ok 0 256 8 0 1 #\n\
            0 dq ok 1 0 100000 1 0 -\n0 dcmd EBUSY\n0 off ok\n0 req ok 1\n0 q ok\n0 on ok\n0 claim\n\
            0 finish picture\n0 dq ok 0 512 100008 0 2 ##\n0 dq EPIPE\n0 ev ok 5 0 1 2\n\
            0 ev ok 5 1 1 1\n0 ev ok 2 2 0 0\n",
    ),
    (
        "0 open dec\n0 sfmt out FWHT 16 16 0\n0 req out 1\n0 req cap 1\n0 on cap\n0 q out 0 1 &\n\
            0 on out\nrun 0\n0 q cap 0\n0 dq cap\n0 dcmd 0\n0 create cap 1 512\n0 q cap 1\n0 dq cap\n\
            0 dq cap\n0 dcmd 0\n0 q cap 1\nrun 0\n0 dq cap\n",
        "0 open ok\n0 sfmt ok FWHT 16 16 556\n0 req ok 1\n0 req ok 1\n0 on ok\n0 q ok\n0 on ok\n\
            0 claim\n0 finish changed\n0 q EINVAL\n0 dq EAGAIN\n0 dcmd EBUSY\n0 create ok 1 1\n\
            0 q ok\n0 dq ok 1 0 100000 0 0 -\n0 dq EPIPE\n0 dcmd ok\n0 q ok\n0 claim\n\
            0 finish picture\n0 dq ok 1 512 8 1 1 ##\n",
    ),
    (
        "0 open dec\n0 sfmt out FWHT 16 16 0\n0 sub 5\n0 req out 2\n0 q out 0 1 $\n0 q out 1 2 &\n\
            0 on out\nrun 0\n0 req cap 3\n0 q cap 0\n0 q cap 1\n0 q cap 2\n0 on cap\nrun 0\nrun 0\n\
            0 dq cap\n0 dq cap\n0 create cap 1 512\n0 dcmd 0\n0 off cap\n0 dcmd 0\n",
        "0 open ok\n0 sfmt ok FWHT 16 16 556\n0 sub ok\n0 req ok 2\n0 q ok\n0 q ok\n0 on ok\n\
            0 claim\n0 finish changed\n0 req ok 3\n0 q ok\n0 q ok\n0 q ok\n0 on ok\n0 claim\n\
            0 finish picture\n0 claim\n0 finish changed\n0 dq ok 0 256 8 0 1 #\n\
            0 dq ok 1 0 100000 1 0 -\n0 create ok 3 1\n0 dcmd EINVAL\n0 off ok\n0 dcmd ok\n",
    ),
];

/// Ends of drains: one that a seek aborts, whose buffer and event stay; a picture that is the last of
/// its drain; one byte behind it.
const ENDS: [(&str, &str); 3] = [
    (
        "0 open dec\n0 sfmt out FWHT 16 16 0\n0 sub 5\n0 sub 2\n0 req out 2\n0 q out 0 1 $\n\
            0 on out\nrun 0\n0 req cap 2\n0 q cap 0\n0 q cap 1\n0 on cap\nrun 0\n0 dcmd 1\n0 off out\n\
            0 q out 0 2 $\n0 on out\n0 dq cap\n0 q cap 0\nrun 0\n0 dq cap\n0 dq cap\n0 dq cap\n0 ev\n\
            0 ev\n",
        "0 open ok\n0 sfmt ok FWHT 16 16 556\n0 sub ok\n0 sub ok\n0 req ok 2\n0 q ok\n0 on ok\n\
            0 claim\n0 finish changed\n0 req ok 2\n0 q ok\n0 q ok\n0 on ok\n0 claim\n\
            0 finish picture\n0 dcmd ok\n0 off ok\n0 q ok\n0 on ok\n0 dq ok 0 256 8 0 1 #\n0 q ok\n\
            0 claim\n0 finish picture\n0 dq ok 1 0 100000 1 0 -\n0 dq ok 0 256 8 2 2 #\n0 dq EAGAIN\n\
            0 ev ok 5 0 1 1\n0 ev ok 2 1 0 0\n",
    ),
    (
        "0 open dec\n0 sfmt out FWHT 16 16 0\n0 sub 5\n0 req out 1\n0 q out 0 4 $\n0 on out\nrun 0\n0 req cap 2\n0 q cap 0\n0 q cap 1\n0 on cap\n0 dcmd 1\nrun 0\n0 dq cap\n0 dq cap\n",
        "0 open ok\n0 sfmt ok FWHT 16 16 556\n0 sub ok\n0 req ok 1\n0 q ok\n0 on ok\n0 claim\n\
            0 finish changed\n0 req ok 2\n0 q ok\n0 q ok\n0 on ok\n0 dcmd ok\n0 claim\n\
            0 finish picture\n0 dq ok 0 256 100008 0 4 #\n0 dq EPIPE\n",
    ),
    (
        "0 open dec\n0 sfmt out FWHT 16 16 0\n0 sub 5\n0 req out 1\n0 q out 0 4 $00\n0 on out\n\
            run 0\n0 req cap 2\n0 q cap 0\n0 q cap 1\n0 on cap\n0 dcmd 1\nrun 0\nrun 0\n0 dq cap\n\
            0 dq cap\n0 dq cap\n",
        "0 open ok\n0 sfmt ok FWHT 16 16 556\n0 sub ok\n0 req ok 1\n0 q ok\n0 on ok\n0 claim\n\
            0 finish changed\n0 req ok 2\n0 q ok\n0 q ok\n0 on ok\n0 dcmd ok\n0 claim\n\
            0 finish picture\n0 claim\n0 finish spent\n0 dq ok 0 256 8 0 4 #\n\
            0 dq ok 1 0 100000 1 0 -\n0 dq EPIPE\n",
    ),
];

/// Formats and settings of a fresh decoder, and formats that follow; a drain with nothing queued, START, a buffer that
/// is created beside the others, and a seek.
const QUIET: [(&str, &str); 2] = [
    (
        "0 open dec\n0 gfmt out\n0 gfmt cap\n0 enum out 1\n0 enum cap 1\n\
            0 tryfmt cap YUYV 17 17 1\n0 sfmt out YUYV 17 17 1\n0 gfmt cap\n0 gctl 4\n0 gctl 1\n\
            0 sctl 4 1\n0 dcmd 2\n0 ecmd 0\n0 sub 3\n0 evw\n0 poll\n",
        "0 open ok\n0 gfmt ok FWHT 352 288 202796\n0 gfmt ok YU12 352 288 152064\n0 enum EINVAL\n\
            0 enum ok NV12\n0 tryfmt ok YU12 352 288 152064\n0 sfmt ok FWHT 18 18 64\n\
            0 gfmt ok YU12 18 18 486\n0 gctl ok 1\n0 gctl EINVAL\n0 sctl EINVAL\n0 dcmd EINVAL\n\
            0 ecmd ENOTTY\n0 sub EINVAL\n0 evw blocked\n0 poll ok 0 0 0\n",
    ),
    (
        "0 open dec\n0 sfmt out FWHT 16 16 64\n0 sub 2\n0 req out 1\n0 req cap 1\n0 on out\n\
            0 on cap\n0 q cap 0\n0 dcmd 1\n0 dq cap\n0 dq cap\n0 ev\n0 dcmd 0\n0 dqw cap\n\
            0 create cap 2 600\n0 query cap 2\n0 off out\n",
        "0 open ok\n0 sfmt ok FWHT 16 16 64\n0 sub ok\n0 req ok 1\n0 req ok 1\n0 on ok\n0 on ok\n\
            0 q ok\n0 dcmd ok\n0 dq ok 0 0 100000 0 0 -\n0 dq EPIPE\n0 ev ok 2 0 0 0\n0 dcmd ok\n\
            0 dqw blocked\n0 create ok 1 2\n0 query ok 2 600 0\n0 off ok\n",
    ),
];

/// Probes: CAPTURE that streams before a probe ends, and behind it; a pixel format that is set while it
/// runs; a frame without a body, whose change and damage are known at one byte.
const PROBES: [(&str, &str); 4] = [
    (
        "0 open dec\n0 sfmt out FWHT 16 16 0\n0 req out 1\n0 req cap 1\n0 q cap 0\n0 q out 0 1 $\n0 on out\nclaim 0\n0 on cap\nfinish 0\n0 dq cap\n0 dq cap\n",
        "0 open ok\n0 sfmt ok FWHT 16 16 556\n0 req ok 1\n0 req ok 1\n0 q ok\n0 q ok\n0 on ok\n0 claim\n0 on ok\n0 finish changed\n0 dq ok 0 0 100000 0 0 -\n0 dq EPIPE\n",
    ),
    (
        "0 open dec\n0 sfmt out FWHT 16 16 0\n0 req out 1\n0 req cap 1\n0 q cap 0\n0 q out 0 1 $\n0 on out\nclaim 0\nfinish 0\n0 on cap\nrun 0\n0 dq cap\n",
        "0 open ok\n0 sfmt ok FWHT 16 16 556\n0 req ok 1\n0 req ok 1\n0 q ok\n0 q ok\n0 on ok\n0 claim\n0 finish changed\n0 on ok\n0 claim\n0 finish picture\n0 dq ok 0 256 8 0 1 #\n",
    ),
    (
        "0 open dec\n0 sfmt out FWHT 16 16 0\n0 req out 1\n\
            0 q out 0 1 4f4f4f4fffffffff000000030000001000000010000a040000000000000000000000000000000000000000040006000f\n\
            0 on out\nclaim 0\n0 sfmt cap NV12 0 0 0\nfinish 0\n0 gfmt cap\n",
        "0 open ok\n0 sfmt ok FWHT 16 16 556\n0 req ok 1\n0 q ok\n0 on ok\n0 claim\n0 sfmt ok NV12 16 16 384\n0 finish changed\n0 gfmt ok NV12 16 16 384\n",
    ),
    (
        "0 open dec\n0 sfmt out FWHT 16 16 0\n0 sub 5\n0 req out 1\n\
            0 q out 0 6 4f4f4f4fffffffff000000030000001000000010000804000000000000000000000000000000000000000000\n\
            0 on out\nrun 0\n0 req cap 1\n0 q cap 0\n0 on cap\nrun 0\n0 dq cap\n0 dq out\n",
        "0 open ok\n0 sfmt ok FWHT 16 16 556\n0 sub ok\n0 req ok 1\n0 q ok\n0 on ok\n0 claim\n\
            0 finish changed\n0 req ok 1\n0 q ok\n0 on ok\n0 claim\n0 finish damaged\n\
            0 dq ok 0 0 40 0 6 -\n0 dq ok 0 44 0 0 6 -\n",
    ),
];

/// A frame in buffers of one byte each.
const BYTE_BY_BYTE: (&str, &str) = (
    "0 open dec\n0 sfmt out FWHT 16 16 0\n0 sub 5\n0 req out 32\n0 q out 0 100 4f\n\
        0 q out 1 101 4f\n0 q out 2 102 4f\n0 q out 3 103 4f\n0 q out 4 104 ff\n0 q out 5 105 ff\n\
        0 q out 6 106 ff\n0 q out 7 107 ff\n0 q out 8 108 00\n0 q out 9 109 00\n\
        0 q out 10 110 00\n0 q out 11 111 03\n0 q out 12 112 00\n0 q out 13 113 00\n\
        0 q out 14 114 00\n0 q out 15 115 10\n0 q out 16 116 00\n0 q out 17 117 00\n\
        0 q out 18 118 00\n0 q out 19 119 10\n0 q out 20 120 00\n0 q out 21 121 08\n\
        0 q out 22 122 04\n0 q out 23 123 00\n0 q out 24 124 00\n0 q out 25 125 00\n\
        0 q out 26 126 00\n0 q out 27 127 00\n0 q out 28 128 00\n0 q out 29 129 00\n\
        0 q out 30 130 00\n0 q out 31 131 00\n0 on out\nrun 0\nrun 0\nrun 0\nrun 0\nrun 0\nrun 0\n\
        run 0\nrun 0\nrun 0\nrun 0\nrun 0\nrun 0\nrun 0\nrun 0\nrun 0\nrun 0\nrun 0\nrun 0\n\
        run 0\nrun 0\nrun 0\nrun 0\nrun 0\nrun 0\nrun 0\nrun 0\nrun 0\nrun 0\nrun 0\nrun 0\n\
        run 0\nrun 0\n0 dq out\n0 dq out\n0 dq out\n0 dq out\n0 dq out\n0 dq out\n0 dq out\n\
        0 dq out\n0 dq out\n0 dq out\n0 dq out\n0 dq out\n0 dq out\n0 dq out\n0 dq out\n0 dq out\n\
        0 dq out\n0 dq out\n0 dq out\n0 dq out\n0 dq out\n0 dq out\n0 dq out\n0 dq out\n0 dq out\n\
        0 dq out\n0 dq out\n0 dq out\n0 dq out\n0 dq out\n0 dq out\n0 dq out\n0 q out 0 132 00\n\
        0 q out 1 133 00\n0 q out 2 134 00\n0 q out 3 135 00\n0 q out 4 136 00\n0 q out 5 137 00\n\
        0 q out 6 138 00\n0 q out 7 139 00\n0 q out 8 140 00\n0 q out 9 141 00\n\
        0 q out 10 142 00\n0 q out 11 143 04\n0 q out 12 144 00\n0 q out 13 145 06\n\
        0 q out 14 146 00\n0 q out 15 147 0f\nrun 0\nrun 0\nrun 0\nrun 0\nrun 0\nrun 0\nrun 0\n\
        run 0\nrun 0\nrun 0\nrun 0\nrun 0\nrun 0\n0 req cap 1\n0 q cap 0\n0 on cap\nrun 0\nrun 0\n\
        run 0\nrun 0\nrun 0\n0 dq cap\n",
    "0 open ok\n0 sfmt ok FWHT 16 16 556\n0 sub ok\n0 req ok 32\n0 q ok\n0 q ok\n0 q ok\n\
        0 q ok\n0 q ok\n0 q ok\n0 q ok\n0 q ok\n0 q ok\n0 q ok\n0 q ok\n0 q ok\n0 q ok\n0 q ok\n\
        0 q ok\n0 q ok\n0 q ok\n0 q ok\n0 q ok\n0 q ok\n0 q ok\n0 q ok\n0 q ok\n0 q ok\n0 q ok\n\
        0 q ok\n0 q ok\n0 q ok\n0 q ok\n0 q ok\n0 q ok\n0 q ok\n0 on ok\n0 claim\n0 finish spent\n\
        0 claim\n0 finish spent\n0 claim\n0 finish spent\n0 claim\n0 finish spent\n0 claim\n\
        0 finish spent\n0 claim\n0 finish spent\n0 claim\n0 finish spent\n0 claim\n\
        0 finish spent\n0 claim\n0 finish spent\n0 claim\n0 finish spent\n0 claim\n\
        0 finish spent\n0 claim\n0 finish spent\n0 claim\n0 finish spent\n0 claim\n\
        0 finish spent\n0 claim\n0 finish spent\n0 claim\n0 finish spent\n0 claim\n\
        0 finish spent\n0 claim\n0 finish spent\n0 claim\n0 finish spent\n0 claim\n\
        0 finish spent\n0 claim\n0 finish spent\n0 claim\n0 finish spent\n0 claim\n\
        0 finish spent\n0 claim\n0 finish spent\n0 claim\n0 finish spent\n0 claim\n\
        0 finish spent\n0 claim\n0 finish spent\n0 claim\n0 finish spent\n0 claim\n\
        0 finish spent\n0 claim\n0 finish spent\n0 claim\n0 finish spent\n0 claim\n\
        0 finish spent\n0 dq ok 0 1 0 0 100 -\n0 dq ok 1 1 0 1 101 -\n0 dq ok 2 1 0 2 102 -\n\
        0 dq ok 3 1 0 3 103 -\n0 dq ok 4 1 0 4 104 -\n0 dq ok 5 1 0 5 105 -\n\
        0 dq ok 6 1 0 6 106 -\n0 dq ok 7 1 0 7 107 -\n0 dq ok 8 1 0 8 108 -\n\
        0 dq ok 9 1 0 9 109 -\n0 dq ok 10 1 0 10 110 -\n0 dq ok 11 1 0 11 111 -\n\
        0 dq ok 12 1 0 12 112 -\n0 dq ok 13 1 0 13 113 -\n0 dq ok 14 1 0 14 114 -\n\
        0 dq ok 15 1 0 15 115 -\n0 dq ok 16 1 0 16 116 -\n0 dq ok 17 1 0 17 117 -\n\
        0 dq ok 18 1 0 18 118 -\n0 dq ok 19 1 0 19 119 -\n0 dq ok 20 1 0 20 120 -\n\
        0 dq ok 21 1 0 21 121 -\n0 dq ok 22 1 0 22 122 -\n0 dq ok 23 1 0 23 123 -\n\
        0 dq ok 24 1 0 24 124 -\n0 dq ok 25 1 0 25 125 -\n0 dq ok 26 1 0 26 126 -\n\
        0 dq ok 27 1 0 27 127 -\n0 dq ok 28 1 0 28 128 -\n0 dq ok 29 1 0 29 129 -\n\
        0 dq ok 30 1 0 30 130 -\n0 dq ok 31 1 0 31 131 -\n0 q ok\n0 q ok\n0 q ok\n0 q ok\n0 q ok\n\
        0 q ok\n0 q ok\n0 q ok\n0 q ok\n0 q ok\n0 q ok\n0 q ok\n0 q ok\n0 q ok\n0 q ok\n0 q ok\n\
        0 claim\n0 finish spent\n0 claim\n0 finish spent\n0 claim\n0 finish spent\n0 claim\n\
        0 finish spent\n0 claim\n0 finish spent\n0 claim\n0 finish spent\n0 claim\n\
        0 finish spent\n0 claim\n0 finish spent\n0 claim\n0 finish spent\n0 claim\n\
        0 finish spent\n0 claim\n0 finish spent\n0 claim\n0 finish changed\n- claim none\n\
        0 req ok 1\n0 q ok\n0 on ok\n0 claim\n0 finish spent\n0 claim\n0 finish spent\n0 claim\n\
        0 finish spent\n0 claim\n0 finish spent\n0 claim\n0 finish picture\n\
        0 dq ok 0 256 8 0 100 #\n",
);

const FAULT_AT_THE_END: (&str, &str) = (
    "0 open dec\n0 sfmt out FWHT 16 16 0\n0 sub 5\n0 sub 2\n0 req out 1\n0 q out 0 5 $\n0 on out\nrun 0\n0 req cap 1\n0 q cap 0\n0 on cap\n0 dcmd 1\nrun 0\n0 dq cap\n0 dq out\n0 ev\n0 ev\n0 dq cap\n",
    "0 open ok\n0 sfmt ok FWHT 16 16 556\n0 sub ok\n0 sub ok\n0 req ok 1\n0 q ok\n0 on ok\n\
        0 claim\n0 finish changed\n0 req ok 1\n0 q ok\n0 on ok\n0 dcmd ok\n0 claim\n\
        0 finish fault\n0 dq ok 0 0 100040 0 5 -\n0 dq ok 0 48 40 0 5 -\n0 ev ok 5 0 1 1\n\
        0 ev ok 2 1 0 0\n0 dq EPIPE\n",
);

/// The text with what its signs stand for.
fn unfolded(alloc: Global, text: &str) -> Result<Vec<u8>, NoMemory> {
    let mut bytes = Vec::new(alloc);
    for sign in text.as_bytes() {
        match *sign {
            b'$' => bytes.extend_from_slice(KEY_FRAME.as_bytes())?,
            b'%' => bytes.extend_from_slice(NEXT_FRAME.as_bytes())?,
            b'&' => bytes.extend_from_slice(WIDE_FRAME.as_bytes())?,
            b'#' => bytes.extend_from_slice("80".as_bytes().repeat(alloc, 256)?.as_slice())?,
            b'~' => bytes.extend_from_slice("ff".as_bytes().repeat(alloc, 256)?.as_slice())?,
            b'_' => bytes.extend_from_slice("00".as_bytes().repeat(alloc, 256)?.as_slice())?,
            other => bytes.extend_from_slice(&[other])?,
        }
    }
    Ok(bytes)
}

/// Runs each script: it prints its text and ends well.
fn all_print<R: Abort + Threads + Wait + Sync>(
    rt: &R,
    alloc: Global,
    cases: &[(&str, &str)],
) -> Result<(), Fail> {
    for (script, text) in cases {
        let input = unfolded(alloc, script)?;
        let wanted = unfolded(alloc, text)?;
        let (ended, printed) = run(rt, alloc, &["script"], input, Failing::Nothing)?;
        assert_eq!(rt; printed.as_slice(), wanted.as_slice());
        assert_eq!(rt; ended, Status::Fine);
    }
    Ok(())
}

#[test]
fn decoders_without_a_run(rt: HostRuntime) -> Result<(), Fail> {
    all_print(&rt, rt.alloc(), &QUIET)
}

#[test]
fn a_frame_may_come_byte_by_byte(rt: HostRuntime) -> Result<(), Fail> {
    all_print(&rt, rt.alloc(), &[BYTE_BY_BYTE])
}

#[test]
fn streams_become_pictures(rt: HostRuntime) -> Result<(), Fail> {
    all_print(&rt, rt.alloc(), &STREAMS)
}

#[test]
fn decoders_follow_changes(rt: HostRuntime) -> Result<(), Fail> {
    all_print(&rt, rt.alloc(), &CHANGES)
}

#[test]
fn drains_come_to_their_ends(rt: HostRuntime) -> Result<(), Fail> {
    all_print(&rt, rt.alloc(), &ENDS)
}

#[test]
fn probes_find_the_geometry(rt: HostRuntime) -> Result<(), Fail> {
    all_print(&rt, rt.alloc(), &PROBES)
}

#[test]
fn a_fault_may_end_a_drain(rt: HostRuntime) -> Result<(), Fail> {
    let (script, text) = FAULT_AT_THE_END;
    let input = unfolded(rt.alloc(), script)?;
    let wanted = unfolded(rt.alloc(), text)?;
    let (ended, printed) = run(
        &rt,
        rt.alloc(),
        &["script"],
        input,
        Failing::Engine { run: 1 },
    )?;
    assert_eq!(rt; printed.as_slice(), wanted.as_slice());
    assert_eq!(rt; ended, Status::EngineFault);
    Ok(())
}
