//! Scripts in which the second of three runs fails.

use crate::tests::{Failing, joined, run};
use std::alloc::Global;
use std::sync::Wait;
use std::test::Fail;
use std::thread::Threads;
use vc_base::NoMemory;
use vc_top::Status;

/// Three buffers on each queue, all queued and streaming, three runs, and what is done.
const COPY: &str =
    "0 open copy\n0 req out 3\n0 req cap 3\n0 q out 0 1 aa\n0 q out 1 2 bb\n0 q out 2 3 cc\n\
        0 q cap 0\n0 q cap 1\n0 q cap 2\n0 on out\n0 on cap\nrun 0\nrun 0\nrun 0\n0 dq cap\n\
        0 dq cap\n0 dq cap\n0 dq out\n0 dq out\n0 dq out\n";

const COPY_TEXT: &str =
    "0 open ok\n0 req ok 3\n0 req ok 3\n0 q ok\n0 q ok\n0 q ok\n0 q ok\n0 q ok\n0 q ok\n\
        0 on ok\n0 on ok\n0 claim\n0 finish copied\n0 claim\n0 finish fault\n0 claim\n\
        0 finish copied\n0 dq ok 0 1 0 0 1 aa\n0 dq ok 1 0 40 1 2 -\n0 dq ok 2 1 0 2 3 cc\n\
        0 dq ok 0 1 0 0 1 -\n0 dq ok 1 1 40 1 2 -\n0 dq ok 2 1 0 2 3 -\n";

/// The same of an encoder: after the fault it begins anew, with an I frame that has the number 0.
const ENCODE: &str =
    "0 open enc\n0 sfmt out GREY 16 16 0\n0 req out 3\n0 req cap 3\n0 q out 0 5 80*256\n\
        0 q out 1 5 80*256\n0 q out 2 5 80*256\n0 q cap 0\n0 q cap 1\n0 q cap 2\n0 on out\n\
        0 on cap\nrun 0\nrun 0\nrun 0\n0 dq cap\n0 dq cap\n0 dq cap\n";

const ENCODE_TEXT: &str =
    "0 open ok\n0 sfmt ok GREY 16 16 256\n0 req ok 3\n0 req ok 3\n0 q ok\n0 q ok\n0 q ok\n\
        0 q ok\n0 q ok\n0 q ok\n0 on ok\n0 on ok\n0 claim\n0 finish encoded\n0 claim\n\
        0 finish fault\n0 claim\n0 finish encoded\n\
        0 dq ok 0 48 8 0 5 4f4f4f4fffffffff0000000400000010000000100008040000000000000000000000000000000000000000040006000f\n\
        0 dq ok 1 0 40 1 5 -\n\
        0 dq ok 2 48 8 2 5 4f4f4f4fffffffff0000000400000010000000100008040000000000000000000000000000000000000000040006000f\n";

/// What a script prints where the engine fails at its second run, and how it ends.
fn failing_second<R: Threads + Wait + Sync>(
    rt: &R,
    alloc: Global,
    script: &str,
) -> Result<(Status, Vec<u8>), NoMemory> {
    let input = joined(alloc, script, "")?;
    run(rt, alloc, &["script"], input, Failing::Engine { run: 1 })
}

#[test]
fn a_fault_is_told_and_the_next_run_is_fresh(rt: HostRuntime) -> Result<(), Fail> {
    for (script, text) in [(COPY, COPY_TEXT), (ENCODE, ENCODE_TEXT)] {
        let (ended, printed) = failing_second(&rt, rt.alloc(), script)?;
        assert_eq!(rt; printed.as_slice(), text.as_bytes());
        assert_eq!(rt; ended, Status::EngineFault);
    }
    Ok(())
}
