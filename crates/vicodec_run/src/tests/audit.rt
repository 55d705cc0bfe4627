//! Reports held against the device by `audit`.

use crate::tests::{Failing, READY, READY_TEXT, run};
use std::alloc::Global;
use std::test::Fail;
use vc_base::NoMemory;
use vc_top::Status;

/// What a script asks for behind the calls that make one copying context ready.
const RUN: &str = "run 0\n0 dq cap\n0 dq out\n";

/// Reports on one copy, each as the lines of the calls that make it ready and what follows, with the verdict.
const REPORTS: [(&str, &str, &str, Status); 8] = [
    (
        READY_TEXT,
        "0 claim\n0 finish copied\n0 dq ok 0 2 0 0 7 00ff\n0 dq ok 0 2 0 0 7 -\n",
        "yes\n",
        Status::Fine,
    ),
    (
        READY_TEXT,
        "0 claim\n0 finish copied\n0 dq ok 0 2 0 0 7 00fe\n0 dq ok 0 2 0 0 7 -\n",
        "no 10\n",
        Status::NotARun { line: 10 },
    ),
    (
        "0 open ok\n0 req ok 1\n0 req ok 1\n0 q ok\n",
        "",
        "no 5\n",
        Status::NotARun { line: 5 },
    ),
    (
        "0 open ok\n0 req ENOMEM\n0 req ok 1\n0 q ok\n0 q ok\n0 on ok\n0 on ok\n",
        "0 claim\n0 finish copied\n0 dq ok 0 2 0 0 7 00ff\n0 dq ok 0 2 0 0 7 -\n",
        "no 4\n",
        Status::NotARun { line: 4 },
    ),
    (
        READY_TEXT,
        "0 claim\n0 finish fault\n0 dq ok 0 2 0 0 7 00ff\n0 dq ok 0 2 0 0 7 -\n",
        "no 10\n",
        Status::NotARun { line: 10 },
    ),
    (
        READY_TEXT,
        "0 claim\n0 finish fault\n0 dq ok 0 0 40 0 7 -\n0 dq ok 0 2 40 0 7 -\n",
        "yes\n",
        Status::Fine,
    ),
    (
        READY_TEXT,
        "0 claim\n0 finish copied\n0 dq ok 0 2 0 0 7 00ff\n0 dq ok 0 2 0 0 7 -",
        "no 11\n",
        Status::NotARun { line: 11 },
    ),
    (
        READY_TEXT,
        "0 claim\n0 finish copied\n0 dq ok 0 2 0 0 7 00ff\n0 dq ok 0 2 0 0 7 -\n0 poll\n",
        "no 12\n",
        Status::NotARun { line: 12 },
    ),
];

/// Some texts, one after the other.
fn all_of(alloc: Global, texts: [&str; 5]) -> Result<Vec<u8>, NoMemory> {
    let mut bytes = Vec::new(alloc);
    for text in texts {
        let Ok(()) = bytes.extend_from_slice(text.as_bytes()) else {
            return Err(NoMemory);
        };
    }
    Ok(bytes)
}

#[test]
fn reports_are_held_against_the_device(rt: HostRuntime) -> Result<(), Fail> {
    for (ready, rest, verdict, status) in REPORTS {
        let input = all_of(rt.alloc(), [READY, RUN, "====\n", ready, rest])?;
        let (ended, printed) = run(&rt, rt.alloc(), &["audit"], input, Failing::Nothing)?;
        assert_eq!(rt; printed.as_slice(), verdict.as_bytes());
        assert_eq!(rt; ended, status);
    }
    Ok(())
}

/// A second context, and both jobs by one worker.
const SECOND: &str = "1 open copy\n1 req out 1\n1 req cap 1\n1 q out 0 8 a1\n1 q cap 0\n1 on out\n\
    1 on cap\nrun 0\nrun 0\n";

const SECOND_TEXT: &str = "1 open ok\n1 req ok 1\n1 req ok 1\n1 q ok\n1 q ok\n1 on ok\n1 on ok\n";

/// The claims in the order of the list of waiting slots, and in the other, where the lines of each slot are right.
const CLAIMS: [(&str, &str, Status); 2] = [
    (
        "0 claim\n0 finish copied\n1 claim\n1 finish copied\n",
        "yes\n",
        Status::Fine,
    ),
    (
        "1 claim\n1 finish copied\n0 claim\n0 finish copied\n",
        "no 15\n",
        Status::NotARun { line: 15 },
    ),
];

#[test]
fn claims_stand_in_the_order_of_the_list(rt: HostRuntime) -> Result<(), Fail> {
    for (claims, verdict, status) in CLAIMS {
        let input = all_of(
            rt.alloc(),
            [
                READY,
                SECOND,
                "====\n0 open ok\n0 req ok 1\n0 req ok 1\n0 q ok\n0 q ok\n0 on ok\n0 on ok\n",
                SECOND_TEXT,
                claims,
            ],
        )?;
        let (ended, printed) = run(&rt, rt.alloc(), &["audit"], input, Failing::Nothing)?;
        assert_eq!(rt; printed.as_slice(), verdict.as_bytes());
        assert_eq!(rt; ended, status);
    }
    Ok(())
}

#[test]
fn a_script_alone_lacks_a_line(rt: HostRuntime) -> Result<(), Fail> {
    for (texts, line) in [
        ([READY, RUN, "", "", ""], 11),
        (["0 poll\n", "0 pol\n", "====\n", "", ""], 2),
    ] {
        let input = all_of(rt.alloc(), texts)?;
        let (ended, printed) = run(&rt, rt.alloc(), &["audit"], input, Failing::Nothing)?;
        assert_eq!(rt; printed.len(), 0);
        assert_eq!(rt; ended, Status::BadLine { line });
    }
    Ok(())
}
