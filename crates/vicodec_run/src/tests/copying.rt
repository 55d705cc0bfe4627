//! Scripts over copying contexts: calls without a run, spellings, and lines of a hostile user.

use crate::tests::{Failing, joined, run};
use std::test::Fail;
use vc_top::Status;

/// Scripts without a run, and what they print: events and commands, which a copying context has none of;
/// its one format; buffers that are added to a queue; blanks, a comment and a last line without LF.
const QUIET: [(&str, &str); 4] = [
    (
        "0 open copy\n0 ev\n0 evw\n0 sub 2\n0 unsub 5\n0 dcmd 0\n",
        "0 open ok\n0 ev ENOENT\n0 evw blocked\n0 sub EINVAL\n0 unsub EINVAL\n0 dcmd ENOTTY\n",
    ),
    (
        "0 open copy\n0 sfmt out FWHT 9 9 99999999\n0 gfmt cap\n0 enum out 0\n0 enum out 1\n",
        "0 open ok\n0 sfmt ok DATA 0 0 17694720\n0 gfmt ok DATA 0 0 17694720\n0 enum ok DATA\n0 enum EINVAL\n",
    ),
    (
        "0 open copy\n0 create out 2 8192\n0 create out 1 100\n0 q out 2 1 aa\n0 q out 0 1 aa\n\
            0 query out 1\n0 on out\n0 create out 40 4096\n0 create out 1 4096\n0 create out 0 4096\n\
            0 create out 0 0\n0 req out 1\n",
        "0 open ok\n0 create ok 0 2\n0 create ok 2 1\n0 q EINVAL\n0 q ok\n0 query ok 1 8192 0\n0 on ok\n0 create ok 3 29\n0 create EINVAL\n0 create ok 32 0\n0 create EINVAL\n0 req EBUSY\n",
    ),
    (
        "\t0  open copy \r\n# 0 close\n \t\n00000000000000000000 poll",
        "0 open ok\n0 poll ok 0 0 0\n",
    ),
];

#[test]
fn copying_contexts_without_a_run(rt: HostRuntime) -> Result<(), Fail> {
    for (script, text) in QUIET {
        let input = joined(rt.alloc(), script, "")?;
        let (ended, printed) = run(&rt, rt.alloc(), &["script"], input, Failing::Nothing)?;
        assert_eq!(rt; printed.as_slice(), text.as_bytes());
        assert_eq!(rt; ended, Status::Fine);
    }
    Ok(())
}

/// The two lines before a line of a hostile user, and their answers.
const OPENED: &str = "0 open copy\n0 req out 1\n";

const OPENED_TEXT: &str = "0 open ok\n0 req ok 1\n";

/// Third lines that are none of the language.
const BAD: [&str; 11] = [
    "0 q out 0 1 a\n",
    "0 q out 0 1 aa*0\n",
    "0 q out 0 1 aa*17694721\n",
    "0 q out 0 1 aa+\n",
    "0 q out 0 18446744073709551616 aa\n",
    "0 query out 4294967296\n",
    "0 query out 000000000000000000000\n",
    "16 poll\n",
    "claim 16\n",
    "0 poll 1\n",
    "0 on both\n",
];

#[test]
fn bad_lines_end_a_script(rt: HostRuntime) -> Result<(), Fail> {
    for line in BAD {
        let input = joined(rt.alloc(), OPENED, line)?;
        let (ended, printed) = run(&rt, rt.alloc(), &["script"], input, Failing::Nothing)?;
        assert_eq!(rt; printed.as_slice(), OPENED_TEXT.as_bytes());
        assert_eq!(rt; ended, Status::BadLine { line: 3 });
    }
    Ok(())
}

/// Third lines with the greatest values, and what they print.
const GREATEST: [(&str, &str); 4] = [
    ("0 q out 0 18446744073709551615 aa\n", "0 q ok\n"),
    ("0 q out 0 1 aa*17694720\n", "0 q EINVAL\n"),
    ("0 req out 4294967295\n", "0 req ok 32\n"),
    ("claim 15\n", "- claim none\n"),
];

#[test]
fn greatest_values_are_read(rt: HostRuntime) -> Result<(), Fail> {
    for (line, text) in GREATEST {
        let input = joined(rt.alloc(), OPENED, line)?;
        let wanted = joined(rt.alloc(), OPENED_TEXT, text)?;
        let (ended, printed) = run(&rt, rt.alloc(), &["script"], input, Failing::Nothing)?;
        assert_eq!(rt; printed.as_slice(), wanted.as_slice());
        assert_eq!(rt; ended, Status::Fine);
    }
    Ok(())
}
