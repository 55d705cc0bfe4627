//! Messages through `wire`.

use crate::tests::outside::{Outside, SOUND, run_with};
use std::test::Fail;
use vc_top::Status;

/// Messages, the replies to them, and how the wire ends.
const MESSAGES: [(&[u8], &[u8], Status); 6] = [
    (b"", b"", Status::Fine),
    (
        b"\x00\x00\x00\x09\x01\x00\x00\x00\x00\x00\x00\x00\x00\
          \x00\x00\x00\x09\x01\x00\x00\x00\x00\x00\x00\x00\x00",
        b"\x00\x00\x00\x01\x00\
          \x00\x00\x00\x05\x40\x00\x00\x00\x10",
        Status::Fine,
    ),
    (
        b"\x00\x00\x00\x05\x17\x00\x00\x00\x01",
        b"\x00\x00\x00\x05\x40\x00\x00\x00\x19",
        Status::Fine,
    ),
    (
        b"\x00\x00\x00\x05\x20\x00\x00\x00\x00\
          \x00\x00\x00\x01\xff",
        b"\x00\x00\x00\x01\x51\
          \x00\x00\x00\x01\x7f",
        Status::Fine,
    ),
    (
        b"\x00\x00\x00\x05\x17\x00\x00\x00\x01\
          \x00\x00\x00\x00",
        b"\x00\x00\x00\x05\x40\x00\x00\x00\x19",
        Status::BadMessage { at: 9 },
    ),
    (b"\x00\x00\x00", b"", Status::BadMessage { at: 0 }),
];

/// One copying context is opened, made ready, claimed by worker 0 and finished, and both buffers are taken.
const COPY: &[u8] = b"\x00\x00\x00\x09\x01\x00\x00\x00\x00\x00\x00\x00\x00\
    \x00\x00\x00\x0d\x07\x00\x00\x00\x00\x00\x00\x00\x00\x00\x00\x00\x01\
    \x00\x00\x00\x0d\x07\x00\x00\x00\x00\x00\x00\x00\x01\x00\x00\x00\x01\
    \x00\x00\x00\x13\x09\x00\x00\x00\x00\x00\x00\x00\x00\x00\x00\x00\x00\x00\x00\x00\x07\x00\xff\
    \x00\x00\x00\x09\x0a\x00\x00\x00\x00\x00\x00\x00\x00\
    \x00\x00\x00\x09\x0d\x00\x00\x00\x00\x00\x00\x00\x00\
    \x00\x00\x00\x09\x0d\x00\x00\x00\x00\x00\x00\x00\x01\
    \x00\x00\x00\x05\x20\x00\x00\x00\x00\
    \x00\x00\x00\x05\x21\x00\x00\x00\x00\
    \x00\x00\x00\x09\x0b\x00\x00\x00\x00\x00\x00\x00\x01\
    \x00\x00\x00\x09\x0b\x00\x00\x00\x00\x00\x00\x00\x00";

/// The replies, where the engine does its work.
const COPIED: &[u8] = b"\x00\x00\x00\x01\x00\
    \x00\x00\x00\x05\x03\x00\x00\x00\x01\
    \x00\x00\x00\x05\x03\x00\x00\x00\x01\
    \x00\x00\x00\x01\x00\
    \x00\x00\x00\x01\x00\
    \x00\x00\x00\x01\x00\
    \x00\x00\x00\x01\x00\
    \x00\x00\x00\x05\x50\x00\x00\x00\x00\
    \x00\x00\x00\x06\x53\x00\x00\x00\x00\x00\
    \x00\x00\x00\x1f\x05\x00\x00\x00\x00\x00\x00\x00\x02\x00\x00\x00\x00\x00\x00\x00\x00\x00\x00\x00\x00\x00\x00\x00\x00\x00\x00\x00\x07\x00\xff\
    \x00\x00\x00\x1d\x05\x00\x00\x00\x00\x00\x00\x00\x02\x00\x00\x00\x00\x00\x00\x00\x00\x00\x00\x00\x00\x00\x00\x00\x00\x00\x00\x00\x07";

/// The replies, where it gives up: both buffers come back with ERROR.
const GIVEN_UP: &[u8] = b"\x00\x00\x00\x01\x00\
    \x00\x00\x00\x05\x03\x00\x00\x00\x01\
    \x00\x00\x00\x05\x03\x00\x00\x00\x01\
    \x00\x00\x00\x01\x00\
    \x00\x00\x00\x01\x00\
    \x00\x00\x00\x01\x00\
    \x00\x00\x00\x01\x00\
    \x00\x00\x00\x05\x50\x00\x00\x00\x00\
    \x00\x00\x00\x06\x53\x00\x00\x00\x00\x06\
    \x00\x00\x00\x1d\x05\x00\x00\x00\x00\x00\x00\x00\x00\x00\x00\x00\x40\x00\x00\x00\x00\x00\x00\x00\x00\x00\x00\x00\x00\x00\x00\x00\x07\
    \x00\x00\x00\x1d\x05\x00\x00\x00\x00\x00\x00\x00\x02\x00\x00\x00\x40\x00\x00\x00\x00\x00\x00\x00\x00\x00\x00\x00\x00\x00\x00\x00\x07";

/// Whole, and in single bytes.
const STEPS: [usize; 2] = [4096, 1];

#[test]
fn messages_are_answered_however_they_are_cut(rt: HostRuntime) -> Result<(), Fail> {
    for step in STEPS {
        let outside = Outside {
            read_step: step,
            ..SOUND
        };
        for (messages, replies, status) in MESSAGES {
            let mut input = Vec::new(rt.alloc());
            input.extend_from_slice(messages)?;
            let (ended, written) = run_with(&rt, rt.alloc(), &["wire"], input, &outside)?;
            assert_eq!(rt; written.as_slice(), replies);
            assert_eq!(rt; ended, status);
        }
    }
    Ok(())
}

#[test]
fn a_job_is_run_between_messages(rt: HostRuntime) -> Result<(), Fail> {
    for step in STEPS {
        let cases = [
            (None, COPIED, Status::Fine),
            (Some(0), GIVEN_UP, Status::EngineFault),
        ];
        for (failing_run, replies, status) in cases {
            let outside = Outside {
                read_step: step,
                failing_run,
                ..SOUND
            };
            let mut input = Vec::new(rt.alloc());
            input.extend_from_slice(COPY)?;
            let (ended, written) = run_with(&rt, rt.alloc(), &["wire"], input, &outside)?;
            assert_eq!(rt; written.as_slice(), replies);
            assert_eq!(rt; ended, status);
        }
    }
    Ok(())
}

#[test]
fn a_read_or_a_write_that_fails_ends_the_wire(rt: HostRuntime) -> Result<(), Fail> {
    let cases = [
        (
            Outside {
                failing_read: Some(0),
                ..SOUND
            },
            Status::ReadFault,
        ),
        (
            Outside {
                failing_write: Some(0),
                ..SOUND
            },
            Status::WriteFault,
        ),
    ];
    for (outside, status) in cases {
        let mut input = Vec::new(rt.alloc());
        input.extend_from_slice(COPY)?;
        let (ended, written) = run_with(&rt, rt.alloc(), &["wire"], input, &outside)?;
        assert_eq!(rt; ended, status);
        assert!(rt; written.is_empty());
    }
    Ok(())
}
