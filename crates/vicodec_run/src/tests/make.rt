//! Pictures of the generator.

use crate::tests::{Failing, run};
use std::test::Fail;
use vc_top::Status;

/// Lines, how many bytes they write, and some of these at their places: samples of one plane; samples of all three
/// planes of the second picture for a number; U and V in turns; Y, U, Y and V in turns.
const MADE: [(&[&str], usize, [(usize, u8); 4]); 4] = [
    (
        &[
            "make", "--format", "GREY", "--width", "16", "--height", "16",
        ],
        256,
        [(0, 0x00), (1, 0x01), (15, 0x0f), (255, 0x30)],
    ),
    (
        &[
            "make",
            "--number",
            "5",
            "--height",
            "16",
            "--pictures",
            "2",
            "--width",
            "16",
        ],
        768,
        [(383, 0x9a), (384, 0x08), (640, 0x48), (704, 0x88)],
    ),
    (
        &[
            "make", "--format", "NV12", "--width", "16", "--height", "16",
        ],
        384,
        [(256, 0x40), (257, 0x80), (258, 0x41), (383, 0x95)],
    ),
    (
        &[
            "make", "--format", "YUYV", "--width", "16", "--height", "17",
        ],
        544,
        [(0, 0x00), (1, 0x40), (2, 0x01), (3, 0x80)],
    ),
];

#[test]
fn pictures_are_made(rt: HostRuntime) -> Result<(), Fail> {
    for (line, length, samples) in MADE {
        let (ended, bytes) = run(
            &rt,
            rt.alloc(),
            line,
            Vec::new(rt.alloc()),
            Failing::Nothing,
        )?;
        assert_eq!(rt; ended, Status::Fine);
        assert_eq!(rt; bytes.len(), length);
        for (place, value) in samples {
            assert_eq!(rt; bytes.get(place).copied(), Some(value));
        }
    }
    Ok(())
}

#[test]
fn making_reads_nothing_and_may_fail(rt: HostRuntime) -> Result<(), Fail> {
    let small: &[&str] = &[
        "make", "--format", "GREY", "--width", "16", "--height", "16",
    ];
    let rows = [
        (small, Failing::Source, Status::Fine, 256),
        (small, Failing::Engine { run: 0 }, Status::Fine, 256),
        (small, Failing::Sink, Status::WriteFault, 0),
        (
            &["make", "--width", "17"],
            Failing::Nothing,
            Status::Usage,
            0,
        ),
        (
            &["make", "--slots", "4"],
            Failing::Nothing,
            Status::Usage,
            0,
        ),
        (&["transcode"], Failing::Nothing, Status::Usage, 0),
    ];
    for (line, fails, status, length) in rows {
        let (ended, bytes) = run(&rt, rt.alloc(), line, Vec::new(rt.alloc()), fails)?;
        assert_eq!(rt; ended, status);
        assert_eq!(rt; bytes.len(), length);
    }
    Ok(())
}
