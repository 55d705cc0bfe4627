//! Raw pictures through `encode`.

use crate::tests::outside::{Outside, SOUND, run_with};
use crate::tests::{Failing, run};
use std::test::Fail;
use vc_top::Status;

/// The frames of two pictures of 16 by 16 samples of 128: an I frame, and the P frame behind it.
const FRAMES: &[u8; 96] =
    b"OOOO\xff\xff\xff\xff\0\0\0\x04\0\0\0\x10\0\0\0\x10\0\x08\x04\0\0\0\0\0\0\0\0\0\0\0\0\0\0\0\0\0\0\0\0\x04\0\x06\0\x0f\
        OOOO\xff\xff\xff\xff\0\0\0\x04\0\0\0\x10\0\0\0\x10\0\x28\0\0\0\0\0\0\0\0\0\0\0\0\0\0\0\0\0\0\0\0\0\x04\0\x06\0\x0f";

/// So many bytes 128, how many bytes of the frames come of them, and how the encoding ends: two pictures; one picture
/// and a part of another; none.
const INPUTS: [(usize, usize, Status); 3] = [
    (512, 96, Status::Fine),
    (300, 48, Status::ShortRaw),
    (0, 0, Status::Fine),
];

#[test]
fn pictures_are_encoded(rt: HostRuntime) -> Result<(), Fail> {
    for workers in ["1", "16"] {
        let line: &[&str] = &[
            "encode",
            "--format",
            "GREY",
            "--width",
            "16",
            "--height",
            "16",
            "--workers",
            workers,
        ];
        for (bytes, coded, status) in INPUTS {
            let input = vec![in rt.alloc(); 128; bytes]?;
            let (ended, written) = run(&rt, rt.alloc(), line, input, Failing::Nothing)?;
            assert_eq!(rt; Some(written.as_slice()), FRAMES.get(..coded));
            assert_eq!(rt; ended, status);
        }
    }
    Ok(())
}

/// What fails, how the encoding of two pictures ends, and the least and the most bytes of their frames that were
/// written.
const FAULTS: [(Outside, Status, usize, usize); 4] = [
    (
        Outside {
            failing_run: Some(0),
            ..SOUND
        },
        Status::EngineFault,
        0,
        0,
    ),
    (
        Outside {
            failing_run: Some(1),
            ..SOUND
        },
        Status::EngineFault,
        0,
        48,
    ),
    (
        Outside {
            write_step: 10,
            failing_write: Some(5),
            ..SOUND
        },
        Status::WriteFault,
        1,
        50,
    ),
    (
        Outside {
            read_step: 100,
            failing_read: Some(0),
            ..SOUND
        },
        Status::ReadFault,
        0,
        0,
    ),
];

#[test]
fn faults_end_an_encoding(rt: HostRuntime) -> Result<(), Fail> {
    let line: &[&str] = &[
        "encode",
        "--format",
        "GREY",
        "--width",
        "16",
        "--height",
        "16",
        "--workers",
        "1",
    ];
    for (outside, status, least, most) in FAULTS {
        for engine in 0..3 {
            let outside = Outside { engine, ..outside };
            let input = vec![in rt.alloc(); 128; 512]?;
            let (ended, written) = run_with(&rt, rt.alloc(), line, input, &outside)?;
            assert_eq!(rt; ended, status);
            assert!(rt; least <= written.len() && written.len() <= most);
            assert_eq!(rt; Some(written.as_slice()), FRAMES.get(..written.len()));
        }
    }
    Ok(())
}
