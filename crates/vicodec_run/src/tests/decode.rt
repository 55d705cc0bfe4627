//! Coded streams through `decode`.

use crate::tests::outside::{Outside, SOUND, run_with};
use crate::tests::{Failing, run};
use std::alloc::Global;
use std::test::Fail;
use vc_base::NoMemory;
use vc_top::Status;

// Frames of samples of 128, of 48 bytes each.

/// An I frame of 16 by 16 samples, in version 3 of the format, which numbers no frames.
pub(crate) const KEY: &[u8] =
    b"OOOO\xff\xff\xff\xff\0\0\0\x03\0\0\0\x10\0\0\0\x10\0\x08\x04\0\0\0\0\0\0\0\0\0\0\0\0\0\0\0\0\0\0\0\0\x04\0\x06\0\x0f";

/// The P frame behind it.
pub(crate) const NEXT: &[u8] =
    b"OOOO\xff\xff\xff\xff\0\0\0\x03\0\0\0\x10\0\0\0\x10\0\x08\0\0\0\0\0\0\0\0\0\0\0\0\0\0\0\0\0\0\0\0\0\x04\0\x06\0\x0f";

/// An I frame of 32 by 16 samples.
const WIDE: &[u8] =
    b"OOOO\xff\xff\xff\xff\0\0\0\x03\0\0\0\x20\0\0\0\x10\0\x08\x04\0\0\0\0\0\0\0\0\0\0\0\0\0\0\0\0\0\0\0\0\x04\0\x0e\0\x0f";

/// Bytes that are no part of a frame.
const ZEROS: &[u8] = b"\0\0\0";

/// Streams, as the bytes that each takes from the front of its pieces; the bytes of their good pictures; and how their
/// decoding ends.
const STREAMS: [(&[(&[u8], usize)], usize, Status); 8] = [
    (&[], 0, Status::Fine),
    (&[(KEY, 48), (NEXT, 48)], 512, Status::Fine),
    // A P frame without a reference is passed over.
    (&[(NEXT, 48)], 0, Status::Fine),
    // The pictures become wider, once after as many pictures as the decoder has CAPTURE buffers, and more.
    (&[(KEY, 48), (WIDE, 48)], 768, Status::Fine),
    (
        &[
            (KEY, 48),
            (KEY, 48),
            (KEY, 48),
            (KEY, 48),
            (KEY, 48),
            (WIDE, 48),
        ],
        1792,
        Status::Fine,
    ),
    // They become narrower.
    (&[(WIDE, 48), (KEY, 48)], 768, Status::Fine),
    // Bytes are in no frame.
    (&[(KEY, 48), (ZEROS, 3)], 256, Status::Damaged),
    (&[(KEY, 40)], 0, Status::Damaged),
];

/// The bytes of a stream.
pub(crate) fn stream(alloc: Global, pieces: &[(&[u8], usize)]) -> Result<Vec<u8>, NoMemory> {
    let mut bytes = Vec::new(alloc);
    for (piece, length) in pieces {
        let front = piece.get(..*length).unwrap_or(piece);
        bytes.extend_from_slice(front)?;
    }
    Ok(bytes)
}

#[test]
fn streams_become_pictures(rt: HostRuntime) -> Result<(), Fail> {
    for workers in ["1", "16"] {
        let line: &[&str] = &["decode", "--workers", workers];
        for (pieces, length, status) in STREAMS {
            let input = stream(rt.alloc(), pieces)?;
            let (ended, written) = run(&rt, rt.alloc(), line, input, Failing::Nothing)?;
            let pictures = vec![in rt.alloc(); 128; length]?;
            assert_eq!(rt; written.as_slice(), pictures.as_slice());
            assert_eq!(rt; ended, status);
        }
    }
    Ok(())
}

/// What fails, how the decoding of two frames ends, and the least and the most bytes of their pictures that are written.
/// The first run looks for the first header.
const FAULTS: [(Outside, Status, usize, usize); 6] = [
    (
        Outside {
            failing_run: Some(0),
            ..SOUND
        },
        Status::EngineFault,
        0,
        0,
    ),
    (
        Outside {
            failing_run: Some(1),
            ..SOUND
        },
        Status::EngineFault,
        0,
        0,
    ),
    (
        Outside {
            failing_run: Some(2),
            ..SOUND
        },
        Status::EngineFault,
        0,
        256,
    ),
    (
        Outside {
            write_step: 10,
            failing_write: Some(5),
            ..SOUND
        },
        Status::WriteFault,
        1,
        50,
    ),
    (
        Outside {
            read_step: 48,
            failing_read: Some(0),
            ..SOUND
        },
        Status::ReadFault,
        0,
        0,
    ),
    (
        Outside {
            read_step: 48,
            failing_read: Some(1),
            ..SOUND
        },
        Status::ReadFault,
        0,
        256,
    ),
];

#[test]
fn faults_end_a_decoding(rt: HostRuntime) -> Result<(), Fail> {
    let line: &[&str] = &["decode", "--workers", "1"];
    let pictures = vec![in rt.alloc(); 128; 512]?;
    for (outside, status, least, most) in FAULTS {
        for engine in 0..3 {
            let outside = Outside { engine, ..outside };
            let input = stream(rt.alloc(), &[(KEY, 48), (NEXT, 48)])?;
            let (ended, written) = run_with(&rt, rt.alloc(), line, input, &outside)?;
            assert_eq!(rt; ended, status);
            assert!(rt; least <= written.len() && written.len() <= most);
            assert_eq!(rt; Some(written.as_slice()), pictures.get(..written.len()));
        }
    }
    Ok(())
}
