//! The frames of bytes that docs/FORMAT.md, "Frame places", gives, in pieces of any size.

ghost use Rattle.std.specs.Prelude.{◌<◌};

use super::*;
use std::alloc::Global;
use std::test::Fail;
use vc_base::Stamp;

/// The first bytes of a grey I frame of 16 times 16 samples, without the last byte of its size field.
const HEAD: [u8; 43] = [
    0x4f, 0x4f, 0x4f, 0x4f, 0xff, 0xff, 0xff, 0xff, 0, 0, 0, 3, 0, 0, 0, 16, 0, 0, 0, 16, 0, 8, 4,
    0, //
    0, 0, 0, 0, 0, 0, 0, 0, 0, 0, 0, 0, 0, 0, 0, 0, 0, 0, 0,
];

/// What follows in a frame of 48 bytes.
const REST: [u8; 5] = [4, 0x00, 0x06, 0x00, 0x0f];

/// What an answer was, after how many bytes in all, and for a frame the stamp of its first byte and how many bytes its
/// body has.
type Answer = (u8, usize, u64, usize);

/// The answers over bytes in pieces of so many, each of whose stamps is the place of its first byte.
fn answers(alloc: Global, bytes: &[u8], limit: u32, size: usize) -> Result<Vec<Answer>, Fail>
    requires { 0 < size }
{
    let mut assembly = Assembly::make(alloc, limit)?;
    let mut answers = Vec::new(alloc);
    let mut taken: usize = 0;
    for piece in bytes.chunks(size) {
        let stamp = Stamp(taken as u64);
        let mut rest = piece;
        for _call in 0..8 {
            let (count, found) = feed(&mut assembly, rest, stamp);
            rest = &rest[count..];
            taken = taken.wrapping_add(count);
            match found {
                Found::More => {},
                Found::Head(_) => answers.push((b'h', taken, 0, 0))?,
                Found::Whole(_) => {
                    let body = assembly.body().len();
                    answers.push((b'w', taken, assembly.stamp().0, body))?;
                },
                Found::Cut(_) => answers.push((b'c', taken, assembly.stamp().0, 0))?,
            }
        }
    }
    Ok(answers)
}

/// So many first bytes of a frame of 48 bytes, and behind them such a frame. Where all but the last byte of the header
/// stand in front, they are a whole frame whose size field ends with `last`.
fn bytes_of(alloc: Global, front: usize, last: u8) -> Result<Vec<u8>, Fail> {
    let mut bytes = Vec::new(alloc);
    for byte in HEAD.iter().take(front) {
        bytes.push(*byte)?;
    }
    if front == 43 {
        bytes.push(last)?;
        bytes.extend_from_slice(&REST[1..])?;
    }
    bytes.extend_from_slice(&HEAD)?;
    bytes.extend_from_slice(&REST)?;
    Ok(bytes)
}

/// A line of the table: what stands in front of the last frame, the limit, and the answers, where stamps are places.
type Line<'a> = (usize, u8, u32, &'a [Answer]);

const MOST: u32 = 17694720;

/// Frames behind all that may stand in front of them.
const TABLE: [Line; 8] = [
    (0, 0, 556, &[(b'h', 44, 0, 0), (b'w', 48, 0, 4)]),
    (0, 0, 3, &[]),
    (8, 0, 556, &[(b'h', 52, 0, 0), (b'w', 56, 8, 4)]),
    (
        41,
        0,
        MOST,
        &[
            (b'h', 44, 0, 0),
            (b'c', 49, 0, 0),
            (b'h', 85, 0, 0),
            (b'w', 89, 41, 4),
        ],
    ),
    (41, 0, 556, &[(b'h', 85, 0, 0), (b'w', 89, 41, 4)]),
    (
        43,
        5,
        556,
        &[
            (b'h', 44, 0, 0),
            (b'w', 49, 0, 5),
            (b'h', 92, 0, 0),
            (b'w', 96, 48, 4),
        ],
    ),
    (
        43,
        32,
        556,
        &[
            (b'h', 44, 0, 0),
            (b'c', 56, 0, 0),
            (b'h', 92, 0, 0),
            (b'w', 96, 48, 4),
        ],
    ),
    (
        43,
        0,
        556,
        &[
            (b'h', 44, 0, 0),
            (b'w', 44, 0, 0),
            (b'h', 92, 0, 0),
            (b'w', 96, 48, 4),
        ],
    ),
];

#[test]
fn the_frames_of_the_table_are_told_in_pieces_of_any_size(rt: HostRuntime) -> Result<(), Fail> {
    for (front, last, limit, wanted) in TABLE {
        let bytes = bytes_of(rt.alloc(), front, last)?;
        for size in [1, 7, 1000] {
            let told = answers(rt.alloc(), &bytes, limit, size)?;
            assert_eq!(rt; told.len(), wanted.len(), "in pieces of {size}");
            for (answer, want) in told.iter().zip(wanted) {
                let stamp = want.2 / size as u64 * size as u64;
                assert_eq!(rt;
                    *answer,
                    (want.0, want.1, stamp, want.3),
                    "in pieces of {size}"
                );
            }
        }
    }
    Ok(())
}

#[test]
fn an_empty_body_is_told_behind_its_header(rt: HostRuntime) -> Result<(), Fail> {
    let mut assembly = Assembly::make(rt.alloc(), 0)?;
    let mut bytes = [0; 44];
    for (byte, from) in bytes.iter_mut().zip(HEAD) {
        *byte = from;
    }
    let (count, found) = feed(&mut assembly, &bytes, Stamp(7));
    assert_eq!(rt; count, 44);
    let Found::Head(header) = found else {
        panic!(rt; "{found:?}")
    };
    assert_eq!(rt; header.size, 0);
    assert_eq!(rt;
        feed(&mut assembly, &[], Stamp(8)),
        (0, Found::Whole(header))
    );
    assert_eq!(rt; feed(&mut assembly, &[], Stamp(8)), (0, Found::More));
    assembly.reset();
    assert_eq!(rt;
        feed(&mut assembly, &bytes[20..], Stamp(9)),
        (24, Found::More)
    );
    Ok(())
}
