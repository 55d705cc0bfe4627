//! Which streams leave a byte in no frame, and in which the header of an I frame stands, in pieces of any size.

ghost use Rattle.std.specs.Prelude.{◌<◌};

use super::*;
use std::alloc::Global;
use std::test::Fail;

/// A grey I frame of 16 times 16 samples.
const KEY: [u8; 48] = [
    0x4f, 0x4f, 0x4f, 0x4f, 0xff, 0xff, 0xff, 0xff, 0, 0, 0, 3, 0, 0, 0, 16, 0, 0, 0, 16, 0, 8, 4,
    0, //
    0, 0, 0, 0, 0, 0, 0, 0, 0, 0, 0, 0, 0, 0, 0, 0, 0, 0, 0, 4, 0, 6, 0, 15,
];

/// A line of the table: how many bytes of the first frame there are, the four bytes of its size field, the flags' byte that
/// says whether it is an I frame, what stands behind it, whether a byte is left, and whether the header of an I frame is there.
type Line<'a> = (usize, [u8; 4], u8, &'a [u8], bool, bool);

/// The size field of a frame with four bytes.
const FOUR: [u8; 4] = [0, 0, 0, 4];

/// The flags' byte that makes an I frame.
const I_FRAME: u8 = 4;

/// The flags' byte that makes a P frame.
const P_FRAME: u8 = 0;

/// Streams by what stands in front.
const TABLE: [Line; 12] = [
    (0, FOUR, I_FRAME, &[], false, false),
    (0, FOUR, I_FRAME, &[0], true, false),
    (48, FOUR, I_FRAME, &[], false, true),
    (48, FOUR, I_FRAME, &[0, 0, 0], true, true),
    (48, FOUR, I_FRAME, &KEY, false, true),
    (48, FOUR, P_FRAME, &[], false, false),
    (40, FOUR, I_FRAME, &[], true, false),
    (43, FOUR, I_FRAME, &[], true, false),
    (41, FOUR, I_FRAME, &KEY, false, true),
    (48, [0, 0, 0, 5], I_FRAME, &KEY, false, true),
    (48, [1, 14, 0, 0], I_FRAME, &KEY, false, true),
    (48, [1, 14, 0, 1], I_FRAME, &KEY, true, true),
];

/// The stream of a line.
fn stream_of(alloc: Global, line: &Line) -> Result<Vec<u8>, Fail> {
    let mut front = KEY;
    front[40..44].copy_from_slice(&line.1);
    front[22] = line.2;
    let mut stream = Vec::new(alloc);
    stream.extend_from_slice(&front[..line.0.min(48)])?;
    stream.extend_from_slice(line.3)?;
    Ok(stream)
}

/// What a coverage says of a stream that it reads in pieces of so many bytes.
fn told_of(alloc: Global, stream: &[u8], size: usize) -> Result<(bool, bool), Fail>
    requires { 0 < size }
{
    let mut coverage = Coverage::make(alloc)?;
    for piece in stream.chunks(size) {
        if coverage.count() > 1000 {
            return Err(Fail::new("more bytes than a line has"));
        }
        coverage.read(piece);
    }
    Ok((coverage.leaves_a_byte(), coverage.has_key_header()))
}

#[test]
fn the_streams_of_the_table_are_covered_as_they_say(rt: HostRuntime) -> Result<(), Fail> {
    for line in TABLE {
        let stream = stream_of(rt.alloc(), &line)?;
        for size in [1, 7, 1000] {
            let told = told_of(rt.alloc(), &stream, size)?;
            assert_eq!(rt; told, (line.4, line.5), "{stream:?} in pieces of {size}");
        }
    }
    Ok(())
}
