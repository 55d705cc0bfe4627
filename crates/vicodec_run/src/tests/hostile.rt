//! Streams with damaged, cut and unusual frames, and frames with numbers, through `decode`.

use crate::tests::outside::{Outside, SOUND, run_with};
use Field::{Body, Colorspace, Flags, Height, Kept, Size, Version, Width};
use std::alloc::Global;
use std::process::Abort;
use std::sync::Wait;
use std::test::Fail;
use std::thread::Threads;
use vc_base::NoMemory;
use vc_top::Status;
use vc_top::Status::{Damaged, Fine};

/// A field of a frame's header; its body, as pieces, each with how often it stands there; or how many of its bytes are
/// kept, from the front.
#[derive(Clone, Copy)]
enum Field {
    Version(u32),
    Width(u32),
    Height(u32),
    Flags(u32),
    Colorspace(u32),
    Size(u32),
    Body(&'static [(&'static [u8], usize)]),
    Kept(usize),
}

/// A frame, as what is not as in the I frame of 16 by 16 samples of 128 in version 3 of the format.
type Frame = &'static [Field];

/// The I frame itself.
const KEY: Frame = &[];

/// The P frame behind it.
const NEXT: Frame = &[Flags(0x80000)];

/// A P frame of 32 by 16 samples.
const WIDE_NEXT: Frame = &[Width(32), Flags(0x80000), Body(&[(b"\0\x0e\0\x0f", 1)])];

/// The I frame in version 4, which numbers frames, with the number 0.
const KEY_0: Frame = &[Version(4)];

/// A body of 64 values, of blocks that each stand by themselves, of samples, and of samples and a byte that is none.
const VALUES: Field = Body(&[(b"\0\x06", 1), (b"\0\0", 64)]);

const BLOCKS: Field = Body(&[(b"\0\0\0\x0f", 4)]);

const SAMPLES: Field = Body(&[(b"\x80", 256)]);

const NO_SAMPLE: Field = Body(&[(b"\x80", 100), (b"\xff", 1), (b"\x80", 155)]);

/// Streams with one unusual frame, the number of their good pictures, and how their decoding ends.
const HOSTILE: [(&[Frame], usize, Status); 23] = [
    (&[&[Kept(43)]], 0, Damaged),
    // No header is legal.
    (&[&[Version(5)]], 0, Damaged),
    (&[&[Flags(0x80600)]], 0, Damaged),
    (&[&[Flags(0x90400)]], 0, Damaged),
    (&[&[Width(15)]], 0, Damaged),
    (&[&[Colorspace(256)]], 0, Damaged),
    (&[&[Flags(0xa0400), Height(17)]], 0, Damaged),
    // A head has a wrong bit, or stands for more blocks than there are; a word has 15 for its low bits.
    (&[&[Body(&[(b"\0\x08\0\x0f", 1)])]], 0, Damaged),
    (&[&[Body(&[(b"\x80\x06\0\x0f", 1)])]], 0, Damaged),
    (&[&[Body(&[(b"\0\x07\0\x0f", 1)])]], 0, Damaged),
    (&[&[Body(&[(b"\x20\x06\0\x0f", 1)])]], 0, Damaged),
    (&[&[Body(&[(b"\0\x06\0\x1f", 1)])]], 0, Damaged),
    // A body is too short, or too long.
    (&[&[Size(3), Body(&[(b"\0\x06\0", 1)])]], 0, Damaged),
    (&[&[Size(6), Body(&[(b"\0\x06\0\x0f\0\0", 1)])]], 0, Damaged),
    // The size is wrong: by one, the greatest, and past that. The next frame is found.
    (&[&[Size(5)], KEY], 1, Damaged),
    (&[&[Size(0x10e0000)], KEY], 1, Damaged),
    (&[&[Size(0x10e0001)], KEY], 1, Damaged),
    (&[&[Kept(41)], KEY], 1, Damaged),
    // A P frame has another size than its reference.
    (&[KEY, WIDE_NEXT], 1, Damaged),
    // Other words than the encoder's say the same. A plane is stored raw.
    (&[&[Size(130), VALUES]], 1, Fine),
    (&[&[Size(16), BLOCKS]], 1, Fine),
    (&[&[Flags(0x80410), Size(256), SAMPLES]], 1, Fine),
    (&[&[Flags(0x80410), Size(256), NO_SAMPLE]], 0, Damaged),
];

/// Streams with numbered frames, the number of their good pictures, and how their decoding ends.
const NUMBERED: [(&[Frame], usize, Status); 7] = [
    (&[KEY_0, &[Version(4), Flags(0x280000)]], 2, Fine),
    // The number 2 comes in the place of 1. The frame behind it has no reference, and is passed over.
    (&[KEY_0, &[Version(4), Flags(0x480000)]], 1, Damaged),
    (
        &[
            KEY_0,
            &[Version(4), Flags(0x480000)],
            &[Version(4), Flags(0x680000)],
        ],
        1,
        Damaged,
    ),
    // No number is looked for behind a frame that has none.
    (&[KEY, &[Version(4), Flags(0xe80000)]], 2, Fine),
    (&[KEY_0, NEXT, &[Version(4), Flags(0x1280000)]], 3, Fine),
    // Behind 2,047 comes 0.
    (
        &[
            &[Version(4), Flags(0xffe80400)],
            &[Version(4), Flags(0x80000)],
        ],
        2,
        Fine,
    ),
    // Version 3 has no number.
    (&[KEY, &[Flags(0x280000)]], 1, Damaged),
];

/// Puts a piece behind the bytes, so often.
fn push_often(bytes: &mut Vec<u8>, piece: &[u8], times: usize) -> Result<(), NoMemory> {
    for _time in 0..times {
        bytes.extend_from_slice(piece)?;
    }
    Ok(())
}

/// What a frame consists of.
#[derive(Clone, Copy)]
struct Parts {
    /// Version, width, height, flags, the four fields of colours, and size.
    fields: [u32; 9],
    body: &'static [(&'static [u8], usize)],
    kept: usize,
}

/// The parts of a frame.
fn parts_of(frame: Frame) -> Parts {
    let mut parts = Parts {
        fields: [3, 16, 16, 0x80400, 0, 0, 0, 0, 4],
        body: &[(b"\0\x06\0\x0f", 1)],
        kept: usize::MAX,
    };
    for field in frame {
        match *field {
            Version(version) => parts.fields[0] = version,
            Width(width) => parts.fields[1] = width,
            Height(height) => parts.fields[2] = height,
            Flags(flags) => parts.fields[3] = flags,
            Colorspace(colorspace) => parts.fields[4] = colorspace,
            Size(size) => parts.fields[8] = size,
            Body(body) => parts.body = body,
            Kept(kept) => parts.kept = kept,
        }
    }
    parts
}

/// Puts the header of a frame behind the bytes.
fn push_header(bytes: &mut Vec<u8>, parts: &Parts) -> Result<(), NoMemory> {
    bytes.extend_from_slice(b"OOOO\xff\xff\xff\xff")?;
    for field in parts.fields {
        bytes.extend_from_slice(&field.to_be_bytes())?;
    }
    Ok(())
}

/// The bytes of a frame that are kept.
fn bytes_of(alloc: Global, frame: Frame) -> Result<Vec<u8>, NoMemory> {
    let parts = parts_of(frame);
    let mut bytes = Vec::new(alloc);
    push_header(&mut bytes, &parts)?;
    for (piece, times) in parts.body {
        push_often(&mut bytes, piece, *times)?;
    }
    bytes.truncate(parts.kept);
    Ok(bytes)
}

/// The bytes of some frames, one after another.
fn stream_of(alloc: Global, frames: &[Frame]) -> Result<Vec<u8>, NoMemory> {
    let mut bytes = Vec::new(alloc);
    for frame in frames {
        let next = bytes_of(alloc, frame)?;
        bytes.extend_from_slice(&next)?;
    }
    Ok(bytes)
}

/// How `decode` of the frames ends, and what it writes. Each read gives so many bytes at most.
fn decoded<R: Threads + Wait + Sync>(
    rt: &R,
    alloc: Global,
    workers: &str,
    frames: &[Frame],
    read_step: usize,
) -> Result<(Status, Vec<u8>), NoMemory> {
    let line: &[&str] = &["decode", "--workers", workers];
    let outside = Outside { read_step, ..SOUND };
    let input = stream_of(alloc, frames)?;
    run_with(rt, alloc, line, input, &outside)
}

/// Decodes streams, whole by one worker and by pieces of seven bytes by four. Each picture is 256 samples of 128.
fn check<R: Threads + Wait + Sync + Abort>(
    rt: &R,
    alloc: Global,
    streams: &[(&[Frame], usize, Status)],
) -> Result<(), Fail> {
    for (at, (frames, pictures, status)) in streams.iter().enumerate() {
        let wanted = vec![in alloc; 128; pictures.saturating_mul(256)]?;
        for (workers, read_step) in [("1", 4096), ("4", 7)] {
            let (ended, written) = decoded(rt, alloc, workers, frames, read_step)?;
            assert_eq!(rt; written.as_slice(), wanted.as_slice(), "stream {at}");
            assert_eq!(rt; ended, *status, "stream {at}");
        }
    }
    Ok(())
}

#[test]
fn hostile_streams_give_their_good_pictures(rt: HostRuntime) -> Result<(), Fail> {
    check(&rt, rt.alloc(), &HOSTILE)
}

#[test]
fn numbers_show_that_a_frame_is_missing(rt: HostRuntime) -> Result<(), Fail> {
    check(&rt, rt.alloc(), &NUMBERED)
}
