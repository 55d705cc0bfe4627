//! Planes of docs/FORMAT.md's frames, raw planes, and what is written read back.

ghost use Rattle.std.specs.Prelude.{◌≡◌};

use super::*;
use vc_coder::{BlockCoder, TransformCoder};
use vc_defs::Damaged;
use vc_fwht::{FastTransform, PlainTransform};
use vc_rlc::read_block;

/// A frame of 16 by 16 samples.
fn shape(inter: bool, qp: u32) -> Shape
    ensures width { result.width ≡ 16 }
    ensures height { result.height ≡ 16 }
    ensures qp { result.qp ≡ qp }
{
    Shape {
        width: 16,
        height: 16,
        inter,
        qp,
    }
}

/// What a plane is read as over a reference of samples 7, where it is legal and has all of the bytes.
fn read_whole(body: &[u8], inter: bool, raw: bool) -> Option<[u8; 256]> {
    let mut reference = [7; 256];
    match read_plane(
        &TransformCoder(FastTransform),
        body,
        0,
        &shape(inter, 20),
        raw,
        &mut reference,
    ) {
        Ok(end) if end == body.len() => Some(reference),
        _ => None,
    }
}

#[test]
fn legal_planes_are_read(rt: HostRuntime) {
    let mut long = [0; 130];
    long[1] = 6;
    let single = [0, 0, 0, 15, 0, 0, 0, 15, 0, 0, 0, 15, 0, 0, 0, 15];
    assert_eq!(rt; read_whole(&[0, 6, 0, 15], false, false), Some([128; 256]));
    assert_eq!(rt; read_whole(&[0, 6, 0, 15], true, false), Some([128; 256]));
    assert_eq!(rt; read_whole(&[128, 6, 0, 15], true, false), Some([7; 256]));
    assert_eq!(rt;
        read_whole(&[0, 6, 127, 0, 0, 15], false, false),
        Some([255; 256])
    );
    assert_eq!(rt; read_whole(&long, false, false), Some([128; 256]));
    assert_eq!(rt; read_whole(&single, false, false), Some([128; 256]));
    assert_eq!(rt; read_whole(&[128; 256], false, true), Some([128; 256]));
}

#[test]
fn illegal_planes_are_damaged(rt: HostRuntime) {
    for head in [
        [0, 8, 0, 15],
        [128, 6, 0, 15],
        [0, 7, 0, 15],
        [32, 6, 0, 15],
        [0, 6, 0, 31],
    ] {
        assert_eq!(rt; read_whole(&head, false, false), None);
    }
    assert_eq!(rt; read_whole(&[0, 6, 0], false, false), None);
    assert_eq!(rt; read_whole(&[128; 255], false, true), None);
    let mut raw = [128; 256];
    raw[200] = 255;
    assert_eq!(rt;
        read_plane(
            &TransformCoder(FastTransform),
            &raw,
            0,
            &shape(false, 20),
            true,
            &mut [7; 256]
        ),
        Err(Damaged)
    );
}

/// Whether a plane, written over a reference of samples 100, is read back as the reference that writing left.
fn is_read_back<C: BlockCoder>(coder: &C, plane: &[u8; 256], inter: bool, qp: u32) -> bool
    requires { qp ≡ 5 }
{
    let shape = shape(inter, qp);
    let mut left = [100; 256];
    let mut back = [100; 256];
    let mut out = [9; 300];
    let written = write_plane(coder, plane, &mut left, &shape, &mut out, 2);
    let read = read_plane(coder, &out, 2, &shape, written.raw, &mut back);
    read == Ok(written.end) && left == back && out[0] == 9 && out[299] == 9
}

#[test]
fn the_first_value_alone_is_at_every_place(rt: HostRuntime) {
    let mut q = [0; 64];
    let Ok(end) = read_block(&[127, 0, 0, 15], 0, &mut q) else {
        panic!(rt; "the words are damaged")
    };
    assert_eq!(rt; (end, q[0]), (4, 2032));
    assert_eq!(rt;
        TransformCoder(FastTransform).samples(&q, &[0; 64], false),
        [255; 64]
    );
}

/// Whether an intra plane of equal samples is written as these words, and becomes the reference.
fn is_spelled(sample: u8, words: &[u8]) -> bool {
    let mut reference = [7; 256];
    let mut out = [9; 300];
    let shape = shape(false, 20);
    let written = write_plane(
        &TransformCoder(FastTransform),
        &[sample; 256],
        &mut reference,
        &shape,
        &mut out,
        1,
    );
    !written.raw
        && written.end == 1 + words.len()
        && out[1..].starts_with(words)
        && (out[0], out[299]) == (9, 9)
        && reference == [sample; 256]
}

#[test]
fn planes_of_one_sample_have_one_entry(rt: HostRuntime) {
    let rows: [(u8, &[u8]); 3] = [
        (128, &[0, 6, 0, 15]),
        (255, &[0, 6, 127, 0, 0, 15]),
        (0, &[0, 6, 128, 0, 0, 15]),
    ];
    for (sample, words) in rows {
        assert!(rt; is_spelled(sample, words), "{sample}");
    }
}

#[test]
fn a_plane_whose_words_are_longer_is_raw(rt: HostRuntime) {
    let mut plane = [128; 256];
    let mut stored = [128; 256];
    for (place, sample, kept) in [(0, 255, 254), (8, 0, 0), (128, 255, 254), (136, 0, 0)] {
        plane[place] = sample;
        stored[place] = kept;
    }
    let mut reference = [7; 256];
    let mut out = [9; 258];
    let shape = shape(false, 1);
    let written = write_plane(
        &TransformCoder(PlainTransform),
        &plane,
        &mut reference,
        &shape,
        &mut out,
        1,
    );
    assert_eq!(rt;
        written,
        Written {
            end: 257,
            raw: true
        }
    );
    assert_eq!(rt; &out[1..257], stored.as_slice());
    assert_eq!(rt; (out[0], out[257]), (9, 9));
    assert_eq!(rt; reference, stored);
}

#[test]
fn what_is_written_is_read_back(rt: HostRuntime) {
    let mut plane = [0; 256];
    for k in 0..256 {
        plane[k] = ((k * k * 37 + k * 101) % 256) as u8;
    }
    for inter in [false, true] {
        assert!(rt; is_read_back(&TransformCoder(FastTransform), &plane, inter, 5));
        assert!(rt; is_read_back(&TransformCoder(PlainTransform), &[250; 256], inter, 5));
    }
}
