//! The named frames of docs/FORMAT.md, and pictures of every raw format back from their frames.

ghost use Rattle.std.specs.Prelude.{◌≡◌, ◌≤◌, true, IfOk};
ghost use Rattle.vc_defs.specs.Headers.{is_legal, is_legal_number};
ghost use Rattle.vc_base.specs.Limits.{most_bytes};
ghost use Rattle.vc_defs.specs.Laws.{IsRawFormat};
ghost use Rattle.vc_defs.specs.Raw.{grey, geometry_of};
ghost use Rattle.vc_defs.specs.Bodies.{padded_sum};
ghost use Rattle.vc_defs.specs.Encoder.{fresh_encoder};
ghost use Rattle.vc_work.specs.References.{picture_total};
ghost use Rattle.vc_work.specs.Runs.{HasGeometry};

use super::*;
use std::test::Fail;
use vc_base::{Format, Fourcc};
use vc_coder::TransformCoder;
use vc_defs::{Damaged, Geometry, Header, Layout, NotHeader};
use vc_fwht::{FastTransform, PlainTransform};
use vc_work::{Rates, Reference};

const GREY: Fourcc = Fourcc(*b"GREY");

const YU12: Fourcc = Fourcc(*b"YU12");

const NV12: Fourcc = Fourcc(*b"NV12");

const YUYV: Fourcc = Fourcc(*b"YUYV");

const MAGIC: [u8; 8] = [0x4f, 0x4f, 0x4f, 0x4f, 0xff, 0xff, 0xff, 0xff];

const KEY: [u8; 4] = [0, 8, 4, 0];

/// A raw format of 16 by 16 samples.
fn small(fourcc: Fourcc, size: u32) -> Format
    ensures { result ≡ record { fourcc = fourcc; width = 16; height = 16; size = size } }
{
    Format {
        fourcc,
        width: 16,
        height: 16,
        size,
    }
}

/// The rates at open, with another quantiser of I frames.
fn rates(iqp: u32) -> Rates
    ensures { result ≡ record { gop = 10; iqp = iqp; pqp = 20 } }
{
    Rates {
        gop: 10,
        iqp,
        pqp: 20,
    }
}

/// The header of version 4 of a frame of 16 by 16 samples, with these flags and a body of this size.
fn header(flags: [u8; 4], size: [u8; 4]) -> [u8; 44] {
    let mut bytes = [0; 44];
    bytes[..8].copy_from_slice(&MAGIC);
    bytes[11] = 4;
    bytes[15] = 16;
    bytes[19] = 16;
    bytes[20..24].copy_from_slice(&flags);
    bytes[40..].copy_from_slice(&size);
    bytes
}

/// Whether a grey picture is encoded as a frame with these flags and this body.
fn becomes(
    reference: &mut Reference,
    raw: &[u8; 256],
    iqp: u32,
    flags: [u8; 4],
    size: [u8; 4],
    body: &[u8],
) -> bool
    requires iqp { (1 ≤ iqp) × (iqp ≤ 31) }
    requires area { 256 ≤ reference.old.size }
    requires same { HasGeometry (geometry_of (record { fourcc = grey; width = 16; height = 16; size = 256 })) reference.old.state.reference }
    ensures area { reference.new.size ≡ reference.old.size }
    ensures same { HasGeometry (geometry_of (record { fourcc = grey; width = 16; height = 16; size = 256 })) reference.new.state.reference }
{
    let mut out = [0; 300];
    let (end, key) = encode_frame(
        &TransformCoder(FastTransform),
        raw,
        &small(GREY, 256),
        &rates(iqp),
        reference,
        &mut out,
    );
    key == (flags[2] == 4)
        && out.starts_with(&header(flags, size))
        && end <= 300
        && &out[44.min(end)..end] == body
}

/// Pictures of one sample, whether the encoder begins anew, and the flags and the body of the frame.
const FRAMES: [(u8, bool, [u8; 4], &[u8]); 4] = [
    (128, true, KEY, &[0, 6, 0, 15]),
    (128, false, [0, 0x28, 0, 0], &[0, 6, 0, 15]),
    (255, true, KEY, &[0, 6, 0x7f, 0, 0, 15]),
    (0, true, KEY, &[0, 6, 0x80, 0, 0, 15]),
];

#[test]
fn pictures_become_the_named_frames(rt: HostRuntime) -> Result<(), Fail> {
    let Ok(mut reference) = Reference::make(rt.alloc(), 256) else {
        return Err(Fail::new("no memory"));
    };
    for (sample, anew, flags, body) in FRAMES {
        if anew {
            reference.reset();
        }
        let size = [0, 0, 0, body.len() as u8];
        assert!(rt; becomes(&mut reference, &[sample; 256], 20, flags, size, body));
    }
    Ok(())
}

#[test]
fn sharp_pictures_are_stored(rt: HostRuntime) -> Result<(), Fail> {
    let Ok(mut reference) = Reference::make(rt.alloc(), 256) else {
        return Err(Fail::new("no memory"));
    };
    let mut raw = [128; 256];
    let mut stored = [128; 256];
    for (place, sample) in [(0, 255), (8, 0), (128, 255), (136, 0)] {
        let place: u8 = place;
        raw[place as usize] = sample;
        stored[place as usize] = sample.min(254);
    }
    let flags = [0, 8, 4, 0x10];
    assert!(rt; becomes(&mut reference, &raw, 1, flags, [0, 0, 1, 0], &stored));
    Ok(())
}

/// Decodes a frame of samples 128, and gives whether its picture was shown, where it isn't damaged.
#[tactic(auto, unfolding(vc_defs::specs::Headers::is_legal))]
fn decodes(reference: &mut Reference, key: bool, number: Option<u32>) -> Result<bool, Damaged>
    requires area { 256 ≤ reference.old.size }
    requires number { is_legal_number number ≡ true }
    ensures { reference.new.size ≡ reference.old.size }
{
    let mut out = [0; 256];
    let header = Header {
        geometry: Geometry {
            width: 16,
            height: 16,
            layout: Layout::Grey,
        },
        key,
        raw: [false; 3],
        colour: [0; 4],
        size: 4,
        number,
    };
    match decode_frame(
        &TransformCoder(FastTransform),
        &header,
        &[0, 6, 0, 15],
        GREY,
        reference,
        &mut out,
    ) {
        Ok(()) => Ok(out == [128; 256]),
        Err(damaged) => Err(damaged),
    }
}

#[test]
fn frames_are_decoded_in_their_order(rt: HostRuntime) -> Result<(), Fail> {
    let Ok(mut reference) = Reference::make(rt.alloc(), 256) else {
        return Err(Fail::new("no memory"));
    };
    assert_eq!(rt; decodes(&mut reference, false, None), Err(Damaged));
    assert_eq!(rt; decodes(&mut reference, true, None), Ok(true));
    assert_eq!(rt; decodes(&mut reference, false, None), Ok(true));
    assert_eq!(rt; decodes(&mut reference, false, Some(7)), Ok(true));
    assert_eq!(rt; decodes(&mut reference, false, Some(8)), Ok(true));
    assert_eq!(rt; decodes(&mut reference, false, Some(8)), Err(Damaged));
    assert_eq!(rt; decodes(&mut reference, false, Some(9)), Err(Damaged));
    assert_eq!(rt; decodes(&mut reference, true, Some(0)), Ok(true));
    assert_eq!(rt; decodes(&mut reference, false, Some(1)), Ok(true));
    assert_eq!(rt; decodes(&mut reference, true, Some(2047)), Ok(true));
    assert_eq!(rt; decodes(&mut reference, false, Some(0)), Ok(true));
    Ok(())
}

/// The bytes of a picture that changes from place to place and from picture to picture.
fn fill(raw: &mut [u8], picture: usize)
    requires { picture ≤ 9 }
{
    let mut sum = 0u8;
    for byte in raw.iter_mut() {
        sum = sum.wrapping_mul(5).wrapping_add(picture as u8 + 3);
        *byte = sum / 2 + 60;
    }
}

/// The header at the front of some bytes.
fn header_in(out: &[u8; 556]) -> Result<Header, NotHeader>
    ensures { IfOk result (λ h. is_legal most_bytes h ≡ true) }
{
    let mut bytes = [0; 44];
    bytes.copy_from_slice(&out[..44]);
    vc_header::read(&bytes, 17694720)
}

/// Whether each of four frames, P frames after the first, gives a decoder exactly the encoder's own picture.
fn comes_back(
    fourcc: Fourcc,
    geometry: &Geometry,
    size: u32,
    encoder: &mut Reference,
    decoder: &mut Reference,
) -> bool
    requires raw { IsRawFormat (record { fourcc = fourcc; width = 16; height = 16; size = size }) }
    requires geometry { geometry.now ≡ geometry_of (record { fourcc = fourcc; width = 16; height = 16; size = size }) }
    requires total { picture_total geometry.now ≤ 512 }
    requires padded { padded_sum geometry.now ≤ 512 }
    requires encoder { encoder.old ≡ record { size = 512; state = fresh_encoder } }
    requires decoder { decoder.old.size ≡ 512 }
    ensures encoder { encoder.new.size ≡ 512 }
    ensures decoder { decoder.new.size ≡ 512 }
{
    let format = small(fourcc, size);
    let mut raw = [0; 512];
    let mut out = [0; 556];
    let mut shown = [0; 512];
    let mut good = true;
    for picture in 0..4 {
        fill(&mut raw[..size as usize], picture / 2);
        let (end, key) = encode_frame(
            &TransformCoder(PlainTransform),
            &raw[..size as usize],
            &format,
            &rates(5),
            encoder,
            &mut out,
        );
        let Ok(header) = header_in(&out) else {
            return false;
        };
        if header.geometry != *geometry || end < 44 || end > 556 || header.key != key {
            return false;
        }
        let answer = decode_frame(
            &TransformCoder(FastTransform),
            &header,
            &out[44..end],
            fourcc,
            decoder,
            &mut shown,
        );
        good = good && answer == Ok(()) && key == (picture == 0) && decoder.area == encoder.area;
    }
    good
}

/// The geometry of a frame of 16 by 16 samples.
fn square(layout: Layout) -> Geometry
    ensures { result ≡ record { width = 16; height = 16; layout = layout } }
{
    Geometry {
        width: 16,
        height: 16,
        layout,
    }
}

#[test]
fn every_raw_format_comes_back(rt: HostRuntime) -> Result<(), Fail> {
    let Ok(mut one) = Reference::make(rt.alloc(), 512) else {
        return Err(Fail::new("no memory"));
    };
    let Ok(mut two) = Reference::make(rt.alloc(), 512) else {
        return Err(Fail::new("no memory"));
    };
    assert!(rt; comes_back(GREY, &square(Layout::Grey), 256, &mut one, &mut two));
    one.reset();
    assert!(rt; comes_back(YU12, &square(Layout::C420), 384, &mut one, &mut two));
    one.reset();
    assert!(rt; comes_back(NV12, &square(Layout::C420), 384, &mut one, &mut two));
    one.reset();
    assert!(rt; comes_back(YUYV, &square(Layout::C422), 512, &mut one, &mut two));
    Ok(())
}
