//! What an encoder makes of the generator's pictures, found by coding one after another, without a device.

ghost use Rattle.std.specs.Prelude.{◌≡◌, ◌<◌, ◌≤◌, length, vec_len, IfOk};
ghost use Rattle.vc_defs.specs.Raw.{yu12, geometry_of};
ghost use Rattle.vc_work.specs.Runs.{HasGeometry};

use std::alloc::Global;
use std::test::Fail;
use vc_base::{Format, Fourcc};
use vc_coder::TransformCoder;
use vc_frame::encode_frame;
use vc_fwht::FastTransform;
use vc_raw::fill;
use vc_work::{Rates, Reference};

/// The bytes of a picture.
const PICTURE_BYTES: usize = 152_064;

/// The most bytes of a frame: a header, and the planes, which have whole blocks without padding.
pub(crate) const FRAME_BYTES: usize = 152_108;

/// The format that `make`, `encode` and `share` have without options.
const FORMAT: Format = Format {
    fourcc: Fourcc(*b"YU12"),
    width: 352,
    height: 288,
    size: 152_064,
};

/// The rates that `encode` and `share` have without options.
const RATES: Rates = Rates {
    gop: 10,
    iqp: 20,
    pqp: 20,
};

/// Pictures, their frames, and the encoder's reconstructions, each one after another.
#[derive(Drop)]
pub(crate) struct Coded {
    pub(crate) pictures: Vec<u8>,
    pub(crate) frames: Vec<u8>,
    pub(crate) reconstructions: Vec<u8>,
}

/// Makes the picture at a place, for this number of the generator, and codes it as the next frame.
fn code_next(
    place: u32,
    number: u32,
    picture: &mut [u8],
    frame: &mut [u8],
    reference: &mut Reference,
    coded: &mut Coded,
) -> Result<(), Fail>
    requires place { place < 1000 }
    requires number { number ≤ 1000063 }
    requires picture { length picture.old ≡ 152064 }
    requires frame { length frame.old ≡ 152108 }
    requires size { reference.old.size ≡ 152064 }
    requires same { HasGeometry (geometry_of (record { fourcc = yu12; width = 352; height = 288; size = 152064 })) reference.old.state.reference }
    ensures size { reference.new.size ≡ 152064 }
    ensures same { HasGeometry (geometry_of (record { fourcc = yu12; width = 352; height = 288; size = 152064 })) reference.new.state.reference }
{
    fill(picture, &FORMAT, place, number);
    let coder = TransformCoder(FastTransform);
    let (length, _) = encode_frame(&coder, picture, &FORMAT, &RATES, reference, frame);
    let Some(bytes) = frame.get(..length) else {
        return Err(Fail::new("a frame is longer than its room"));
    };
    coded.pictures.extend_from_slice(picture)?;
    coded.frames.extend_from_slice(bytes)?;
    coded.reconstructions.extend_from_slice(&reference.area)?;
    Ok(())
}

/// So many zeros.
fn zeros(alloc: Global, count: usize) -> Result<Vec<u8>, Fail>
    ensures { IfOk result (λ bytes. vec_len bytes ≡ count) }
{
    Ok(vec![in alloc; 0; count]?)
}

/// So many pictures of the generator for this number, coded from the first one on.
pub(crate) fn code_all(alloc: Global, pictures: u32, number: u32) -> Result<Coded, Fail>
    requires pictures { pictures ≤ 1000 }
    requires number { number ≤ 1000063 }
{
    let mut picture = zeros(alloc, PICTURE_BYTES)?;
    let mut frame = zeros(alloc, FRAME_BYTES)?;
    let mut reference = Reference::make(alloc, FORMAT.size)?;
    let mut coded = Coded {
        pictures: Vec::new(alloc),
        frames: Vec::new(alloc),
        reconstructions: Vec::new(alloc),
    };
    for place in 0..pictures {
        code_next(
            place,
            number,
            &mut picture,
            &mut frame,
            &mut reference,
            &mut coded,
        )?;
    }
    Ok(coded)
}
