//! Decoding a frame.

ghost use Rattle.std.specs.Prelude.{◌≡◌, ◌≤◌, ◌↔◌, ◌||◌, length, true, Some, None, IsOk, IsSome, MatchResult};
ghost use Rattle.vc_defs.specs.Headers.{is_legal, is_legal_geometry, is_legal_number};
ghost use Rattle.vc_base.specs.Limits.{most_bytes};
ghost use Rattle.vc_defs.specs.Decoder.{same_geometry, is_next_number, follows_reference, frame_planes};
ghost use Rattle.vc_work.specs.References.{picture_total, with_picture};
ghost use Rattle.vc_frame.specs.Frames.{picture_of, planes_in, body_over, shown_over};
ghost use Rattle.vc_frame.specs.Order.{IsRawOf};

use crate::order::put_raw;
use crate::planes::{plane_sizes, read_planes};
use vc_base::Fourcc;
use vc_coder::BlockCoder;
use vc_defs::{Damaged, Geometry, Header};
use vc_work::Reference;

/// Whether two geometries are the same: width, height and layout.
pub fn is_same_geometry(a: &Geometry, b: &Geometry) -> bool
    ensures { result ≡ same_geometry a.now b.now }
{
    a.width == b.width && a.height == b.height && a.layout == b.layout
}

/// Whether a number comes after another one. A frame without a number comes after every frame.
fn is_next_number(before: Option<u32>, number: Option<u32>) -> bool
    requires { is_legal_number before ≡ true }
    ensures { result ≡ is_next_number before number }
{
    match (before, number) {
        (Some(before), Some(number)) => number == (before + 1) % 2048,
        _ => true,
    }
}

/// Whether a P frame goes on from the reference.
fn follows(header: &Header, reference: &Reference) -> bool
    ensures { result ≡ follows_reference header.now reference.now.state.reference }
{
    match &reference.geometry {
        Some(geometry) => {
            is_same_geometry(geometry, &header.geometry)
                && is_next_number(reference.number, header.number)
        },
        None => false,
    }
}

/// Whether a frame may be read over the reference: it is an I frame, or goes on from the reference.
fn may_read(header: &Header, reference: &Reference) -> bool
    ensures { result ≡ (header.now.key || follows_reference header.now reference.now.state.reference) }
{
    header.key || follows(header, reference)
}

/// Reads the planes of a body, all of which they are.
fn read_body<C: BlockCoder>(
    coder: &C,
    header: &Header,
    body: &[u8],
    area: &mut [u8],
) -> Result<(), Damaged>
    requires legal { is_legal_geometry header.now.geometry ≡ true }
    requires area { picture_total header.now.geometry ≤ length area.old }
    ensures { MatchResult result (λ _. body_over header.now area.old body.now ≡ Some (planes_in header.now.geometry area.new)) (λ _. body_over header.now area.old body.now ≡ None) }
{
    let sizes = plane_sizes(&header.geometry);
    let sizes = &sizes.all[..sizes.count];
    match read_planes(coder, sizes, &header.raw, !header.key, body, 0, area) {
        Ok(end) if end == body.len() => Ok(()),
        _ => Err(Damaged),
    }
}

/// Decodes a frame over the reference, and writes its picture to the front of the output in a raw format.
///
/// The header is legal, the fourcc that of a raw format of its layout, and both the reference and the output have room
/// for the picture.
///
/// The answer is [`Damaged`] exactly where the frame gives no picture: the body is illegal, or it is a P frame and
/// there is no reference, or one of another geometry, or the frame's number isn't the next one. Then the reference has
/// no picture, and the output is as it was. Else the picture becomes the reference, with the frame's number or none.
/// The rules are docs/FORMAT.md, "The sequential decoder".
pub fn decode_frame<C: BlockCoder>(
    coder: &C,
    header: &Header,
    body: &[u8],
    fourcc: Fourcc,
    reference: &mut Reference,
    out: &mut [u8],
) -> Result<(), Damaged>
    requires header { is_legal most_bytes header.now ≡ true }
    requires raw_format { IsRawOf fourcc header.now.geometry }
    requires area { picture_total header.now.geometry ≤ reference.old.size }
    requires room { picture_total header.now.geometry ≤ length out.old }
    ensures answer { IsOk result ↔ IsSome (frame_planes header.now reference.old.state.reference body.now) }
    ensures picture { reference.new ≡ with_picture (picture_of header.now (frame_planes header.now reference.old.state.reference body.now)) reference.old }
    ensures shown { out.new ≡ shown_over fourcc (frame_planes header.now reference.old.state.reference body.now) out.old }
{
    let good = may_read(header, reference);
    reference.geometry = None;
    if !good {
        return Err(Damaged);
    }
    read_body(coder, header, body, &mut reference.area)?;
    put_raw(&reference.area, fourcc, &header.geometry, out);
    reference.geometry = Some(header.geometry);
    reference.number = header.number;
    Ok(())
}
