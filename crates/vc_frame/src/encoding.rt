//! Encoding a picture.

ghost use Rattle.std.specs.Prelude.{◌≡◌, ◌≤◌, ◌+◌, ◌-◌, ◌∷◌, [], length, true, not, if◌then◌else◌};
ghost use Rattle.vc_defs.specs.Headers.{is_legal, header_bytes};
ghost use Rattle.vc_base.specs.Limits.{header_size, most_bytes, longest_buffer};
ghost use Rattle.vc_defs.specs.Bodies.{IsPicture, padded_sum};
ghost use Rattle.vc_defs.specs.Raw.{planes_of, geometry_of};
ghost use Rattle.vc_defs.specs.Encoder.{is_key_due, encode};
ghost use Rattle.vc_defs.specs.Laws.{IsRawFormat, AreRates};
ghost use Rattle.vc_work.specs.References.{picture_total};
ghost use Rattle.vc_work.specs.Runs.{HasGeometry, run_rates, with_state, put_over};
ghost use Rattle.vc_frame.specs.Order.{IsRawOf};
ghost use Rattle.vc_frame.specs.Planes.{AreWritten, picture_over};

use crate::order::{is_planar, layout_of, part};
use crate::planes::{Body, Coding, plane_sizes, write_planes};
use vc_base::limits::HEADER_SIZE;
use vc_base::{Format, Fourcc};
use vc_coder::BlockCoder;
use vc_defs::{Geometry, Header};
use vc_work::{Rates, Reference};

/// Writes the body of a frame behind the place of its header.
fn write_body<C: BlockCoder>(
    coder: &C,
    raw: &[u8],
    fourcc: Fourcc,
    geometry: &Geometry,
    coding: &Coding,
    spare: &mut [u8],
    area: &mut [u8],
    out: &mut [u8],
) -> Body
    requires raw_format { IsRawOf fourcc geometry.now }
    requires whole { picture_total geometry.now ≤ length raw.now }
    requires spare { picture_total geometry.now ≤ length spare.old }
    requires area { picture_total geometry.now ≤ length area.old }
    requires qp { (1 ≤ coding.now.qp) × (coding.now.qp ≤ 31) }
    requires room { header_size + padded_sum geometry.now ≤ length out.old }
    ensures picture { IsPicture geometry.now (planes_of fourcc geometry.now.width geometry.now.height raw.now) }
    ensures written { AreWritten (picture_over coding.now fourcc geometry.now raw.now area.old) (picture_total geometry.now) area.old area.new out.old out.new header_size result }
{
    let sizes = plane_sizes(geometry);
    let sizes = &sizes.all[..sizes.count];
    if is_planar(fourcc) {
        write_planes(coder, sizes, coding, raw, area, out, HEADER_SIZE)
    } else {
        part(raw, fourcc, geometry, spare);
        write_planes(coder, sizes, coding, spare, area, out, HEADER_SIZE)
    }
}

/// Whether the next frame is an I frame.
fn is_key_due(reference: &Reference, gop: u32) -> bool
    ensures { result ≡ is_key_due reference.now.state.reference reference.now.state.since_key gop }
{
    reference.geometry.is_none() || gop <= reference.since_key
}

/// How a frame is coded.
fn coding_of(key: bool, rates: &Rates) -> Coding
    ensures inter { result.inter ≡ not key }
    ensures qp { result.qp ≡ (if key then rates.now.iqp else rates.now.pqp) }
{
    Coding {
        inter: !key,
        qp: if key { rates.iqp } else { rates.pqp },
    }
}

/// The number of frames since the last I frame, after one more frame.
fn count_on(since_key: u32, key: bool) -> u32
    requires { since_key ≤ 16 }
    ensures { result ≡ (if key then 1 else since_key + 1) }
{
    if key { 1 } else { since_key + 1 }
}

/// The geometry of a raw format's pictures.
fn geometry_in(format: &Format) -> Geometry
    ensures { result ≡ geometry_of format.now }
{
    Geometry {
        width: format.width,
        height: format.height,
        layout: layout_of(format.fourcc),
    }
}

/// The header of a frame with a body that was written behind its place.
fn header_of(geometry: Geometry, key: bool, body: &Body, number: u32) -> Header
    requires end { header_size ≤ body.now.end }
    requires size { body.now.end ≤ longest_buffer }
    ensures { result ≡ record { geometry = geometry; key = key; raw = body.now.raw; colour = 0 ∷ 0 ∷ 0 ∷ 0 ∷ []; size = body.now.end - header_size; number = Some number } }
{
    let raw = body.raw;
    Header {
        geometry,
        key,
        raw,
        colour: [0; 4],
        size: (body.end - HEADER_SIZE) as u32,
        number: Some(number),
    }
}

/// Writes a header to the front of the output.
fn put_header(header: &Header, out: &mut [u8])
    requires legal { is_legal most_bytes header.now ≡ true }
    requires room { header_size ≤ length out.old }
    ensures { out.new ≡ put_over (header_bytes header.now) out.old }
{
    let mut bytes = [0; HEADER_SIZE];
    vc_header::write(header, &mut bytes);
    out[..HEADER_SIZE].copy_from_slice(&bytes);
}

/// Encodes a picture as the next frame, at the front of the output, and gives the frame's length and whether it is an I
/// frame.
///
/// The picture has the size of its format, which is a raw one. The reference has room for such a picture, and its own,
/// where it has one, is of the same geometry. The rates are in range: the GOP 1 to 16, the quantisers 1 to 31. The
/// output has room for a header of 44 bytes and the padded planes. The reference's picture becomes what a decoder will
/// have, and it counts on. The rules are docs/FORMAT.md, "The sequential encoder".
pub fn encode_frame<C: BlockCoder>(
    coder: &C,
    raw: &[u8],
    format: &Format,
    rates: &Rates,
    reference: &mut Reference,
    out: &mut [u8],
) -> (usize, bool)
    requires raw_format { IsRawFormat format.now }
    requires whole { length raw.now ≡ format.now.size }
    requires rates { AreRates (run_rates rates.now) }
    requires area { format.now.size ≤ reference.old.size }
    requires same { HasGeometry (geometry_of format.now) reference.old.state.reference }
    requires room { header_size + padded_sum (geometry_of format.now) ≤ length out.old }
    ensures frame { out.new ≡ put_over (encode reference.old.state format.now (run_rates rates.now) raw.now).bytes out.old }
    ensures length { result.0 ≡ length (encode reference.old.state format.now (run_rates rates.now) raw.now).bytes }
    ensures most { result.0 ≤ longest_buffer }
    ensures key { result.1 ≡ (encode reference.old.state format.now (run_rates rates.now) raw.now).key }
    ensures state { reference.new ≡ with_state (encode reference.old.state format.now (run_rates rates.now) raw.now).state reference.old }
    ensures same { HasGeometry (geometry_of format.now) reference.new.state.reference }
{
    let geometry = geometry_in(format);
    let key = is_key_due(reference, rates.gop);
    let coding = coding_of(key, rates);
    let body = write_body(
        coder,
        raw,
        format.fourcc,
        &geometry,
        &coding,
        &mut reference.spare,
        &mut reference.area,
        out,
    );
    let header = header_of(geometry, key, &body, reference.since_reset);
    put_header(&header, out);
    reference.geometry = Some(geometry);
    reference.number = Some(reference.since_reset);
    reference.since_key = count_on(reference.since_key, key);
    reference.since_reset = (reference.since_reset + 1) % 2048;
    (body.end, key)
}
