//! The order in which a raw format has the samples of a picture, after docs/FORMAT.md, "Raw pictures".

ghost use Rattle.std.specs.Prelude.{◌≡◌, ◌≤◌, ◌<◌, ◌+◌, ◌*◌, ◌++◌, ◌∷◌, [], ℕ, List, length, drop, map, false};
ghost use Rattle.std.specs.List.{range_with_len};
ghost use Rattle.vc_defs.specs.Bodies.{IsPicture, plane_shapes};
ghost use Rattle.vc_defs.specs.Raw.{layout_of, cut_into, strided, in_turns, packed_sample, planes_of, raw_of};
ghost use Rattle.vc_work.specs.References.{picture_total};
ghost use Rattle.vc_frame.specs.Order.{IsRawOf, is_planar, chroma_samples};

use vc_base::Fourcc;
use vc_base::fourccs::{GREY, NV12, YUYV};
use vc_defs::{Geometry, Layout};

/// The layout of a raw format.
pub(crate) fn layout_of(fourcc: Fourcc) -> Layout
    ensures { result ≡ layout_of fourcc }
{
    if fourcc == GREY {
        Layout::Grey
    } else if fourcc == YUYV {
        Layout::C422
    } else {
        Layout::C420
    }
}

/// Whether the format has its planes one behind the other.
pub(crate) fn is_planar(fourcc: Fourcc) -> bool
    ensures { result ≡ is_planar fourcc }
{
    fourcc != NV12 && fourcc != YUYV
}

/// The samples of the luma plane, and those of each plane of chroma.
fn sample_counts(geometry: &Geometry) -> (usize, usize)
    ensures luma { result.0 ≡ geometry.now.width * geometry.now.height }
    ensures chroma { result.1 ≡ chroma_samples geometry.now.layout geometry.now.width geometry.now.height }
    ensures total { result.0 + 2 * result.1 ≡ picture_total geometry.now }
{
    let width = geometry.width as usize;
    let height = geometry.height as usize;
    let chroma = match geometry.layout {
        Layout::Grey => 0,
        Layout::C420 => (width / 2) * (height / 2),
        Layout::C422 => (width / 2) * height,
    };
    (width * height, chroma)
}

/// Takes the byte at a place, and then the one at each place that is so far from the one before.
fn gather(from: &[u8], first: usize, step: usize, to: &mut [u8])
    requires { (k : ℕ) → k < length to.old → first + step * k < length from.now }
    ensures { to.new ≡ strided first step (length to.old) from.now }
{
    for k in 0..to.len() {
        to[k] = from[first + step * k];
    }
}

/// Puts the samples of two planes in turns.
fn put_in_turns(first: &[u8], second: &[u8], to: &mut [u8])
    requires same { length second.now ≡ length first.now }
    requires room { length to.old ≡ 2 * length first.now }
    ensures { (luma : List ℕ) → to.new ≡ in_turns (luma ∷ first.now ∷ second.now ∷ []) (length to.old) }
{
    for k in 0..first.len() {
        to[2 * k] = first[k];
        to[2 * k + 1] = second[k];
    }
}

/// Puts the samples of luma, and then those of two planes of chroma in turns.
fn put_turns(luma: &[u8], first: &[u8], second: &[u8], to: &mut [u8])
    requires same { length second.now ≡ length first.now }
    requires room { length to.old ≡ length luma.now + 2 * length first.now }
    ensures { to.new ≡ luma.now ++ in_turns (luma.now ∷ first.now ∷ second.now ∷ []) (2 * length first.now) }
{
    let (front, back) = to.split_at_mut(luma.len());
    front.copy_from_slice(luma);
    put_in_turns(first, second, back);
}

/// Puts the samples of three planes in the order Y, U, Y, V.
fn pack(luma: &[u8], first: &[u8], second: &[u8], to: &mut [u8])
    requires luma { length luma.now ≡ 2 * length first.now }
    requires same { length second.now ≡ length first.now }
    requires room { length to.old ≡ 4 * length first.now }
    ensures { to.new ≡ map (packed_sample (luma.now ∷ first.now ∷ second.now ∷ [])) (range_with_len 0 (length to.old)) }
{
    for k in 0..first.len() {
        to[4 * k] = luma[2 * k];
        to[4 * k + 1] = first[k];
        to[4 * k + 2] = luma[2 * k + 1];
        to[4 * k + 3] = second[k];
    }
}

/// Puts the planes of a raw picture, whose format doesn't have them so, one behind the other.
pub(crate) fn part(raw: &[u8], fourcc: Fourcc, geometry: &Geometry, planes: &mut [u8])
    requires raw_format { IsRawOf fourcc geometry.now }
    requires other { is_planar fourcc ≡ false }
    requires whole { picture_total geometry.now ≤ length raw.now }
    requires room { picture_total geometry.now ≤ length planes.old }
    ensures planes { cut_into (plane_shapes geometry.now) planes.new ≡ planes_of fourcc geometry.now.width geometry.now.height raw.now }
    ensures picture { IsPicture geometry.now (cut_into (plane_shapes geometry.now) planes.new) }
{
    let (samples, chroma) = sample_counts(geometry);
    let (luma, rest) = planes.split_at_mut(samples);
    let (first, rest) = rest.split_at_mut(chroma);
    let second = &mut rest[..chroma];
    if fourcc == YUYV {
        gather(raw, 0, 2, luma);
        gather(raw, 1, 4, first);
        gather(raw, 3, 4, second);
    } else {
        luma.copy_from_slice(&raw[..samples]);
        gather(raw, samples, 2, first);
        gather(raw, samples + 1, 2, second);
    }
}

/// Writes the planes, which lie one behind the other, as a raw picture to the front of the output.
pub(crate) fn put_raw(planes: &[u8], fourcc: Fourcc, geometry: &Geometry, out: &mut [u8])
    requires raw_format { IsRawOf fourcc geometry.now }
    requires whole { picture_total geometry.now ≤ length planes.now }
    requires room { picture_total geometry.now ≤ length out.old }
    ensures { out.new ≡ raw_of fourcc (cut_into (plane_shapes geometry.now) planes.now) ++ drop (picture_total geometry.now) out.old }
{
    let (samples, chroma) = sample_counts(geometry);
    let total = samples + 2 * chroma;
    let (luma, rest) = planes.split_at(samples);
    let (first, rest) = rest.split_at(chroma);
    let second = &rest[..chroma];
    if fourcc == YUYV {
        pack(luma, first, second, &mut out[..total]);
    } else if fourcc == NV12 {
        put_turns(luma, first, second, &mut out[..total]);
    } else {
        out[..total].copy_from_slice(&planes[..total]);
    }
}
