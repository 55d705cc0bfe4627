//! The formats of a context: which there are, what asking for one gives, and how many bytes pictures and frames
//! have, after docs/DEVICE.md, "Formats".
#![tactic(auto)]

ghost use Rattle.std.specs.Prelude.{◌≡◌, ◌≤◌, ◌*◌, ◌∷◌, [], true, slice_get};
ghost use Rattle.std.specs.List.{list_any};
ghost use Rattle.vc_base.specs.declared.Kind.TheVariants.{Copy, Enc, Dec};
ghost use Rattle.vc_base.specs.declared.Side.TheVariants.{Cap};
ghost use Rattle.vc_base.specs.Limits.{most_bytes};
ghost use Rattle.vc_defs.specs.Planes.{padded};
ghost use Rattle.vc_defs.specs.Headers.{is_legal_geometry};
ghost use Rattle.vc_defs.specs.Raw.{grey, yu12, nv12, yuyv, same_fourcc, layout_of, raw_formats, first_raw, raw_size};
ghost use Rattle.vc_model.specs.Formats.{FormatPair, listed_or, raw_format, coded_format, frame_room, padded_samples, width_for, height_for, size_or, encoder_formats, decoder_formats, formats_at_open, formats_listed, formats_for, formats_found};
ghost use Rattle.vc_geom.specs.Pairs.{pair_of, copied, is_raw, size_if_raw, IsSize, CanStand};

pub use vc_base::fourccs::YU12;
use vc_base::fourccs::{DATA, FWHT, GREY, NV12, YUYV};
use vc_base::limits::{LEAST_CODED_SIZE, LONGEST_BUFFER, MOST_BYTES, USUAL_SIZE};
use vc_base::{Format, Fourcc, Kind, Side};
use vc_defs::{Geometry, Layout};

/// The formats of the two sides of a context.
#[derive(Clone, Copy, Debug, PartialEq, Eq)]
pub struct Formats {
    pub out: Format,
    pub cap: Format,
}

/// The layout of the pictures of a raw format.
///
/// It means something for `GREY`, `YU12`, `NV12` and `YUYV` alone.
pub fn layout_of(fourcc: Fourcc) -> Layout
    ensures { result ≡ layout_of fourcc }
{
    if fourcc == GREY {
        Layout::Grey
    } else if fourcc == YUYV {
        Layout::C422
    } else {
        Layout::C420
    }
}

/// Whether the fourcc is that of a raw format.
fn is_raw(fourcc: Fourcc) -> bool
    ensures { result ≡ is_raw fourcc }
{
    fourcc == GREY || fourcc == YU12 || fourcc == NV12 || fourcc == YUYV
}

/// Whether the fourcc is that of a raw format of the layout.
fn is_raw_of(layout: Layout, fourcc: Fourcc) -> bool
    ensures { result ≡ list_any (same_fourcc fourcc) (raw_formats layout) }
{
    match layout {
        Layout::Grey => fourcc == GREY,
        Layout::C420 => fourcc == YU12 || fourcc == NV12,
        Layout::C422 => fourcc == YUYV,
    }
}

/// The preferred raw format of a layout.
fn first_raw(layout: Layout) -> Fourcc
    ensures { result ≡ first_raw layout }
{
    match layout {
        Layout::Grey => GREY,
        Layout::C420 => YU12,
        Layout::C422 => YUYV,
    }
}

/// The fourcc where it is that of a raw format of the layout, else the layout's preferred one.
fn raw_or_first(layout: Layout, fourcc: Fourcc) -> Fourcc
    ensures { result ≡ listed_or (raw_formats layout) fourcc (first_raw layout) }
{
    if is_raw_of(layout, fourcc) {
        fourcc
    } else {
        first_raw(layout)
    }
}

/// The bytes of a raw picture of a layout.
fn raw_size_of(layout: Layout, width: u32, height: u32) -> u32
    requires { IsSize width height }
    ensures { result ≡ raw_size layout width height }
{
    let samples = width * height;
    match layout {
        Layout::Grey => samples,
        Layout::C420 => samples * 3 / 2,
        Layout::C422 => 2 * samples,
    }
}

/// The bytes of a raw picture: `GREY` has one byte a sample, `YU12` and `NV12` have three bytes for two samples,
/// and `YUYV` has two bytes a sample. None exactly where the fourcc is not that of a raw format.
///
/// The width is 16 to 4,096 and the height 16 to 2,160.
pub fn raw_size(fourcc: Fourcc, width: u32, height: u32) -> Option<u32>
    requires { IsSize width height }
    ensures { result ≡ size_if_raw fourcc width height }
{
    if is_raw(fourcc) {
        Some(raw_size_of(layout_of(fourcc), width, height))
    } else {
        None
    }
}

/// The least multiple of 8 that is not below a number.
fn padded(n: u32) -> u32
    requires { n ≤ 4096 }
    ensures { result ≡ padded n }
{
    8 * n.div_ceil(8)
}

/// The samples of a plane that is padded to whole blocks.
fn padded_area(width: u32, height: u32) -> u32
    requires width { width ≤ 4096 }
    requires height { height ≤ 2160 }
    ensures area { result ≡ padded width * padded height }
    ensures most { result ≤ 8847360 }
{
    padded(width) * padded(height)
}

/// The samples of all planes of a picture, each padded to whole blocks of 8 by 8. With the 44 bytes of a header it
/// is the most that an encoder writes for a frame.
///
/// The width is 16 to 4,096 and the height 16 to 2,160.
pub fn padded_sum(geometry: &Geometry) -> u32
    requires { IsSize geometry.now.width geometry.now.height }
    ensures samples { result ≡ padded_samples geometry.now.layout geometry.now.width geometry.now.height }
    ensures most { result ≤ 26542080 }
{
    let Geometry {
        width,
        height,
        layout,
    } = *geometry;
    let luma = padded_area(width, height);
    match layout {
        Layout::Grey => luma,
        Layout::C420 => luma + 2 * padded_area(width / 2, height / 2),
        Layout::C422 => luma + 2 * padded_area(width / 2, height),
    }
}

/// The bytes that a frame may take.
fn frame_room(layout: Layout, width: u32, height: u32) -> u32
    requires { IsSize width height }
    ensures { result ≡ frame_room layout width height }
{
    44 + padded_sum(&Geometry {
        width,
        height,
        layout,
    })
}

/// The width nearest to what was asked that a picture of the layout can have.
fn width_for(layout: Layout, width: u32) -> u32
    ensures nearest { result ≡ width_for layout width }
    ensures range { (16 ≤ result) × (result ≤ 4096) }
{
    let width = width.clamp(16, 4096);
    match layout {
        Layout::Grey => width,
        Layout::C420 | Layout::C422 => width + width % 2,
    }
}

/// The height nearest to what was asked that a picture of the layout can have.
fn height_for(layout: Layout, height: u32) -> u32
    ensures nearest { result ≡ height_for layout height }
    ensures range { (16 ≤ result) × (result ≤ 2160) }
{
    let height = height.clamp(16, 2160);
    match layout {
        Layout::C420 => height + height % 2,
        Layout::Grey | Layout::C422 => height,
    }
}

/// A raw format with the bytes of its pictures.
fn raw_format(fourcc: Fourcc, width: u32, height: u32) -> Format
    requires { IsSize width height }
    ensures { result ≡ raw_format fourcc width height }
{
    Format {
        fourcc,
        width,
        height,
        size: raw_size_of(layout_of(fourcc), width, height),
    }
}

/// The coded format.
fn coded_format(width: u32, height: u32, size: u32) -> Format
    ensures { result ≡ coded_format width height size }
{
    Format {
        fourcc: FWHT,
        width,
        height,
        size,
    }
}

/// The formats of a copying context whose buffers have a size.
fn copy_formats(size: u32) -> Formats
    ensures formats { pair_of result ≡ copied size }
    ensures stand { 1 ≤ size → size ≤ most_bytes → CanStand Copy (pair_of result) }
{
    let format = Format {
        fourcc: DATA,
        width: 0,
        height: 0,
        size,
    };
    Formats {
        out: format,
        cap: format,
    }
}

/// The size asked, where 0 means the other one.
fn size_or(size: u32, other: u32) -> u32
    ensures { result ≡ size_or size other }
{
    if size == 0 { other } else { size }
}

/// What asking an encoder's OUTPUT for a format gives.
fn encoder_formats(want: &Format) -> Formats
    ensures formats { pair_of result ≡ encoder_formats (listed_or (grey ∷ yu12 ∷ nv12 ∷ yuyv ∷ []) want.now.fourcc yu12) want.now.width want.now.height }
    ensures stand { CanStand Enc (pair_of result) }
{
    let fourcc = if is_raw(want.fourcc) {
        want.fourcc
    } else {
        YU12
    };
    let layout = layout_of(fourcc);
    let width = width_for(layout, want.width);
    let height = height_for(layout, want.height);
    Formats {
        out: raw_format(fourcc, width, height),
        cap: coded_format(width, height, frame_room(layout, width, height)),
    }
}

/// What asking a decoder's OUTPUT for a format gives.
fn decoder_formats(want: &Format) -> Formats
    ensures formats { pair_of result ≡ decoder_formats want.now }
    ensures stand { CanStand Dec (pair_of result) }
{
    let width = width_for(Layout::C420, want.width);
    let height = height_for(Layout::C420, want.height);
    let size = size_or(want.size, frame_room(Layout::C422, width, height));
    Formats {
        out: coded_format(width, height, size.clamp(LEAST_CODED_SIZE, LONGEST_BUFFER)),
        cap: raw_format(YU12, width, height),
    }
}

/// The formats of a fresh context.
pub fn open_formats(kind: Kind) -> Formats
    ensures formats { pair_of result ≡ formats_at_open kind }
    ensures stand { CanStand kind (pair_of result) }
{
    match kind {
        Kind::Copy => copy_formats(USUAL_SIZE),
        Kind::Enc => Formats {
            out: raw_format(YU12, 352, 288),
            cap: coded_format(352, 288, 152_108),
        },
        Kind::Dec => Formats {
            out: coded_format(352, 288, 202_796),
            cap: raw_format(YU12, 352, 288),
        },
    }
}

/// The format at an index of the list of a side (VIDIOC_ENUM_FMT), None exactly past its end.
///
/// A copying context has `DATA` on both sides. An encoder's OUTPUT has `GREY`, `YU12`, `NV12` and `YUYV`, and a
/// decoder's CAPTURE has those of the layout that its pictures now have: `layout` is looked at there alone. The other
/// two have `FWHT`.
pub fn enum_format(kind: Kind, side: Side, layout: Layout, index: u32) -> Option<Fourcc>
    ensures { (present : FormatPair) → layout_of present.cap.fourcc ≡ layout → result ≡ slice_get (formats_listed kind side present) index }
{
    match (kind, side) {
        (Kind::Copy, _) => [DATA].get(index as usize).copied(),
        (Kind::Enc, Side::Out) => [GREY, YU12, NV12, YUYV].get(index as usize).copied(),
        (Kind::Enc, Side::Cap) | (Kind::Dec, Side::Out) => [FWHT].get(index as usize).copied(),
        (Kind::Dec, Side::Cap) => enum_raw(layout, index),
    }
}

/// The raw format at an index of the list of a layout.
fn enum_raw(layout: Layout, index: u32) -> Option<Fourcc>
    ensures { result ≡ slice_get (raw_formats layout) index }
{
    match layout {
        Layout::Grey => [GREY].get(index as usize).copied(),
        Layout::C420 => [YU12, NV12].get(index as usize).copied(),
        Layout::C422 => [YUYV].get(index as usize).copied(),
    }
}

/// What asking for a format on a side gives, and what VIDIOC_S_FMT then sets, for both sides.
///
/// On OUTPUT of a copying context the size counts, 0 meaning 4,096, from 1 to 17,694,720, and CAPTURE becomes the same.
/// An encoder's OUTPUT takes the fourcc (`YU12` for an unknown one) and the size nearest to what was asked; CAPTURE
/// follows, with room for any frame. A decoder's OUTPUT takes width and height as 4:2:0 can have them, and the size
/// from 64 to 17,694,764, 0 meaning room for any frame in 4:2:2; CAPTURE becomes `YU12`. A decoder's CAPTURE takes a
/// fourcc of the present layout, or else the first of it. Else nothing changes.
///
/// `present` has formats that a context of the kind can have.
pub fn try_format(kind: Kind, side: Side, present: &Formats, want: &Format) -> Formats
    requires { CanStand kind (pair_of present.now) }
    ensures formats { pair_of result ≡ formats_for kind side (pair_of present.now) want.now }
    ensures stand { CanStand kind (pair_of result) }
{
    match (kind, side) {
        (Kind::Copy, Side::Out) => copy_formats(size_or(want.size, USUAL_SIZE).clamp(
            1, MOST_BYTES,
        )),
        (Kind::Enc, Side::Out) => encoder_formats(want),
        (Kind::Dec, Side::Out) => decoder_formats(want),
        (Kind::Dec, Side::Cap) => raw_formats(present, want.fourcc),
        (Kind::Copy | Kind::Enc, Side::Cap) => *present,
    }
}

/// A decoder's formats after its CAPTURE was asked for a fourcc.
fn raw_formats(present: &Formats, fourcc: Fourcc) -> Formats
    requires { CanStand Dec (pair_of present.now) }
    ensures formats { pair_of result ≡ formats_for Dec Cap (pair_of present.now) (record { fourcc = fourcc; width = 0; height = 0; size = 0 }) }
    ensures stand { CanStand Dec (pair_of result) }
{
    let Format { width, height, .. } = present.cap;
    let fourcc = raw_or_first(layout_of(present.cap.fourcc), fourcc);
    Formats {
        out: present.out,
        cap: raw_format(fourcc, width, height),
    }
}

/// A decoder's formats when it finds a new geometry: CAPTURE keeps its fourcc where it is one of the new layout, and
/// else takes the first of it. Width and height follow on both sides. OUTPUT keeps its size.
///
/// The geometry is one that a header can have.
pub fn formats_found(present: &Formats, geometry: &Geometry) -> Formats
    requires { is_legal_geometry geometry.now ≡ true }
    ensures formats { pair_of result ≡ formats_found (pair_of present.now) geometry.now }
    ensures stand { CanStand Dec (pair_of present.now) → CanStand Dec (pair_of result) }
{
    let Geometry {
        width,
        height,
        layout,
    } = *geometry;
    let fourcc = raw_or_first(layout, present.cap.fourcc);
    Formats {
        out: coded_format(width, height, present.out.size),
        cap: raw_format(fourcc, width, height),
    }
}

#[cfg(test)]
mod tests;
