//! The planes of a picture, one behind the other.

ghost use Rattle.std.specs.Prelude.{◌≡◌, ◌≤◌, ◌+◌, length, take, drop, None, IfOk, OnErr};
ghost use Rattle.vc_defs.specs.Bodies.{plane_shapes, padded_total, planes_from};
ghost use Rattle.vc_defs.specs.Raw.{cut_into};
ghost use Rattle.vc_work.specs.References.{plane_total};
ghost use Rattle.vc_frame.specs.Planes.{AreSome, AreWritten, AreRead, planes_over};

use vc_coder::BlockCoder;
use vc_defs::{Damaged, Geometry, Layout};
use vc_plane::{Shape, read_plane, write_plane};

/// The width and height of a plane.
pub(crate) type Size = (u32, u32);

/// The sizes of the planes of a picture, of which the first `count` count.
#[derive(Clone, Copy)]
pub(crate) struct Sizes {
    pub(crate) all: [Size; 3],
    pub(crate) count: usize,
}

/// The sizes of the planes of a picture.
pub(crate) fn plane_sizes(geometry: &Geometry) -> Sizes
    ensures count { result.count ≤ 3 }
    ensures sizes { take result.count result.all ≡ plane_shapes geometry.now }
{
    let luma = (geometry.width, geometry.height);
    let (chroma, count) = match geometry.layout {
        Layout::Grey => (luma, 1),
        Layout::C420 => ((geometry.width / 2, geometry.height / 2), 3),
        Layout::C422 => ((geometry.width / 2, geometry.height), 3),
    };
    Sizes {
        all: [luma, chroma, chroma],
        count,
    }
}

/// How the planes of a frame are coded: with P blocks or without, and the quantiser.
#[derive(Clone, Copy)]
pub(crate) struct Coding {
    pub(crate) inter: bool,
    pub(crate) qp: u32,
}

/// What was written of a picture: the end of its planes, and which of them are stored raw.
#[derive(Clone, Copy)]
pub(crate) struct Body {
    pub(crate) end: usize,
    pub(crate) raw: [bool; 3],
}

/// Writes planes into the output from `at` on. They lie one behind the other in `planes`, and their references so in
/// `area`, which becomes what a decoder will have.
pub(crate) fn write_planes<C: BlockCoder>(
    coder: &C,
    sizes: &[Size],
    coding: &Coding,
    planes: &[u8],
    area: &mut [u8],
    out: &mut [u8],
    at: usize,
) -> Body
    requires some { AreSome sizes.now }
    requires planes { plane_total sizes.now ≤ length planes.now }
    requires area { plane_total sizes.now ≤ length area.old }
    requires qp { (1 ≤ coding.now.qp) × (coding.now.qp ≤ 31) }
    requires room { at + padded_total sizes.now ≤ length out.old }
    ensures { AreWritten (planes_over coding.now sizes.now planes.now area.old) (plane_total sizes.now) area.old area.new out.old out.new at result }
{
    let Some((size, sizes)) = sizes.split_first() else {
        return Body {
            end: at,
            raw: [false; 3],
        };
    };
    let shape = Shape {
        width: size.0,
        height: size.1,
        inter: coding.inter,
        qp: coding.qp,
    };
    let samples = size.0 as usize * size.1 as usize;
    let (plane, planes) = planes.split_at(samples);
    let (mine, area) = area.split_at_mut(samples);
    let written = write_plane(coder, plane, mine, &shape, out, at);
    let rest = write_planes(coder, sizes, coding, planes, area, out, written.end);
    Body {
        end: rest.end,
        raw: [written.raw, rest.raw[0], rest.raw[1]],
    }
}

/// Reads planes from `at` on, and gives their end. They become the samples of `area`, one behind the other, where their
/// references lie before. Of a damaged plane and those behind it nothing is said.
pub(crate) fn read_planes<C: BlockCoder>(
    coder: &C,
    sizes: &[Size],
    raw: &[bool],
    inter: bool,
    body: &[u8],
    at: usize,
    area: &mut [u8],
) -> Result<usize, Damaged>
    requires some { AreSome sizes.now }
    requires area { plane_total sizes.now ≤ length area.old }
    requires told { length sizes.now ≤ length raw.now }
    requires place { at ≤ length body.now }
    ensures ok { IfOk result (λ end. AreRead sizes.now raw.now inter body.now at area.old area.new end) }
    ensures damaged { OnErr result (planes_from raw.now inter (cut_into sizes.now area.old) sizes.now (drop at body.now) ≡ None) }
{
    let Some((size, sizes)) = sizes.split_first() else {
        return Ok(at);
    };
    let shape = Shape {
        width: size.0,
        height: size.1,
        inter,
        qp: 1,
    };
    let (mine, area) = area.split_at_mut(size.0 as usize * size.1 as usize);
    let end = read_plane(coder, body, at, &shape, raw[0], mine)?;
    read_planes(coder, sizes, &raw[1..], inter, body, end, area)
}
