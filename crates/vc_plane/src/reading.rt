//! Reading a plane.

ghost use Rattle.std.specs.Prelude.{◌≡◌, ◌≤◌, ◌<◌, ◌+◌, ◌*◌, length, drop, IfOk, OnErr, None, true, false};
ghost use Rattle.vc_defs.specs.Planes.{block_count};
ghost use Rattle.vc_defs.specs.Bodies.{plane_from};
ghost use Rattle.vc_plane.specs.Reading.{IsPlaneRead};

use crate::Shape;
use crate::blocks::show_blocks;
use crate::entries::read_entry;
use crate::raw::{are_samples, unpad};
use vc_coder::BlockCoder;
use vc_defs::Damaged;

/// The number of blocks of the padded plane.
pub(crate) fn block_count(shape: &Shape) -> usize
    ensures { result ≡ block_count shape.now.width shape.now.height }
{
    (shape.width as usize).div_ceil(8) * (shape.height as usize).div_ceil(8)
}

/// Reads the entries of a coded plane.
fn read_coded<C: BlockCoder>(
    coder: &C,
    body: &[u8],
    at: usize,
    shape: &Shape,
    reference: &mut [u8],
) -> Result<usize, Damaged>
    requires place { at ≤ length body.now }
    requires size { length reference.old ≡ shape.now.width * shape.now.height }
    requires some { (0 < shape.now.width) × (0 < shape.now.height) }
    ensures ok { IfOk result (λ end. IsPlaneRead body.now at false shape.now reference.old reference.new end) }
    ensures damaged { OnErr result (plane_from false shape.now.inter reference.old shape.now.width shape.now.height (drop at body.now) ≡ None) }
{
    let count = block_count(shape);
    let mut q = [0; 64];
    let mut end = at;
    let mut next = 0;
    while next < count {
        let entry = read_entry(body, end, shape.inter, count - next, &mut q)?;
        let last = next + entry.repeats + 1;
        show_blocks(coder, &q, shape, entry.inter, reference, next, last);
        next = last;
        end = entry.end;
    }
    Ok(end)
}

/// Reads the samples of a raw plane.
fn read_raw(body: &[u8], at: usize, shape: &Shape, reference: &mut [u8]) -> Result<usize, Damaged>
    requires place { at ≤ length body.now }
    requires size { length reference.old ≡ shape.now.width * shape.now.height }
    requires some { (0 < shape.now.width) × (0 < shape.now.height) }
    ensures ok { IfOk result (λ end. IsPlaneRead body.now at true shape.now reference.old reference.new end) }
    ensures damaged { OnErr result (plane_from true shape.now.inter reference.old shape.now.width shape.now.height (drop at body.now) ≡ None) }
{
    let count = block_count(shape);
    if (body.len() - at) / 64 < count {
        return Err(Damaged);
    }
    let end = at + 64 * count;
    if !are_samples(&body[at..end]) {
        return Err(Damaged);
    }
    unpad(&body[at..end], shape, reference);
    Ok(end)
}

/// Reads the plane at the front of the bytes from `at` on, raw or coded, and gives its end.
///
/// The reference has the samples of the plane before, width times height of them, neither of which is 0; it becomes
/// the samples of this plane. P blocks are shown over the blocks of the reference of their own numbers.
///
/// The answer is [`Damaged`] exactly where no legal plane stands at the front of these bytes: a head has a bit that
/// means nothing, or is of a P block in an I frame, or stands for more blocks than are left; words spell no block; a
/// byte of a raw plane is 255; or the bytes end. Then nothing is said of the samples of the reference.
pub fn read_plane<C: BlockCoder>(
    coder: &C,
    body: &[u8],
    at: usize,
    shape: &Shape,
    raw: bool,
    reference: &mut [u8],
) -> Result<usize, Damaged>
    requires place { at ≤ length body.now }
    requires size { length reference.old ≡ shape.now.width * shape.now.height }
    requires some { (0 < shape.now.width) × (0 < shape.now.height) }
    ensures ok { IfOk result (λ end. IsPlaneRead body.now at raw shape.now reference.old reference.new end) }
    ensures damaged { OnErr result (plane_from raw shape.now.inter reference.old shape.now.width shape.now.height (drop at body.now) ≡ None) }
{
    if raw {
        read_raw(body, at, shape, reference)
    } else {
        read_coded(coder, body, at, shape, reference)
    }
}
