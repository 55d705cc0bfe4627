//! The coded form of a block.

ghost use Rattle.std.specs.Prelude.{◌≡◌, ◌≤◌, ◌<◌, ◌*◌, length};
ghost use Rattle.vc_defs.specs.Quantiser.{AreValues};
ghost use Rattle.vc_defs.specs.Planes.{block_of};
ghost use Rattle.vc_block.specs.Places.{IsSpot};
ghost use Rattle.vc_coder.specs.Blocks.{block_with};
ghost use Rattle.vc_plane.specs.Writing.{coded_at};

use crate::Shape;
use crate::choosing::is_inter_block;
use vc_block::{Spot, copy_block};
use vc_coder::BlockCoder;

/// Codes a block of a plane: gives whether it is a P block, its values in `q`, and in `old` the block of the reference that
/// it replaces.
pub(crate) fn code_block<C: BlockCoder>(
    coder: &C,
    plane: &[u8],
    reference: &[u8],
    shape: &Shape,
    spot: &Spot,
    old: &mut [u8; 64],
    q: &mut [i32; 64],
) -> bool
    requires plane { length plane.now ≡ shape.now.width * shape.now.height }
    requires reference { length reference.now ≡ shape.now.width * shape.now.height }
    requires some { (0 < shape.now.width) × (0 < shape.now.height) }
    requires qp { (1 ≤ shape.now.qp) × (shape.now.qp ≤ 31) }
    requires spot { IsSpot shape.now.width shape.now.height spot.now }
    ensures coded { block_with result q.new ≡ coded_at shape.now plane.now reference.now spot.now.number }
    ensures range { AreValues q.new }
    ensures replaced { old.new ≡ block_of reference.now shape.now.width shape.now.height spot.now.number }
{
    let mut block = [0; 64];
    copy_block(plane, shape.width, shape.height, spot, &mut block);
    copy_block(reference, shape.width, shape.height, spot, old);
    let inter = is_inter_block(shape.inter, &block, old);
    *q = coder.values(&block, old, inter, shape.qp);
    inter
}
