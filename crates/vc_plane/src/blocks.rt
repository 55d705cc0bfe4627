//! Blocks that are shown in a plane.

ghost use Rattle.std.specs.Prelude.{◌≡◌, ◌≤◌, ◌<◌, ◌+◌, ◌*◌, ℕ, pos, length, slice_index_or, true, false};
ghost use Rattle.vc_defs.specs.Quantiser.{AreValues};
ghost use Rattle.vc_defs.specs.Planes.{block_count, block_of};
ghost use Rattle.vc_block.specs.Places.{IsSpot};
ghost use Rattle.vc_coder.specs.Blocks.{block_with};
ghost use Rattle.vc_plane.specs.Samples.{AreShown};

use crate::Shape;
use vc_block::{Spot, copy_block, set_block, spot_of};
use vc_coder::BlockCoder;

/// How many values of a block are not zero.
fn count_values(q: &[i32; 64]) -> u32
    ensures { result ≡ 0 → (k : ℕ) → k < 64 → slice_index_or q.now k (pos 0) ≡ pos 0 }
{
    let mut count = 0;
    for k in 0..64 {
        if q[k] != 0 {
            count += 1;
        }
    }
    count
}

/// Whether all values of a block are zero.
fn is_zero(q: &[i32; 64]) -> bool
    ensures { result ≡ true → (k : ℕ) → k < 64 → slice_index_or q.now k (pos 0) ≡ pos 0 }
{
    q[0] == 0 && count_values(q) == 0
}

/// Shows I blocks of a plane that have one list of values.
fn show_intra_blocks<C: BlockCoder>(
    coder: &C,
    q: &[i32; 64],
    shape: &Shape,
    reference: &mut [u8],
    from: usize,
    to: usize,
)
    requires size { length reference.old ≡ shape.now.width * shape.now.height }
    requires some { (0 < shape.now.width) × (0 < shape.now.height) }
    requires values { AreValues q.now }
    requires blocks { (from ≤ to) × (to ≤ block_count shape.now.width shape.now.height) }
    ensures { AreShown reference.old reference.new shape.now.width shape.now.height from to (block_with false q.now) }
{
    let block = coder.samples(q, &[0; 64], false);
    for number in from..to {
        let spot = spot_of(shape.width, shape.height, number);
        set_block(reference, shape.width, shape.height, &spot, &block);
    }
}

/// Shows P blocks of a plane that have one list of values, each over the block of the reference that it replaces.
fn show_inter_blocks<C: BlockCoder>(
    coder: &C,
    q: &[i32; 64],
    shape: &Shape,
    reference: &mut [u8],
    from: usize,
    to: usize,
)
    requires size { length reference.old ≡ shape.now.width * shape.now.height }
    requires some { (0 < shape.now.width) × (0 < shape.now.height) }
    requires values { AreValues q.now }
    requires blocks { (from ≤ to) × (to ≤ block_count shape.now.width shape.now.height) }
    ensures { AreShown reference.old reference.new shape.now.width shape.now.height from to (block_with true q.now) }
{
    let mut old = [0; 64];
    for number in from..to {
        let spot = spot_of(shape.width, shape.height, number);
        copy_block(reference, shape.width, shape.height, &spot, &mut old);
        let block = coder.samples(q, &old, true);
        set_block(reference, shape.width, shape.height, &spot, &block);
    }
}

/// Shows some blocks of a plane that have one type and one list of values. P blocks whose values are all zero leave the
/// reference as it is.
pub(crate) fn show_blocks<C: BlockCoder>(
    coder: &C,
    q: &[i32; 64],
    shape: &Shape,
    inter: bool,
    reference: &mut [u8],
    from: usize,
    to: usize,
)
    requires size { length reference.old ≡ shape.now.width * shape.now.height }
    requires some { (0 < shape.now.width) × (0 < shape.now.height) }
    requires values { AreValues q.now }
    requires blocks { (from ≤ to) × (to ≤ block_count shape.now.width shape.now.height) }
    ensures { AreShown reference.old reference.new shape.now.width shape.now.height from to (block_with inter q.now) }
{
    if !inter {
        show_intra_blocks(coder, q, shape, reference, from, to);
    } else if !is_zero(q) {
        show_inter_blocks(coder, q, shape, reference, from, to);
    }
}

/// Shows a block of a plane, where it replaces the block `old` of the reference.
fn show_samples<C: BlockCoder>(
    coder: &C,
    q: &[i32; 64],
    shape: &Shape,
    inter: bool,
    old: &[u8; 64],
    reference: &mut [u8],
    spot: &Spot,
)
    requires size { length reference.old ≡ shape.now.width * shape.now.height }
    requires some { (0 < shape.now.width) × (0 < shape.now.height) }
    requires values { AreValues q.now }
    requires spot { IsSpot shape.now.width shape.now.height spot.now }
    requires replaced { old.now ≡ block_of reference.old shape.now.width shape.now.height spot.now.number }
    ensures { AreShown reference.old reference.new shape.now.width shape.now.height spot.now.number (spot.now.number + 1) (block_with inter q.now) }
{
    let block = coder.samples(q, old, inter);
    set_block(reference, shape.width, shape.height, spot, &block);
}

/// Shows a block of a plane, where it replaces the block `old` of the reference. A P block whose values are all zero
/// leaves the reference as it is.
pub(crate) fn show_block<C: BlockCoder>(
    coder: &C,
    q: &[i32; 64],
    shape: &Shape,
    inter: bool,
    old: &[u8; 64],
    reference: &mut [u8],
    spot: &Spot,
)
    requires size { length reference.old ≡ shape.now.width * shape.now.height }
    requires some { (0 < shape.now.width) × (0 < shape.now.height) }
    requires values { AreValues q.now }
    requires spot { IsSpot shape.now.width shape.now.height spot.now }
    requires replaced { old.now ≡ block_of reference.old shape.now.width shape.now.height spot.now.number }
    ensures { AreShown reference.old reference.new shape.now.width shape.now.height spot.now.number (spot.now.number + 1) (block_with inter q.now) }
{
    if !inter {
        show_samples(coder, q, shape, false, old, reference, spot);
    } else if !is_zero(q) {
        show_samples(coder, q, shape, true, old, reference, spot);
    }
}
