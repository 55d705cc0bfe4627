//! The coder of blocks by vectors.

ghost use Rattle.std.specs.Prelude.{◌≡◌, ◌≤◌};
ghost use Rattle.vc_defs.specs.Quantiser.{AreValues};
ghost use Rattle.vc_defs.specs.Planes.{coded_as, samples_of};
ghost use Rattle.vc_coder.specs.Blocks.{block_with};

use crate::LaneTransform;
use crate::showing::shown;
use vc_coder::{BlockCoder, TransformCoder};

/// The coder by vectors: the values of a block on 32 bits, its samples on 16 where they suffice. It gives what every
/// [`BlockCoder`] gives.
#[derive(Clone, Copy, Debug, Default)]
pub struct LaneCoder;

impl BlockCoder for LaneCoder {
    fn values(&self, block: &[u8; 64], old: &[u8; 64], inter: bool, qp: u32) -> [i32; 64] {
        TransformCoder(LaneTransform).values(block, old, inter, qp)
    }

    fn samples(&self, values: &[i32; 64], old: &[u8; 64], inter: bool) -> [u8; 64] {
        shown(values, old, inter)
    }
}
