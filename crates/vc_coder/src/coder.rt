//! Coders of blocks, and the one over a transform.

ghost use Rattle.std.specs.Prelude.{◌≡◌, ◌≤◌};
ghost use Rattle.vc_defs.specs.Quantiser.{AreValues};
ghost use Rattle.vc_defs.specs.Planes.{coded_as, samples_of};
ghost use Rattle.vc_coder.specs.Blocks.{block_with};

use crate::coding::values_of;
use crate::restoring::restored;
use crate::showing::samples_over;
use vc_fwht::Transform;

/// Codes blocks, and shows them. Each implementation gives what the definitions give, so that a codec may take any.
pub trait BlockCoder {
    /// Gives the values of a block of samples, coded as a P block over `old` or as an I block. `qp` is 1 to 31: the
    /// values from `-qp` to `qp` become 0. The values have 12 signed bits.
    fn values(&self, block: &[u8; 64], old: &[u8; 64], inter: bool, qp: u32) -> [i32; 64]
        requires { (1 ≤ qp) × (qp ≤ 31) }
        ensures coded { block_with inter result ≡ coded_as inter qp block.now old.now }
        ensures range { AreValues result };

    /// Gives the samples that a decoder shows for values of 12 signed bits, of a P block over `old` or of an I block.
    fn samples(&self, values: &[i32; 64], old: &[u8; 64], inter: bool) -> [u8; 64]
        requires { AreValues values.now }
        ensures { result ≡ samples_of (block_with inter values.now) old.now };
}

/// The coder over a transform. All else it does number by number.
#[derive(Clone, Copy, Debug, Default)]
pub struct TransformCoder<T: Transform>(pub T);

impl<T: Transform> BlockCoder for TransformCoder<T> {
    fn values(&self, block: &[u8; 64], old: &[u8; 64], inter: bool, qp: u32) -> [i32; 64] {
        values_of(&self.0, block, old, inter, qp)
    }

    fn samples(&self, values: &[i32; 64], old: &[u8; 64], inter: bool) -> [u8; 64] {
        samples_over(&restored(&self.0, values, inter), old, inter)
    }
}
