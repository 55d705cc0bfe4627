//! From the samples of a block to its values.

ghost use Rattle.std.specs.Prelude.{◌≡◌, ◌≤◌, ◌<◌, ◌-ℤ◌, ◌≤ℤ◌, pos, neg_ℤ, slice_index};
ghost use Rattle.vc_defs.specs.Quantiser.{AllBetween, AreValues};
ghost use Rattle.vc_defs.specs.Planes.{base_of, coded_as, differences};
ghost use Rattle.vc_coder.specs.Blocks.{block_with};

use crate::bases::base;
use vc_fwht::Transform;
use vc_quant::quantise;

/// A sample's difference from its base.
fn difference(block: &[u8; 64], old: &[u8; 64], inter: bool, k: usize) -> i32
    requires { k < 64 }
    ensures value { result ≡ pos (slice_index block.now k) -ℤ base_of inter old.now k }
    ensures least { neg_ℤ (pos 255) ≤ℤ result }
    ensures most { result ≤ℤ pos 255 }
{
    block[k] as i32 - base(inter, old, k)
}

/// The differences of a block from its bases.
fn differences_of(block: &[u8; 64], old: &[u8; 64], inter: bool) -> [i32; 64]
    ensures values { result ≡ differences inter block.now old.now }
    ensures bounds { AllBetween (neg_ℤ (pos 255)) (pos 255) result }
{
    let mut x = [0; 64];
    for k in 0..64 {
        x[k] = difference(block, old, inter, k);
    }
    x
}

/// The values of a block that is coded with this type.
pub(crate) fn values_of<T: Transform>(
    t: &T,
    block: &[u8; 64],
    old: &[u8; 64],
    inter: bool,
    qp: u32,
) -> [i32; 64]
    requires qp { (1 ≤ qp) × (qp ≤ 31) }
    ensures coded { block_with inter result ≡ coded_as inter qp block.now old.now }
    ensures range { AreValues result }
{
    quantise(&t.forward(&differences_of(block, old, inter)), !inter, qp)
}
