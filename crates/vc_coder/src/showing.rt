//! From the inverse transform of a block to its samples.

ghost use Rattle.std.specs.Prelude.{◌≡◌, ◌+ℤ◌, ◌≤ℤ◌, pos, neg_ℤ};
ghost use Rattle.std.specs.Int.{int_shr};
ghost use Rattle.vc_defs.specs.Quantiser.{AllBetween};
ghost use Rattle.vc_defs.specs.Planes.{clamped};
ghost use Rattle.vc_coder.specs.Blocks.{samples_from};

use crate::bases::base;

/// A number brought into the range of a sample.
fn clamp(z: i32) -> i32
    ensures value { result ≡ pos (clamped z) }
    ensures least { pos 0 ≤ℤ result }
    ensures most { result ≤ℤ pos 255 }
{
    if z < 0 {
        0
    } else if z > 255 {
        255
    } else {
        z
    }
}

/// The sample of an entry of the inverse transform.
fn sample(y: i32, base: i32) -> u8
    requires entry { (neg_ℤ (pos 134217728) ≤ℤ y) × (y ≤ℤ pos 134217728) }
    requires base { (pos 0 ≤ℤ base) × (base ≤ℤ pos 255) }
    ensures { result ≡ clamped (int_shr y 6 +ℤ base) }
{
    let z = (y >> 6) + base;
    clamp(z) as u8
}

/// The samples of a block, from its inverse transform and what it was coded as a difference from.
pub(crate) fn samples_over(y: &[i32; 64], old: &[u8; 64], inter: bool) -> [u8; 64]
    requires { AllBetween (neg_ℤ (pos 134217728)) (pos 134217728) y.now }
    ensures { result ≡ samples_from y.now inter old.now }
{
    let mut block = [0; 64];
    for k in 0..64 {
        block[k] = sample(y[k], base(inter, old, k));
    }
    block
}
