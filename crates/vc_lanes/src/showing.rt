//! From the values of a block to its samples.

ghost use Rattle.std.specs.Prelude.{◌≡◌, ◌<◌, ◌+ℤ◌, ◌≤ℤ◌, pos, neg_ℤ};
ghost use Rattle.std.specs.Int.{int_shr};
ghost use Rattle.vc_defs.specs.Quantiser.{AllBetween, AreValues};
ghost use Rattle.vc_defs.specs.Planes.{base_of, clamped, samples_of};
ghost use Rattle.vc_coder.specs.Blocks.{block_with, samples_from};

use crate::LaneTransform;
use crate::restoring::restored;
use vc_coder::{BlockCoder, TransformCoder};

/// What a sample is coded as a difference from.
fn base(inter: bool, old: &[u8; 64], k: usize) -> i16
    requires { k < 64 }
    ensures value { result ≡ base_of inter old.now k }
    ensures least { pos 0 ≤ℤ result }
    ensures most { result ≤ℤ pos 255 }
{
    if inter { old[k] as i16 } else { 128 }
}

/// A number brought into the range of a sample.
fn clamp(z: i16) -> i16
    ensures value { result ≡ pos (clamped z) }
    ensures least { pos 0 ≤ℤ result }
    ensures most { result ≤ℤ pos 255 }
{
    if z < 0 {
        0
    } else if z > 255 {
        255
    } else {
        z
    }
}

/// The sample of an entry of the inverse transform.
fn sample(y: i16, base: i16) -> u8
    requires entry { (neg_ℤ (pos 32760) ≤ℤ y) × (y ≤ℤ pos 32760) }
    requires base { (pos 0 ≤ℤ base) × (base ≤ℤ pos 255) }
    ensures { result ≡ clamped (int_shr y 6 +ℤ base) }
{
    let z = (y >> 6) + base;
    clamp(z) as u8
}

/// The samples of a block, from its inverse transform and what it was coded as a difference from.
fn samples_over(y: &[i16; 64], old: &[u8; 64], inter: bool) -> [u8; 64]
    requires { AllBetween (neg_ℤ (pos 32760)) (pos 32760) y.now }
    ensures { result ≡ samples_from y.now inter old.now }
{
    let mut block = [0; 64];
    for k in 0..64 {
        block[k] = sample(y[k], base(inter, old, k));
    }
    block
}

/// The samples of the values of a block: on 16 bits where they suffice, else on 32.
pub(crate) fn shown(values: &[i32; 64], old: &[u8; 64], inter: bool) -> [u8; 64]
    requires { AreValues values.now }
    ensures { result ≡ samples_of (block_with inter values.now) old.now }
{
    match restored(values, inter) {
        Some(y) => samples_over(&y, old, inter),
        None => TransformCoder(LaneTransform).samples(values, old, inter),
    }
}
