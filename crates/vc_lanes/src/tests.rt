//! The lanes against the plain transform, and the coder against the plain one, at the edges of the range.

ghost use Rattle.std.specs.Prelude.{◌≤ℤ◌, neg_ℤ, pos};
ghost use Rattle.vc_defs.specs.Quantiser.{AllBetween};

use super::{LaneCoder, LaneTransform};
use vc_coder::{BlockCoder, TransformCoder};
use vc_fwht::{PlainTransform, Transform};

/// One of two numbers, in turn.
fn in_turn(k: usize, even: i32, odd: i32) -> i32
    requires even { (neg_ℤ (pos 255) ≤ℤ even) × (even ≤ℤ pos 255) }
    requires odd { (neg_ℤ (pos 255) ≤ℤ odd) × (odd ≤ℤ pos 255) }
    ensures { (neg_ℤ (pos 255) ≤ℤ result) × (result ≤ℤ pos 255) }
{
    if k % 2 == 0 { even } else { odd }
}

/// A block whose places have two numbers in turn.
fn alternating(even: i32, odd: i32) -> [i32; 64]
    requires even { (neg_ℤ (pos 255) ≤ℤ even) × (even ≤ℤ pos 255) }
    requires odd { (neg_ℤ (pos 255) ≤ℤ odd) × (odd ≤ℤ pos 255) }
    ensures samples { AllBetween (neg_ℤ (pos 255)) (pos 255) result }
    ensures coefficients { AllBetween (neg_ℤ (pos 2097152)) (pos 2097152) result }
{
    let mut x = [0; 64];
    for k in 0..64 {
        x[k] = in_turn(k, even, odd);
    }
    x
}

/// Whether a transform gives what the sums give.
fn is_plain<T: Transform>(t: &T, x: &[i32; 64]) -> bool
    requires samples { AllBetween (neg_ℤ (pos 255)) (pos 255) x.now }
    requires coefficients { AllBetween (neg_ℤ (pos 2097152)) (pos 2097152) x.now }
{
    t.forward(x) == PlainTransform.forward(x) && t.inverse(x) == PlainTransform.inverse(x)
}

#[test]
fn lanes_agree_with_sums(rt: HostRuntime) {
    for (even, odd, first) in [(255, 255, 16320), (-255, -255, -16320), (255, -255, 0)] {
        assert!(rt; -255 <= even && even <= 255 && -255 <= odd && odd <= 255);
        let x = alternating(even, odd);
        assert!(rt; is_plain(&LaneTransform, &x));
        assert_eq!(rt; LaneTransform.forward(&x)[0], first);
    }
}

/// A block of two samples, one at each third place.
fn thirds(one: u8, other: u8) -> [u8; 64] {
    let mut block = [other; 64];
    for k in 0..64 {
        if k % 3 == 0 {
            block[k] = one;
        }
    }
    block
}

/// Whether the coder gives what the coder over the sums gives, both ways.
fn codes_as_plain(block: &[u8; 64], old: &[u8; 64], inter: bool) -> bool {
    let plain = TransformCoder(PlainTransform);
    let values = LaneCoder.values(block, old, inter, 1);
    values == plain.values(block, old, inter, 1)
        && LaneCoder.samples(&values, old, inter) == plain.samples(&values, old, inter)
}

#[test]
fn coder_agrees_with_sums(rt: HostRuntime) {
    for (one, other) in [(255, 0), (0, 255), (130, 126), (255, 255)] {
        let block = thirds(one, other);
        assert!(rt; codes_as_plain(&block, &[0; 64], false));
        assert!(rt; codes_as_plain(&block, &[0; 64], true));
        assert!(rt; codes_as_plain(&block, &[255; 64], true));
    }
}

#[test]
fn first_value_is_the_sum_of_differences_over_eight(rt: HostRuntime) {
    assert_eq!(rt; LaneCoder.values(&[255; 64], &[0; 64], true, 1)[0], 2040);
    assert_eq!(rt; LaneCoder.values(&[0; 64], &[255; 64], true, 1)[0], -2040);
}
