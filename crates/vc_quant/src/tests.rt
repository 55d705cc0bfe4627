//! Worked values of docs/FORMAT.md, which no clause names.

ghost use Rattle.std.specs.Prelude.{◌≤ℤ◌, neg_ℤ, pos, true, false};
ghost use Rattle.vc_defs.specs.Quantiser.{AreValues, AreCoefficients};

use super::*;

/// A block with one value in front, and with another at its last place.
fn block(first: i32, last: i32) -> [i32; 64]
    requires first { (neg_ℤ (pos 2048) ≤ℤ first) × (first ≤ℤ pos 2047) }
    requires last { (neg_ℤ (pos 2048) ≤ℤ last) × (last ≤ℤ pos 2047) }
    ensures values { AreValues result }
    ensures intra { AreCoefficients true result }
    ensures inter { AreCoefficients false result }
{
    let mut q = [0; 64];
    q[0] = first;
    q[63] = last;
    q
}

#[test]
fn blocks_are_shifted_by_type(rt: HostRuntime) {
    let q = block(2032, -3);
    let intra = dequantise(&q, true);
    let inter = dequantise(&q, false);
    assert_eq!(rt; (intra[0], intra[1], intra[63]), (8128, 0, -768));
    assert_eq!(rt; (inter[0], inter[1], inter[63]), (16256, 0, -3072));

    let c = block(83, -1025);
    let intra = quantise(&c, true, 20);
    let inter = quantise(&c, false, 1);
    assert_eq!(rt; (intra[0], intra[1], intra[63]), (0, 0, 0));
    assert_eq!(rt; (inter[0], inter[1], inter[63]), (10, 0, -2));
    assert_eq!(rt; quantise(&block(84, 0), true, 20)[0], 21);
}
