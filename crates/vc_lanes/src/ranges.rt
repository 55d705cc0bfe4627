//! Whether all numbers of a block are small enough for three stages on 16 bits.

ghost use Rattle.std.specs.Prelude.{◌≡◌, ◌≤ℤ◌, pos, neg_ℤ, false, true};
ghost use Rattle.vc_defs.specs.Quantiser.{AllBetween};

/// Whether a number is beyond 4,095.
fn is_large(z: i16) -> bool
    ensures { result ≡ false → (neg_ℤ (pos 4095) ≤ℤ z) × (z ≤ℤ pos 4095) }
{
    z < -4095 || z > 4095
}

/// How many numbers of a block after three stages are beyond 4,095.
fn count_large(x: &[i16; 64]) -> u16
    ensures { result ≡ 0 → AllBetween (neg_ℤ (pos 4095)) (pos 4095) x.now }
{
    let mut count = 0;
    for k in 0..64 {
        if is_large(x[k]) {
            count += 1;
        }
    }
    count
}

/// Whether no number of a block after three stages is beyond 4,095.
pub(crate) fn are_small(x: &[i16; 64]) -> bool
    ensures { result ≡ true → AllBetween (neg_ℤ (pos 4095)) (pos 4095) x.now }
{
    count_large(x) == 0
}
