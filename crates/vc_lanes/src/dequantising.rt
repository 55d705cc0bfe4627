//! The coefficients that values stand for, on 16 bits where these suffice for three stages.

ghost use Rattle.std.specs.Prelude.{◌≡◌, ◌≤◌, ◌<◌, ◌*ℤ◌, ◌^◌, ◌-◌, ◌≤ℤ◌, ℕ, pos, neg_ℤ, slice_index_or, unsigned_abs, true, false};
ghost use Rattle.vc_defs.specs.Quantiser.{AllBetween, dequantised, shift_at};
ghost use Rattle.vc_lanes.specs.Small.{AreSmall};

/// What a value of a P block, and behind them one of an I block, is multiplied by, for a shift to the left by its entry.
const STEPS: [i16; 128] = [
    8, 8, 8, 16, 16, 32, 32, 64, //
    8, 8, 16, 16, 32, 32, 64, 64, //
    8, 16, 16, 32, 32, 64, 64, 128, //
    16, 16, 32, 32, 64, 64, 128, 128, //
    16, 32, 32, 64, 64, 128, 128, 256, //
    32, 32, 64, 64, 128, 128, 256, 512, //
    32, 64, 64, 128, 128, 256, 512, 1024, //
    64, 64, 128, 128, 256, 512, 1024, 1024, //
    4, 4, 4, 8, 8, 16, 16, 32, //
    4, 4, 8, 8, 16, 16, 32, 32, //
    4, 8, 8, 16, 16, 32, 32, 64, //
    8, 8, 16, 16, 32, 32, 64, 64, //
    8, 16, 16, 32, 32, 64, 64, 128, //
    16, 16, 32, 32, 64, 64, 128, 128, //
    16, 32, 32, 64, 64, 128, 128, 256, //
    32, 32, 64, 64, 128, 128, 256, 256,
];

/// How large a value at each of these places may be, so that its coefficient is not beyond 4,095.
const LIMITS: [u16; 128] = [
    511, 511, 511, 255, 255, 127, 127, 63, //
    511, 511, 255, 255, 127, 127, 63, 63, //
    511, 255, 255, 127, 127, 63, 63, 31, //
    255, 255, 127, 127, 63, 63, 31, 31, //
    255, 127, 127, 63, 63, 31, 31, 15, //
    127, 127, 63, 63, 31, 31, 15, 7, //
    127, 63, 63, 31, 31, 15, 7, 3, //
    63, 63, 31, 31, 15, 7, 3, 3, //
    1023, 1023, 1023, 511, 511, 255, 255, 127, //
    1023, 1023, 511, 511, 255, 255, 127, 127, //
    1023, 511, 511, 255, 255, 127, 127, 63, //
    511, 511, 255, 255, 127, 127, 63, 63, //
    511, 255, 255, 127, 127, 63, 63, 31, //
    255, 255, 127, 127, 63, 63, 31, 31, //
    255, 127, 127, 63, 63, 31, 31, 15, //
    127, 127, 63, 63, 31, 31, 15, 15,
];

/// The step of the value at place `k` of a block.
fn step(intra: bool, k: usize) -> i16
    requires { k < 64 }
    ensures { result ≡ pos (2 ^ shift_at intra k) }
{
    STEPS[64 * intra as usize + k]
}

/// How large the value at place `k` of a block may be.
fn limit(intra: bool, k: usize) -> u16
    requires { k < 64 }
    ensures { result ≡ 2 ^ (12 - shift_at intra k) - 1 }
{
    LIMITS[64 * intra as usize + k]
}

/// Whether a value is beyond its limit.
fn is_beyond(v: i16, limit: u16) -> bool
    ensures { result ≡ false → unsigned_abs v ≤ limit }
{
    v.unsigned_abs() > limit
}

/// Whether the value at place `k` of a block is beyond its limit.
fn is_beyond_at(q: &[i16; 64], intra: bool, k: usize) -> bool
    requires { k < 64 }
    ensures { result ≡ false → unsigned_abs (slice_index_or q.now k (pos 0)) ≤ 2 ^ (12 - shift_at intra k) - 1 }
{
    is_beyond(q[k], limit(intra, k))
}

/// How many values of a block are beyond their limits.
fn count_beyond(q: &[i16; 64], intra: bool) -> u16
    ensures { result ≡ 0 → AreSmall intra q.now }
{
    let mut count = 0;
    for k in 0..64 {
        if is_beyond_at(q, intra, k) {
            count += 1;
        }
    }
    count
}

/// Whether no coefficient of the values of a block is beyond 4,095.
pub(crate) fn are_small(q: &[i16; 64], intra: bool) -> bool
    ensures { result ≡ true → AreSmall intra q.now }
{
    count_beyond(q, intra) == 0
}

/// The coefficient that a value stands for.
fn coefficient(v: i16, step: i16) -> i16
    requires least { neg_ℤ (pos 4095) ≤ℤ (v *ℤ step) }
    requires most { (v *ℤ step) ≤ℤ pos 4095 }
    ensures { result ≡ v *ℤ step }
{
    v * step
}

/// The coefficient of the value at place `k` of a block.
fn coefficient_at(q: &[i16; 64], intra: bool, k: usize) -> i16
    requires place { k < 64 }
    requires small { AreSmall intra q.now }
    ensures value { result ≡ slice_index_or q.now k (pos 0) *ℤ pos (2 ^ shift_at intra k) }
    ensures range { (neg_ℤ (pos 4095) ≤ℤ result) × (result ≤ℤ pos 4095) }
{
    coefficient(q[k], step(intra, k))
}

/// The coefficients that small values stand for.
pub(crate) fn dequantise(q: &[i16; 64], intra: bool) -> [i16; 64]
    requires { AreSmall intra q.now }
    ensures dequantised { result ≡ dequantised q.now intra }
    ensures range { AllBetween (neg_ℤ (pos 4095)) (pos 4095) result }
{
    let mut c = [0; 64];
    for k in 0..64 {
        c[k] = coefficient_at(q, intra, k);
    }
    c
}
