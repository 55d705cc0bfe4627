//! The quantiser of a block's coefficients, after docs/FORMAT.md, "Quantiser".
//!
//! A block has 64 numbers row by row. An I block is coded as a difference from 128 (`intra`), a P block as a
//! difference from a reference. Each coefficient is shifted by the entry of its diagonal, row plus column, in the
//! list of the block's type. Both directions are one product with a table and at most one shift by ten for each
//! number, so that a block is worked on in vectors.
#![tactic(auto)]

ghost use Rattle.std.specs.Prelude.{◌≡◌, ◌≤◌, ◌<◌, ◌*ℤ◌, ◌^◌, ◌-◌, ◌≤ℤ◌, pos, neg_ℤ, slice_index_or};
ghost use Rattle.vc_defs.specs.Quantiser.{shift_at, quantised_by, quantised, dequantised, AreCoefficients, AreValues, AllBetween};

/// What a coefficient of an I block is multiplied by before a shift to the right by ten, so that it is shifted
/// by its own entry.
const INTRA_FACTORS: [i32; 64] = [
    256, 256, 256, 128, 128, 64, 64, 32, //
    256, 256, 128, 128, 64, 64, 32, 32, //
    256, 128, 128, 64, 64, 32, 32, 16, //
    128, 128, 64, 64, 32, 32, 16, 16, //
    128, 64, 64, 32, 32, 16, 16, 8, //
    64, 64, 32, 32, 16, 16, 8, 8, //
    64, 32, 32, 16, 16, 8, 8, 4, //
    32, 32, 16, 16, 8, 8, 4, 4,
];

/// The same for a P block.
const INTER_FACTORS: [i32; 64] = [
    128, 128, 128, 64, 64, 32, 32, 16, //
    128, 128, 64, 64, 32, 32, 16, 16, //
    128, 64, 64, 32, 32, 16, 16, 8, //
    64, 64, 32, 32, 16, 16, 8, 8, //
    64, 32, 32, 16, 16, 8, 8, 4, //
    32, 32, 16, 16, 8, 8, 4, 2, //
    32, 16, 16, 8, 8, 4, 2, 1, //
    16, 16, 8, 8, 4, 2, 1, 1,
];

/// What a value of an I block is multiplied by, for a shift to the left by its entry.
const INTRA_STEPS: [i32; 64] = [
    4, 4, 4, 8, 8, 16, 16, 32, //
    4, 4, 8, 8, 16, 16, 32, 32, //
    4, 8, 8, 16, 16, 32, 32, 64, //
    8, 8, 16, 16, 32, 32, 64, 64, //
    8, 16, 16, 32, 32, 64, 64, 128, //
    16, 16, 32, 32, 64, 64, 128, 128, //
    16, 32, 32, 64, 64, 128, 128, 256, //
    32, 32, 64, 64, 128, 128, 256, 256,
];

/// The same for a P block.
const INTER_STEPS: [i32; 64] = [
    8, 8, 8, 16, 16, 32, 32, 64, //
    8, 8, 16, 16, 32, 32, 64, 64, //
    8, 16, 16, 32, 32, 64, 64, 128, //
    16, 16, 32, 32, 64, 64, 128, 128, //
    16, 32, 32, 64, 64, 128, 128, 256, //
    32, 32, 64, 64, 128, 128, 256, 512, //
    32, 64, 64, 128, 128, 256, 512, 1024, //
    64, 64, 128, 128, 256, 512, 1024, 1024,
];

/// The factor of the coefficient at place `k` of a block.
fn factor(intra: bool, k: usize) -> i32
    requires { k < 64 }
    ensures { result ≡ pos (2 ^ (10 - shift_at intra k)) }
{
    if intra {
        INTRA_FACTORS[k]
    } else {
        INTER_FACTORS[k]
    }
}

/// The step of the value at place `k` of a block.
fn step(intra: bool, k: usize) -> i32
    requires { k < 64 }
    ensures { result ≡ pos (2 ^ shift_at intra k) }
{
    if intra {
        INTRA_STEPS[k]
    } else {
        INTER_STEPS[k]
    }
}

/// The value that stands for a coefficient.
fn value(c: i32, factor: i32, qp: u32) -> i32
    requires coefficient { (neg_ℤ (pos 16320) ≤ℤ c) × (c ≤ℤ pos 16320) }
    requires factor { (pos 0 ≤ℤ factor) × (factor ≤ℤ pos 1024) }
    ensures { result ≡ quantised_by 10 qp (c *ℤ factor) }
{
    let v = (c * factor) >> 10;
    if v.unsigned_abs() <= qp { 0 } else { v }
}

/// The coefficient that a value stands for.
fn coefficient(v: i32, step: i32) -> i32
    requires value { (neg_ℤ (pos 2048) ≤ℤ v) × (v ≤ℤ pos 2047) }
    requires step { (pos 0 ≤ℤ step) × (step ≤ℤ pos 1024) }
    ensures { result ≡ v *ℤ step }
{
    v * step
}

/// The value of the coefficient at place `k` of a block.
fn value_at(c: &[i32; 64], intra: bool, qp: u32, k: usize) -> i32
    requires place { k < 64 }
    requires coefficients { AreCoefficients intra c.now }
    ensures { result ≡ quantised_by (shift_at intra k) qp (slice_index_or c.now k (pos 0)) }
{
    value(c[k], factor(intra, k), qp)
}

/// The coefficient of the value at place `k` of a block.
fn coefficient_at(q: &[i32; 64], intra: bool, k: usize) -> i32
    requires place { k < 64 }
    requires values { AreValues q.now }
    ensures { result ≡ slice_index_or q.now k (pos 0) *ℤ pos (2 ^ shift_at intra k) }
{
    coefficient(q[k], step(intra, k))
}

/// The values of a block of one type. The table of factors is the same for the whole block where the type is known at
/// each call.
fn quantise_as(c: &[i32; 64], intra: bool, qp: u32) -> [i32; 64]
    requires { AreCoefficients intra c.now }
    ensures quantised { result ≡ quantised c.now intra qp }
    ensures range { AreValues result }
{
    let mut q = [0; 64];
    for k in 0..64 {
        q[k] = value_at(c, intra, qp, k);
    }
    q
}

/// Quantises the coefficients of a block: each is shifted right, rounding down, by the entry of its diagonal, and
/// then a value from `-qp` to `qp` becomes 0.
///
/// The coefficients of an I block lie in -8,192 to 8,160 and those of a P block in -16,320 to 16,320, which the
/// transform of differences of samples keeps. `qp` is 1 to 31. The values have 12 signed bits.
pub fn quantise(c: &[i32; 64], intra: bool, qp: u32) -> [i32; 64]
    requires coefficients { AreCoefficients intra c.now }
    requires least { 1 ≤ qp }
    requires most { qp ≤ 31 }
    ensures quantised { result ≡ quantised c.now intra qp }
    ensures range { AreValues result }
{
    if intra {
        quantise_as(c, true, qp)
    } else {
        quantise_as(c, false, qp)
    }
}

/// The coefficients of a block of one type, as [`quantise_as`] has its values.
fn dequantise_as(q: &[i32; 64], intra: bool) -> [i32; 64]
    requires { AreValues q.now }
    ensures dequantised { result ≡ dequantised q.now intra }
    ensures range { AllBetween (neg_ℤ (pos 2097152)) (pos 2097152) result }
{
    let mut c = [0; 64];
    for k in 0..64 {
        c[k] = coefficient_at(q, intra, k);
    }
    c
}

/// Gives the coefficients that the values of a block stand for: each value shifted left by the entry of its
/// diagonal.
///
/// The values have 12 signed bits, as `quantise` gives them and a coded block has them. The coefficients lie in
/// -2,097,152 to 2,097,152.
pub fn dequantise(q: &[i32; 64], intra: bool) -> [i32; 64]
    requires { AreValues q.now }
    ensures dequantised { result ≡ dequantised q.now intra }
    ensures range { AllBetween (neg_ℤ (pos 2097152)) (pos 2097152) result }
{
    if intra {
        dequantise_as(q, true)
    } else {
        dequantise_as(q, false)
    }
}

#[cfg(test)]
mod tests;
