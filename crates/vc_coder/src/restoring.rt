//! The inverse transform of the values of a block.

ghost use Rattle.std.specs.Prelude.{◌≡◌, ◌≤◌, ◌<◌, ◌≤ℤ◌, ◌*ℤ◌, ◌^◌, ℕ, pos, neg_ℤ, slice_index_or, replicate, not, true};
ghost use Rattle.vc_defs.specs.Quantiser.{AllBetween, AreValues, dequantised, shift_at};
ghost use Rattle.vc_defs.specs.Walsh.{transformed};

use vc_fwht::Transform;
use vc_quant::dequantise;

/// How many values of a block behind the first are not zero.
fn count_others(q: &[i32; 64]) -> u32
    ensures { result ≡ 0 → (k : ℕ) → 0 < k → k < 64 → slice_index_or q.now k (pos 0) ≡ pos 0 }
{
    let mut count = 0;
    for k in 1..64 {
        if q[k] != 0 {
            count += 1;
        }
    }
    count
}

/// Whether all values of a block but the first are zero.
fn is_flat(q: &[i32; 64]) -> bool
    ensures { result ≡ true → (k : ℕ) → 0 < k → k < 64 → slice_index_or q.now k (pos 0) ≡ pos 0 }
{
    count_others(q) == 0
}

/// The first coefficient of a block with this first value.
#[tactic(auto, unfolding(vc_defs::specs::Quantiser::shift_at))]
fn first_coefficient(first: i32, inter: bool) -> i32
    requires { (neg_ℤ (pos 2048) ≤ℤ first) × (first ≤ℤ pos 2047) }
    ensures { result ≡ first *ℤ pos (2 ^ shift_at (not inter) 0) }
{
    if inter { first * 8 } else { first * 4 }
}

/// A block of one number.
fn filled(value: i32) -> [i32; 64]
    ensures { result ≡ replicate 64 value }
{
    [value; 64]
}

/// The inverse transform of a block of which only the first value may not be zero: all its entries are equal.
fn restored_flat(q: &[i32; 64], inter: bool) -> [i32; 64]
    requires values { AreValues q.now }
    requires flat { (k : ℕ) → 0 < k → k < 64 → slice_index_or q.now k (pos 0) ≡ pos 0 }
    ensures is { result ≡ transformed (dequantised q.now (not inter)) }
    ensures range { AllBetween (neg_ℤ (pos 134217728)) (pos 134217728) result }
{
    filled(first_coefficient(q[0], inter))
}

/// The inverse transform of a block of any values.
fn restored_whole<T: Transform>(t: &T, q: &[i32; 64], inter: bool) -> [i32; 64]
    requires { AreValues q.now }
    ensures is { result ≡ transformed (dequantised q.now (not inter)) }
    ensures range { AllBetween (neg_ℤ (pos 134217728)) (pos 134217728) result }
{
    t.inverse(&dequantise(q, !inter))
}

/// The inverse transform of the values of a block.
pub(crate) fn restored<T: Transform>(t: &T, q: &[i32; 64], inter: bool) -> [i32; 64]
    requires { AreValues q.now }
    ensures is { result ≡ transformed (dequantised q.now (not inter)) }
    ensures range { AllBetween (neg_ℤ (pos 134217728)) (pos 134217728) result }
{
    if is_flat(q) {
        restored_flat(q, inter)
    } else {
        restored_whole(t, q, inter)
    }
}
