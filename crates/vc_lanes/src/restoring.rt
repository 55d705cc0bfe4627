//! The inverse transform of the values of a block, on numbers of 16 bits.

ghost use Rattle.std.specs.Prelude.{◌≡◌, ◌≤◌, ◌<◌, ◌≤ℤ◌, ◌*ℤ◌, ◌^◌, ℕ, pos, neg_ℤ, slice_index_or, replicate, not, true, IfSome};
ghost use Rattle.vc_defs.specs.Quantiser.{AllBetween, AreValues, dequantised, shift_at};
ghost use Rattle.vc_defs.specs.Walsh.{transformed};

use crate::dequantising::{are_small, dequantise};
use crate::short::inverse;

/// How many values of a block behind the first are not zero.
fn count_others(q: &[i16; 64]) -> u16
    ensures { result ≡ 0 → (k : ℕ) → 0 < k → k < 64 → slice_index_or q.now k (pos 0) ≡ pos 0 }
{
    let mut count = 0;
    for k in 1..64 {
        if q[k] != 0 {
            count += 1;
        }
    }
    count
}

/// Whether all values of a block but the first are zero.
fn is_flat(q: &[i16; 64]) -> bool
    ensures { result ≡ true → (k : ℕ) → 0 < k → k < 64 → slice_index_or q.now k (pos 0) ≡ pos 0 }
{
    count_others(q) == 0
}

/// The first coefficient of a block with this first value.
#[tactic(auto, unfolding(vc_defs::specs::Quantiser::shift_at))]
fn first_coefficient(first: i16, inter: bool) -> i16
    requires { (neg_ℤ (pos 2048) ≤ℤ first) × (first ≤ℤ pos 2047) }
    ensures value { result ≡ first *ℤ pos (2 ^ shift_at (not inter) 0) }
    ensures range { (neg_ℤ (pos 16384) ≤ℤ result) × (result ≤ℤ pos 16384) }
{
    if inter { first * 8 } else { first * 4 }
}

/// A block of one number.
fn filled(value: i16) -> [i16; 64]
    ensures { result ≡ replicate 64 value }
{
    [value; 64]
}

/// The inverse transform of a block of which only the first value may not be zero: all its entries are equal.
fn restored_flat(q: &[i16; 64], inter: bool) -> [i16; 64]
    requires values { AreValues q.now }
    requires flat { (k : ℕ) → 0 < k → k < 64 → slice_index_or q.now k (pos 0) ≡ pos 0 }
    ensures is { result ≡ transformed (dequantised q.now (not inter)) }
    ensures range { AllBetween (neg_ℤ (pos 32760)) (pos 32760) result }
{
    filled(first_coefficient(q[0], inter))
}

/// The inverse transform of some values, where 16 bits suffice.
fn restored_small(q: &[i16; 64], inter: bool) -> Option<[i16; 64]>
    ensures is { IfSome result (λ y. y ≡ transformed (dequantised q.now (not inter))) }
    ensures range { IfSome result (λ y. AllBetween (neg_ℤ (pos 32760)) (pos 32760) y) }
{
    if are_small(q, !inter) {
        inverse(&dequantise(q, !inter))
    } else {
        None
    }
}

/// The inverse transform of values of 16 bits, where these suffice at each step.
fn restored_short(q: &[i16; 64], inter: bool) -> Option<[i16; 64]>
    requires { AreValues q.now }
    ensures is { IfSome result (λ y. y ≡ transformed (dequantised q.now (not inter))) }
    ensures range { IfSome result (λ y. AllBetween (neg_ℤ (pos 32760)) (pos 32760) y) }
{
    if is_flat(q) {
        Some(restored_flat(q, inter))
    } else {
        restored_small(q, inter)
    }
}

/// Values on 16 bits.
fn narrowed(values: &[i32; 64]) -> [i16; 64]
    requires { AreValues values.now }
    ensures { result ≡ values.now }
{
    let mut q = [0; 64];
    for k in 0..64 {
        q[k] = values[k] as i16;
    }
    q
}

/// The inverse transform of the values of a block, where 16 bits suffice.
pub(crate) fn restored(values: &[i32; 64], inter: bool) -> Option<[i16; 64]>
    requires { AreValues values.now }
    ensures is { IfSome result (λ y. y ≡ transformed (dequantised values.now (not inter))) }
    ensures range { IfSome result (λ y. AllBetween (neg_ℤ (pos 32760)) (pos 32760) y) }
{
    restored_short(&narrowed(values), inter)
}
