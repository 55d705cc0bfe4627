//! The Walsh transform of small numbers by vectors of eight lanes of 16 bits, in six equal stages.
//!
//! A stage adds and subtracts the two halves of the block and lays the sums and the differences in turn, so that three
//! stages transform each column and turn the block over, and three more do the same with what were its rows.

ghost use Rattle.std.specs.Prelude.{◌≡◌, ◌≢◌, ◌≤◌, ◌<◌, ◌+◌, ◌*◌, ◌/◌, ◌+ℤ◌, ◌-ℤ◌, ℕ, ℤ, pos, neg_ℤ, length, slice_index_or, take, drop, IfSome};
ghost use Rattle.std.specs.Simd.Lanes.{zip2};
ghost use Rattle.vc_defs.specs.Walsh.{entry_at, transformed};
ghost use Rattle.vc_defs.specs.Quantiser.{AllBetween};
ghost use Rattle.vc_fwht.specs.Passes.{stage};
ghost use Rattle.vc_lanes.specs.Turning.{column, row, order, place};

use crate::ranges::are_small;
use std::simd::prelude::*;

/// A row of a block.
fn row_at(x: &[i16; 64], row: usize) -> i16x8
    requires row { row < 8 }
    requires bounds { AllBetween (neg_ℤ (pos 16380)) (pos 16380) x.now }
    ensures { result ≡ take 8 (drop (8 * row) x.now) }
{
    i16x8::from_slice(&x[8 * row..])
}

/// The numbers of a row after six stages, in the order of the matrix.
fn ordered(lanes: i16x8) -> i16x8
    requires long { length lanes ≡ 8 }
    requires bounds { AllBetween (neg_ℤ (pos 32760)) (pos 32760) lanes }
    ensures order { (c : ℕ) → c < 8 → slice_index_or result c (pos 0) ≡ slice_index_or lanes (order c) (pos 0) }
    ensures long { length result ≡ 8 }
    ensures range { AllBetween (neg_ℤ (pos 32760)) (pos 32760) result }
{
    lanes.shuffle(lanes, [0, 4, 6, 2, 3, 7, 5, 1])
}

/// Writes a row of a block.
fn put_row(y: &mut [i16; 64], row: usize, lanes: i16x8)
    requires row { row < 8 }
    requires long { length lanes ≡ 8 }
    requires bounds { AllBetween (neg_ℤ (pos 32760)) (pos 32760) lanes }
    ensures written { (c : ℕ) → c < 8 → entry_at y.new row c ≡ slice_index_or lanes c (pos 0) }
    ensures kept { (k : ℕ) → k / 8 ≢ row → slice_index_or y.new k (pos 0) ≡ slice_index_or y.old k (pos 0) }
{
    lanes.copy_to_slice(&mut y[8 * row..]);
}

/// The sum of two rows, lane by lane.
fn plus(a: i16x8, b: i16x8) -> i16x8
    requires a_bounds { AllBetween (neg_ℤ (pos 16380)) (pos 16380) a }
    requires b_bounds { AllBetween (neg_ℤ (pos 16380)) (pos 16380) b }
    ensures { result ≡ zip2 (λ x y. x +ℤ y) a b }
{
    a + b
}

/// The difference of two rows, lane by lane.
fn minus(a: i16x8, b: i16x8) -> i16x8
    requires a_bounds { AllBetween (neg_ℤ (pos 16380)) (pos 16380) a }
    requires b_bounds { AllBetween (neg_ℤ (pos 16380)) (pos 16380) b }
    ensures { result ≡ zip2 (λ x y. x -ℤ y) a b }
{
    a - b
}

/// The lanes of the first halves of two vectors in turn.
fn first_woven(a: i16x8, b: i16x8) -> i16x8
    requires a_long { length a ≡ 8 }
    requires b_long { length b ≡ 8 }
    requires a_bounds { AllBetween (neg_ℤ (pos 32760)) (pos 32760) a }
    requires b_bounds { AllBetween (neg_ℤ (pos 32760)) (pos 32760) b }
    ensures even { (c : ℕ) → c < 4 → slice_index_or result (2 * c) (pos 0) ≡ slice_index_or a c (pos 0) }
    ensures odd { (c : ℕ) → c < 4 → slice_index_or result (2 * c + 1) (pos 0) ≡ slice_index_or b c (pos 0) }
    ensures long { length result ≡ 8 }
{
    a.shuffle(b, [0, 8, 1, 9, 2, 10, 3, 11])
}

/// The lanes of the second halves of two vectors in turn.
fn second_woven(a: i16x8, b: i16x8) -> i16x8
    requires a_long { length a ≡ 8 }
    requires b_long { length b ≡ 8 }
    requires a_bounds { AllBetween (neg_ℤ (pos 32760)) (pos 32760) a }
    requires b_bounds { AllBetween (neg_ℤ (pos 32760)) (pos 32760) b }
    ensures even { (c : ℕ) → c < 4 → slice_index_or result (2 * c) (pos 0) ≡ slice_index_or a (4 + c) (pos 0) }
    ensures odd { (c : ℕ) → c < 4 → slice_index_or result (2 * c + 1) (pos 0) ≡ slice_index_or b (4 + c) (pos 0) }
    ensures long { length result ≡ 8 }
{
    a.shuffle(b, [4, 12, 5, 13, 6, 14, 7, 15])
}

/// Writes the sums and the differences of a row and the fourth one after it, in turn.
fn butterfly(x: &[i16; 64], row: usize, y: &mut [i16; 64])
    requires row { row < 4 }
    requires bounds { AllBetween (neg_ℤ (pos 16380)) (pos 16380) x.now }
    ensures sums { (c : ℕ) → c < 8 → slice_index_or y.new (16 * row + 2 * c) (pos 0) ≡ slice_index_or x.now (8 * row + c) (pos 0) +ℤ slice_index_or x.now (8 * (row + 4) + c) (pos 0) }
    ensures differences { (c : ℕ) → c < 8 → slice_index_or y.new (16 * row + 2 * c + 1) (pos 0) ≡ slice_index_or x.now (8 * row + c) (pos 0) -ℤ slice_index_or x.now (8 * (row + 4) + c) (pos 0) }
    ensures kept { (k : ℕ) → k / 16 ≢ row → slice_index_or y.new k (pos 0) ≡ slice_index_or y.old k (pos 0) }
{
    let top = row_at(x, row);
    let low = row_at(x, row + 4);
    let sum = plus(top, low);
    let difference = minus(top, low);
    put_row(y, 2 * row, first_woven(sum, difference));
    put_row(y, 2 * row + 1, second_woven(sum, difference));
}

/// A stage: the sums and the differences of the halves of a block, in turn.
fn stage_of(x: &[i16; 64]) -> [i16; 64]
    requires { AllBetween (neg_ℤ (pos 16380)) (pos 16380) x.now }
    ensures sums { (r c : ℕ) → r < 4 → c < 8 → place result (16 * r + 2 * c) ≡ place x.now (8 * r + c) +ℤ place x.now (8 * (r + 4) + c) }
    ensures differences { (r c : ℕ) → r < 4 → c < 8 → place result (16 * r + 2 * c + 1) ≡ place x.now (8 * r + c) -ℤ place x.now (8 * (r + 4) + c) }
{
    let mut y = [0; 64];
    butterfly(x, 0, &mut y);
    butterfly(x, 1, &mut y);
    butterfly(x, 2, &mut y);
    butterfly(x, 3, &mut y);
    y
}

/// Three stages of butterflies in each column, and the block turned over.
fn half_of(x: &[i16; 64]) -> [i16; 64]
    requires { AllBetween (neg_ℤ (pos 4095)) (pos 4095) x.now }
    ensures turned { (c : ℕ) → c < 8 → row result c ≡ stage (stage (stage (column x.now c))) }
    ensures range { (n : ℕ) → AllBetween (neg_ℤ (pos n)) (pos n) x.now → AllBetween (neg_ℤ (pos (8 * n))) (pos (8 * n)) result }
{
    stage_of(&stage_of(&stage_of(x)))
}

/// A row of a block of any small numbers.
fn any_row_at(x: &[i16; 64], row: usize) -> i16x8
    requires row { row < 8 }
    requires bounds { AllBetween (neg_ℤ (pos 32760)) (pos 32760) x.now }
    ensures lanes { (c : ℕ) → c < 8 → slice_index_or result c (pos 0) ≡ entry_at x.now row c }
    ensures long { length result ≡ 8 }
    ensures range { AllBetween (neg_ℤ (pos 32760)) (pos 32760) result }
{
    i16x8::from_slice(&x[8 * row..])
}

/// Puts a row in its place in the order of the matrix.
fn put_ordered(x: &[i16; 64], from: usize, z: &mut [i16; 64], to: usize)
    requires rows { (from < 8) × (to < 8) }
    requires bounds { AllBetween (neg_ℤ (pos 32760)) (pos 32760) x.now }
    ensures written { (c : ℕ) → c < 8 → entry_at z.new to c ≡ entry_at x.now from (order c) }
    ensures kept { (k : ℕ) → k / 8 ≢ to → slice_index_or z.new k (pos 0) ≡ slice_index_or z.old k (pos 0) }
{
    put_row(z, to, ordered(any_row_at(x, from)));
}

/// Puts the numbers after six stages in the order of the matrix.
fn in_order(x: &[i16; 64]) -> [i16; 64]
    requires { AllBetween (neg_ℤ (pos 32760)) (pos 32760) x.now }
    ensures { (u v : ℕ) → u < 8 → v < 8 → entry_at result u v ≡ entry_at x.now (order u) (order v) }
{
    let mut z = [0; 64];
    put_ordered(x, 0, &mut z, 0);
    put_ordered(x, 4, &mut z, 1);
    put_ordered(x, 6, &mut z, 2);
    put_ordered(x, 2, &mut z, 3);
    put_ordered(x, 3, &mut z, 4);
    put_ordered(x, 7, &mut z, 5);
    put_ordered(x, 5, &mut z, 6);
    put_ordered(x, 1, &mut z, 7);
    z
}

/// The three later stages of a block of which these are the numbers after three, in the order of the matrix.
fn whole_of(x: &[i16; 64], half: &[i16; 64]) -> [i16; 64]
    requires small { AllBetween (neg_ℤ (pos 4095)) (pos 4095) half.now }
    requires half { (c : ℕ) → c < 8 → row half.now c ≡ stage (stage (stage (column x.now c))) }
    ensures transformed { result ≡ transformed x.now }
    ensures range { AllBetween (neg_ℤ (pos 32760)) (pos 32760) result }
{
    in_order(&half_of(half))
}

/// Gives the block of some coefficients, 64 times as large, where 16 bits suffice at each stage.
pub(crate) fn inverse(c: &[i16; 64]) -> Option<[i16; 64]>
    requires { AllBetween (neg_ℤ (pos 4095)) (pos 4095) c.now }
    ensures transformed { IfSome result (λ y. y ≡ transformed c.now) }
    ensures range { IfSome result (λ y. AllBetween (neg_ℤ (pos 32760)) (pos 32760) y) }
{
    let half = half_of(c);
    if are_small(&half) {
        Some(whole_of(c, &half))
    } else {
        None
    }
}
