//! The lane engine: a coder of blocks by vectors, for `std::simd`.
//!
//! The samples of a block come from its values on numbers of 16 bits, wherever they suffice. Where they don't, and for the
//! values, the Walsh transform has vectors of eight lanes of 32 bits: a lane has a column of the block, and a step of
//! butterflies is a sum and a difference of whole rows.
#![tactic(auto)]

ghost use Rattle.std.specs.Prelude.{◌≡◌, ◌≢◌, ◌≤◌, ◌<◌, ◌+◌, ◌*◌, ◌/◌, ◌+ℤ◌, ◌-ℤ◌, ℕ, ℤ, pos, neg_ℤ, length, slice_index_or, take, drop};
ghost use Rattle.std.specs.Simd.Lanes.{zip2};
ghost use Rattle.vc_defs.specs.Walsh.{entry_at, transformed};
ghost use Rattle.vc_defs.specs.Quantiser.{AllBetween};
ghost use Rattle.vc_fwht.specs.Passes.{stage, columns};
ghost use Rattle.vc_lanes.specs.Rows.{column, ordered};

mod coder;
mod dequantising;
mod engine;
mod ranges;
mod restoring;
mod short;
mod showing;

pub use coder::LaneCoder;
pub use engine::LaneEngine;
use std::simd::prelude::*;
use vc_fwht::{Transform, rows_of};

/// A row of a block.
fn row_at(x: &[i32; 64], row: usize) -> i32x8
    requires row { row < 8 }
    requires bounds { AllBetween (neg_ℤ (pos 500000000)) (pos 500000000) x.now }
    ensures { result ≡ take 8 (drop (8 * row) x.now) }
{
    i32x8::from_slice(&x[8 * row..])
}

/// Writes a row of a block.
fn put_row(y: &mut [i32; 64], row: usize, lanes: i32x8)
    requires row { row < 8 }
    requires long { length lanes ≡ 8 }
    requires bounds { AllBetween (neg_ℤ (pos 1000000000)) (pos 1000000000) lanes }
    ensures written { (c : ℕ) → c < 8 → entry_at y.new row c ≡ slice_index_or lanes c (pos 0) }
    ensures kept { (k : ℕ) → k / 8 ≢ row → slice_index_or y.new k (pos 0) ≡ slice_index_or y.old k (pos 0) }
{
    lanes.copy_to_slice(&mut y[8 * row..]);
}

/// The sum of two rows, lane by lane.
fn plus(a: i32x8, b: i32x8) -> i32x8
    requires a_bounds { AllBetween (neg_ℤ (pos 500000000)) (pos 500000000) a }
    requires b_bounds { AllBetween (neg_ℤ (pos 500000000)) (pos 500000000) b }
    ensures { result ≡ zip2 (λ x y. x +ℤ y) a b }
{
    a + b
}

/// The difference of two rows, lane by lane.
fn minus(a: i32x8, b: i32x8) -> i32x8
    requires a_bounds { AllBetween (neg_ℤ (pos 500000000)) (pos 500000000) a }
    requires b_bounds { AllBetween (neg_ℤ (pos 500000000)) (pos 500000000) b }
    ensures { result ≡ zip2 (λ x y. x -ℤ y) a b }
{
    a - b
}

/// Writes the sum and the difference of a row and the fourth one after it.
fn butterfly(x: &[i32; 64], row: usize, y: &mut [i32; 64], sum: usize, difference: usize)
    requires rows { (row < 4) × (sum < 8) × (difference < 8) × (sum ≢ difference) }
    requires bounds { AllBetween (neg_ℤ (pos 500000000)) (pos 500000000) x.now }
    ensures sums { (c : ℕ) → c < 8 → entry_at y.new sum c ≡ entry_at x.now row c +ℤ entry_at x.now (row + 4) c }
    ensures differences { (c : ℕ) → c < 8 → entry_at y.new difference c ≡ entry_at x.now row c -ℤ entry_at x.now (row + 4) c }
    ensures kept { (k : ℕ) → k / 8 ≢ sum → k / 8 ≢ difference → slice_index_or y.new k (pos 0) ≡ slice_index_or y.old k (pos 0) }
{
    let top = row_at(x, row);
    let low = row_at(x, row + 4);
    put_row(y, sum, plus(top, low));
    put_row(y, difference, minus(top, low));
}

/// A stage of butterflies in each column.
fn stage_of(x: &[i32; 64]) -> [i32; 64]
    requires { AllBetween (neg_ℤ (pos 500000000)) (pos 500000000) x.now }
    ensures { (c : ℕ) → c < 8 → column result c ≡ stage (column x.now c) }
{
    let mut y = [0; 64];
    butterfly(x, 0, &mut y, 0, 1);
    butterfly(x, 1, &mut y, 2, 3);
    butterfly(x, 2, &mut y, 4, 5);
    butterfly(x, 3, &mut y, 6, 7);
    y
}

/// The last stage of butterflies in each column, in the order of the matrix.
fn last_stage_of(x: &[i32; 64]) -> [i32; 64]
    requires { AllBetween (neg_ℤ (pos 500000000)) (pos 500000000) x.now }
    ensures { (c : ℕ) → c < 8 → column result c ≡ ordered (stage (column x.now c)) }
{
    let mut y = [0; 64];
    butterfly(x, 0, &mut y, 0, 7);
    butterfly(x, 1, &mut y, 3, 4);
    butterfly(x, 2, &mut y, 1, 6);
    butterfly(x, 3, &mut y, 2, 5);
    y
}

/// The sums of each column of a block.
fn columns_of(x: &[i32; 64]) -> [i32; 64]
    requires { AllBetween (neg_ℤ (pos 16777216)) (pos 16777216) x.now }
    ensures { result ≡ columns x.now }
{
    last_stage_of(&stage_of(&stage_of(x)))
}

/// The transform of a block, by butterflies over rows and then, in lanes, over columns.
fn by_lanes(x: &[i32; 64]) -> [i32; 64]
    requires { AllBetween (neg_ℤ (pos 2097152)) (pos 2097152) x.now }
    ensures { result ≡ transformed x.now }
{
    columns_of(&rows_of(x))
}

/// The transform by vectors, of which a lane has a column. It gives what every [`Transform`] gives.
#[derive(Clone, Copy, Debug, Default)]
pub struct LaneTransform;

impl Transform for LaneTransform {
    fn forward(&self, x: &[i32; 64]) -> [i32; 64] {
        by_lanes(x)
    }

    fn inverse(&self, c: &[i32; 64]) -> [i32; 64] {
        by_lanes(c)
    }
}

#[cfg(test)]
mod tests;
