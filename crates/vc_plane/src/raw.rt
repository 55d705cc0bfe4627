//! Raw storage: the samples of the padded plane by rows, each at most 254.

ghost use Rattle.std.specs.Prelude.{◌≡◌, ◌≤◌, ◌<◌, ◌+◌, ◌*◌, ℕ, length, slice_index, map, nat_lt};
ghost use Rattle.std.specs.List.{list_all};
ghost use Rattle.vc_defs.specs.Planes.{padded, padded_sample, raw_sample, raw_plane, unpadded};

use crate::Shape;

/// Whether raw storage may have all of the bytes.
pub(crate) fn are_samples(bytes: &[u8]) -> bool
    ensures { result ≡ list_all (λ b. nat_lt b 255) bytes.now }
{
    bytes.iter().all(|byte| *byte < 255)
}

/// Copies some bytes from one place to another.
fn copy_row(bytes: &[u8], from: usize, plane: &mut [u8], to: usize, count: usize)
    requires from { from + count ≤ length bytes.now }
    requires to { to + count ≤ length plane.old }
    ensures copied { (k : ℕ) → k < count → slice_index plane.new (to + k) ≡ slice_index bytes.now (from + k) }
    ensures kept { (j : ℕ) → j < to → slice_index plane.new j ≡ slice_index plane.old j }
{
    plane[to..to + count].copy_from_slice(&bytes[from..from + count]);
}

/// Copies the samples of a padded plane without its padding.
pub(crate) fn unpad(bytes: &[u8], shape: &Shape, plane: &mut [u8])
    requires bytes { length bytes.now ≡ padded shape.now.width * padded shape.now.height }
    requires size { length plane.old ≡ shape.now.width * shape.now.height }
    requires some { (0 < shape.now.width) × (0 < shape.now.height) }
    ensures { plane.new ≡ unpadded bytes.now shape.now.width shape.now.height }
{
    let width = shape.width as usize;
    let padded = 8 * width.div_ceil(8);
    for row in 0..shape.height as usize {
        copy_row(bytes, row * padded, plane, row * width, width);
    }
}

/// A sample of the padded plane as raw storage has it.
fn stored_sample(plane: &[u8], width: usize, height: usize, column: usize, row: usize) -> u8
    requires size { length plane.now ≡ width * height }
    requires some { (0 < width) × (0 < height) }
    ensures { result ≡ raw_sample (padded_sample plane.now width height column row) }
{
    plane[row.min(height - 1) * width + column.min(width - 1)].min(254)
}

/// Writes a row of the padded plane.
fn put_row(plane: &[u8], shape: &Shape, row: usize, out: &mut [u8])
    requires size { length plane.now ≡ shape.now.width * shape.now.height }
    requires some { (0 < shape.now.width) × (0 < shape.now.height) }
    requires room { row * padded shape.now.width + padded shape.now.width ≤ length out.old }
    ensures written { (k : ℕ) → k < padded shape.now.width → slice_index out.new (row * padded shape.now.width + k) ≡ raw_sample (padded_sample plane.now shape.now.width shape.now.height k row) }
    ensures kept { (j : ℕ) → j < row * padded shape.now.width → slice_index out.new j ≡ slice_index out.old j }
{
    let width = shape.width as usize;
    let height = shape.height as usize;
    let beside = 8 * width.div_ceil(8);
    for column in 0..beside {
        out[row * beside + column] = stored_sample(plane, width, height, column, row);
    }
}

/// Writes the samples of the padded plane.
pub(crate) fn put_plane(plane: &[u8], shape: &Shape, out: &mut [u8])
    requires size { length plane.now ≡ shape.now.width * shape.now.height }
    requires some { (0 < shape.now.width) × (0 < shape.now.height) }
    requires out { length out.old ≡ padded shape.now.width * padded shape.now.height }
    ensures { out.new ≡ raw_plane plane.now shape.now.width shape.now.height }
{
    for row in 0..8 * (shape.height as usize).div_ceil(8) {
        put_row(plane, shape, row, out);
    }
}

/// Copies the samples of a plane as raw storage has them.
pub(crate) fn cap_samples(plane: &[u8], reference: &mut [u8])
    requires { length reference.old ≡ length plane.now }
    ensures { reference.new ≡ map raw_sample plane.now }
{
    for k in 0..plane.len() {
        reference[k] = plane[k].min(254);
    }
}
