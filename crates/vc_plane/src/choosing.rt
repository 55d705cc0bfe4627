//! Whether a block is coded as a P block: where it is nearer to the reference than to its own mean.

ghost use Rattle.std.specs.Prelude.{◌≡◌, ◌≤◌, ◌<◌, ◌*◌, ◌-ℤ◌, ◌&&◌, ℕ, pos, slice_index, sum_by, unsigned_abs};
ghost use Rattle.std.specs.List.{range_with_len};
ghost use Rattle.vc_defs.specs.Planes.{distance, mean_of, prefers_inter};

/// How far two samples are from each other.
fn gap(a: u8, b: u8) -> u8
    ensures { result ≡ unsigned_abs (pos a -ℤ pos b) }
{
    (a as i32 - b as i32).unsigned_abs() as u8
}

/// A sample of a block.
fn sample(block: &[u8; 64], k: usize) -> u32
    requires { k < 64 }
    ensures value { result ≡ slice_index block.now k }
    ensures most { result ≤ 255 }
{
    block[k] as u32
}

/// The sum of the samples of a block.
fn sum(block: &[u8; 64]) -> u32
    ensures value { result ≡ sum_by (λ k. slice_index block.now k) (range_with_len 0 64) }
    ensures most { result ≤ 255 * 64 }
{
    let mut sum = 0;
    for k in 0..64 {
        sum += sample(block, k);
    }
    sum
}

/// The mean of the samples of a block, rounded down.
fn mean(block: &[u8; 64]) -> u8
    ensures { result ≡ mean_of block.now }
{
    (sum(block) / 64) as u8
}

/// How far each sample of a block is from that of another. They are bytes in a block of their own, so that they are
/// found and summed up in vectors of bytes.
fn gaps(block: &[u8; 64], other: &[u8; 64]) -> [u8; 64]
    ensures { (k : ℕ) → k < 64 → slice_index result k ≡ unsigned_abs (pos (slice_index block.now k) -ℤ pos (slice_index other.now k)) }
{
    let mut gaps = [0; 64];
    for k in 0..64 {
        gaps[k] = gap(block[k], other[k]);
    }
    gaps
}

/// How far the samples of a block are from those of another.
fn distance_to_block(block: &[u8; 64], other: &[u8; 64]) -> u32
    ensures { result ≡ distance block.now (λ k. slice_index other.now k) }
{
    sum(&gaps(block, other))
}

/// How far the samples of a block are from one number.
fn distance_to_number(block: &[u8; 64], other: u8) -> u32
    ensures { result ≡ distance block.now (λ _. other) }
{
    distance_to_block(block, &[other; 64])
}

/// Whether a block is nearer to the reference than to its own mean.
fn is_nearer_to_reference(block: &[u8; 64], reference: &[u8; 64]) -> bool
    ensures { result ≡ prefers_inter block.now reference.now }
{
    distance_to_block(block, reference) < distance_to_number(block, mean(block))
}

/// Whether a block is coded as a P block, in a frame that may have P blocks or not.
pub(crate) fn is_inter_block(frame: bool, block: &[u8; 64], reference: &[u8; 64]) -> bool
    ensures { result ≡ (frame && prefers_inter block.now reference.now) }
{
    frame && is_nearer_to_reference(block, reference)
}
