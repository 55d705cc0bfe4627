//! The tables of docs/FORMAT.md: values and the words that are written for them, and words that spell no block.

ghost use Rattle.std.specs.Prelude.{◌≤ℤ◌, neg_ℤ, pos};
ghost use Rattle.vc_defs.specs.Quantiser.{AreValues};

use super::*;
use std::alloc::{AllocError, Global};
use std::test::Fail;

/// The value, or else zero.
fn value_or_zero(here: bool, value: i32) -> i32
    requires value { (neg_ℤ (pos 2048) ≤ℤ value) × (value ≤ℤ pos 2047) }
    ensures { (neg_ℤ (pos 2048) ≤ℤ result) × (result ≤ℤ pos 2047) }
{
    if here { value } else { 0 }
}

/// In scan order so many zeros, then one value so many times, and zeros to the end.
fn block(zeros: usize, count: usize, value: i32) -> [i32; 64]
    requires value { (neg_ℤ (pos 2048) ≤ℤ value) × (value ≤ℤ pos 2047) }
    ensures { AreValues result }
{
    let mut q = [0; 64];
    for k in 0..64 {
        q[place(k)] = value_or_zero(zeros <= k && k - zeros < count, value);
    }
    q
}

/// The bytes of words, each written so many times.
fn bytes_of(alloc: Global, words: &[(u32, u16)]) -> Result<Vec<u8>, AllocError> {
    let mut bytes = Vec::new(alloc);
    for (times, word) in words {
        for _turn in 0..*times {
            bytes.push((*word / 256) as u8)?;
            bytes.push((*word % 256) as u8)?;
        }
    }
    Ok(bytes)
}

/// Whether a block is written as the words, and read from them.
fn is_spelled(bytes: &[u8], q: &[i32; 64]) -> bool
    requires { AreValues q.now }
{
    let mut out = [0; 130];
    let mut back = [7; 64];
    write_block(&mut out, 0, q) == Ok(bytes.len())
        && out.starts_with(bytes)
        && read_block(&out, 0, &mut back) == Ok(bytes.len())
        && back == *q
}

#[test]
fn values_have_their_words(rt: HostRuntime) -> Result<(), Fail> {
    let rows: [(usize, usize, i32, &[(u32, u16)]); 8] = [
        (0, 0, 0, &[(1, 0x000f)]),
        (0, 1, 2032, &[(1, 0x7f00), (1, 0x000f)]),
        (0, 1, -2048, &[(1, 0x8000), (1, 0x000f)]),
        (15, 1, 25, &[(1, 0x000e), (1, 0x0190), (1, 0x000f)]),
        (14, 1, -25, &[(1, 0xfe7e), (1, 0x000f)]),
        (63, 1, 30, &[(4, 0x000e), (1, 0x01e3)]),
        (0, 63, 21, &[(63, 0x0150), (1, 0x0000)]),
        (0, 50, 21, &[(50, 0x0150), (1, 0x000d)]),
    ];
    for (zeros, count, value, words) in rows {
        assert!(rt; -2048 <= value && value <= 2047);
        let bytes = bytes_of(rt.alloc(), words)?;
        assert!(rt;
            is_spelled(bytes.as_slice(), &block(zeros, count, value)),
            "{value} after {zeros} zeros"
        );
    }
    Ok(())
}

#[test]
fn bad_words_are_damaged(rt: HostRuntime) -> Result<(), Fail> {
    let rows: [&[(u32, u16)]; 3] = [&[(4, 0x000e), (1, 0x0004)], &[(1, 0x001f)], &[(1, 0x0150)]];
    for words in rows {
        let bytes = bytes_of(rt.alloc(), words)?;
        assert_eq!(rt; read_block(bytes.as_slice(), 0, &mut [0; 64]), Err(Damaged));
    }
    assert_eq!(rt; write_block(&mut [0; 3], 0, &block(0, 1, 2032)), Err(Full));
    Ok(())
}
