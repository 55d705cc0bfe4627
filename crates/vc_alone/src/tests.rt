//! A picture through its frame and back.

use crate::{AloneStop, decode_alone, encode_alone};
use std::alloc::Global;
use std::test::Fail;
use vc_coder::TransformCoder;
use vc_fwht::PlainTransform;
use vc_io::{MemSink, MemSource};

/// So many bytes 128, and how coding them ends.
const TABLE: [(usize, Result<(), AloneStop>); 3] = [
    (0, Ok(())),
    (152_063, Err(AloneStop::ShortRaw)),
    (152_064, Ok(())),
];

/// A source of the bytes.
fn source_of(alloc: Global, bytes: Vec<u8>) -> MemSource {
    MemSource::make(bytes, 4096, Vec::new(alloc))
}

#[test]
fn a_grey_picture_comes_back(rt: HostRuntime) -> Result<(), Fail> {
    let coder = TransformCoder(PlainTransform);
    for (length, end) in TABLE {
        let raw = vec![in rt.alloc(); 128u8; length]?;
        let mut frames = MemSink::make(rt.alloc(), 1_000, 100, Vec::new(rt.alloc()))?;
        let mut source = source_of(rt.alloc(), raw);
        let ended = encode_alone(rt.alloc(), &coder, &mut source, &mut frames);
        assert_eq!(rt; ended, end);
        let mut shown = MemSink::make(rt.alloc(), 200_000, 4_096, Vec::new(rt.alloc()))?;
        let mut source = source_of(rt.alloc(), frames.into_bytes());
        let ended = decode_alone(rt.alloc(), &coder, &mut source, &mut shown);
        assert_eq!(rt; ended, Ok(()));
        let whole = vec![in rt.alloc(); 128u8; length / 152_064 * 152_064]?;
        assert_eq!(rt; shown.into_bytes().as_slice(), whole.as_slice());
    }
    Ok(())
}
