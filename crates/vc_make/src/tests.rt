use crate::{MakeStop, write_pictures};
use std::alloc::Global;
use std::test::Fail;
use vc_base::{Format, Fourcc};
use vc_io::MemSink;

/// The smallest pictures of one plane.
const SMALL: Format = Format {
    fourcc: Fourcc(*b"GREY"),
    width: 16,
    height: 16,
    size: 256,
};

/// A sink that fails at its third call.
fn failing(alloc: Global) -> Result<MemSink, Fail> {
    let fails = vec![in alloc; 2u64]?;
    Ok(MemSink::make(alloc, 4096, 4096, fails)?)
}

#[test]
fn pictures_follow_one_another(rt: HostRuntime) -> Result<(), Fail> {
    let mut sink = MemSink::make(rt.alloc(), 4096, 4096, Vec::new(rt.alloc()))?;
    let ended = write_pictures(rt.alloc(), &SMALL, 3, 5, &mut sink);
    assert!(rt; ended.is_ok());
    let bytes = sink.into_bytes();
    assert_eq!(rt; bytes.len(), 768);
    assert_eq!(rt; bytes[0], 5);
    assert_eq!(rt; bytes[256], 8);
    assert_eq!(rt; bytes[512], 11);

    let mut sink = failing(rt.alloc())?;
    let ended = write_pictures(rt.alloc(), &SMALL, 3, 5, &mut sink);
    assert_eq!(rt; ended, Err(MakeStop::WriteFault));
    assert_eq!(rt; sink.into_bytes().len(), 512);
    Ok(())
}
