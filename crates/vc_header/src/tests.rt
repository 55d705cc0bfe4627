//! The headers of docs/FORMAT.md, both ways, and headers that are illegal.

use super::*;
use std::test::Fail;

/// The bytes of a header with these fields and a body of 4 bytes.
fn bytes_of(version: u32, width: u32, height: u32, flags: u32, space: u32) -> [u8; 44] {
    let mut bytes = [0; 44];
    BigEndian::write_u32(&mut bytes[0..], 0x4f4f4f4f);
    BigEndian::write_u32(&mut bytes[4..], 0xffffffff);
    BigEndian::write_u32(&mut bytes[8..], version);
    BigEndian::write_u32(&mut bytes[12..], width);
    BigEndian::write_u32(&mut bytes[16..], height);
    BigEndian::write_u32(&mut bytes[20..], flags);
    BigEndian::write_u32(&mut bytes[24..], space);
    BigEndian::write_u32(&mut bytes[40..], 4);
    bytes
}

/// A grey header without raw planes and a body of 4 bytes.
fn grey(width: u32, key: bool, number: Option<u32>) -> Header {
    Header {
        geometry: Geometry {
            width,
            height: 16,
            layout: Layout::Grey,
        },
        key,
        raw: [false; 3],
        colour: [0; 4],
        size: 4,
        number,
    }
}

/// Whether the bytes are read as a header, under its own size as the limit alone, and written from it.
fn is_both_ways(bytes: &[u8; 44], header: &Header) -> bool {
    let is_refused = read(bytes, 3) == Err(NotHeader);
    let mut written = [9; 44];
    let read = match read(bytes, 4) {
        Ok(read) => read,
        Err(_) => return false,
    };
    write(&read, &mut written);
    read == *header && written == *bytes && is_refused
}

#[test]
fn headers_are_read_and_written(rt: HostRuntime) {
    for (version, width, flags, key, number) in [
        (3, 16, 0x00080400, true, None),
        (3, 16, 0x00080000, false, None),
        (3, 32, 0x00080400, true, None),
        (4, 16, 0x00080400, true, Some(0)),
        (4, 16, 0x00280000, false, Some(1)),
        (4, 16, 0xffe80400, true, Some(2047)),
        (4, 32, 0x00080400, true, Some(0)),
    ] {
        let bytes = bytes_of(version, width, 16, flags, 0);
        assert!(rt;
            is_both_ways(&bytes, &grey(width, key, number)),
            "{flags:x}"
        );
    }
}

#[test]
fn illegal_headers_are_refused(rt: HostRuntime) -> Result<(), Fail> {
    for (version, width, height, flags, space) in [
        (5, 16, 16, 0x00080400, 0),
        (3, 16, 16, 0x00080600, 0),
        (3, 16, 16, 0x00090400, 0),
        (3, 15, 16, 0x00080400, 0),
        (3, 16, 16, 0x00080400, 256),
        (3, 16, 17, 0x000a0400, 0),
        (3, 17, 16, 0x000a0480, 0),
        (3, 16, 16, 0x00280000, 0),
        (3, 4098, 16, 0x00080400, 0),
        (3, 16, 2161, 0x00080400, 0),
        (3, 16, 16, 0x00080420, 0),
        (3, 16, 16, 0x00080480, 0),
    ] {
        assert_eq!(rt;
            read(&bytes_of(version, width, height, flags, space), 4),
            Err(NotHeader)
        );
    }
    for (height, flags, layout) in [
        (16, 0x000a0400, Layout::C420),
        (17, 0x000a0480, Layout::C422),
    ] {
        let header = read(&bytes_of(3, 16, height, flags, 0), 4)?;
        assert_eq!(rt; header.geometry.layout, layout);
    }
    Ok(())
}
