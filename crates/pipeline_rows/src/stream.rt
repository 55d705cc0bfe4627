//! The frames of a coded stream, by the fields of their headers.

/// The first 20 bytes of the header of a frame of version 4 with a picture of 352 by 288 samples.
const BEGINNING: &[u8; 20] = b"OOOO\xff\xff\xff\xff\0\0\0\x04\0\0\x01\x60\0\0\x01\x20";

/// Whether the frame at the front of a stream is an I frame, and the stream behind it. None where no whole frame of such
/// a picture is there.
pub(crate) fn next_frame(stream: &[u8]) -> Option<(bool, &[u8])> {
    let header = stream.get(..44)?;
    if !header.starts_with(BEGINNING) {
        return None;
    }
    let size = u32::from_be_bytes([header[40], header[41], header[42], header[43]]);
    let rest = stream.get(44 + size as usize..)?;
    Some((header[22] & 4 == 4, rest))
}
