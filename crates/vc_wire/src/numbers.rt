//! Numbers in a body, the high byte first.

ghost use Rattle.std.specs.Prelude.{◌≡◌, ◌≤◌, ◌+◌, length};
ghost use Rattle.vc_model.specs.Messages.{number_at, wide_at};

use byteorder::{BigEndian, ByteOrder};

/// The number of 32 bits at a place.
pub(crate) fn number_at(body: &[u8], at: usize) -> u32
    requires { at + 4 ≤ length body.now }
    ensures { result ≡ number_at body.now at }
{
    BigEndian::read_u32(&body[at..])
}

/// The number of 64 bits at a place.
pub(crate) fn wide_at(body: &[u8], at: usize) -> u64
    requires { at + 8 ≤ length body.now }
    ensures { result ≡ wide_at body.now at }
{
    BigEndian::read_u64(&body[at..])
}
