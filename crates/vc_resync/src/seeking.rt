//! Looking for the magic in bytes that come in pieces.
//!
//! What is known of the bytes before is one number: how many of the magic's first bytes they end with.

ghost use Rattle.std.specs.Prelude.{◌≡◌, ◌<◌, [], ◌∷◌, ◌++◌, length, take};
ghost use Rattle.vc_defs.specs.Headers.{magic};
ghost use Rattle.vc_resync.specs.Seeking.{Matches, Sought};

use memchr::memchr;

/// The first eight bytes of a header.
pub(crate) const MAGIC: [u8; 8] = [0x4f, 0x4f, 0x4f, 0x4f, 0xff, 0xff, 0xff, 0xff];

/// How many of the magic's first bytes stand at the end behind one more byte, where `matched` did before it.
fn step(matched: usize, byte: u8) -> usize
    requires { matched < 8 }
    ensures { Matches (take matched magic ++ byte ∷ []) result }
{
    if byte == MAGIC[0] {
        if matched < 4 {
            return matched + 1;
        }
        return if matched == 4 { 4 } else { 1 };
    }
    if byte == MAGIC[7] && matched >= 4 {
        return matched + 1;
    }
    0
}

/// Goes over bytes up to the end of the magic that stands first in them and in the `matched` bytes of one before
/// them, or to their own end. Gives how many bytes it went over, and how many of the magic's first bytes stand at the
/// end of these: all 8 where it stands there.
pub(crate) fn seek(matched: usize, bytes: &[u8]) -> (usize, usize)
    requires { matched < 8 }
    ensures { Sought matched bytes.now result.0 result.1 }
{
    let mut at = 0;
    let mut now = matched;
    while at < bytes.len() && now < 8 {
        if now == 0 {
            match memchr(MAGIC[0], &bytes[at..]) {
                None => return (bytes.len(), 0),
                Some(n) => at += n,
            }
        }
        now = step(now, bytes[at]);
        at += 1;
    }
    (at, now)
}
