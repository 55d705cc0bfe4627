//! Reads a picture.

ghost use Rattle.std.specs.Prelude.{◌≡◌, ◌≤◌, ◌<◌, length, take, IfOk, OnOk};
ghost use Rattle.std.specs.Io.KnownBytes.{Consumes, IsAtEnd};
ghost use Rattle.vc_base.specs.Counts.{HasCause};

use vc_io::{ReadFailed, Source};

/// Fills the picture from the source, as far as the input goes, and tells with how many bytes.
pub(crate) fn read_picture<S: Source>(
    source: &mut S,
    picture: &mut [u8],
) -> Result<usize, ReadFailed>
    ensures size { length picture.new ≡ length picture.old }
    ensures bound { IfOk result (λ count. count ≤ length picture.new) }
    ensures bytes { IfOk result (λ count. Consumes (S.left source.old) (S.left source.new) (take count picture.new)) }
    ensures end { IfOk result (λ count. count < length picture.new → IsAtEnd (S.left source.new)) }
    ensures quiet { OnOk result (S.faults source.new ≡ S.faults source.old) }
    ensures cause { HasCause (S.faults source.old) (S.faults source.new) result }
{
    let mut at = 0;
    'reading: while at < picture.len() {
        match source.read(&mut picture[at..]) {
            Ok(0) => return Ok(at),
            Ok(count) => at += count,
            Err(error) => return Err(error),
        }
    }
    Ok(at)
}
