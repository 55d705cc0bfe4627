//! What is remembered of the last answer.

ghost use Rattle.std.specs.Prelude.{◌≡◌, ℕ, List};
ghost use Rattle.vc_resync.specs.Collecting.{frame_found};
ghost use Rattle.vc_resync.specs.Telling.{told_in, ToldFits, FoundFits};

use crate::feeding::Found;
use vc_base::Stamp;

/// What the last feed told, of what its caller may ask.
#[derive(Clone, Copy)]
pub(crate) enum Told {
    /// No frame's end.
    Nothing,
    /// A cut frame, with its stamp.
    Cut { stamp: Stamp },
    /// A whole frame, with its stamp and how many bytes its body has.
    Whole { stamp: Stamp, size: usize },
}

/// What an answer tells of a frame, whose first byte has this stamp.
pub(crate) fn told_by(found: &Found, first: Stamp) -> Told
    ensures frame { (body : List ℕ) → told_in result body ≡ frame_found found.now body first }
    ensures fits { (body : List ℕ) → FoundFits found.now body → ToldFits result body }
{
    match found {
        Found::More | Found::Head(_) => Told::Nothing,
        Found::Cut(_) => Told::Cut { stamp: first },
        Found::Whole(header) => Told::Whole {
            stamp: first,
            size: header.size as usize,
        },
    }
}
