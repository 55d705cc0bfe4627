//! What a run came to.

use vc_base::Stamp;
use vc_defs::Geometry;

/// What a run came to.
#[derive(Clone, Copy, PartialEq, Eq, Debug)]
pub enum Decoded {
    /// A picture, whose bytes stand at the front of the destination: how many they are, whether its frame is an I frame,
    /// and the stamp of the frame's first byte.
    Picture { used: u32, key: bool, stamp: Stamp },
    /// A frame that gives no picture, with the stamp of its first byte.
    Damaged { stamp: Stamp },
    /// The header of an I frame has another geometry than the present one, which it now is.
    Changed { geometry: Geometry },
    /// All bytes were consumed, and gave no result.
    Spent,
}
