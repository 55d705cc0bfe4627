//! Feeding an assembly piece by piece.

ghost use Rattle.std.specs.Prelude.{◌≡◌, ◌≤◌, false, length};
ghost use Rattle.vc_defs.specs.Finds.{fed};
ghost use Rattle.vc_resync.specs.Assembling.{is_told, found_of, assembly_after, IsToldBy, IsLegalAnswer};

use crate::assembly::Assembly;
use vc_base::Stamp;
use vc_defs::Header;

/// What was found.
#[derive(Clone, Copy, PartialEq, Eq, Debug)]
pub enum Found {
    /// Nothing more: the whole piece was taken.
    More,
    /// The legal header of a frame.
    Head(Header),
    /// A frame with its whole body.
    Whole(Header),
    /// A frame that a magic inside it cuts.
    Cut(Header),
}

/// Whether a header or a frame is told.
fn is_told(found: &Found) -> bool
    ensures { result ≡ is_told found.now }
{
    match found {
        Found::More => false,
        Found::Head(_) | Found::Whole(_) | Found::Cut(_) => true,
    }
}

/// Takes the bytes of a piece up to where something is told, and gives how many it took. All bytes of the piece have
/// one stamp.
///
/// What is told is the next legal header or frame, at the first byte after which it is known; over any cutting each is
/// told once, in order, as `vc_defs::laws::feeding` says. The answer is [`Found::More`] exactly where all that is known
/// once the whole piece is there was told before; then the whole piece is taken. A header and its frame can be known at
/// the same byte; then the next call tells the frame, also over an empty piece.
///
/// A header that is told is legal under the assembly's limit. Behind [`Found::Whole`] the assembly has the frame's body,
/// behind that and [`Found::Cut`] the stamp of the frame's first byte, until the next call. No call takes memory.
pub fn feed(assembly: &mut Assembly, piece: &[u8], stamp: Stamp) -> (usize, Found)
    ensures taken { result.0 ≡ (fed assembly.old.kept assembly.old.limit piece.now stamp).moved }
    ensures found { result.1 ≡ found_of (fed assembly.old.kept assembly.old.limit piece.now stamp).told }
    ensures after { assembly.new ≡ assembly_after assembly.old (fed assembly.old.kept assembly.old.limit piece.now stamp) }
    ensures legal { IsLegalAnswer assembly.old.limit result.1 }
    ensures told { IsToldBy result.1 assembly.new.told }
    ensures inside { result.0 ≤ length piece.now }
    ensures all { is_told result.1 ≡ false → result.0 ≡ length piece.now }
{
    let mut taken = 0;
    loop {
        let (count, found) = assembly.advance(&piece[taken..], stamp);
        taken += count;
        if taken == piece.len() || is_told(&found) {
            return (taken, found);
        }
    }
}
