//! Buffers on their way into a job and back.

ghost use Rattle.std.specs.Prelude.{◌≡◌, length, Some};
ghost use Rattle.vc_base.specs.Buffers.{Buffer, zero_stamp};
ghost use Rattle.vc_queue.specs.Lending.{IsLent};
ghost use Rattle.vc_context.specs.Works.{IsSource, IsDest};

use vc_base::Stamp;
use vc_queue::queue::Lent;
use vc_work::Piece;

/// The source of a job, from the buffer that was lent.
pub fn source_of(lent: Lent) -> Piece
    ensures used { result.used ≡ lent.used }
    ensures cursor { result.cursor ≡ lent.cursor }
    ensures stamp { result.stamp ≡ lent.stamp }
    ensures payload { result.payload.items ≡ lent.payload.items }
    ensures source { (b : Buffer) → IsLent b lent → IsSource b result }
{
    let Lent {
        index: _,
        used,
        cursor,
        stamp,
        payload,
    } = lent;
    Piece {
        payload,
        used,
        cursor,
        stamp,
    }
}

/// The destination of a job, from the buffer that was lent.
pub fn dest_of(lent: Lent) -> Vec<u8>
    ensures payload { result.items ≡ lent.payload.items }
{
    let Lent { payload, .. } = lent;
    payload
}

/// The source of a job on its way back to its queue, where its buffer has this index.
pub fn source_back(index: u32, piece: Piece) -> Lent
    ensures index { result.index ≡ index }
    ensures used { result.used ≡ piece.used }
    ensures cursor { result.cursor ≡ piece.cursor }
    ensures stamp { result.stamp ≡ piece.stamp }
    ensures payload { result.payload.items ≡ piece.payload.items }
{
    let Piece {
        payload,
        used,
        cursor,
        stamp,
    } = piece;
    Lent {
        index,
        used,
        cursor,
        stamp,
        payload,
    }
}

/// The destination of a job on its way back to its queue, where its buffer has this index. Beside the payload
/// nothing of it counts.
pub fn dest_back(index: u32, payload: Vec<u8>) -> Lent
    ensures index { result.index ≡ index }
    ensures cursor { result.cursor ≡ 0 }
    ensures payload { result.payload.items ≡ payload.items }
{
    Lent {
        index,
        used: 0,
        cursor: 0,
        stamp: Stamp(0),
        payload,
    }
}
