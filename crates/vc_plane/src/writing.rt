//! Writing a plane.

ghost use Rattle.std.specs.Prelude.{◌≡◌, ◌≤◌, ◌<◌, ◌+◌, ◌*◌, ◌∷◌, ◌&&◌, length, nat_lt, OnOk, OnErr, List};
ghost use Rattle.vc_defs.specs.Quantiser.{AreValues};
ghost use Rattle.vc_defs.specs.Bytes.{Writes};
ghost use Rattle.vc_defs.specs.Planes.{Block, padded, same_block, canon_entry, entry_bytes, canon_plane, decoded_plane};
ghost use Rattle.vc_coder.specs.Blocks.{block_with};
ghost use Rattle.vc_plane.specs.Writing.{IsBlockAdded, IsPlaneWritten, blocks_in, pending_bytes};

use crate::blocks::show_block;
use crate::coding::code_block;
use crate::entries::head;
use crate::raw::{cap_samples, put_plane};
use crate::reading::block_count;
use crate::{Shape, Written};
use vc_block::spot_of;
use vc_coder::BlockCoder;
use vc_defs::Full;
use vc_rlc::{put_word, write_block};

/// The entry that isn't written yet, since further blocks may be like its block, and where it is to be written.
#[derive(Clone, Copy)]
pub(crate) struct Pending {
    inter: bool,
    values: [i32; 64],
    repeats: usize,
    end: usize,
}

/// Writes the pending entry.
fn put_entry(out: &mut [u8], pending: &Pending) -> Result<usize, Full>
    requires place { pending.now.end ≤ length out.old }
    requires values { AreValues pending.now.values }
    requires repeats { pending.now.repeats ≤ 4095 }
    ensures { Writes out.old out.new pending.now.end (entry_bytes (canon_entry (block_with pending.now.inter pending.now.values) pending.now.repeats)) result }
{
    let end = put_word(out, pending.end, head(pending.inter, pending.repeats))?;
    write_block(out, end, &pending.values)
}

/// Whether a block is like the pending one.
fn is_same(pending: &Pending, inter: bool, q: &[i32; 64]) -> bool
    ensures { result ≡ same_block (block_with pending.now.inter pending.now.values) (block_with inter q.now) }
{
    pending.inter == inter && pending.values == *q
}

/// Whether the pending entry may stand for a further block.
fn may_repeat(pending: &Pending, inter: bool, q: &[i32; 64]) -> bool
    ensures { result ≡ (same_block (block_with pending.now.inter pending.now.values) (block_with inter q.now) && nat_lt pending.now.repeats 4095) }
{
    is_same(pending, inter, q) && pending.repeats < 4095
}

/// Adds a block to the pending entry, or writes that entry and begins one with this block.
fn add_block(out: &mut [u8], pending: &mut Pending, inter: bool, q: &[i32; 64]) -> Result<(), Full>
    requires place { pending.old.end ≤ length out.old }
    requires values { AreValues pending.old.values }
    requires repeats { pending.old.repeats ≤ 4095 }
    ensures ok { OnOk result (IsBlockAdded out.old out.new pending.old pending.new inter q.now) }
    ensures full { OnErr result ((blocks : List Block) → length out.old < pending.old.end + length (pending_bytes pending.old (block_with inter q.now ∷ blocks))) }
{
    if may_repeat(pending, inter, q) {
        pending.repeats += 1;
        return Ok(());
    }
    let end = put_entry(out, pending)?;
    pending.inter = inter;
    pending.values = *q;
    pending.repeats = 0;
    pending.end = end;
    Ok(())
}

/// Writes the entries of a plane, and shows its blocks in the reference.
fn write_coded<C: BlockCoder>(
    coder: &C,
    plane: &[u8],
    reference: &mut [u8],
    shape: &Shape,
    out: &mut [u8],
) -> Result<usize, Full>
    requires plane { length plane.now ≡ shape.now.width * shape.now.height }
    requires size { length reference.old ≡ shape.now.width * shape.now.height }
    requires some { (0 < shape.now.width) × (0 < shape.now.height) }
    requires qp { (1 ≤ shape.now.qp) × (shape.now.qp ≤ 31) }
    ensures bytes { Writes out.old out.new 0 (canon_plane (blocks_in shape.now plane.now reference.old)) result }
    ensures samples { OnOk result (reference.new ≡ decoded_plane (blocks_in shape.now plane.now reference.old) reference.old shape.now.width shape.now.height) }
{
    let mut q = [0; 64];
    let mut old = [0; 64];
    let spot = spot_of(shape.width, shape.height, 0);
    let inter = code_block(coder, plane, reference, shape, &spot, &mut old, &mut q);
    show_block(coder, &q, shape, inter, &old, reference, &spot);
    let mut pending = Pending {
        inter,
        values: q,
        repeats: 0,
        end: 0,
    };
    for number in 1..block_count(shape) {
        let spot = spot_of(shape.width, shape.height, number);
        let inter = code_block(coder, plane, reference, shape, &spot, &mut old, &mut q);
        add_block(out, &mut pending, inter, &q)?;
        show_block(coder, &q, shape, inter, &old, reference, &spot);
    }
    put_entry(out, &pending)
}

/// Writes a plane into the output from `at` on, and gives its end and whether it is stored raw.
///
/// The plane and the reference have width times height samples, neither of which is 0, and the output has room for
/// the padded plane. The block types, the repeats and the values are those of docs/FORMAT.md, "The sequential
/// encoder", with the shape's `qp` of 1 to 31. The plane is stored raw exactly where its words take more bytes than
/// the padded plane has samples, with 254 in place of 255. The reference becomes what a decoder will have. No other
/// byte of the output changes.
pub fn write_plane<C: BlockCoder>(
    coder: &C,
    plane: &[u8],
    reference: &mut [u8],
    shape: &Shape,
    out: &mut [u8],
    at: usize,
) -> Written
    requires plane { length plane.now ≡ shape.now.width * shape.now.height }
    requires size { length reference.old ≡ shape.now.width * shape.now.height }
    requires some { (0 < shape.now.width) × (0 < shape.now.height) }
    requires qp { (1 ≤ shape.now.qp) × (shape.now.qp ≤ 31) }
    requires room { at + padded shape.now.width * padded shape.now.height ≤ length out.old }
    ensures { IsPlaneWritten shape.now plane.now reference.old reference.new out.old out.new at result }
{
    let end = at + 64 * block_count(shape);
    match write_coded(coder, plane, reference, shape, &mut out[at..end]) {
        Ok(length) => Written {
            end: at + length,
            raw: false,
        },
        Err(_) => {
            put_plane(plane, shape, &mut out[at..end]);
            cap_samples(plane, reference);
            Written { end, raw: true }
        },
    }
}
