//! The way into a queue: VIDIOC_QBUF.

ghost use Rattle.std.specs.Prelude.{◌≡◌, ◌<◌, ◌^◌, None};
ghost use Rattle.std.specs.Option.{option_map};
ghost use Rattle.vc_base.specs.Buffers.{with_index, qbuf_refusal, qbuf_after};
ghost use Rattle.vc_queue.specs.Answers.{answer_of, after_of, queued_bytes, is_too_short};
ghost use Rattle.vc_queue.specs.Cells.{queued_cell};
ghost use Rattle.vc_queue.specs.Holds.{Fits, with_payload};

use super::{Queue, READY};
use crate::cells::{Cell, Place};
use crate::hold::Hold;
use vc_base::{Errno, Side, Stamp};

/// Whether a buffer of the size cannot be queued.
fn too_short(side: Side, size: u32, used: u32, least: u32) -> bool
    ensures { result ≡ is_too_short side size used least }
{
    match side {
        Side::Out => size < used || size < least,
        Side::Cap => size < least,
    }
}

/// What the cell of a held buffer becomes when the buffer is queued.
fn queued(side: Side, size: u32, used: u32, stamp: Stamp, ordinal: u64) -> Cell
    ensures { result ≡ queued_cell side size used stamp ordinal }
{
    let (used, stamp) = match side {
        Side::Out => (used, stamp),
        Side::Cap => (0, Stamp(0)),
    };
    Cell {
        place: Place::Ready,
        size,
        used,
        cursor: 0,
        stamp,
        flags: 0,
        seq: 0,
        ordinal,
    }
}

impl Queue {
    /// The size of the held buffer with the index.
    fn held_size(&self, index: u32) -> Option<u32>
        ensures { result ≡ option_map (λ b. b.size) (with_index index self.now.held) }
    {
        let count = self.count;
        if index >= count {
            return None;
        }
        let cell = self.cells.get(index as usize);
        match cell.place {
            Place::Held => Some(cell.size),
            Place::Ready => None,
            Place::Job => None,
            Place::Done => None,
        }
    }

    /// VIDIOC_QBUF: moves the payload of a held buffer from the user to the end of ready. On OUTPUT the
    /// buffer carries `used` and `stamp`; on CAPTURE both are ignored. `least` is the size of a buffer for
    /// the present format.
    ///
    /// # Errors
    /// EINVAL where the queue has no such buffer, the user does not hold it, it is shorter than `least`,
    /// or on OUTPUT shorter than `used`. Then nothing changes.
    pub fn qbuf(
        &mut self,
        index: u32,
        used: u32,
        stamp: Stamp,
        least: u32,
        hold: &mut Hold,
    ) -> Result<(), Errno>
        requires fit { Fits self.old hold.old }
        requires counts { self.old.next_ordinal < 2 ^ 62 }
        ensures answer { result ≡ answer_of (qbuf_refusal self.old index used least) tt }
        ensures after { self.new ≡ after_of (qbuf_refusal self.old index used least) self.old (qbuf_after self.old index used stamp (queued_bytes self.old.side hold.old index used)) }
        ensures payload { hold.new ≡ after_of (qbuf_refusal self.old index used least) hold.old (with_payload hold.old self.old.side index None) }
        ensures fit { Fits self.new hold.new }
    {
        let Some(size) = self.held_size(index) else {
            return Err(Errno::Inval);
        };
        if too_short(self.side, size, used, least) {
            return Err(Errno::Inval);
        }
        let slot = index as usize;
        let Some(payload) = hold.take(self.side, slot) else {
            unreachable!()
        };
        self.links.unlink(slot);
        self.links.push_back(READY, slot);
        let cell = queued(self.side, size, used, stamp, self.next_ordinal);
        self.cells.put(slot, cell, payload);
        self.next_ordinal += 1;
        Ok(())
    }
}
