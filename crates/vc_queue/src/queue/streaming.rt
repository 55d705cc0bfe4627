//! Streaming: VIDIOC_STREAMON and VIDIOC_STREAMOFF.

ghost use Rattle.std.specs.Prelude.{◌≡◌, ◌≤◌, ◌++◌, length, is_some};
ghost use Rattle.vc_base.specs.Buffers.{streamon_refusal, streamon_after, streamoff_after};
ghost use Rattle.vc_base.specs.Limits.{most_buffers};
ghost use Rattle.vc_queue.specs.Answers.{answer_of, after_of};
ghost use Rattle.vc_queue.specs.Holds.{Fits};
ghost use Rattle.vc_queue.specs.Releasing.{goes_back, AreStored, IsReleased, AllGoToUser};

use super::{DONE, HELD, Queue, READY};
use crate::cells::{Cell, Cells, Place};
use crate::hold::Hold;
use vc_base::{Errno, Side};

/// Whether a buffer in this place goes back to the user when the queue stops.
fn goes_back(place: Place) -> bool
    ensures { result ≡ goes_back place }
{
    match place {
        Place::Held => false,
        Place::Ready => true,
        Place::Job => false,
        Place::Done => true,
    }
}

/// Moves the payloads of the buffers on ready and done to the user.
fn release(side: Side, count: usize, cells: &mut Cells, hold: &mut Hold)
    requires few { count ≤ most_buffers }
    requires cells { count ≤ length cells.old.cells }
    requires stored { AreStored count cells.old.cells cells.old.payloads }
    ensures { IsReleased side count cells.old.cells cells.old.payloads hold.old cells.new.cells cells.new.payloads hold.new }
{
    for slot in 0..count {
        let cell = cells.get(slot);
        if !goes_back(cell.place) {
            continue;
        }
        let held = Cell {
            place: Place::Held,
            ..cell
        };
        let Some(payload) = cells.take(slot, held) else {
            unreachable!()
        };
        hold.put(side, slot, payload);
    }
}

impl Queue {
    /// Whether the queue cannot begin to stream.
    fn cannot_stream(&self, least: u32) -> bool
        ensures { result ≡ is_some (streamon_refusal self.now least) }
    {
        if self.is_streaming() {
            return false;
        }
        if self.buffers() == 0 {
            return true;
        }
        match self.side {
            Side::Out => false,
            Side::Cap => !self.long_enough(least),
        }
    }

    /// VIDIOC_STREAMON: lets the queue stream. `least` is the size of a buffer for the present format.
    ///
    /// # Errors
    /// EINVAL where the queue does not stream and has no buffer, and on CAPTURE also where
    /// [`Queue::long_enough`] is false.
    pub fn streamon(&mut self, least: u32) -> Result<(), Errno>
        ensures answer { result ≡ answer_of (streamon_refusal self.old least) tt }
        ensures after { self.new ≡ after_of (streamon_refusal self.old least) self.old (streamon_after self.old) }
    {
        if self.cannot_stream(least) {
            return Err(Errno::Inval);
        }
        self.streaming = true;
        Ok(())
    }

    /// VIDIOC_STREAMOFF: ends streaming. The user holds all buffers of ready and done again, and the
    /// sequence numbers begin anew. A buffer in the job stays there.
    pub fn streamoff(&mut self, hold: &mut Hold)
        requires fit { Fits self.old hold.old }
        ensures after { self.new ≡ streamoff_after self.old }
        ensures payloads { AllGoToUser self.old.side (self.old.ready ++ self.old.done) hold.old hold.new }
        ensures fit { Fits self.new hold.new }
    {
        let count = self.count as usize;
        self.streaming = false;
        self.next_seq = 0;
        self.links.drain_into(READY, HELD);
        self.links.drain_into(DONE, HELD);
        release(self.side, count, &mut self.cells, hold);
    }
}
