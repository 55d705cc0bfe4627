//! The way out of a queue: VIDIOC_DQBUF.

ghost use Rattle.std.specs.Prelude.{◌≡◌};
ghost use Rattle.vc_base.specs.Buffers.{dqbuf_refusal, dqbuf_after};
ghost use Rattle.vc_queue.specs.Answers.{answer_of, after_of, front_taken, HandsBack};
ghost use Rattle.vc_queue.specs.Holds.{Fits};

use super::{DONE, HELD, Queue};
use crate::cells::{Cell, Place};
use crate::hold::Hold;
use vc_base::{Errno, Reply};

impl Queue {
    /// VIDIOC_DQBUF: moves the front of done to the user, and answers its own flags, without DONE. `ended`
    /// says that the user took the LAST buffer of CAPTURE, and no further one follows.
    ///
    /// # Errors
    /// EINVAL where the queue does not stream, else EPIPE where `ended`, else EAGAIN where no buffer is
    /// done. Then nothing changes.
    pub fn dqbuf(&mut self, ended: bool, hold: &mut Hold) -> Result<Reply, Errno>
        requires fit { Fits self.old hold.old }
        ensures answer { result ≡ answer_of (dqbuf_refusal self.old ended) (front_taken self.old.done) }
        ensures after { self.new ≡ after_of (dqbuf_refusal self.old ended) self.old (dqbuf_after self.old) }
        ensures payload { HandsBack (dqbuf_refusal self.old ended) self.old.side self.old.done hold.old hold.new }
        ensures fit { Fits self.new hold.new }
    {
        let streaming = self.streaming;
        if !streaming {
            return Err(Errno::Inval);
        }
        if ended {
            return Err(Errno::Pipe);
        }
        let Some(index) = self.links.move_front(DONE, HELD) else {
            return Err(Errno::Again);
        };
        let cell = self.cells.get(index);
        let held = Cell {
            place: Place::Held,
            ..cell
        };
        let Some(payload) = self.cells.take(index, held) else {
            unreachable!()
        };
        hold.put(self.side, index, payload);
        Ok(Reply::Taken {
            index: index as u32,
            used: cell.used,
            flags: cell.flags,
            seq: cell.seq,
            stamp: cell.stamp,
        })
    }
}
