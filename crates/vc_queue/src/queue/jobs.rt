//! The buffer in the job: it is lent, and comes back to ready or goes to done.

ghost use Rattle.std.specs.Prelude.{◌≡◌, ◌≢◌, ◌<◌, ◌^◌, ◌↔◌, [], take, IsTrue, not};
ghost use Rattle.vc_base.specs.Buffers.{without_job_bytes, lend_after, give_back_after, retire_after};
ghost use Rattle.vc_queue.specs.Lending.{IsLentFrom, IsBack, back_bytes, queued_with};

use super::{DONE, JOB, Lent, Queue, READY};
use crate::cells::{Cell, Place};
use vc_base::Stamp;

impl Queue {
    /// Whether a buffer is in the job.
    pub fn is_lent(&self) -> bool
        ensures lent { IsTrue result ↔ (self.now.job ≢ []) }
        ensures free { IsTrue (not result) ↔ (self.now.job ≡ []) }
    {
        self.links.front(JOB).is_some()
    }

    /// The used bytes of the buffer in the job, and its stamp, as it was queued.
    pub fn queued_with(&self) -> Option<(u32, Stamp)>
        ensures { result ≡ queued_with self.now.job }
    {
        let Some(index) = self.links.front(JOB) else {
            return None;
        };
        let cell = self.cells.get(index);
        Some((cell.used, cell.stamp))
    }

    /// Moves the front of ready into the job, and hands out its payload. No buffer may be there before.
    pub fn lend(&mut self) -> Lent
        requires ready { self.old.ready ≢ [] }
        requires none_lent { self.old.job ≡ [] }
        ensures after { self.new ≡ without_job_bytes (lend_after self.old) }
        ensures lent { IsLentFrom self.old.ready result }
    {
        let Some(index) = self.links.move_front(READY, JOB) else {
            unreachable!()
        };
        let cell = self.cells.get(index);
        let lent = Cell {
            place: Place::Job,
            ..cell
        };
        let Some(payload) = self.cells.take(index, lent) else {
            unreachable!()
        };
        Lent {
            index: index as u32,
            used: cell.used,
            cursor: cell.cursor,
            stamp: cell.stamp,
            payload,
        }
    }

    /// Puts the lent buffer at the front of ready, with the cursor that it carries. Its other fields stay
    /// as the buffer was queued.
    pub fn give_back(&mut self, lent: Lent)
        requires one { self.old.job ≢ [] }
        requires whole { IsBack self.old.job lent }
        ensures { self.new ≡ give_back_after self.old lent.cursor (back_bytes self.old.job lent) }
    {
        let Lent {
            cursor,
            payload,
            ..
        } = lent;
        let Some(index) = self.links.pop_front(JOB) else {
            unreachable!()
        };
        self.links.push_front(READY, index);
        let cell = self.cells.get(index);
        let ready = Cell {
            place: Place::Ready,
            cursor,
            ..cell
        };
        self.cells.put(index, ready, payload);
    }

    /// Puts the lent buffer at the end of done, with used bytes, flags and stamp as given, and the next
    /// sequence number.
    pub fn retire(&mut self, lent: Lent, used: u32, flags: u32, stamp: Stamp)
        requires one { self.old.job ≢ [] }
        requires whole { IsBack self.old.job lent }
        requires counts { self.old.next_seq < 2 ^ 62 }
        ensures { self.new ≡ retire_after self.old used (take used lent.payload.items) flags stamp }
    {
        let Lent { payload, .. } = lent;
        let Some(index) = self.links.move_front(JOB, DONE) else {
            unreachable!()
        };
        let cell = self.cells.get(index);
        let done = Cell {
            place: Place::Done,
            used,
            stamp,
            flags,
            seq: self.next_seq,
            ..cell
        };
        self.cells.put(index, done, payload);
        self.next_seq += 1;
    }
}
