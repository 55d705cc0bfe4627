//! What a queue tells of its buffers.

ghost use Rattle.std.specs.Prelude.{◌≡◌, ◌<◌, ◌≤◌, length, take, nat_lt};
ghost use Rattle.std.specs.List.{list_any};
ghost use Rattle.std.specs.Option.{ok_or};
ghost use Rattle.vc_base.specs.Buffers.{querybuf_reply};
ghost use Rattle.vc_base.specs.declared.Errno.TheVariants.{Inval};
ghost use Rattle.vc_links.specs.Lists.{list_at};
ghost use Rattle.vc_queue.specs.Cells.{told_flags};
ghost use Rattle.vc_queue.specs.Releasing.{is_before, front_ordinal};

use super::{DONE, Queue, READY};
use crate::cells::{Cells, Place};
use vc_base::{Errno, Reply};
use vc_links::Links;

/// The number of cells of a list.
fn list_len(links: &Links, list: usize) -> u32
    requires { list < 4 }
    ensures { result ≡ length (list_at links.now list) }
{
    let mut number = 0;
    let mut place = links.front(list);
    while let Some(cell) = place {
        number += 1;
        place = links.next(cell);
    }
    number
}

/// The flags that are told of a buffer.
fn told_flags(place: Place, flags: u32) -> u32
    ensures { result ≡ told_flags place flags }
{
    match place {
        Place::Held => 0,
        Place::Ready => 2,
        Place::Job => 2,
        Place::Done => 4 | flags,
    }
}

/// Whether a buffer in this place is ready, and its ordinal is before the mark.
fn is_before(place: Place, ordinal: u64, mark: u64) -> bool
    ensures { result ≡ is_before place ordinal mark }
{
    match place {
        Place::Held => false,
        Place::Ready => ordinal < mark,
        Place::Job => false,
        Place::Done => false,
    }
}

/// Whether some ready buffer is before the mark.
fn some_before(cells: &Cells, count: usize, mark: u64) -> bool
    requires { count ≤ length cells.now.cells }
    ensures { result ≡ list_any (λ c. is_before c.place c.ordinal mark) (take count cells.now.cells) }
{
    for slot in 0..count {
        let cell = cells.get(slot);
        if is_before(cell.place, cell.ordinal, mark) {
            return true;
        }
    }
    false
}

impl Queue {
    /// The number of buffers on done.
    pub fn done_len(&self) -> u32
        ensures { result ≡ length self.now.done }
    {
        list_len(&self.links, DONE)
    }

    /// The ordinal of the front of ready.
    pub fn front_ordinal(&self) -> Option<u64>
        ensures { result ≡ front_ordinal self.now.ready }
    {
        let Some(index) = self.links.front(READY) else {
            return None;
        };
        Some(self.cells.get(index).ordinal)
    }

    /// Whether some ready buffer was queued before the mark.
    pub fn has_before(&self, mark: u64) -> bool
        ensures { result ≡ list_any (λ b. nat_lt b.ordinal mark) self.now.ready }
    {
        let count = self.count as usize;
        some_before(&self.cells, count, mark)
    }

    /// VIDIOC_QUERYBUF: the length of the buffer with the index, and its flags, which are 0 where the
    /// user holds it, QUEUED where it is ready or in the job, and DONE with its own flags where it is done.
    ///
    /// # Errors
    /// EINVAL where the queue has no such buffer.
    pub fn querybuf(&self, index: u32) -> Result<Reply, Errno>
        ensures { result ≡ ok_or (querybuf_reply self.now index) Inval }
    {
        let count = self.count;
        if index >= count {
            return Err(Errno::Inval);
        }
        let cell = self.cells.get(index as usize);
        Ok(Reply::Info {
            index,
            length: cell.size,
            flags: told_flags(cell.place, cell.flags),
        })
    }
}
