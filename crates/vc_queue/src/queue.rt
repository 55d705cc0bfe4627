//! One queue of buffers.

mod growing;
mod jobs;
mod lengths;
mod queueing;
mod streaming;
mod taking;
mod telling;

ghost use Rattle.std.specs.Prelude.{◌≡◌, ◌≤◌};
ghost use Rattle.vc_base.specs.Buffers.{new_queue, buffer_count};
ghost use Rattle.vc_base.specs.Limits.{most_buffers};

use crate::cells::Cells;
use std::marker::Model;
use vc_base::{Side, Stamp};
use vc_links::Links;

/// The list of the buffers that the user holds.
const HELD: usize = 0;

/// The list of the ready buffers.
const READY: usize = 1;

/// The list of the buffer in the job.
const JOB: usize = 2;

/// The list of the buffers that are done.
const DONE: usize = 3;

/// A buffer that a job has, with its payload. Its length in bytes is that of the payload.
#[derive(Drop)]
pub struct Lent {
    /// The buffer's index on its queue.
    pub index: u32,
    /// How many bytes of an OUTPUT buffer count, from the front of the payload; 0 on CAPTURE.
    pub used: u32,
    /// How many of these bytes earlier jobs took.
    pub cursor: u32,
    /// The timestamp that the buffer was queued with.
    pub stamp: Stamp,
    /// All bytes of the buffer.
    pub payload: Vec<u8>,
}

/// One queue of a context, with 0 to [`MOST_BUFFERS`] buffers. Each buffer is in one place: with the user, ready, in
/// the job or done. Each buffer has a cell, with its payload where that lies in the queue, and four lists
/// over the cells tell where each is. Cells take memory for the buffers that the queue has, and none
/// before there are any. The rules are those of the chapter "Input/Output" of the Linux userspace API
/// documentation, as far as docs/DEVICE.md does not say otherwise.
#[derive(Drop)]
pub struct Queue {
    side: Side,
    streaming: bool,
    count: u32,
    next_seq: u64,
    next_ordinal: u64,
    links: Links,
    cells: Cells,
}

impl Model for Queue {
    ghost use Rattle.vc_base.specs.Buffers.{QueueState};
    ghost use Rattle.vc_queue.specs.Cells.{state_of, IsSound};

    ghost Value = { QueueState };

    ghost view = { λ q. state_of q.side q.streaming q.next_seq q.next_ordinal q.links q.cells.cells q.cells.payloads };

    ghost invariant = { λ q. IsSound q.links q.cells.cells q.cells.payloads q.count };
}

impl Queue {
    /// A queue without buffers, which does not stream.
    pub fn new(side: Side) -> Queue
        ensures { result ≡ new_queue side }
    {
        Queue {
            side,
            streaming: false,
            count: 0,
            next_seq: 0,
            next_ordinal: 0,
            links: Links::new(),
            cells: Cells::none(),
        }
    }

    /// Whether the queue streams.
    pub fn is_streaming(&self) -> bool
        ensures { result ≡ self.now.streams }
    {
        self.streaming
    }

    /// The number of buffers, 0 to [`MOST_BUFFERS`].
    pub fn buffers(&self) -> u32
        ensures number { result ≡ buffer_count self.now }
        ensures few { buffer_count self.now ≤ most_buffers }
    {
        self.count
    }

    /// The number of buffers that were queued so far, which is the ordinal of the next one.
    pub fn queued(&self) -> u64
        ensures { result ≡ self.now.next_ordinal }
    {
        self.next_ordinal
    }

    /// The number of buffers that went to done since the queue last stopped streaming, which is the
    /// sequence number of the next one.
    pub fn retired(&self) -> u64
        ensures { result ≡ self.now.next_seq }
    {
        self.next_seq
    }
}

#[cfg(test)]
mod tests;
