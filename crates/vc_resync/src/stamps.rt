//! The stamps of the kept bytes.

ghost use Rattle.std.specs.Prelude.{◌≡◌, ◌≤◌, ℕ, [], ◌++◌, length, replicate, min, nat_le, slice_index_or, if◌then◌else◌, IfOk};
ghost use Rattle.circular_buffer.specs.Buffer.{keep_last};
ghost use Rattle.vc_base.specs.Buffers.{zero_stamp};
ghost use Rattle.vc_resync.specs.Stamping.{HasPlaces};

use circular_buffer::HeapCircularBuffer;
use std::alloc::Global;
use vc_base::{NoMemory, Stamp};

/// How many stamps are kept of the last bytes: a header without its last byte.
const MOST: usize = 43;

/// The stamp of the first kept byte, and those of the last 43.
#[derive(Drop)]
pub(crate) struct Stamps {
    pub(crate) first: Stamp,
    pub(crate) last: HeapCircularBuffer<Stamp>,
}

/// Adds a stamp so many times.
fn push(last: &mut HeapCircularBuffer<Stamp>, count: usize, stamp: Stamp)
    requires { HasPlaces last.old }
    ensures places { HasPlaces last.new }
    ensures items { last.new.items ≡ keep_last 43 (last.old.items ++ replicate count stamp) }
{
    for _turn in 0..count {
        let _ = last.push_back(stamp);
    }
}

/// Adds a stamp so many times, and keeps the last `kept`.
fn keep(last: &mut HeapCircularBuffer<Stamp>, count: usize, stamp: Stamp, kept: usize)
    requires { HasPlaces last.old }
    ensures places { HasPlaces last.new }
    ensures items { last.new.items ≡ keep_last (min 43 kept) (last.old.items ++ replicate count stamp) }
{
    push(last, count.min(kept).min(MOST), stamp);
    last.truncate_front(kept);
}

/// The first stamp, or 0 where there is none.
fn first_of(last: &HeapCircularBuffer<Stamp>) -> Stamp
    ensures { result ≡ slice_index_or last.now.items 0 zero_stamp }
{
    match last.front() {
        None => Stamp(0),
        Some(first) => *first,
    }
}

impl Stamps {
    /// No byte is kept.
    pub(crate) fn make(alloc: Global) -> Result<Stamps, NoMemory>
        ensures places { IfOk result (λ s. HasPlaces s.last) }
        ensures first { IfOk result (λ s. s.first ≡ zero_stamp) }
        ensures last { IfOk result (λ s. s.last.items ≡ []) }
    {
        let last = HeapCircularBuffer::with_capacity(alloc, MOST)?;
        Ok(Stamps {
            first: Stamp(0),
            last,
        })
    }

    /// Behind `count` more bytes, which all have one stamp, the last `kept` are kept.
    pub(crate) fn go_on(&mut self, count: usize, stamp: Stamp, kept: usize)
        requires { HasPlaces self.old.last }
        ensures places { HasPlaces self.new.last }
        ensures last { self.new.last.items ≡ keep_last (min 43 kept) (self.old.last.items ++ replicate count stamp) }
        ensures first { self.new.first ≡ (if nat_le kept 43 then slice_index_or self.new.last.items 0 zero_stamp else self.old.first) }
    {
        keep(&mut self.last, count, stamp, kept);
        if kept <= MOST {
            self.first = first_of(&self.last);
        }
    }

    /// No byte is kept any more.
    pub(crate) fn clear(&mut self)
        requires { HasPlaces self.old.last }
        ensures places { HasPlaces self.new.last }
        ensures first { self.new.first ≡ zero_stamp }
        ensures last { self.new.last.items ≡ [] }
    {
        self.first = Stamp(0);
        self.last.clear();
    }
}
