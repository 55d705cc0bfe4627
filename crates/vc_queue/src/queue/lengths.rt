//! Whether the buffers of a queue are long enough.

ghost use Rattle.std.specs.Prelude.{◌≡◌, ◌≤◌, length, take, nat_le};
ghost use Rattle.std.specs.List.{list_all, list_any};
ghost use Rattle.vc_base.specs.Buffers.{long_enough};
ghost use Rattle.vc_queue.specs.Releasing.{is_fine};

use super::Queue;
use crate::cells::{Cells, Place};

/// Whether a buffer in this place may have the size.
fn is_fine(place: Place, size: u32, least: u32) -> bool
    ensures { result ≡ is_fine place size least }
{
    match place {
        Place::Held => true,
        Place::Ready => least <= size,
        Place::Job => true,
        Place::Done => true,
    }
}

/// Whether no ready buffer is shorter than the least size.
fn none_short(cells: &Cells, count: usize, least: u32) -> bool
    requires { count ≤ length cells.now.cells }
    ensures { result ≡ list_all (λ c. is_fine c.place c.size least) (take count cells.now.cells) }
{
    for slot in 0..count {
        let cell = cells.get(slot);
        if !is_fine(cell.place, cell.size, least) {
            return false;
        }
    }
    true
}

/// Whether some buffer has the least size.
fn some_long(cells: &Cells, count: usize, least: u32) -> bool
    requires { count ≤ length cells.now.cells }
    ensures { result ≡ list_any (λ c. nat_le least c.size) (take count cells.now.cells) }
{
    for slot in 0..count {
        let cell = cells.get(slot);
        if least <= cell.size {
            return true;
        }
    }
    false
}

impl Queue {
    /// Whether every ready buffer, and at least one buffer of the queue, has at least `least` bytes:
    /// the test of START and of streaming on CAPTURE.
    pub fn long_enough(&self, least: u32) -> bool
        ensures { result ≡ long_enough self.now least }
    {
        let count = self.count as usize;
        none_short(&self.cells, count, least) && some_long(&self.cells, count, least)
    }
}
