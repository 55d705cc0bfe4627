//! New buffers: VIDIOC_REQBUFS and VIDIOC_CREATE_BUFS.

ghost use Rattle.std.specs.Prelude.{◌≡◌, ◌<◌, ◌≤◌, ◌+◌, ℕ, Err, length, IsTrue, is_some, ◌++◌, min, IfOk, OnErr, OnOk};
ghost use Rattle.vc_base.specs.Buffers.{buffer_count, reqbufs_refusal, reqbufs_after, create_refusal, created, create_after};
ghost use Rattle.vc_base.specs.Limits.{most_buffers};
ghost use Rattle.vc_base.specs.declared.Errno.TheVariants.{NoMem};
ghost use Rattle.vc_links.specs.Lists.{list_at, with_list, IsInSome, AreApart};
ghost use Rattle.vc_queue.specs.Growing.{cannot_grow, AnswersWithMemory, KeepsFirst, HasNew, AreZero, numbers_from, AreHandedOver};
ghost use Rattle.vc_queue.specs.Holds.{Fits};
ghost use Rattle.vc_queue.specs.Payloads.{payload_at};

use super::{HELD, Queue};
use crate::cells::Cells;
use crate::hold::Hold;
use crate::payloads::Payloads;
use std::alloc::Global;
use vc_base::limits::{LONGEST_BUFFER, MOST_BUFFERS};
use vc_base::{Errno, NoMemory, Side};
use vc_links::Links;

/// Whether a queue with so many buffers cannot get `count` more of the size.
fn cannot_grow(buffers: u32, count: u32, size: u32) -> bool
    ensures { result ≡ cannot_grow buffers count size }
{
    size < 1 || LONGEST_BUFFER < size || (0 < count && buffers == MOST_BUFFERS)
}

/// Takes the payloads of so many new buffers, of zeros.
fn new_payloads(alloc: Global, number: usize, size: u32) -> Result<Payloads, NoMemory>
    requires { number ≤ most_buffers }
    ensures new { IfOk result (λ p. HasNew 0 number size p) }
    ensures asked { OnErr result (0 < number) }
{
    let mut payloads = Payloads::new();
    for i in 0..number {
        let payload = vec![in alloc; 0; size as usize]?;
        payloads.put(i, payload);
    }
    Ok(payloads)
}

/// Puts the cells of new buffers into the list of what the user holds.
fn link_new(links: &mut Links, first: usize, number: usize)
    requires few { first + number ≤ most_buffers }
    requires apart { AreApart links.old }
    requires free { (cell : ℕ) → first ≤ cell → ¬ IsInSome links.old cell }
    ensures linked { links.new ≡ with_list links.old 0 (list_at links.old 0 ++ numbers_from first number) }
    ensures apart { AreApart links.new }
{
    for i in 0..number {
        links.push_back(HELD, first + i);
    }
}

/// Hands the payloads of new buffers to the user.
fn hand_over(side: Side, first: usize, number: usize, payloads: &mut Payloads, hold: &mut Hold)
    requires few { first + number ≤ most_buffers }
    requires there { (i : ℕ) → i < number → IsTrue (is_some (payload_at payloads.old i)) }
    ensures { AreHandedOver side first number payloads.old hold.old hold.new }
{
    for i in 0..number {
        let Some(payload) = payloads.take(i) else {
            unreachable!()
        };
        hold.put(side, first + i, payload);
    }
}

impl Queue {
    /// VIDIOC_REQBUFS: drops all buffers, and makes `count` new ones of `length` bytes, [`MOST_BUFFERS`] at most,
    /// which the user holds. Their payloads are zeros. Gives their number.
    ///
    /// # Errors
    /// EBUSY where the queue streams, else ENOMEM where a buffer is asked for and no memory is found. Then nothing
    /// changes.
    pub fn reqbufs(
        &mut self,
        alloc: Global,
        count: u32,
        length: u32,
        hold: &mut Hold,
    ) -> Result<u32, Errno>
        requires fit { Fits self.old hold.old }
        ensures answer { AnswersWithMemory (reqbufs_refusal self.old) (min count most_buffers) (reqbufs_after self.old count length) result self.old self.new }
        ensures zeros { OnOk result (AreZero self.old.side 0 (min count most_buffers) length hold.new) }
        ensures asked { result ≡ Err NoMem → 0 < count }
        ensures other { KeepsFirst self.old.side 0 hold.old hold.new }
        ensures unchanged { OnErr result (hold.new ≡ hold.old) }
        ensures fit { Fits self.new hold.new }
    {
        if self.is_streaming() {
            return Err(Errno::Busy);
        }
        let number = count.min(MOST_BUFFERS);
        let end = number as usize;
        let Ok(mut payloads) = new_payloads(alloc, end, length) else {
            return Err(Errno::NoMem);
        };
        let Ok(cells) = Cells::held(alloc, end, length) else {
            return Err(Errno::NoMem);
        };
        self.count = number;
        self.cells = cells;
        self.links = Links::new();
        link_new(&mut self.links, 0, end);
        hold.clear(self.side);
        hand_over(self.side, 0, end, &mut payloads, hold);
        Ok(number)
    }

    /// VIDIOC_CREATE_BUFS: adds `count` buffers of `length` bytes, as far as there is room for [`MOST_BUFFERS`], with
    /// the next indices. The user holds them, and their payloads are zeros. Gives the first new index, and the
    /// number of new buffers.
    ///
    /// # Errors
    /// EINVAL where `length` is not 1 to [`LONGEST_BUFFER`], or the queue has [`MOST_BUFFERS`] buffers and `count`
    /// is above 0, else ENOMEM where a buffer is asked for and no memory is found. Then nothing changes.
    pub fn create(
        &mut self,
        alloc: Global,
        count: u32,
        length: u32,
        hold: &mut Hold,
    ) -> Result<(u32, u32), Errno>
        requires fit { Fits self.old hold.old }
        ensures answer { AnswersWithMemory (create_refusal self.old count length) (buffer_count self.old, created self.old count) (create_after self.old count length) result self.old self.new }
        ensures zeros { OnOk result (AreZero self.old.side (buffer_count self.old) (created self.old count) length hold.new) }
        ensures asked { result ≡ Err NoMem → 0 < count }
        ensures kept { KeepsFirst self.old.side (buffer_count self.old) hold.old hold.new }
        ensures unchanged { OnErr result (hold.new ≡ hold.old) }
        ensures fit { Fits self.new hold.new }
    {
        let first = self.buffers();
        if cannot_grow(first, count, length) {
            return Err(Errno::Inval);
        }
        let number = count.min(MOST_BUFFERS - first);
        if number == 0 {
            return Ok((first, 0));
        }
        let (start, more) = (first as usize, number as usize);
        let Ok(mut payloads) = new_payloads(alloc, more, length) else {
            return Err(Errno::NoMem);
        };
        let Ok(()) = self.cells.grow(alloc, start, more, length) else {
            return Err(Errno::NoMem);
        };
        self.count += number;
        link_new(&mut self.links, start, more);
        hand_over(self.side, start, more, &mut payloads, hold);
        Ok((first, number))
    }
}
