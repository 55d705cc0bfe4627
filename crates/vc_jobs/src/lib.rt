//! The list of the slots of the device that wait for a worker.
//!
//! Slots wait in the order in which they came, and one that is taken from the middle leaves the order of
//! the others. No call but `make` takes memory, and none searches: each reads and writes a few numbers,
//! however many slots wait.
#![tactic(auto)]

ghost use Rattle.std.specs.Prelude.{◌≡◌, ◌≢◌, ◌<◌, ◌≤◌, ◌++◌, ◌∷◌, ◌↔◌, [], true, false, IfOk, IfSome, IsTrue, Contains};
ghost use Rattle.vc_jobs.specs.Jobs.{Jobs, AreSlots, waits, without, front_of, rest_of, waiting_after, with_waiting};

use std::alloc::Global;
use std::marker::Model;
use vc_base::NoMemory;

/// The slots that wait for a worker, of 1 to 1,024 slots. Contracts see it as the number of slots and the
/// list of the waiting ones, the longest waiting first, each once.
#[derive(Drop)]
pub struct JobList {
    /// The number of slots, and the node from which the ring of the waiting ones begins.
    slots: u32,
    /// What stands after a node of the ring.
    next: Vec<u32>,
    /// What stands before it.
    prev: Vec<u32>,
    /// Whether the slot is in the ring.
    marks: Vec<bool>,
}

impl Model for JobList {
    ghost use Rattle.vc_jobs.specs.Jobs.{Jobs};
    ghost use Rattle.vc_jobs.specs.Rings.{ring, IsRing};

    ghost Value = { Jobs };

    ghost view = { λ l. record { slots = l.slots; waiting = ring l.slots l.next.items } };

    ghost invariant = { λ l. IsRing l.slots l.next.items l.prev.items l.marks.items (ring l.slots l.next.items) };
}

impl JobList {
    /// An empty list for this many slots, 1 to 1,024.
    pub fn make(alloc: Global, slots: u32) -> Result<JobList, NoMemory>
        requires some { 0 < slots }
        requires few { slots ≤ 1024 }
        ensures { IfOk result (λ jobs. jobs ≡ record { slots = slots; waiting = [] }) }
    {
        let nodes = slots as usize + 1;
        let next = vec![in alloc; slots; nodes]?;
        let prev = vec![in alloc; slots; nodes]?;
        let marks = vec![in alloc; false; slots as usize]?;
        Ok(JobList {
            slots,
            next,
            prev,
            marks,
        })
    }

    /// The number of slots.
    pub fn slots(&self) -> u32
        ensures { result ≡ self.now.slots }
    {
        self.slots
    }

    /// The slot that waits longest, if one does.
    pub fn front(&self) -> Option<u32>
        ensures front { result ≡ front_of self.now.waiting }
        ensures sound { AreSlots self.now }
    {
        let first = self.next[self.slots as usize];
        if first < self.slots {
            Some(first)
        } else {
            None
        }
    }

    /// Whether no slot waits.
    pub fn is_empty(&self) -> bool
        ensures { IsTrue result ↔ (self.now.waiting ≡ []) }
    {
        self.front().is_none()
    }

    /// Whether the slot waits. A number that is no slot's does not.
    pub fn contains(&self, slot: u32) -> bool
        ensures waits { result ≡ waits self.now.waiting slot }
        ensures member { IsTrue result ↔ Contains self.now.waiting slot }
        ensures sound { AreSlots self.now }
    {
        slot < self.slots && self.marks[slot as usize]
    }

    /// Puts a slot at the end.
    pub fn append(&mut self, slot: u32)
        requires slot { slot < self.old.slots }
        requires free { waits self.old.waiting slot ≡ false }
        ensures added { self.new ≡ with_waiting self.old (self.old.waiting ++ slot ∷ []) }
        ensures sound { AreSlots self.new }
    {
        let head = self.slots;
        let last = self.prev[head as usize];
        self.next[last as usize] = slot;
        self.next[slot as usize] = head;
        self.prev[slot as usize] = last;
        self.prev[head as usize] = slot;
        self.marks[slot as usize] = true;
    }

    /// Takes a slot out, wherever it stands.
    pub fn remove(&mut self, slot: u32)
        requires { waits self.old.waiting slot ≡ true }
        ensures removed { self.new ≡ with_waiting self.old (without self.old.waiting slot) }
        ensures sound { AreSlots self.new }
    {
        // That a waiting slot is one of the list's is known of its parts alone, so the proof looks at them.
        let _ = &self.slots;
        let before = self.prev[slot as usize];
        let after = self.next[slot as usize];
        self.next[before as usize] = after;
        self.prev[after as usize] = before;
        self.marks[slot as usize] = false;
    }

    /// Takes the slot that waits longest, if one does.
    pub fn take_front(&mut self) -> Option<u32>
        ensures front { result ≡ front_of self.old.waiting }
        ensures rest { self.new ≡ with_waiting self.old (rest_of self.old.waiting) }
        ensures slot { IfSome result (λ slot. slot < self.new.slots) }
        ensures gone { IfSome result (λ slot. waits self.new.waiting slot ≡ false) }
        ensures sound { AreSlots self.new }
    {
        let slot = self.front()?;
        self.remove(slot);
        Some(slot)
    }

    /// Sees to it that the slot waits exactly where it is due. One that waits already keeps its place.
    pub fn settle(&mut self, slot: u32, is_due: bool)
        requires { slot < self.old.slots }
        ensures settled { self.new ≡ with_waiting self.old (waiting_after self.old.waiting slot is_due) }
        ensures sound { AreSlots self.new }
    {
        let waits = self.contains(slot);
        if is_due {
            if !waits {
                self.append(slot);
            }
        } else if waits {
            self.remove(slot);
        }
    }
}

#[cfg(test)]
mod tests {
    use super::*;
    use std::test::Fail;

    #[test]
    fn one_from_the_middle_leaves_the_order(rt: HostRuntime) -> Result<(), Fail> {
        let mut jobs = JobList::make(rt.alloc(), 5).expect(&rt, "memory");
        assert_eq!(rt; jobs.slots(), 5);
        jobs.append(3);
        jobs.append(0);
        jobs.append(4);
        jobs.remove(0);
        jobs.settle(3, true);
        jobs.settle(1, true);
        jobs.settle(4, false);
        jobs.settle(2, false);
        assert!(rt; jobs.contains(1));
        assert!(rt; !jobs.contains(4));
        assert_eq!(rt; jobs.front(), Some(3));
        assert_eq!(rt; jobs.take_front(), Some(3));
        assert_eq!(rt; jobs.take_front(), Some(1));
        assert_eq!(rt; jobs.take_front(), None);
        assert!(rt; jobs.is_empty());
        Ok(())
    }
}
