//! Where those who wait for their turn sleep, so that the end of a turn wakes the few who are next.
ghost use Rattle.std.specs.Prelude.{◌<◌};

use std::sync::Wait;
use std::sync::atomic::{AtomicU64, Ordering};

const DOORS: usize = 16;

// Where the holders of some tickets sleep. Whoever comes is counted before it looks for the last time. So a call
// that counts nobody comes before that look, and what was changed before the call is seen by it.
#[derive(Drop)]
pub(crate) struct Door {
    // How often sleepers were called, modulo 2^64.
    called: AtomicU64,
    // How many sleep here, or are about to.
    sleepers: AtomicU64,
}

impl Door {
    fn new() -> Door {
        Door {
            called: AtomicU64::new(0),
            sleepers: AtomicU64::new(0),
        }
    }

    // Counts a sleeper, and tells how often sleepers were called so far.
    pub(crate) fn come(&self) -> u64 {
        self.sleepers.fetch_add(1, Ordering::SeqCst);
        self.called.load(Ordering::SeqCst)
    }

    // Sleeps until the next call after `come` told that number. It may also return for no reason.
    pub(crate) fn sleep<R: Wait>(&self, rt: &R, heard: u64) {
        self.called.park(rt, (heard & 0xffff_ffff) as u32);
    }

    // Counts a sleeper no more.
    pub(crate) fn leave(&self) {
        self.sleepers.fetch_sub(1, Ordering::SeqCst);
    }

    // Wakes who sleeps here. Where nobody does it is one look, and no system call.
    fn call(&self) {
        if self.sleepers.load(Ordering::SeqCst) != 0 {
            self.called.fetch_add(1, Ordering::SeqCst);
            self.called.wake_all();
        }
    }
}

// Doors that tickets have in turn.
#[derive(Drop)]
pub(crate) struct Doors {
    doors: [Door; DOORS],
}

/// The place of the door of a ticket.
fn place_of(ticket: u64) -> usize
    ensures { result < 16 }
{
    (ticket % DOORS as u64) as usize
}

impl Doors {
    pub(crate) fn new() -> Doors {
        Doors {
            doors: [
                Door::new(),
                Door::new(),
                Door::new(),
                Door::new(),
                Door::new(),
                Door::new(),
                Door::new(),
                Door::new(),
                Door::new(),
                Door::new(),
                Door::new(),
                Door::new(),
                Door::new(),
                Door::new(),
                Door::new(),
                Door::new(),
            ],
        }
    }

    // The door of a ticket.
    pub(crate) fn of(&self, ticket: u64) -> &Door {
        &self.doors[place_of(ticket)]
    }

    // Wakes those who sleep with one of so many tickets, from this one on.
    pub(crate) fn call(&self, first: u64, number: u64) {
        for ahead in 0..number {
            self.of(first.wrapping_add(ahead)).call();
        }
    }
}
