//! A device of C's.

ghost use Rattle.std.specs.Prelude.{◌≡◌, Some, None, IfSome};
ghost use Rattle.std.specs.Option.{MatchOption};
ghost use Rattle.vc_desk.specs.Desks.{IsSomeDesk};
ghost use Rattle.vc_c.specs.Calls.{Answers, Frees, Makes};

use crate::answer::answer_on;
use crate::held::Held;
use crate::loose::Loose;
use crate::status::Status;
use std::alloc::Global;
use std::marker::Model;
use std::mem;
use vc_base::limits::MOST_SLOTS;
use vc_desk::Desk;

/// A device of C's: a desk, or none. Contracts see what is held.
#[repr(C)]
#[derive(Drop)]
pub struct Device {
    held: Held,
    is_made: bool,
}

impl Model for Device {
    ghost use Rattle.std.specs.Prelude.{◌≡◌, is_some, IfSome};
    ghost use mathlib.Core.Path.{ap, sym};
    ghost use Rattle.vc_c.specs.declared.held.Held.{Held as HeldState};
    ghost use Rattle.vc_desk.specs.Desks.{IsSomeDesk};

    ghost Value = { HeldState };

    ghost view = { λ d. d.held };

    ghost invariant = { λ d. (d.is_made ≡ is_some d.held.desk) × IfSome d.held.desk IsSomeDesk };

    ghost inverse = { λ h. record { held = h; is_made = is_some h.desk } };

    ghost inverse_ok = { λ a h. ap (λ b. record { held = a.held; is_made = b }) (sym h.0) };
}

impl Device {
    /// Takes the desk out, and leaves none.
    fn take(&mut self, alloc: Global) -> Option<Box<Desk>>
        ensures desk { MatchOption result (self.old.desk ≡ None) (λ desk. self.old.desk ≡ Some desk.value) }
        ensures some { IfSome result (λ desk. IsSomeDesk desk.value) }
        ensures none { self.new.desk ≡ None }
    {
        if !self.is_made {
            return None;
        }
        let held = mem::replace(&mut self.held, Held::none(alloc));
        self.is_made = false;
        Some(held.into_loose().into_box())
    }

    /// Puts a desk in, where there is none.
    fn put(&mut self, desk: Box<Desk>)
        requires none { self.old.desk ≡ None }
        requires desk { IsSomeDesk desk.value }
        ensures { self.new.desk ≡ Some desk.value }
    {
        self.held = Held::of(Loose::of(desk));
        self.is_made = true;
    }

    /// Makes a device of so many slots.
    pub fn make(&mut self, alloc: Global, slots: u32) -> Status
        ensures { Makes slots self.old.desk self.new.desk result }
    {
        if self.is_made {
            return Status::InUse;
        }
        if slots == 0 || MOST_SLOTS < slots {
            return Status::BadNumber;
        }
        let Ok(desk) = Desk::make(alloc, slots) else {
            return Status::NoMemory;
        };
        match Box::new(alloc, desk) {
            Ok(desk) => {
                self.put(desk);
                Status::Done
            }
            Err(_) => Status::NoMemory,
        }
    }

    /// Frees the device.
    pub fn free(&mut self, alloc: Global) -> Status
        ensures { Frees self.old.desk self.new.desk result }
    {
        match self.take(alloc) {
            Some(_) => Status::Done,
            None => Status::NotMade,
        }
    }

    /// Answers the body of a message, and writes the reply to the front of the room. Tells its size, or the room that it wants.
    pub fn answer(
        &mut self,
        alloc: Global,
        body: &[u8],
        room: &mut [u8],
        size: &mut usize,
    ) -> Status
        ensures { Answers body.now (record { before = room.old; now = room.new; size = size.new }) self.old.desk self.new.desk result }
    {
        let Some(mut desk) = self.take(alloc) else {
            *size = 0;
            return Status::NotMade;
        };
        let status = answer_on(alloc, &mut desk, body, room, size);
        self.put(desk);
        status
    }
}
