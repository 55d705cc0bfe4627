//! A desk at an address that C keeps.

ghost use Rattle.std.specs.Prelude.{◌≡◌, Option, Some, None};
ghost use Rattle.vc_desk.specs.declared.desk.Desk.{Desk as DeskState};
ghost use Rattle.vc_c.specs.Held.{desk_held, IsThere};

use crate::loose::Loose;
use std::alloc::Global;
use std::marker::Model;
use std::ptr::null_mut;
use vc_desk::Desk;

/// The address of a desk, or of none. The desk is owned: it is freed once it is taken out as a box. What is let go while it has
/// a desk leaks it.
#[repr(C)]
#[derive(Drop)]
pub struct Held {
    at: *mut u8,
    alloc: Global,
    pub ghost desk: { Option DeskState },
}

impl Model for Held {
    ghost also_owns = { λ h. desk_held h.alloc h.at h.desk };
}

impl Held {
    /// Holds the desk.
    pub fn of(loose: Loose<Desk, Global>) -> Held
        ensures { result.desk ≡ Some loose.value }
    {
        let Loose { at, alloc } = loose;
        Held {
            at: at as *mut u8,
            alloc,
        }
    }

    /// Holds none.
    pub fn none(alloc: Global) -> Held
        ensures { result.desk ≡ None }
    {
        Held {
            at: null_mut(),
            alloc,
        }
    }

    /// Hands the desk back.
    pub fn into_loose(self) -> Loose<Desk, Global>
        requires { IsThere self.desk }
        ensures { self.desk ≡ Some result.value }
    {
        let Held { at, alloc } = self;
        Loose {
            at: at as *mut Desk,
            alloc,
        }
    }
}
