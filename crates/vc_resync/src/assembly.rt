//! What is kept of the bytes that were fed.

ghost use Rattle.std.specs.Prelude.{◌≡◌, ◌≤◌, ◌<◌, ◌⊎◌, length, take, drop, false, true, IfOk, Some, IsSome, option_map};
ghost use Rattle.vc_defs.specs.Finds.{fed};
ghost use Rattle.vc_resync.specs.Assembling.{fresh_assembly, found_of, assembly_after, told_body, told_stamp, is_told, IsToldBy, IsLegalAnswer};
ghost use Rattle.vc_resync.specs.Continuing.{SameAnswer, IsAnswered};

use crate::collected::Collected;
use crate::feeding::Found;
use crate::stamps::Stamps;
use crate::told::{Told, told_by};
use std::alloc::Global;
use std::marker::Model;
use vc_base::{NoMemory, Stamp};

/// The bytes that later ones may make into a frame, or whose frame wasn't told, with their stamps.
#[derive(Drop)]
pub struct Assembly {
    collected: Collected,
    stamps: Stamps,
    told: Told,
}

impl Model for Assembly {
    ghost use Rattle.vc_resync.specs.Assembling.{AssemblyState};

    ghost Value = { AssemblyState };

    ghost use Rattle.vc_resync.specs.Keeping.{assembly_of, IsAssembly};

    ghost view = { assembly_of };

    ghost invariant = { IsAssembly };
}

impl Assembly {
    /// Nothing is kept. Bodies have `limit` bytes at most. There is room for 44 bytes more than that, and all memory
    /// that later calls need is taken here.
    ///
    /// # Errors
    /// `NoMemory` where no memory is found.
    pub fn make(alloc: Global, limit: u32) -> Result<Assembly, NoMemory>
        ensures { IfOk result (λ assembly. assembly ≡ fresh_assembly limit) }
    {
        let collected = Collected::make(alloc, limit)?;
        let stamps = Stamps::make(alloc)?;
        Ok(Assembly {
            collected,
            stamps,
            told: Told::Nothing,
        })
    }

    /// Nothing is kept any more.
    pub fn reset(&mut self)
        ensures { self.new ≡ fresh_assembly self.old.limit }
    {
        self.collected.clear();
        self.stamps.clear();
        self.told = Told::Nothing;
    }

    /// The body of the whole frame that the last feed told. It has as many bytes as the frame's header says.
    pub fn body(&self) -> &[u8]
        requires { IsSome (told_body self.now.told) }
        ensures { told_body self.now.told ≡ Some result.now }
    {
        match self.told {
            Told::Whole { size, .. } => &self.collected.body[..size],
            Told::Nothing | Told::Cut { .. } => &[],
        }
    }

    /// The stamp of the first byte of the frame that the last feed told.
    pub fn stamp(&self) -> Stamp
        requires { IsSome self.now.told }
        ensures { told_stamp self.now.told ≡ Some result }
    {
        match self.told {
            Told::Cut { stamp } | Told::Whole { stamp, .. } => stamp,
            Told::Nothing => Stamp(0),
        }
    }

    /// Goes on with the next bytes up to where something is told, or where what is kept is something else. Gives how
    /// many of them it took: at least one, where there are some and nothing is told.
    pub(crate) fn advance(&mut self, bytes: &[u8], stamp: Stamp) -> (usize, Found)
        ensures limit { self.new.limit ≡ self.old.limit }
        ensures inside { result.0 ≤ length bytes.now }
        ensures legal { IsLegalAnswer self.old.limit result.1 }
        ensures told { IsToldBy result.1 self.new.told }
        ensures moves { is_told result.1 ≡ false → 0 < length bytes.now → 0 < result.0 }
        ensures goes_on { is_told result.1 ≡ false → SameAnswer result.0 (fed self.old.kept self.old.limit bytes.now stamp) (fed self.new.kept self.old.limit (drop result.0 bytes.now) stamp) }
        ensures answered { (is_told result.1 ≡ true) ⊎ (result.0 ≡ length bytes.now) → IsAnswered (fed self.old.kept self.old.limit bytes.now stamp) result.0 result.1 self.old self.new }
    {
        let first = self.stamps.first;
        let (count, found) = self.collected.advance(bytes);
        self.stamps.go_on(count, stamp, self.collected.len());
        self.told = told_by(&found, first);
        (count, found)
    }
}
