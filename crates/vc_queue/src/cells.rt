//! Cells: what a queue keeps of its buffers.

ghost use Rattle.std.specs.Prelude.{◌≡◌, ◌<◌, ◌≤◌, ◌+◌, ℕ, None, Some, [], length, replicate, slice_set, IfOk, OnErr, OnOk};
ghost use Rattle.std.specs.Option.{option_map};
ghost use Rattle.vc_base.specs.Limits.{most_buffers};
ghost use Rattle.vc_queue.specs.Cells.{cell_at, no_cells};
ghost use Rattle.vc_queue.specs.Growing.{AreMore, new_cell};
ghost use Rattle.vc_queue.specs.Payloads.{payload_at};

use std::alloc::Global;
use std::marker::Model;
use std::mem;
use vc_base::{NoMemory, Stamp};

/// Where a buffer is.
#[derive(Clone, Copy, Debug, PartialEq, Eq)]
pub(crate) enum Place {
    Held,
    Ready,
    Job,
    Done,
}

/// What a queue keeps of a buffer beside its payload.
#[derive(Clone, Copy, Debug)]
pub(crate) struct Cell {
    pub(crate) place: Place,
    pub(crate) size: u32,
    pub(crate) used: u32,
    pub(crate) cursor: u32,
    pub(crate) stamp: Stamp,
    pub(crate) flags: u32,
    pub(crate) seq: u64,
    pub(crate) ordinal: u64,
}

const BLANK: Cell = Cell {
    place: Place::Held,
    size: 0,
    used: 0,
    cursor: 0,
    stamp: Stamp(0),
    flags: 0,
    seq: 0,
    ordinal: 0,
};

/// A cell with the payload of its buffer, where that lies in the queue.
#[derive(Drop)]
struct Stored {
    cell: Cell,
    payload: Option<Vec<u8>>,
}

/// A cell for each buffer of a queue, with the payload of each buffer that is ready or done. A queue without
/// buffers takes no memory for them.
#[derive(Drop)]
pub(crate) struct Cells {
    kept: Option<Vec<Stored>>,
}

impl Model for Cells {
    ghost use Rattle.std.specs.Prelude.{map};
    ghost use Rattle.std.specs.Option.{option_map};
    ghost use Rattle.vc_queue.specs.Kept.{items_of};
    ghost use Rattle.vc_queue.specs.Cells.{CellsState};

    ghost Value = { CellsState };

    ghost view = { λ c. record { cells = map (λ s. s.cell) (items_of (option_map (λ v. v.items) c.kept)); payloads = map (λ s. option_map (λ v. v.items) s.payload) (items_of (option_map (λ v. v.items) c.kept)) } };
}

impl Cells {
    pub(crate) fn none() -> Cells
        ensures { result ≡ no_cells }
    {
        Cells { kept: None }
    }

    /// So many cells of held buffers of the size.
    pub(crate) fn held(alloc: Global, number: usize, size: u32) -> Result<Cells, NoMemory>
        ensures cells { IfOk result (λ c. c.cells ≡ replicate number (new_cell size)) }
        ensures payloads { IfOk result (λ c. c.payloads ≡ replicate number None) }
        ensures asked { OnErr result (0 < number) }
    {
        let cell = Cell { size, ..BLANK };
        let Ok(mut kept) = Vec::with_capacity(alloc, number) else {
            return Err(NoMemory);
        };
        for _ in 0..number {
            kept.push_reserved(Stored {
                cell,
                payload: None,
            });
        }
        Ok(Cells { kept: Some(kept) })
    }

    pub(crate) fn get(&self, index: usize) -> Cell
        requires { index < length self.now.cells }
        ensures { result ≡ cell_at self.now.cells index }
    {
        match &self.kept {
            Some(kept) => kept[index].cell,
            None => BLANK,
        }
    }

    /// Puts a cell in the place of another, and takes the payload that was there.
    pub(crate) fn take(&mut self, index: usize, cell: Cell) -> Option<Vec<u8>>
        requires { index < length self.old.cells }
        ensures value { option_map (λ v. v.items) result ≡ payload_at self.old.payloads index }
        ensures cell { self.new.cells ≡ slice_set self.old.cells index cell }
        ensures payload { self.new.payloads ≡ slice_set self.old.payloads index None }
        ensures gone { payload_at self.new.payloads index ≡ None }
    {
        let blank = Stored {
            cell,
            payload: None,
        };
        let Stored { cell: _, payload } = self.replace(index, blank);
        payload
    }

    /// Puts a cell with a payload in the place of another.
    pub(crate) fn put(&mut self, index: usize, cell: Cell, payload: Vec<u8>)
        requires { index < length self.old.cells }
        ensures cell { self.new.cells ≡ slice_set self.old.cells index cell }
        ensures payload { self.new.payloads ≡ slice_set self.old.payloads index (Some payload.items) }
        ensures there { payload_at self.new.payloads index ≡ Some payload.items }
    {
        let payload = Some(payload);
        self.replace(index, Stored { cell, payload });
    }

    /// Replaces a cell and its payload, and gives those that were there.
    fn replace(&mut self, index: usize, stored: Stored) -> Stored
        requires { index < length self.old.cells }
        ensures was { option_map (λ v. v.items) result.payload ≡ payload_at self.old.payloads index }
        ensures cell { self.new.cells ≡ slice_set self.old.cells index stored.cell }
        ensures payload { self.new.payloads ≡ slice_set self.old.payloads index (option_map (λ v. v.items) stored.payload) }
        ensures now { payload_at self.new.payloads index ≡ option_map (λ v. v.items) stored.payload }
    {
        let Some(kept) = &mut self.kept else {
            unreachable!()
        };
        mem::replace(&mut kept[index], stored)
    }

    /// Adds `number` cells of held buffers of the size behind the first `first`, behind which no payload lies.
    pub(crate) fn grow(
        &mut self,
        alloc: Global,
        first: usize,
        number: usize,
        size: u32,
    ) -> Result<(), NoMemory>
        requires few { first + number ≤ most_buffers }
        requires there { first ≤ length self.old.cells }
        requires empty { (i : ℕ) → first ≤ i → payload_at self.old.payloads i ≡ None }
        ensures more { OnOk result (AreMore first number size self.old.cells self.new.cells) }
        ensures room { OnOk result (length self.new.payloads ≡ first + number) }
        ensures same { (i : ℕ) → payload_at self.new.payloads i ≡ payload_at self.old.payloads i }
        ensures unchanged { OnErr result (self.new ≡ self.old) }
    {
        let mut more = Cells::held(alloc, first + number, size)?;
        for slot in 0..first {
            let cell = self.get(slot);
            let payload = self.take(slot, cell);
            more.replace(slot, Stored { cell, payload });
        }
        *self = more;
        Ok(())
    }
}
