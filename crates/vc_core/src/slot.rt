//! A slot of the device: it is closed, or has a context.

ghost use Rattle.std.specs.Prelude.{◌≡◌, ℕ, true, false, is_some, Some, None, List, [], IfSome};
ghost use Rattle.std.specs.Option.{option_map};
ghost use Rattle.vc_base.specs.declared.Kind.TheVariants.{Copy, Enc, Dec};
ghost use Rattle.vc_base.specs.declared.Call.TheVariants.{Open, Close};
ghost use Rattle.vc_base.specs.declared.Errno.TheVariants.{NoMem};
ghost use Rattle.vc_base.specs.declared.Reply.TheVariants.{Refused};
ghost use Rattle.vc_model.specs.Core.{BroughtBack, claimed_in, before_memory, unless_memory};
ghost use Rattle.vc_model.specs.Answer.{closed_answer};
ghost use Rattle.vc_model.specs.Runs.{is_claimable};
ghost use Rattle.vc_model.specs.Context.{Context, fresh_context};
ghost use Rattle.vc_context.specs.Contexts.{TakesMemory, is_close};
ghost use Rattle.vc_core.specs.Slots.{IsKeptSlot, IsStepOfSlot, SlotHasRoom, IsAnswer, opened_kind, claimed_slot, finished_slot};
ghost use Rattle.vc_core.specs.Jobs.{IsJobWith, RunsWith, IsOfSlot, RunsInSlot, Brings};
ghost use Rattle.vc_queue.specs.Holds.{HoldState};
ghost use Rattle.vc_context.specs.Payloads.{FitsSlot, Moves, HasNewZeros, AsksForBuffers, handed_over};

use crate::job::{Finished, Job};
use std::alloc::Global;
use std::marker::Model;
use vc_base::{Call, Errno, Kind, Reply};
use vc_context::replies::no_memory;
use vc_copy::Copier;
use vc_dec::Decoder;
use vc_enc::Encoder;
use vc_queue::hold::Hold;

/// What a slot has.
#[derive(Drop)]
enum Content {
    Closed,
    Copying(Box<Copier>),
    Encoding(Box<Encoder>),
    Decoding(Box<Decoder>),
}

/// A slot of the device.
#[derive(Drop)]
pub(crate) struct Slot {
    content: Content,
}

impl Model for Slot {
    ghost use Rattle.vc_model.specs.Context.{Slot as SlotState};
    ghost use Rattle.vc_core.specs.Contents.{slot_state};

    ghost Value = { SlotState };

    ghost view = { λ s. slot_state s.content };
}

/// The kind of context that a call opens.
fn opened_kind(call: &Call) -> Option<Kind>
    ensures { result ≡ opened_kind call.now }
{
    match *call {
        Call::Open { kind } => Some(kind),
        _ => None,
    }
}

/// Whether the call closes the slot.
fn is_close(call: &Call) -> bool
    ensures { result ≡ is_close call.now }
{
    matches!(call, Call::Close)
}

/// What a closed slot answers before memory is sought.
fn closed_refusal(call: &Call) -> Option<Reply>
    ensures { result ≡ unless_memory (closed_answer call.now false).reply }
{
    match opened_kind(call) {
        Some(_) => None,
        None => Some(Reply::Refused {
            errno: Errno::NoTty,
        }),
    }
}

impl Slot {
    /// A closed slot.
    pub(crate) fn new() -> Slot
        ensures { result ≡ None }
    {
        Slot {
            content: Content::Closed,
        }
    }

    /// Answers a call.
    pub(crate) fn answer(&mut self, alloc: Global, call: &Call, hold: &mut Hold) -> Reply
        requires kept { IsKeptSlot self.old }
        requires room { SlotHasRoom self.old }
        requires fits { FitsSlot self.old hold.old }
        ensures answers { IsAnswer self.old call.now (handed_over call.now hold.old) result self.new }
        ensures step { IsStepOfSlot self.old self.new }
        ensures moves { Moves self.old call.now result hold.old hold.new }
        ensures fit { FitsSlot self.new hold.new }
        ensures zeros { HasNewZeros self.old call.now result hold.new }
        ensures asked { result ≡ Refused NoMem → AsksForBuffers call.now }
    {
        if is_close(call) {
            return self.close(hold);
        }
        match &mut self.content {
            Content::Closed => {}
            Content::Copying(copier) => return copier.answer(alloc, call, hold),
            Content::Encoding(encoder) => return encoder.answer(alloc, call, hold),
            Content::Decoding(decoder) => return decoder.answer(alloc, call, hold),
        }
        match opened_kind(call) {
            Some(kind) => self.open(alloc, kind),
            None => Reply::Refused {
                errno: Errno::NoTty,
            },
        }
    }

    /// A slot with a fresh copying context, where memory for it is found.
    fn copying(alloc: Global) -> Option<Slot>
        ensures { IfSome result (λ slot. slot ≡ Some (fresh_context Copy)) }
    {
        let Ok(copier) = Box::new(alloc, Copier::new()) else {
            return None;
        };
        Some(Slot {
            content: Content::Copying(copier),
        })
    }

    /// A slot with a fresh encoder context, where memory for it is found.
    fn encoding(alloc: Global) -> Option<Slot>
        ensures { IfSome result (λ slot. slot ≡ Some (fresh_context Enc)) }
    {
        let Ok(encoder) = Encoder::make(alloc) else {
            return None;
        };
        let Ok(encoder) = Box::new(alloc, encoder) else {
            return None;
        };
        Some(Slot {
            content: Content::Encoding(encoder),
        })
    }

    /// A slot with a fresh decoder context, where memory for it is found.
    fn decoding(alloc: Global) -> Option<Slot>
        ensures { IfSome result (λ slot. slot ≡ Some (fresh_context Dec)) }
    {
        let Ok(decoder) = Decoder::make(alloc) else {
            return None;
        };
        let Ok(decoder) = Box::new(alloc, decoder) else {
            return None;
        };
        Some(Slot {
            content: Content::Decoding(decoder),
        })
    }

    /// A slot with a fresh context, where memory for it is found.
    fn opened(alloc: Global, kind: Kind) -> Option<Slot>
        ensures { IfSome result (λ slot. slot ≡ Some (fresh_context kind)) }
    {
        match kind {
            Kind::Copy => Slot::copying(alloc),
            Kind::Enc => Slot::encoding(alloc),
            Kind::Dec => Slot::decoding(alloc),
        }
    }

    /// Opens the closed slot.
    fn open(&mut self, alloc: Global, kind: Kind) -> Reply
        requires closed { self.old ≡ None }
        ensures answers { IsAnswer self.old (Open kind) [] result self.new }
        ensures step { IsStepOfSlot self.old self.new }
    {
        let Some(slot) = Slot::opened(alloc, kind) else {
            return no_memory();
        };
        *self = slot;
        Reply::Done
    }

    /// Closes the slot, unless a job of it runs, and drops its payloads.
    fn close(&mut self, hold: &mut Hold) -> Reply
        requires fits { FitsSlot self.old hold.old }
        requires kept { IsKeptSlot self.old }
        ensures answers { IsAnswer self.old Close [] result self.new }
        ensures step { IsStepOfSlot self.old self.new }
        ensures moves { Moves self.old Close result hold.old hold.new }
        ensures fit { FitsSlot self.new hold.new }
    {
        let Some(running) = self.running() else {
            return Reply::Refused {
                errno: Errno::NoTty,
            };
        };
        if running {
            return Reply::Blocked;
        }
        *self = Slot::new();
        *hold = Hold::new();
        Reply::Done
    }

    /// Whether a job of the slot runs, where it has a context.
    fn running(&self) -> Option<bool>
        ensures { result ≡ option_map (λ (c : Context). is_some c.running) self.now }
    {
        match &self.content {
            Content::Closed => None,
            Content::Copying(copier) => Some(copier.is_running()),
            Content::Encoding(encoder) => Some(encoder.is_running()),
            Content::Decoding(decoder) => Some(decoder.is_running()),
        }
    }

    /// What Open, ReqBufs or CreateBufs answers before memory is sought.
    pub(crate) fn refusal(&self, call: &Call) -> Option<Reply>
        requires { TakesMemory call.now }
        ensures { result ≡ before_memory self.now call.now }
    {
        match &self.content {
            Content::Closed => closed_refusal(call),
            Content::Copying(copier) => copier.refusal(call),
            Content::Encoding(encoder) => encoder.refusal(call),
            Content::Decoding(decoder) => decoder.refusal(call),
        }
    }

    /// Whether a job of the slot can be claimed.
    pub(crate) fn is_claimable(&self) -> bool
        ensures { result ≡ is_claimable self.now }
    {
        match &self.content {
            Content::Closed => false,
            Content::Copying(copier) => copier.ready(),
            Content::Encoding(encoder) => encoder.ready(),
            Content::Decoding(decoder) => decoder.ready(),
        }
    }

    /// Takes the next job.
    pub(crate) fn claim(&mut self, slot: u32) -> Job
        requires kept { IsKeptSlot self.old }
        requires due { is_claimable self.old ≡ true }
        ensures after { self.new ≡ claimed_slot self.old }
        ensures step { IsStepOfSlot self.old self.new }
        ensures job { IsJobWith slot (claimed_in self.old) result }
        ensures taken { is_claimable self.new ≡ false }
        ensures runs { RunsWith self.new (claimed_in self.old) }
        ensures holds { (hold : HoldState) → FitsSlot self.old hold → FitsSlot self.new hold }
    {
        match &mut self.content {
            Content::Closed => unreachable!(),
            Content::Copying(copier) => Job::new(slot, copier.claim()),
            Content::Encoding(encoder) => Job::new(slot, encoder.claim()),
            Content::Decoding(decoder) => Job::new(slot, decoder.claim()),
        }
    }

    /// Takes a job back.
    pub(crate) fn finish(&mut self, finished: Finished)
        requires kept { IsKeptSlot self.old }
        requires room { SlotHasRoom self.old }
        requires back { IsOfSlot self.old finished }
        ensures after { (k : ℕ) (back : BroughtBack) → RunsInSlot self.old back.job → Brings k back finished → self.new ≡ finished_slot self.old back }
        ensures holds { (hold : HoldState) → FitsSlot self.old hold → FitsSlot self.new hold }
        ensures step { IsStepOfSlot self.old self.new }
    {
        let Finished {
            slot: _,
            work,
            outcome,
        } = finished;
        match &mut self.content {
            Content::Closed => unreachable!(),
            Content::Copying(copier) => copier.finish(work, outcome),
            Content::Encoding(encoder) => encoder.finish(work, outcome),
            Content::Decoding(decoder) => decoder.finish(work, outcome),
        }
    }
}
