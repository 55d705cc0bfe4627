//! What an encoder and a decoder have in common: two queues with phase and mark, the formats, and the events.
//!
//! Each kind of context holds these beside what its codec keeps from run to run, and leaves the calls to them that
//! every kind answers alike. The rules follow the chapters "Memory-to-Memory Stateful Video Encoder Interface" and
//! "Memory-to-Memory Stateful Video Decoder Interface" of the Linux userspace API documentation, as far as
//! docs/DEVICE.md does not say otherwise.
#![tactic(auto)]

ghost use Rattle.std.specs.Prelude.{◌≡◌, IfOk, true, false, Some, [], is_some};
ghost use Rattle.vc_base.specs.declared.Kind.{Kind};
ghost use Rattle.vc_model.specs.Context.{Context};
ghost use Rattle.vc_model.specs.Answer.{context_answer};
ghost use Rattle.vc_model.specs.Core.{unless_memory};
ghost use Rattle.vc_geom.specs.Pairs.{pair_of, CanStand};
ghost use Rattle.vc_pair.specs.Pairs.{IsSettled, FitsBoth};
ghost use Rattle.vc_context.specs.Contexts.{IsKept, Gives, TakesMemory};
ghost use Rattle.vc_context.specs.Payloads.{Moves, handed_over};
ghost use Rattle.vc_m2m.specs.Parts.{IsFresh, ArePartsOf, with_parts, CanCount};
ghost use Rattle.vc_m2m.specs.Calls.{is_common, after_call};

mod buffers;
mod commands;
mod events;
mod formats;
pub mod settling;

use crate::commands::{is_dec, is_enc};
pub use formats::format_of;
use std::alloc::Global;
use vc_base::{Call, Errno, Kind, NoMemory, Reply};
use vc_context::refusals::{create_refusal, reqbufs_refusal};
use vc_context::replies::refused;
use vc_event::Events;
use vc_geom::{Formats, open_formats};
use vc_pair::Pair;
use vc_queue::hold::Hold;

/// The formats, queues and events of a memory-to-memory context.
#[derive(Drop)]
pub struct M2mContext {
    /// The formats of both sides.
    pub formats: Formats,
    /// The queues of both sides, with phase and mark.
    pub pair: Pair,
    /// The subscribed and the pending events.
    pub events: Events,
}

impl M2mContext {
    /// What a context of the kind has at Open: no buffers, no events, and its usual formats. All memory that
    /// events need is taken here.
    ///
    /// # Errors
    /// `NoMemory` where no memory is found.
    pub fn make(alloc: Global, kind: Kind) -> Result<M2mContext, NoMemory>
        ensures { IfOk result (λ m. IsFresh kind m) }
    {
        let events = Events::make(alloc)?;
        Ok(M2mContext {
            formats: open_formats(kind),
            pair: Pair::new(),
            events,
        })
    }

    /// Answers a call that every kind of context answers alike: any but SetFmt, ReqBufs, CreateBufs, StreamOff,
    /// GetCtrl, SetCtrl and Close.
    pub fn answer(&mut self, kind: Kind, call: &Call, hold: &mut Hold) -> Reply
        requires common { is_common call.now ≡ true }
        requires stands { CanStand kind (pair_of self.old.formats) }
        requires settled { IsSettled self.old.pair }
        requires fit { FitsBoth self.old.pair hold.old }
        requires room { CanCount self.old }
        ensures answers { (c : Context) → ArePartsOf c self.old → c.kind ≡ kind → IsKept c → Gives (context_answer c call.now (handed_over call.now hold.old) true) result (with_parts c self.new) }
        ensures after { self.new ≡ after_call kind self.old hold.old call.now }
        ensures moves { (c : Context) → ArePartsOf c self.old → IsKept c → Moves (Some c) call.now result hold.old hold.new }
        ensures fit { FitsBoth self.new.pair hold.new }
    {
        match *call {
            Call::EnumFmt { side, index } => self.enum_format(kind, side, index),
            Call::GetFmt { side } => self.get_format(side),
            Call::TryFmt { side, want } => self.try_format(kind, side, &want),
            Call::QueryBuf { side, index } => self.querybuf(side, index),
            Call::QBuf {
                side,
                index,
                used,
                stamp,
            } => self.qbuf(kind, side, index, used, stamp, hold),
            Call::DqBuf { side, block } => self.dqbuf(side, block, hold),
            Call::StreamOn { side } => self.streamon(side),
            Call::Subscribe { event } => self.subscribe(kind, event),
            Call::Unsubscribe { event } => self.unsubscribe(kind, event),
            Call::DqEvent { block } => self.dqevent(block),
            Call::DecCmd { cmd } => self.command(is_dec(kind), cmd),
            Call::EncCmd { cmd } => self.command(is_enc(kind), cmd),
            Call::Poll => self.poll(),
            Call::Open { .. } => refused(Errno::Busy),
            _ => unreachable!(),
        }
    }

    /// What a call that takes memory answers before memory is sought: a refusal, or none where all tests pass.
    pub fn refusal(&self, call: &Call) -> Option<Reply>
        requires { TakesMemory call.now }
        ensures { (c : Context) → ArePartsOf c self.now → result ≡ unless_memory (context_answer c call.now [] false).reply }
    {
        match *call {
            Call::ReqBufs { side, .. } => reqbufs_refusal(self.pair.queue(side)),
            Call::CreateBufs {
                side,
                count,
                length,
            } => create_refusal(self.pair.queue(side), count, length),
            _ => Some(refused(Errno::Busy)),
        }
    }
}
