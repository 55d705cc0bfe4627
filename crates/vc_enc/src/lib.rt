//! An encoder context: raw pictures are queued on OUTPUT, and the coded frames come out on CAPTURE.
//!
//! The rules follow the chapter "Memory-to-Memory Stateful Video Encoder Interface" of the Linux userspace
//! API documentation, as far as docs/DEVICE.md does not say otherwise.
//!
//! Each call, claim and finish leaves exactly the context that the definitions of `vc_model` say, and tells
//! exactly their reply. Memory is taken when a context is made, and by ReqBufs and CreateBufs: these take
//! all that later runs need before they change anything. What a run itself does is proved where engines are.
#![tactic(auto)]

ghost use Rattle.std.specs.Prelude.{◌≡◌, false, IfOk, []};
ghost use Rattle.vc_base.specs.declared.Kind.TheVariants.{Enc};
ghost use Rattle.vc_model.specs.Context.{fresh_context};
ghost use Rattle.vc_model.specs.Answer.{context_answer};
ghost use Rattle.vc_model.specs.Core.{unless_memory};
ghost use Rattle.vc_context.specs.Contexts.{GivesWithMemory, TakesMemory, is_close};
ghost use Rattle.vc_context.specs.Payloads.{handed_over};
ghost use Rattle.vc_context.specs.Serving.{CanServe, CarriesOut};

mod buffers;
mod controls;
mod formats;
mod jobs;
mod streaming;

use std::alloc::Global;
use std::marker::Model;
use vc_base::{Call, Kind, NoMemory, Reply};
use vc_ctrl::Controls;
use vc_m2m::M2mContext;
use vc_queue::hold::Hold;
use vc_work::Reference;

/// The buffers of the running job, by their indices.
#[derive(Clone, Copy, Debug, PartialEq, Eq)]
struct InJob {
    source: u32,
    dest: u32,
}

/// An encoder context: what it has in common with a decoder, its controls, and what the codec keeps from frame
/// to frame. That is here while OUTPUT has buffers and no job runs; without it the next frame is an I frame
/// with the number 0.
#[derive(Drop)]
pub struct Encoder {
    m2m: M2mContext,
    controls: Controls,
    reference: Option<Reference>,
    job: Option<InJob>,
}

impl Model for Encoder {
    ghost use Rattle.vc_geom.specs.Pairs.{pair_of};
    ghost use Rattle.vc_model.specs.Context.{Context};
    ghost use Rattle.vc_enc.specs.Encoders.{encoder_state, IsEncoder};

    ghost Value = { Context };

    ghost view = { λ e. encoder_state (pair_of e.m2m.formats) e.controls e.m2m.pair e.m2m.events e.reference e.job };

    ghost invariant = { λ e. IsEncoder (pair_of e.m2m.formats) e.m2m.pair e.reference e.job };
}

impl Encoder {
    /// A context at Open: `YU12` pictures of 352 by 288, no buffers, and the usual controls.
    ///
    /// # Errors
    /// `NoMemory` where no memory is found.
    pub fn make(alloc: Global) -> Result<Encoder, NoMemory>
        ensures { IfOk result (λ e. e ≡ fresh_context Enc) }
    {
        let m2m = M2mContext::make(alloc, Kind::Enc)?;
        Ok(Encoder {
            m2m,
            controls: Controls::new(),
            reference: None,
            job: None,
        })
    }

    /// Answers a call other than Close. Open is refused, since the context is open.
    pub fn answer(&mut self, alloc: Global, call: &Call, hold: &mut Hold) -> Reply
        requires other { is_close call.now ≡ false }
        requires able { CanServe self.old hold.old }
        ensures answers { GivesWithMemory (context_answer self.old call.now (handed_over call.now hold.old)) result self.new }
        ensures carried { CarriesOut call.now result self.old self.new hold.old hold.new }
    {
        match *call {
            Call::SetFmt { side, want } => self.set_format(side, &want),
            Call::ReqBufs { side, count } => self.reqbufs(alloc, side, count, hold),
            Call::CreateBufs {
                side,
                count,
                length,
            } => self.create(alloc, side, count, length, hold),
            Call::StreamOff { side } => self.streamoff(side, hold),
            Call::GetCtrl { id } => self.control(id),
            Call::SetCtrl { id, value } => self.set_control(id, value),
            _ => self.m2m.answer(Kind::Enc, call, hold),
        }
    }

    /// What a call that takes memory answers before memory is sought: a refusal, or none where all tests
    /// pass.
    pub fn refusal(&self, call: &Call) -> Option<Reply>
        requires { TakesMemory call.now }
        ensures { result ≡ unless_memory (context_answer self.now call.now [] false).reply }
    {
        self.m2m.refusal(call)
    }
}

#[cfg(test)]
mod tests;
