//! A decoder context: pieces of a coded stream are queued on OUTPUT, and the pictures come out on CAPTURE.
//!
//! The rules follow the chapter "Memory-to-Memory Stateful Video Decoder Interface" of the Linux userspace
//! API documentation, as far as docs/DEVICE.md does not say otherwise.
#![tactic(auto)]

ghost use Rattle.std.specs.Prelude.{◌≡◌, IfOk, [], false};
ghost use Rattle.vc_base.specs.declared.Kind.TheVariants.{Dec};
ghost use Rattle.vc_model.specs.Context.{fresh_context};
ghost use Rattle.vc_model.specs.Answer.{context_answer};
ghost use Rattle.vc_model.specs.Core.{unless_memory};
ghost use Rattle.vc_context.specs.Contexts.{GivesWithMemory, TakesMemory, is_close};
ghost use Rattle.vc_context.specs.Payloads.{handed_over};
ghost use Rattle.vc_context.specs.Serving.{CanServe, CarriesOut};

mod claiming;
mod codec;
mod controls;
mod finishing;
mod formats;
mod jobs;
mod making;
mod streaming;

use crate::codec::Codec;
use std::alloc::Global;
use std::marker::Model;
use vc_base::{Call, Kind, NoMemory, Reply};
use vc_context::replies::nothing_such;
use vc_defs::Geometry;
use vc_m2m::M2mContext;
use vc_queue::hold::Hold;

/// The CAPTURE buffer of the running job: its index, and its length in bytes.
#[derive(Clone, Copy, Debug, PartialEq, Eq)]
struct Dest {
    index: u32,
    length: usize,
}

/// The buffers of the running job: the index of the OUTPUT buffer and, but in a probe, the CAPTURE buffer.
#[derive(Clone, Copy, Debug, PartialEq, Eq)]
struct InJob {
    source: u32,
    dest: Option<Dest>,
}

/// A decoder context: what it has in common with an encoder, the geometry of its stream once that was found,
/// and what the codec keeps from run to run. That is with the job while one runs.
#[derive(Drop)]
pub struct Decoder {
    m2m: M2mContext,
    geometry: Option<Geometry>,
    codec: Codec,
    job: Option<InJob>,
}

impl Model for Decoder {
    ghost use Rattle.vc_geom.specs.Pairs.{pair_of};
    ghost use Rattle.vc_model.specs.Context.{Context};
    ghost use Rattle.vc_dec.specs.Decoders.{decoder_state, IsDecoder};

    ghost Value = { Context };

    ghost view = { λ d. decoder_state (pair_of d.m2m.formats) d.geometry d.m2m.pair d.m2m.events d.codec.state d.job };

    ghost invariant = { λ d. IsDecoder (pair_of d.m2m.formats) d.geometry d.m2m.pair d.m2m.events d.codec d.job };
}

impl Decoder {
    /// A context at Open: pictures of 352 by 288 until the stream says otherwise, and no buffers.
    ///
    /// # Errors
    /// `NoMemory` where no memory is found.
    pub fn make(alloc: Global) -> Result<Decoder, NoMemory>
        ensures { IfOk result (λ d. d ≡ fresh_context Dec) }
    {
        let m2m = M2mContext::make(alloc, Kind::Dec)?;
        Ok(Decoder {
            m2m,
            geometry: None,
            codec: Codec::new(alloc),
            job: None,
        })
    }

    /// Answers a call other than Close. Open is refused, since the context is open.
    pub fn answer(&mut self, alloc: Global, call: &Call, hold: &mut Hold) -> Reply
        requires other { is_close call.now ≡ false }
        requires able { CanServe self.old hold.old }
        ensures answers { GivesWithMemory (context_answer self.old call.now (handed_over call.now hold.old)) result self.new }
        ensures carried { CarriesOut call.now result self.old self.new hold.old hold.new }
    {
        match *call {
            Call::SetFmt { side, want } => self.set_format(side, &want),
            Call::ReqBufs { side, count } => self.reqbufs(alloc, side, count, hold),
            Call::CreateBufs {
                side,
                count,
                length,
            } => self.create(alloc, side, count, length, hold),
            Call::StreamOff { side } => self.streamoff(side, hold),
            Call::GetCtrl { id } => self.control(id),
            Call::SetCtrl { .. } => {
                // That a decoder has no control to set is known of its parts alone, so the proof looks at them.
                let _ = &self.m2m;
                nothing_such()
            }
            _ => self.m2m.answer(Kind::Dec, call, hold),
        }
    }

    /// What ReqBufs and CreateBufs answer before memory is sought.
    pub fn refusal(&self, call: &Call) -> Option<Reply>
        requires { TakesMemory call.now }
        ensures { result ≡ unless_memory (context_answer self.now call.now [] false).reply }
    {
        self.m2m.refusal(call)
    }
}

#[cfg(test)]
mod tests;
