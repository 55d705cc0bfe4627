//! A copying context: what is queued on OUTPUT comes out on CAPTURE as it is.
//!
//! It has one pixel format, `DATA`, of the same size on both sides. It has no controls, events or commands,
//! so a drain never begins and jobs may always run.
#![tactic(auto)]

ghost use Rattle.std.specs.Prelude.{◌≡◌, false, Some, []};
ghost use Rattle.vc_base.specs.declared.Kind.TheVariants.{Copy};
ghost use Rattle.vc_model.specs.Context.{fresh_context};
ghost use Rattle.vc_model.specs.Answer.{context_answer};
ghost use Rattle.vc_model.specs.Core.{unless_memory};
ghost use Rattle.vc_context.specs.Contexts.{GivesWithMemory, TakesMemory, is_close};
ghost use Rattle.vc_context.specs.Payloads.{handed_over};
ghost use Rattle.vc_context.specs.Serving.{CanServe, CarriesOut};

mod buffers;
mod formats;
mod jobs;
mod streaming;

use std::alloc::Global;
use std::marker::Model;
use vc_base::limits::USUAL_SIZE;
use vc_base::{Call, Errno, Reply, Side};
use vc_context::refusals::{create_refusal, reqbufs_refusal};
use vc_context::replies::{no_command, nothing_such, refused_or_blocked};
use vc_queue::hold::Hold;
use vc_queue::queue::Queue;

/// A copying context: the size of its buffers, its queues, whether a job of it runs, and the indices of the
/// two buffers in the job.
#[derive(Drop)]
pub struct Copier {
    size: u32,
    out: Queue,
    cap: Queue,
    running: bool,
    source: u32,
    dest: u32,
}

impl Model for Copier {
    ghost use Rattle.vc_model.specs.Context.{Context};
    ghost use Rattle.vc_context.specs.Works.{IsIndexOf};
    ghost use Rattle.vc_copy.specs.Copying.{copier_state};

    ghost Value = { Context };

    ghost view = { λ c. copier_state c.size c.out c.cap c.running };

    ghost invariant = { λ c. IsIndexOf c.source c.out.job × IsIndexOf c.dest c.cap.job };
}

impl Copier {
    /// A context at Open.
    pub fn new() -> Copier
        ensures { result ≡ fresh_context Copy }
    {
        Copier {
            size: USUAL_SIZE,
            out: Queue::new(Side::Out),
            cap: Queue::new(Side::Cap),
            running: false,
            source: 0,
            dest: 0,
        }
    }

    /// Answers a call other than Open and Close.
    pub fn answer(&mut self, alloc: Global, call: &Call, hold: &mut Hold) -> Reply
        requires other { is_close call.now ≡ false }
        requires able { CanServe self.old hold.old }
        ensures answers { GivesWithMemory (context_answer self.old call.now (handed_over call.now hold.old)) result self.new }
        ensures carried { CarriesOut call.now result self.old self.new hold.old hold.new }
    {
        // What a copying context answers is known of its parts alone, so the proof looks at them.
        let _ = &self.size;
        match *call {
            Call::EnumFmt { side, index } => self.enum_format(side, index),
            Call::GetFmt { side } => self.format(side),
            Call::TryFmt { side, want } => self.try_format(side, &want),
            Call::SetFmt { side, want } => self.set_format(side, &want),
            Call::ReqBufs { side, count } => self.reqbufs(alloc, side, count, hold),
            Call::CreateBufs {
                side,
                count,
                length,
            } => self.create(alloc, side, count, length, hold),
            Call::QueryBuf { side, index } => self.querybuf(side, index),
            Call::QBuf {
                side,
                index,
                used,
                stamp,
            } => self.qbuf(side, index, used, stamp, hold),
            Call::DqBuf { side, block } => self.dqbuf(side, block, hold),
            Call::StreamOn { side } => self.streamon(side),
            Call::StreamOff { side } => self.streamoff(side, hold),
            Call::DqEvent { block } => refused_or_blocked(block, Errno::NoEnt),
            Call::Poll => self.poll(),
            Call::Open { .. } => Reply::Refused { errno: Errno::Busy },
            Call::Close => Reply::Blocked,
            Call::DecCmd { .. } => no_command(),
            Call::EncCmd { .. } => no_command(),
            Call::Subscribe { .. } => nothing_such(),
            Call::Unsubscribe { .. } => nothing_such(),
            Call::GetCtrl { .. } => nothing_such(),
            Call::SetCtrl { .. } => nothing_such(),
        }
    }

    /// What ReqBufs and CreateBufs answer before memory is sought.
    pub fn refusal(&self, call: &Call) -> Option<Reply>
        requires { TakesMemory call.now }
        ensures { result ≡ unless_memory (context_answer self.now call.now [] false).reply }
    {
        // What a copying context answers is known of its parts alone, so the proof looks at them.
        let _ = &self.size;
        match *call {
            Call::ReqBufs { side, .. } => match side {
                Side::Out => reqbufs_refusal(&self.out),
                Side::Cap => reqbufs_refusal(&self.cap),
            },
            Call::CreateBufs {
                side,
                count,
                length,
            } => match side {
                Side::Out => create_refusal(&self.out, count, length),
                Side::Cap => create_refusal(&self.cap, count, length),
            },
            _ => Some(Reply::Refused { errno: Errno::Busy }),
        }
    }
}
