//! Streaming and commands: VIDIOC_STREAMON, VIDIOC_DECODER_CMD and VIDIOC_ENCODER_CMD.

ghost use Rattle.std.specs.Prelude.{◌≡◌, if◌then◌else◌};
ghost use Rattle.vc_base.specs.declared.Errno.TheVariants.{NoTty};
ghost use Rattle.vc_model.specs.Context.{Context, is_dec, is_enc};
ghost use Rattle.vc_model.specs.Answer.{streamon_answer, start_answer, stop_answer, command_answer, refused};
ghost use Rattle.vc_pair.specs.Pairs.{IsSettled, stop_refusal, pair_marked, start_refusal, pair_started};
ghost use Rattle.vc_context.specs.Contexts.{Gives};
ghost use Rattle.vc_m2m.specs.Parts.{ArePartsOf, with_parts, CanCount};
ghost use Rattle.vc_m2m.specs.Calls.{settled_unless, on_refusal, pair_on, after_known};

use crate::M2mContext;
use crate::formats::format_of;
use crate::settling::settle;
use vc_base::limits::{START_COMMAND, STOP_COMMAND};
use vc_base::{Kind, Reply, Side};
use vc_context::replies::{no_command, nothing_such, told};

/// Whether the kind has the commands of a decoder.
pub(crate) fn is_dec(kind: Kind) -> bool
    ensures { result ≡ is_dec kind }
{
    match kind {
        Kind::Copy => false,
        Kind::Enc => false,
        Kind::Dec => true,
    }
}

/// Whether the kind has the commands of an encoder.
pub(crate) fn is_enc(kind: Kind) -> bool
    ensures { result ≡ is_enc kind }
{
    match kind {
        Kind::Copy => false,
        Kind::Enc => true,
        Kind::Dec => false,
    }
}

impl M2mContext {
    /// Lets a queue stream.
    pub(crate) fn streamon(&mut self, side: Side) -> Reply
        requires settled { IsSettled self.old.pair }
        requires room { CanCount self.old }
        ensures answers { (c : Context) → ArePartsOf c self.old → Gives (streamon_answer c side) result (with_parts c self.new) }
        ensures after { self.new ≡ settled_unless (on_refusal self.old side) self.old (pair_on self.old.pair side) }
    {
        let least = format_of(&self.formats, side).size;
        let answer = self.pair.streamon(side, least);
        settle(&mut self.pair, &mut self.events);
        told(answer)
    }

    /// Carries out a command, where the kind has it.
    pub(crate) fn command(&mut self, known: bool, cmd: u32) -> Reply
        requires settled { IsSettled self.old.pair }
        requires room { CanCount self.old }
        ensures answers { (c : Context) → ArePartsOf c self.old → Gives (if known then command_answer c cmd else refused c NoTty) result (with_parts c self.new) }
        ensures after { self.new ≡ after_known known self.old cmd }
    {
        if !known {
            return no_command();
        }
        match cmd {
            START_COMMAND => self.start(),
            STOP_COMMAND => self.stop(),
            _ => nothing_such(),
        }
    }

    /// Begins a drain.
    fn stop(&mut self) -> Reply
        requires settled { IsSettled self.old.pair }
        requires room { CanCount self.old }
        ensures answers { (c : Context) → ArePartsOf c self.old → Gives (stop_answer c) result (with_parts c self.new) }
        ensures after { self.new ≡ settled_unless (stop_refusal self.old.pair) self.old (pair_marked self.old.pair) }
    {
        let answer = self.pair.stop();
        settle(&mut self.pair, &mut self.events);
        told(answer)
    }

    /// Ends a stop whose LAST buffer was dequeued.
    fn start(&mut self) -> Reply
        requires settled { IsSettled self.old.pair }
        requires room { CanCount self.old }
        ensures answers { (c : Context) → ArePartsOf c self.old → Gives (start_answer c) result (with_parts c self.new) }
        ensures after { self.new ≡ settled_unless (start_refusal self.old.pair self.old.formats.cap.size) self.old (pair_started self.old.pair) }
    {
        let answer = self.pair.start(self.formats.cap.size);
        settle(&mut self.pair, &mut self.events);
        told(answer)
    }
}
