//! Buffers: VIDIOC_QUERYBUF, VIDIOC_QBUF and VIDIOC_DQBUF.

ghost use Rattle.std.specs.Prelude.{◌≡◌, Some};
ghost use Rattle.vc_base.specs.declared.Kind.{Kind};
ghost use Rattle.vc_base.specs.declared.Call.TheVariants.{QBuf, DqBuf};
ghost use Rattle.vc_base.specs.Buffers.{querybuf_reply};
ghost use Rattle.vc_model.specs.Context.{Context, queue_of};
ghost use Rattle.vc_model.specs.Answer.{query_answer, dqbuf_answer};
ghost use Rattle.vc_pair.specs.Pairs.{IsSettled, FitsBoth, pair_taken, pair_put};
ghost use Rattle.vc_context.specs.Contexts.{Gives, IsKept};
ghost use Rattle.vc_context.specs.Payloads.{Moves};
ghost use Rattle.vc_m2m.specs.Parts.{ArePartsOf, with_parts, CanCount};
ghost use Rattle.vc_m2m.specs.Calls.{is_part, queued_answer, settled_unless, put_refusal, take_refusal};

use crate::M2mContext;
use crate::formats::format_of;
use crate::settling::settle;
use vc_base::{Errno, Kind, Reply, Side, Stamp};
use vc_context::replies::{refused, taken_or_blocked, told, told_or_refused};
use vc_queue::hold::Hold;

/// Whether only a part of a picture is to be queued, where a whole one has to be.
fn is_part(kind: Kind, side: Side, used: u32, size: u32) -> bool
    ensures { result ≡ is_part kind side used size }
{
    match (kind, side) {
        (Kind::Enc, Side::Out) => used != size,
        _ => false,
    }
}

impl M2mContext {
    /// What is told of a buffer.
    pub(crate) fn querybuf(&self, side: Side, index: u32) -> Reply
        ensures { (c : Context) → ArePartsOf c self.now → Gives (query_answer c (querybuf_reply (queue_of c side) index)) result c }
    {
        told_or_refused(self.pair.queue(side).querybuf(index))
    }

    /// Moves a payload from the user to the end of ready. On an encoder's OUTPUT it has to have a whole picture.
    pub(crate) fn qbuf(
        &mut self,
        kind: Kind,
        side: Side,
        index: u32,
        used: u32,
        stamp: Stamp,
        hold: &mut Hold,
    ) -> Reply
        requires settled { IsSettled self.old.pair }
        requires fit { FitsBoth self.old.pair hold.old }
        requires room { CanCount self.old }
        ensures answers { (c : Context) → ArePartsOf c self.old → c.kind ≡ kind → IsKept c → Gives (queued_answer c side index used stamp hold.old) result (with_parts c self.new) }
        ensures after { self.new ≡ settled_unless (put_refusal kind self.old side index used) self.old (pair_put self.old.pair side index used stamp hold.old) }
        ensures moves { (c : Context) → Moves (Some c) (QBuf side index used stamp) result hold.old hold.new }
        ensures fit { FitsBoth self.new.pair hold.new }
    {
        let least = format_of(&self.formats, side).size;
        if is_part(kind, side, used, least) {
            return refused(Errno::Inval);
        }
        let answer = self.pair.qbuf(side, index, used, stamp, least, hold);
        settle(&mut self.pair, &mut self.events);
        told(answer)
    }

    /// Moves the front of done to the user.
    pub(crate) fn dqbuf(&mut self, side: Side, block: bool, hold: &mut Hold) -> Reply
        requires settled { IsSettled self.old.pair }
        requires fit { FitsBoth self.old.pair hold.old }
        requires room { CanCount self.old }
        ensures answers { (c : Context) → ArePartsOf c self.old → Gives (dqbuf_answer c side block) result (with_parts c self.new) }
        ensures after { self.new ≡ settled_unless (take_refusal self.old.pair side) self.old (pair_taken self.old.pair side) }
        ensures moves { (c : Context) → ArePartsOf c self.old → IsKept c → Moves (Some c) (DqBuf side block) result hold.old hold.new }
        ensures fit { FitsBoth self.new.pair hold.new }
    {
        let answer = self.pair.dqbuf(side, hold);
        settle(&mut self.pair, &mut self.events);
        taken_or_blocked(block, answer)
    }
}
