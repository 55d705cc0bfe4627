//! Buffers: VIDIOC_REQBUFS, VIDIOC_CREATE_BUFS, VIDIOC_QUERYBUF, VIDIOC_QBUF and VIDIOC_DQBUF.

ghost use Rattle.vc_base.specs.declared.Call.TheVariants.{ReqBufs, CreateBufs, QBuf, DqBuf};
ghost use Rattle.vc_base.specs.Buffers.{querybuf_reply};
ghost use Rattle.vc_model.specs.Context.{queue_of};
ghost use Rattle.vc_model.specs.Answer.{reqbufs_answer, create_answer, query_answer, qbuf_answer, dqbuf_answer};
ghost use Rattle.vc_context.specs.Contexts.{Gives, GivesWithMemory};
ghost use Rattle.vc_context.specs.Payloads.{handed_over};
ghost use Rattle.vc_context.specs.Serving.{CanServe, CarriesOut};

use crate::Copier;
use std::alloc::Global;
use vc_base::{Reply, Side, Stamp};
use vc_context::replies::{counted, created, taken_or_blocked, told, told_or_refused};
use vc_queue::hold::Hold;

impl Copier {
    /// Drops all buffers of a queue, and makes new ones, which the user holds.
    pub(crate) fn reqbufs(
        &mut self,
        alloc: Global,
        side: Side,
        count: u32,
        hold: &mut Hold,
    ) -> Reply
        requires able { CanServe self.old hold.old }
        ensures answers { GivesWithMemory (reqbufs_answer self.old side count) result self.new }
        ensures carried { CarriesOut (ReqBufs side count) result self.old self.new hold.old hold.new }
    {
        let size = self.size;
        match side {
            Side::Out => counted(self.out.reqbufs(alloc, count, size, hold)),
            Side::Cap => counted(self.cap.reqbufs(alloc, count, size, hold)),
        }
    }

    /// Adds buffers to a queue, which the user holds.
    pub(crate) fn create(
        &mut self,
        alloc: Global,
        side: Side,
        count: u32,
        length: u32,
        hold: &mut Hold,
    ) -> Reply
        requires able { CanServe self.old hold.old }
        ensures answers { GivesWithMemory (create_answer self.old side count length) result self.new }
        ensures carried { CarriesOut (CreateBufs side count length) result self.old self.new hold.old hold.new }
    {
        match side {
            Side::Out => created(self.out.create(alloc, count, length, hold)),
            Side::Cap => created(self.cap.create(alloc, count, length, hold)),
        }
    }

    /// What is told of a buffer.
    pub(crate) fn querybuf(&self, side: Side, index: u32) -> Reply
        ensures { Gives (query_answer self.now (querybuf_reply (queue_of self.now side) index)) result self.now }
    {
        match side {
            Side::Out => told_or_refused(self.out.querybuf(index)),
            Side::Cap => told_or_refused(self.cap.querybuf(index)),
        }
    }

    /// Moves a payload from the user to the end of ready.
    pub(crate) fn qbuf(
        &mut self,
        side: Side,
        index: u32,
        used: u32,
        stamp: Stamp,
        hold: &mut Hold,
    ) -> Reply
        requires able { CanServe self.old hold.old }
        ensures answers { Gives (qbuf_answer self.old side index used stamp (handed_over (QBuf side index used stamp) hold.old)) result self.new }
        ensures carried { CarriesOut (QBuf side index used stamp) result self.old self.new hold.old hold.new }
    {
        let least = self.size;
        match side {
            Side::Out => told(self.out.qbuf(index, used, stamp, least, hold)),
            Side::Cap => told(self.cap.qbuf(index, used, stamp, least, hold)),
        }
    }

    /// Moves the front of done to the user.
    pub(crate) fn dqbuf(&mut self, side: Side, block: bool, hold: &mut Hold) -> Reply
        requires able { CanServe self.old hold.old }
        ensures answers { Gives (dqbuf_answer self.old side block) result self.new }
        ensures carried { CarriesOut (DqBuf side block) result self.old self.new hold.old hold.new }
    {
        match side {
            Side::Out => taken_or_blocked(block, self.out.dqbuf(false, hold)),
            Side::Cap => taken_or_blocked(block, self.cap.dqbuf(false, hold)),
        }
    }
}
