//! Buffers that are made: VIDIOC_REQBUFS and VIDIOC_CREATE_BUFS. All memory that later runs need is taken here.

ghost use Rattle.std.specs.Prelude.{◌≡◌, Some, None, Option, IfOk, OnErr, ◌<◌};
ghost use Rattle.vc_base.specs.declared.Side.TheVariants.{Out, Cap};
ghost use Rattle.vc_base.specs.declared.Call.TheVariants.{ReqBufs, CreateBufs};
ghost use Rattle.vc_base.specs.Buffers.{buffer_count};
ghost use Rattle.vc_model.specs.Answer.{reqbufs_answer, create_answer};
ghost use Rattle.vc_context.specs.Contexts.{GivesWithMemory};
ghost use Rattle.vc_enc.specs.Encoders.{new_reference, HasSources};
ghost use Rattle.vc_context.specs.Serving.{CanServe, CarriesOut};

use crate::Encoder;
use std::alloc::Global;
use vc_base::{Errno, NoMemory, Reply, Side};
use vc_context::refusals::create_refusal;
use vc_context::replies::{counted, created, refused};
use vc_m2m::settling::settle;
use vc_queue::hold::Hold;
use vc_work::Reference;

/// The reference that so many new OUTPUT buffers need, for pictures of that size.
fn new_reference(alloc: Global, count: u32, size: u32) -> Result<Option<Reference>, NoMemory>
    ensures made { IfOk result (λ r. r ≡ new_reference count size) }
    ensures asked { OnErr result (0 < count) }
{
    if count == 0 {
        return Ok(None);
    }
    let reference = Reference::make(alloc, size)?;
    Ok(Some(reference))
}

impl Encoder {
    /// Drops all buffers of a queue, and makes new ones, which the user holds.
    pub(crate) fn reqbufs(
        &mut self,
        alloc: Global,
        side: Side,
        count: u32,
        hold: &mut Hold,
    ) -> Reply
        requires able { CanServe self.old hold.old }
        ensures answers { GivesWithMemory (reqbufs_answer self.old side count) result self.new }
        ensures carried { CarriesOut (ReqBufs side count) result self.old self.new hold.old hold.new }
    {
        match side {
            Side::Out => self.request_sources(alloc, count, hold),
            Side::Cap => self.request_dests(alloc, count, hold),
        }
    }

    /// Makes new OUTPUT buffers. The codec begins anew, and has a reference where there are buffers.
    fn request_sources(&mut self, alloc: Global, count: u32, hold: &mut Hold) -> Reply
        requires able { CanServe self.old hold.old }
        ensures answers { GivesWithMemory (reqbufs_answer self.old Out count) result self.new }
        ensures carried { CarriesOut (ReqBufs Out count) result self.old self.new hold.old hold.new }
    {
        if self.m2m.pair.queue(Side::Out).is_streaming() {
            return refused(Errno::Busy);
        }
        let size = self.m2m.formats.out.size;
        let Ok(reference) = new_reference(alloc, count, size) else {
            return refused(Errno::NoMem);
        };
        match self.m2m.pair.reqbufs(alloc, Side::Out, count, size, hold) {
            Ok(count) => {
                self.reference = reference;
                settle(&mut self.m2m.pair, &mut self.m2m.events);
                Reply::Count { count }
            }
            Err(errno) => refused(errno),
        }
    }

    /// Makes new CAPTURE buffers.
    fn request_dests(&mut self, alloc: Global, count: u32, hold: &mut Hold) -> Reply
        requires able { CanServe self.old hold.old }
        ensures answers { GivesWithMemory (reqbufs_answer self.old Cap count) result self.new }
        ensures carried { CarriesOut (ReqBufs Cap count) result self.old self.new hold.old hold.new }
    {
        let size = self.m2m.formats.cap.size;
        let answer = self.m2m.pair.reqbufs(alloc, Side::Cap, count, size, hold);
        settle(&mut self.m2m.pair, &mut self.m2m.events);
        counted(answer)
    }

    /// Adds buffers to a queue, which the user holds.
    pub(crate) fn create(
        &mut self,
        alloc: Global,
        side: Side,
        count: u32,
        length: u32,
        hold: &mut Hold,
    ) -> Reply
        requires able { CanServe self.old hold.old }
        ensures answers { GivesWithMemory (create_answer self.old side count length) result self.new }
        ensures carried { CarriesOut (CreateBufs side count length) result self.old self.new hold.old hold.new }
    {
        match side {
            Side::Out if self.m2m.pair.queue(Side::Out).buffers() == 0 => {
                self.create_first(alloc, count, length, hold)
            }
            _ => self.create_more(alloc, side, count, length, hold),
        }
    }

    /// Adds the first OUTPUT buffers, for which the codec needs a reference.
    fn create_first(&mut self, alloc: Global, count: u32, length: u32, hold: &mut Hold) -> Reply
        requires none { buffer_count self.old.out ≡ 0 }
        requires able { CanServe self.old hold.old }
        ensures answers { GivesWithMemory (create_answer self.old Out count length) result self.new }
        ensures carried { CarriesOut (CreateBufs Out count length) result self.old self.new hold.old hold.new }
    {
        if let Some(reply) = create_refusal(self.m2m.pair.queue(Side::Out), count, length) {
            return reply;
        }
        let Ok(reference) = new_reference(alloc, count, self.m2m.formats.out.size) else {
            return refused(Errno::NoMem);
        };
        match self.m2m.pair.create(alloc, Side::Out, count, length, hold) {
            Ok((index, count)) => {
                self.reference = reference;
                settle(&mut self.m2m.pair, &mut self.m2m.events);
                Reply::Created { index, count }
            }
            Err(errno) => {
                drop(reference);
                refused(errno)
            }
        }
    }

    /// Adds CAPTURE buffers, or further OUTPUT buffers.
    fn create_more(
        &mut self,
        alloc: Global,
        side: Side,
        count: u32,
        length: u32,
        hold: &mut Hold,
    ) -> Reply
        requires more { HasSources side self.old }
        requires able { CanServe self.old hold.old }
        ensures answers { GivesWithMemory (create_answer self.old side count length) result self.new }
        ensures carried { CarriesOut (CreateBufs side count length) result self.old self.new hold.old hold.new }
    {
        let answer = self.m2m.pair.create(alloc, side, count, length, hold);
        settle(&mut self.m2m.pair, &mut self.m2m.events);
        created(answer)
    }
}
