//! Buffers that are made: VIDIOC_REQBUFS and VIDIOC_CREATE_BUFS. All memory that later runs need is taken here.

ghost use Rattle.std.specs.Prelude.{◌≡◌, ◌++◌, ◌==◌, ◌&&◌, not, nat_lt, Some};
ghost use Rattle.vc_base.specs.declared.Side.TheVariants.{Out, Cap};
ghost use Rattle.vc_base.specs.declared.Call.TheVariants.{ReqBufs, CreateBufs};
ghost use Rattle.vc_model.specs.Answer.{reqbufs_answer, create_answer};
ghost use Rattle.vc_context.specs.Contexts.{GivesWithMemory};
ghost use Rattle.vc_dec.specs.Decoders.{lent_room, serves};
ghost use Rattle.vc_context.specs.Serving.{CanServe, CarriesOut};

use crate::codec::{Codec, new_assembly, new_reference};
use crate::{Decoder, InJob};
use std::alloc::Global;
use vc_base::{Reply, Side};
use vc_context::refusals::{create_refusal, reqbufs_refusal};
use vc_context::replies::no_memory;
use vc_m2m::settling::settle;
use vc_queue::hold::Hold;

/// Whether the CAPTURE buffer in the job, where there is one, has the length.
fn lent_serves(job: Option<InJob>, length: u32) -> bool
    ensures { result ≡ serves (lent_room job) length }
{
    match job {
        Some(
            InJob {
                source: _,
                dest: Some(dest),
            },
        ) => dest.length == length as usize,
        Some(
            InJob {
                source: _,
                dest: None,
            },
        ) => false,
        None => false,
    }
}

/// Whether there is a reference for CAPTURE buffers of the length, with the job or here.
fn is_served(job: Option<InJob>, codec: &Codec, length: u32) -> bool
    ensures { result ≡ serves (lent_room job ++ codec.now.rooms) length }
{
    lent_serves(job, length) || codec.serves(length)
}

/// Whether buffers that are added need a reference of their own.
fn is_missing(job: Option<InJob>, codec: &Codec, count: u32, length: u32) -> bool
    ensures { result ≡ (nat_lt 0 count && not (serves (lent_room job ++ codec.now.rooms) length)) }
{
    count > 0 && !is_served(job, codec, length)
}

/// Whether buffers that are added to so many are the first ones.
fn are_first(buffers: u32, count: u32) -> bool
    ensures { result ≡ (buffers == 0 && nat_lt 0 count) }
{
    buffers == 0 && count > 0
}

impl Decoder {
    /// Drops all buffers of a queue, and makes new ones, which the user holds.
    pub(crate) fn reqbufs(
        &mut self,
        alloc: Global,
        side: Side,
        count: u32,
        hold: &mut Hold,
    ) -> Reply
        requires able { CanServe self.old hold.old }
        ensures answers { GivesWithMemory (reqbufs_answer self.old side count) result self.new }
        ensures carried { CarriesOut (ReqBufs side count) result self.old self.new hold.old hold.new }
    {
        match side {
            Side::Out => self.request_sources(alloc, count, hold),
            Side::Cap => self.request_dests(alloc, count, hold),
        }
    }

    /// Makes new OUTPUT buffers. The codec begins anew, and the geometry is to be found again.
    fn request_sources(&mut self, alloc: Global, count: u32, hold: &mut Hold) -> Reply
        requires able { CanServe self.old hold.old }
        ensures answers { GivesWithMemory (reqbufs_answer self.old Out count) result self.new }
        ensures carried { CarriesOut (ReqBufs Out count) result self.old self.new hold.old hold.new }
    {
        if let Some(reply) = reqbufs_refusal(self.m2m.pair.queue(Side::Out)) {
            return reply;
        }
        let size = self.m2m.formats.out.size;
        let Ok(assembly) = new_assembly(alloc, count > 0, size) else {
            return no_memory();
        };
        let Ok(count) = self.m2m.pair.reqbufs(alloc, Side::Out, count, size, hold) else {
            return no_memory();
        };
        self.codec.begin(assembly);
        self.geometry = None;
        settle(&mut self.m2m.pair, &mut self.m2m.events);
        Reply::Count { count }
    }

    /// Makes new CAPTURE buffers, and a reference for them, which takes over the picture that later frames
    /// refer to.
    fn request_dests(&mut self, alloc: Global, count: u32, hold: &mut Hold) -> Reply
        requires able { CanServe self.old hold.old }
        ensures answers { GivesWithMemory (reqbufs_answer self.old Cap count) result self.new }
        ensures carried { CarriesOut (ReqBufs Cap count) result self.old self.new hold.old hold.new }
    {
        if let Some(reply) = reqbufs_refusal(self.m2m.pair.queue(Side::Cap)) {
            return reply;
        }
        let size = self.m2m.formats.cap.size;
        let Ok(reference) = new_reference(alloc, count > 0, size) else {
            return no_memory();
        };
        let Ok(count) = self.m2m.pair.reqbufs(alloc, Side::Cap, count, size, hold) else {
            return no_memory();
        };
        self.codec.replace(reference);
        settle(&mut self.m2m.pair, &mut self.m2m.events);
        Reply::Count { count }
    }

    /// Adds buffers to a queue, which the user holds.
    pub(crate) fn create(
        &mut self,
        alloc: Global,
        side: Side,
        count: u32,
        length: u32,
        hold: &mut Hold,
    ) -> Reply
        requires able { CanServe self.old hold.old }
        ensures answers { GivesWithMemory (create_answer self.old side count length) result self.new }
        ensures carried { CarriesOut (CreateBufs side count length) result self.old self.new hold.old hold.new }
    {
        match side {
            Side::Out => self.create_sources(alloc, count, length, hold),
            Side::Cap => self.create_dests(alloc, count, length, hold),
        }
    }

    /// Adds OUTPUT buffers. The first ones bring the assembly with them.
    fn create_sources(&mut self, alloc: Global, count: u32, length: u32, hold: &mut Hold) -> Reply
        requires able { CanServe self.old hold.old }
        ensures answers { GivesWithMemory (create_answer self.old Out count length) result self.new }
        ensures carried { CarriesOut (CreateBufs Out count length) result self.old self.new hold.old hold.new }
    {
        if let Some(reply) = create_refusal(self.m2m.pair.queue(Side::Out), count, length) {
            return reply;
        }
        let first = are_first(self.m2m.pair.queue(Side::Out).buffers(), count);
        let Ok(assembly) = new_assembly(alloc, first, self.m2m.formats.out.size) else {
            return no_memory();
        };
        let Ok((index, count)) = self.m2m.pair.create(alloc, Side::Out, count, length, hold) else {
            return no_memory();
        };
        self.codec.supply(assembly);
        settle(&mut self.m2m.pair, &mut self.m2m.events);
        Reply::Created { index, count }
    }

    /// Adds CAPTURE buffers, and a reference for them where there is none of the length yet.
    fn create_dests(&mut self, alloc: Global, count: u32, length: u32, hold: &mut Hold) -> Reply
        requires able { CanServe self.old hold.old }
        ensures answers { GivesWithMemory (create_answer self.old Cap count length) result self.new }
        ensures carried { CarriesOut (CreateBufs Cap count length) result self.old self.new hold.old hold.new }
    {
        if let Some(reply) = create_refusal(self.m2m.pair.queue(Side::Cap), count, length) {
            return reply;
        }
        let missing = is_missing(self.job, &self.codec, count, length);
        let Ok(reference) = new_reference(alloc, missing, length) else {
            return no_memory();
        };
        if self.codec.add(reference).is_err() {
            return no_memory();
        }
        let Ok((index, count)) = self.m2m.pair.create(alloc, Side::Cap, count, length, hold) else {
            return no_memory();
        };
        settle(&mut self.m2m.pair, &mut self.m2m.events);
        Reply::Created { index, count }
    }
}
