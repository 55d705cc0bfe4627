//! Jobs: when one is due, what it takes along, and what its end does.

ghost use Rattle.std.specs.Prelude.{◌≡◌, ◌&&◌, not, Some, is_some, true, false};
ghost use Rattle.vc_defs.specs.Laws.{AreRates};
ghost use Rattle.vc_model.specs.Context.{is_run};
ghost use Rattle.vc_model.specs.Runs.{JobData, is_claimable};
ghost use Rattle.vc_work.specs.Runs.{Fits, run_rates};
ghost use Rattle.vc_context.specs.Works.{IsWork};
ghost use Rattle.vc_enc.specs.Works.{IsGiven, CanEncode, end_of};
ghost use Rattle.vc_context.specs.Serving.{CanClaim, CanFinish, IsClaimed, IsFinished};

use crate::streaming::begin_anew_where;
use crate::{Encoder, InJob};
use bitflags::Flags;
use vc_base::flags::BufFlags;
use vc_base::{Format, Side};
use vc_context::jobs::{dest_back, dest_of, source_back, source_of};
use vc_context::refusals::has_work;
use vc_ctrl::Controls;
use vc_m2m::settling::raise_end;
use vc_pair::{Pair, Phase};
use vc_queue::queue::Lent;
use vc_work::{EngineFault, Outcome, Rates, Reference, Sort, Work};

/// What a run that came to its end, or was given up, leaves of its buffers.
#[derive(Clone, Copy, Debug, PartialEq, Eq)]
struct RunEnd {
    /// How many bytes of the destination are used.
    used: u32,
    source_flags: u32,
    dest_flags: u32,
    /// Whether the engine gave up.
    fault: bool,
}

/// What is left of the buffers after a run of an encoder. A fault has no frame.
fn end_of(outcome: &Result<Outcome, EngineFault>) -> RunEnd
    ensures { result ≡ end_of outcome.now }
{
    match *outcome {
        Ok(Outcome::Encoded { used, key }) => RunEnd {
            used,
            source_flags: 0,
            dest_flags: if key {
                BufFlags::KEYFRAME.bits()
            } else {
                BufFlags::PFRAME.bits()
            },
            fault: false,
        },
        _ => RunEnd {
            used: 0,
            source_flags: BufFlags::ERROR.bits(),
            dest_flags: BufFlags::ERROR.bits(),
            fault: true,
        },
    }
}

/// The rates that the controls ask for now.
fn rates_of(controls: &Controls) -> Rates
    ensures rates { run_rates result ≡ controls.now }
    ensures range { AreRates (run_rates result) }
{
    Rates {
        gop: controls.gop(),
        iqp: controls.iqp(),
        pqp: controls.pqp(),
    }
}

/// The work of a run that encodes the picture of one buffer into the other.
fn encode_work(
    source: Lent,
    dest: Lent,
    reference: Option<Reference>,
    format: Format,
    rates: Rates,
) -> Work
    requires { CanEncode source dest reference format rates }
    ensures work { (j : JobData) → IsGiven j source dest reference format rates → IsWork j result }
    ensures fits { Fits result }
{
    let limit = format.size;
    Work {
        sort: Sort::Encode,
        source: source_of(source),
        dest: Some(dest_of(dest)),
        reference,
        geometry: None,
        assembly: None,
        format,
        limit,
        rates,
    }
}

/// Whether jobs may run.
fn may_run(pair: &Pair) -> bool
    ensures { result ≡ is_run pair.now.phase }
{
    match pair.phase() {
        Phase::Run => true,
        Phase::Owe | Phase::Last | Phase::Stopped => false,
    }
}

/// Whether a job is due: none runs, one may, and both queues have work.
fn is_due(running: bool, source: bool, dest: bool, may_run: bool) -> bool
    ensures { result ≡ (not running && ((source && dest) && may_run)) }
{
    !running && source && dest && may_run
}

impl Encoder {
    /// Whether a job of the context runs.
    pub fn is_running(&self) -> bool
        ensures { result ≡ is_some self.now.running }
    {
        self.job.is_some()
    }

    /// Whether a job can be claimed: none runs, both queues stream and have a ready buffer, and the
    /// context is not stopped.
    pub fn ready(&self) -> bool
        ensures { result ≡ is_claimable (Some self.now) }
    {
        let source = has_work(self.m2m.pair.queue(Side::Out));
        let dest = has_work(self.m2m.pair.queue(Side::Cap));
        let may_run = may_run(&self.m2m.pair);
        is_due(self.job.is_some(), source, dest, may_run)
    }

    /// Takes the front buffers of both queues, and what the codec keeps, into a job.
    pub fn claim(&mut self) -> Work
        requires able { CanClaim self.old }
        ensures claimed { IsClaimed self.old self.new result }
    {
        let source = self.m2m.pair.lend(Side::Out);
        let dest = self.m2m.pair.lend(Side::Cap);
        self.job = Some(InJob {
            source: source.index,
            dest: dest.index,
        });
        let reference = self.reference.take();
        let rates = rates_of(&self.controls);
        encode_work(source, dest, reference, self.m2m.formats.out, rates)
    }

    /// Takes the work of the running job back. Its buffers go to done, and the codec goes on from the frame,
    /// or after a fault begins anew. The frame that ends a drain has LAST, and its end is told by an event.
    pub fn finish(&mut self, work: Work, outcome: Result<Outcome, EngineFault>)
        requires able { CanFinish self.old work outcome }
        ensures finished { IsFinished self.old self.new work outcome }
    {
        let Some(job) = self.job.take() else {
            unreachable!()
        };
        let end = end_of(&outcome);
        let Work {
            source,
            dest,
            reference,
            ..
        } = work;
        let Some(payload) = dest else { unreachable!() };
        self.reference = reference;
        begin_anew_where(end.fault, &mut self.reference);
        let stamp = source.stamp;
        let source = source_back(job.source, source);
        self.m2m.pair.retire_out(source, end.source_flags);
        let dest = dest_back(job.dest, payload);
        let ended = self
            .m2m
            .pair
            .retire_cap(dest, end.used, end.dest_flags, stamp);
        raise_end(ended, &mut self.m2m.events);
    }
}
