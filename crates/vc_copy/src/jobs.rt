//! The jobs of a copying context.

ghost use Rattle.std.specs.Prelude.{◌≡◌, ◌≤◌, not, ◌&&◌, is_some, true, false, vec_len, Some};
ghost use Rattle.vc_work.specs.Runs.{Fits};
ghost use Rattle.vc_model.specs.Runs.{JobData, is_claimable};
ghost use Rattle.vc_context.specs.Works.{IsWork};
ghost use Rattle.vc_copy.specs.Copying.{IsGiven, brought_used, brought_flags};
ghost use Rattle.vc_context.specs.Serving.{CanClaim, CanFinish, IsClaimed, IsFinished};

use crate::Copier;
use crate::formats::data_format;
use bitflags::Flags;
use vc_base::Format;
use vc_base::flags::BufFlags;
use vc_context::jobs::{dest_back, dest_of, source_back, source_of};
use vc_context::refusals::has_work;
use vc_queue::queue::Lent;
use vc_work::{EngineFault, Outcome, Rates, Sort, Work};

/// Whether a job is due: none runs, and both queues have work.
fn is_due(running: bool, source: bool, dest: bool) -> bool
    ensures { result ≡ (not running && (source && dest)) }
{
    !running && source && dest
}

/// The used bytes and the flags of the destination after a copy run, or where there was none.
fn brought(outcome: &Result<Outcome, EngineFault>) -> (u32, u32)
    ensures { result ≡ (brought_used outcome.now, brought_flags outcome.now) }
{
    match *outcome {
        Ok(Outcome::Copied { used }) => (used, 0),
        _ => (0, BufFlags::ERROR.bits()),
    }
}

/// The work of a copy run from one buffer to the other.
fn copy_work(source: Lent, dest: Lent, format: Format) -> Work
    requires filled { source.used ≤ vec_len source.payload }
    ensures work { (j : JobData) → IsGiven j source dest format → IsWork j result }
    ensures fits { Fits result }
{
    let limit = format.size;
    let rates = Rates {
        gop: 10,
        iqp: 20,
        pqp: 20,
    };
    Work {
        sort: Sort::Copy,
        source: source_of(source),
        dest: Some(dest_of(dest)),
        reference: None,
        geometry: None,
        assembly: None,
        format,
        limit,
        rates,
    }
}

impl Copier {
    /// Whether a job of the context runs.
    pub fn is_running(&self) -> bool
        ensures { result ≡ is_some self.now.running }
    {
        self.running
    }

    /// Whether a job can be claimed.
    pub fn ready(&self) -> bool
        ensures { result ≡ is_claimable (Some self.now) }
    {
        let source = has_work(&self.out);
        let dest = has_work(&self.cap);
        is_due(self.running, source, dest)
    }

    /// Takes the front buffers of both queues into a job.
    pub fn claim(&mut self) -> Work
        requires able { CanClaim self.old }
        ensures claimed { IsClaimed self.old self.new result }
    {
        let source = self.out.lend();
        let dest = self.cap.lend();
        self.running = true;
        self.source = source.index;
        self.dest = dest.index;
        copy_work(source, dest, data_format(self.size))
    }

    /// Takes the buffers of a job back: they go to done.
    pub fn finish(&mut self, work: Work, outcome: Result<Outcome, EngineFault>)
        requires able { CanFinish self.old work outcome }
        ensures finished { IsFinished self.old self.new work outcome }
    {
        self.running = false;
        let (used, flags) = brought(&outcome);
        let Work { source, dest, .. } = work;
        let Some(payload) = dest else { unreachable!() };
        let stamp = source.stamp;
        let source_used = source.used;
        let source = source_back(self.source, source);
        let dest = dest_back(self.dest, payload);
        self.out.retire(source, source_used, flags, stamp);
        self.cap.retire(dest, used, flags, stamp);
    }
}
