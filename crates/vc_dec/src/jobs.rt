//! Jobs: whether one runs, and when one is due.

ghost use Rattle.std.specs.Prelude.{◌≡◌, ◌&&◌, Some, is_some, is_none};
ghost use Rattle.vc_model.specs.Runs.{is_claimable};
ghost use Rattle.vc_pair.specs.Pairs.{is_due};
ghost use Rattle.vc_context.specs.Contexts.{has_work};
ghost use Rattle.vc_dec.specs.Decoders.{job_mark, is_run_alone, is_job_due};

use crate::{Decoder, InJob};
use vc_base::Side;
use vc_context::refusals::has_work;
use vc_defs::Geometry;
use vc_pair::{Pair, Phase};

/// Whether a job may run: none does, and the context is not stopped.
fn may_run(job: Option<InJob>, phase: Phase) -> bool
    ensures { result ≡ (is_none (job_mark job) && is_run_alone phase) }
{
    match phase {
        Phase::Run => job.is_none(),
        Phase::Owe => false,
        Phase::Last => false,
        Phase::Stopped => false,
    }
}

/// Whether OUTPUT has work for a probe: its front ready buffer may be worked on.
fn is_probe_due(pair: &Pair) -> bool
    ensures { result ≡ (pair.now.out.streams && is_due pair.now.out.ready pair.now.mark) }
{
    pair.queue(Side::Out).is_streaming() && pair.front_due()
}

/// Whether both queues have work for a run.
fn is_run_due(pair: &Pair) -> bool
    ensures { result ≡ (has_work pair.now.out && has_work pair.now.cap) }
{
    has_work(pair.queue(Side::Out)) && has_work(pair.queue(Side::Cap))
}

/// Whether the queues have work for a job: a probe while the geometry is unknown, and then a run.
fn is_job_due(geometry: Option<Geometry>, pair: &Pair) -> bool
    ensures { result ≡ is_job_due geometry pair.now }
{
    match geometry {
        None => is_probe_due(pair),
        Some(_) => is_run_due(pair),
    }
}

impl Decoder {
    /// Whether a job of the context runs.
    pub fn is_running(&self) -> bool
        ensures { result ≡ is_some self.now.running }
    {
        self.job.is_some()
    }

    /// Whether a job can be claimed: none runs, and the context is not stopped. While the geometry is unknown
    /// a probe is due where OUTPUT streams and has a ready buffer, before the mark of a drain; after that a
    /// run is due where both queues stream and have a ready buffer.
    pub fn ready(&self) -> bool
        ensures { result ≡ is_claimable (Some self.now) }
    {
        may_run(self.job, self.m2m.pair.phase()) && is_job_due(self.geometry, &self.m2m.pair)
    }
}
