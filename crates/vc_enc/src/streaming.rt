//! The end of streaming: VIDIOC_STREAMOFF.

ghost use Rattle.std.specs.Prelude.{◌≡◌, Some};
ghost use Rattle.vc_base.specs.declared.Call.TheVariants.{StreamOff};
ghost use Rattle.vc_model.specs.Answer.{streamoff_answer};
ghost use Rattle.vc_context.specs.Contexts.{Gives};
ghost use Rattle.vc_enc.specs.Encoders.{ends_capture, anew_where};
ghost use Rattle.vc_context.specs.Serving.{CanServe, CarriesOut};

use crate::Encoder;
use vc_base::{Reply, Side};
use vc_m2m::settling::settle;
use vc_pair::Pair;
use vc_queue::hold::Hold;
use vc_work::Reference;

/// Whether CAPTURE streams and is to stop.
fn ends_capture(pair: &Pair, side: Side) -> bool
    ensures { result ≡ ends_capture side pair.now }
{
    match side {
        Side::Out => false,
        Side::Cap => pair.queue(Side::Cap).is_streaming(),
    }
}

/// Lets the codec begin anew, where it has to.
pub(crate) fn begin_anew_where(due: bool, reference: &mut Option<Reference>)
    ensures { reference.new ≡ anew_where due reference.old }
{
    if !due {
        return;
    }
    if let Some(reference) = reference {
        reference.reset();
    }
}

impl Encoder {
    /// Ends streaming of a queue, unless a job runs: its ready and done buffers go back to the user. Where
    /// CAPTURE streamed the codec begins anew.
    pub(crate) fn streamoff(&mut self, side: Side, hold: &mut Hold) -> Reply
        requires able { CanServe self.old hold.old }
        ensures answers { Gives (streamoff_answer self.old side) result self.new }
        ensures carried { CarriesOut (StreamOff side) result self.old self.new hold.old hold.new }
    {
        let due = ends_capture(&self.m2m.pair, side);
        if self.job.is_some() {
            return Reply::Blocked;
        }
        self.m2m.pair.streamoff(side, hold);
        begin_anew_where(due, &mut self.reference);
        settle(&mut self.m2m.pair, &mut self.m2m.events);
        Reply::Done
    }
}
