//! Streaming, and what can be had without waiting: VIDIOC_STREAMON, VIDIOC_STREAMOFF and poll().

ghost use Rattle.std.specs.Prelude.{◌≡◌};
ghost use Rattle.vc_base.specs.declared.Call.TheVariants.{StreamOff};
ghost use Rattle.vc_model.specs.Answer.{streamon_answer, streamoff_answer, unchanged, readiness};
ghost use Rattle.vc_context.specs.Contexts.{Gives, IsKept, IsStep};
ghost use Rattle.vc_context.specs.Serving.{CanServe, CarriesOut};

use crate::Copier;
use vc_base::{Reply, Side};
use vc_context::replies::told;
use vc_queue::hold::Hold;

impl Copier {
    /// Lets a queue stream.
    pub(crate) fn streamon(&mut self, side: Side) -> Reply
        requires kept { IsKept self.old }
        ensures answers { Gives (streamon_answer self.old side) result self.new }
        ensures step { IsStep self.old self.new }
        ensures held { (self.new.out.held ≡ self.old.out.held) × (self.new.cap.held ≡ self.old.cap.held) }
    {
        let least = self.size;
        match side {
            Side::Out => told(self.out.streamon(least)),
            Side::Cap => told(self.cap.streamon(least)),
        }
    }

    /// Ends streaming of a queue, unless a job runs: its ready and done buffers go back to the user.
    pub(crate) fn streamoff(&mut self, side: Side, hold: &mut Hold) -> Reply
        requires able { CanServe self.old hold.old }
        ensures answers { Gives (streamoff_answer self.old side) result self.new }
        ensures carried { CarriesOut (StreamOff side) result self.old self.new hold.old hold.new }
    {
        if self.running {
            return Reply::Blocked;
        }
        match side {
            Side::Out => self.out.streamoff(hold),
            Side::Cap => self.cap.streamoff(hold),
        }
        Reply::Done
    }

    /// What can be had without waiting.
    pub(crate) fn poll(&self) -> Reply
        ensures { Gives (unchanged self.now (readiness self.now)) result self.now }
    {
        Reply::Ready {
            read: self.cap.done_len() > 0,
            write: self.out.done_len() > 0,
            urgent: false,
        }
    }
}
