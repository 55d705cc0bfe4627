//! The end of streaming: VIDIOC_STREAMOFF.

ghost use Rattle.std.specs.Prelude.{◌≡◌};
ghost use Rattle.vc_base.specs.declared.Call.TheVariants.{StreamOff};
ghost use Rattle.vc_model.specs.Answer.{streamoff_answer};
ghost use Rattle.vc_context.specs.Contexts.{Gives};
ghost use Rattle.vc_dec.specs.Decoders.{sought_anew};
ghost use Rattle.vc_context.specs.Serving.{CanServe, CarriesOut};

use crate::Decoder;
use crate::codec::Codec;
use vc_base::{Reply, Side};
use vc_m2m::settling::settle;
use vc_queue::hold::Hold;

/// The seek: when OUTPUT stops streaming the codec begins anew.
fn seek(side: Side, codec: &mut Codec)
    ensures { codec.new ≡ record codec.old { state = sought_anew side codec.old.state } }
{
    if side == Side::Out {
        codec.reset();
    }
}

impl Decoder {
    /// Ends streaming of a queue, unless a job runs: its ready and done buffers go back to the user. On
    /// OUTPUT this is the seek.
    pub(crate) fn streamoff(&mut self, side: Side, hold: &mut Hold) -> Reply
        requires able { CanServe self.old hold.old }
        ensures answers { Gives (streamoff_answer self.old side) result self.new }
        ensures carried { CarriesOut (StreamOff side) result self.old self.new hold.old hold.new }
    {
        if self.job.is_some() {
            return Reply::Blocked;
        }
        self.m2m.pair.streamoff(side, hold);
        seek(side, &mut self.codec);
        settle(&mut self.m2m.pair, &mut self.m2m.events);
        Reply::Done
    }
}
