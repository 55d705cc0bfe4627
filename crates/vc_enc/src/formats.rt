//! Formats: VIDIOC_S_FMT.

ghost use Rattle.vc_model.specs.Answer.{set_answer};
ghost use Rattle.vc_context.specs.Contexts.{IsKept};
ghost use Rattle.vc_context.specs.Serving.{Serves};

use crate::Encoder;
use vc_base::{Errno, Format, Kind, Reply, Side};
use vc_context::replies::refused;
use vc_geom::try_format;
use vc_m2m::format_of;

impl Encoder {
    /// Sets the format of OUTPUT, which that of CAPTURE follows. The codec has begun anew already, since
    /// OUTPUT has no buffers.
    pub(crate) fn set_format(&mut self, side: Side, want: &Format) -> Reply
        requires kept { IsKept self.old }
        ensures { Serves (set_answer self.old side want.now) result self.old self.new }
    {
        if self.m2m.has_buffers(side) {
            return refused(Errno::Busy);
        }
        let formats = try_format(Kind::Enc, side, &self.m2m.formats, want);
        self.m2m.formats = formats;
        Reply::Fmt {
            format: format_of(&formats, side),
        }
    }
}
