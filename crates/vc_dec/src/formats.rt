//! Formats: VIDIOC_S_FMT.

ghost use Rattle.std.specs.Prelude.{◌≡◌};
ghost use Rattle.vc_model.specs.Answer.{set_answer};
ghost use Rattle.vc_context.specs.Contexts.{IsKept};
ghost use Rattle.vc_dec.specs.Decoders.{geometry_after};
ghost use Rattle.vc_context.specs.Serving.{Serves};

use crate::Decoder;
use vc_base::{Errno, Format, Kind, Reply, Side};
use vc_context::replies::refused;
use vc_defs::Geometry;
use vc_geom::try_format;
use vc_m2m::format_of;

/// What stays known of the stream's geometry when a side gets a new format.
fn geometry_after(side: Side, geometry: Option<Geometry>) -> Option<Geometry>
    ensures { result ≡ geometry_after side geometry }
{
    match side {
        Side::Out => None,
        Side::Cap => geometry,
    }
}

impl Decoder {
    /// Sets the format of a side. With a new one of OUTPUT the geometry is to be found again; the codec has
    /// begun anew already, since OUTPUT has no buffers.
    pub(crate) fn set_format(&mut self, side: Side, want: &Format) -> Reply
        requires kept { IsKept self.old }
        ensures { Serves (set_answer self.old side want.now) result self.old self.new }
    {
        if self.m2m.has_buffers(side) {
            return refused(Errno::Busy);
        }
        let formats = try_format(Kind::Dec, side, &self.m2m.formats, want);
        self.m2m.formats = formats;
        self.geometry = geometry_after(side, self.geometry);
        Reply::Fmt {
            format: format_of(&formats, side),
        }
    }
}
