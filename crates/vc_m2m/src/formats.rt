//! Formats: VIDIOC_ENUM_FMT, VIDIOC_G_FMT, VIDIOC_TRY_FMT, and whether VIDIOC_S_FMT may set one.

ghost use Rattle.std.specs.Prelude.{◌≡◌, is_some, slice_get};
ghost use Rattle.vc_base.specs.declared.Kind.{Kind};
ghost use Rattle.vc_geom.specs.Pairs.{pair_of, CanStand};
ghost use Rattle.vc_model.specs.Formats.{formats_listed};
ghost use Rattle.vc_model.specs.Context.{Context, format_of};
ghost use Rattle.vc_model.specs.Answer.{desc_answer, format_answer, try_answer, set_refusal};
ghost use Rattle.vc_context.specs.Contexts.{Gives};
ghost use Rattle.vc_m2m.specs.Parts.{ArePartsOf};

use crate::M2mContext;
use vc_base::{Format, Kind, Reply, Side};
use vc_context::replies::nothing_such;
use vc_geom::{Formats, enum_format, layout_of, try_format};

/// The format of a side.
pub fn format_of(formats: &Formats, side: Side) -> Format
    ensures { result ≡ format_of (pair_of formats.now) side }
{
    match side {
        Side::Out => formats.out,
        Side::Cap => formats.cap,
    }
}

impl M2mContext {
    /// A format of the list of a side. That of a decoder's CAPTURE has the raw formats of the present layout.
    pub(crate) fn enum_format(&self, kind: Kind, side: Side, index: u32) -> Reply
        ensures { (c : Context) → ArePartsOf c self.now → c.kind ≡ kind → Gives (desc_answer c (slice_get (formats_listed c.kind side c.formats) index)) result c }
    {
        let layout = layout_of(self.formats.cap.fourcc);
        match enum_format(kind, side, layout, index) {
            Some(fourcc) => Reply::Desc { fourcc },
            None => nothing_such(),
        }
    }

    /// The present format.
    pub(crate) fn get_format(&self, side: Side) -> Reply
        ensures { (c : Context) → ArePartsOf c self.now → Gives (format_answer c side) result c }
    {
        Reply::Fmt {
            format: format_of(&self.formats, side),
        }
    }

    /// The format that asking for one would set.
    pub(crate) fn try_format(&self, kind: Kind, side: Side, want: &Format) -> Reply
        requires { CanStand kind (pair_of self.now.formats) }
        ensures { (c : Context) → ArePartsOf c self.now → c.kind ≡ kind → Gives (try_answer c side want.now) result c }
    {
        let formats = try_format(kind, side, &self.formats, want);
        Reply::Fmt {
            format: format_of(&formats, side),
        }
    }

    /// Whether buffers keep the format of the side as it is.
    pub fn has_buffers(&self, side: Side) -> bool
        ensures { (c : Context) → ArePartsOf c self.now → result ≡ is_some (set_refusal c side) }
    {
        let captures = self.pair.queue(Side::Cap).buffers() > 0;
        match side {
            Side::Out => self.pair.queue(Side::Out).buffers() > 0 || captures,
            Side::Cap => captures,
        }
    }
}
