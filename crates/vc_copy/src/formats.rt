//! Formats: VIDIOC_ENUM_FMT, VIDIOC_G_FMT, VIDIOC_TRY_FMT and VIDIOC_S_FMT.

ghost use Rattle.std.specs.Prelude.{◌≡◌, is_some, slice_get};
ghost use Rattle.vc_model.specs.Formats.{formats_for, formats_listed, clamp, size_or};
ghost use Rattle.vc_model.specs.Answer.{desc_answer, format_answer, try_answer, set_refusal, set_answer};
ghost use Rattle.vc_base.specs.Limits.{most_bytes, usual_size};
ghost use Rattle.vc_context.specs.Contexts.{Gives, IsKept, IsStep};
ghost use Rattle.vc_copy.specs.Copying.{data_bytes, data_formats};

use crate::Copier;
use vc_base::limits::{MOST_BYTES, USUAL_SIZE};
use vc_base::{Errno, Format, Fourcc, Reply, Side};

/// The format with buffers of that size.
pub(crate) fn data_format(size: u32) -> Format
    ensures { result ≡ data_bytes size }
{
    Format {
        fourcc: Fourcc(*b"DATA"),
        width: 0,
        height: 0,
        size,
    }
}

/// The size that is set where this one is asked for.
fn size_set(asked: u32) -> u32
    ensures { result ≡ clamp 1 most_bytes (size_or asked usual_size) }
{
    let size = if asked == 0 { USUAL_SIZE } else { asked };
    size.min(MOST_BYTES).max(1)
}

impl Copier {
    /// The format of the list of one.
    pub(crate) fn enum_format(&self, side: Side, index: u32) -> Reply
        ensures { Gives (desc_answer self.now (slice_get (formats_listed self.now.kind side self.now.formats) index)) result self.now }
    {
        let format = data_format(self.size);
        if index > 0 {
            return Reply::Refused {
                errno: Errno::Inval,
            };
        }
        Reply::Desc {
            fourcc: format.fourcc,
        }
    }

    /// The present format.
    pub(crate) fn format(&self, side: Side) -> Reply
        ensures { Gives (format_answer self.now side) result self.now }
    {
        Reply::Fmt {
            format: data_format(self.size),
        }
    }

    /// The size of buffers where that format is asked for.
    fn size_for(&self, side: Side, want: &Format) -> u32
        ensures { data_formats result ≡ formats_for self.now.kind side self.now.formats want.now }
    {
        match side {
            Side::Out => size_set(want.size),
            Side::Cap => self.size,
        }
    }

    /// The format that asking for one would set.
    pub(crate) fn try_format(&self, side: Side, want: &Format) -> Reply
        ensures { Gives (try_answer self.now side want.now) result self.now }
    {
        Reply::Fmt {
            format: data_format(self.size_for(side, want)),
        }
    }

    /// Whether buffers keep the format of the side as it is.
    fn has_buffers(&self, side: Side) -> bool
        ensures { result ≡ is_some (set_refusal self.now side) }
    {
        match side {
            Side::Out => self.out.buffers() > 0 || self.cap.buffers() > 0,
            Side::Cap => self.cap.buffers() > 0,
        }
    }

    /// Sets the format, of both sides.
    pub(crate) fn set_format(&mut self, side: Side, want: &Format) -> Reply
        requires kept { IsKept self.old }
        ensures answers { Gives (set_answer self.old side want.now) result self.new }
        ensures step { IsStep self.old self.new }
        ensures queues { (self.new.out ≡ self.old.out) × (self.new.cap ≡ self.old.cap) }
    {
        if self.has_buffers(side) {
            return Reply::Refused { errno: Errno::Busy };
        }
        let size = self.size_for(side, want);
        self.size = size;
        Reply::Fmt {
            format: data_format(size),
        }
    }
}
