//! The pictures, how they are coded, and why coding stops.

use vc_base::fourccs::YU12;
use vc_base::{Format, NoMemory};
use vc_defs::{Geometry, Layout};
use vc_work::Rates;

/// The format of the pictures.
pub(crate) const FORMAT: Format = Format {
    fourcc: YU12,
    width: 352,
    height: 288,
    size: 152_064,
};

/// Their geometry.
pub(crate) const GEOMETRY: Geometry = Geometry {
    width: 352,
    height: 288,
    layout: Layout::C420,
};

/// The bytes of a picture.
pub(crate) const PICTURE_BYTES: usize = 152_064;

/// The most bytes of a frame: a header, and the planes, which have whole blocks without padding.
pub(crate) const FRAME_BYTES: usize = 152_108;

/// The rates that `encode` has without options.
pub(crate) const RATES: Rates = Rates {
    gop: 10,
    iqp: 20,
    pqp: 20,
};

/// The most turns of a loop over pictures or over runs, which no input comes to.
pub(crate) const MOST_TURNS: u64 = 1 << 40;

/// Why coding stopped before the end of the input.
#[derive(Clone, Copy, Debug, PartialEq, Eq)]
pub enum AloneStop {
    /// The source failed.
    ReadFault,
    /// The sink failed.
    WriteFault,
    /// The raw input ends inside a picture. The frames of the whole ones were written.
    ShortRaw,
    /// A frame gave no picture, or one of another geometry. The pictures before it were written.
    Damaged,
    /// There were 2^40 pictures, or runs of the decoder.
    TooLong,
    /// A growth of memory was refused.
    NoMemory,
}
