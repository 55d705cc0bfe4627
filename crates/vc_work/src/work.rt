//! What a job works on.

use crate::reference::Reference;
use vc_base::{Format, Stamp};
use vc_defs::Geometry;
use vc_resync::Assembly;

/// What is to be done in a run.
#[derive(Clone, Copy, Debug, PartialEq, Eq)]
pub enum Sort {
    /// The bytes of the source go to the destination as they are.
    Copy,
    /// The picture of the source becomes the next frame of an encoder.
    Encode,
    /// The bytes of the source are looked through for the first header of an I frame, which tells the geometry.
    Probe,
    /// The bytes of the source are consumed up to a decoder's next result.
    Decode,
}

/// An OUTPUT buffer on its way through a job. Of its payload the first `used` bytes count, and a decoder
/// has consumed the first `cursor` bytes. `stamp` is the timestamp that the buffer was queued with.
#[derive(Drop)]
pub struct Piece {
    pub payload: Vec<u8>,
    pub used: u32,
    pub cursor: u32,
    pub stamp: Stamp,
}

/// What the controls of an encoder ask for: every so many frames is an I frame (1 to 16), and the
/// quantiser of I frames and of P frames (1 to 31).
#[derive(Clone, Copy, Debug, PartialEq, Eq)]
pub struct Rates {
    pub gop: u32,
    pub iqp: u32,
    pub pqp: u32,
}

/// All that a run needs. The destination is the payload of a CAPTURE buffer; every run but a probe has one.
/// `reference` is what the codec keeps from frame to frame, which encode runs and decode runs need; `assembly` is
/// what a decoder keeps of the bytes of its stream, which probes and decode runs need, and `geometry` the
/// decoder's geometry, once it is known. `format` is the format that counts in the run, that of OUTPUT in an
/// encode run and that of CAPTURE in every other one; `limit` is the size of OUTPUT's format in bytes, which
/// is a decoder's bound on the body of a frame.
#[derive(Drop)]
pub struct Work {
    pub sort: Sort,
    pub source: Piece,
    pub dest: Option<Vec<u8>>,
    pub reference: Option<Reference>,
    pub geometry: Option<Geometry>,
    pub assembly: Option<Assembly>,
    pub format: Format,
    pub limit: u32,
    pub rates: Rates,
}
