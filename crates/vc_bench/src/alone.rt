//! The codec alone, from standard input to standard output.

use crate::reading::Way;
use std::alloc::Global;
use vc_alone::{AloneStop, decode_alone, encode_alone};
use vc_coder::{BlockCoder, TransformCoder};
use vc_engines::EngineKind;
use vc_fwht::{FastTransform, PlainTransform};
use vc_host::{handed_on, standard_sink};
use vc_io::StdSource;
use vc_lanes::LaneCoder;
use vc_top::Status;

/// The status of a run that ended so.
fn status_of(end: Result<(), AloneStop>) -> Status {
    match end {
        Ok(()) => Status::Fine,
        Err(AloneStop::ReadFault) => Status::ReadFault,
        Err(AloneStop::WriteFault) => Status::WriteFault,
        Err(AloneStop::ShortRaw) => Status::ShortRaw,
        Err(AloneStop::Damaged) => Status::Damaged,
        Err(AloneStop::TooLong) => Status::TooLong,
        Err(AloneStop::NoMemory) => Status::NoMemory,
    }
}

/// Codes or decodes with a coder of blocks.
fn run_with<C: BlockCoder, R: Input + Print + Alloc<A = Global>>(
    rt: &R,
    coder: &C,
    way: Way,
) -> Status {
    let mut source = StdSource::new(rt.reader());
    let mut sink = match standard_sink(rt) {
        Ok(sink) => sink,
        Err(status) => return status,
    };
    let alloc = rt.alloc();
    let end = match way {
        Way::Encode => encode_alone(alloc, coder, &mut source, &mut sink),
        Way::Decode => decode_alone(alloc, coder, &mut source, &mut sink),
    };
    handed_on(status_of(end), &mut sink)
}

/// Codes or decodes with the coder of blocks that engines of the kind have.
pub(crate) fn run_alone<R: Input + Print + Alloc<A = Global>>(
    rt: &R,
    kind: EngineKind,
    way: Way,
) -> Status {
    match kind {
        EngineKind::Lane => run_with(rt, &LaneCoder, way),
        EngineKind::Plain => run_with(rt, &TransformCoder(PlainTransform), way),
        EngineKind::Fast => run_with(rt, &TransformCoder(FastTransform), way),
    }
}
