//! Laws of what a decoder keeps, proved from the definitions alone.

ghost use Rattle.vc_work.specs.Streams.{BeginsInStep, KeepsGeometry};

/// An assembly that keeps nothing, a reference without a picture and any geometry or none are in step: so a decoder may
/// begin.
pub fn begins_in_step()
    ensures { BeginsInStep }
{}

/// Where what is kept of a stream belongs together, its picture is of the stream's geometry: so a change of geometry
/// leaves none.
pub fn keeps_geometry()
    ensures { KeepsGeometry }
{}
