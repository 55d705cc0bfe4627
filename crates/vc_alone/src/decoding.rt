//! Decodes frames.

ghost use Rattle.std.specs.Prelude.{◌≡◌, length, Some, IfOk, IfErr, OnOk, IsErrOf};
ghost use Rattle.vc_base.specs.Counts.{Rose};
ghost use Rattle.vc_defs.specs.declared.Geometry.{Geometry};
ghost use Rattle.vc_defs.specs.Raw.{geometry_of};
ghost use Rattle.vc_stream_run.specs.Running.{IsInStep};
ghost use Rattle.vc_alone.specs.Pictures.{picture_format};

use crate::pictures::{AloneStop, FORMAT, GEOMETRY, MOST_TURNS, PICTURE_BYTES};
use crate::piece::Piece;
use std::alloc::Global;
use vc_base::{NoMemory, Stamp};
use vc_coder::BlockCoder;
use vc_io::{Sink, Source, write_whole};
use vc_stream_run::{Decoded, decode_run};
use vc_work::laws::begins_in_step;
use vc_work::{Assembly, Reference};

/// What a decoder keeps, which has begun anew, for bodies and pictures of so many bytes.
fn fresh_decoder(alloc: Global, size: u32) -> Result<(Assembly, Reference), NoMemory>
    ensures in_step { IfOk result (λ both. (g : Geometry) → IsInStep both.0.limit (Some g) both.1.state.reference both.0.kept) }
    ensures area { IfOk result (λ both. both.1.size ≡ size) }
{
    begins_in_step();
    let assembly = Assembly::make(alloc, size)?;
    let reference = Reference::make(alloc, size)?;
    Ok((assembly, reference))
}

/// A run of the decoder over what is left of the piece. Tells whether it gave a picture, which then stands in `picture`.
fn next_result<C: BlockCoder>(
    coder: &C,
    assembly: &mut Assembly,
    reference: &mut Reference,
    piece: &mut Piece,
    picture: &mut [u8],
) -> Result<bool, AloneStop>
    requires in_step { IsInStep assembly.old.limit (Some (geometry_of picture_format)) reference.old.state.reference assembly.old.kept }
    requires area { reference.old.size ≡ 152064 }
    requires room { length picture.old ≡ 152064 }
    ensures in_step { IfOk result (λ _. IsInStep assembly.new.limit (Some (geometry_of picture_format)) reference.new.state.reference assembly.new.kept) }
    ensures area { reference.new.size ≡ 152064 }
    ensures stops { IfErr result (λ stop. stop ≡ AloneStop.Damaged) }
{
    let (taken, decoded) = decode_run(
        coder,
        assembly,
        reference,
        &GEOMETRY,
        piece.rest(),
        Stamp(0),
        &FORMAT,
        picture,
    );
    piece.pass(taken);
    match decoded {
        Decoded::Picture { .. } => Ok(true),
        Decoded::Spent => Ok(false),
        Decoded::Damaged { .. } | Decoded::Changed { .. } => Err(AloneStop::Damaged),
    }
}

/// Decodes what is left of the piece, or of the next one, up to the next result, and writes its picture. Tells whether
/// there was anything to decode.
fn show_next<C: BlockCoder, S: Source, K: Sink>(
    coder: &C,
    source: &mut S,
    sink: &mut K,
    assembly: &mut Assembly,
    reference: &mut Reference,
    piece: &mut Piece,
    picture: &mut [u8],
) -> Result<bool, AloneStop>
    requires in_step { IsInStep assembly.old.limit (Some (geometry_of picture_format)) reference.old.state.reference assembly.old.kept }
    requires area { reference.old.size ≡ 152064 }
    requires room { length picture.old ≡ 152064 }
    ensures in_step { IfOk result (λ _. IsInStep assembly.new.limit (Some (geometry_of picture_format)) reference.new.state.reference assembly.new.kept) }
    ensures area { reference.new.size ≡ 152064 }
    ensures room { length picture.new ≡ 152064 }
    ensures read { IsErrOf result AloneStop.ReadFault → Rose (S.faults source.old) (S.faults source.new) }
    ensures write { IsErrOf result AloneStop.WriteFault → Rose (K.faults sink.old) (K.faults sink.new) }
    ensures read_on { OnOk result (S.faults source.new ≡ S.faults source.old) }
    ensures wrote_on { OnOk result (K.faults sink.new ≡ K.faults sink.old) }
{
    match piece.has_rest(source) {
        Ok(true) => {}
        Ok(false) => return Ok(false),
        Err(_) => return Err(AloneStop::ReadFault),
    }
    match next_result(coder, assembly, reference, piece, picture) {
        Ok(true) => {}
        Ok(false) => return Ok(true),
        Err(stop) => return Err(stop),
    }
    match write_whole(sink, picture) {
        Ok(()) => Ok(true),
        Err(_) => Err(AloneStop::WriteFault),
    }
}

/// Decodes up to one result after another.
fn show_all<C: BlockCoder, S: Source, K: Sink>(
    coder: &C,
    source: &mut S,
    sink: &mut K,
    assembly: &mut Assembly,
    reference: &mut Reference,
    piece: &mut Piece,
    picture: &mut [u8],
) -> Result<(), AloneStop>
    requires in_step { IsInStep assembly.old.limit (Some (geometry_of picture_format)) reference.old.state.reference assembly.old.kept }
    requires area { reference.old.size ≡ 152064 }
    requires room { length picture.old ≡ 152064 }
    ensures read { IsErrOf result AloneStop.ReadFault → Rose (S.faults source.old) (S.faults source.new) }
    ensures write { IsErrOf result AloneStop.WriteFault → Rose (K.faults sink.old) (K.faults sink.new) }
{
    for _turn in 0..MOST_TURNS {
        match show_next(coder, source, sink, assembly, reference, piece, picture) {
            Ok(true) => {}
            Ok(false) => return Ok(()),
            Err(stop) => return Err(stop),
        }
    }
    Err(AloneStop::TooLong)
}

/// Decodes the frames of the source, one after another, and writes their pictures.
///
/// # Errors
/// Why it stopped before it had read all of them.
pub fn decode_alone<C: BlockCoder, S: Source, K: Sink>(
    alloc: Global,
    coder: &C,
    source: &mut S,
    sink: &mut K,
) -> Result<(), AloneStop>
    ensures read { IsErrOf result AloneStop.ReadFault → Rose (S.faults source.old) (S.faults source.new) }
    ensures write { IsErrOf result AloneStop.WriteFault → Rose (K.faults sink.old) (K.faults sink.new) }
{
    let Ok(mut piece) = Piece::make(alloc) else {
        return Err(AloneStop::NoMemory);
    };
    let Ok(mut picture) = vec![in alloc; 0; PICTURE_BYTES] else {
        return Err(AloneStop::NoMemory);
    };
    let Ok((mut assembly, mut reference)) = fresh_decoder(alloc, FORMAT.size) else {
        return Err(AloneStop::NoMemory);
    };
    show_all(
        coder,
        source,
        sink,
        &mut assembly,
        &mut reference,
        &mut piece,
        &mut picture,
    )
}
