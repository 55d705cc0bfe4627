//! Codes pictures.

ghost use Rattle.std.specs.Prelude.{◌≡◌, length, OnOk, IfOk, IsErrOf};
ghost use Rattle.std.specs.Io.KnownBytes.{Appends};
ghost use Rattle.vc_base.specs.Counts.{HasCause, Rose};
ghost use Rattle.vc_defs.specs.Encoder.{encode, default_rates, fresh_encoder};
ghost use Rattle.vc_defs.specs.Raw.{geometry_of};
ghost use Rattle.vc_work.specs.Runs.{HasGeometry};
ghost use Rattle.vc_alone.specs.Pictures.{picture_format};
ghost use Rattle.vc_alone.specs.Coded.{TurnCodes, AreCoded};

use crate::pictures::{AloneStop, FORMAT, FRAME_BYTES, MOST_TURNS, PICTURE_BYTES, RATES};
use crate::reading::read_picture;
use std::alloc::Global;
use vc_coder::BlockCoder;
use vc_frame::encode_frame;
use vc_io::{Sink, Source, WriteFailed, write_whole};
use vc_work::Reference;

/// Codes the picture as the next frame, and writes it.
fn write_next<C: BlockCoder, K: Sink>(
    coder: &C,
    picture: &[u8],
    frame: &mut [u8],
    reference: &mut Reference,
    sink: &mut K,
) -> Result<(), WriteFailed>
    requires picture { length picture.now ≡ 152064 }
    requires frame { length frame.old ≡ 152108 }
    requires area { reference.old.size ≡ 152064 }
    requires same { HasGeometry (geometry_of picture_format) reference.old.state.reference }
    ensures area { reference.new.size ≡ 152064 }
    ensures same { HasGeometry (geometry_of picture_format) reference.new.state.reference }
    ensures state { reference.new.state ≡ (encode reference.old.state picture_format default_rates picture.now).state }
    ensures written { OnOk result (Appends (K.written sink.old) (K.written sink.new) (encode reference.old.state picture_format default_rates picture.now).bytes) }
    ensures quiet { OnOk result (K.faults sink.new ≡ K.faults sink.old) }
    ensures cause { HasCause (K.faults sink.old) (K.faults sink.new) result }
{
    let (length, _key) = encode_frame(coder, picture, &FORMAT, &RATES, reference, frame);
    write_whole(sink, &frame[..length])
}

/// Reads the next picture, codes it and writes its frame. Tells whether there was one.
fn code_next<C: BlockCoder, S: Source, K: Sink>(
    coder: &C,
    source: &mut S,
    sink: &mut K,
    picture: &mut [u8],
    frame: &mut [u8],
    reference: &mut Reference,
) -> Result<bool, AloneStop>
    requires picture { length picture.old ≡ 152064 }
    requires frame { length frame.old ≡ 152108 }
    requires area { reference.old.size ≡ 152064 }
    requires same { HasGeometry (geometry_of picture_format) reference.old.state.reference }
    ensures picture { length picture.new ≡ 152064 }
    ensures frame { length frame.new ≡ 152108 }
    ensures area { reference.new.size ≡ 152064 }
    ensures same { HasGeometry (geometry_of picture_format) reference.new.state.reference }
    ensures read { IsErrOf result AloneStop.ReadFault → Rose (S.faults source.old) (S.faults source.new) }
    ensures write { IsErrOf result AloneStop.WriteFault → Rose (K.faults sink.old) (K.faults sink.new) }
    ensures read_on { OnOk result (S.faults source.new ≡ S.faults source.old) }
    ensures wrote_on { OnOk result (K.faults sink.new ≡ K.faults sink.old) }
    ensures coded { IfOk result (λ more. TurnCodes more (S.left source.old) (S.left source.new) (K.written sink.old) (K.written sink.new) reference.old.state reference.new.state) }
{
    let count = match read_picture(source, picture) {
        Ok(count) => count,
        Err(_) => return Err(AloneStop::ReadFault),
    };
    if count == 0 {
        return Ok(false);
    }
    if count < picture.len() {
        return Err(AloneStop::ShortRaw);
    }
    match write_next(coder, picture, frame, reference, sink) {
        Ok(()) => Ok(true),
        Err(_) => Err(AloneStop::WriteFault),
    }
}

/// Codes one picture after another.
fn code_all<C: BlockCoder, S: Source, K: Sink>(
    coder: &C,
    source: &mut S,
    sink: &mut K,
    picture: &mut [u8],
    frame: &mut [u8],
    reference: &mut Reference,
) -> Result<(), AloneStop>
    requires picture { length picture.old ≡ 152064 }
    requires frame { length frame.old ≡ 152108 }
    requires area { reference.old.size ≡ 152064 }
    requires same { HasGeometry (geometry_of picture_format) reference.old.state.reference }
    ensures read { IsErrOf result AloneStop.ReadFault → Rose (S.faults source.old) (S.faults source.new) }
    ensures write { IsErrOf result AloneStop.WriteFault → Rose (K.faults sink.old) (K.faults sink.new) }
    ensures coded { OnOk result (AreCoded reference.old.state (S.left source.old) (S.left source.new) (K.written sink.old) (K.written sink.new)) }
{
    for _turn in 0..MOST_TURNS {
        match code_next(coder, source, sink, picture, frame, reference) {
            Ok(true) => {}
            Ok(false) => return Ok(()),
            Err(stop) => return Err(stop),
        }
    }
    Err(AloneStop::TooLong)
}

/// Codes the raw pictures of the source, one after another, and writes their frames.
///
/// # Errors
/// Why it stopped before it had coded all of them.
pub fn encode_alone<C: BlockCoder, S: Source, K: Sink>(
    alloc: Global,
    coder: &C,
    source: &mut S,
    sink: &mut K,
) -> Result<(), AloneStop>
    ensures read { IsErrOf result AloneStop.ReadFault → Rose (S.faults source.old) (S.faults source.new) }
    ensures write { IsErrOf result AloneStop.WriteFault → Rose (K.faults sink.old) (K.faults sink.new) }
    ensures coded { OnOk result (AreCoded fresh_encoder (S.left source.old) (S.left source.new) (K.written sink.old) (K.written sink.new)) }
{
    let Ok(mut picture) = vec![in alloc; 0; PICTURE_BYTES] else {
        return Err(AloneStop::NoMemory);
    };
    let Ok(mut frame) = vec![in alloc; 0; FRAME_BYTES] else {
        return Err(AloneStop::NoMemory);
    };
    let Ok(mut reference) = Reference::make(alloc, FORMAT.size) else {
        return Err(AloneStop::NoMemory);
    };
    code_all(
        coder,
        source,
        sink,
        &mut picture,
        &mut frame,
        &mut reference,
    )
}
