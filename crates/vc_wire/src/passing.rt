//! Passes replies on to a sink.

ghost use Rattle.std.specs.Prelude.{◌≡◌, [], OnOk, OnErr};
ghost use Rattle.std.specs.Io.KnownBytes.{Appends};
ghost use Rattle.vc_base.specs.Counts.{HasCause};
ghost use Rattle.vc_io.specs.Written.{AppendsFront, IsHandedOn};
ghost use Rattle.vc_wire.specs.Passing.{IsPassedOn};

use vc_io::{Sink, WriteFailed, write_whole};

/// So many bytes of replies are written without waiting for more.
const MANY: usize = 65_536;

/// Writes all replies.
fn write_all<K: Sink>(sink: &mut K, out: &mut Vec<u8>) -> Result<(), WriteFailed>
    ensures whole { OnOk result (Appends (K.written sink.old) (K.written sink.new) out.old.items) }
    ensures none { OnOk result (out.new.items ≡ []) }
    ensures front { OnErr result (AppendsFront (K.written sink.old) (K.written sink.new) out.old.items) }
    ensures cause { HasCause (K.faults sink.old) (K.faults sink.new) result }
{
    write_whole(sink, out.as_slice())?;
    out.clear();
    Ok(())
}

/// Writes all replies where they are many.
pub(crate) fn write_many<K: Sink>(sink: &mut K, out: &mut Vec<u8>) -> Result<(), WriteFailed>
    ensures passed { OnOk result (IsPassedOn (K.written sink.old) (K.written sink.new) out.old.items out.new.items) }
    ensures front { OnErr result (AppendsFront (K.written sink.old) (K.written sink.new) out.old.items) }
    ensures cause { HasCause (K.faults sink.old) (K.faults sink.new) result }
{
    if out.len() < MANY {
        return Ok(());
    }
    write_all(sink, out)
}

/// Writes all replies, and hands on all that was written.
pub(crate) fn hand_on<K: Sink>(sink: &mut K, out: &mut Vec<u8>) -> Result<(), WriteFailed>
    ensures whole { OnOk result (Appends (K.written sink.old) (K.written sink.new) out.old.items) }
    ensures none { OnOk result (out.new.items ≡ []) }
    ensures handed { OnOk result (IsHandedOn (K.handed sink.new) (K.written sink.new)) }
    ensures front { OnErr result (AppendsFront (K.written sink.old) (K.written sink.new) out.old.items) }
    ensures cause { HasCause (K.faults sink.old) (K.faults sink.new) result }
{
    write_all(sink, out)?;
    sink.flush()
}
