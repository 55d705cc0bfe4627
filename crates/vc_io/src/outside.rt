ghost use Rattle.std.specs.Prelude.{◌≡◌, ◌<◌, List, ℕ, Option, length, IfOk, OnOk, OnErr};
ghost use Rattle.std.specs.Io.{ReadsAtMost, WritesAtMost};
ghost use Rattle.std.specs.Io.KnownBytes.{Appends, Keeps, ReadConsumes, WriteAppends};
ghost use Rattle.vc_base.specs.Counts.{HasCause};
ghost use Rattle.vc_io.specs.Written.{AppendsFront, IsFrontOf, IsHandedOn};

use thiserror::Error;

/// The source failed: its count of faults has risen, or stands at 2^64 - 1.
#[derive(Clone, Copy, Debug, Error)]
#[error("read fault")]
pub struct ReadFailed;

/// The sink failed: its count of faults has risen, or stands at 2^64 - 1.
#[derive(Clone, Copy, Debug, Error)]
#[error("write fault")]
pub struct WriteFailed;

/// Where bytes come from.
pub trait Source {
    /// The bytes that are left, where the source tells them.
    ghost left: { Self → Option (List ℕ) };

    /// How often it has failed. It never falls.
    ghost faults: { Self → ℕ };

    /// Puts the next bytes at the front of `buf`, and tells how many. 0 for a buffer that isn't empty
    /// is the end of the input. After a failure nothing was taken. No failure is passed over: after Ok the count of
    /// faults is what it was.
    fn read(&mut self, buf: &mut [u8]) -> Result<usize, ReadFailed>
        ensures bound { ReadsAtMost result buf.new }
        ensures bytes { ReadConsumes (left self.old) (left self.new) result buf.new }
        ensures cause { HasCause (faults self.old) (faults self.new) result }
        ensures quiet { OnOk result (faults self.new ≡ faults self.old) };
}

/// Where bytes go. A sink may keep back what was written until it is told to hand it on.
pub trait Sink {
    /// The bytes that were written, where the sink tells them.
    ghost written: { Self → Option (List ℕ) };

    /// The bytes that were handed on, where the sink tells them: what was written, but for what it keeps back.
    ghost handed: { Self → Option (List ℕ) };

    /// How often it has failed. It never falls.
    ghost faults: { Self → ℕ };

    /// Takes bytes from the front of the piece, at least one where there is one, and tells how many.
    /// After a failure nothing was written. No failure is passed over.
    fn write(&mut self, bytes: &[u8]) -> Result<usize, WriteFailed>
        ensures bound { WritesAtMost result bytes.now }
        ensures progress { IfOk result (λ n. 0 < length bytes.now → 0 < n) }
        ensures bytes { WriteAppends (written self.old) (written self.new) result bytes.now }
        ensures handed { IsFrontOf (handed self.new) (written self.new) }
        ensures grows { IsFrontOf (handed self.old) (handed self.new) }
        ensures cause { HasCause (faults self.old) (faults self.new) result }
        ensures quiet { OnOk result (faults self.new ≡ faults self.old) };

    /// Hands on all that was written. Where that fails, what was not handed on is kept.
    fn flush(&mut self) -> Result<(), WriteFailed>
        ensures written { Keeps (written self.old) (written self.new) }
        ensures all { OnOk result (IsHandedOn (handed self.new) (written self.new)) }
        ensures handed { IsFrontOf (handed self.new) (written self.new) }
        ensures grows { IsFrontOf (handed self.old) (handed self.new) }
        ensures cause { HasCause (faults self.old) (faults self.new) result }
        ensures quiet { OnOk result (faults self.new ≡ faults self.old) };
}

/// Writes the whole piece; the sink may keep it back. After a failure a prefix of it was written.
pub fn write_whole<K: Sink>(sink: &mut K, bytes: &[u8]) -> Result<(), WriteFailed>
    ensures whole { OnOk result (Appends (K.written sink.old) (K.written sink.new) bytes.now) }
    ensures front { OnErr result (AppendsFront (K.written sink.old) (K.written sink.new) bytes.now) }
    ensures cause { HasCause (K.faults sink.old) (K.faults sink.new) result }
    ensures quiet { OnOk result (K.faults sink.new ≡ K.faults sink.old) }
{
    let mut rest = bytes;
    while !rest.is_empty() {
        let count = sink.write(rest)?;
        rest = &rest[count..];
    }
    Ok(())
}
