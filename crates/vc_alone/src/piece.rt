//! The piece of a stream that was read last.

ghost use Rattle.std.specs.Prelude.{◌≡◌, ◌≤◌, ◌+◌, ◌<◌, true, false, length, IfOk, OnOk, vec_len};
ghost use Rattle.vc_base.specs.Counts.{HasCause};

use std::alloc::Global;
use vc_base::NoMemory;
use vc_io::{ReadFailed, Source};

/// The most bytes that are read at once, as many as `decode` reads.
const PIECE: usize = 65_536;

/// Bytes that were read, `count` of them, of which those before `at` are decoded.
#[derive(Drop)]
pub(crate) struct Piece {
    pub(crate) bytes: Vec<u8>,
    pub(crate) at: usize,
    pub(crate) count: usize,
    ghost inside: { at ≤ count },
    ghost fits: { count ≤ vec_len bytes },
}

impl Piece {
    /// Before the first read.
    ///
    /// # Errors
    /// `NoMemory` where no memory is found.
    pub(crate) fn make(alloc: Global) -> Result<Piece, NoMemory>
        ensures room { IfOk result (λ piece. vec_len piece.bytes ≡ 65536) }
        ensures nothing { IfOk result (λ piece. piece.count ≡ 0) }
    {
        let Ok(bytes) = vec![in alloc; 0; PIECE] else {
            return Err(NoMemory);
        };
        Ok(Piece {
            bytes,
            at: 0,
            count: 0,
        })
    }

    /// The bytes that are not decoded.
    pub(crate) fn rest(&self) -> &[u8]
        ensures { length result.now + self.now.at ≡ self.now.count }
    {
        &self.bytes[self.at..self.count]
    }

    /// So many more bytes are decoded.
    pub(crate) fn pass(&mut self, taken: usize)
        requires { self.old.at + taken ≤ self.old.count }
        ensures at { self.new.at ≡ self.old.at + taken }
        ensures count { self.new.count ≡ self.old.count }
        ensures bytes { self.new.bytes ≡ self.old.bytes }
    {
        self.at += taken;
    }

    /// Whether there are bytes to decode. Where all are, it reads the next ones, and there are none at the end of the
    /// input.
    pub(crate) fn has_rest<S: Source>(&mut self, source: &mut S) -> Result<bool, ReadFailed>
        ensures rest { IfOk result (λ more. more ≡ true → self.new.at < self.new.count) }
        ensures quiet { OnOk result (S.faults source.new ≡ S.faults source.old) }
        ensures cause { HasCause (S.faults source.old) (S.faults source.new) result }
    {
        if self.at < self.count {
            return Ok(true);
        }
        let count = source.read(&mut self.bytes)?;
        self.at = 0;
        self.count = count;
        Ok(count > 0)
    }
}
