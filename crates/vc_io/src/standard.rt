ghost use Rattle.std.specs.Prelude.{◌≡◌, None};

use crate::{ReadFailed, Sink, Source, WriteFailed};
use std::io::{Read, Write};

/// Any reader as a source, such as standard input. It tells what is left where the reader does, and
/// each failure of the reader is one of the source.
#[derive(Drop)]
pub struct StdSource<I: Read> {
    input: I,
    faults: u64,
}

impl<I: Read> StdSource<I> {
    /// A source over the reader, with no failure so far.
    pub fn new(input: I) -> StdSource<I>
        ensures left { ⟦<StdSource<I> as Source>⟧.left result ≡ I.remaining input }
        ensures faults { ⟦<StdSource<I> as Source>⟧.faults result ≡ 0 }
    {
        StdSource { input, faults: 0 }
    }
}

impl<I: Read> Source for StdSource<I> {
    ghost left = { λ s. I.remaining s.input };

    ghost faults = { λ s. s.faults };

    fn read(&mut self, buf: &mut [u8]) -> Result<usize, ReadFailed> {
        match self.input.read(buf) {
            Ok(count) => Ok(count),
            Err(_) => {
                self.faults = self.faults.saturating_add(1);
                Err(ReadFailed)
            }
        }
    }
}

/// Any writer as a sink, such as standard output. It tells what was written where the writer does, and
/// doesn't tell what was handed on, since no writer does. A failure of the writer is one of the sink,
/// and so is a write that takes nothing of a piece that isn't empty. Each call is one of the writer.
#[derive(Drop)]
pub struct StdSink<O: Write> {
    output: O,
    faults: u64,
}

impl<O: Write> StdSink<O> {
    /// A sink over the writer, with no failure so far.
    pub fn new(output: O) -> StdSink<O>
        ensures written { ⟦<StdSink<O> as Sink>⟧.written result ≡ O.contents output }
        ensures faults { ⟦<StdSink<O> as Sink>⟧.faults result ≡ 0 }
    {
        StdSink { output, faults: 0 }
    }
}

impl<O: Write> Sink for StdSink<O> {
    ghost written = { λ s. O.contents s.output };

    ghost handed = { λ s. None };

    ghost faults = { λ s. s.faults };

    fn write(&mut self, bytes: &[u8]) -> Result<usize, WriteFailed> {
        match self.output.write(bytes) {
            Ok(count) if count > 0 || bytes.is_empty() => Ok(count),
            _ => {
                self.faults = self.faults.saturating_add(1);
                Err(WriteFailed)
            }
        }
    }

    fn flush(&mut self) -> Result<(), WriteFailed> {
        if self.output.flush().is_err() {
            self.faults = self.faults.saturating_add(1);
            return Err(WriteFailed);
        }
        Ok(())
    }
}
