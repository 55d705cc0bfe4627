//! Runs whose output is handed on at their end.

ghost use Rattle.std.specs.Prelude.{◌≡◌, ◌≢◌, vec_len, drop, IfErr};
ghost use Rattle.std.specs.Io.KnownBytes.{Keeps};
ghost use Rattle.vc_base.specs.Counts.{Rose};
ghost use Rattle.vc_io.specs.Written.{IsHandedOn};
ghost use Rattle.vc_top.specs.Commands.{AsksNothing};
ghost use Rattle.vc_top.specs.Engines.{engines_used};
ghost use Rattle.vc_top.specs.Runs.{asked};

use std::alloc::Global;
use std::io::{self, BufWriter, Printer};
use std::sync::Wait;
use std::thread::Threads;
use vc_core::Engine;
use vc_io::{Sink, Source, StdSink, StdSource};
use vc_top::{Status, top};

/// The bytes of output that are kept back before they are handed on.
const OUTPUT_BUFFER: usize = 65_536;

/// Hands on what a run wrote that ended so, and tells how it ended with that. Where the output can't be handed on it is a
/// write fault, however the run ended.
pub fn handed_on<K: Sink>(status: Status, sink: &mut K) -> Status
    ensures status { result ≢ Status.WriteFault → result ≡ status }
    ensures handed { result ≢ Status.WriteFault → IsHandedOn (K.handed sink.new) (K.written sink.new) }
    ensures written { Keeps (K.written sink.old) (K.written sink.new) }
    ensures quiet { result ≢ Status.WriteFault → K.faults sink.new ≡ K.faults sink.old }
    ensures cause { result ≡ Status.WriteFault → status ≢ Status.WriteFault → Rose (K.faults sink.old) (K.faults sink.new) }
{
    match sink.flush() {
        Ok(()) => status,
        Err(_) => Status::WriteFault,
    }
}

/// Does what the words ask for, by [`top`], and hands on at the end all that was written.
pub fn run_whole<R: Threads + Wait + Sync, S: Source, K: Sink, E: Engine + Send>(
    rt: &R,
    alloc: Global,
    words: &[String],
    source: &mut S,
    sink: &mut K,
    engines: &mut Vec<E>,
) -> Status
    requires { vec_len engines.old ≡ 16 }
    ensures usage { result ≡ Status.Usage → AsksNothing (asked words.now) }
    ensures handed { result ≢ Status.WriteFault → IsHandedOn (K.handed sink.new) (K.written sink.new) }
    ensures read { result ≡ Status.ReadFault → Rose (S.faults source.old) (S.faults source.new) }
    ensures crew { vec_len engines.new ≡ 16 }
    ensures others { drop (engines_used (asked words.now)) engines.new.items ≡ drop (engines_used (asked words.now)) engines.old.items }
{
    let status = top(rt, alloc, words, source, sink, engines);
    handed_on(status, sink)
}

/// Standard output as a sink, which keeps back 65,536 bytes at most.
///
/// # Errors
/// `NoMemory` where a growth of memory was refused.
pub fn standard_sink<R: Print + Alloc<A = Global>>(
    rt: &R,
) -> Result<StdSink<BufWriter<Printer<'_, R>>>, Status>
    ensures { IfErr result (λ status. status ≡ Status.NoMemory) }
{
    match BufWriter::with_capacity(rt.alloc(), OUTPUT_BUFFER, io::writer(rt)) {
        Ok(output) => Ok(StdSink::new(output)),
        Err(_) => Err(Status::NoMemory),
    }
}

/// Does what the words ask for, from standard input to standard output.
pub fn run_standard<R: Threads + Wait + Sync + Input + Print + Alloc<A = Global>, E: Engine + Send>(
    rt: &R,
    words: &[String],
    engines: &mut Vec<E>,
) -> Status
    requires { vec_len engines.old ≡ 16 }
    ensures usage { result ≡ Status.Usage → AsksNothing (asked words.now) }
    ensures crew { vec_len engines.new ≡ 16 }
{
    let mut source = StdSource::new(rt.reader());
    match standard_sink(rt) {
        Ok(mut sink) => run_whole(rt, rt.alloc(), words, &mut source, &mut sink, engines),
        Err(status) => status,
    }
}
