//! The command `wire`.

ghost use Rattle.std.specs.Prelude.{◌≡◌, ◌≢◌, ◌<◌, ◌≤◌, ◌∷◌, []};
ghost use Rattle.vc_base.specs.Counts.{Rose};
ghost use Rattle.vc_base.specs.Limits.{most_slots};
ghost use Rattle.vc_crew.specs.Counts.{counts_of};
ghost use Rattle.vc_top.specs.Commands.{WireDoes};
ghost use Rattle.vc_top.specs.Runs.{seen};
ghost use Rattle.vc_top.specs.Wires.{wire_status};

use crate::status::Status;
use std::alloc::Global;
use vc_core::Engine;
use vc_io::{Sink, Source};
use vc_wire::{WireEnd, wire_run};

/// The status of the wire's end.
fn wire_status(end: WireEnd) -> Status
    ensures { result ≡ wire_status end }
{
    match end {
        WireEnd::Whole => Status::Fine,
        WireEnd::BadMessage { at } => Status::BadMessage { at },
        WireEnd::ReadFault => Status::ReadFault,
        WireEnd::WriteFault => Status::WriteFault,
        WireEnd::EngineFault => Status::EngineFault,
        WireEnd::TooLong => Status::TooLong,
        WireEnd::NoMemory => Status::NoMemory,
    }
}

/// Serves a device over a stream of messages: the source brings them, and one reply for each is written, in order. Before
/// each read all replies are written and handed on. The input has fewer than 2^40 bytes.
pub(crate) fn serve_run<S: Source, K: Sink, E: Engine>(
    alloc: Global,
    slots: u32,
    source: &mut S,
    sink: &mut K,
    engine: &mut E,
) -> Status
    requires { (0 < slots) × (slots ≤ most_slots) }
    ensures does { let counts = counts_of E.run_count E.fault_count in
        let before = seen (S.left source.old) (S.faults source.old) (K.written sink.old) (K.faults sink.old) (counts (engine.old ∷ [])) in
        let after = seen (S.left source.new) (S.faults source.new) (K.written sink.new) (K.faults sink.new) (counts (engine.new ∷ [])) in
        WireDoes slots (record { before = before; after = after; status = result }) }
    ensures read { result ≡ Status.ReadFault → Rose (S.faults source.old) (S.faults source.new) }
    ensures write { result ≡ Status.WriteFault → Rose (K.faults sink.old) (K.faults sink.new) }
    ensures words { result ≢ Status.Usage }
    ensures runs_stay { E.run_count engine.old ≤ E.run_count engine.new }
    ensures faults_stay { E.fault_count engine.old ≤ E.fault_count engine.new }
{
    wire_status(wire_run(alloc, slots, source, sink, engine))
}
