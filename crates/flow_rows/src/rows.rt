//! The flows of `encode` and `decode`, whose jobs run on the caller's thread each time the flow waits.

ghost use Rattle.std.specs.Prelude.{◌≡◌, None};
ghost use Rattle.vc_port.specs.Payloads.{slot_after};
ghost use Rattle.vc_shared.specs.AsStation.{station_job};
ghost use Rattle.vc_shared.specs.Handles.{slot_events, IsHandle};
ghost use Rattle.vc_worker.specs.Both.{IfThere};

use crate::device::one_and_one;
use crate::log::{CAP_QUEUED, CAP_STREAMS, CAP_TAKEN, Log, OUT_QUEUED, OUT_STREAMS, READ, WAITED};
use crate::noted::{NotedPort, NotedSource};
use std::alloc::Global;
use std::process::Abort;
use std::sync::Wait;
use std::test::Fail;
use vc_base::{Format, Fourcc};
use vc_core::Rates;
use vc_decode_flow::decode_on;
use vc_encode_flow::{FlowEnd, encode_on};
use vc_engine::PlainEngine;
use vc_io::{MemSink, MemSource};
use vc_shared::{Handle, HandleSeat, JobSeat, Shared, WorkerSeat};
use vc_worker::{Help, Helping};

/// Which flow runs.
#[derive(Clone, Copy, Debug, PartialEq, Eq)]
enum Way {
    Encode,
    Decode,
}

/// Pictures of 16 by 16 grey samples.
const FORMAT: Format = Format {
    fourcc: Fourcc(*b"GREY"),
    width: 16,
    height: 16,
    size: 256,
};

const RATES: Rates = Rates {
    gop: 10,
    iqp: 20,
    pqp: 20,
};

/// An I frame of 16 by 16 samples of 128, of 48 bytes.
const KEY: &[u8; 48] =
    b"OOOO\xff\xff\xff\xff\0\0\0\x03\0\0\0\x10\0\0\0\x10\0\x08\x04\0\0\0\0\0\0\0\0\0\0\0\0\0\0\0\0\0\0\0\0\x04\0\x06\0\x0f";

/// A picture of 16 by 16 samples of 128.
const PICTURE: &[u8; 256] = &[128; 256];

/// So many units, one after another.
fn units(alloc: Global, unit: &[u8], count: u32) -> Result<Vec<u8>, Fail> {
    let mut bytes = Vec::new(alloc);
    for _unit in 0..count {
        bytes.extend_from_slice(unit)?;
    }
    Ok(bytes)
}

/// The port of the slot, which runs the slot's jobs by the idle worker while it waits.
fn port_of<'a, R: Wait + Sync>(
    rt: &'a R,
    shared: &'a Shared,
    handle: HandleSeat,
    worker: JobSeat,
) -> Helping<Handle<'a, R>, WorkerSeat<'a, R>, PlainEngine>
    requires handle { handle.device.lock ≡ shared.now }
    requires worker { worker.device.lock ≡ shared.now }
    requires idle { station_job worker ≡ None }
    ensures port { result.port ≡ handle }
    ensures ready { IsHandle result.port }
    ensures idle { IfThere (λ h. station_job h.station ≡ None) result.help }
{
    let station = WorkerSeat::new(rt, shared, worker);
    let engine = PlainEngine::new();
    let help = Some(Help { station, engine });
    let port = Handle::new(rt, shared, handle);
    Helping { port, help }
}

/// Lets a flow run through the slot over so many pictures or frames, of which each read gives one, and tells how it ends.
fn run_flow<R: Wait + Sync>(
    rt: &R,
    alloc: Global,
    shared: &Shared,
    seats: (HandleSeat, JobSeat),
    log: &Log,
    flow: (Way, u32),
) -> Result<FlowEnd, Fail>
    requires handle { (seats.0.device.lock ≡ shared.now) × (slot_after (slot_events seats.0) ≡ None) }
    requires worker { (seats.1.device.lock ≡ shared.now) × (station_job seats.1 ≡ None) }
{
    let (handle, worker) = seats;
    let (way, count) = flow;
    let unit: &[u8] = match way {
        Way::Encode => PICTURE,
        Way::Decode => KEY,
    };
    let port = port_of(rt, shared, handle, worker);
    let mut port = NotedPort { port, log };
    let mut source = NotedSource {
        bytes: MemSource::make(
            units(alloc, unit, count)?,
            unit.len().max(1),
            Vec::new(alloc),
        ),
        log,
    };
    let mut sink = MemSink::make(alloc, 4096, 4096, Vec::new(alloc))?;
    Ok(match way {
        Way::Encode => encode_on(
            rt,
            alloc,
            &mut port,
            &mut source,
            &mut sink,
            &FORMAT,
            &RATES,
        ),
        Way::Decode => decode_on(rt, alloc, &mut port, &mut source, &mut sink),
    })
}

/// How a flow ends over so many pictures or frames, and what it did.
fn deeds_of<R: Wait + Sync + Abort>(
    rt: &R,
    alloc: Global,
    way: Way,
    count: u32,
) -> Result<(FlowEnd, Vec<u8>), Fail> {
    let log = Log::make(alloc)?;
    let (shared, handle, worker) = one_and_one(rt, alloc);
    let end = run_flow(rt, alloc, &shared, (handle, worker), &log, (way, count))?;
    Ok((end, log.deeds(alloc)?))
}

/// What was done before the first deed of this sort, which is all where there is none.
fn before(deeds: &[u8], letter: u8) -> &[u8] {
    let end = deeds.iter().position(|deed| *deed == letter);
    let front = end.unwrap_or(deeds.len());
    deeds.get(..front).unwrap_or(deeds)
}

/// How often a deed of this sort was done.
fn count(deeds: &[u8], letter: u8) -> usize {
    deeds.iter().filter(|deed| **deed == letter).count()
}

/// Whether each read comes behind the queueing of what all reads before it gave, and all is queued in the end.
fn queues_before_it_reads_on(deeds: &[u8]) -> bool {
    let mut queued = 0u64;
    let mut reads = 0u64;
    for deed in deeds {
        match *deed {
            READ if queued != reads => return false,
            READ => reads = reads.saturating_add(1),
            OUT_QUEUED => queued = queued.saturating_add(1),
            _ => {}
        }
    }
    reads == queued.saturating_add(1)
}

/// Flows over so many pictures or frames; how many CAPTURE buffers are queued at the least when the first byte is read,
/// where CAPTURE streams if there are any; how many OUTPUT buffers are queued when the flow waits for the first time, or
/// at the end; and how many CAPTURE buffers are queued before one comes back.
const ORDERS: [(Way, u32, usize, usize, usize); 9] = [
    (Way::Encode, 0, 4, 0, 4),
    (Way::Encode, 1, 4, 1, 4),
    (Way::Encode, 3, 4, 3, 4),
    (Way::Encode, 4, 4, 4, 4),
    (Way::Encode, 9, 4, 4, 4),
    (Way::Decode, 0, 0, 0, 0),
    (Way::Decode, 1, 0, 1, 4),
    (Way::Decode, 2, 0, 2, 4),
    (Way::Decode, 5, 0, 2, 4),
];

/// OUTPUT streams before the first read, what a read gave is queued before the next one, and the flow does not wait before
/// its OUTPUT buffers are queued or the input has ended.
#[test]
fn flows_queue_all_they_have_before_they_wait(rt: HostRuntime) -> Result<(), Fail> {
    for (way, units, captures, sources, given) in ORDERS {
        let (end, deeds) = deeds_of(&rt, rt.alloc(), way, units)?;
        assert_eq!(rt; end, FlowEnd::Whole, "{way:?} of {units}");
        let begun = before(&deeds, READ);
        assert_eq!(rt; count(begun, OUT_STREAMS), 1, "{way:?} of {units}");
        assert!(rt; count(begun, CAP_QUEUED) >= captures, "{way:?} of {units}");
        assert!(rt;
            captures == 0 || count(begun, CAP_STREAMS) == 1,
            "{way:?} of {units}"
        );
        assert!(rt; queues_before_it_reads_on(&deeds), "{way:?} of {units}");
        let front = before(&deeds, WAITED);
        assert_eq!(rt; count(front, OUT_QUEUED), sources, "{way:?} of {units}");
        let back = before(&deeds, CAP_TAKEN);
        assert_eq!(rt; count(back, CAP_QUEUED), given, "{way:?} of {units}");
    }
    Ok(())
}

/// A flow that has fewer units than OUTPUT buffers has read the end of its input before it waits.
#[test]
fn flows_read_to_the_end_where_a_buffer_is_free(rt: HostRuntime) -> Result<(), Fail> {
    for (way, units) in [(Way::Encode, 1), (Way::Encode, 3), (Way::Decode, 1)] {
        let (_, deeds) = deeds_of(&rt, rt.alloc(), way, units)?;
        let front = before(&deeds, WAITED);
        assert_eq!(rt;
            count(front, READ),
            units as usize + 1,
            "{way:?} of {units}"
        );
    }
    Ok(())
}
