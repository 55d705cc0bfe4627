//! The pictures of the generator through one encoder, whose frames are counted and folded.

ghost use Rattle.std.specs.Prelude.{◌≡◌, ◌⊎◌, ◌<◌, ◌≤◌, ◌+◌, ◌^◌, ◌++◌, None, length, IfOk, OnOk, IfErr, IsErrOf};
ghost use Rattle.vc_defs.specs.Laws.{IsRawFormat};
ghost use Rattle.vc_defs.specs.Outputs.{fold_of};
ghost use Rattle.vc_port.specs.Payloads.{slot_after, bytes_out, good_finishes, faulty_finishes};
ghost use Rattle.vc_flow.specs.Faults.{HasFailed, ShowsFault};
ghost use Rattle.vc_encode_flow.specs.Flows.{IsKept, HasFlow};
ghost use Rattle.vc_encode_flow.specs.Shares.{generated_bytes, IsSharing};
ghost use Rattle.vc_encode_flow.specs.Promises.{TalliesNext, TallyingTellsFault, SharesAll, SharingTellsFault};

use crate::feeding::{feed, take_source};
use crate::opening::{BUFFERS, open_fresh_encoder};
use crate::tallying::{Tally, tally_frame, tally_frames};
use std::alloc::Global;
use std::sync::Wait;
use vc_base::Format;
use vc_flow::{FlowEnd, Stop, close_slot};
use vc_port::PayloadPort;
use vc_raw::fill;

/// An OUTPUT buffer for picture `at`: a new one for each of the first pictures, and then one that comes back once
/// another frame was tallied.
fn next_source<R: Wait, P: PayloadPort>(
    rt: &R,
    port: &mut P,
    tally: &mut Tally,
    at: u32,
) -> Result<u32, Stop>
    requires ready { P.ready port.old }
    requires flow { HasFlow (P.events port.old) }
    requires room { tally.old.bytes < 2 ^ 63 }
    ensures ready { P.ready port.new }
    ensures follows { P.follows port.old port.new }
    ensures flow { OnOk result (HasFlow (P.events port.new)) }
    ensures shares { TalliesNext at result tally.old tally.new (P.events port.old) (P.events port.new) }
    ensures engine { TallyingTellsFault result tally.old (P.events port.old) (P.events port.new) }
    ensures bound { tally.new.bytes ≤ tally.old.bytes + 2 ^ 32 }
{
    if at < BUFFERS {
        return Ok(at);
    }
    match tally_frame(rt, port, tally) {
        Ok(()) => take_source(rt, port),
        Err(stop) => Err(stop),
    }
}

/// Makes the pictures, feeds them and tallies all frames.
fn share_pictures<R: Wait, P: PayloadPort>(
    rt: &R,
    port: &mut P,
    picture: &mut [u8],
    format: &Format,
    pictures: u32,
    number: u32,
) -> Result<Tally, Stop>
    requires ready { P.ready port.old }
    requires flow { HasFlow (P.events port.old) }
    requires raw { IsRawFormat format.now }
    requires size { length picture.old ≡ format.now.size }
    requires pictures { pictures ≤ 1000 }
    requires number { number ≤ 1000063 }
    ensures ready { P.ready port.new }
    ensures follows { P.follows port.old port.new }
    ensures through { SharesAll format.now number pictures result (P.events port.old) (P.events port.new) }
    ensures engine { SharingTellsFault format.now number result (P.events port.old) (P.events port.new) }
{
    let mut tally = Tally::none();
    for at in 0..pictures {
        fill(picture, format, at, number);
        let index = next_source(rt, port, &mut tally, at)?;
        feed(port, index, picture)?;
    }
    tally_frames(rt, port, &mut tally, pictures.min(BUFFERS))?;
    Ok(tally)
}

/// Opens the slot, and lets all pictures go through it.
fn run_share<R: Wait, P: PayloadPort>(
    rt: &R,
    alloc: Global,
    port: &mut P,
    format: &Format,
    pictures: u32,
    number: u32,
) -> Result<Tally, Stop>
    requires ready { P.ready port.old }
    requires closed { slot_after (P.events port.old) ≡ None }
    requires kept { IsKept format.now }
    requires pictures { pictures ≤ 1000 }
    requires number { number ≤ 1000063 }
    ensures ready { P.ready port.new }
    ensures follows { P.follows port.old port.new }
    ensures through { IfOk result (λ tally. IsSharing (P.events port.old) format.now number pictures pictures tally (P.events port.new)) }
    ensures engine { IsErrOf result Stop.EngineFault → HasFailed (P.events port.old) (P.events port.new) }
{
    let Ok(mut picture) = vec![in alloc; 0; format.size as usize] else {
        return Err(Stop::NoMemory);
    };
    open_fresh_encoder(port, format)?;
    share_pictures(rt, port, &mut picture, format, pictures, number)
}

/// How a share ends that was stopped: it reads and writes nothing, so only an engine or memory stops it.
fn share_end(stop: Stop) -> FlowEnd
    ensures engine { result ≡ FlowEnd.EngineFault → stop ≡ Stop.EngineFault }
    ensures refusals { (result ≡ FlowEnd.EngineFault) ⊎ (result ≡ FlowEnd.NoMemory) }
{
    match stop {
        Stop::EngineFault => FlowEnd::EngineFault,
        _ => FlowEnd::NoMemory,
    }
}

/// Encodes the first pictures of the generator for a number, one after another, with one encoder of the device, at the
/// rates that an encoder begins with (docs/FORMAT.md, "The generator" and "The sequential encoder"). It tells how many
/// bytes their frames have, and the fold of these bytes.
///
/// The slot is closed before and after. The format is one that the device sets as it is asked for. There are 1 to 1,000
/// pictures, and the number is at most 1,000,063. The only refusals are `EngineFault`, where an OUTPUT buffer
/// came back with ERROR, and `NoMemory`.
///
/// Four buffers of each queue are used, and both queues stream before the first picture is made. A picture is queued
/// before the next is made, and no reply is waited for before four pictures are queued or all are.
pub fn share_on<R: Wait, P: PayloadPort>(
    rt: &R,
    alloc: Global,
    port: &mut P,
    format: &Format,
    pictures: u32,
    number: u32,
) -> Result<Tally, FlowEnd>
    requires ready { P.ready port.old }
    requires closed { slot_after (P.events port.old) ≡ None }
    requires kept { IsKept format.now }
    requires pictures { (1 ≤ pictures) × (pictures ≤ 1000) }
    requires number { number ≤ 1000063 }
    ensures ready { P.ready port.new }
    ensures follows { P.follows port.old port.new }
    ensures closed { slot_after (P.events port.new) ≡ None }
    ensures bytes { IfOk result (λ tally. tally.bytes ≡ length (generated_bytes format.now pictures number)) }
    ensures fold { IfOk result (λ tally. tally.fold ≡ fold_of (generated_bytes format.now pictures number)) }
    ensures handed { OnOk result (bytes_out (P.events port.new) ≡ bytes_out (P.events port.old) ++ generated_bytes format.now pictures number) }
    ensures finishes { OnOk result (good_finishes (P.events port.old) + pictures ≤ good_finishes (P.events port.new)) }
    ensures engine { IsErrOf result FlowEnd.EngineFault → faulty_finishes (P.events port.old) < faulty_finishes (P.events port.new) }
    ensures shown { IsErrOf result FlowEnd.EngineFault → ShowsFault (P.events port.old) (P.events port.new) }
    ensures refusals { IfErr result (λ end. (end ≡ FlowEnd.EngineFault) ⊎ (end ≡ FlowEnd.NoMemory)) }
{
    let shared = run_share(rt, alloc, port, format, pictures, number);
    close_slot(rt, port);
    match shared {
        Ok(tally) => Ok(tally),
        Err(stop) => Err(share_end(stop)),
    }
}
