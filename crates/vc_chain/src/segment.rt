//! Pictures of one format through an encoder, pushed one after another.

ghost use Rattle.std.specs.Prelude.{◌≡◌, ◌≢◌, ◌<◌, ◌≤◌, ◌+◌, true, None, [], IfOk, OnOk, OnErr, IfErr, IsErrOf};
ghost use Rattle.vc_base.specs.Counts.{Rose};
ghost use Rattle.vc_base.specs.declared.Side.TheVariants.{Out, Cap};
ghost use Rattle.vc_defs.specs.Laws.{AreRates};
ghost use Rattle.vc_queue.specs.Holds.{held_payload, HaveOneLength};
ghost use Rattle.vc_port.specs.Payloads.{slot_after, bytes_out, AreKept};
ghost use Rattle.vc_flow.specs.Buffers.{IsThere};
ghost use Rattle.vc_flow.specs.Calls.{KeepsHanded};
ghost use Rattle.vc_encode_flow.specs.Flows.{HasFlow, IsKept, rates_of};
ghost use Rattle.vc_chain.specs.Segments.{BeginsCoding, QueuesUsed, KeepsCoding, Adds, LeavesFront, CodingTellsFault, EndsCoding};

use crate::beside::Beside;
use crate::collecting::{collect, collect_all, take_source};
use crate::opening::{BUFFERS, open_encoder};
use std::sync::Wait;
use vc_base::{Call, Format, Side, Stamp};
use vc_core::Rates;
use vc_flow::{Stop, call_done, close_slot};
use vc_io::Sink;
use vc_port::PayloadPort;

/// Whether both users have the buffers, with payloads of one length.
fn are_as_long<P: PayloadPort>(port: &P, index: u32, other: &P, other_index: u32) -> bool
    ensures { result ≡ true → HaveOneLength (held_payload (P.hold port.now) Out index) (held_payload (P.hold other.now) Cap other_index) }
{
    let Some(mine) = port.payload(Side::Out, index) else {
        return false;
    };
    match other.payload(Side::Cap, other_index) {
        Some(others) => mine.len() == others.len(),
        None => false,
    }
}

/// Queues the used bytes of a CAPTURE buffer of another port as a picture. The payload goes over by exchange.
fn queue_exchanged<P: PayloadPort>(
    port: &mut P,
    index: u32,
    other: &mut P,
    other_index: u32,
    used: u32,
) -> Result<(), Stop>
    requires ready { P.ready port.old × P.ready other.old }
    requires there { IsThere (held_payload (P.hold other.old) Cap other_index) used }
    ensures ready { P.ready port.new × P.ready other.new }
    ensures follows { P.follows port.old port.new × P.follows other.old other.new }
    ensures queues { QueuesUsed result index (held_payload (P.hold other.old) Cap other_index) used (P.events port.old) (P.events port.new) (P.hold port.new) }
    ensures bytes { bytes_out (P.events port.new) ≡ bytes_out (P.events port.old) }
    ensures others { P.events other.new ≡ P.events other.old }
    ensures memory { IfErr result (λ stop. stop ≡ Stop.NoMemory) }
{
    if !are_as_long(port, index, other, other_index) {
        return Err(Stop::NoMemory);
    }
    port.exchange(Side::Out, index, other, Side::Cap, other_index);
    let call = Call::QBuf {
        side: Side::Out,
        index,
        used,
        stamp: Stamp(0),
    };
    call_done(port, &call)
}

/// The pictures of an encoder that are in flight: they were queued, and their frames were not taken yet.
#[derive(Clone, Copy, Debug)]
pub struct Segment {
    pub in_flight: u32,
    ghost most: { in_flight ≤ 4 },
}

impl Segment {
    /// Opens the slot as an encoder of pictures of the format at the rates. Both its queues stream.
    pub fn begin<P: PayloadPort>(
        port: &mut P,
        format: &Format,
        rates: &Rates,
    ) -> Result<Segment, Stop>
        requires ready { P.ready port.old }
        requires closed { slot_after (P.events port.old) ≡ None }
        requires kept { IsKept format.now }
        requires rates { AreRates (rates_of rates.now.gop rates.now.iqp rates.now.pqp) }
        ensures ready { P.ready port.new }
        ensures follows { P.follows port.old port.new }
        ensures flow { OnOk result (HasFlow (P.events port.new)) }
        ensures begun { BeginsCoding result format.now rates.now.gop rates.now.iqp rates.now.pqp (P.events port.old) (P.events port.new) }
        ensures none { IfOk result (λ segment. segment.in_flight ≡ 0) }
        ensures hands { KeepsHanded (P.events port.old) (P.events port.new) }
        ensures memory { IfErr result (λ stop. stop ≡ Stop.NoMemory) }
    {
        open_encoder(port, format, rates)?;
        Ok(Segment { in_flight: 0 })
    }

    /// An OUTPUT buffer for the next picture: a new one while there is one, and then one that comes back once another frame
    /// was written.
    fn room<R: Wait, P: PayloadPort, K: Sink>(
        &mut self,
        rt: &R,
        port: &mut P,
        sink: &mut K,
    ) -> Result<u32, Stop>
        requires ready { P.ready port.old }
        requires flow { HasFlow (P.events port.old) }
        ensures ready { P.ready port.new }
        ensures follows { P.follows port.old port.new }
        ensures flow { OnOk result (HasFlow (P.events port.new)) }
        ensures room { OnOk result (self.new.in_flight < 4) }
        ensures coding { KeepsCoding result self.old.in_flight self.new.in_flight (K.written sink.old) (K.written sink.new) (P.events port.old) (P.events port.new) }
        ensures stopped { LeavesFront result self.old.in_flight (K.written sink.old) (K.written sink.new) (P.events port.old) (P.events port.new) }
        ensures engine { CodingTellsFault result self.old.in_flight (K.written sink.old) (P.events port.old) (P.events port.new) }
        ensures later { K.faults sink.old ≤ K.faults sink.new }
        ensures quiet { OnOk result (K.faults sink.new ≡ K.faults sink.old) }
        ensures write { IsErrOf result Stop.WriteFault → Rose (K.faults sink.old) (K.faults sink.new) }
        ensures stops { IfErr result (λ stop. (stop ≢ Stop.ReadFault) × (stop ≢ Stop.TooLong)) }
    {
        if self.in_flight < BUFFERS {
            return Ok(self.in_flight);
        }
        match collect(rt, port, sink) {
            Ok(()) => self.in_flight -= 1,
            Err(stop) => return Err(stop),
        }
        take_source(rt, port)
    }

    /// The same, where what waits pauses another port.
    fn room_beside<R: Wait, P: PayloadPort, K: Sink>(
        &mut self,
        rt: &R,
        port: &mut P,
        other: &mut P,
        sink: &mut K,
    ) -> Result<u32, Stop>
        requires ready { P.ready port.old × P.ready other.old }
        requires flow { HasFlow (P.events port.old) }
        ensures ready { P.ready port.new × P.ready other.new }
        ensures follows { P.follows port.old port.new × P.follows other.old other.new }
        ensures others { AreKept (P.events other.old) (P.hold other.old) (P.events other.new) (P.hold other.new) }
        ensures flow { OnOk result (HasFlow (P.events port.new)) }
        ensures room { OnOk result (self.new.in_flight < 4) }
        ensures coding { KeepsCoding result self.old.in_flight self.new.in_flight (K.written sink.old) (K.written sink.new) (P.events port.old) (P.events port.new) }
        ensures stopped { LeavesFront result self.old.in_flight (K.written sink.old) (K.written sink.new) (P.events port.old) (P.events port.new) }
        ensures engine { CodingTellsFault result self.old.in_flight (K.written sink.old) (P.events port.old) (P.events port.new) }
        ensures later { K.faults sink.old ≤ K.faults sink.new }
        ensures quiet { OnOk result (K.faults sink.new ≡ K.faults sink.old) }
        ensures write { IsErrOf result Stop.WriteFault → Rose (K.faults sink.old) (K.faults sink.new) }
        ensures stops { IfErr result (λ stop. (stop ≢ Stop.ReadFault) × (stop ≢ Stop.TooLong)) }
    {
        let mut beside = Beside { port, other };
        self.room(rt, &mut beside, sink)
    }

    /// Adds a picture: the used bytes of a CAPTURE buffer that the user of another port holds. It is queued by exchange of the
    /// payloads, which have one length. Where all OUTPUT buffers are in flight, a frame is waited for and written first;
    /// what waits pauses the other port, whose events stay.
    pub fn push<R: Wait, P: PayloadPort, K: Sink>(
        &mut self,
        rt: &R,
        port: &mut P,
        other: &mut P,
        sink: &mut K,
        index: u32,
        used: u32,
    ) -> Result<(), Stop>
        requires ready { P.ready port.old × P.ready other.old }
        requires flow { HasFlow (P.events port.old) }
        requires there { IsThere (held_payload (P.hold other.old) Cap index) used }
        ensures ready { P.ready port.new × P.ready other.new }
        ensures follows { P.follows port.old port.new × P.follows other.old other.new }
        ensures others { P.events other.new ≡ P.events other.old }
        ensures flow { OnOk result (HasFlow (P.events port.new)) }
        ensures pushed { Adds result (held_payload (P.hold other.old) Cap index) used self.old.in_flight self.new.in_flight (K.written sink.old) (K.written sink.new) (P.events port.old) (P.events port.new) }
        ensures stopped { LeavesFront result self.old.in_flight (K.written sink.old) (K.written sink.new) (P.events port.old) (P.events port.new) }
        ensures engine { CodingTellsFault result self.old.in_flight (K.written sink.old) (P.events port.old) (P.events port.new) }
        ensures later { K.faults sink.old ≤ K.faults sink.new }
        ensures quiet { OnOk result (K.faults sink.new ≡ K.faults sink.old) }
        ensures write { IsErrOf result Stop.WriteFault → Rose (K.faults sink.old) (K.faults sink.new) }
        ensures stops { IfErr result (λ stop. (stop ≢ Stop.ReadFault) × (stop ≢ Stop.TooLong)) }
    {
        let place = match self.room_beside(rt, port, other, sink) {
            Ok(place) => place,
            Err(stop) => return Err(stop),
        };
        queue_exchanged(port, place, other, index, used)?;
        self.in_flight += 1;
        Ok(())
    }

    /// Ends the segment: the frames of all pictures in flight are waited for and written, and the slot is closed. Where it fails
    /// the slot may still be open.
    pub fn end<R: Wait, P: PayloadPort, K: Sink>(
        self,
        rt: &R,
        port: &mut P,
        sink: &mut K,
    ) -> Result<(), Stop>
        requires ready { P.ready port.old }
        requires flow { HasFlow (P.events port.old) }
        ensures ready { P.ready port.new }
        ensures follows { P.follows port.old port.new }
        ensures closed { OnOk result (slot_after (P.events port.new) ≡ None) }
        ensures ended { EndsCoding result self.in_flight (K.written sink.old) (K.written sink.new) (P.events port.old) (P.events port.new) }
        ensures stopped { LeavesFront result self.in_flight (K.written sink.old) (K.written sink.new) (P.events port.old) (P.events port.new) }
        ensures engine { CodingTellsFault result self.in_flight (K.written sink.old) (P.events port.old) (P.events port.new) }
        ensures later { K.faults sink.old ≤ K.faults sink.new }
        ensures quiet { OnOk result (K.faults sink.new ≡ K.faults sink.old) }
        ensures write { IsErrOf result Stop.WriteFault → Rose (K.faults sink.old) (K.faults sink.new) }
        ensures stops { IfErr result (λ stop. (stop ≢ Stop.ReadFault) × (stop ≢ Stop.TooLong)) }
    {
        match collect_all(rt, port, sink, self.in_flight) {
            Ok(()) => {}
            Err(stop) => return Err(stop),
        }
        close_slot(rt, port);
        Ok(())
    }
}
