//! What the commands let run beside workers, and how it ends.

ghost use Rattle.std.specs.Prelude.{◌≡◌, ◌≤◌, ⊤};
ghost use Rattle.vc_defs.specs.Laws.{AreRates};
ghost use Rattle.vc_encode_flow.specs.Flows.{IsKept, rates_of};
ghost use Rattle.vc_top.specs.Flows.{HasEncoded, HasDecoded, HasShared, status_of_flow};

use crate::status::Status;
use std::alloc::Global;
use std::sync::Wait;
use vc_base::Format;
use vc_core::Rates;
use vc_crew::Flow;
use vc_decode_flow::decode_on;
use vc_encode_flow::{FlowEnd, Tally, encode_on, share_on};
use vc_io::{Sink, Source};
use vc_port::PayloadPort;

/// Raw pictures of a source that become frames in a sink.
#[derive(Drop)]
pub(crate) struct EncodeFlow<'a, S: Source, K: Sink> {
    pub(crate) source: &'a mut S,
    pub(crate) sink: &'a mut K,
    pub(crate) format: Format,
    pub(crate) rates: Rates,
}

impl<S: Source, K: Sink> Flow for EncodeFlow<'_, S, K> {
    type End = FlowEnd;

    ghost may = { λ f. IsKept f.format × AreRates (rates_of f.rates.gop f.rates.iqp f.rates.pqp) };

    ghost does = { λ f before after end now. HasEncoded f.format (rates_of f.rates.gop f.rates.iqp f.rates.pqp) end (record { left = S.left f.source.now; faults = S.faults f.source.now }) (record { left = S.left now.source.now; faults = S.faults now.source.now }) (record { written = K.written f.sink.now; faults = K.faults f.sink.now }) (record { written = K.written now.sink.now; faults = K.faults now.sink.now }) before after × (now.source.ghost_name ≡ f.source.ghost_name) × (now.sink.ghost_name ≡ f.sink.ghost_name) };

    fn run<R: Wait, P: PayloadPort>(&mut self, rt: &R, alloc: Global, port: &mut P) -> FlowEnd {
        encode_on(
            rt,
            alloc,
            port,
            self.source,
            self.sink,
            &self.format,
            &self.rates,
        )
    }
}

/// A coded stream of a source that becomes pictures in a sink.
#[derive(Drop)]
pub(crate) struct DecodeFlow<'a, S: Source, K: Sink> {
    pub(crate) source: &'a mut S,
    pub(crate) sink: &'a mut K,
}

impl<S: Source, K: Sink> Flow for DecodeFlow<'_, S, K> {
    type End = FlowEnd;

    ghost may = { λ f. ⊤ };

    ghost does = { λ f before after end now. HasDecoded end (record { left = S.left f.source.now; faults = S.faults f.source.now }) (record { left = S.left now.source.now; faults = S.faults now.source.now }) (record { written = K.written f.sink.now; faults = K.faults f.sink.now }) (record { written = K.written now.sink.now; faults = K.faults now.sink.now }) before after × (now.source.ghost_name ≡ f.source.ghost_name) × (now.sink.ghost_name ≡ f.sink.ghost_name) };

    fn run<R: Wait, P: PayloadPort>(&mut self, rt: &R, alloc: Global, port: &mut P) -> FlowEnd {
        decode_on(rt, alloc, port, self.source, self.sink)
    }
}

/// Pictures of the generator for a number that become frames, which are counted and folded.
#[derive(Drop)]
pub(crate) struct ShareFlow {
    pub(crate) format: Format,
    pub(crate) pictures: u32,
    pub(crate) number: u32,
}

impl Flow for ShareFlow {
    type End = Result<Tally, FlowEnd>;

    ghost may = { λ f. IsKept f.format × (1 ≤ f.pictures) × (f.pictures ≤ 1000) × (f.number ≤ 1000063) };

    ghost does = { λ f before after end now. HasShared f.format f.pictures f.number end before after };

    fn run<R: Wait, P: PayloadPort>(
        &mut self,
        rt: &R,
        alloc: Global,
        port: &mut P,
    ) -> Result<Tally, FlowEnd> {
        share_on(rt, alloc, port, &self.format, self.pictures, self.number)
    }
}

/// The status of a command whose flow ended so.
pub(crate) fn flow_status(end: FlowEnd) -> Status
    ensures { result ≡ status_of_flow end }
{
    match end {
        FlowEnd::Whole => Status::Fine,
        FlowEnd::Damaged => Status::Damaged,
        FlowEnd::ShortRaw => Status::ShortRaw,
        FlowEnd::ReadFault => Status::ReadFault,
        FlowEnd::WriteFault => Status::WriteFault,
        FlowEnd::EngineFault => Status::EngineFault,
        FlowEnd::TooLong => Status::TooLong,
        FlowEnd::NoMemory => Status::NoMemory,
    }
}
