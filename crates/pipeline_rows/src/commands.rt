//! A command line through `top`, with a source and a sink in memory.

ghost use Rattle.std.specs.Prelude.{◌≡◌, vec_len};

use std::alloc::Global;
use std::sync::Wait;
use std::test::Fail;
use std::thread::Threads;
use vc_core::Engine;
use vc_engine::{FastEngine, PlainEngine};
use vc_io::{MemSink, MemSource};
use vc_lanes::LaneEngine;
use vc_top::{Status, top};

/// How many bytes a read gives and a write takes at most, so that pictures and frames are cut at many places.
const STEP: usize = 65_536;

/// The words of a command line.
fn words(alloc: Global, line: &[&str]) -> Result<Vec<String>, Fail> {
    let mut words = Vec::new(alloc);
    for word in line {
        words.push(String::from_str(alloc, word)?)?;
    }
    Ok(words)
}

/// Which engines the workers have.
#[derive(Clone, Copy, Debug, PartialEq, Eq)]
pub(crate) enum Engines {
    /// Plain, fast and lane engines in turn.
    InTurn,
    /// Plain engines alone.
    Plain,
}

/// The sort of the engine with this number: plain, fast or by lanes.
fn sort_of(engines: Engines, number: u32) -> u32 {
    match engines {
        Engines::InTurn => number % 3,
        Engines::Plain => 0,
    }
}

/// Runs a command line on an input: how it ended, and what it wrote, with room for so many bytes.
pub(crate) fn run<R: Threads + Wait + Sync>(
    rt: &R,
    alloc: Global,
    line: &[&str],
    sorts: Engines,
    input: Vec<u8>,
    room: usize,
) -> Result<(Status, Vec<u8>), Fail> {
    let words = words(alloc, line)?;
    let mut source = MemSource::make(input, STEP, Vec::new(alloc));
    let mut sink = MemSink::make(alloc, room, STEP, Vec::new(alloc))?;
    let mut engines: Vec<Box<dyn Engine + Send>> = Vec::new(alloc);
    for number in 0..16u32 {
        match sort_of(sorts, number) {
            0 => engines.push(Box::new(alloc, PlainEngine::new())?)?,
            1 => engines.push(Box::new(alloc, FastEngine::new())?)?,
            _ => engines.push(Box::new(alloc, LaneEngine::new())?)?,
        }
    }
    let status = top(rt, alloc, &words, &mut source, &mut sink, &mut engines);
    Ok((status, sink.into_bytes()))
}
