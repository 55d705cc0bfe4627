//! Takes the frames of a flow, and counts and folds their bytes.

ghost use Rattle.std.specs.Prelude.{◌≡◌, ◌<◌, ◌≤◌, ◌+◌, ◌*◌, ◌^◌, ℕ, List, [], ◌++◌, length, OnOk};
ghost use Rattle.vc_base.specs.declared.Side.TheVariants.{Cap};
ghost use Rattle.vc_queue.specs.Holds.{held_payload};
ghost use Rattle.vc_flow.specs.Buffers.{IsThere};
ghost use Rattle.vc_encode_flow.specs.Flows.{HasFlow};
ghost use Rattle.vc_encode_flow.specs.Tallies.{tally_of, folded};
ghost use Rattle.vc_encode_flow.specs.Promises.{TalliesUsed, TalliesFrames, TallyingTellsFault};

use crate::collecting::{Frame, take_frame};
use crate::opening::queue_capture;
use std::sync::Wait;
use vc_base::Side;
use vc_flow::Stop;
use vc_port::PayloadPort;

/// How many bytes there are, and their fold: it starts at 0, and a byte takes it from f to
/// `(31·f + byte) mod 4294967296`.
#[derive(Clone, Copy, Debug, PartialEq, Eq)]
pub struct Tally {
    /// How many bytes.
    pub bytes: u64,
    /// Their fold.
    pub fold: u32,
}

impl Tally {
    /// The tally of no bytes.
    pub(crate) fn none() -> Tally
        ensures { result ≡ tally_of [] }
    {
        Tally { bytes: 0, fold: 0 }
    }

    /// Counts and folds more bytes.
    fn add(&mut self, bytes: &[u8])
        requires room { self.old.bytes + length bytes.now < 2 ^ 64 }
        ensures more { (before : List ℕ) → self.old ≡ tally_of before → self.new ≡ tally_of (before ++ bytes.now) }
        ensures count { self.new.bytes ≡ self.old.bytes + length bytes.now }
    {
        self.bytes += bytes.len() as u64;
        self.fold = folded(self.fold, bytes);
    }
}

/// The fold that goes on over more bytes.
fn folded(fold: u32, bytes: &[u8]) -> u32
    ensures { result ≡ folded fold bytes.now }
{
    bytes.iter().fold(fold, |fold, byte| {
        ((31 * u64::from(fold) + u64::from(*byte)) % 4_294_967_296) as u32
    })
}

/// Tallies a frame that was taken.
fn add_frame<P: PayloadPort>(port: &P, tally: &mut Tally, frame: Frame)
    requires there { IsThere (held_payload (P.hold port.now) Cap frame.index) frame.used }
    requires room { tally.old.bytes < 2 ^ 63 }
    ensures more { TalliesUsed (held_payload (P.hold port.now) Cap frame.index) frame.used tally.old tally.new }
    ensures bound { tally.new.bytes ≤ tally.old.bytes + 2 ^ 32 }
{
    let Some(payload) = port.payload(Side::Cap, frame.index) else {
        unreachable!();
    };
    tally.add(&payload[..frame.used as usize]);
}

/// Waits for a frame, tallies it, and queues its buffer again.
pub(crate) fn tally_frame<R: Wait, P: PayloadPort>(
    rt: &R,
    port: &mut P,
    tally: &mut Tally,
) -> Result<(), Stop>
    requires ready { P.ready port.old }
    requires flow { HasFlow (P.events port.old) }
    requires room { tally.old.bytes < 2 ^ 63 }
    ensures ready { P.ready port.new }
    ensures follows { P.follows port.old port.new }
    ensures flow { OnOk result (HasFlow (P.events port.new)) }
    ensures shares { TalliesFrames 1 result tally.old tally.new (P.events port.old) (P.events port.new) }
    ensures engine { TallyingTellsFault result tally.old (P.events port.old) (P.events port.new) }
    ensures bound { tally.new.bytes ≤ tally.old.bytes + 2 ^ 32 }
{
    let frame = match take_frame(rt, port) {
        Ok(frame) => frame,
        Err(stop) => return Err(stop),
    };
    add_frame(port, tally, frame);
    queue_capture(port, frame.index)
}

/// Tallies so many frames.
pub(crate) fn tally_frames<R: Wait, P: PayloadPort>(
    rt: &R,
    port: &mut P,
    tally: &mut Tally,
    count: u32,
) -> Result<(), Stop>
    requires ready { P.ready port.old }
    requires flow { HasFlow (P.events port.old) }
    requires room { tally.old.bytes + count * 2 ^ 32 < 2 ^ 63 }
    ensures ready { P.ready port.new }
    ensures follows { P.follows port.old port.new }
    ensures shares { TalliesFrames count result tally.old tally.new (P.events port.old) (P.events port.new) }
    ensures engine { TallyingTellsFault result tally.old (P.events port.old) (P.events port.new) }
{
    for _frame in 0..count {
        match tally_frame(rt, port, tally) {
            Ok(()) => {}
            Err(stop) => return Err(stop),
        }
    }
    Ok(())
}
