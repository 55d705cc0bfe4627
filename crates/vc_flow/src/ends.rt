//! How a flow ends.

ghost use Rattle.std.specs.Prelude.{◌≡◌, ◌≢◌};

/// The most bytes of an input. One that has as many is too long.
pub const MOST_INPUT: u64 = 1 << 40;

/// How a flow ends.
#[derive(Clone, Copy, Debug, PartialEq, Eq)]
pub enum FlowEnd {
    /// The input was read to its end, and all of its output was written.
    Whole,
    /// The coded input has a damaged frame or a byte in no frame. The good pictures were written.
    Damaged,
    /// The input ends inside a raw picture. The frames of the whole pictures were written.
    ShortRaw,
    /// The source failed.
    ReadFault,
    /// The sink failed.
    WriteFault,
    /// An engine failed.
    EngineFault,
    /// 2^40 bytes were read.
    TooLong,
    /// Out of memory.
    // A call that the slot refuses for another reason is answered so too. The flow makes no such call, but that is not
    // proved.
    NoMemory,
}

/// Why a flow stops before it gave all that its input has.
#[derive(Clone, Copy, Debug)]
pub enum Stop {
    /// The source failed.
    ReadFault,
    /// The sink failed.
    WriteFault,
    /// An engine failed.
    EngineFault,
    /// 2^40 bytes were read.
    TooLong,
    /// Out of memory, or a call was refused for another reason.
    NoMemory,
}

impl Stop {
    /// How the flow ends that was stopped so.
    pub fn end(self) -> FlowEnd
        ensures read { result ≡ FlowEnd.ReadFault → self ≡ Stop.ReadFault }
        ensures write { result ≡ FlowEnd.WriteFault → self ≡ Stop.WriteFault }
        ensures engine { result ≡ FlowEnd.EngineFault → self ≡ Stop.EngineFault }
        ensures long { result ≡ FlowEnd.TooLong → self ≡ Stop.TooLong }
        ensures memory { result ≡ FlowEnd.NoMemory → self ≡ Stop.NoMemory }
        ensures too_long { self ≡ Stop.TooLong → result ≡ FlowEnd.TooLong }
        ensures not_whole { result ≢ FlowEnd.Whole }
        ensures not_damaged { result ≢ FlowEnd.Damaged }
        ensures not_short { result ≢ FlowEnd.ShortRaw }
    {
        match self {
            Stop::ReadFault => FlowEnd::ReadFault,
            Stop::WriteFault => FlowEnd::WriteFault,
            Stop::EngineFault => FlowEnd::EngineFault,
            Stop::TooLong => FlowEnd::TooLong,
            Stop::NoMemory => FlowEnd::NoMemory,
        }
    }
}
