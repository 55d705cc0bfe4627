/// How serving a stream of messages ended.
#[derive(Clone, Copy, Debug, PartialEq, Eq)]
pub enum WireEnd {
    /// All messages were answered, and the input ended behind the last one.
    Whole,
    /// The message that begins at this byte has a length out of range, or the input ends inside of it.
    BadMessage { at: u64 },
    /// The source failed.
    ReadFault,
    /// The sink failed.
    WriteFault,
    /// All messages were answered as with `Whole`, and the engine gave up in one of them.
    EngineFault,
    /// 2^40 bytes were read.
    TooLong,
    /// Out of memory.
    NoMemory,
}
