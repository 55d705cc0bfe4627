//! What a flow did, in order.

use std::alloc::Global;
use std::cell::Cell;
use std::test::Fail;
use vc_base::{Call, Reply, Side};

/// How many deeds are noted at most.
const ROOM: usize = 1_000;

/// The source was read.
pub(crate) const READ: u8 = b'r';

/// The flow waited.
pub(crate) const WAITED: u8 = b'w';

/// A buffer of OUTPUT was queued.
pub(crate) const OUT_QUEUED: u8 = b'o';

/// A buffer of CAPTURE was queued.
pub(crate) const CAP_QUEUED: u8 = b'c';

/// OUTPUT began to stream.
pub(crate) const OUT_STREAMS: u8 = b'O';

/// CAPTURE began to stream.
pub(crate) const CAP_STREAMS: u8 = b'C';

/// A buffer of CAPTURE was taken.
pub(crate) const CAP_TAKEN: u8 = b't';

/// The deeds of a flow, a letter for each.
#[derive(Drop)]
pub(crate) struct Log {
    letters: Vec<Cell<u8>>,
    count: Cell<usize>,
}

impl Log {
    /// Before the first deed.
    pub(crate) fn make(alloc: Global) -> Result<Log, Fail> {
        let mut letters = Vec::new(alloc);
        for _letter in 0..ROOM {
            letters.push(Cell::new(0))?;
        }
        let count = Cell::new(0);
        Ok(Log { letters, count })
    }

    /// Notes a deed, while there is room.
    pub(crate) fn note(&self, letter: u8) {
        let at = self.count.get();
        if let Some(place) = self.letters.get(at) {
            place.set(letter);
            self.count.set(at.saturating_add(1));
        }
    }

    /// Notes a call that was answered, where it is one of those with a letter.
    pub(crate) fn note_call(&self, call: &Call, reply: &Reply) {
        let letter = match (call, reply) {
            (
                Call::QBuf {
                    side: Side::Out,
                    ..
                },
                Reply::Done,
            ) => OUT_QUEUED,
            (
                Call::QBuf {
                    side: Side::Cap,
                    ..
                },
                Reply::Done,
            ) => CAP_QUEUED,
            (Call::StreamOn { side: Side::Out }, Reply::Done) => OUT_STREAMS,
            (Call::StreamOn { side: Side::Cap }, Reply::Done) => CAP_STREAMS,
            (
                Call::DqBuf {
                    side: Side::Cap,
                    ..
                },
                Reply::Taken { .. },
            ) => CAP_TAKEN,
            _ => return,
        };
        self.note(letter);
    }

    /// The deeds.
    pub(crate) fn deeds(&self, alloc: Global) -> Result<Vec<u8>, Fail> {
        let mut deeds = Vec::new(alloc);
        for letter in self.letters.iter().take(self.count.get()) {
            deeds.push(letter.get())?;
        }
        Ok(deeds)
    }
}
