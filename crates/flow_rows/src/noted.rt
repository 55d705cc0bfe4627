//! A port and a source that note what a flow does.

use crate::log::{Log, READ, WAITED};
use vc_base::{Call, Reply, Side};
use vc_io::{MemSource, ReadFailed, Source};
use vc_port::{PayloadPort, Port};

/// A port that notes its calls and pauses. Else it is the port in it.
#[derive(Drop)]
pub(crate) struct NotedPort<'a, P: PayloadPort> {
    pub(crate) port: P,
    pub(crate) log: &'a Log,
}

impl<'a, P: PayloadPort> Port for NotedPort<'a, P> {
    ghost answered = { λ n. P.answered n.port };

    ghost ready = { λ n. P.ready n.port };

    ghost follows = { λ a b. P.follows a.port b.port };

    ghost calls = { λ a request told b. P.calls a.port request told b.port };

    ghost pauses = { λ a b. P.pauses a.port b.port };

    fn call(&mut self, call: &Call) -> Reply {
        let reply = self.port.call(call);
        self.log.note_call(call, &reply);
        reply
    }

    fn pause(&mut self) {
        self.log.note(WAITED);
        self.port.pause();
    }

    ghost follows_self = { λ p. P.follows_self p.port };

    ghost follows_on = { λ p q r f g. P.follows_on p.port q.port r.port f g };
}

impl<'a, P: PayloadPort> PayloadPort for NotedPort<'a, P> {
    ghost events = { λ n. P.events n.port };

    ghost hold = { λ n. P.hold n.port };

    fn payload(&self, side: Side, index: u32) -> Option<&[u8]> {
        self.port.payload(side, index)
    }

    fn fill(&mut self, side: Side, index: u32, bytes: &[u8]) {
        self.port.fill(side, index, bytes);
    }

    fn exchange(
        &mut self,
        side: Side,
        index: u32,
        other: &mut Self,
        other_side: Side,
        other_index: u32,
    ) {
        self.port
            .exchange(side, index, &mut other.port, other_side, other_index);
    }

    ghost calls_are = { λ p q request told f. P.calls_are p.port q.port request told f };

    ghost pauses_are = { λ p q f. P.pauses_are p.port q.port f };

    ghost fits = { λ p r. P.fits p.port r };
}

/// A source that notes each read. Else it is the source in it.
#[derive(Drop)]
pub(crate) struct NotedSource<'a> {
    pub(crate) bytes: MemSource,
    pub(crate) log: &'a Log,
}

impl<'a> Source for NotedSource<'a> {
    ghost left = { λ s. ⟦<MemSource as Source>⟧.left s.bytes };

    ghost faults = { λ s. ⟦<MemSource as Source>⟧.faults s.bytes };

    fn read(&mut self, buf: &mut [u8]) -> Result<usize, ReadFailed> {
        self.log.note(READ);
        self.bytes.read(buf)
    }
}
