use super::*;
use std::test::Fail;
use vc_desk::Desk;
use vc_io::{MemSink, MemSource};
use vc_work::{Engine, EngineFault, Outcome, Work};

/// An engine that always gives up.
#[derive(Drop)]
struct Broken {
    faults: u64,
}

impl Engine for Broken {
    ghost run_count = { λ _. 0 };

    ghost fault_count = { λ e. e.faults };

    fn run(&mut self, _work: &mut Work) -> Result<Outcome, EngineFault> {
        self.faults = self.faults.saturating_add(1);
        Err(EngineFault)
    }

    fn runs(&self) -> u64 {
        0
    }

    fn faults(&self) -> u64 {
        self.faults
    }
}

#[test]
fn a_body_is_answered_behind_what_was_written(rt: HostRuntime) -> Result<(), Fail> {
    let mut desk = Desk::make(rt.alloc(), 1)?;
    let mut engine = Broken { faults: 0 };
    let mut out = vec![in rt.alloc(); 0xaau8]?;
    let open = [1u8, 0, 0, 0, 0, 0, 0, 0, 0];
    let fault = answer_body(rt.alloc(), &mut desk, &open, &mut engine, &mut out)?;
    assert!(rt; !fault);
    assert_eq!(rt; out.as_slice(), [0xaau8, 0, 0, 0, 1, 0].as_slice());
    Ok(())
}

#[test]
fn messages_in_pieces_are_answered_in_their_order(rt: HostRuntime) -> Result<(), Fail> {
    let input = vec![in rt.alloc(); 0u8, 0, 0, 5, 0x20, 0, 0, 0, 0, 0, 0, 0, 1, 0xff]?;
    let mut source = MemSource::make(input, 3, Vec::new(rt.alloc()));
    let mut sink = MemSink::make(rt.alloc(), 64, 64, Vec::new(rt.alloc()))?;
    let mut engine = Broken { faults: 0 };
    let end = wire_run(rt.alloc(), 1, &mut source, &mut sink, &mut engine);
    assert_eq!(rt; end, WireEnd::Whole);
    let replies = sink.into_bytes();
    assert_eq!(rt;
        replies.as_slice(),
        [0u8, 0, 0, 1, 0x51, 0, 0, 0, 1, 0x7f].as_slice()
    );
    Ok(())
}
