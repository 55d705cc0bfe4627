//! A handle that runs its own jobs while it waits.

use crate::calls::{TAKEN, begin, begins_with};
use crate::seats::two_and_one;
use std::test::Fail;
use vc_base::{Call, Errno, Reply, Side};
use vc_core::Engine;
use vc_engine::PlainEngine;
use vc_shared::{Handle, WorkerSeat};
use vc_wait::{call_on, close_wait, dq_wait, event_wait, off_wait, wait_on};
use vc_worker::{Help, Helping};

const OUT_IS_DONE: Reply = Reply::Ready {
    read: false,
    write: true,
    urgent: false,
};

#[test]
fn a_handle_with_help_runs_its_own_jobs(rt: HostRuntime) -> Result<(), Fail> {
    let (shared, first, _second, seat) = two_and_one(&rt, rt.alloc());
    let (first, queued) = begin(&rt, &shared, first, [0, 255]);
    assert!(rt; queued);
    let help = Help {
        station: WorkerSeat::new(&rt, &shared, seat),
        engine: PlainEngine::new(),
    };
    let mut port = Helping {
        port: Handle::new(&rt, &shared, first),
        help: Some(help),
    };
    assert_eq!(rt; dq_wait(&rt, &mut port, Side::Cap), TAKEN);
    assert!(rt; begins_with(&port, [0, 255]));
    assert_eq!(rt; call_on(&mut port, &Call::Poll), OUT_IS_DONE);
    let out = Call::DqBuf {
        side: Side::Out,
        block: true,
    };
    assert_eq!(rt; wait_on(&rt, &mut port, &out), TAKEN);
    assert_eq!(rt; off_wait(&rt, &mut port, Side::Out), Reply::Done);
    assert_eq!(rt; close_wait(&rt, &mut port), Reply::Done);
    let closed = Reply::Refused {
        errno: Errno::NoTty,
    };
    assert_eq!(rt; event_wait(&rt, &mut port), closed);
    let Helping { port: _, help } = port;
    let Some(help) = help else {
        return Ok(());
    };
    assert_eq!(rt; (help.engine.runs(), help.engine.faults()), (1, 0));
    Ok(())
}
