//! The end of a job that the engine gave up.

ghost use Rattle.std.specs.Prelude.{◌<◌, ◌+◌};
ghost use Rattle.vc_context.specs.Contexts.{IsKept, IsCounted};
ghost use Rattle.vc_context.specs.Payloads.{FitsContext};

use super::*;
use vc_work::EngineFault;

/// Gives the job up that is due, after so many calls.
fn give_up(rt: &impl Abort, decoder: &mut Decoder, hold: &Hold, before: usize)
    requires few { before < 1000 }
    requires kept { IsKept decoder.old }
    requires fits { FitsContext decoder.old hold.now }
    requires counted { IsCounted before decoder.old }
    ensures kept { IsKept decoder.new }
    ensures fits { FitsContext decoder.new hold.now }
    ensures counted { IsCounted (before + 2) decoder.new }
{
    let ready = decoder.ready();
    assert!(rt; ready);
    let work = decoder.claim();
    decoder.finish(work, Err(EngineFault));
}

#[test]
fn a_source_of_a_fault_has_an_error(rt: HostRuntime) -> Result<(), Fail> {
    let mut decoder = Decoder::make(rt.alloc())?;
    let mut hold = Hold::new();
    let side = Side::Out;
    let queued = Call::QBuf {
        side,
        index: 0,
        used: 8,
        stamp: Stamp(7),
    };
    let made = Call::ReqBufs { side, count: 1 };
    let told = ask(rt.alloc(), &mut decoder, &mut hold, 0, &made);
    assert_eq!(rt; told, Reply::Count { count: 1 });
    let told = ask(rt.alloc(), &mut decoder, &mut hold, 1, &queued);
    assert_eq!(rt; told, DONE);
    let told = ask(
        rt.alloc(),
        &mut decoder,
        &mut hold,
        2,
        &Call::StreamOn { side },
    );
    assert_eq!(rt; told, DONE);
    give_up(&rt, &mut decoder, &hold, 3);
    let taken = Call::DqBuf { side, block: false };
    let told = ask(rt.alloc(), &mut decoder, &mut hold, 5, &taken);
    let error = Reply::Taken {
        index: 0,
        used: 8,
        flags: 0x40,
        seq: 0,
        stamp: Stamp(7),
    };
    assert_eq!(rt; told, error);
    Ok(())
}
