ghost use Rattle.std.specs.Prelude.{◌≡◌, ℕ, None};
ghost use Rattle.vc_pair.specs.Pairs.{FitsBoth};
ghost use Rattle.vc_queue.specs.Holds.{held_payload};

use super::*;
use std::process::Abort;
use std::test::Fail;

/// Two buffers of 4 bytes on each queue, both streaming.
fn streaming(rt: &impl Abort, alloc: Global, hold: &mut Hold) -> Pair
    requires nothing { (side : Side) (index : ℕ) → held_payload hold.old side index ≡ None }
    ensures fit { FitsBoth result hold.new }
{
    let mut pair = Pair::new();
    assert_eq!(rt; pair.reqbufs(alloc, Side::Out, 2, 4, hold), Ok(2));
    assert_eq!(rt; pair.create(alloc, Side::Cap, 2, 4, hold), Ok((0, 2)));
    assert_eq!(rt; pair.streamon(Side::Out, 4), Ok(()));
    assert_eq!(rt; pair.streamon(Side::Cap, 4), Ok(()));
    pair
}

/// Queues a buffer with 4 bytes.
fn queue(rt: &impl Abort, pair: &mut Pair, side: Side, index: u32, hold: &mut Hold)
    requires fit { FitsBoth pair.old hold.old }
    ensures fit { FitsBoth pair.new hold.new }
{
    assert!(rt; pair.queue(side).queued() < 100);
    assert_eq!(rt; pair.qbuf(side, index, 4, Stamp(7), 4, hold), Ok(()));
}

/// A job that uses up its source: whether its destination is the LAST one.
fn job(rt: &impl Abort, pair: &mut Pair, hold: &Hold) -> bool
    requires fit { FitsBoth pair.old hold.now }
    ensures fit { FitsBoth pair.new hold.now }
{
    assert!(rt; pair.front_due() && pair.phase() == Phase::Run);
    assert!(rt;
        pair.queue(Side::Out).front_ordinal().is_some() && !pair.queue(Side::Out).is_lent()
    );
    let source = pair.lend(Side::Out);
    assert!(rt;
        pair.queue(Side::Cap).front_ordinal().is_some() && !pair.queue(Side::Cap).is_lent()
    );
    let dest = pair.lend(Side::Cap);
    assert!(rt; pair.queue(Side::Out).retired() < 100);
    pair.retire_out(source, 0);
    assert!(rt; pair.queue(Side::Cap).retired() < 100);
    pair.retire_cap(dest, 4, 8, Stamp(7))
}

fn settle(rt: &impl Abort, pair: &mut Pair, hold: &Hold) -> bool
    requires fit { FitsBoth pair.old hold.now }
    ensures fit { FitsBoth pair.new hold.now }
{
    assert!(rt; pair.queue(Side::Cap).retired() < 100);
    pair.settle()
}

/// The flags of the buffer that is taken from CAPTURE, with used bytes and stamp.
fn take(rt: &impl Abort, pair: &mut Pair, hold: &mut Hold) -> (u32, u32, Stamp)
    requires fit { FitsBoth pair.old hold.old }
    ensures fit { FitsBoth pair.new hold.new }
{
    match pair.dqbuf(Side::Cap, hold) {
        Ok(
            Reply::Taken {
                index: _,
                used,
                flags,
                seq: _,
                stamp,
            },
        ) => (flags, used, stamp),
        _ => panic!(rt; "no buffer was taken"),
    }
}

#[test]
fn the_last_picture_of_a_drain_has_last(rt: HostRuntime) -> Result<(), Fail> {
    let mut hold = Hold::new();
    let mut pair = streaming(&rt, rt.alloc(), &mut hold);
    queue(&rt, &mut pair, Side::Out, 0, &mut hold);
    queue(&rt, &mut pair, Side::Out, 1, &mut hold);
    queue(&rt, &mut pair, Side::Cap, 0, &mut hold);
    queue(&rt, &mut pair, Side::Cap, 1, &mut hold);
    assert_eq!(rt; pair.stop(), Ok(()));
    assert!(rt; !settle(&rt, &mut pair, &hold));
    assert!(rt; !job(&rt, &mut pair, &hold));
    assert_eq!(rt; pair.stop(), Err(Errno::Busy));
    assert!(rt; job(&rt, &mut pair, &hold));
    assert_eq!(rt; pair.phase(), Phase::Last);
    assert_eq!(rt; take(&rt, &mut pair, &mut hold), (8, 4, Stamp(7)));
    assert_eq!(rt; take(&rt, &mut pair, &mut hold), (0x100008, 4, Stamp(7)));
    assert_eq!(rt; pair.phase(), Phase::Stopped);
    assert_eq!(rt; pair.dqbuf(Side::Cap, &mut hold), Err(Errno::Pipe));
    assert_eq!(rt; pair.start(4), Ok(()));
    assert_eq!(rt; pair.phase(), Phase::Run);
    assert_eq!(rt; pair.dqbuf(Side::Cap, &mut hold), Err(Errno::Again));
    Ok(())
}

#[test]
fn an_empty_drain_gives_an_empty_buffer(rt: HostRuntime) -> Result<(), Fail> {
    let mut hold = Hold::new();
    let mut pair = streaming(&rt, rt.alloc(), &mut hold);
    assert_eq!(rt; pair.stop(), Ok(()));
    assert!(rt; !settle(&rt, &mut pair, &hold));
    assert_eq!(rt; pair.phase(), Phase::Owe);
    assert_eq!(rt; pair.stop(), Err(Errno::Busy));
    assert_eq!(rt; pair.start(4), Err(Errno::Busy));
    queue(&rt, &mut pair, Side::Cap, 0, &mut hold);
    assert!(rt; settle(&rt, &mut pair, &hold));
    assert_eq!(rt; take(&rt, &mut pair, &mut hold), (0x100000, 0, Stamp(0)));
    assert_eq!(rt; pair.stop(), Ok(()));
    assert!(rt; !settle(&rt, &mut pair, &hold));
    assert_eq!(rt; pair.phase(), Phase::Stopped);
    Ok(())
}

/// The phase after a pair that stopped so came to the phase and one of its queues stopped streaming.
fn after_off(rt: &impl Abort, alloc: Global, by_change: bool, phase: Phase, side: Side) -> Phase {
    let mut hold = Hold::new();
    let mut pair = streaming(rt, alloc, &mut hold);
    if by_change {
        assert!(rt; !pair.queue(Side::Out).is_lent() && !pair.queue(Side::Cap).is_lent());
        pair.change();
    } else {
        assert_eq!(rt; pair.stop(), Ok(()));
    }
    assert!(rt; !settle(rt, &mut pair, &hold));
    if phase != Phase::Owe {
        queue(rt, &mut pair, Side::Cap, 1, &mut hold);
        assert_eq!(rt; settle(rt, &mut pair, &hold), !by_change);
    }
    if phase == Phase::Stopped {
        assert_eq!(rt; take(rt, &mut pair, &mut hold), (0x100000, 0, Stamp(0)));
    }
    assert_eq!(rt; pair.phase(), phase);
    assert!(rt; !pair.queue(Side::Out).is_lent() && !pair.queue(Side::Cap).is_lent());
    pair.streamoff(side, &mut hold);
    pair.phase()
}

#[test]
fn streaming_off_ends_a_stop(rt: HostRuntime) -> Result<(), Fail> {
    for phase in [Phase::Owe, Phase::Last, Phase::Stopped] {
        for (by_change, side, after) in [
            (false, Side::Out, Phase::Run),
            (false, Side::Cap, Phase::Run),
            (true, Side::Out, phase),
            (true, Side::Cap, Phase::Run),
        ] {
            assert_eq!(rt; after_off(&rt, rt.alloc(), by_change, phase, side), after);
        }
    }
    Ok(())
}

/// The phase, and what STOP answers, after a drain began with a buffer left, a change stopped it or not, and a queue
/// was restarted.
fn after_restart(
    rt: &impl Abort,
    alloc: Global,
    by_change: bool,
    side: Side,
) -> (Phase, Result<(), Errno>) {
    let mut hold = Hold::new();
    let mut pair = streaming(rt, alloc, &mut hold);
    queue(rt, &mut pair, Side::Out, 0, &mut hold);
    assert_eq!(rt; pair.stop(), Ok(()));
    assert!(rt; !pair.queue(Side::Out).is_lent() && !pair.queue(Side::Cap).is_lent());
    if by_change {
        pair.change();
    }
    assert!(rt; !settle(rt, &mut pair, &hold));
    assert_eq!(rt; pair.stop(), Err(Errno::Busy));
    assert!(rt; !pair.queue(Side::Out).is_lent() && !pair.queue(Side::Cap).is_lent());
    pair.streamoff(side, &mut hold);
    assert_eq!(rt; pair.streamon(side, 4), Ok(()));
    (pair.phase(), pair.stop())
}

#[test]
fn restarting_a_queue_gives_a_drain_up(rt: HostRuntime) -> Result<(), Fail> {
    for (by_change, side, phase, answer) in [
        (false, Side::Out, Phase::Run, Ok(())),
        (false, Side::Cap, Phase::Run, Ok(())),
        (true, Side::Out, Phase::Owe, Ok(())),
        (true, Side::Cap, Phase::Run, Err(Errno::Busy)),
    ] {
        assert_eq!(rt;
            after_restart(&rt, rt.alloc(), by_change, side),
            (phase, answer)
        );
    }
    Ok(())
}
