//! A turn at the lock.
ghost use Rattle.std.specs.Prelude.{◌≡◌, ◌<◌, ◌^◌, true, false, length};
ghost use mathlib.Core.List.{IsPrefix};
ghost use Rattle.vc_turn.specs.History.{places};
ghost use Rattle.vc_shared.specs.Histories.{StandsForLog};

use crate::held::{Held, Sizes};
use std::sync::Wait;
use std::thread;
use vc_core::Core;
use vc_turn::{Turn, TurnSeat};

/// Takes the turn, and with it the core of the device, which stands for the history.
///
/// The lock says of its value only for which histories it stands, and not how large the device is. So the sizes
/// are compared; lock and seats are made with the same. It would not return where they differ.
pub(crate) fn enter<R: Wait>(
    rt: &R,
    turn: &Turn<Held>,
    seat: &mut TurnSeat<Held>,
    sizes: Sizes,
) -> Core
    requires own { seat.old.turn ≡ turn.now }
    requires free { seat.old.serving ≡ false }
    ensures turn { seat.new ≡ record seat.old { seen = seat.new.seen; ticket = seat.new.ticket; serving = true; noted = false } }
    ensures seen { IsPrefix seat.old.seen seat.new.seen }
    ensures own { places seat.new.number seat.new.seen ≡ seat.new.mine }
    ensures core { StandsForLog sizes.slots sizes.workers result seat.new.seen }
    ensures limit { length seat.new.seen < 2 ^ 62 }
{
    let Held { core, sizes: made } = turn.take(rt, seat);
    if made.slots == sizes.slots && made.workers == sizes.workers {
        return core;
    }
    for _ in rt.forever() {
        thread::yield_now();
    }
    unreachable!()
}
