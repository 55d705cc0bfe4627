//! Settling, which every call and every finish ends with.

ghost use Rattle.std.specs.Prelude.{◌≡◌, ◌<◌, ◌^◌};
ghost use Rattle.vc_pair.specs.Pairs.{pair_settled, IsSettled, FitsBoth};
ghost use Rattle.vc_queue.specs.Holds.{HoldState};
ghost use Rattle.vc_m2m.specs.Settling.{end_raised, events_settled};

use vc_base::limits::EOS_EVENT;
use vc_event::Events;
use vc_pair::Pair;

/// Raises the event of the end of a drain, where one has come to its end.
pub fn raise_end(ended: bool, events: &mut Events)
    requires { events.old.next_seq < 2 ^ 62 }
    ensures { events.new ≡ end_raised ended events.old }
{
    if ended {
        events.raise(EOS_EVENT, 0);
    }
}

/// Settles: the LAST buffer of a drain that has come to its end is given as soon as a CAPTURE buffer is
/// ready for it, and then the end is told by an event.
pub fn settle(pair: &mut Pair, events: &mut Events)
    requires done { pair.old.cap.next_seq < 2 ^ 62 }
    requires raised { events.old.next_seq < 2 ^ 62 }
    ensures queues { pair.new ≡ pair_settled pair.old }
    ensures told { events.new ≡ events_settled pair.old events.old }
    ensures settled { IsSettled pair.new }
    ensures fit { (hold : HoldState) → FitsBoth pair.old hold → FitsBoth pair.new hold }
{
    let ended = pair.settle();
    raise_end(ended, events);
}
