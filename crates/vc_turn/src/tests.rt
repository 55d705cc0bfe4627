ghost use Rattle.std.specs.Prelude.{◌≡◌, ◌+◌, false, length};
ghost use Rattle.vc_turn.specs.Place.{Place};

use super::*;
use std::sync::Wait;
use std::test::Fail;

// It stands for the histories of that length.
#[derive(Drop)]
struct Tally {
    noted: u64,
}

impl Stands for Tally {
    ghost use Rattle.std.specs.Prelude.{◌≡◌, length};

    ghost stands = { λ tally log. tally.noted ≡ length log };
}

struct FirstClaims;

impl Entry for FirstClaims {
    ghost use Rattle.vc_base.specs.Device.{claim};

    ghost event = { claim 0 };
}

// Takes a turn, and notes one entry in it.
fn note_one<R: Wait>(rt: &R, turn: &Turn<Tally>, seat: &mut TurnSeat<Tally>)
    requires own { seat.old.turn ≡ turn.now }
    requires free { seat.old.serving ≡ false }
    ensures { seat.new ≡ record seat.old { seen = seat.new.seen; mine = seat.new.mine; ticket = seat.new.ticket; noted = false } }
{
    let tally = turn.take(rt, seat);
    turn.note::<FirstClaims>(seat);
    turn.put(
        seat,
        Tally {
            noted: tally.noted + 1,
        },
    );
}

#[test]
fn each_entry_is_counted(rt: HostRuntime) -> Result<(), Fail> {
    let (turn, mut seats) = Turn::make(rt.alloc(), 2, Tally { noted: 0 }).expect(&rt, "memory");
    let mut second = seats.pop().expect(&rt, "the second seat");
    let mut first = seats.pop().expect(&rt, "the first seat");
    note_one(&rt, &turn, &mut second);
    note_one(&rt, &turn, &mut first);
    note_one(&rt, &turn, &mut second);
    turn.join(&mut first, second);
    let tally = turn.close(first);
    assert_eq!(rt; tally.noted, 3);
    Ok(())
}
