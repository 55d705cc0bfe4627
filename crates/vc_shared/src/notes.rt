//! Notes whose event is fixed by what a function is given.
ghost use Rattle.std.specs.Prelude.{◌≡◌, ℕ, List, true, false};
ghost use Rattle.vc_base.specs.Device.{call, claim, finish, shut};
ghost use Rattle.vc_turn.specs.History.{places};
ghost use Rattle.vc_turn.specs.Place.{with_entry};

use crate::held::Held;
use std::marker::Brand;
use vc_base::Call;
use vc_turn::{Entry, Turn, TurnSeat};

/// The bytes that a call hands over. They are named by a type of which no value is made.
pub(crate) trait HandedOver {
    ghost bytes: { List ℕ };
}

impl HandedOver for Brand {
    ghost use Rattle.std.specs.Prelude.{[]};

    ghost bytes = { [] };
}

/// Notes a call on a slot.
pub(crate) fn note_call<B: HandedOver, E: Entry>(
    turn: &Turn<Held>,
    seat: &mut TurnSeat<Held>,
    slot: u32,
    request: &Call,
    found: bool,
)
    requires event { E.event ≡ call slot request.now B.bytes found }
    requires own { seat.old.turn ≡ turn.now }
    requires turn { (seat.old.serving ≡ true) × (seat.old.noted ≡ false) }
    ensures noted { seat.new ≡ with_entry seat.old (call slot request.now B.bytes found) }
    ensures own { places seat.new.number seat.new.seen ≡ seat.new.mine }
{
    turn.note::<E>(seat);
}

/// Notes a Shut.
pub(crate) fn note_shut<E: Entry>(turn: &Turn<Held>, seat: &mut TurnSeat<Held>)
    requires event { E.event ≡ shut }
    requires own { seat.old.turn ≡ turn.now }
    requires turn { (seat.old.serving ≡ true) × (seat.old.noted ≡ false) }
    ensures noted { seat.new ≡ with_entry seat.old shut }
    ensures own { places seat.new.number seat.new.seen ≡ seat.new.mine }
{
    turn.note::<E>(seat);
}

/// Notes a claim.
pub(crate) fn note_claim<E: Entry>(turn: &Turn<Held>, seat: &mut TurnSeat<Held>, worker: u32)
    requires event { E.event ≡ claim worker }
    requires own { seat.old.turn ≡ turn.now }
    requires turn { (seat.old.serving ≡ true) × (seat.old.noted ≡ false) }
    ensures noted { seat.new ≡ with_entry seat.old (claim worker) }
    ensures own { places seat.new.number seat.new.seen ≡ seat.new.mine }
{
    turn.note::<E>(seat);
}

/// Notes a finish.
pub(crate) fn note_finish<E: Entry>(
    turn: &Turn<Held>,
    seat: &mut TurnSeat<Held>,
    worker: u32,
    fault: bool,
)
    requires event { E.event ≡ finish worker fault }
    requires own { seat.old.turn ≡ turn.now }
    requires turn { (seat.old.serving ≡ true) × (seat.old.noted ≡ false) }
    ensures noted { seat.new ≡ with_entry seat.old (finish worker fault) }
    ensures own { places seat.new.number seat.new.seen ≡ seat.new.mine }
{
    turn.note::<E>(seat);
}
