//! A call in a turn of its own.
ghost use Rattle.std.specs.Prelude.{◌≡◌, ◌≢◌};
ghost use Rattle.vc_base.specs.declared.Reply.TheVariants.{Blocked};
ghost use Rattle.vc_context.specs.Payloads.{handed_over};
ghost use Rattle.vc_port.specs.Payloads.{IsCallOn};
ghost use Rattle.vc_shared.specs.Following.{SeatGrows};
ghost use Rattle.vc_shared.specs.Handles.{seat_of, handle_at, slot_events, IsSlotSeat};
ghost use Rattle.vc_shared.specs.Calls.{found_for, AnswersCall, BlocksCall};

use crate::held::{Held, Sizes};
use crate::notes::{HandedOver, note_call};
use crate::turns::enter;
use std::marker::Brand;
use std::sync::Wait;
use vc_base::{Call, Errno, Reply};
use vc_queue::hold::Hold;
use vc_turn::{Turn, TurnSeat};

/// Whether memory was found, as the reply says.
fn found_memory(reply: &Reply) -> bool
    ensures { result ≡ found_for reply.now }
{
    match reply {
        Reply::Refused {
            errno: Errno::NoMem,
        } => false,
        _ => true,
    }
}

/// Makes a call on a slot in a turn of its own. Where it answers Blocked nothing is noted. `B` names the bytes that
/// the call hands over.
pub(crate) fn make_call<B: HandedOver, R: Wait>(
    rt: &R,
    turn: &Turn<Held>,
    seat: &mut TurnSeat<Held>,
    sizes: Sizes,
    slot: u32,
    request: &Call,
    hold: &mut Hold,
) -> Reply
    requires own { seat.old.turn ≡ turn.now }
    requires seat { IsSlotSeat seat.old sizes slot hold.old }
    requires bytes { B.bytes ≡ handed_over request.now hold.old }
    ensures lock { seat.new.turn ≡ seat.old.turn }
    ensures knows { SeatGrows (seat_of seat.old) (seat_of seat.new) }
    ensures seat { IsSlotSeat seat.new sizes slot hold.new }
    ensures solo { IsCallOn (slot_events (handle_at seat.old sizes slot hold.old)) hold.old request.now result (slot_events (handle_at seat.new sizes slot hold.new)) hold.new }
    ensures blocked { result ≡ Blocked → BlocksCall (handle_at seat.old sizes slot hold.old) (handle_at seat.new sizes slot hold.new) request.now }
    ensures answered { result ≢ Blocked → AnswersCall (handle_at seat.old sizes slot hold.old) (handle_at seat.new sizes slot hold.new) request.now result }
{
    let mut core = enter(rt, turn, seat, sizes);
    let reply = core.call(slot, request, hold);
    if let Reply::Blocked = reply {
        turn.put(seat, Held { core, sizes });
    } else {
        let found = found_memory(&reply);
        note_call::<B, Brand>(turn, seat, slot, request, found);
        turn.put(seat, Held { core, sizes });
    }
    reply
}
