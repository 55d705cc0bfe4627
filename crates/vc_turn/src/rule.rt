//! What the table of the lock contains, and what each seat knows.
use atomic_table::TableRule;
use std::collections::LinkedList;
use std::marker::{Brand, Model};

/// For which histories a value stands: those that it may be the outcome of. It is a meaning alone, and has no
/// functions.
pub trait Stands {
    ghost use Rattle.std.specs.Prelude.{List};
    ghost use Rattle.vc_turn.specs.declared.rule.Noted.{Noted};

    ghost stands: { Self → List Noted → Type 0 };
}

/// The event of an entry. The caller of `Turn::note` names it by a type of which no value is made.
pub trait Entry {
    ghost use Rattle.vc_base.specs.Device.{DeviceEvent};

    ghost event: { DeviceEvent };
}

// A caller picks the event at each call by `Brand`, which any event may stand behind.
impl Entry for Brand {
    ghost use Rattle.vc_base.specs.Device.{shut};

    ghost event = { shut };
}

/// An event of the device, as a part of an entry. No value of it is made.
pub struct Event {
    _nothing: (),
}

impl Model for Event {
    ghost use Rattle.vc_base.specs.Device.{DeviceEvent, shut};

    ghost Value = { DeviceEvent };

    ghost view = { λ _. shut };
}

/// An entry of the history. No value of it is made.
pub struct Noted {
    /// The number of the seat that noted it.
    pub seat: u64,
    /// What happened.
    pub event: Event,
}

/// What seat 0 keeps of a seat that was joined. No value of it is made.
pub struct Kept {
    /// The number that the seat had.
    pub number: u64,
    /// The history at the end of its last turn.
    pub seen: LinkedList<Noted>,
    /// The places of its entries in the history, from 0.
    pub mine: LinkedList<u64>,
}

/// What a seat knows. No value of it is made.
pub struct View {
    /// The seat's number, from 0.
    pub number: u64,
    /// The history at the end of the last turn.
    pub seen: LinkedList<Noted>,
    /// The places of the seat's own entries in the history, from 0.
    pub mine: LinkedList<u64>,
    /// False once the seat was joined.
    pub seated: bool,
    /// It has drawn a ticket whose turn has not ended.
    pub queued: bool,
    /// The ticket that it drew last.
    pub ticket: u64,
    /// It is in its turn.
    pub serving: bool,
    /// It noted its entry in this turn.
    pub noted: bool,
    /// Of seat 0: how many seats were made.
    pub made: u64,
    /// Of seat 0: the lists of the seats that were joined.
    pub kept: LinkedList<Kept>,
}

/// The words are the next ticket, the ticket that is served, and the length of the history. The slot holds the value.
pub struct Line;

impl<V: Stands> TableRule<Option<V>, View, ()> for Line {
    ghost use Rattle.vc_turn.specs.Rule.{IsOrderly, newcomer};

    ghost holds = { λ _. IsOrderly V.stands };

    ghost first = { λ _. newcomer 0 1 };
}
