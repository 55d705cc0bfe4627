//! What the codec lends to a job.

ghost use Rattle.std.specs.Prelude.{◌≡◌, ◌∷◌, [], ◌==◌, None, true, false, position};
ghost use Rattle.std.specs.List.{list_any};
ghost use Rattle.std.specs.List.Sorted.{IsPermutation};
ghost use Rattle.vc_defs.specs.Decoder.{kept_bytes};
ghost use Rattle.vc_defs.specs.Finds.{nothing_kept};
ghost use Rattle.vc_work.specs.References.{HasRoomFor};
ghost use Rattle.vc_work.specs.Streams.{decoder_of, picture_of, kept_of};
ghost use Rattle.vc_dec.specs.Decoders.{serves};
ghost use Rattle.vc_dec.specs.Parts.{limit_of, room_of, rooms_of};

use super::{Codec, is_as_long};
use std::mem;
use vc_resync::Assembly;
use vc_work::Reference;

/// The place of the first reference that is as long as that.
fn place_of(references: &[Reference], length: usize) -> Option<usize>
    ensures { result ≡ position (λ r. r.size == length) references.now }
{
    references.iter().position(|r| r.room() == length)
}

/// The other reference takes the picture over, and changes places with the present one.
fn change_places(present: &mut Reference, other: &mut Reference)
    requires { HasRoomFor present.old.state.reference other.old.size }
    ensures present { present.new ≡ record { size = other.old.size; state = present.old.state } }
    ensures other { other.new ≡ present.old }
{
    other.take_over(present);
    mem::swap(present, other);
}

/// Makes the present reference one of the length, with the present picture: it changes places with another one.
/// Where there is no present one, the other one begins anew.
fn bring_forward(present: &mut Option<Reference>, others: &mut Vec<Reference>, length: usize)
    requires there { list_any (λ r. r.size == length) others.old.items ≡ true }
    requires room { HasRoomFor (picture_of present.old) length }
    ensures length { room_of present.new ≡ length ∷ [] }
    ensures picture { picture_of present.new ≡ picture_of present.old }
    ensures rooms { IsPermutation (rooms_of present.old others.old.items) (rooms_of present.new others.new.items) }
{
    let Some(place) = place_of(others, length) else {
        unreachable!()
    };
    match present {
        Some(present) => change_places(present, &mut others[place]),
        None => {
            let mut other = others.swap_remove(place);
            other.reset();
            *present = Some(other);
        }
    }
}

impl Codec {
    /// Lends the assembly, with what it keeps.
    pub(crate) fn lend_assembly(&mut self) -> Option<Assembly>
        ensures kept { kept_of result ≡ kept_bytes self.old.state }
        ensures limit { limit_of result ≡ self.old.limit }
        ensures left { self.new ≡ record self.old { state = decoder_of self.old.state.reference nothing_kept; limit = None } }
    {
        self.assembly.take()
    }

    /// Lends the reference for a destination of the length, with the picture. The other ones stay.
    pub(crate) fn lend_reference(&mut self, length: usize) -> Option<Reference>
        requires served { serves self.old.rooms length ≡ true }
        requires room { HasRoomFor self.old.state.reference length }
        ensures length { room_of result ≡ length ∷ [] }
        ensures picture { picture_of result ≡ self.old.state.reference }
        ensures rooms { IsPermutation self.old.rooms (length ∷ self.new.rooms) }
        ensures left { self.new ≡ record { state = record self.old.state { reference = None }; limit = self.old.limit; rooms = self.new.rooms; present = false } }
    {
        if !is_as_long(&self.present, length) {
            bring_forward(&mut self.present, &mut self.others, length);
        }
        self.present.take()
    }
}
