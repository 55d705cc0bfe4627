//! What the codec keeps from run to run.

ghost use Rattle.std.specs.Prelude.{◌≡◌, ◌==◌, IfOk, OnErr, IsTrue, is_ok, is_some, if◌then◌else◌};
ghost use Rattle.std.specs.List.{list_any};
ghost use Rattle.vc_defs.specs.Decoder.{fresh_decoder};
ghost use Rattle.vc_defs.specs.Finds.{nothing_kept};
ghost use Rattle.vc_work.specs.Streams.{kept_of};
ghost use Rattle.vc_dec.specs.Decoders.{serves};
ghost use Rattle.vc_dec.specs.Parts.{no_parts, begun, room_of, limit_of, supplied_with, replaced_by, rooms_with, CanTakeOver, new_assembly, new_reference};

mod lending;
mod returning;

use std::alloc::Global;
use std::marker::Model;
use vc_base::NoMemory;
use vc_resync::Assembly;
use vc_work::Reference;

/// What the codec keeps from run to run: an assembly for the bytes that later ones may make into a frame, while
/// OUTPUT has buffers; and for each length of CAPTURE's buffers a reference that is as long. The present
/// reference is that of the last run. It has the picture that later frames refer to.
#[derive(Drop)]
pub(crate) struct Codec {
    assembly: Option<Assembly>,
    present: Option<Reference>,
    others: Vec<Reference>,
}

impl Model for Codec {
    ghost use Rattle.vc_dec.specs.Decoders.{CodecParts};
    ghost use Rattle.vc_dec.specs.Parts.{parts_of};

    ghost Value = { CodecParts };

    ghost view = { λ c. parts_of c.assembly c.present c.others.items };
}

/// An assembly for bodies of so many bytes, where it is needed.
pub(crate) fn new_assembly(
    alloc: Global,
    needed: bool,
    limit: u32,
) -> Result<Option<Assembly>, NoMemory>
    ensures made { IfOk result (λ a. a ≡ new_assembly needed limit) }
    ensures asked { OnErr result (IsTrue needed) }
{
    if !needed {
        return Ok(None);
    }
    let assembly = Assembly::make(alloc, limit)?;
    Ok(Some(assembly))
}

/// A reference for CAPTURE buffers of the length, where it is needed.
pub(crate) fn new_reference(
    alloc: Global,
    needed: bool,
    length: u32,
) -> Result<Option<Reference>, NoMemory>
    ensures made { IfOk result (λ r. r ≡ new_reference needed length) }
    ensures asked { OnErr result (IsTrue needed) }
{
    if !needed {
        return Ok(None);
    }
    let reference = Reference::make(alloc, length)?;
    Ok(Some(reference))
}

/// Whether one of the references is as long as that.
fn one_serves(references: &[Reference], length: u32) -> bool
    ensures { result ≡ list_any (λ r. r.size == length) references.now }
{
    references.iter().any(|r| r.room() == length as usize)
}

/// Whether the reference, where there is one, is as long as that.
fn is_as_long(reference: &Option<Reference>, length: usize) -> bool
    ensures { result ≡ serves (room_of reference.now) length }
{
    match reference {
        Some(reference) => reference.room() == length,
        None => false,
    }
}

impl Codec {
    /// Nothing is kept.
    pub(crate) fn new(alloc: Global) -> Codec
        ensures { result ≡ no_parts }
    {
        Codec {
            assembly: None,
            present: None,
            others: Vec::new(alloc),
        }
    }

    /// Begins anew: what was kept is dropped.
    pub(crate) fn reset(&mut self)
        ensures { self.new ≡ record self.old { state = fresh_decoder } }
    {
        if let Some(assembly) = &mut self.assembly {
            assembly.reset();
        }
        if let Some(reference) = &mut self.present {
            reference.reset();
        }
    }

    /// Begins anew with another assembly, in which nothing is kept, or without one.
    pub(crate) fn begin(&mut self, assembly: Option<Assembly>)
        requires { kept_of assembly ≡ nothing_kept }
        ensures { self.new ≡ begun (limit_of assembly) self.old }
    {
        self.assembly = assembly;
        if let Some(reference) = &mut self.present {
            reference.reset();
        }
    }

    /// Begins anew with another assembly, in which nothing is kept, where there is one.
    pub(crate) fn supply(&mut self, assembly: Option<Assembly>)
        requires { kept_of assembly ≡ nothing_kept }
        ensures { self.new ≡ supplied_with assembly self.old }
    {
        if assembly.is_some() {
            self.begin(assembly);
        }
    }

    /// Whether there is a reference for buffers of the length.
    pub(crate) fn serves(&self, length: u32) -> bool
        ensures { result ≡ serves self.now.rooms length }
    {
        is_as_long(&self.present, length as usize) || one_serves(&self.others, length)
    }

    /// Puts a reference, where there is one, in the place of all that are there. It takes the picture over.
    pub(crate) fn replace(&mut self, reference: Option<Reference>)
        requires { CanTakeOver self.old.state.reference reference }
        ensures { self.new ≡ replaced_by reference self.old }
    {
        let Some(mut reference) = reference else {
            return;
        };
        if let Some(present) = &self.present {
            reference.take_over(present);
        }
        self.present = Some(reference);
        self.others.clear();
    }

    /// Keeps one more reference, where there is one.
    ///
    /// # Errors
    /// `NoMemory` where no memory is found. All is then as it was.
    pub(crate) fn add(&mut self, reference: Option<Reference>) -> Result<(), NoMemory>
        ensures after { self.new ≡ (if is_ok result then record self.old { rooms = rooms_with reference self.old.rooms } else self.old) }
        ensures asked { OnErr result (IsTrue (is_some reference)) }
    {
        let Some(reference) = reference else {
            return Ok(());
        };
        match self.others.push(reference) {
            Ok(()) => Ok(()),
            Err(_) => Err(NoMemory),
        }
    }
}
