//! Messages out of bytes that come in pieces.

ghost use Rattle.std.specs.Prelude.{◌≡◌, ◌≤◌, ◌+◌, ◌==◌, ◌++◌, not, [], length, take, IfOk, OnOk, OnErr};
ghost use Rattle.vc_model.specs.Messages.{fed, is_length, number_at};
ghost use Rattle.vc_wire.specs.Framing.{told_by};

use byteorder::{BigEndian, ByteOrder};
use std::alloc::Global;
use std::marker::Model;
use std::mem;
use vc_base::NoMemory;
use vc_base::limits::LONGEST_MESSAGE;

/// The bytes of a message's length.
const LENGTH_SIZE: usize = 4;

/// What a piece of the bytes brings.
#[derive(Clone, Copy, Debug, PartialEq, Eq)]
pub enum Framed {
    /// The whole piece was taken, and no message ended.
    More,
    /// A message ended, and the framer has its body.
    Whole,
    /// The length of a message is 0, or more than the longest body has.
    BadLength,
}

/// Cuts bytes into messages, in whatever pieces they come. A message is a length of 32 bits, the high byte first, from 1
/// to 17,694,781, and a body of so many bytes. The memory for a message grows as its bytes come.
#[derive(Drop)]
pub struct Framer {
    kept: Vec<u8>,
    message: Vec<u8>,
}

impl Model for Framer {
    ghost use Rattle.std.specs.Prelude.{drop};
    ghost use Rattle.vc_wire.specs.Framing.{Framing, IsBegun};

    ghost Value = { Framing };

    ghost view = { λ s. record { kept = s.kept.items; body = drop 4 s.message.items } };

    ghost invariant = { λ s. IsBegun s.kept.items };
}

/// The length that the bytes of a message begin with, of which so many were kept and the others come.
fn length_of(kept: &[u8], piece: &[u8]) -> u32
    requires { 4 ≤ length kept.now + length piece.now }
    ensures { result ≡ number_at (kept.now ++ piece.now) 0 }
{
    let mut bytes = [0u8; LENGTH_SIZE];
    let had = kept.len().min(LENGTH_SIZE);
    bytes[..had].copy_from_slice(&kept[..had]);
    bytes[had..].copy_from_slice(&piece[..LENGTH_SIZE - had]);
    BigEndian::read_u32(&bytes)
}

/// Whether a message may be so long.
fn is_length(length: u32) -> bool
    ensures { result ≡ is_length length }
{
    1 <= length && length <= LONGEST_MESSAGE
}

impl Framer {
    /// A framer before the first byte.
    pub fn make(alloc: Global) -> Framer
        ensures kept { result.kept ≡ [] }
        ensures body { result.body ≡ [] }
    {
        Framer {
            kept: Vec::new(alloc),
            message: Vec::new(alloc),
        }
    }

    /// Takes bytes of the piece up to the end of the message that is begun, and tells how many. A length out of range is
    /// told as soon as its four bytes are there, and again from then on, with no byte taken.
    ///
    /// # Errors
    /// `NoMemory` where no memory is found for the bytes. Then none was taken, and the framer is as it was.
    pub fn feed(&mut self, piece: &[u8]) -> Result<(usize, Framed), NoMemory>
        ensures taken { IfOk result (λ r. r.0 ≡ (fed self.old.kept piece.now).taken) }
        ensures kept { OnOk result (self.new.kept ≡ (fed self.old.kept piece.now).kept) }
        ensures told { IfOk result (λ r. told_by r.1 self.new.body ≡ (fed self.old.kept piece.now).told) }
        ensures within { IfOk result (λ r. r.0 ≤ length piece.now) }
        ensures unchanged { OnErr result (self.new ≡ self.old) }
    {
        let had = self.kept.len();
        if had + piece.len() < LENGTH_SIZE {
            self.kept.extend_from_slice(piece)?;
            return Ok((piece.len(), Framed::More));
        }
        let length = length_of(&self.kept, piece);
        if !is_length(length) {
            let count = LENGTH_SIZE - had;
            self.kept.extend_from_slice(&piece[..count])?;
            return Ok((count, Framed::BadLength));
        }
        let count = LENGTH_SIZE + length as usize - had;
        if piece.len() < count {
            self.kept.extend_from_slice(piece)?;
            return Ok((piece.len(), Framed::More));
        }
        self.kept.extend_from_slice(&piece[..count])?;
        mem::swap(&mut self.kept, &mut self.message);
        self.kept.clear();
        Ok((count, Framed::Whole))
    }

    /// Whether a message is begun.
    pub fn is_begun(&self) -> bool
        ensures { result ≡ not (length self.now.kept == 0) }
    {
        !self.kept.is_empty()
    }

    /// The body of the last message that ended; no bytes before the first one.
    pub fn body(&self) -> &[u8]
        ensures { result.now ≡ self.now.body }
    {
        match self.message.get(LENGTH_SIZE..) {
            Some(body) => body,
            None => &[],
        }
    }
}
