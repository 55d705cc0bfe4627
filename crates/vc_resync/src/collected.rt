//! The bytes that are kept between two pieces, and what stands in them.

ghost use Rattle.std.specs.Prelude.{◌≡◌, ◌<◌, ◌≤◌, ◌+◌, ℕ, List, [], ◌++◌, length, take, drop, nat_lt, if◌then◌else◌, IfOk, vec_len, vec_capacity};
ghost use Rattle.vc_base.specs.Limits.{header_size};
ghost use Rattle.vc_defs.specs.Headers.{magic};
ghost use Rattle.vc_defs.specs.Places.{start_of_magic};
ghost use Rattle.vc_resync.specs.Seeking.{Sought};
ghost use Rattle.vc_resync.specs.Assembling.{IsLegalAnswer};
ghost use Rattle.vc_resync.specs.declared.feeding.Found.TheVariants.{More};
ghost use Rattle.vc_resync.specs.Collecting.{put_at, kept_in, HasRoom, IsSound, IsBegun, IsOpen, Taken, HeadTaken, Grows};

use crate::feeding::Found;
use crate::seeking::{MAGIC, seek};
use std::alloc::Global;
use vc_base::NoMemory;
use vc_base::limits::HEADER_SIZE;
use vc_defs::Header;

/// What the kept bytes are.
#[derive(Clone, Copy)]
pub(crate) enum Stage {
    /// So many of the magic's first bytes, 7 at most.
    Seeking { matched: usize },
    /// A magic and what stands behind it, in the first bytes of the head: 8 to 43 bytes.
    Begun { length: usize },
    /// A legal header that was told, which is the whole head, and what is there of its frame's body, which is all of
    /// `body`. No magic stands behind the header's own, but the first `matched` bytes of one stand at the end.
    Open { header: Header, matched: usize },
}

/// The kept bytes, and the most bytes of a body. They stand where a header and its body do, so that no byte of a frame
/// is moved again. The body's memory is touched only where a byte of a frame is put. A whole frame's body stands until
/// the next header is read.
#[derive(Drop)]
pub(crate) struct Collected {
    pub(crate) limit: u32,
    pub(crate) head: [u8; HEADER_SIZE],
    pub(crate) body: Vec<u8>,
    pub(crate) stage: Stage,
}

/// Puts bytes at a place.
fn put(out: &mut [u8], at: usize, bytes: &[u8])
    requires { at + length bytes.now ≤ length out.old }
    ensures { out.new ≡ put_at out.old at bytes.now }
{
    out[at..at + bytes.len()].copy_from_slice(bytes);
}

/// Puts bytes behind those of a body that has room for them.
fn append(body: &mut Vec<u8>, bytes: &[u8])
    requires { vec_len body.old + length bytes.now ≤ vec_capacity body.old }
    ensures items { body.new.items ≡ body.old.items ++ bytes.now }
    ensures room { vec_capacity body.old ≤ vec_capacity body.new }
{
    let Ok(()) = body.extend_from_slice(bytes) else {
        unreachable!()
    };
}

impl Collected {
    /// Nothing is kept. The body is empty, with room for `limit` bytes.
    pub(crate) fn make(alloc: Global, limit: u32) -> Result<Collected, NoMemory>
        ensures limit { IfOk result (λ c. c.limit ≡ limit) }
        ensures nothing { IfOk result (λ c. kept_in c ≡ []) }
        ensures sound { IfOk result (λ c. IsSound c) }
    {
        let body = Vec::with_capacity(alloc, limit as usize)?;
        Ok(Collected {
            limit,
            head: [0; HEADER_SIZE],
            body,
            stage: Stage::Seeking { matched: 0 },
        })
    }

    /// Nothing is kept any more.
    pub(crate) fn clear(&mut self)
        requires { IsSound self.old }
        ensures limit { self.new.limit ≡ self.old.limit }
        ensures nothing { kept_in self.new ≡ [] }
        ensures sound { IsSound self.new }
    {
        self.stage = Stage::Seeking { matched: 0 };
    }

    /// How many bytes are kept.
    pub(crate) fn len(&self) -> usize
        requires { IsSound self.now }
        ensures { result ≡ length (kept_in self.now) }
    {
        match &self.stage {
            Stage::Seeking { matched } => *matched,
            Stage::Begun { length } => *length,
            Stage::Open { .. } => HEADER_SIZE + self.body.len(),
        }
    }

    /// Goes on with the next bytes up to where something is told, or where what is kept is something else. Gives how
    /// many of them it took.
    pub(crate) fn advance(&mut self, bytes: &[u8]) -> (usize, Found)
        requires { IsSound self.old }
        ensures limit { self.new.limit ≡ self.old.limit }
        ensures sound { IsSound self.new }
        ensures inside { result.0 ≤ length bytes.now }
        ensures grows { Grows (length (kept_in self.old)) result.0 (length (kept_in self.new)) }
        ensures taken { Taken self.old.limit (kept_in self.old) (take result.0 bytes.now) result.1 self.new.body.items (kept_in self.new) }
        ensures legal { IsLegalAnswer self.old.limit result.1 }
        ensures moves { result.1 ≡ More → 0 < length bytes.now → 0 < result.0 }
    {
        match self.stage {
            Stage::Seeking { matched } => self.look_on(matched, bytes),
            Stage::Begun { length } => self.go_on(length, bytes),
            Stage::Open { header, matched } => self.fill(header, matched, bytes),
        }
    }

    /// Looks for the magic. No byte is moved.
    fn look_on(&mut self, matched: usize, bytes: &[u8]) -> (usize, Found)
        requires sound { IsSound self.old }
        requires few { matched < 8 }
        ensures limit { self.new.limit ≡ self.old.limit }
        ensures sound { IsSound self.new }
        ensures inside { result.0 ≤ length bytes.now }
        ensures grows { Grows (length (take matched magic)) result.0 (length (kept_in self.new)) }
        ensures taken { Taken self.old.limit (take matched magic) (take result.0 bytes.now) result.1 self.new.body.items (kept_in self.new) }
        ensures legal { IsLegalAnswer self.old.limit result.1 }
        ensures moves { 0 < length bytes.now → 0 < result.0 }
    {
        let (count, matched) = seek(matched, bytes);
        if matched == 8 {
            put(&mut self.head, 0, &MAGIC);
            self.stage = Stage::Begun { length: 8 };
        } else {
            self.stage = Stage::Seeking { matched };
        }
        (count, Found::More)
    }

    /// Takes the bytes behind a magic, up to 44 in all.
    fn go_on(&mut self, there: usize, bytes: &[u8]) -> (usize, Found)
        requires sound { IsSound self.old }
        requires begun { IsBegun self.old.head there }
        ensures limit { self.new.limit ≡ self.old.limit }
        ensures sound { IsSound self.new }
        ensures inside { result.0 ≤ length bytes.now }
        ensures grows { Grows (length (take there self.old.head)) result.0 (length (kept_in self.new)) }
        ensures taken { Taken self.old.limit (take there self.old.head) (take result.0 bytes.now) result.1 self.new.body.items (kept_in self.new) }
        ensures legal { IsLegalAnswer self.old.limit result.1 }
        ensures moves { 0 < length bytes.now → 0 < result.0 }
    {
        let count = bytes.len().min(HEADER_SIZE - there);
        put(&mut self.head, there, &bytes[..count]);
        if there + count < HEADER_SIZE {
            self.stage = Stage::Begun {
                length: there + count,
            };
            return (count, Found::More);
        }
        (count, self.read_head())
    }

    /// What a whole head is: a header, or bytes behind whose magic the next one is looked for.
    fn read_head(&mut self) -> Found
        requires room { HasRoom self.old }
        requires front { take 8 self.old.head ≡ magic }
        ensures limit { self.new.limit ≡ self.old.limit }
        ensures sound { IsSound self.new }
        ensures legal { IsLegalAnswer self.old.limit result }
        ensures few { length (kept_in self.new) ≤ header_size }
        ensures taken { HeadTaken self.old.limit self.old.head result self.new.body.items (kept_in self.new) }
    {
        let (count, matched) = seek(0, &self.head[8..]);
        match vc_header::read(&self.head, self.limit) {
            Ok(header) => {
                self.body.clear();
                self.stage = Stage::Open { header, matched };
                Found::Head(header)
            },
            Err(_) => {
                self.pass_over(count, matched);
                Found::More
            },
        }
    }

    /// Passes over a magic of no header, to the next one or the beginning of one.
    fn pass_over(&mut self, count: usize, matched: usize)
        requires room { HasRoom self.old }
        requires sought { Sought 0 (drop 8 self.old.head) count matched }
        ensures limit { self.new.limit ≡ self.old.limit }
        ensures sound { IsSound self.new }
        ensures few { length (kept_in self.new) ≤ header_size }
        ensures kept { kept_in self.new ≡ (if nat_lt matched 8 then start_of_magic (drop 8 self.old.head) else drop count self.old.head) }
    {
        if matched < 8 {
            self.stage = Stage::Seeking { matched };
            return;
        }
        let head = self.head;
        let length = HEADER_SIZE - count;
        put(&mut self.head, 0, &head[count..]);
        self.stage = Stage::Begun { length };
    }

    /// Takes the bytes of a frame, up to a magic in it or to its end.
    fn fill(&mut self, header: Header, matched: usize, bytes: &[u8]) -> (usize, Found)
        requires room { HasRoom self.old }
        requires open { IsOpen self.old.limit self.old.head self.old.body.items header matched }
        ensures limit { self.new.limit ≡ self.old.limit }
        ensures sound { IsSound self.new }
        ensures inside { result.0 ≤ length bytes.now }
        ensures grows { Grows (length (self.old.head ++ self.old.body.items)) result.0 (length (kept_in self.new)) }
        ensures taken { Taken self.old.limit (self.old.head ++ self.old.body.items) (take result.0 bytes.now) result.1 self.new.body.items (kept_in self.new) }
        ensures legal { IsLegalAnswer self.old.limit result.1 }
        ensures moves { result.1 ≡ More → 0 < length bytes.now → 0 < result.0 }
    {
        let room = bytes.len().min(header.size as usize - self.body.len());
        let (count, matched) = seek(matched, &bytes[..room]);
        if matched == 8 {
            self.stage = Stage::Begun { length: 8 };
            return (count, Found::Cut(header));
        }
        append(&mut self.body, &bytes[..count]);
        if self.body.len() == header.size as usize {
            self.stage = Stage::Seeking { matched };
            return (count, Found::Whole(header));
        }
        self.stage = Stage::Open { header, matched };
        (count, Found::More)
    }
}
