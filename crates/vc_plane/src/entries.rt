//! Entries of a plane: a head, and the words of a block.

ghost use Rattle.std.specs.Prelude.{◌≡◌, ◌≤◌, ◌<◌, ◌+◌, ◌-◌, ℕ, length, slice_index, IfOk, OnOk, OnErr};
ghost use Rattle.vc_defs.specs.Quantiser.{AreValues};
ghost use Rattle.vc_defs.specs.Words.{word_of};
ghost use Rattle.vc_defs.specs.Planes.{inter_of, repeats_of, head_of, is_head};
ghost use Rattle.vc_plane.specs.Entries.{IsEntryRead, IsNoEntry};

use vc_defs::Damaged;
use vc_rlc::read_block;

/// An entry that was read: whether its blocks are P blocks, how many further blocks are like the first, and its end.
#[derive(Clone, Copy)]
pub(crate) struct EntryRead {
    pub(crate) inter: bool,
    pub(crate) repeats: usize,
    pub(crate) end: usize,
}

/// Whether a head is of P blocks.
fn is_inter(word: u16) -> bool
    ensures { result ≡ inter_of word }
{
    32768 <= word
}

/// How many further blocks a head stands for.
fn repeats(word: u16) -> usize
    ensures value { result ≡ repeats_of word }
    ensures most { result < 4096 }
{
    (word / 2 % 4096) as usize
}

/// The head of an entry.
pub(crate) fn head(inter: bool, repeats: usize) -> u16
    requires { repeats < 4096 }
    ensures { result ≡ head_of inter repeats }
{
    let bit = if inter { 32768 } else { 0 };
    bit + 2 * repeats as u16
}

/// Whether a word is a head, where so many blocks are left.
fn is_legal_head(frame: bool, left: usize, word: u16) -> bool
    ensures { result ≡ is_head frame left word }
{
    word == head(is_inter(word), repeats(word))
        && repeats(word) < left
        && (frame || !is_inter(word))
}

/// The word at `at`.
fn word_at(bytes: &[u8], at: usize) -> Result<u16, Damaged>
    requires { at ≤ length bytes.now }
    ensures ok { IfOk result (λ w. (at + 2 ≤ length bytes.now) × (w ≡ word_of (slice_index bytes.now at) (slice_index bytes.now (at + 1)))) }
    ensures damaged { OnErr result (length bytes.now < at + 2) }
{
    if bytes.len() - at < 2 {
        return Err(Damaged);
    }
    Ok(bytes[at] as u16 * 256 + bytes[at + 1] as u16)
}

/// Reads an entry from `at` on, where so many blocks are left, and gives the values of its block.
pub(crate) fn read_entry(
    bytes: &[u8],
    at: usize,
    frame: bool,
    left: usize,
    q: &mut [i32; 64],
) -> Result<EntryRead, Damaged>
    requires place { at ≤ length bytes.now }
    requires left { 0 < left }
    ensures ok { IfOk result (λ e. IsEntryRead bytes.now at frame left e.inter e.repeats q.new e.end) }
    ensures values { OnOk result (AreValues q.new) }
    ensures damaged { OnErr result (IsNoEntry bytes.now at frame left) }
{
    let word = word_at(bytes, at)?;
    if !is_legal_head(frame, left, word) {
        return Err(Damaged);
    }
    let end = read_block(bytes, at + 2, q)?;
    Ok(EntryRead {
        inter: is_inter(word),
        repeats: repeats(word),
        end,
    })
}
