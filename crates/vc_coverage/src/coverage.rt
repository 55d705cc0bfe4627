//! Reading a stream piece by piece.

ghost use Rattle.std.specs.Prelude.{◌≡◌, ◌<◌, ◌+◌, ◌^◌, ℕ, List, [], ◌++◌, length, IfOk};
ghost use Rattle.vc_base.specs.Limits.{most_bytes};
ghost use Rattle.vc_defs.specs.Places.{leaves_a_byte};
ghost use Rattle.vc_coverage.specs.KeyHeaders.{has_key_header};
ghost use Rattle.vc_coverage.specs.Covering.{HasRead, WasRead, ReadsOn, bytes_read};

use crate::reach::Reach;
use std::alloc::Global;
use std::marker::Model;
use vc_base::limits::MOST_BYTES;
use vc_base::{NoMemory, Stamp};
use vc_resync::{Assembly, Found, feed};

/// Which of the bytes of a stream that were read so far lie in frames.
#[derive(Drop)]
pub struct Coverage {
    assembly: Assembly,
    read: u64,
    reach: Reach,
}

impl Model for Coverage {
    ghost use Rattle.vc_coverage.specs.Covering.{CoverageState, WasRead};

    ghost Value = { CoverageState };

    ghost view = { λ c. record { assembly = c.assembly; read = c.read; reach = c.reach } };

    ghost invariant = { λ c. WasRead (record { assembly = c.assembly; read = c.read; reach = c.reach }) };
}

/// Feeds the next bytes of a stream, of which `read` were fed before.
fn feed_all(assembly: &mut Assembly, reach: &mut Reach, read: u64, piece: &[u8])
    requires fits { read + length piece.now < 2 ^ 64 }
    requires was_read { WasRead (record { assembly = assembly.old; read = read; reach = reach.old }) }
    ensures { ReadsOn assembly.old assembly.new reach.old reach.new read piece.now }
{
    let mut taken = 0;
    loop {
        let (count, found) = feed(assembly, &piece[taken..], Stamp(0));
        taken += count;
        reach.go_on(read + taken as u64, &found);
        match found {
            Found::More => return,
            Found::Head(_) | Found::Whole(_) | Found::Cut(_) => {},
        }
    }
}

impl Coverage {
    /// No byte was read yet. Bodies have 17,694,720 bytes at most; the memory for one is taken here, and none later.
    ///
    /// # Errors
    /// `NoMemory` where no memory is found.
    pub fn make(alloc: Global) -> Result<Coverage, NoMemory>
        ensures nothing { IfOk result (λ coverage. HasRead coverage []) }
        ensures count { IfOk result (λ coverage. bytes_read coverage ≡ 0) }
    {
        let assembly = Assembly::make(alloc, MOST_BYTES)?;
        Ok(Coverage {
            assembly,
            read: 0,
            reach: Reach::new(),
        })
    }

    /// Reads the next bytes of the stream. Where it is cut into pieces doesn't matter.
    pub fn read(&mut self, piece: &[u8])
        requires fits { bytes_read self.old + length piece.now < 2 ^ 64 }
        ensures bytes { (bytes : List ℕ) → HasRead self.old bytes → HasRead self.new (bytes ++ piece.now) }
        ensures count { bytes_read self.new ≡ bytes_read self.old + length piece.now }
    {
        feed_all(&mut self.assembly, &mut self.reach, self.read, piece);
        self.read += piece.len() as u64;
    }

    /// How many bytes were read.
    pub fn count(&self) -> u64
        ensures count { result ≡ bytes_read self.now }
        ensures bytes { (bytes : List ℕ) → HasRead self.now bytes → result ≡ length bytes }
    {
        self.read
    }

    /// Whether some byte that was read lies in no frame, if the stream ends here.
    pub fn leaves_a_byte(&self) -> bool
        ensures { (bytes : List ℕ) → HasRead self.now bytes → result ≡ leaves_a_byte bytes most_bytes }
    {
        self.reach.covered < self.read
    }

    /// Whether the header of an I frame was read, whole and legal. Bytes without one have
    /// [no results](crate::laws::no_results_without_key_header).
    pub fn has_key_header(&self) -> bool
        ensures { (bytes : List ℕ) → HasRead self.now bytes → result ≡ has_key_header bytes most_bytes }
    {
        self.reach.key
    }
}
