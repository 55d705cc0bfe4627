//! How far frames reach, by what an assembly told.

ghost use Rattle.std.specs.Prelude.{◌≡◌, ◌≤◌, true};
ghost use Rattle.vc_resync.specs.Assembling.{is_told};
ghost use Rattle.vc_coverage.specs.Reaching.{first_reach, covered_behind, reach_behind};

use vc_resync::Found;

/// What the headers and frames say that were told.
#[derive(Clone, Copy)]
pub(crate) struct Reach {
    /// Where the frame begins whose header was told last.
    pub(crate) begins: u64,
    /// So many of the first bytes lie in frames, and the one behind them doesn't.
    pub(crate) covered: u64,
    /// The header of an I frame was told.
    pub(crate) key: bool,
}

/// How many bytes a header has.
const HEADER: u64 = 44;

/// How many bytes of a magic are read where it cuts a frame.
const MAGIC: u64 = 8;

impl Reach {
    /// Nothing was told.
    pub(crate) fn new() -> Reach
        ensures { result ≡ first_reach }
    {
        Reach {
            begins: 0,
            covered: 0,
            key: false,
        }
    }

    /// Behind a frame that ends before this place.
    fn cover(&mut self, end: u64)
        ensures { self.new ≡ record { begins = self.old.begins; covered = covered_behind self.old.covered self.old.begins end; key = self.old.key } }
    {
        if self.begins <= self.covered {
            self.covered = end;
        }
    }

    /// Behind an answer that came when so many bytes were read.
    pub(crate) fn go_on(&mut self, read: u64, found: &Found)
        requires { is_told found.now ≡ true → 44 ≤ read }
        ensures { self.new ≡ reach_behind self.old read found.now }
    {
        match found {
            Found::More => {},
            Found::Head(header) => {
                self.begins = read - HEADER;
                self.key = self.key || header.key;
            },
            Found::Whole(_) => self.cover(read),
            Found::Cut(_) => self.cover(read - MAGIC),
        }
    }
}
