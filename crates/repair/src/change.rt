// The changes that are listed of a file that is salvaged.
ghost use Rattle.std.specs.Prelude.{◌≡◌};
ghost use Rattle.listing.specs.Line.{text_of};
ghost use Rattle.repair.specs.Salvage.{contents_change, dropped_at, cut_at, pair_of, change_of};
ghost use Rattle.repair.specs.Line.{change_word, change_fields};

use listing::Text;

// The contents table rewritten, an event dropped or the tail cut, and the position in the old file. The kind is a number since the C interface hands it out.
#[repr(C)]
#[derive(Clone, Copy, Debug, PartialEq, Eq)]
pub struct Change {
    pub kind: u64,
    pub position: u64,
}

impl Change {
    pub const CONTENTS: u64 = 1;

    pub const DROPPED: u64 = 2;

    pub const CUT: u64 = 3;

    pub fn contents() -> Change
        ensures { result ≡ contents_change }
    {
        Change {
            kind: Change::CONTENTS,
            position: 0,
        }
    }

    pub fn dropped(position: u64) -> Change
        ensures { result ≡ dropped_at position }
    {
        Change {
            kind: Change::DROPPED,
            position,
        }
    }

    pub fn cut(position: u64) -> Change
        ensures { result ≡ cut_at position }
    {
        Change {
            kind: Change::CUT,
            position,
        }
    }

    // The line of a change: its word, and the position. A kind that there is not has the word of a cut.
    #[tactic(auto, unfolding(crate::specs::Line::change_fields))]
    pub fn line(self) -> Text
        ensures { result ≡ text_of (change_fields self) }
    {
        listing::worded(self.word(), &[self.position])
    }

    #[tactic(auto, using(file::proofs::Choices::choices), unfolding(listing::specs::Line::ascii))]
    fn word(self) -> &'static [u8]
        ensures { result.now ≡ change_word self.kind }
    {
        match self.kind {
            Change::CONTENTS => b"contents",
            Change::DROPPED => b"dropped",
            _ => b"cut",
        }
    }
}

// The change that two numbers are.
impl From<[u64; 2]> for Change {
    ghost from_gives = { λ pair change. change ≡ change_of pair };

    fn from(pair: [u64; 2]) -> Change {
        Change {
            kind: pair[0],
            position: pair[1],
        }
    }
}

// A change as two numbers.
impl From<Change> for [u64; 2] {
    ghost from_gives = { λ change pair. pair ≡ pair_of change };

    fn from(change: Change) -> [u64; 2] {
        [change.kind, change.position]
    }
}
