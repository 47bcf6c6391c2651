// The changes of an old file that is read in pieces.
ghost use Rattle.std.specs.Prelude.{◌≡◌, length};
ghost use Rattle.repair.specs.Pieces.{list_of, list_on};

use crate::events::kept_in;
use crate::listed_in;
use file::Refusal;

// What is still to come of a trace: where it starts in the old file, and how many of its events may be kept.
#[derive(Clone, Copy, Debug, PartialEq, Eq)]
pub struct Rest {
    pub at: u64,
    pub room: usize,
}

// How many changes were listed, and what is left behind the piece.
#[derive(Clone, Copy, Debug, PartialEq, Eq)]
pub struct Listed {
    pub changes: usize,
    pub rest: Rest,
}

impl Rest {
    // The most that an end may come to: no file is longer.
    const END_MAX: u64 = 0x7fff_ffff_ffff_ffff;

    // Lists the changes of a piece of the trace, which has whole events unless it is the last, or refuses and leaves the list as it was.
    pub fn list(self, piece: &[u8], changes: &mut [[u64; 2]]) -> Result<Listed, Refusal>
        ensures value { result ≡ list_of self piece.now (length changes.old) }
        ensures changes_after { changes.new ≡ list_on self piece.now changes.old }
    {
        let Rest { at, room } = self;
        let kept = kept_in(piece, room);
        let listed = listed_in(piece, kept);
        if (Rest::END_MAX < at) | (changes.len() < listed) {
            return Err(Refusal::Room);
        }
        if Rest::END_MAX - at < piece.len() as u64 {
            return Err(Refusal::Room);
        }
        self.put_changes(piece, changes);
        let rest = Rest {
            at: at + piece.len() as u64,
            room: room - kept,
        };
        Ok(Listed {
            changes: listed,
            rest,
        })
    }
}
