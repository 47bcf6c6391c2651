// Why a session file, or an event of one, is refused.
ghost use Rattle.std.specs.Prelude.{◌≡◌};
ghost use Rattle.file.specs.Refusal.{refusal_number};
ghost use Rattle.file.specs.declared.refusal.Refusal.TheVariants.{Layout as NotLaidOut};

use order::UnknownOrder;

// What is read or written is not as laid out; or the buffer has no room for it.
#[derive(Clone, Copy, Debug, PartialEq, Eq)]
pub enum Refusal {
    Layout,
    Room,
}

impl Refusal {
    // The number by which callers are told.
    pub fn number(self) -> u64
        ensures { result ≡ refusal_number self }
    {
        match self {
            Refusal::Layout => 16,
            Refusal::Room => 17,
        }
    }
}

// A third body that holds the number of no order is not as laid out.
impl From<UnknownOrder> for Refusal {
    ghost from_gives = { λ _ refusal. refusal ≡ NotLaidOut };

    fn from(_unknown: UnknownOrder) -> Refusal {
        Refusal::Layout
    }
}
