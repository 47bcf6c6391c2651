// The caller's own choice.
ghost use Rattle.std.specs.Prelude.{◌≡◌};
ghost use Rattle.session.specs.Calls.{answer_to};

use crate::{Answer, Session};
use calls::{Call, Refusal};

impl Session {
    // The caller's own choice from the set, a stream, counted from 1, and an index of its queue: 10, 8, 15.
    // Without the hint it takes 5 % more instructions, since the session is copied once more.
    #[inline(always)]
    pub fn own_turn(self, stream: u64, index: u64) -> Answer
        ensures { result ≡ answer_to self (Call.OwnTurn stream index) }
    {
        if !self.is_sound() {
            return self.refuse(Refusal::Unsound);
        }
        if self.served != 0 {
            return self.refuse(Refusal::Busy);
        }
        if (stream == 0) | ((self.count as u64) < stream) {
            return self.refuse(Refusal::NoStream);
        }
        let n = (stream - 1) as usize;
        let x = self.streams[n];
        let filled = x.filled(self.worst, self.horizon);
        if filled as u64 <= index {
            return self.refuse(Refusal::NotInSet);
        }
        self.send(n, index as usize)
    }
}
