// The house's turn.
ghost use Rattle.std.specs.Prelude.{◌≡◌};
ghost use Rattle.session.specs.Calls.{answer_to};

use crate::{Answer, Session};
use calls::{Call, Refusal};

impl Session {
    // What the house does next, the first that applies: 10, 14.
    pub fn turn(self) -> Answer
        ensures { result ≡ answer_to self Call.Turn }
    {
        if !self.is_sound() {
            return self.refuse(Refusal::Unsound);
        }
        if self.served != 0 {
            return self.refuse(Refusal::Busy);
        }
        // a. some slot is filled: send
        if let Some(pick) = self.pick() {
            return self.send(pick.stream, pick.index);
        }
        // b. no stream has a slot: move, or 14
        let seen = self.survey();
        let Some(expiring) = seen.expiring else {
            if seen.beyond {
                return self.refuse(Refusal::PastEnd);
            }
            return self.move_on();
        };
        // c. only empty slots and t < L: wait until L
        let until = self.latest();
        if self.clock < until {
            return self.wait(until);
        }
        // d. only empty slots and t ≥ L: expire one slot
        self.expire(expiring)
    }
}
