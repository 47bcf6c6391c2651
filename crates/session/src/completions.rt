// The end of the request at the disk.
ghost use Rattle.std.specs.Prelude.{◌≡◌};
ghost use Rattle.session.specs.Calls.{answer_to};

use crate::{Answer, Session};
use calls::{Call, Refusal};
use time::Charge;

impl Session {
    // The request at the disk has ended: 11, 12, 14.
    pub fn done(self, duration: u64) -> Answer
        ensures { result ≡ answer_to self (Call.Done duration) }
    {
        if !self.is_sound() {
            return self.refuse(Refusal::Unsound);
        }
        if self.served == 0 {
            return self.refuse(Refusal::Idle);
        }
        if (duration < 1) | (Charge::DURATION_MAX < duration) {
            return self.refuse(Refusal::Duration);
        }
        let taken = Charge::of(duration);
        let end = self.clock.after(taken);
        if end.is_past_end() {
            return self.refuse(Refusal::PastEnd);
        }
        self.finish(self.served - 1, taken)
    }
}
