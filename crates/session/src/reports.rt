// A report of the time.
ghost use Rattle.std.specs.Prelude.{◌≡◌};
ghost use Rattle.session.specs.Calls.{answer_to};

use crate::{Answer, Session};
use calls::{Call, Refusal};
use time::Clock;

impl Session {
    // The time is reported: 10, 13, 14.
    // The hint is that of `set_clock`.
    #[inline(always)]
    pub fn clock(self, time: u64) -> Answer
        ensures { result ≡ answer_to self (Call.Clock time) }
    {
        if !self.is_sound() {
            return self.refuse(Refusal::Unsound);
        }
        if self.served != 0 {
            return self.refuse(Refusal::Busy);
        }
        let now = Clock::at(time);
        if now < self.clock {
            return self.refuse(Refusal::Backwards);
        }
        if now.is_past_end() {
            return self.refuse(Refusal::PastEnd);
        }
        let until = self.latest();
        self.set_clock(now, until)
    }
}
