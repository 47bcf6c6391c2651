// Any of the five calls, taken as a value.
ghost use Rattle.std.specs.Prelude.{◌≡◌};
ghost use Rattle.session.specs.Calls.{answer_to};

use crate::{Answer, Session};
use calls::Call;

impl Session {
    // Makes the call. Each branch returns, and the hint has a caller that knows the call make that one alone, so that no answer is copied.
    #[inline(always)]
    pub fn call(self, call: Call) -> Answer
        ensures { result ≡ answer_to self call }
    {
        match call {
            Call::Arrival { stream, place, tag } => {
                return self.arrival(stream, place, tag);
            }
            Call::Turn => {
                return self.turn();
            }
            Call::OwnTurn { stream, index } => {
                return self.own_turn(stream, index);
            }
            Call::Done { duration } => {
                return self.done(duration);
            }
            Call::Clock { time } => {
                return self.clock(time);
            }
        }
    }
}
