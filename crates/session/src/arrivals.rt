// Arrival of a request.
ghost use Rattle.std.specs.Prelude.{◌≡◌};
ghost use Rattle.session.specs.Calls.{answer_to};

use crate::{Answer, Session};
use calls::{Call, Refusal};
use stream::Stream;

impl Session {
    // A request of a stream, counted from 1, at a place, with the host's tag: 8, 9.
    // The three travel together as `Call::Arrival`; by this name they are what C's function takes.
    pub fn arrival(self, stream: u64, place: u64, tag: u32) -> Answer
        ensures { result ≡ answer_to self (Call.Arrival stream place tag) }
    {
        if !self.is_sound() {
            return self.refuse(Refusal::Unsound);
        }
        if (stream == 0) | ((self.count as u64) < stream) {
            return self.refuse(Refusal::NoStream);
        }
        let n = (stream - 1) as usize;
        let x = &self.streams[n];
        if x.queued == Stream::QUEUE_MAX {
            return self.refuse(Refusal::QueueFull);
        }
        self.append(n, place, tag)
    }
}
