// The horizon, the sum of all remainders, and the latest safe moment that follows from them.
ghost use Rattle.std.specs.Prelude.{◌≡◌, true};
ghost use Rattle.time.specs.Time.{moment};
ghost use Rattle.time.specs.Latest.{remainders};
ghost use Rattle.session.specs.Session.{horizon, latest, remainders_of, sound, asked};
ghost use Rattle.session.specs.Inner.{Bookkept};

use crate::Session;
use stream::Sums;
use time::{Clock, Remainders};

impl Session {
    // The latest safe moment, or none, which is 31. It is asked of three cells, and nothing else is judged: any session is answered.
    pub fn asked(&self) -> Option<Clock>
        ensures { result ≡ asked self.now }
    {
        self.horizon
            .less_remainders(self.remainders, self.span as u64)
    }

    // The latest safe moment of a sound session, which always has one.
    // That the session is sound is asked here and by the two searches: a struct round it that keeps the fact would be a copy of 3 KB more, or a borrow that ends where the next step takes the session.
    pub(crate) fn latest(&self) -> Clock
        requires { sound self.now ≡ true }
        ensures { result ≡ moment (latest self.now) }
    {
        self.asked().unwrap()
    }

    // The smallest deadline of the used streams.
    pub(crate) fn soonest(&self) -> Clock
        requires { Bookkept self.now }
        ensures { result ≡ moment (horizon self.now) }
    {
        let mut h = self.streams[0].deadline;
        for x in &self.streams[..self.count] {
            h = h.min(x.deadline);
        }
        h
    }

    // The sum of all remainders up to the horizon, times the span.
    pub(crate) fn summed(&self, h: Clock) -> Remainders
        requires { Bookkept self.now × (h ≡ moment (horizon self.now)) }
        ensures { result ≡ remainders (remainders_of self.now) }
    {
        let mut sums = Sums::none();
        for x in &self.streams[..self.count] {
            sums = sums.with(x, self.span, h);
        }
        sums.remainders(self.span)
    }
}
