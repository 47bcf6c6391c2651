// Whether a session is sound: the one place where that is tested.
ghost use Rattle.std.specs.Prelude.{◌≡◌};
ghost use Rattle.session.specs.Session.{sound};
ghost use Rattle.session.specs.Inner.{census_of};

use crate::Session;
use stream::Census;
use time::Clock;

impl Session {
    // Whether the session is sound: its streams and what it keeps of them, then the clock, then the request at the disk.
    pub fn is_sound(&self) -> bool
        ensures { result ≡ sound self.now }
    {
        let Some(census) = self.census() else {
            return false;
        };
        let unused = self.streams[self.count..].iter().all(|x| x.is_unused());
        let streams = census.is_sound(self.margin, self.remainders);
        let in_time = !self.clock.is_past_end();
        if !(unused & streams & in_time & (self.served <= self.count)) {
            return false;
        }
        if self.served == 0 {
            return (self.place == 0) & (self.tag == 0);
        }
        1 <= self.streams[self.served - 1].slots(self.worst, self.horizon)
    }

    // What is kept of the used streams as they are judged, or none where the numbers are refused or a stream is not in order.
    fn census(&self) -> Option<Census>
        ensures { result ≡ census_of self.now }
    {
        let first = &self.streams[0];
        let mut census = Census::begin(self.numbers(), self.count, self.horizon, first)?;
        for x in &self.streams[..self.count] {
            census = census.with(x)?;
        }
        Some(census)
    }
}
