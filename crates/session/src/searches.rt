// What is looked for among the streams of a sound session, up to its horizon.
ghost use Rattle.std.specs.Prelude.{◌≡◌, true};
ghost use Rattle.session.specs.Session.{sound};
ghost use Rattle.session.specs.Inner.{outlook_of, pick_of, survey_of};

use crate::Session;
use stream::{Pick, better, consider};
use time::Clock;

// The horizon of a sound session and its latest safe moment.
#[derive(Clone, Copy)]
pub struct Outlook {
    pub horizon: Clock,
    pub latest: Clock,
}

// What a turn without a request to send goes by: which stream would lose a slot, if one has any, and whether a move would close a job past the session's end.
#[derive(Clone, Copy)]
pub struct Survey {
    pub expiring: Option<usize>,
    pub beyond: bool,
}

impl Session {
    // The request to send, where some slot is filled, by the order that the session holds.
    pub(crate) fn pick(&self) -> Option<Pick>
        requires { sound self.now ≡ true }
        ensures { result ≡ pick_of self.now }
    {
        let mut best = None;
        for (i, x) in self.streams[..self.count].iter().enumerate() {
            best = consider(best, x, i, self.worst, self.horizon, self.order, self.head);
        }
        best
    }

    // All that is asked of the streams where no slot is filled, in one pass. By their indices, since the stream that expires is told by its index: where none was found so far, the one at i stands in for it.
    pub(crate) fn survey(&self) -> Survey
        requires { sound self.now ≡ true }
        ensures { result ≡ survey_of self.now }
    {
        let mut expiring = None;
        let mut beyond = false;
        for i in 0..self.count {
            let other = &self.streams[expiring.unwrap_or(i)];
            let x = &self.streams[i];
            expiring = better(expiring, other, i, x, self.worst, self.horizon);
            beyond |= x.closes_past_end(self.horizon);
        }
        Survey { expiring, beyond }
    }

    // What lies ahead of the session, if it is sound.
    pub fn outlook(&self) -> Option<Outlook>
        ensures { result ≡ outlook_of self.now }
    {
        if !self.is_sound() {
            return None;
        }
        Some(Outlook {
            horizon: self.horizon,
            latest: self.latest(),
        })
    }
}
