// One stream of a session, and the record of its last closed job.
#![tactic(auto)]

mod census;
mod choice;
mod expiry;
mod sums;

ghost use Rattle.std.specs.Prelude.{◌≡◌, ◌-◌, ◌≤◌, ◌<◌};
ghost use Rattle.stream.specs.Stream.{queue_max, slots, filled, sound_queue, sound_cells, zero_job, unused_stream, arrived, without, charged, lapsed, closed, moved, closes_past_end, fresh_stream};
ghost use Rattle.table.specs.Ranges.{worst_max, period_max};
ghost use Rattle.table.specs.Admission.{granted_of};
ghost use Rattle.time.specs.Time.{session_end};
ghost use Rattle.stream.specs.Bounds.{Bounded};
ghost use Rattle.stream.specs.Search.{in_order};

pub use census::Census;
pub use choice::{Pick, consider};
pub use expiry::better;
pub use sums::Sums;
use table::{Numbers, Reservation, closed_up};
use time::{Charge, Clock};

#[repr(C)]
#[derive(Clone, Copy, Debug, PartialEq, Eq)]
pub struct Job {
    pub charge: Charge,
    pub closed: Clock,
    pub deadline: Clock,
    pub expired: u64,
    pub start: Charge,
}

// The first `queued` of the sixteen places are used, in order of arrival, and each place has its tag at the same index: two rows, as C has them.
#[repr(C)]
#[derive(Clone, Copy, Debug, PartialEq, Eq)]
pub struct Stream {
    pub reserved: u32,
    pub period: u32,
    pub granted: Charge,
    pub release: Clock,
    pub deadline: Clock,
    pub charge: Charge,
    pub expired: u64,
    pub start: Charge,
    pub queued: usize,
    pub places: [u64; Stream::QUEUE_MAX],
    pub tags: [u32; Stream::QUEUE_MAX],
    pub last: Job,
}

impl Stream {
    pub const QUEUE_MAX: usize = 16;

    // A stream at its first release: nothing queued, nothing charged, no job closed. Its three numbers are those of `fresh_stream`, of which the all-zero stream has none that was booked.
    pub fn fresh(reserved: u32, period: u32, granted: u64) -> Stream
        ensures { result ≡ fresh_stream reserved period granted }
    {
        let start = Clock::at(0);
        let nothing = Charge::of(0);
        Stream {
            reserved,
            period,
            granted: Charge::of(granted),
            release: start,
            deadline: Clock::at(period as u64),
            charge: nothing,
            expired: 0,
            start: nothing,
            queued: 0,
            places: [0; Stream::QUEUE_MAX],
            tags: [0; Stream::QUEUE_MAX],
            last: Job {
                charge: nothing,
                closed: start,
                deadline: start,
                expired: 0,
                start: nothing,
            },
        }
    }

    // How many requests of the worst-case time fit before the horizon, by one division.
    // Whoever counts slots asks the same of the stream, of W and of the horizon (`Bounded`). Each call has its own horizon, so that a struct of the three would be made anew for each stream and each count.
    pub fn slots(&self, worst: u32, h: Clock) -> u64
        requires { Bounded worst h.0 self.now }
        ensures { result ≡ slots worst h.0 self.now }
    {
        let room = self.granted.times(h.since(self.release));
        let used = self.charge.times(self.period as u64);
        room.saturating_sub(used) / (worst as u64 * self.period as u64)
    }

    // How many of them queued requests fill.
    pub fn filled(&self, worst: u32, h: Clock) -> usize
        requires { Bounded worst h.0 self.now }
        ensures { result ≡ filled worst h.0 self.now }
    {
        let slots = self.slots(worst, h);
        slots.min(self.queued as u64) as usize
    }

    // Whether its cells are those of a stream in use, whatever the horizon.
    pub(crate) fn is_sound(&self, numbers: Numbers) -> bool
        requires { (0 < numbers.worst) × (numbers.worst ≤ worst_max) × (granted_of numbers.worst numbers.padding self.now.reserved ≤ period_max) }
        ensures { result ≡ sound_cells numbers.worst numbers.padding self.now }
    {
        let budget = self.granted == Charge::of(numbers.granted(self.reserved));
        let due = self.deadline.is_later_by(self.release, self.period);
        let in_session = !self.deadline.is_past_end();
        let charge = self.charge.is_near(self.granted);
        if !(budget & due & in_session & charge) {
            return false;
        }
        let covered = self.charge.covers(self.start, numbers.worst, self.expired);
        covered && queue_is_sound(&self.places, &self.tags, self.queued)
    }

    // Whether nothing refuses its reservation, its cells are those of a stream in use, and its job is open at the horizon.
    pub(crate) fn is_in_order(&self, numbers: Numbers, h: Clock) -> bool
        requires { (0 < numbers.worst) × (numbers.worst ≤ worst_max) }
        ensures { result ≡ in_order numbers.worst numbers.span numbers.padding h.0 self.now }
    {
        let reservation = Reservation {
            reserved: self.reserved,
            period: self.period,
        };
        if numbers.stream_refusal(reservation).is_err() {
            return false;
        }
        let cells = self.is_sound(numbers);
        cells & (self.release <= h) & (h <= self.deadline)
    }

    // Whether every cell is 0.
    pub fn is_unused(&self) -> bool
        ensures { result ≡ unused_stream self.now }
    {
        *self == Stream::fresh(0, 0, 0)
    }

    // With a place and its tag at the queue's end.
    pub fn arrived(self, place: u64, tag: u32) -> Stream
        requires { self.queued < queue_max }
        ensures { result ≡ arrived place tag self }
    {
        let n = self.queued;
        let mut x = self;
        x.places[n] = place;
        x.tags[n] = tag;
        x.queued = n + 1;
        x
    }

    // Without the request at an index of its queue.
    pub fn without(self, j: usize) -> Stream
        requires { (j < queue_max) × (1 ≤ self.queued) }
        ensures { result ≡ without j self }
    {
        Stream {
            queued: self.queued - 1,
            places: closed_up(0, self.places, j),
            tags: closed_up(0, self.tags, j),
            ..self
        }
    }

    // With a completion charged.
    pub fn charged(self, duration: Charge) -> Stream
        requires { (self.charge.0 ≤ session_end) × (duration.0 ≤ session_end) }
        ensures { result ≡ charged duration.0 self }
    {
        Stream {
            charge: self.charge.plus(duration),
            ..self
        }
    }

    // With a slot expired.
    pub fn lapsed(self, worst: u32) -> Stream
        requires { (self.charge.0 ≤ session_end) × (self.expired ≤ session_end) }
        ensures { result ≡ lapsed worst self }
    {
        Stream {
            charge: self.charge.plus(Charge::of(worst as u64)),
            expired: self.expired + 1,
            ..self
        }
    }

    // At a move: its job is closed if it is due at the horizon.
    // That the deadline is in the session is asked by the three functions that look past it: an image from outside may hold any, and soundness is what tests it.
    pub fn moved(self, now: Clock, h: Clock) -> Stream
        requires { self.deadline.0 ≤ session_end }
        ensures { result ≡ moved now h.0 self }
    {
        if self.deadline == h {
            self.closed(now)
        } else {
            self
        }
    }

    // Whether it would close its job at the horizon, and its next deadline pass the session's end.
    pub fn closes_past_end(&self, h: Clock) -> bool
        requires { self.now.deadline.0 ≤ session_end }
        ensures { result ≡ closes_past_end h.0 self.now }
    {
        let due = self.deadline == h;
        let next = self.deadline.plus(self.period);
        due & next.is_past_end()
    }

    // With its job closed and the next one begun, which starts with what this one was charged above its budget.
    fn closed(self, now: Clock) -> Stream
        requires { self.deadline.0 ≤ session_end }
        ensures { result ≡ closed now self }
    {
        let carried = self.charge.above(self.granted);
        Stream {
            release: self.deadline,
            deadline: self.deadline.plus(self.period),
            charge: carried,
            expired: 0,
            start: carried,
            last: Job {
                charge: self.charge,
                closed: now,
                deadline: self.deadline,
                expired: self.expired,
                start: self.start,
            },
            ..self
        }
    }
}

// At most sixteen places are queued, and the cells past them are 0, of the places and of the tags.
fn queue_is_sound(
    places: &[u64; Stream::QUEUE_MAX],
    tags: &[u32; Stream::QUEUE_MAX],
    queued: usize,
) -> bool
    ensures { result ≡ sound_queue places.now tags.now queued }
{
    if Stream::QUEUE_MAX < queued {
        return false;
    }
    // One loop for each row, since a generic one would have to ask a trait which cell is 0. Every cell is looked at, so that the compiler compares several at a time: by `all`, which stops at the first, a session of eight streams takes 13 % more instructions to judge.
    let mut places_clear = true;
    for place in &places[queued..] {
        places_clear &= *place == 0;
    }
    let mut tags_clear = true;
    for tag in &tags[queued..] {
        tags_clear &= *tag == 0;
    }
    places_clear & tags_clear
}
